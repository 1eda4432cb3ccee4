//! Tests of `restart` through the program, over racks in memory: stops and faults within each device call of a run and of a
//! restart; and gates that refuse. What it makes of real files that were left unfinished, and files that it refuses, are rows
//! (`tests/rows/restart`).
#![tactic(auto)]

#[cfg(test)]
mod each_call;
#[cfg(test)]
mod faults;
#[cfg(test)]
mod gates;
#[cfg(test)]
mod plays;
#[cfg(test)]
mod stops;
