//! Tests of processes on their way through the program, over racks in memory: a session that a fault ends; how many device calls
//! groups save; and nine files with the program's own boxes, which are opened, settled or refused. Runs and sessions over real
//! files are rows (`tests/rows`).
#![tactic(auto)]

#[cfg(test)]
mod bulks;
#[cfg(test)]
mod cases;
#[cfg(test)]
mod expected;
#[cfg(test)]
mod faults;
#[cfg(test)]
mod groups;
#[cfg(test)]
mod openings;
