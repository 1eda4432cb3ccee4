//! Tests of the exact check: a table of processes, and the branch path of a step.
#![tactic(auto)]

#[cfg(test)]
mod processes;
#[cfg(test)]
mod table;
#[cfg(test)]
mod verdicts;
