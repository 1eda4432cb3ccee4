//! The program of `process_main`, whose stored run here is a `show` of the files of such a run.
#![tactic(auto)]

use process_program::program_of_system;
use std::env;
use std::process::ExitCode;

fn main(rt: HostRuntime) -> ExitCode {
    program_of_system(
        &rt,
        rt.alloc(),
        env::args(&rt),
        &rt,
        rt.stdin(),
        rt.stdout(),
        rt.stderr(),
    )
}
