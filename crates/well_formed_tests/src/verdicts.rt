// What is said of processes.
use crate::processes::process;
use crate::table::TABLE;
use process_tree::Outcome;
use std::alloc::Global;
use well_formed::{Verdict, check, path};

/// A verdict in words.
fn words(alloc: Global, verdict: &Verdict) -> Result<String, anyhow::Error> {
    match verdict {
        Verdict::Good => Ok(String::from_str(alloc, "good")?),
        Verdict::NoMemory => Ok(String::from_str(alloc, "no memory")?),
        Verdict::Unreachable { step } => Ok(format!(in alloc; "unreachable {step}")?),
        Verdict::Stuck { step, outcomes } => {
            let mut text = format!(in alloc; "stuck {step}")?;
            for outcome in outcomes.as_slice() {
                text.push_str(match outcome {
                    Outcome::Done => " done",
                    Outcome::Refused => " refused",
                })?;
            }
            Ok(text)
        }
    }
}

#[test]
fn verdicts_are_those_found_by_trying_all_outcomes(rt: HostRuntime) -> Result<(), anyhow::Error> {
    let alloc = rt.alloc();
    let mut told_of: u8 = 0;
    for line in TABLE.lines() {
        if let Some((text, expected)) = line.split_once(' ') {
            let tree = process(alloc, text)?;
            let told = words(alloc, &check(alloc, &tree))?;
            assert_eq!(rt; told.as_str(), expected, "of {text}");
            told_of = told_of.saturating_add(1);
        }
    }
    assert_eq!(rt; told_of, 146);
    Ok(())
}

#[test]
fn the_branch_path_leaves_out_other_alternatives(rt: HostRuntime) -> Result<(), anyhow::Error> {
    let alloc = rt.alloc();
    let tree = process(alloc, "cp(cpr|rr)")?;
    let count = tree.count();
    assert!(rt; count == 7);
    let places = path(alloc, &tree, 6)?;
    let expected: [u16; 4] = [0, 1, 5, 6];
    assert!(rt; places.as_slice() == expected.as_slice());
    Ok(())
}
