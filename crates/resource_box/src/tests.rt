// What no clause says: that a box of each kind runs.
use super::*;
use std::alloc::Global;
use std::process::Abort;
use std::test::Fail;

// Makes a pair of the call's key and applies the call, and answers the value before.
fn apply(resource: &mut Box<dyn Resource + Send>, call: Call) -> Result<i64, Fail> {
    resource.ready(call.key)?;
    Ok(resource.apply(&call))
}

#[test]
fn a_box_of_each_kind_keeps_its_values(rt: HostRuntime) -> Result<(), Fail> {
    let alloc = rt.alloc();
    let mut counters: Box<dyn Resource + Send> = Box::new(alloc, Counters::new(alloc))?;
    let mut cells: Box<dyn Resource + Send> = Box::new(alloc, Cells::new(alloc))?;
    let mut seats: Box<dyn Resource + Send> = Box::new(alloc, Seats::new(alloc))?;
    let add = Call {
        verb: Verb::Add,
        key: 7,
        amount: i64::MAX,
    };
    assert_eq!(rt; apply(&mut counters, add)?, 0);
    assert_eq!(rt; apply(&mut counters, add)?, i64::MAX);
    assert_eq!(rt; counters.look(7), -2);
    let put = Call {
        verb: Verb::Put,
        key: 7,
        amount: 5,
    };
    assert_eq!(rt; apply(&mut cells, put)?, 0);
    assert_eq!(rt; cells.look(7), 5);
    let hold = Call {
        verb: Verb::Hold,
        key: 0,
        amount: 3,
    };
    assert_eq!(rt; apply(&mut seats, hold)?, 0);
    assert!(rt; seats.bars(&hold));
    seats.clear();
    assert!(rt; !seats.bars(&hold));
    Ok(())
}
