//! Which schedules are as good as one process after another, however they came about.
//!
//! A later entry depends on an earlier one of its own process, or one that conflicts with it. `specs/Dependence` takes steps
//! away with their undos where no chain of entries leads from the one to the other, and says what is left, whether it is
//! barred, and whether it goes round. `specs/SerialOrder` has the processes in an order that respects what is left, and
//! `specs/Audited` what an audit answers. The layers above cite these definitions, and the laws of `specs/Laws`. This crate
//! has no algorithm.
#![tactic(auto)]

mod laws;
mod placed;

pub use laws::{
    left_is_computed, left_is_unique, legal_is_reducible, order_is_computed, schedules_are_once,
    serial_is_neither, serial_list_is_reached, serial_orders_are_reached, steps_keep_verdict,
    test_is_exact,
};
pub use placed::Placed;
