// Effects of processes on a subsystem.
use resource_box::Call;

/// What a step of a process did to the subsystem, or its undo.
#[derive(Clone, Copy, Debug, PartialEq, Eq)]
pub struct Effect {
    /// How many steps of all subsystems took effect or were undone before it.
    pub number: u32,
    pub process: u32,
    pub step: u16,
    pub undo: bool,
    pub call: Call,
}

/// A forward effect that isn't undone, with the value before it.
#[derive(Clone, Copy)]
pub struct Undoable {
    pub effect: Effect,
    pub before: i64,
}

/// What a body says.
#[derive(Clone, Copy)]
pub enum Record {
    Prepared(Effect),
    Committed(u32),
}
