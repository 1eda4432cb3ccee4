// Steps of a process.
ghost use Rattle.std.specs.Prelude.{◌≡◌};
ghost use Rattle.process_tree.specs.Shape.{commits_by_kind, can_be_refused};

use crate::Name;
use plain_list::Items;

/// How a step can be taken back.
#[derive(Clone, Copy, Debug, PartialEq, Eq)]
pub enum StepKind {
    /// Compensatable: it may be refused, and it can be undone.
    C,
    /// Pivot: it may be refused, and it can't be undone.
    P,
    /// Retriable: it succeeds within its tries, and it can't be undone.
    R,
    /// Compensatable and retriable: it succeeds within its tries, and it can be undone where forward recovery doesn't owe it.
    Cr,
}

impl StepKind {
    /// Whether a step of this kind is a commit point once it took effect, where forward recovery owes it or not.
    pub fn commits(self, is_owed: bool) -> bool
        ensures { result ≡ commits_by_kind self is_owed }
    {
        match self {
            StepKind::C => false,
            StepKind::P | StepKind::R => true,
            StepKind::Cr => is_owed,
        }
    }

    /// Whether a step of this kind can be refused.
    pub fn can_be_refused(self) -> bool
        ensures { result ≡ can_be_refused self }
    {
        match self {
            StepKind::C | StepKind::P => true,
            StepKind::R | StepKind::Cr => false,
        }
    }
}

/// A step. A field that its kind doesn't have holds its default.
#[derive(Drop)]
pub struct Step {
    pub kind: StepKind,
    pub name: Name,
    pub op: Name,
    pub key: u32,
    pub amount: i64,
    /// How many tries a step has that can't be refused.
    pub tries: u8,
    /// How many tries the undo has of a step that can be undone.
    pub undo_tries: u8,
    /// How many tries the plain gate refuses.
    pub refuse: u8,
    /// How many tries of the undo the plain gate refuses.
    pub undo_refuse: u8,
}

/// A list of steps.
pub type Steps = Items<Step>;
