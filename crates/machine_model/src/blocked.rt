// Why a piece has to wait.

/// The rule by which a piece is blocked.
#[derive(Clone, Copy, Debug, PartialEq, Eq)]
pub enum Rule {
    /// A piece that is under way conflicts with the step.
    A0,
    /// A step that another process has reserved, or has to undo, conflicts with the step.
    A1,
    /// The step would close a circle of processes of which each builds on the one before.
    A2,
    /// What the piece would fix builds on what an active process may still take back.
    A3,
    /// The step would reserve one that conflicts with what another process holds.
    A4,
    /// Another process has built on what is to be undone.
    A5,
}

/// What a piece is blocked on: step `other` of process `on`, by its own process's step `own`.
#[derive(Clone, Copy, Debug, PartialEq, Eq)]
pub struct Blocked {
    pub on: u32,
    pub other: u16,
    pub own: u16,
    pub rule: Rule,
}

/// Whether a piece may be handed out.
#[derive(Clone, Copy, Debug, PartialEq, Eq)]
pub enum Admitted {
    Free,
    Blocked(Blocked),
}
