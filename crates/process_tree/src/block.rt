// Blocks of steps and choices.
use crate::Steps;

/// A list of steps, and then an end or a choice.
#[cycle(block)]
#[derive(Drop)]
pub struct Block {
    pub steps: Steps,
    pub tail: Tail,
}

/// What stands at the end of a block.
#[cycle(block)]
#[derive(Drop)]
pub enum Tail {
    End,
    /// Alternatives in order of preference.
    Choice(Vec<Block>),
}
