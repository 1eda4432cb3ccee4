// What a command has to say.
use command_refusals::{Refusal, Status};

/// What a command has to say where it did what it is for.
#[derive(Drop)]
pub struct Said {
    pub text: Vec<u8>,
    pub status: Status,
}

/// What a command leaves of the rack and the boxes that it was given, and what it has to say.
#[derive(Drop)]
pub struct CommandEnd<P: Drop> {
    pub parts: P,
    pub found: Result<Said, Refusal>,
}
