// What a driver asks for.
use process_tree::Name;
use session_text::Line;

/// What a line of a driver asks for.
#[derive(Drop)]
pub enum Request {
    /// What a line of a session asks for.
    Session(Line),
    /// The start of the process that the line spells behind its first word.
    StartSpelled,
    /// The pieces that are unfinished.
    Pieces,
    /// How each active process stands.
    Waits,
    /// What became of the step of this name of this process.
    Happened(u32, Name),
    /// What became of the processes of this name.
    Started(Name),
}

/// What became of a step, at which place of the history, counted from 1.
#[derive(Clone, Copy, Debug, PartialEq, Eq)]
pub enum Happening {
    /// It took effect and stands.
    Done(u32),
    /// It took effect, and was undone here.
    Undone(u32),
    NotDone,
}
