// Places in a list of entries, counted from 1.
ghost use Rattle.std.specs.Prelude.{◌≡◌, ◌<◌, ◌≤◌, ◌++◌, length, nat_eq, not, ◌&&◌, IfSome, OnOk};
ghost use Rattle.schedule_model.specs.Histories.{takes_back};
ghost use Rattle.schedule_model.specs.PrintedTrace.{first_place, first_undo, move_between, place_taken_back, without};

use process_tree::Entry;
use schedule_rules::TraceStep;
use std::alloc::AllocError;

/// The first place that holds an undo.
pub fn first_undo(list: &[Entry]) -> Option<usize>
    ensures place { result ≡ first_undo list.now }
    ensures within { IfSome result (λ place. (0 < place) × (place ≤ length list.now)) }
{
    let mut place = 0;
    let mut rest = list;
    while let [entry, after @ ..] = rest {
        place += 1;
        if entry.undo {
            return Some(place);
        }
        rest = after;
    }
    None
}

/// The first place that holds an entry of a process.
pub fn first_of(list: &[Entry], process: u32) -> Option<usize>
    ensures place { result ≡ first_place (λ e. nat_eq e.process process) list.now }
    ensures within { IfSome result (λ place. (0 < place) × (place ≤ length list.now)) }
{
    let mut place = 0;
    let mut rest = list;
    while let [entry, after @ ..] = rest {
        place += 1;
        if entry.process == process {
            return Some(place);
        }
        rest = after;
    }
    None
}

/// The place of the step that the entry at a place takes back; 0 where there is none.
pub fn place_taken_back(list: &[Entry], place: usize) -> usize
    requires some { 0 < place }
    requires within { place ≤ length list.now }
    ensures place { result ≡ place_taken_back place list.now }
    ensures within { result ≤ length list.now }
{
    match first_taken_back(list, &list[place - 1]) {
        Some(step) => step,
        None => 0,
    }
}

/// The first place that holds a step which this entry takes back.
fn first_taken_back(list: &[Entry], undo: &Entry) -> Option<usize>
    ensures place { result ≡ first_place (λ e. not e.undo && takes_back undo.now e) list.now }
    ensures within { IfSome result (λ place. (0 < place) × (place ≤ length list.now)) }
{
    let mut place = 0;
    let mut rest = list;
    while let [entry, after @ ..] = rest {
        place += 1;
        if !entry.undo && takes_back(undo, entry) {
            return Some(place);
        }
        rest = after;
    }
    None
}

/// Whether the first entry takes the second back.
fn takes_back(undo: &Entry, entry: &Entry) -> bool
    ensures { result ≡ takes_back undo.now entry.now }
{
    undo.undo && entry.process == undo.process && entry.step == undo.step
}

/// Removes the entry at a place, if there is one.
pub fn remove(list: &mut Vec<Entry>, place: usize)
    ensures { list.new.items ≡ without place list.old.items }
{
    if 0 < place && place <= list.len() {
        list.remove(place - 1);
    }
}

/// Adds the move from one place to another, if they differ.
pub fn add_move(steps: &mut Vec<TraceStep>, from: usize, to: usize) -> Result<(), AllocError>
    requires from { from < 4294967296 }
    requires to { to < 4294967296 }
    ensures { OnOk result (steps.new.items ≡ steps.old.items ++ move_between from to) }
{
    if from != to {
        steps.push(TraceStep::Move(from as u32, to as u32))?;
    }
    Ok(())
}
