// Pieces are handed out.
ghost use Rattle.std.specs.Prelude.{◌≡◌, ◌<◌, ◌+◌, IfSome, None, length, true, false};
ghost use Rattle.machine_model.specs.Calls.{admit, admitted};
ghost use Rattle.machine_model.specs.Pieces.{hands};
ghost use Rattle.machine_model.specs.Replies.{kept_hand};
ghost use Rattle.process_core.specs.Answers.{after_call, answer_in};
ghost use Rattle.process_core.specs.Handing.{AreNumbered, IsOfPlan, admit_reply_of, piece_told, with_kept};
ghost use Rattle.process_core.specs.Rotation.{piece_in};
ghost use Rattle.core_state.specs.Upcoming.{upcoming};
ghost use Rattle.core_state.specs.declared.seats.Upcoming.TheVariants.{Task};
ghost use Rattle.process_core.specs.Moments.{has_started_in, may_keep, piece_or_block_in, reply_in, seat_in};

use crate::cores::Core;
use crate::pieces::Piece;
use crate::replies::Admit;
use admission::{Admitted, admit, is_barred, is_held_up, place_of_step};
use core_state::{Seat, Upcoming, come_under_way};
use machine_model::{Blocked, Kept, Rule, Todo, Work};
use process_tree::Plan;

/// What blocked a process, by which others may be blocked too: the slot of the other process, and the place of its net entry.
#[derive(Clone, Copy)]
pub struct Blocker {
    slot: Option<u16>,
    entry: Option<usize>,
}

/// Nothing.
pub fn no_blocker() -> Blocker {
    Blocker {
        slot: None,
        entry: None,
    }
}

/// The next piece of a process, as it is handed out with this number.
fn piece_told(plan: &Plan, number: u32, process: u32, tried: u8, todo: Todo) -> Piece
    requires { IsOfPlan plan.now todo }
    ensures { result ≡ piece_told plan.now number process tried todo }
{
    let (work, step, refuse) = match todo {
        Todo::Forward(step) => (Work::Forward, step, plan.tree.step(step).refuse),
        Todo::Undo(step) => (Work::Undo, step, plan.tree.step(step).undo_refuse),
        Todo::End => (Work::End, 0, 0),
        Todo::Exhausted(_) => unreachable!(),
    };
    Piece {
        number,
        process,
        step,
        work,
        tried,
        refuse,
    }
}

/// The number of the next piece, by the last that was handed out.
fn next_number(kept: &[Kept]) -> u32
    requires numbered { AreNumbered (hands kept.now) }
    requires few { length (hands kept.now) < 4294967295 }
    ensures { result ≡ length (hands kept.now) + 1 }
{
    let mut rest = kept;
    'events: while let Some((last, front)) = rest.split_last() {
        if let Kept::Hand { piece, .. } = last {
            return *piece + 1;
        }
        rest = front;
    }
    1
}

impl Core {
    /// The seat of a process that started.
    fn seat(&self, i: u32) -> Option<&Seat>
        ensures seat { IfSome result (λ s. s.now ≡ seat_in self.now i) }
        ensures started { IfSome result (λ s. has_started_in self.now i ≡ true) }
        ensures none { result ≡ None → has_started_in self.now i ≡ false }
    {
        let count = self.seats.len();
        if i == 0 {
            return None;
        }
        let place = i as usize - 1;
        if place >= count {
            return None;
        }
        Some(&self.seats[place])
    }

    /// The next piece of an active process that may be tried, or what blocks it.
    fn by_rules(&self, i: u32, todo: Todo, tried: u8) -> Admit
        requires { upcoming (seat_in self.now i) ≡ Task todo tried }
        ensures { admit_reply_of result ≡ piece_or_block_in self.now i }
    {
        let plan = &self.history.plans.as_slice()[i as usize - 1];
        match admit(&self.holds, plan, i, todo) {
            Admitted::Blocked(block) => Admit::Blocked(block),
            Admitted::Free => {
                let number = next_number(&self.kept);
                Admit::Piece(piece_told(plan, number, i, tried, todo))
            }
        }
    }

    /// Whether a step that comes next is blocked by what the process in a slot has against it.
    fn is_held(&self, i: u32, todo: Todo, tried: u8, slot: Option<u16>) -> bool
        requires { upcoming (seat_in self.now i) ≡ Task todo tried }
        ensures { result ≡ true → piece_in (piece_or_block_in self.now i) ≡ None }
    {
        let Some(slot) = slot else {
            return false;
        };
        let plan = &self.history.plans.as_slice()[i as usize - 1];
        is_held_up(&self.holds, plan, i, todo, usize::from(slot))
    }

    /// Whether a step that comes next is blocked by a net entry.
    fn is_behind(&self, i: u32, todo: Todo, tried: u8, entry: Option<usize>) -> bool
        requires { upcoming (seat_in self.now i) ≡ Task todo tried }
        ensures { result ≡ true → piece_in (piece_or_block_in self.now i) ≡ None }
    {
        let Some(place) = entry else {
            return false;
        };
        let plan = &self.history.plans.as_slice()[i as usize - 1];
        is_barred(&self.holds, plan, i, todo, place)
    }

    /// Whether what blocked another process blocks a step that comes next.
    fn is_stopped(&self, i: u32, todo: Todo, tried: u8, blocker: Blocker) -> bool
        requires { upcoming (seat_in self.now i) ≡ Task todo tried }
        ensures { result ≡ true → piece_in (piece_or_block_in self.now i) ≡ None }
    {
        self.is_held(i, todo, tried, blocker.slot) || self.is_behind(i, todo, tried, blocker.entry)
    }

    /// Whether a process has no piece since what blocked another blocks it too.
    pub(crate) fn waits_for(&self, i: u32, blocker: Blocker) -> bool
        ensures { result ≡ true → piece_in (reply_in self.now i) ≡ None }
    {
        let Some(seat) = self.seat(i) else {
            return false;
        };
        match seat.upcoming() {
            Upcoming::Task(todo, tried) => self.is_stopped(i, todo, tried, blocker),
            _ => false,
        }
    }

    /// What a block is on. A piece that is under way is no net entry.
    pub(crate) fn blocker(&self, block: Blocked) -> Blocker {
        Blocker {
            slot: self.holds.slot(block.on),
            entry: match block.rule {
                Rule::A0 => None,
                _ => place_of_step(&self.holds, block.on, block.other),
            },
        }
    }

    /// What a request for a piece of a process answers, with nothing kept.
    pub(crate) fn reply_of(&self, i: u32) -> Admit
        ensures { admit_reply_of result ≡ reply_in self.now i }
    {
        let Some(seat) = self.seat(i) else {
            return Admit::Unknown;
        };
        match seat.upcoming() {
            Upcoming::Ended => Admit::Ended,
            Upcoming::Running => Admit::Running,
            Upcoming::UsedUp(step) => Admit::Exhausted(step),
            Upcoming::Task(todo, tried) => self.by_rules(i, todo, tried),
        }
    }

    /// A piece that may be handed out is under way from now on.
    pub(crate) fn hand(&mut self, piece: &Piece)
        requires { may_keep self.old (kept_hand piece.now) ≡ true }
        ensures { self.new ≡ with_kept self.old (kept_hand piece.now) }
    {
        let plans = self.history.plans.as_slice();
        let place = piece.process as usize - 1;
        let plan = &plans[place];
        come_under_way(&mut self.holds, plan, piece.process, piece.step, piece.work);
        self.seats[place].out = Some(piece.number);
        self.kept.push_reserved(Kept::Hand {
            piece: piece.number,
            process: piece.process,
            step: piece.step,
            work: piece.work,
        });
    }

    /// What `admit` would answer for a process, with nothing handed out.
    pub fn peek(&self, i: u32) -> Admit
        ensures { admitted (admit_reply_of result) ≡ (answer_in self.now (admit i)).reply }
    {
        self.reply_of(i)
    }

    /// The number of the piece of a process that is out.
    pub fn out(&self, i: u32) -> Option<u32>
        requires { has_started_in self.now i ≡ true }
        ensures { result ≡ (seat_in self.now i).out }
    {
        self.seat(i)?.out
    }

    /// Hands out the next piece of a process, or says why not.
    pub fn admit(&mut self, i: u32) -> Admit
        ensures core { self.new ≡ after_call self.old (admit i) }
        ensures reply { admitted (admit_reply_of result) ≡ (answer_in self.old (admit i)).reply }
    {
        let reply = self.reply_of(i);
        if let Admit::Piece(piece) = &reply {
            self.hand(piece);
        }
        reply
    }
}
