// Any piece is asked for: the first free one in rotation, once the victims of a stall are made.
ghost use Rattle.std.specs.Prelude.{◌≡◌, ◌≤◌, ◌-◌, None, filter, is_some, length, nat_eq, not, true};
ghost use Rattle.std.specs.Option.{option_map};
ghost use Rattle.machine_model.specs.Calls.{next, next_is};
ghost use Rattle.process_tree.specs.Blocks.{numbers_from};
ghost use Rattle.process_tree.specs.Shape.{greatest};
ghost use Rattle.core_state.specs.Cores.{moment_of};
ghost use Rattle.process_core.specs.Answers.{after_call, answer_in};
ghost use Rattle.process_core.specs.Handing.{with_all, with_served};
ghost use Rattle.process_core.specs.Rotation.{IfWaiting, exhausted_in, first_told, found_after, next_reply_of, piece_found};
ghost use Rattle.process_core.specs.Rotation.{piece_in, waiting_in, waiting_of};
ghost use Rattle.process_core.specs.Moments.{can_be_victim_in, first_blocked_in, first_free_in, free_piece_in, none_free_in};
ghost use Rattle.process_core.specs.Moments.{reply_in, victim_in, victims_in};

use crate::cores::Core;
use crate::handing::{Blocker, no_blocker};
use crate::replies::{Admit, Found, Next, Waiting};
use core_state::some_runs;

/// What is found, where a process that comes before is blocked.
fn found_after(first: Option<Waiting>, found: Found) -> Found
    ensures { result ≡ found_after first found }
{
    match found {
        Found::Piece(piece) => Found::Piece(piece),
        Found::Waiting(second) => Found::Waiting(first.or(second)),
    }
}

impl Core {
    /// Whether a piece is running.
    pub(crate) fn is_running(&self) -> bool
        ensures { result ≡ not (nat_eq (length (moment_of self.now).out) 0) }
    {
        some_runs(&self.seats)
    }

    /// Whether a process isn't asked: one that comes before it is blocked, and it has no piece since what blocked the last one
    /// blocks it too.
    fn is_passed(&self, i: u32, waiting: Option<Waiting>, blocker: Blocker) -> bool
        ensures waiting { result ≡ true → is_some waiting ≡ true }
        ensures piece { result ≡ true → piece_in (reply_in self.now i) ≡ None }
    {
        waiting.is_some() && self.waits_for(i, blocker)
    }

    /// What is found among the processes from one number to before another. Many wait for the same process, so none is asked that
    /// what blocked the last one blocks too.
    fn found_among(&self, from: u32, to: u32) -> Found
        requires { from ≤ to }
        ensures piece { piece_found result ≡ first_told (λ i. piece_in (reply_in self.now i)) (numbers_from from (to - from)) }
        ensures waiting { IfWaiting result
            (λ w. w ≡ first_told (λ i. waiting_in i (reply_in self.now i)) (numbers_from from (to - from))) }
    {
        let mut waiting = None;
        let mut blocker = no_blocker();
        for i in from..to {
            if self.is_passed(i, waiting, blocker) {
                continue;
            }
            match self.reply_of(i) {
                Admit::Piece(piece) => return Found::Piece(piece),
                Admit::Blocked(block) => {
                    blocker = self.blocker(block);
                    waiting = waiting.or(Some(Waiting { process: i, block }));
                }
                _ => {}
            }
        }
        Found::Waiting(waiting)
    }

    /// What is found among all processes in rotation.
    pub(crate) fn found_in_rotation(&self) -> Found
        ensures piece { piece_found result ≡ free_piece_in self.now }
        ensures waiting { IfWaiting result (λ w. option_map waiting_of w ≡ first_blocked_in self.now) }
    {
        let count = self.seats.len() as u32;
        let served = self.served.min(count);
        match self.found_among(served + 1, count + 1) {
            Found::Piece(piece) => Found::Piece(piece),
            Found::Waiting(first) => found_after(first, self.found_among(1, served + 1)),
        }
    }

    /// The first exhausted process of those from one number to before another.
    pub(crate) fn first_exhausted(&self, from: u32, to: u32) -> Option<u32>
        requires { from ≤ to }
        ensures { result ≡ first_told (λ i. exhausted_in i (reply_in self.now i)) (numbers_from from (to - from)) }
    {
        for i in from..to {
            if let Admit::Exhausted(_) = self.reply_of(i) {
                return Some(i);
            }
        }
        None
    }

    /// Whether a process is blocked and has not begun to complete.
    fn can_be_victim(&self, i: u32) -> bool
        ensures { result ≡ can_be_victim_in self.now i }
    {
        if self.began(i).is_some() {
            return false;
        }
        match self.reply_of(i) {
            Admit::Blocked(_) => true,
            _ => false,
        }
    }

    /// The greatest such process of those up to a number.
    fn greatest_victim(&self, count: u32) -> Option<u32>
        ensures { result ≡ greatest (filter (can_be_victim_in self.now) (numbers_from 1 count)) }
    {
        let mut left = count;
        while left > 0 {
            let i = left;
            if self.can_be_victim(i) {
                return Some(i);
            }
            left -= 1;
        }
        None
    }

    /// The victim, where no piece is free. There is none while a piece runs.
    fn blocked_victim(&self) -> Option<u32>
        requires { first_free_in self.now ≡ None }
        ensures { result ≡ victim_in self.now }
    {
        let count = self.seats.len() as u32;
        if self.is_running() {
            None
        } else {
            self.greatest_victim(count)
        }
    }

    /// What is found in rotation, once the victims are made.
    pub(crate) fn free_piece(&mut self) -> Found
        ensures core { self.new ≡ with_all self.old (victims_in self.old) }
        ensures piece { piece_found result ≡ free_piece_in self.new }
        ensures waiting { IfWaiting result (λ w. option_map waiting_of w ≡ first_blocked_in self.new) }
    {
        let mut found = self.found_in_rotation();
        'stalls: while found.has_none() {
            let Some(i) = self.blocked_victim() else {
                return found;
            };
            self.make_victim(i);
            found = self.found_in_rotation();
        }
        found
    }

    /// Why no piece is free, with the first blocked process in rotation.
    fn none_free(&self, waiting: Option<Waiting>) -> Next
        requires { option_map waiting_of waiting ≡ first_blocked_in self.now }
        ensures { next_reply_of result ≡ none_free_in self.now }
    {
        if self.holds.next_open(0).is_none() {
            return Next::AllEnded;
        }
        if self.is_running() {
            return Next::Wait(waiting);
        }
        let count = self.seats.len() as u32;
        Next::Stuck(self.first_exhausted(1, count + 1).unwrap_or(0))
    }

    /// The rotation goes on after this process.
    fn serve(&mut self, process: u32)
        ensures { self.new ≡ with_served self.old process }
    {
        self.served = process;
    }

    /// Makes the victims of a stall, and hands out the first free piece in rotation, or says why there is none.
    pub fn next(&mut self) -> Next
        ensures core { self.new ≡ after_call self.old next }
        ensures reply { next_is (next_reply_of result) ≡ (answer_in self.old next).reply }
    {
        match self.free_piece() {
            Found::Waiting(waiting) => self.none_free(waiting),
            Found::Piece(piece) => {
                self.hand(&piece);
                self.serve(piece.process());
                Next::Piece(piece)
            }
        }
    }
}
