// Calls that touch no file.
ghost use Rattle.std.specs.Prelude.{◌≡◌, ◌≢◌, true, OnOk, OnErr, IfOk, IfErr};
ghost use Rattle.process_tree.specs.declared.play.Outcome.TheVariants.{Refused};
ghost use Rattle.machine_model.specs.Calls.{abort, aborted, admit, admitted, complete_all, finish, finished, next, next_is};
ghost use Rattle.machine_model.specs.Replies.{refused};
ghost use Rattle.process_core.specs.Answers.{after_call, answer_in};
ghost use Rattle.process_core.specs.Handing.{admit_reply_of};
ghost use Rattle.process_core.specs.Moments.{has_started_in, seat_in};
ghost use Rattle.process_core.specs.Rotation.{next_reply_of};
ghost use Rattle.engine_steps.specs.Engines.{IsClosed, with_core};
ghost use Rattle.engine_steps.specs.Pieces.{IsStepOut};
ghost use Rattle.engine_steps.specs.declared.engines.Phase.TheVariants as phase;

use crate::{Closed, Engine};
use process_core::{Aborted, Admit, Next, Piece, Refusal};
use process_disk::Rack;

impl<R: Rack + Drop, B: Drop> Engine<R, B> {
    /// What `admit` would answer for a process, with nothing handed out. A closed engine tells it too.
    pub fn peek(&self, i: u32) -> Admit
        ensures { admitted (admit_reply_of result) ≡ (answer_in self.now.core (admit i)).reply }
    {
        self.core.peek(i)
    }

    /// The number of the piece of a process that is out.
    pub fn out(&self, i: u32) -> Option<u32>
        requires { has_started_in self.now.core i ≡ true }
        ensures { result ≡ (seat_in self.now.core i).out }
    {
        self.core.out(i)
    }

    /// Hands out the next piece of a process, or says why not.
    pub fn admit(&mut self, i: u32) -> Result<Admit, Closed>
        ensures engine { OnOk result (self.new ≡ with_core self.old (after_call self.old.core (admit i))) }
        ensures reply { IfOk result (λ reply. admitted (admit_reply_of reply) ≡ (answer_in self.old.core (admit i)).reply) }
        ensures open { OnOk result (self.old.phase ≢ phase.Closed) }
        ensures closed { IfErr result (IsClosed self.old) }
        ensures left { OnErr result (self.new ≡ self.old) }
    {
        self.not_closed()?;
        Ok(self.core.admit(i))
    }

    /// Makes the victims of a stall, and hands out the first free piece in rotation, or says why there is none.
    pub fn next(&mut self) -> Result<Next, Closed>
        ensures engine { OnOk result (self.new ≡ with_core self.old (after_call self.old.core next)) }
        ensures reply { IfOk result (λ reply. next_is (next_reply_of reply) ≡ (answer_in self.old.core next).reply) }
        ensures open { OnOk result (self.old.phase ≢ phase.Closed) }
        ensures closed { IfErr result (IsClosed self.old) }
        ensures left { OnErr result (self.new ≡ self.old) }
    {
        self.not_closed()?;
        Ok(self.core.next())
    }

    /// Asks a process to complete.
    pub fn abort(&mut self, i: u32) -> Result<Aborted, Closed>
        ensures engine { OnOk result (self.new ≡ with_core self.old (after_call self.old.core (abort i))) }
        ensures reply { IfOk result (λ reply. aborted reply ≡ (answer_in self.old.core (abort i)).reply) }
        ensures open { OnOk result (self.old.phase ≢ phase.Closed) }
        ensures closed { IfErr result (IsClosed self.old) }
        ensures left { OnErr result (self.new ≡ self.old) }
    {
        self.not_closed()?;
        Ok(self.core.abort(i))
    }

    /// Every active process that has not begun to complete begins to.
    pub fn complete_all(&mut self) -> Result<(), Closed>
        ensures engine { OnOk result (self.new ≡ with_core self.old (after_call self.old.core complete_all)) }
        ensures open { OnOk result (self.old.phase ≢ phase.Closed) }
        ensures closed { IfErr result (IsClosed self.old) }
        ensures left { OnErr result (self.new ≡ self.old) }
    {
        self.not_closed()?;
        self.core.complete_all();
        Ok(())
    }

    /// A piece is refused: its process tries it again, or goes another way or back. It is asked while nothing is under way, so a
    /// closed engine keeps no refusal.
    pub fn refuse_piece(&mut self, piece: Piece) -> Refusal
        requires settled { self.old.phase ≡ phase.Settled }
        requires out { IsStepOut self.old.core piece.piece }
        ensures engine { self.new ≡ with_core self.old (after_call self.old.core (finish piece.piece.number Refused)) }
        ensures reply { finished (refused result) ≡ (answer_in self.old.core (finish piece.piece.number Refused)).reply }
    {
        self.core.refused(piece)
    }
}
