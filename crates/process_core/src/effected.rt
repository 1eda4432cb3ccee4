// Pieces take effect.
ghost use Rattle.std.specs.Prelude.{◌≡◌};
ghost use Rattle.process_tree.specs.declared.play.Outcome.TheVariants.{Done};
ghost use Rattle.machine_model.specs.Calls.{finish, finished};
ghost use Rattle.machine_model.specs.Pieces.{state_of};
ghost use Rattle.machine_model.specs.Replies.{effected};
ghost use Rattle.machine_model.specs.declared.replies.PieceState.TheVariants.{Out};
ghost use Rattle.process_core.specs.Answers.{after_call, answer_in};
ghost use Rattle.core_state.specs.Cores.{IsHandedBy, moment_of};

use crate::Core;
use crate::pieces::Piece;
use core_state::{effect, event_told};
use machine_model::Kept;

impl Core {
    /// A piece took effect; the answer is how many events the history has then.
    pub fn effected(&mut self, piece: Piece) -> u32
        requires handed { IsHandedBy self.old piece.piece }
        requires out { state_of (moment_of self.old) piece.piece.number ≡ Out }
        ensures core { self.new ≡ after_call self.old (finish piece.piece.number Done) }
        ensures reply { (answer_in self.old (finish piece.piece.number Done)).reply ≡ finished (effected result) }
    {
        let process = piece.process();
        let work = piece.work();
        let event = event_told(&self.holds, process);
        let place = process as usize - 1;
        let pending = self.seats[place].effected(work);
        let plan = &self.history.plans.as_slice()[place];
        effect(&mut self.holds, plan, process, piece.step(), work, pending);
        self.kept.push_reserved(Kept::Effect(piece.number()));
        self.history.events.push(event);
        self.history.events.as_slice().len() as u32
    }
}
