// Pieces are refused.
ghost use Rattle.std.specs.Prelude.{◌≡◌, false};
ghost use Rattle.process_tree.specs.declared.play.Outcome.TheVariants.{Refused};
ghost use Rattle.machine_model.specs.declared.kept.Work.TheVariants.{End};
ghost use Rattle.machine_model.specs.declared.replies.PieceState.TheVariants.{Out};
ghost use Rattle.machine_model.specs.Calls.{finish, finished};
ghost use Rattle.machine_model.specs.Pieces.{state_of};
ghost use Rattle.machine_model.specs.Progress.{same_work};
ghost use Rattle.machine_model.specs.Replies.{refused};
ghost use Rattle.process_core.specs.Answers.{after_call, answer_in};
ghost use Rattle.core_state.specs.Cores.{IsHandedBy, moment_of};

use crate::Core;
use crate::pieces::Piece;
use core_state::{drag_along, drags_along, refuse};
use machine_model::{Kept, Refusal, Work};

impl Core {
    /// A piece of this number, process, step and work was refused.
    fn refuse_piece(&mut self, number: u32, process: u32, step: u16, work: Work) -> Refusal
        requires handed { IsHandedBy self.old (record { number = number; process = process; step = step; work = work }) }
        requires out { state_of (moment_of self.old) number ≡ Out }
        requires no_end { same_work work End ≡ false }
        ensures core { self.new ≡ after_call self.old (finish number Refused) }
        ensures reply { finished (refused result) ≡ (answer_in self.old (finish number Refused)).reply }
    {
        let event = self.kept.len() as u32 + 1;
        let place = process as usize - 1;
        let refusal = refuse(
            &mut self.seats[place],
            &mut self.holds,
            process,
            step,
            event,
        );
        if !drags_along(refusal) {
            self.kept.push_reserved(Kept::Refuse(number));
            return refusal;
        }
        drag_along(
            &mut self.seats,
            &mut self.holds,
            &mut self.cascade,
            process,
            event,
        );
        self.kept.push_reserved(Kept::Refuse(number));
        refusal
    }

    /// A piece was refused; the answer is what this leads to.
    pub fn refused(&mut self, piece: Piece) -> Refusal
        requires handed { IsHandedBy self.old piece.piece }
        requires out { state_of (moment_of self.old) piece.piece.number ≡ Out }
        requires no_end { same_work piece.piece.work End ≡ false }
        ensures core { self.new ≡ after_call self.old (finish piece.piece.number Refused) }
        ensures reply { finished (refused result) ≡ (answer_in self.old (finish piece.piece.number Refused)).reply }
    {
        self.refuse_piece(piece.number(), piece.process(), piece.step(), piece.work())
    }
}
