// Processes are asked to complete.
ghost use Rattle.std.specs.Prelude.{◌≡◌, true};
ghost use Rattle.machine_model.specs.Calls.{abort, aborted, complete_all};
ghost use Rattle.machine_model.specs.Replies.{abort_reply};
ghost use Rattle.machine_model.specs.declared.kept.Kept.TheVariants.{Victim};
ghost use Rattle.process_core.specs.Answers.{after_call, answer_in};
ghost use Rattle.core_state.specs.Beginnings.{IsBackward};
ghost use Rattle.process_core.specs.Handing.{with_kept};
ghost use Rattle.process_core.specs.Moments.{abort_reply_in, may_keep};

use crate::cores::Core;
use core_state::{Beginners, begin, begin_each, drag_along, some_can_begin};
use machine_model::{Aborted, Began, Cause, Kept};

impl Core {
    /// Every active process that has not begun to complete begins to. Where there is none, nothing is kept.
    pub fn complete_all(&mut self)
        ensures { self.new ≡ after_call self.old complete_all }
    {
        if !some_can_begin(&self.seats) {
            return;
        }
        let event = self.kept.len() as u32 + 1;
        begin_each(
            &mut self.seats,
            &mut self.holds,
            &self.cascade,
            Beginners::All,
            event,
        );
        self.kept.push_reserved(Kept::Restart);
    }
    /// At this event a process begins to complete, and so does whoever goes back with it.
    pub(crate) fn go_back(&mut self, i: u32, own: Cause, kept: Kept)
        requires back { IsBackward kept own i }
        requires may { may_keep self.old kept ≡ true }
        ensures { self.new ≡ with_kept self.old kept }
    {
        let event = self.kept.len() as u32 + 1;
        let place = i as usize - 1;
        begin(
            &mut self.seats[place],
            &mut self.holds,
            i,
            Began { event, cause: own },
        );
        drag_along(
            &mut self.seats,
            &mut self.holds,
            &mut self.cascade,
            i,
            event,
        );
        self.kept.push_reserved(kept);
    }
    /// What a request to complete answers, with nothing kept.
    fn abort_reply(&self, i: u32) -> Aborted
        ensures { result ≡ abort_reply_in self.now i }
    {
        let count = self.seats.len();
        if i == 0 {
            return Aborted::Unknown;
        }
        let place = i as usize - 1;
        if place >= count {
            return Aborted::Unknown;
        }
        self.seats[place].aborted()
    }

    /// Asks a process to complete.
    pub fn abort(&mut self, i: u32) -> Aborted
        ensures core { self.new ≡ after_call self.old (abort i) }
        ensures reply { aborted result ≡ (answer_in self.old (abort i)).reply }
    {
        let reply = self.abort_reply(i);
        if let Aborted::Ok = reply {
            self.go_back(i, Cause::Abort, Kept::Abort(i));
        }
        reply
    }

    /// This process is the victim.
    pub(crate) fn make_victim(&mut self, i: u32)
        requires { may_keep self.old (Victim i) ≡ true }
        ensures { self.new ≡ with_kept self.old (Victim i) }
    {
        self.go_back(i, Cause::Victim, Kept::Victim(i));
    }
}
