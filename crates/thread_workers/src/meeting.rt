// Two gates that meet: each holds its first piece until the other has one too.
ghost use Rattle.std.specs.Prelude.{◌≡◌, ◌≤◌, ◌+◌, ◌-◌, ◌^◌, min, IfOk};

use process_core::Piece;
use process_engine::{Answer, Gate};
use std::alloc::{AllocError, Global};
use std::marker::Model;
use std::sync::Arc;
use std::sync::atomic::{AtomicBool, Ordering};
use std::thread;

// Which of the two was asked for a piece.
#[derive(Drop)]
struct Arrivals {
    one: AtomicBool,
    other: AtomicBool,
}

/// A gate that does all pieces but its first if the other gate of the pair is never asked while it looks. For tests: two that meet
/// have worked at the same time.
#[derive(Drop)]
pub struct MeetingGate {
    arrivals: Arc<Arrivals, Global>,
    is_other: bool,
    turns: u32,
    calls: u64,
    refusals: u64,
}

impl Model for MeetingGate {
    ghost use Rattle.thread_workers.specs.Meeting.{MeetingState};

    ghost Value = { MeetingState };

    ghost view = { λ g. record { calls = g.calls; refusals = g.refusals } };
}

impl MeetingGate {
    /// Two gates, each of which looks at most so many times whether the other was asked.
    pub fn pair(alloc: Global, turns: u32) -> Result<(MeetingGate, MeetingGate), AllocError>
        ensures one { IfOk result (λ p. p.0 ≡ record { calls = 0; refusals = 0 }) }
        ensures other { IfOk result (λ p. p.1 ≡ record { calls = 0; refusals = 0 }) }
    {
        let arrivals = Arrivals {
            one: AtomicBool::new(false),
            other: AtomicBool::new(false),
        };
        let arrivals = Arc::new(alloc, arrivals)?;
        let same = Arc::try_clone(&arrivals)?;
        let one = MeetingGate {
            arrivals,
            is_other: false,
            turns,
            calls: 0,
            refusals: 0,
        };
        let other = MeetingGate {
            arrivals: same,
            is_other: true,
            turns,
            calls: 0,
            refusals: 0,
        };
        Ok((one, other))
    }

    // Says that it was asked, and looks for the other.
    fn meets(&self) -> bool {
        let arrivals = &*self.arrivals;
        let (own, others) = if self.is_other {
            (&arrivals.other, &arrivals.one)
        } else {
            (&arrivals.one, &arrivals.other)
        };
        own.store(true, Ordering::SeqCst);
        for _ in 0..self.turns {
            if others.load(Ordering::SeqCst) {
                return true;
            }
            thread::yield_now();
        }
        false
    }
}

impl Gate for MeetingGate {
    ghost use Rattle.std.specs.Prelude.{None};

    ghost answers = { λ p. None };

    ghost asked = { λ g. g.calls };

    ghost refusals = { λ g. g.refusals };

    fn work(&mut self, piece: &Piece) -> Answer
        ensures asked { self.new.calls ≡ min (self.old.calls + 1) (2 ^ 64 - 1) }
        ensures later { self.old.refusals ≤ self.new.refusals }
        ensures counted { result ≡ Answer.Refused → self.new.refusals ≡ min (self.old.refusals + 1) (2 ^ 64 - 1) }
        ensures uncounted { result ≡ Answer.Done → self.new.refusals ≡ self.old.refusals }
        ensures first { result ≡ Answer.Refused → self.old.calls ≡ 0 }
    {
        let _ = piece;
        let is_first = self.calls == 0;
        self.calls = self.calls.saturating_add(1);
        if !is_first || self.meets() {
            return Answer::Done;
        }
        self.refusals = self.refusals.saturating_add(1);
        Answer::Refused
    }
}
