// What is kept of each process.
ghost use Rattle.std.specs.Prelude.{◌≡◌, is_some};
ghost use Rattle.std.specs.Option.{option_map};
ghost use Rattle.machine_model.specs.ProcessState.{pending_count};
ghost use Rattle.core_state.specs.Beginnings.{aborted_by, can_begin};
ghost use Rattle.core_state.specs.Effects.{pending_in, seat_effected};
ghost use Rattle.core_state.specs.Seats.{is_number, state_by};
ghost use Rattle.core_state.specs.Upcoming.{upcoming};

use instance_state::{Instance, Todo};
use machine_model::{Aborted, Began, PieceState, Work};
use std::marker::Model;

/// What is kept of a process that started.
#[derive(Drop)]
pub struct Seat {
    /// How it stands, while it is active.
    pub instance: Option<Instance>,
    /// The number of its piece that is out.
    pub out: Option<u32>,
    /// The number of its piece that was dropped.
    pub lost: Option<u32>,
    /// When and why it began to complete.
    pub began: Option<Began>,
}

impl Model for Seat {
    ghost use Rattle.core_state.specs.Seats.{SeatState};

    ghost Value = { SeatState };

    ghost view = { λ s. record { instance = s.instance; out = s.out; lost = s.lost; began = s.began } };
}

/// What a process does next, by its seat alone.
#[derive(Clone, Copy)]
pub enum Upcoming {
    Ended,
    Running,
    /// This step, or its undo, was refused as often as it may be tried.
    UsedUp(u16),
    /// This is to be done, and was refused so often.
    Task(Todo, u8),
}

/// Whether this number is the one.
fn is_number(number: Option<u32>, n: u32) -> bool
    ensures { result ≡ is_number number n }
{
    match number {
        None => false,
        Some(k) => k == n,
    }
}

impl Seat {
    /// Whether the process is active.
    pub fn is_active(&self) -> bool
        ensures { result ≡ is_some self.now.instance }
    {
        self.instance.is_some()
    }

    /// Whether it has a piece that is out.
    pub fn is_running(&self) -> bool
        ensures { result ≡ is_some self.now.out }
    {
        self.out.is_some()
    }

    /// How many entries at the end of its net are to be undone, while it is active.
    pub fn pending(&self) -> Option<u16>
        ensures { result ≡ option_map (λ x. pending_count x.state) self.now.instance }
    {
        match &self.instance {
            None => None,
            Some(instance) => Some(instance.pending()),
        }
    }

    /// What a request to complete answers.
    pub fn aborted(&self) -> Aborted
        ensures { result ≡ aborted_by self.now }
    {
        let Some(instance) = &self.instance else {
            return Aborted::Ended;
        };
        match instance.todo() {
            Todo::Exhausted(_) => Aborted::Exhausted,
            _ if self.began.is_some() => Aborted::Already,
            _ => Aborted::Ok,
        }
    }

    /// Whether it is active and has not begun to complete.
    pub fn can_begin(&self) -> bool
        ensures { result ≡ can_begin self.now }
    {
        self.instance.is_some() && self.began.is_none()
    }

    /// Its piece that is out took effect; so many entries at the end of its net are to be undone then.
    pub fn effected(&mut self, work: Work) -> u16
        ensures seat { self.new ≡ seat_effected work self.old }
        ensures pending { result ≡ pending_in (seat_effected work self.old).instance }
    {
        self.out = None;
        if let Work::End = work {
            self.instance = None;
            return 0;
        }
        let Some(instance) = &mut self.instance else {
            return 0;
        };
        instance.effected();
        instance.pending()
    }

    /// What it does next.
    pub fn upcoming(&self) -> Upcoming
        ensures { result ≡ upcoming self.now }
    {
        let Some(instance) = &self.instance else {
            return Upcoming::Ended;
        };
        if self.out.is_some() {
            return Upcoming::Running;
        }
        match instance.todo() {
            Todo::Exhausted(step) => Upcoming::UsedUp(step),
            todo => Upcoming::Task(todo, instance.tried()),
        }
    }

    /// What became of the piece of this number, which is of this process.
    pub fn state(&self, n: u32) -> PieceState
        ensures { result ≡ state_by self.now n }
    {
        if is_number(self.out, n) {
            return PieceState::Out;
        }
        if !is_number(self.lost, n) {
            return PieceState::Over;
        }
        match self.began {
            None => PieceState::Over,
            Some(began) => PieceState::Dropped(began.event),
        }
    }
}
