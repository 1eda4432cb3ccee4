// What is told of the seats together.
ghost use Rattle.std.specs.Prelude.{◌≡◌, is_some};
ghost use Rattle.std.specs.List.{list_any};
ghost use Rattle.core_state.specs.Beginnings.{can_begin};

use crate::seats::Seat;

/// Whether one of these is of an active process that has not begun to complete.
pub fn some_can_begin(seats: &[Seat]) -> bool
    ensures { result ≡ list_any can_begin seats.now }
{
    seats.iter().any(|seat| seat.can_begin())
}

/// Whether one of these has a piece that is out.
pub fn some_runs(seats: &[Seat]) -> bool
    ensures { result ≡ list_any (λ s. is_some s.out) seats.now }
{
    seats.iter().any(|seat| seat.is_running())
}
