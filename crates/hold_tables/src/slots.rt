// What the open processes hold beside their nets, as rows of bits by operation.
ghost use Rattle.std.specs.Prelude.{◌≡◌, ◌<◌, ◌&&◌, ◌||◌, [], ℕ, false, if◌then◌else◌, length, map, nat_eq};
ghost use Rattle.std.specs.Option.{option_to_list};
ghost use Rattle.schedule_model.specs.Histories.{of_process};
ghost use Rattle.bit_rows.specs.Cells.{cell};
ghost use Rattle.hold_tables.specs.Operations.{AddsAt, IsColumnTaken, IsSetAt, IsToldAt, ops_of, pending_ops, row_of};

use crate::row::{MOST, Row};
use bit_rows::Bits;
use process_tree::Entry;

/// How many rows there are: the last is that of all operations from 256 on.
pub const ROWS: usize = MOST + 1;

/// The row of an operation.
fn row_of(op: u16) -> usize
    ensures { result ≡ row_of op }
{
    usize::from(op).min(MOST)
}

/// Sets an operation at a place.
pub fn set_op(bits: &mut Bits, place: usize, op: u16)
    requires rows { length bits.old ≡ 257 }
    requires place { place < 256 }
    ensures count { length bits.new ≡ 257 }
    ensures own { (k p : ℕ) → cell bits.new k p ≡ ((nat_eq p place && nat_eq (row_of op) k) || cell bits.old k p) }
{
    bits.set(row_of(op), place);
}

/// Sets that of what is under way.
fn set_running(bits: &mut Bits, place: usize, running: Option<Entry>)
    requires rows { length bits.old ≡ 257 }
    requires place { place < 256 }
    ensures count { length bits.new ≡ 257 }
    ensures own { AddsAt place (ops_of (option_to_list running)) bits.old bits.new }
{
    if let Some(e) = running {
        set_op(bits, place, e.op);
    }
}

/// Sets those of reserved steps.
fn set_steps(bits: &mut Bits, place: usize, steps: &[(u16, u16, u32)])
    requires rows { length bits.old ≡ 257 }
    requires place { place < 256 }
    ensures count { length bits.new ≡ 257 }
    ensures own { AddsAt place (map (λ step. step.1) steps.now) bits.old bits.new }
{
    let mut rest = steps;
    while let [step, after @ ..] = rest {
        set_op(bits, place, step.1);
        rest = after;
    }
}

/// Sets those of the net entries that are to be undone of a process: so many of its last ones.
fn set_pending(bits: &mut Bits, place: usize, row: &Row, net: &[Entry])
    requires rows { length bits.old ≡ 257 }
    requires place { place < 256 }
    ensures count { length bits.new ≡ 257 }
    ensures own { AddsAt place (pending_ops net.now row.now) bits.old bits.new }
{
    let process = row.process();
    let mut left = row.pending();
    let mut rest = net;
    'entries: while let Some((last, front)) = rest.split_last() {
        if left == 0 {
            return;
        }
        if last.process == process {
            set_op(bits, place, last.op);
            left -= 1;
        }
        rest = front;
    }
}

/// Clears an operation at a place.
fn clear_op(bits: &mut Bits, place: usize, op: u16)
    requires rows { length bits.old ≡ 257 }
    requires place { place < 256 }
    ensures count { length bits.new ≡ 257 }
    ensures own { (k p : ℕ) → cell bits.new k p ≡ (if nat_eq p place && nat_eq (row_of op) k then false else cell bits.old k p) }
{
    bits.clear(row_of(op), place);
}

/// Clears that of what was under way, which alone is set there.
fn clear_running(bits: &mut Bits, place: usize, running: Option<Entry>)
    requires rows { length bits.old ≡ 257 }
    requires place { place < 256 }
    requires own { IsSetAt place (ops_of (option_to_list running)) bits.old }
    ensures { IsToldAt place [] bits.old bits.new }
{
    if let Some(e) = running {
        clear_op(bits, place, e.op);
    }
}

/// Sets what is under way at a place in place of what was.
pub fn tell_running(bits: &mut Bits, place: usize, before: Option<Entry>, running: Option<Entry>)
    requires rows { length bits.old ≡ 257 }
    requires place { place < 256 }
    requires own { IsSetAt place (ops_of (option_to_list before)) bits.old }
    ensures { IsToldAt place (ops_of (option_to_list running)) bits.old bits.new }
{
    clear_running(bits, place, before);
    set_running(bits, place, running);
}

/// Clears those of reserved steps, which alone are set there.
pub fn clear_steps(bits: &mut Bits, place: usize, steps: &[(u16, u16, u32)])
    requires rows { length bits.old ≡ 257 }
    requires place { place < 256 }
    requires own { IsSetAt place (map (λ step. step.1) steps.now) bits.old }
    ensures { IsToldAt place [] bits.old bits.new }
{
    let mut rest = steps;
    while let [step, after @ ..] = rest {
        clear_op(bits, place, step.1);
        rest = after;
    }
}

/// Sets at a place what is to be undone, and nothing else there.
fn tell_all_pending(bits: &mut Bits, place: usize, row: &Row, net: &[Entry])
    requires rows { length bits.old ≡ 257 }
    requires place { place < 256 }
    ensures { IsToldAt place (pending_ops net.now row.now) bits.old bits.new }
{
    bits.clear_column(place);
    set_pending(bits, place, row, net);
}

/// The same at a place where so many entries were to be undone: the net isn't looked at where none were and none are.
pub fn tell_pending(bits: &mut Bits, place: usize, before: u16, row: &Row, net: &[Entry])
    requires rows { length bits.old ≡ 257 }
    requires place { place < 256 }
    requires none { before ≡ 0 → IsSetAt place [] bits.old }
    ensures { IsToldAt place (pending_ops net.now row.now) bits.old bits.new }
{
    if before > 0 || row.pending() > 0 {
        tell_all_pending(bits, place, row, net);
    }
}

/// Sets reserved steps where nothing is set.
pub fn tell_reserved(bits: &mut Bits, place: usize, steps: &[(u16, u16, u32)])
    requires rows { length bits.old ≡ 257 }
    requires place { place < 256 }
    requires none { IsSetAt place [] bits.old }
    ensures { IsToldAt place (map (λ step. step.1) steps.now) bits.old bits.new }
{
    set_steps(bits, place, steps);
}

/// Sets the operations of the entries of a process.
fn set_own(bits: &mut Bits, place: usize, process: u32, net: &[Entry])
    requires rows { length bits.old ≡ 257 }
    requires place { place < 256 }
    ensures count { length bits.new ≡ 257 }
    ensures own { AddsAt place (ops_of (of_process process net.now)) bits.old bits.new }
{
    let mut rest = net;
    while let [e, after @ ..] = rest {
        if e.process == process {
            set_op(bits, place, e.op);
        }
        rest = after;
    }
}

/// Sets the operations of all entries of a process at its place, and nothing else there.
pub fn tell_net(bits: &mut Bits, at: usize, process: u32, net: &[Entry])
    requires rows { length bits.old ≡ 257 }
    requires place { at < 256 }
    ensures { IsToldAt at (ops_of (of_process process net.now)) bits.old bits.new }
{
    bits.clear_column(at);
    set_own(bits, at, process, net);
}

/// Takes a place out; those behind it move up.
pub fn take_place(bits: &mut Bits, place: usize)
    requires { place < 256 }
    ensures { IsColumnTaken place bits.old bits.new }
{
    bits.take_column(place);
}
