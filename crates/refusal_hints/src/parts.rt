// Which part of a catalog a byte of it is of.
ghost use Rattle.std.specs.Prelude.{◌≡◌};
ghost use Rattle.refusal_hints.specs.Parts.{part_of_rows, op_size, part_of_ops, part_at};

use commute_table::Op;

/// A part of a catalog. Operations are counted from 1.
#[derive(Clone, Copy, Debug, PartialEq, Eq)]
pub enum Part {
    /// The version, or how many operations there are.
    Front,
    Operation(usize),
    /// Whether these two conflict, of which the first is at most the second.
    Pair(usize, usize),
    /// What stands behind the last byte.
    Behind,
}

// Of the rows of conflicts.
fn part_of_rows(n: usize, ops: &[Op]) -> Part
    ensures { result ≡ part_of_rows n 1 ops.now }
{
    let mut rest = ops;
    let mut left = n;
    let mut i = 1;
    while let [_, after @ ..] = rest {
        if left < rest.len() {
            return Part::Pair(i, i + left);
        }
        left -= rest.len();
        i += 1;
        rest = after;
    }
    Part::Behind
}

// How many bytes an operation has.
fn op_size(op: &Op) -> usize
    ensures { result ≡ op_size op.now }
{
    op.name.bytes().len() + 3
}

// Of the operations, or of the conflicts behind them.
fn part_of_ops(n: usize, ops: &[Op]) -> Part
    ensures { result ≡ part_of_ops n 1 ops.now ops.now }
{
    let mut rest = ops;
    let mut left = n;
    let mut k = 1;
    while let [op, after @ ..] = rest {
        let size = op_size(op);
        if left < size {
            return Part::Operation(k);
        }
        left -= size;
        k += 1;
        rest = after;
    }
    part_of_rows(left, ops)
}

/// Which part byte n of a catalog with these operations is of.
pub(crate) fn part_at(n: usize, ops: &[Op]) -> Part
    ensures { result ≡ part_at n ops.now }
{
    if n < 3 {
        Part::Front
    } else {
        part_of_ops(n - 3, ops)
    }
}
