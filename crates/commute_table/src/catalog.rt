// Catalogs and their bytes.
ghost use Rattle.std.specs.Prelude.{◌≡◌, ◌<◌, ◌++◌, [], IfOk, OnOk, true, slice_index_or};
ghost use Rattle.std.specs.List.{flat_map};
ghost use Rattle.process_tree.specs.Conflicts.{is_table, operations_in};
ghost use Rattle.commute_table.specs.Operations.{IsCatalog};
ghost use Rattle.commute_table.specs.Bytes.{bytes_of, op_bytes, cell_byte, row_bytes};

use crate::{Op, Ops};
use process_tree::{Conflicts, Mode};
use std::alloc::{AllocError, Global};

/// How many operations a catalog may have.
pub const MOST_OPERATIONS: usize = 256;

/// The operations that there are, and when steps of them conflict.
#[derive(Drop)]
pub struct Catalog {
    /// 1 or 2: version 1 has no conflict by key.
    pub version: u8,
    pub ops: Ops,
    pub conflicts: Conflicts,
}

/// The bytes of a catalog.
pub fn catalog_bytes(alloc: Global, c: &Catalog) -> Result<Vec<u8>, AllocError>
    requires { IsCatalog c.now }
    ensures { IfOk result (λ bytes. bytes.items ≡ bytes_of c.now) }
{
    let ops = c.ops.as_slice();
    let count = ops.len() as u16;
    let mut out = Vec::new(alloc);
    out.extend_from_slice(&[c.version, (count % 256) as u8, (count / 256) as u8])?;
    put_ops(&mut out, ops)?;
    put_pairs(&mut out, &c.conflicts, count)?;
    Ok(out)
}

fn put_op(out: &mut Vec<u8>, op: &Op) -> Result<(), AllocError>
    ensures { OnOk result (out.new.items ≡ out.old.items ++ op_bytes op.now) }
{
    let name = op.name.bytes();
    out.push(name.len() as u8)?;
    out.extend_from_slice(name)?;
    out.extend_from_slice(&[op.subsystem, op.verb.code()])?;
    Ok(())
}

fn put_ops(out: &mut Vec<u8>, ops: &[Op]) -> Result<(), AllocError>
    ensures { OnOk result (out.new.items ≡ out.old.items ++ flat_map op_bytes ops.now) }
{
    for op in ops {
        put_op(out, op)?;
    }
    Ok(())
}

/// How a mode is written.
pub fn cell_byte(mode: Mode) -> u8
    ensures { result ≡ cell_byte mode }
{
    match mode {
        Mode::Never => 0,
        Mode::Always => 1,
        Mode::Key => 2,
    }
}

fn put_row(
    out: &mut Vec<u8>,
    conflicts: &Conflicts,
    first: u16,
    count: u16,
) -> Result<(), AllocError>
    requires within { first < count }
    requires table { is_table conflicts.now ≡ true }
    requires count { operations_in conflicts.now ≡ count }
    ensures { OnOk result (out.new.items ≡ out.old.items ++ row_bytes (slice_index_or conflicts.now first [])) }
{
    for later in first..count {
        out.push(cell_byte(conflicts.mode(first, later)))?;
    }
    Ok(())
}

fn put_pairs(out: &mut Vec<u8>, conflicts: &Conflicts, count: u16) -> Result<(), AllocError>
    requires table { is_table conflicts.now ≡ true }
    requires count { operations_in conflicts.now ≡ count }
    ensures { OnOk result (out.new.items ≡ out.old.items ++ flat_map row_bytes conflicts.now) }
{
    for first in 0..count {
        put_row(out, conflicts, first, count)?;
    }
    Ok(())
}
