// Reading a catalog from its bytes.
ghost use Rattle.std.specs.Prelude.{◌≡◌, ◌<◌, ◌-◌, ◌++◌, ◌∷◌, [], true, IfOk, IfErr, replicate, slice_index_or};
ghost use Rattle.std.specs.Prelude.{nat_lt};
ghost use Rattle.process_tree.specs.Conflicts.{is_table, operations_in};
ghost use Rattle.std.specs.List.{list_any};
ghost use Rattle.commute_table.specs.Operations.{is_version, has_mode, has_name, takes, IsCatalog};
ghost use Rattle.commute_table.specs.Bytes.{bytes_of};
ghost use Rattle.commute_table.specs.Errors.{TellsPlace, IsReadAs};
ghost use Rattle.commute_table.specs.Reading.{Gives, PutsRow, byte_at, count_at, is_new, can_be_new, length_at, name_at, verb_with};
ghost use Rattle.commute_table.specs.Reading.{takes_code, op_at, ops_at, mode_with, is_cell, cells_at, rows_at, front_at};
ghost use Rattle.commute_table.specs.Reading.{catalog_at};
ghost use Rattle.commute_table.specs.declared.reading.Fault.TheVariants.{Memory};
ghost use Rattle.process_tree.specs.declared.conflicts.Mode.TheVariants.{Never};

use crate::{Catalog, CatalogError, Op, Ops, Verb};
use process_tree::{Conflicts, MOST_NAME_BYTES, Mode, Name, is_name};
use std::alloc::{AllocError, AllocFailed, Global};

// The bytes that names are made of.
const NAME_BYTES: [u8; 37] = *b"abcdefghijklmnopqrstuvwxyz0123456789_";

// Why reading stopped.
#[derive(Drop)]
pub enum Fault {
    Memory,
    // So many bytes are left at the first place that rules out every catalog.
    Left(usize),
}

impl From<AllocError> for Fault {
    ghost from_gives = { λ _ e. e ≡ Memory };

    fn from(_: AllocError) -> Self {
        Fault::Memory
    }
}

impl<T: Drop> From<AllocFailed<T>> for Fault {
    ghost from_gives = { λ _ e. e ≡ Memory };

    fn from(_: AllocFailed<T>) -> Self {
        Fault::Memory
    }
}

fn version_of(bytes: &[u8]) -> Result<(u8, &[u8]), Fault>
    ensures { Gives (λ x. (x.0, x.1.now)) result (byte_at is_version bytes.now) }
{
    match bytes {
        [version, rest @ ..] if *version == 1 || *version == 2 => Ok((*version, rest)),
        _ => Err(Fault::Left(bytes.len())),
    }
}

#[tactic(auto, unfolding(crate::specs::Reading::count_at))]
fn count_of(bytes: &[u8]) -> Result<(u16, &[u8]), Fault>
    ensures { Gives (λ x. (x.0, x.1.now)) result (count_at bytes.now) }
{
    let [low, after @ ..] = bytes else {
        return Err(Fault::Left(0));
    };
    let [high, rest @ ..] = after else {
        return Err(Fault::Left(0));
    };
    let count = u16::from(*low) + 256 * u16::from(*high);
    if count > 256 {
        return Err(Fault::Left(after.len()));
    }
    Ok((count, rest))
}

/// Whether one of the operations has the name.
pub fn has_name(ops: &[Op], name: &[u8]) -> bool
    ensures { result ≡ has_name name.now ops.now }
{
    ops.iter().any(|op| op.name.bytes() == name)
}

fn is_new(earlier: &[Op], text: &[u8]) -> bool
    ensures { result ≡ is_new earlier.now text.now }
{
    is_name(text) && !has_name(earlier, text)
}

fn verb_with(code: u8) -> Verb
    ensures { result ≡ verb_with code }
{
    match code {
        0 => Verb::Add,
        1 => Verb::Take,
        2 => Verb::Look,
        3 => Verb::Put,
        4 => Verb::Hold,
        _ => Verb::Free,
    }
}

/// Whether a subsystem is one and takes the verb.
pub fn takes(subsystem: u8, verb: Verb) -> bool
    ensures { result ≡ takes subsystem verb }
{
    match verb {
        Verb::Add | Verb::Take => subsystem < 4,
        Verb::Put => 4 <= subsystem && subsystem < 6,
        Verb::Hold | Verb::Free => 6 <= subsystem && subsystem < 8,
        Verb::Look => subsystem < 8,
    }
}

fn subsystem_of(bytes: &[u8]) -> Result<(u8, &[u8]), Fault>
    ensures { Gives (λ x. (x.0, x.1.now)) result (byte_at (λ q. nat_lt q 8) bytes.now) }
{
    match bytes {
        [subsystem, rest @ ..] if *subsystem < 8 => Ok((*subsystem, rest)),
        _ => Err(Fault::Left(bytes.len())),
    }
}

fn code_of(subsystem: u8, bytes: &[u8]) -> Result<(u8, &[u8]), Fault>
    ensures { Gives (λ x. (x.0, x.1.now)) result (byte_at (takes_code subsystem) bytes.now) }
{
    match bytes {
        [code, rest @ ..] if *code < 6 && takes(subsystem, verb_with(*code)) => Ok((*code, rest)),
        _ => Err(Fault::Left(bytes.len())),
    }
}

// Whether one of the bytes, put behind the text, makes it a name that no operation has.
fn has_free_end(alloc: Global, earlier: &[Op], text: &[u8], ends: &[u8]) -> Result<bool, AllocError>
    ensures { IfOk result (λ free. free ≡ list_any (λ b. is_new earlier.now (text.now ++ b ∷ [])) ends.now) }
{
    for end in ends {
        let mut longer = text.to_vec(alloc)?;
        longer.push(*end)?;
        if is_new(earlier, &longer) {
            return Ok(true);
        }
    }
    Ok(false)
}

#[tactic(auto, unfolding(crate::specs::Reading::can_be_new))]
fn can_be_new(alloc: Global, earlier: &[Op], more: usize, text: &[u8]) -> Result<bool, AllocError>
    ensures { IfOk result (λ can. can ≡ can_be_new earlier.now more text.now) }
{
    match more {
        0 => Ok(is_new(earlier, text)),
        1 => has_free_end(alloc, earlier, text, &NAME_BYTES),
        _ => Ok(text.is_empty() || is_name(text)),
    }
}

#[tactic(auto, unfolding(crate::specs::Reading::length_at))]
fn length_of<'a>(alloc: Global, earlier: &[Op], bytes: &'a [u8]) -> Result<(usize, &'a [u8]), Fault>
    ensures { Gives (λ x. (x.0, x.1.now)) result (length_at earlier.now bytes.now) }
{
    let [count, rest @ ..] = bytes else {
        return Err(Fault::Left(0));
    };
    let count = usize::from(*count);
    if count == 0 || count > MOST_NAME_BYTES || !can_be_new(alloc, earlier, count, &[])? {
        return Err(Fault::Left(bytes.len()));
    }
    Ok((count, rest))
}

fn text_of<'a>(
    alloc: Global,
    earlier: &[Op],
    count: usize,
    bytes: &'a [u8],
) -> Result<(&'a [u8], &'a [u8]), Fault>
    ensures { Gives (λ x. (x.0.now, x.1.now)) result (name_at earlier.now count [] bytes.now) }
{
    for place in 0..count {
        if place >= bytes.len() {
            return Err(Fault::Left(0));
        }
        if !can_be_new(alloc, earlier, count - place - 1, &bytes[..place + 1])? {
            return Err(Fault::Left(bytes.len() - place));
        }
    }
    Ok(bytes.split_at(count))
}

fn name_of<'a>(
    alloc: Global,
    earlier: &[Op],
    count: usize,
    bytes: &'a [u8],
) -> Result<(Name, &'a [u8]), Fault>
    ensures { Gives (λ x. (x.0, x.1.now)) result (name_at earlier.now count [] bytes.now) }
{
    let (text, rest) = text_of(alloc, earlier, count, bytes)?;
    match Name::new(alloc, text) {
        Ok(name) => Ok((name, rest)),
        // The text is a name, so memory alone can be wanting.
        Err(_) => Err(Fault::Memory),
    }
}

#[tactic(auto, unfolding(crate::specs::Reading::op_at))]
fn op_of<'a>(alloc: Global, earlier: &[Op], bytes: &'a [u8]) -> Result<(Op, &'a [u8]), Fault>
    ensures { Gives (λ x. (x.0, x.1.now)) result (op_at earlier.now bytes.now) }
{
    let (count, rest) = length_of(alloc, earlier, bytes)?;
    let (name, rest) = name_of(alloc, earlier, count, rest)?;
    let (subsystem, rest) = subsystem_of(rest)?;
    let (code, rest) = code_of(subsystem, rest)?;
    let verb = verb_with(code);
    Ok((
        Op {
            name,
            subsystem,
            verb,
        },
        rest,
    ))
}

fn ops_of(alloc: Global, count: u16, bytes: &[u8]) -> Result<(Vec<Op>, &[u8]), Fault>
    ensures { Gives (λ x. (x.0.items, x.1.now)) result (ops_at count [] bytes.now) }
{
    let mut ops = Vec::new(alloc);
    let mut rest = bytes;
    for _ in 0..count {
        let (op, after) = op_of(alloc, &ops, rest)?;
        ops.push(op)?;
        rest = after;
    }
    Ok((ops, rest))
}

fn mode_with(cell: u8) -> Mode
    ensures { result ≡ mode_with cell }
{
    match cell {
        0 => Mode::Never,
        1 => Mode::Always,
        _ => Mode::Key,
    }
}

fn has_mode(version: u8, mode: Mode) -> bool
    ensures { result ≡ has_mode version mode }
{
    match mode {
        Mode::Never | Mode::Always => true,
        Mode::Key => version == 2,
    }
}

fn cell_of(version: u8, bytes: &[u8]) -> Result<(u8, &[u8]), Fault>
    ensures { Gives (λ x. (x.0, x.1.now)) result (byte_at (is_cell version) bytes.now) }
{
    match bytes {
        [cell, rest @ ..] if *cell < 3 && has_mode(version, mode_with(*cell)) => Ok((*cell, rest)),
        _ => Err(Fault::Left(bytes.len())),
    }
}

// Reads the row of an operation, which has no conflict yet, into the table.
fn row_of<'a>(
    version: u8,
    conflicts: &mut Conflicts,
    first: u16,
    count: u16,
    bytes: &'a [u8],
) -> Result<&'a [u8], Fault>
    requires within { first < count }
    requires count { operations_in conflicts.old ≡ count }
    requires table { is_table conflicts.old ≡ true }
    requires free { slice_index_or conflicts.old first [] ≡ replicate (count - first) Never }
    ensures row { PutsRow (λ r. r.now) conflicts.old first conflicts.new result (cells_at version (count - first) [] bytes.now) }
{
    let mut rest = bytes;
    for later in first..count {
        let (cell, after) = cell_of(version, rest)?;
        conflicts.set(first, later, mode_with(cell));
        rest = after;
    }
    Ok(rest)
}

fn rows_of(
    alloc: Global,
    version: u8,
    count: u16,
    bytes: &[u8],
) -> Result<(Conflicts, &[u8]), Fault>
    ensures { Gives (λ x. (x.0, x.1.now)) result (rows_at version count [] bytes.now) }
{
    let mut conflicts = Conflicts::new(alloc, count)?;
    let mut rest = bytes;
    for first in 0..count {
        rest = row_of(version, &mut conflicts, first, count, rest)?;
    }
    Ok((conflicts, rest))
}

#[tactic(auto, unfolding(crate::specs::Reading::front_at))]
fn front_of(alloc: Global, bytes: &[u8]) -> Result<(Catalog, &[u8]), Fault>
    ensures { Gives (λ x. (x.0, x.1.now)) result (front_at bytes.now) }
{
    let (version, rest) = version_of(bytes)?;
    let (count, rest) = count_of(rest)?;
    let (ops, rest) = ops_of(alloc, count, rest)?;
    let (conflicts, rest) = rows_of(alloc, version, count, rest)?;
    let ops = Ops::new(ops);
    let catalog = Catalog {
        version,
        ops,
        conflicts,
    };
    Ok((catalog, rest))
}

#[tactic(auto, unfolding(crate::specs::Reading::catalog_at))]
fn whole(alloc: Global, bytes: &[u8]) -> Result<Catalog, Fault>
    ensures { Gives (λ c. c) result (catalog_at bytes.now) }
{
    let (catalog, rest) = front_of(alloc, bytes)?;
    if !rest.is_empty() {
        return Err(Fault::Left(rest.len()));
    }
    Ok(catalog)
}

/// The catalog that the bytes are.
pub fn read_catalog(alloc: Global, bytes: &[u8]) -> Result<Catalog, CatalogError>
    // What is read is a catalog, and the bytes are its own.
    ensures found { IfOk result (λ c. (bytes.now ≡ bytes_of c) × IsCatalog c) }
    // A catalog's bytes are read as that catalog, unless memory runs out.
    ensures only { (c : Catalog) → IsCatalog c → bytes.now ≡ bytes_of c → IsReadAs c result }
    // The place is the first that rules out every catalog.
    ensures bad { IfErr result (TellsPlace bytes.now) }
{
    match whole(alloc, bytes) {
        Ok(catalog) => Ok(catalog),
        Err(Fault::Memory) => Err(CatalogError::NoMemory),
        Err(Fault::Left(left)) => Err(CatalogError::BadCatalog((bytes.len() - left) as u32)),
    }
}
