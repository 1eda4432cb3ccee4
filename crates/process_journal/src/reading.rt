// The catalog and the history of bodies.
ghost use Rattle.std.specs.Prelude.{◌≡◌, ◌≢◌, ◌⊎◌, ◌≤◌, ◌∷◌, length, Ok, IfOk, IfErr};
ghost use Rattle.commute_table.specs.declared.catalog.Catalog.{Catalog};
ghost use Rattle.commute_table.specs.Operations.{IsCatalog};
ghost use Rattle.commute_table.specs.Bytes.{bytes_of};
ghost use Rattle.journal_records.specs.Bytes.{setup_bytes};
ghost use Rattle.process_journal.specs.Bodies.{journal_bodies};
ghost use Rattle.process_journal.specs.Journals.{IsHistoryUnder};
ghost use Rattle.process_journal.specs.Reading.{IsDue};
ghost use Rattle.process_journal.specs.declared.errors.JournalError.TheVariants.{NoMemory, BadRecord};

use crate::replay::Replay;
use crate::{Body, JournalError, Record};
use commute_table::{Catalog, CatalogError, read_catalog};
use journal_records::read;
use schedule_model::History;
use std::alloc::Global;

// The catalog of the first body.
fn catalog_of(alloc: Global, body: &[u8]) -> Result<Catalog, JournalError>
    ensures catalog { IfOk result (λ c. IsCatalog c × (body.now ≡ setup_bytes (bytes_of c))) }
    ensures refused { IfErr result
        (λ e. (e ≡ NoMemory) ⊎ ((e ≡ BadRecord 1) × ((c : Catalog) → IsCatalog c → ¬ (body.now ≡ setup_bytes (bytes_of c))))) }
{
    let Some(Record::Setup(bytes)) = read(alloc, body)? else {
        return Err(JournalError::BadRecord(1));
    };
    match read_catalog(alloc, bytes.bytes()) {
        Ok(catalog) => Ok(catalog),
        Err(CatalogError::BadCatalog(_)) => Err(JournalError::BadRecord(1)),
        Err(CatalogError::NoMemory) => Err(JournalError::NoMemory),
    }
}

// The history of the bodies behind the first.
fn history_of(alloc: Global, catalog: &Catalog, bodies: &[Body]) -> Result<History, JournalError>
    requires catalog { IsCatalog catalog.now }
    requires few { length bodies.now ≤ 65536 }
    ensures history { IfOk result
        (λ h. IsHistoryUnder catalog.now h × (journal_bodies catalog.now h ≡ setup_bytes (bytes_of catalog.now) ∷ bodies.now)) }
    ensures refused { IfErr result
        (λ e. IsDue (Ok (setup_bytes (bytes_of catalog.now) ∷ bodies.now)) e × (e ≢ JournalError.DiskFault)) }
{
    let mut replay = Replay::new(alloc)?;
    let mut rest = bodies;
    let mut number: u32 = 2;
    'records: while let Some((body, after)) = rest.split_first() {
        replay = match replay.take(alloc, catalog, number, body.bytes()) {
            Ok(longer) => longer,
            Err(error) => return Err(error),
        };
        rest = after;
        number += 1;
    }
    Ok(replay.history)
}

/// The catalog and the history of which bodies are the journal.
pub fn read_bodies(alloc: Global, bodies: &[Body]) -> Result<(Catalog, History), JournalError>
    requires few { length bodies.now ≤ 65536 }
    ensures history { IfOk result (λ found. IsHistoryUnder found.0 found.1 × (bodies.now ≡ journal_bodies found.0 found.1)) }
    ensures refused { IfErr result (λ e. IsDue (Ok bodies.now) e × (e ≢ JournalError.DiskFault)) }
{
    let Some((first, rest)) = bodies.split_first() else {
        return Err(JournalError::BadRecord(1));
    };
    let catalog = catalog_of(alloc, first.bytes())?;
    let history = history_of(alloc, &catalog, rest)?;
    Ok((catalog, history))
}
