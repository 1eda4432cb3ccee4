// The command `init`.
ghost use Rattle.std.specs.Prelude.{◌≡◌, ℕ, List, true, false, IfOk, IfErr, OnOk};
ghost use Rattle.commute_table.specs.Operations.{IsCatalog};
ghost use Rattle.history_files.specs.Boxes.{AreBoxes};
ghost use Rattle.command_input.specs.Inputs.{input};
ghost use Rattle.command_input.specs.FilesLeft.{AreLeft, files};
ghost use Rattle.command_input.specs.Early.{comes_before_files};
ghost use Rattle.value_conflict.specs.ValueConflict.{IsValueSound};
ghost use Rattle.replay_run.specs.Soundness.{IsUnsound};
ghost use Rattle.init_run.specs.Init.{create_refusal, AreMade, AreNotMade, IsCatalogRead, IsInitDue};
ghost use Rattle.init_run.specs.Init.{IsOfFiles, IsWithoutWarning, SaysCreated};
ghost use Rattle.init_run.specs.Strict.{IsNotRead, IsUnpassed};

use crate::strict::{Unmade, strictly};
use command_input::{CommandEnd, Said, document_of, text_of};
use command_refusals::{FileFault, Refusal, Status};
use commute_table::{Catalog, Scenario};
use process_disk::Rack;
use process_engine::{CreateError, Engine, Parts};
use process_flow::Source;
use replay_run::sound_catalog;
use resource_box::Resource;
use std::alloc::{AllocError, Global};

/// What is told of files that were not made.
pub fn create_refusal(why: CreateError) -> Refusal
    ensures refusal { result ≡ create_refusal why }
    ensures late { comes_before_files result ≡ false }
{
    match why {
        CreateError::DiskFault => Refusal::DiskFault,
        CreateError::NotEmpty(file) => Refusal::File(FileFault::NotEmpty(file)),
        CreateError::NoMemory => Refusal::NoMemory,
    }
}

// The line of files that were made.
fn created_line(alloc: Global) -> Result<Said, AllocError>
    ensures { IfOk result SaysCreated }
{
    Ok(Said {
        text: b"created\n".to_vec(alloc)?,
        status: Status::Done,
    })
}

// Tests the values of a catalog, where that is asked.
fn tested(alloc: Global, values: bool, c: &Catalog) -> Result<(), Refusal>
    requires { IsCatalog c.now }
    ensures sound { OnOk result (values ≡ true → IsValueSound c.now) }
    ensures refused { IfErr result (λ r. (values ≡ true) × IsUnsound c.now r) }
{
    if values {
        sound_catalog(alloc, c)
    } else {
        Ok(())
    }
}

// Tests a scenario's catalog and its processes, where that is asked.
fn passed(
    alloc: Global,
    values: bool,
    strict: bool,
    c: &Catalog,
    processes: &[u8],
) -> Result<(), Unmade>
    requires { IsCatalog c.now }
    ensures sound { OnOk result (values ≡ true → IsValueSound c.now) }
    ensures quiet { OnOk result (strict ≡ true → IsWithoutWarning c.now processes.now) }
    ensures unmade { IfErr result (IsUnpassed values strict c.now processes.now) }
{
    tested(alloc, values, c)?;
    strictly(alloc, strict, c, processes)
}

// The catalog of the source's scenario, which is tested where that is asked, and the line of files that were made, so that it is
// there before they are.
fn catalog_of<S: Source>(
    alloc: Global,
    source: &mut S,
    values: bool,
    strict: bool,
) -> Result<(Catalog, Said), Unmade>
    ensures read { IfOk result
        (λ ready. IsCatalogRead values strict (input S.Source source.old) (input S.Source source.new) ready.0) }
    ensures valid { IfOk result (λ ready. IsCatalog ready.0) }
    ensures line { IfOk result (λ ready. SaysCreated ready.1) }
    ensures unmade { IfErr result
        (λ u. IsNotRead values strict (input S.Source source.old) (input S.Source source.new) u) }
{
    let text = text_of(alloc, source)?;
    let Scenario { catalog, processes } = document_of(alloc, &text)?;
    passed(alloc, values, strict, &catalog, processes.bytes())?;
    let line = created_line(alloc)?;
    Ok((catalog, line))
}

// Makes the files of a catalog, and then has this to say.
fn made<R: Rack + Drop, B: Resource>(
    alloc: Global,
    parts: Parts<R, B>,
    catalog: Catalog,
    said: Said,
) -> CommandEnd<Parts<R, B>>
    requires catalog { IsCatalog catalog }
    requires boxes { AreBoxes B.sort parts.resources.items }
    ensures said { IfOk result.found (λ s. s ≡ said) }
    ensures made { IfOk result.found (λ _. AreMade catalog (files R.Rack parts.rack) (files R.Rack result.parts.rack)) }
    ensures refused { IfErr result.found (λ r. AreNotMade r (files R.Rack parts.rack) (files R.Rack result.parts.rack)) }
    ensures late { IfErr result.found (λ r. comes_before_files r ≡ false) }
    ensures cause { IfErr result.found IsOfFiles }
    ensures back { AreBoxes B.sort result.parts.resources.items }
    ensures left { AreLeft (files R.Rack parts.rack) (files R.Rack result.parts.rack) }
{
    match Engine::create(alloc, parts, catalog) {
        Ok(engine) => CommandEnd {
            parts: engine.into_parts(),
            found: Ok(said),
        },
        Err(refused) => CommandEnd {
            parts: refused.parts,
            found: Err(create_refusal(refused.why)),
        },
    }
}

/// Makes nine empty files those of the catalog of the source's scenario, in which nothing has happened. With `values` it refuses a
/// catalog that names not each conflict in value, and with `strict` it makes nothing of a scenario in which there is something to warn
/// of; both before a file is looked at.
pub fn init<S: Source, R: Rack + Drop, B: Resource>(
    alloc: Global,
    source: &mut S,
    parts: Parts<R, B>,
    values: bool,
    strict: bool,
) -> CommandEnd<Parts<R, B>>
    requires boxes { AreBoxes B.sort parts.resources.items }
    ensures due { IsInitDue values strict (input S.Source source.old) (input S.Source source.new) (files R.Rack parts.rack)
        (files R.Rack result.parts.rack) result.found }
    ensures early { IfErr result.found (λ r. comes_before_files r ≡ true → result.parts.rack ≡ parts.rack) }
    ensures commuting { IfErr result.found
        (λ r. (a b : List ℕ) → r ≡ Refusal.Commuting a b → result.parts.rack ≡ parts.rack) }
    // What is said of a scenario of which no files are made leaves the rack as it is.
    ensures held { IfOk result.found (λ s. s.status ≡ Status.IllFormed → result.parts.rack ≡ parts.rack) }
    ensures back { AreBoxes B.sort result.parts.resources.items }
    ensures left { AreLeft (files R.Rack parts.rack) (files R.Rack result.parts.rack) }
{
    match catalog_of(alloc, source, values, strict) {
        Ok((catalog, said)) => made(alloc, parts, catalog, said),
        Err(Unmade::Refused(refusal)) => CommandEnd {
            parts,
            found: Err(refusal),
        },
        Err(Unmade::Held(said)) => CommandEnd {
            parts,
            found: Ok(said),
        },
    }
}
