// An engine for the processes of a scenario.
ghost use Rattle.std.specs.Prelude.{◌≡◌, ◌<◌, ◌^◌, [], length, false, None, Some, IfOk, IfErr, OnOk};
ghost use Rattle.process_tree.specs.Shape.{first_of};
ghost use Rattle.schedule_model.specs.Histories.{active};
ghost use Rattle.commute_table.specs.Operations.{IsCatalog};
ghost use Rattle.process_core.specs.Cores.{history_of};
ghost use Rattle.history_files.specs.Boxes.{AreBoxes};
ghost use Rattle.history_files.specs.Standing.{EachFits};
ghost use Rattle.engine_steps.specs.Engines.{full_history};
ghost use Rattle.engine_steps.specs.Opening.{IsOpened};
ghost use Rattle.command_input.specs.FilesLeft.{AreLeft, files};
ghost use Rattle.command_input.specs.Early.{comes_before_files};
ghost use Rattle.scenario_run.specs.Opening.{first_difference, open_refusal, AreOpenedOn, IsNotOpenedFor, IsNotOpenedWith, IsOther};

use command_refusals::{FileFault, Refusal};
use commute_table::{Catalog, catalog_bytes, no_catalog_begins_another};
use process_disk::Rack;
use process_engine::{Engine, OpenError, Parts};
use resource_box::Resource;
use schedule_model::{Event, History};
use schedule_rules::active;
use std::alloc::Global;

/// The parts that are no engine for the processes of a scenario, and why.
#[derive(Drop)]
pub struct NotOpened<R: Drop, B: Drop = Box<dyn Resource + Send>> {
    pub parts: Parts<R, B>,
    pub why: Refusal,
}

/// What is told of files that were not opened.
pub fn open_refusal(why: OpenError) -> Refusal
    ensures refusal { result ≡ open_refusal why }
    ensures late { comes_before_files result ≡ false }
{
    match why {
        OpenError::DiskFault => Refusal::DiskFault,
        OpenError::BadHeader(file) => Refusal::File(FileFault::BadHeader(file)),
        OpenError::BadRecord(file, n) => Refusal::File(FileFault::BadRecord(file, n)),
        OpenError::BadHistory(n) => Refusal::File(FileFault::BadHistory(n)),
        OpenError::BadBook(file, n) => Refusal::File(FileFault::BadBook(file, n)),
        OpenError::BookDiffers(fault) => Refusal::BookDiffers(fault.subsystem, fault.at),
        OpenError::NoMemory => Refusal::NoMemory,
    }
}

// The first place, counted from 0, at which two rows of bytes differ.
fn first_difference(own: &[u8], other: &[u8]) -> Option<u32>
    requires short { length own.now < 2 ^ 32 }
    ensures { result ≡ first_difference own.now other.now }
{
    let mut place = 0;
    let mut rest = own;
    let mut behind = other;
    while let [byte, after @ ..] = rest {
        let [same, later @ ..] = behind else {
            return Some(place);
        };
        if byte != same {
            return Some(place);
        }
        place += 1;
        rest = after;
        behind = later;
    }
    if behind.is_empty() { None } else { Some(place) }
}

// Refuses a catalog that isn't this one.
fn same_catalog(alloc: Global, own: &Catalog, c: &Catalog) -> Result<(), Refusal>
    requires own { IsCatalog own.now }
    requires other { IsCatalog c.now }
    ensures same { OnOk result (c.now ≡ own.now) }
    ensures refused { IfErr result (IsOther own.now c.now) }
    ensures late { IfErr result (λ r. comes_before_files r ≡ false) }
{
    no_catalog_begins_another();
    let own = catalog_bytes(alloc, own)?;
    let other = catalog_bytes(alloc, c)?;
    match first_difference(&own, &other) {
        None => Ok(()),
        Some(place) => Err(Refusal::CatalogDiffers(place)),
    }
}

// The least active process.
fn first_active(h: &History) -> Option<u32>
    ensures { result ≡ first_of (active h.now.events) }
{
    let mut rest = h.events.as_slice();
    while let [event, after @ ..] = rest {
        if let Event::Start(i) = event
            && active(h, *i)
        {
            return Some(*i);
        }
        rest = after;
    }
    None
}

/// An engine on the history of the files, whose catalog is this one. What is refused first is a file, a book, and then the catalog.
/// Once all nine files were found sound, what was in doubt is settled, whatever is refused then.
pub fn opened_with<R: Rack + Drop, B: Resource>(
    alloc: Global,
    catalog: &Catalog,
    parts: Parts<R, B>,
) -> Result<Engine<R, B>, NotOpened<R, B>>
    requires catalog { IsCatalog catalog.now }
    requires boxes { AreBoxes B.sort parts.resources.items }
    ensures opened { IfOk result (λ e. IsOpened e × EachFits B.Resource e.files.stores) }
    ensures catalog { IfOk result (λ e. e.catalog ≡ catalog.now) }
    ensures on { IfOk result
        (λ e. AreOpenedOn e.catalog (full_history e.core) (files R.Rack parts.rack) (files R.Rack e.files.rack)) }
    ensures due { IfErr result (λ n. IsNotOpenedWith catalog.now n.why (files R.Rack parts.rack) (files R.Rack n.parts.rack)) }
    ensures late { IfErr result (λ n. comes_before_files n.why ≡ false) }
    ensures back { IfErr result (λ n. AreBoxes B.sort n.parts.resources.items) }
    ensures rack { IfOk result (λ e. AreLeft (files R.Rack parts.rack) (files R.Rack e.files.rack)) }
    ensures rack_back { IfErr result (λ n. AreLeft (files R.Rack parts.rack) (files R.Rack n.parts.rack)) }
{
    let engine = match Engine::open(alloc, parts) {
        Ok(engine) => engine,
        Err(refused) => {
            return Err(NotOpened {
                parts: refused.parts,
                why: open_refusal(refused.why),
            });
        }
    };
    engine.invariant_holds();
    match same_catalog(alloc, catalog, engine.catalog()) {
        Ok(()) => Ok(engine),
        Err(why) => Err(NotOpened {
            parts: engine.into_parts(),
            why,
        }),
    }
}

/// The same where no process is active. An active process is refused last.
pub fn opened<R: Rack + Drop, B: Resource>(
    alloc: Global,
    catalog: &Catalog,
    parts: Parts<R, B>,
) -> Result<Engine<R, B>, NotOpened<R, B>>
    requires catalog { IsCatalog catalog.now }
    requires boxes { AreBoxes B.sort parts.resources.items }
    ensures opened { IfOk result (λ e. IsOpened e × EachFits B.Resource e.files.stores) }
    ensures idle { IfOk result (λ e. (e.catalog ≡ catalog.now) × (active (history_of e.core) ≡ [])) }
    ensures on { IfOk result
        (λ e. AreOpenedOn e.catalog (full_history e.core) (files R.Rack parts.rack) (files R.Rack e.files.rack)) }
    ensures due { IfErr result (λ n. IsNotOpenedFor catalog.now n.why (files R.Rack parts.rack) (files R.Rack n.parts.rack)) }
    ensures late { IfErr result (λ n. comes_before_files n.why ≡ false) }
    ensures back { IfErr result (λ n. AreBoxes B.sort n.parts.resources.items) }
    ensures rack { IfOk result (λ e. AreLeft (files R.Rack parts.rack) (files R.Rack e.files.rack)) }
    ensures rack_back { IfErr result (λ n. AreLeft (files R.Rack parts.rack) (files R.Rack n.parts.rack)) }
{
    let engine = opened_with(alloc, catalog, parts)?;
    engine.invariant_holds();
    match first_active(engine.history()) {
        None => Ok(engine),
        Some(i) => Err(NotOpened {
            parts: engine.into_parts(),
            why: Refusal::Unfinished(i),
        }),
    }
}
