// Engines over a rack in memory, over a catalog of six operations, and processes that start in them from their text.
ghost use Rattle.std.specs.Prelude.{◌≡◌, None, IfOk, IfErr};
ghost use Rattle.process_tree.specs.Making.{tree_fault};
ghost use Rattle.commute_table.specs.Operations.{IsCatalog};
ghost use Rattle.history_files.specs.Boxes.{AreBoxes};
ghost use Rattle.engine_steps.specs.Beginning.{IsPlanFor};
ghost use Rattle.engine_tests.specs.Ready.{IsReady};

use commute_table::{Catalog, bind, read_catalog};
use process_disk::{MemoryRack, Rack};
use process_engine::{Engine, OpenRefused, Parts};
use process_text::read;
use process_tree::{Named, Plan};
use resource_box::Resource;
use std::alloc::Global;
use std::process::Abort;
use well_formed::{Verdict, check};

// A table of seven operations: version and count, then each with its subsystem and verb, and then the pairs of each with itself and
// the later ones. Adding conflicts with taking, taking with taking, noting with noting, and booking with booking; hauling, which takes,
// with nothing.
const CATALOG: &[u8] = b"\x01\x07\x00\
\x03add\x00\x00\
\x04take\x00\x01\
\x03pay\x01\x00\
\x04ship\x02\x00\
\x04note\x04\x03\
\x04book\x06\x04\
\x04haul\x02\x01\
\x00\x01\x00\x00\x00\x00\x00\
\x01\x00\x00\x00\x00\x00\
\x00\x00\x00\x00\x00\
\x00\x00\x00\x00\
\x01\x00\x00\
\x01\x00\
\x00";

/// What was to be had: memory is never wanting here, and no call fails.
pub fn must<T: Drop, E: Drop>(rt: &impl Abort, found: Result<T, E>) -> T {
    match found {
        Ok(value) => value,
        Err(_) => panic!(rt; "no memory, or a failed call"),
    }
}

fn catalog(rt: &impl Abort, alloc: Global) -> Catalog
    ensures { IsCatalog result }
{
    let Ok(catalog) = read_catalog(alloc, CATALOG) else {
        panic!(rt; "no catalog");
    };
    catalog
}

/// An engine in which nothing has happened.
pub fn created<H: Abort, B: Resource>(
    rt: &H,
    alloc: Global,
    resources: Vec<B>,
) -> Engine<MemoryRack, B>
    requires { AreBoxes B.sort resources.items }
    ensures { IsReady B.Resource result }
{
    let catalog = catalog(rt, alloc);
    let rack = must(rt, MemoryRack::new(alloc, Vec::new(alloc)));
    let Ok(engine) = Engine::create(alloc, Parts { rack, resources }, catalog) else {
        panic!(rt; "not created");
    };
    engine
}

/// An engine on the history of the files of a rack, or why there is none.
pub fn opened<B: Resource>(
    alloc: Global,
    rack: MemoryRack,
    resources: Vec<B>,
) -> Result<Engine<MemoryRack, B>, OpenRefused<MemoryRack, B>>
    requires { AreBoxes B.sort resources.items }
    ensures ready { IfOk result (IsReady B.Resource) }
    ensures boxes { IfErr result (λ refused. AreBoxes B.sort refused.parts.resources.items) }
{
    Engine::open(alloc, Parts { rack, resources })
}

// The process of a text.
fn process(rt: &impl Abort, alloc: Global, text: &[u8]) -> Named
    ensures { tree_fault result.tree ≡ None }
{
    let Ok(mut found) = read(alloc, text) else {
        panic!(rt; "no process text");
    };
    let Some(last) = found.pop() else {
        panic!(rt; "no process");
    };
    last
}

// The plan of a process that can't get stuck.
fn plan(rt: &impl Abort, alloc: Global, named: Named, catalog: &Catalog) -> Plan
    requires catalog { IsCatalog catalog.now }
    requires tree { tree_fault named.tree ≡ None }
    ensures { IsPlanFor catalog.now result }
{
    let Verdict::Good = check(alloc, &named.tree) else {
        panic!(rt; "not well-formed");
    };
    let Ok(plan) = bind(alloc, named, catalog) else {
        panic!(rt; "unknown operation");
    };
    plan
}

/// The plan of the process of a text, under the catalog of an engine.
pub fn planned<H: Abort, R: Rack + Drop, B: Resource>(
    rt: &H,
    alloc: Global,
    engine: &Engine<R, B>,
    text: &[u8],
) -> Plan
    ensures { IsPlanFor engine.now.catalog result }
{
    engine.invariant_holds();
    let named = process(rt, alloc, text);
    plan(rt, alloc, named, engine.catalog())
}

/// The process of a text starts.
pub fn start<H: Abort, R: Rack + Drop, B: Resource>(
    rt: &H,
    alloc: Global,
    engine: &mut Engine<R, B>,
    text: &[u8],
) -> u32
    requires { IsReady B.Resource engine.old }
    ensures { IsReady B.Resource engine.new }
{
    let plan = planned(rt, alloc, engine, text);
    let Ok(number) = engine.start(alloc, plan) else {
        panic!(rt; "not started");
    };
    number
}

/// An engine in which the processes of these texts have started too.
pub fn start_all<H: Abort, R: Rack + Drop, B: Resource>(
    rt: &H,
    alloc: Global,
    engine: Engine<R, B>,
    texts: &[&[u8]],
) -> Engine<R, B>
    requires { IsReady B.Resource engine }
    ensures { IsReady B.Resource result }
{
    let mut engine = engine;
    for text in texts {
        start(rt, alloc, &mut engine, text);
    }
    engine
}
