// The command.
ghost use Rattle.std.specs.Prelude.{◌≡◌, false, [], IfOk, IfErr};
ghost use Rattle.process_flow.specs.Causes.{Rose};
ghost use Rattle.process_disk.specs.Disk.{Told};
ghost use Rattle.process_disk.specs.Images.{AllAsBefore};
ghost use Rattle.process_journal.specs.Journals.{IsHistoryUnder};
ghost use Rattle.schedule_model.specs.Histories.{active};
ghost use Rattle.history_files.specs.Boxes.{AreBoxes};
ghost use Rattle.history_files.specs.Effects.{effects};
ghost use Rattle.value_conflict.specs.ValueConflict.{IsValueSound};
ghost use Rattle.value_replay.specs.Replays.{HaveValues, books, lines_of, serial_list};
ghost use Rattle.command_input.specs.FilesLeft.{AreLeft, files};
ghost use Rattle.command_input.specs.Early.{comes_before_files};
ghost use Rattle.command_refusals.specs.Order.{IsFirstRefusal};
ghost use Rattle.journal_input.specs.Opening.{IsOpened};
ghost use Rattle.replay_run.specs.Printed.{replay_text};
ghost use Rattle.replay_run.specs.Replay.{found_status, replay_tests, HaveValuesOfFile, IsReplayComplete, IsReplayDue, IsReplayed};
ghost use Rattle.replay_run.specs.Soundness.{IsUnsound};

use crate::idleness::first_active;
use crate::printing::{keys_in, put_boxes, put_steps};
use crate::soundness::sound_catalog;
use command_input::{CommandEnd, Said};
use command_refusals::{Refusal, Status};
use commute_table::Catalog;
use history_files::Parts;
use journal_input::opened;
use process_disk::Rack;
use process_journal::{journals_are_opened, journals_have_one_history, journals_keep_histories};
use resource_box::Resource;
use schedule_model::History;
use std::alloc::{AllocError, Global};
use value_replay::{Line, ReplayRefused, Replayed};
use value_rules::serial_lists_keep_values;

// The text of a replay that has told these lines and left these values.
fn text_of<B: Resource>(
    alloc: Global,
    c: &Catalog,
    h: &History,
    lines: &[Line],
    boxes: &[B],
) -> Result<Vec<u8>, AllocError>
    requires idle { active h.now.events ≡ [] }
    requires boxes { AreBoxes B.sort boxes.now }
    requires lines { lines.now ≡ lines_of c.now h.now }
    requires values { HaveValues (λ b. (B.meaning b).items) (books c.now.ops h.now.plans (serial_list h.now)) boxes.now }
    ensures { IfOk result (λ text. text.items ≡ replay_text c.now h.now) }
{
    let mut text = b"serial\n".to_vec(alloc)?;
    let (plans, ops) = (h.plans.as_slice(), c.ops.as_slice());
    put_steps(alloc, plans, ops, lines, &mut text)?;
    text.extend_from_slice(b"values\n")?;
    let keys = keys_in(alloc, plans, ops, lines)?;
    put_boxes(alloc, boxes, &keys, &mut text)?;
    Ok(text)
}

// What is said of a history, where this was told and left of it.
fn said_of<B: Resource>(
    alloc: Global,
    c: &Catalog,
    h: &History,
    lines: &[Line],
    boxes: &[B],
) -> Result<Said, Refusal>
    requires history { IsHistoryUnder c.now h.now }
    requires idle { active h.now.events ≡ [] }
    requires sound { IsValueSound c.now }
    requires boxes { AreBoxes B.sort boxes.now }
    requires lines { lines.now ≡ lines_of c.now h.now }
    requires values { HaveValues (λ b. (B.meaning b).items) (effects c.now.ops h.now) boxes.now }
    ensures said { IfOk result (IsReplayed c.now h.now) }
    ensures refused { IfErr result (λ r. r ≡ Refusal.NoMemory) }
{
    journals_keep_histories();
    serial_lists_keep_values();
    let text = text_of(alloc, c, h, lines, boxes)?;
    Ok(Said {
        text,
        status: Status::Done,
    })
}

// What is said of a history in which no process is active, under a catalog that names each conflict in value; and the boxes, with
// the values that it leaves.
fn executed<B: Resource>(
    alloc: Global,
    c: &Catalog,
    h: &History,
    boxes: Vec<B>,
) -> (Vec<B>, Result<Said, Refusal>)
    requires history { IsHistoryUnder c.now h.now }
    requires idle { active h.now.events ≡ [] }
    requires sound { IsValueSound c.now }
    requires boxes { AreBoxes B.sort boxes.items }
    ensures said { IfOk result.1 (IsReplayed c.now h.now) }
    ensures values { IfOk result.1
        (λ _. HaveValues (λ b. (B.meaning b).items) (effects c.now.ops h.now) result.0.items) }
    ensures refused { IfErr result.1 (λ r. r ≡ Refusal.NoMemory) }
    ensures back { AreBoxes B.sort result.0.items }
{
    journals_keep_histories();
    let Replayed { resources, outcome } = value_replay::replay(alloc, h, c, boxes);
    match outcome {
        Ok(lines) => {
            let found = said_of(alloc, c, h, lines.as_slice(), &resources);
            (resources, found)
        }
        // under such a catalog there is no other reason
        Err(ReplayRefused::NoMemory | ReplayRefused::Commuting(_, _)) => {
            (resources, Err(Refusal::NoMemory))
        }
    }
}

// The same under any catalog.
fn replayed<B: Resource>(
    alloc: Global,
    c: &Catalog,
    h: &History,
    boxes: Vec<B>,
) -> (Vec<B>, Result<Said, Refusal>)
    requires history { IsHistoryUnder c.now h.now }
    requires idle { active h.now.events ≡ [] }
    requires boxes { AreBoxes B.sort boxes.items }
    ensures said { IfOk result.1 (IsReplayed c.now h.now) }
    ensures values { IfOk result.1
        (λ _. HaveValues (λ b. (B.meaning b).items) (effects c.now.ops h.now) result.0.items) }
    ensures refused { IfErr result.1 (IsUnsound c.now) }
    ensures late { IfErr result.1 (λ r. comes_before_files r ≡ false) }
    ensures back { AreBoxes B.sort result.0.items }
{
    match sound_catalog(alloc, c) {
        Ok(()) => executed(alloc, c, h, boxes),
        Err(refusal) => (boxes, Err(refusal)),
    }
}

// The catalog and the history of file 0, in which no process is active.
fn idle_history<R: Rack>(alloc: Global, rack: &mut R) -> Result<(Catalog, History), Refusal>
    ensures read { IfOk result (λ own. IsOpened own.0 own.1 (files R.Rack rack.old) (files R.Rack rack.new)) }
    ensures idle { IfOk result (λ own. active own.1.events ≡ []) }
    ensures refused { IfErr result (IsFirstRefusal (replay_tests (files R.Rack rack.old) (files R.Rack rack.new))) }
    ensures all { Told (R.disk rack.old) → AllAsBefore (R.disk rack.old) (R.disk rack.new) }
    ensures left { AreLeft (files R.Rack rack.old) (files R.Rack rack.new) }
    ensures late { IfErr result (λ r. comes_before_files r ≡ false) }
{
    let (catalog, history) = opened(alloc, rack)?;
    match first_active(&history) {
        None => Ok((catalog, history)),
        Some(i) => Err(Refusal::Unfinished(i)),
    }
}

/// Replays the history of file 0, in which no process is active: what its printed serial list makes of empty books, one step after
/// another, and the values that this leaves. The boxes then have these values.
pub fn replay<R: Rack + Drop, B: Resource>(
    alloc: Global,
    parts: Parts<R, B>,
) -> CommandEnd<Parts<R, B>>
    requires boxes { AreBoxes B.sort parts.resources.items }
    ensures due { IsReplayDue (files R.Rack parts.rack) (files R.Rack result.parts.rack) result.found }
    ensures complete { ¬ Rose (R.faults parts.rack) (R.faults result.parts.rack)
        → IsReplayComplete (R.disk parts.rack) (found_status result.found) }
    ensures values { IfOk result.found (λ _. HaveValuesOfFile (λ b. (B.meaning b).items) (files R.Rack parts.rack)
        (files R.Rack result.parts.rack) result.parts.resources.items) }
    ensures all { Told (R.disk parts.rack) → AllAsBefore (R.disk parts.rack) (R.disk result.parts.rack) }
    ensures late { IfErr result.found (λ r. comes_before_files r ≡ false) }
    ensures back { AreBoxes B.sort result.parts.resources.items }
    ensures left { AreLeft (files R.Rack parts.rack) (files R.Rack result.parts.rack) }
{
    journals_have_one_history();
    journals_are_opened();
    let Parts {
        mut rack,
        resources,
    } = parts;
    match idle_history(alloc, &mut rack) {
        Ok((catalog, history)) => {
            let (resources, found) = replayed(alloc, &catalog, &history, resources);
            CommandEnd {
                parts: Parts { rack, resources },
                found,
            }
        }
        Err(refusal) => CommandEnd {
            parts: Parts { rack, resources },
            found: Err(refusal),
        },
    }
}
