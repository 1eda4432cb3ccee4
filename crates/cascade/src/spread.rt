// The least cascade.
ghost use Rattle.std.specs.Prelude.{◌≡◌, ◌<◌, ◌≤◌, ◌+◌, ◌++◌, ℕ, Bool, true, false, nat_eq, length, vec_capacity};
ghost use Rattle.std.specs.List.{list_any};
ghost use Rattle.process_tree.specs.Conflicts.{do_conflict};
ghost use Rattle.process_tree.specs.Order.{Each};
ghost use Rattle.process_tree.specs.declared.entry.Entry.{Entry};
ghost use Rattle.schedule_model.specs.Histories.{is_in, of_process};
ghost use Rattle.machine_model.specs.Cascade.{IsCascade, cascade};
ghost use Rattle.hold_tables.specs.Tables.{holdings_of, is_open, kept_of};
ghost use Rattle.hold_tables.specs.Kept.{AreTidy};
ghost use Rattle.hold_tables.specs.Reading.{next_open};
ghost use Rattle.hold_tables.specs.Walks.{steps_under_way};
ghost use Rattle.cascade.specs.Sets.{done, marked};
ghost use Rattle.cascade.specs.Walking.{IsOnTheWay, IsWithin, last_entries, staying, steps_among};

use crate::drag::drag_along;
use crate::marks::{Mark, next_waiting};
use crate::members::Members;
use hold_tables::Holds;
use process_tree::Entry;

/// A root, and how many of its last net entries it takes back.
#[derive(Clone, Copy)]
struct Root {
    process: u32,
    count: u16,
}

/// Adds the step that a process has under way, if it has one.
fn add_step(running: &mut Vec<Entry>, step: Option<Entry>)
    requires { length running.old.items < vec_capacity running.old }
    ensures items { running.new.items ≡ running.old.items ++ steps_among step }
    ensures capacity { vec_capacity running.new ≡ vec_capacity running.old }
{
    match step {
        Some(e) if !e.undo => running.push_reserved(e),
        _ => {}
    }
}

/// The open process after this one.
fn open_after(holds: &Holds, process: u32) -> Option<u32>
    requires numbers { Each (λ r. r.process < 4294967296) holds.now.processes }
    ensures { result ≡ next_open holds.now (process + 1) }
{
    match process.checked_add(1) {
        Some(from) => holds.next_open(from),
        None => None,
    }
}

/// Gathers the steps that are under way.
fn gather(holds: &Holds, most: u32, running: &mut Vec<Entry>)
    requires open { Each (λ r. r.process ≤ most) holds.now.processes }
    requires room { most < vec_capacity running.old }
    ensures same { (p : Entry → Bool) → list_any p running.new.items ≡ list_any p (steps_under_way holds.now.processes) }
    ensures within { Each (IsWithin holds.now.conflicts (most + 1)) running.new.items }
    ensures capacity { vec_capacity running.new ≡ vec_capacity running.old }
    ensures tidy { AreTidy holds.now }
{
    running.clear();
    let mut next = holds.next_open(0);
    'processes: while let Some(process) = next {
        add_step(running, holds.running(process));
        next = open_after(holds, process);
    }
}

/// How many net entries a process has.
fn count_of(holds: &Holds, process: u32) -> usize
    ensures { result ≡ length (of_process process holds.now.net) }
{
    let mut place = holds.net_len();
    let mut count = 0;
    'places: while 0 < place {
        place -= 1;
        if holds.net_at(place).process == process {
            count += 1;
        }
    }
    count
}

/// How many of the first net entries of a process stay.
fn staying(holds: &Holds, root: Root, process: u32) -> usize
    requires open { is_open holds.now process ≡ true }
    requires count { root.count ≤ length (of_process root.process holds.now.net) }
    ensures { result ≡ staying holds.now root.process root.count process }
{
    if process == root.process {
        count_of(holds, process) - usize::from(root.count)
    } else {
        usize::from(holds.fixed(process))
    }
}

/// Nobody is in but the root, which waits.
fn begin(marks: &mut [Mark], root: u32)
    requires { root < length marks.old }
    ensures in_set { (k : ℕ) → marked marks.new k ≡ nat_eq k root }
    ensures looked_at { (k : ℕ) → done marks.new k ≡ false }
{
    for mark in marks.iter_mut() {
        *mark = Mark::Out;
    }
    marks[root as usize] = Mark::Waiting;
}

/// Brings in whoever goes back with the root.
fn go_on(holds: &Holds, root: Root, running: &[Entry], marks: &mut [Mark])
    requires root { is_open holds.now root.process ≡ true }
    requires count { root.count ≤ length (of_process root.process holds.now.net) }
    requires open { Each (λ r. r.process < length marks.old) holds.now.processes }
    requires few { length marks.old ≤ 4294967296 }
    requires tidy { AreTidy holds.now }
    requires same { (p : Entry → Bool) → list_any p running.now ≡ list_any p (steps_under_way holds.now.processes) }
    requires within { Each (IsWithin holds.now.conflicts (length marks.old)) running.now }
    ensures way { IsOnTheWay holds.now root.process root.count marks.new }
    ensures all { (k : ℕ) → marked marks.new k ≡ true → done marks.new k ≡ true }
    ensures count { length marks.new ≡ length marks.old }
{
    begin(marks, root.process);
    'waiting: while let Some(next) = next_waiting(marks) {
        let process = next as u32;
        marks[next] = Mark::Done;
        let stay = staying(holds, root, process);
        drag_along(holds, running, process, stay, marks);
    }
}

/// Writes the cascade of a root that takes back its last `count` net entries: the least set that has the root, and with each
/// process whoever has built on what it takes back. Each other member takes back all its net entries that aren't fixed
/// (`docs/ADMISSION.md`).
pub fn closure(holds: &Holds, root: u32, count: u16, into: &mut Members)
    requires root { is_open holds.now root ≡ true }
    requires count { count + (kept_of holds.now root).fixed ≤ length (of_process root holds.now.net) }
    requires room { Each (λ r. r.process ≤ into.old.most) holds.now.processes }
    ensures least { IsCascade (do_conflict holds.now.conflicts) (holdings_of holds.now) root
        (last_entries holds.now root count) into.new.members }
    ensures computed { (k : ℕ) → is_in k into.new.members
        ≡ is_in k (cascade (do_conflict holds.now.conflicts) (holdings_of holds.now) root (last_entries holds.now root count)) }
    ensures room { into.new.most ≡ into.old.most }
{
    gather(holds, into.most, &mut into.running);
    let from = Root {
        process: root,
        count,
    };
    go_on(holds, from, &into.running, &mut into.marks);
}
