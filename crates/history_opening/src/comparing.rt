// Books beside the effects of a history.
ghost use Rattle.std.specs.Prelude.{◌≡◌, ◌<◌, ◌+◌, ◌^◌, [], length, IfOk};
ghost use Rattle.schedule_model.specs.Histories.{acts};
ghost use Rattle.history_files.specs.Sound.{are_among, counted, is_among, same_effect};
ghost use Rattle.history_files.specs.Standing.{AreGoodBooks};
ghost use Rattle.history_opening.specs.Comparing.{book_difference, books_difference, difference, difference_from};

use crate::BookFault;
use crate::effects::effects_on;
use commute_table::Op;
use resource_box::Resource;
use schedule_rules::History;
use std::alloc::{AllocError, Global};
use subsystem_store::{Effect, Store, same_call};

/// Whether two effects are the same.
pub fn same_effect(a: &Effect, b: &Effect) -> bool
    ensures { result ≡ same_effect a.now b.now }
{
    let same_undo = if a.undo { b.undo } else { !b.undo };
    a.number == b.number
        && a.process == b.process
        && a.step == b.step
        && same_undo
        && same_call(&a.call, &b.call)
}

/// Whether an effect stands among these.
pub fn is_among(effect: &Effect, effects: &[Effect]) -> bool
    ensures { result ≡ is_among effect.now effects.now }
{
    effects.iter().any(|other| same_effect(effect, other))
}

// Whether each of some effects stands among these.
fn are_among(some: &[Effect], effects: &[Effect]) -> bool
    ensures { result ≡ are_among some.now effects.now }
{
    some.iter().all(|effect| is_among(effect, effects))
}

// The difference of no effect and some effects.
fn left_over(subsystem: u8, at: u32, acts: &[Effect]) -> Option<BookFault>
    ensures { result ≡ difference_from subsystem at [] acts.now }
{
    match acts {
        [] => None,
        [act, ..] => Some(BookFault {
            subsystem,
            at,
            book: None,
            acts: Some(*act),
        }),
    }
}

/// The first difference of what a book comes to and the effects of a history.
pub fn first_difference(subsystem: u8, own: &[Effect], acts: &[Effect]) -> Option<BookFault>
    requires few { length own.now + 1 < 2 ^ 32 }
    ensures { result ≡ difference subsystem own.now acts.now }
{
    let mut at = 1;
    let mut rest = own;
    let mut acts = acts;
    while let [own, others @ ..] = rest {
        let [act, later @ ..] = acts else {
            return Some(BookFault {
                subsystem,
                at,
                book: Some(*own),
                acts: None,
            });
        };
        if !same_effect(own, act) {
            return Some(BookFault {
                subsystem,
                at,
                book: Some(*own),
                acts: Some(*act),
            });
        }
        at += 1;
        rest = others;
        acts = later;
    }
    left_over(subsystem, at, acts)
}

// What the book of a store comes to: with what is in doubt, where all of that stands among the effects of the history.
fn counted<'a, B: Resource>(store: &'a Store<B>, acts: &[Effect]) -> &'a [Effect]
    ensures { result.now ≡ counted acts.now store.now.book store.now.doubt }
{
    if are_among(store.in_doubt(), acts) {
        store.effects()
    } else {
        store.book()
    }
}

/// The first difference of what the book of a store comes to and the effects of the history.
pub fn store_difference<B: Resource>(
    subsystem: u8,
    store: &Store<B>,
    acts: &[Effect],
) -> Option<BookFault>
    requires few { length store.now.book + length store.now.doubt + 1 < 2 ^ 32 }
    ensures { result ≡ book_difference subsystem acts.now store.now.book store.now.doubt }
{
    first_difference(subsystem, counted(store, acts), acts)
}

/// The first difference of the first store whose book comes to other effects than those of a history.
pub fn books_difference<B: Resource>(
    alloc: Global,
    stores: &[Store<B>],
    ops: &[Op],
    history: &History,
) -> Result<Option<BookFault>, AllocError>
    requires few { length (acts history.now.events) < 2 ^ 32 }
    requires eight { length stores.now ≡ 8 }
    requires good { AreGoodBooks stores.now }
    ensures { IfOk result (λ found. found ≡ books_difference ops.now history.now 0 stores.now) }
{
    let plans = history.plans.as_slice();
    let events = history.events.as_slice();
    let mut q = 0;
    let mut rest = stores;
    while let Some((store, others)) = rest.split_first() {
        let acts = effects_on(alloc, ops, plans, events, q)?;
        let difference = store_difference(q, store, &acts);
        if difference.is_some() {
            return Ok(difference);
        }
        q += 1;
        rest = others;
    }
    Ok(None)
}
