// The rule of the table, and the names of its steps.
ghost use Rattle.std.specs.Prelude.{◌^◌, List, [], Some};
ghost use Rattle.history_lock.specs.Rule.{DeskInvariant, resting, both, left, right, spent};
ghost use Rattle.history_lock.specs.Plays.{Cleared, Drew, Looked, Counted, Passed, Announced, Learned};

use crate::held::Held;
use crate::view::View;
use atomic_table::{Join, Play, Split, TableRule};
use std::marker::{Brand, PhantomData};
use std::snapshot::Snapshot;

pub struct Law<S> {
    marker: PhantomData<S>,
}

impl<S: Held> TableRule<Option<S>, View<S, S::Entry>, Snapshot<S>> for Law<S> {
    ghost holds = { λ key. DeskInvariant S.stands_for key.value };

    ghost first = { λ key. resting (Some key.value) [] [] (2 ^ 62) };
}

/// Two seats out of one, and one out of two.
pub struct Cut;

impl<O, X> Split<View<O, X>> for Cut {
    ghost left = { left };

    ghost right = { right };
}

impl<O, X> Join<View<O, X>> for Cut {
    ghost both = { both };

    ghost spent = { spent };
}

pub struct Clear;

impl<O, T, X> Play<Option<T>, View<O, X>> for Clear {
    ghost then = { λ _ me found after. Cleared me found after };
}

pub struct Draw;

impl<O, T, X> Play<Option<T>, View<O, X>> for Draw {
    ghost then = { λ _ me found after. Drew me found after };
}

pub struct Look<S> {
    marker: PhantomData<S>,
}

impl<S: Held> Play<Option<S>, View<S, S::Entry>> for Look<S> {
    ghost then = { λ _ me found after. Looked S.stands_for me found after };
}

/// The entry of a turn, as a list of one. Each call picks it.
pub trait Says<X> {
    ghost entries: { List X };
}

impl<X> Says<X> for Brand {
    ghost entries = { [] };
}

pub struct Count<E> {
    marker: PhantomData<E>,
}

impl<O, T, X, E: Says<X>> Play<Option<T>, View<O, X>> for Count<E> {
    ghost then = { λ _ me found after. Counted E.entries me found after };
}

pub struct Pass;

impl<O, T, X> Play<Option<T>, View<O, X>> for Pass {
    ghost then = { λ _ me found after. Passed me found after };
}

pub struct Announce;

impl<O, T, X> Play<Option<T>, View<O, X>> for Announce {
    ghost then = { λ _ me _ after. Announced me after };
}

pub struct Learn;

impl<O, T, X> Play<Option<T>, View<O, X>> for Learn {
    ghost then = { λ _ me found after. Learned me found after };
}
