// A box, its book, and what may be undone.
ghost use Rattle.std.specs.Prelude.{◌≡◌, ◌<◌, ◌≤◌, ◌+◌, ◌*◌, ◌++◌, ◌∷◌, [], length, true, false, ◌||◌, ◌&&◌, ◌⊎◌, ◌≢◌};
ghost use Rattle.std.specs.Prelude.{OnOk, OnErr, IsOk, IsTrue, vec_len, vec_capacity, is_some, ◌-◌, if◌then◌else◌};
ghost use Rattle.resource_box.specs.Meaning.{value_at, has_key};
ghost use Rattle.resource_box.specs.Table.{bars};
ghost use Rattle.subsystem_store.specs.declared.effect.Effect.{Effect};
ghost use Rattle.subsystem_store.specs.Values.{values, take_last, can_undo, settle, undone, beside};
ghost use Rattle.subsystem_store.specs.Order.{is_above, may_follow, commits, has_place, most_effects, MayFollowEach};
ghost use Rattle.subsystem_store.specs.Room.{forwards, HasRoom};
ghost use Rattle.subsystem_store.specs.Opened.{Fits};

use crate::Effect;
use crate::effect::Undoable;
use crate::matching::{commits, count_of, is_above, last_place, left_of};
use resource_box::{Kind, Resource};
use std::alloc::{AllocError, Global};
use std::marker::Model;

/// The most effects of a store, committed or in doubt.
pub const MOST_EFFECTS: usize = 16_384;

/// The values of a subsystem beside the effects that made them.
#[derive(Drop)]
pub struct Account<B: Drop> {
    kind: Kind,
    resource: B,
    // the committed effects, and those in doubt behind them
    effects: Vec<Effect>,
    committed: usize,
    // the committed forward effects that are not undone, with the values before them
    undoable: Vec<Undoable>,
    // the keys at each of which there is room for one effect more
    ready: Vec<u32>,
}

impl<B: Drop> Model for Account<B> {
    ghost use Rattle.std.specs.Prelude.{◌≡◌, ◌≤◌, ◌+◌, ◌*◌, length, take, drop, vec_capacity};
    ghost use Rattle.subsystem_store.specs.Opened.{Account};
    ghost use Rattle.subsystem_store.specs.Values.{settled};
    ghost use Rattle.subsystem_store.specs.Order.{most_effects};
    ghost use Rattle.subsystem_store.specs.Room.{forwards, UndosFind};

    ghost Value = { Account B };

    ghost view = { λ a. record {
      kind = a.kind;
      resource = a.resource;
      book = take a.committed a.effects.items;
      doubt = drop a.committed a.effects.items;
      ready = a.ready.items;
    } };

    ghost invariant = { λ a. (a.committed ≤ length a.effects.items)
        × (length a.effects.items ≤ most_effects)
        × (a.undoable.items ≡ (settled a.kind (take a.committed a.effects.items)).undoable)
        × (a.committed + length a.undoable.items + 2 * (forwards (drop a.committed a.effects.items) + length a.ready.items)
        ≤ vec_capacity a.effects)
        × (length a.undoable.items + (forwards (drop a.committed a.effects.items) + length a.ready.items) ≤ vec_capacity a.undoable)
        × UndosFind a.kind (take a.committed a.effects.items) (drop a.committed a.effects.items) };
}

impl<B: Resource> Account<B> {
    /// Clears the box, beside an empty book.
    pub fn new(alloc: Global, resource: B) -> Self
        ensures fits { Fits B.Resource result }
        ensures kind { result.kind ≡ B.sort resource }
        ensures empty { (result.book ≡ []) × (result.doubt ≡ []) }
    {
        let mut resource = resource;
        resource.clear();
        Account {
            kind: resource.kind(),
            resource,
            effects: Vec::new(alloc),
            committed: 0,
            undoable: Vec::new(alloc),
            ready: Vec::new(alloc),
        }
    }

    /// Whether an undo can be of something, of the book or of what is in doubt.
    fn can_undo(&self, undo: &Effect) -> bool
        ensures { result ≡ can_undo self.now.kind (self.now.book ++ self.now.doubt) undo.now }
    {
        let (_, doubt) = self.effects.split_at(self.committed);
        left_of(undo, count_of(undo, &self.undoable), doubt) > 0
    }

    /// Whether an effect may be prepared next.
    fn may_follow(&self, effect: &Effect) -> bool
        ensures { result ≡ may_follow self.now.kind (self.now.book ++ self.now.doubt) effect.now }
    {
        is_above(&self.effects, effect.number) && (!effect.undo || self.can_undo(effect))
    }

    /// Whether a prepared effect may come as the next record.
    pub fn is_in_place(&self, effect: &Effect) -> bool
        ensures { result ≡ (has_place (self.now.book ++ self.now.doubt)
            && may_follow self.now.kind (self.now.book ++ self.now.doubt) effect.now) }
    {
        self.effects.len() < MOST_EFFECTS && self.may_follow(effect)
    }

    /// Whether the commit of a number may come as the next record.
    pub fn is_due(&self, number: u32) -> bool
        ensures { result ≡ commits self.now.doubt number }
    {
        let (_, doubt) = self.effects.split_at(self.committed);
        commits(doubt, number)
    }

    /// The value at a key.
    pub fn look(&self, key: u32) -> i64
        requires fits { Fits B.Resource self.now }
        ensures { result ≡ value_at (values self.now.kind self.now.book) key }
    {
        self.resource.look(key)
    }

    /// The box without its values.
    pub fn cleared(self) -> B
        ensures empty { (B.meaning result).items ≡ [] }
        ensures kind { B.sort result ≡ B.sort self.resource }
    {
        let mut resource = self.resource;
        resource.clear();
        resource
    }

    /// Whether the values bar a forward effect.
    pub fn bars(&self, effect: &Effect) -> bool
        requires fits { Fits B.Resource self.now }
        ensures { result ≡ (if effect.now.undo then false
            else bars self.now.kind effect.now.call (value_at (values self.now.kind self.now.book) effect.now.call.key)) }
    {
        !effect.undo && self.resource.bars(&effect.call)
    }

    /// Makes room for one effect more at a key and for its undo.
    pub fn make_room(&mut self, key: u32) -> Result<(), AllocError>
        requires fits { Fits B.Resource self.old }
        ensures fits { Fits B.Resource self.new }
        ensures same { (self.new.kind ≡ self.old.kind) × (self.new.book ≡ self.old.book) × (self.new.doubt ≡ self.old.doubt) }
        ensures ok { OnOk result (self.new.ready ≡ self.old.ready ++ key ∷ []) }
        ensures err { OnErr result (self.new.ready ≡ self.old.ready) }
        ensures sort { B.sort self.new.resource ≡ B.sort self.old.resource }
    {
        let doubt = self.effects.len() - self.committed;
        reserve(
            &mut self.effects,
            &mut self.undoable,
            doubt,
            &mut self.ready,
        )?;
        self.resource.ready(key)?;
        self.ready.push_reserved(key);
        Ok(())
    }

    /// Takes an effect in doubt, with the room that it and its undo need.
    pub fn hold(&mut self, effect: Effect) -> Result<(), AllocError>
        requires fits { Fits B.Resource self.old }
        requires few { length (self.old.book ++ self.old.doubt) < most_effects }
        requires follows { may_follow self.old.kind (self.old.book ++ self.old.doubt) effect ≡ true }
        ensures fits { Fits B.Resource self.new }
        ensures same { (self.new.kind ≡ self.old.kind) × (self.new.book ≡ self.old.book) }
        ensures ok { OnOk result (self.new.doubt ≡ self.old.doubt ++ effect ∷ []) }
        ensures sort { B.sort self.new.resource ≡ B.sort self.old.resource }
    {
        self.make_room_for(&effect)?;
        self.hold_next(effect);
        Ok(())
    }

    // Makes the room that an effect and its undo need: none for an undo.
    fn make_room_for(&mut self, effect: &Effect) -> Result<(), AllocError>
        requires fits { Fits B.Resource self.old }
        ensures fits { Fits B.Resource self.new }
        ensures same { (self.new.kind ≡ self.old.kind) × (self.new.book ≡ self.old.book) × (self.new.doubt ≡ self.old.doubt) }
        ensures ready { OnOk result (effect.now.undo ≡ false
            → (1 ≤ length self.new.ready) × IsTrue (has_key (B.meaning self.new.resource).items effect.now.call.key)) }
        ensures sort { B.sort self.new.resource ≡ B.sort self.old.resource }
    {
        if effect.undo {
            return Ok(());
        }
        self.make_room(effect.call.key)
    }

    // Takes an effect in doubt, in the room that is ready for it.
    fn hold_next(&mut self, effect: Effect)
        requires fits { Fits B.Resource self.old }
        requires few { length (self.old.book ++ self.old.doubt) < most_effects }
        requires follows { may_follow self.old.kind (self.old.book ++ self.old.doubt) effect ≡ true }
        requires ready { effect.undo ≡ false
            → (1 ≤ length self.old.ready) × IsTrue (has_key (B.meaning self.old.resource).items effect.call.key) }
        ensures fits { Fits B.Resource self.new }
        ensures same { (self.new.kind ≡ self.old.kind) × (self.new.book ≡ self.old.book) × (self.new.resource ≡ self.old.resource) }
        ensures doubt { self.new.doubt ≡ self.old.doubt ++ effect ∷ [] }
        ensures ready { length self.new.ready + forwards (effect ∷ []) ≡ length self.old.ready }
    {
        self.ready.truncate(self.ready.len() - places_of(&effect));
        self.effects.push_reserved(effect);
    }

    // Lets go what room is left.
    fn forget_room(&mut self)
        requires fits { Fits B.Resource self.old }
        ensures fits { Fits B.Resource self.new }
        ensures same { (self.new.kind ≡ self.old.kind) × (self.new.book ≡ self.old.book) × (self.new.doubt ≡ self.old.doubt)
            × (self.new.resource ≡ self.old.resource) }
        ensures ready { self.new.ready ≡ [] }
    {
        self.ready.clear();
    }

    /// Takes effects in doubt, where there is room for them. What room is left is let go.
    pub fn hold_each(&mut self, effects: &[Effect])
        requires fits { Fits B.Resource self.old }
        requires few { length (self.old.book ++ self.old.doubt) + length effects.now ≤ most_effects }
        requires follow { MayFollowEach self.old.kind (self.old.book ++ self.old.doubt) effects.now }
        requires room { HasRoom self.old.ready effects.now }
        ensures fits { Fits B.Resource self.new }
        ensures same { (self.new.kind ≡ self.old.kind) × (self.new.book ≡ self.old.book) }
        ensures doubt { self.new.doubt ≡ self.old.doubt ++ effects.now }
        ensures ready { self.new.ready ≡ [] }
    {
        hold_in_room(self, effects);
        self.forget_room();
    }

    /// Forgets what is in doubt.
    pub fn release(&mut self)
        requires fits { Fits B.Resource self.old }
        ensures fits { Fits B.Resource self.new }
        ensures same { (self.new.kind ≡ self.old.kind) × (self.new.book ≡ self.old.book) × (self.new.doubt ≡ []) }
        ensures ready { self.new.ready ≡ self.old.ready }
    {
        self.effects.truncate(self.committed);
    }

    // Commits the first effect in doubt.
    fn commit_next(&mut self)
        requires fits { Fits B.Resource self.old }
        requires doubt { self.old.doubt ≢ [] }
        ensures fits { Fits B.Resource self.new }
        ensures same { self.new.kind ≡ self.old.kind }
        ensures sort { B.sort self.new.resource ≡ B.sort self.old.resource }
        ensures all { self.new.book ++ self.new.doubt ≡ self.old.book ++ self.old.doubt }
        ensures fewer { length self.new.doubt + 1 ≡ length self.old.doubt }
        ensures ready { self.new.ready ≡ self.old.ready }
    {
        let effect = self.effects[self.committed];
        settle(&mut self.resource, &mut self.undoable, effect);
        self.committed += 1;
    }

    /// Commits all that is in doubt, in order.
    pub fn commit(&mut self)
        requires fits { Fits B.Resource self.old }
        ensures fits { Fits B.Resource self.new }
        ensures same { self.new.kind ≡ self.old.kind }
        ensures sort { B.sort self.new.resource ≡ B.sort self.old.resource }
        ensures book { self.new.book ≡ self.old.book ++ self.old.doubt }
        ensures settled { self.new.doubt ≡ [] }
        ensures ready { self.new.ready ≡ self.old.ready }
    {
        commit_each(self);
    }
}

impl<B: Drop> Account<B> {
    pub fn book(&self) -> &[Effect]
        ensures { result.now ≡ self.now.book }
    {
        let (book, _) = self.effects.split_at(self.committed);
        book
    }

    pub fn in_doubt(&self) -> &[Effect]
        ensures { result.now ≡ self.now.doubt }
    {
        let (_, doubt) = self.effects.split_at(self.committed);
        doubt
    }

    pub fn effects(&self) -> &[Effect]
        ensures { result.now ≡ self.now.book ++ self.now.doubt }
    {
        &self.effects
    }

    pub fn into_resource(self) -> B
        ensures { result ≡ self.resource }
    {
        self.resource
    }
}

// For how many effects room is to be ready where this one comes.
fn places_of(effect: &Effect) -> usize
    ensures { result ≡ forwards (effect.now ∷ []) }
{
    if effect.undo { 0 } else { 1 }
}

// Takes effects in doubt, in the room that is ready for them.
fn hold_in_room<B: Resource>(account: &mut Account<B>, effects: &[Effect])
    requires fits { Fits B.Resource account.old }
    requires few { length (account.old.book ++ account.old.doubt) + length effects.now ≤ most_effects }
    requires follow { MayFollowEach account.old.kind (account.old.book ++ account.old.doubt) effects.now }
    requires room { HasRoom account.old.ready effects.now }
    ensures fits { Fits B.Resource account.new }
    ensures same { (account.new.kind ≡ account.old.kind) × (account.new.book ≡ account.old.book) }
    ensures doubt { account.new.doubt ≡ account.old.doubt ++ effects.now }
{
    let mut rest = effects;
    'effects: while let Some((effect, after)) = rest.split_first() {
        account.hold_next(*effect);
        rest = after;
    }
}

// Commits all that is in doubt, one after the other.
fn commit_each<B: Resource>(account: &mut Account<B>)
    requires fits { Fits B.Resource account.old }
    ensures fits { Fits B.Resource account.new }
    ensures same { account.new.kind ≡ account.old.kind }
    ensures sort { B.sort account.new.resource ≡ B.sort account.old.resource }
    ensures book { account.new.book ≡ account.old.book ++ account.old.doubt }
    ensures settled { account.new.doubt ≡ [] }
    ensures ready { account.new.ready ≡ account.old.ready }
{
    while !account.in_doubt().is_empty() {
        account.commit_next();
    }
}

// Room for the effects in doubt and for one more beside those that are ready, for the undos of them, and for those of the others.
fn reserve(
    effects: &mut Vec<Effect>,
    undoable: &mut Vec<Undoable>,
    doubt: usize,
    ready: &mut Vec<u32>,
) -> Result<(), AllocError>
    requires few { (vec_len undoable.old + 2 * vec_len ready.old ≤ vec_capacity effects.old) × (doubt ≤ most_effects) }
    ensures same { (effects.new.items ≡ effects.old.items) × (undoable.new.items ≡ undoable.old.items)
        × (ready.new.items ≡ ready.old.items) }
    ensures keeps { (vec_capacity effects.old ≤ vec_capacity effects.new) × (vec_capacity undoable.old ≤ vec_capacity undoable.new) }
    ensures room { OnOk result
        ((vec_len effects.new + (vec_len undoable.new + doubt + 2 * (vec_len ready.new + 1)) ≤ vec_capacity effects.new)
        × (vec_len undoable.new + (doubt + vec_len ready.new + 1) ≤ vec_capacity undoable.new)
        × (vec_len ready.new + 1 ≤ vec_capacity ready.new)) }
{
    let more = ready.len() + 1;
    effects.reserve(undoable.len() + doubt + 2 * more)?;
    undoable.reserve(doubt + more)?;
    ready.reserve(1)
}

// Changes the box by an effect, and what may be undone.
fn settle<B: Resource>(resource: &mut B, undoable: &mut Vec<Undoable>, effect: Effect)
    requires ready { IsTrue (has_key (B.meaning resource.old).items effect.call.key) }
    requires room { effect.undo ≡ false → vec_len undoable.old < vec_capacity undoable.old }
    requires found { effect.undo ≡ true → IsTrue (is_some (take_last effect undoable.old.items)) }
    ensures pairs { (B.meaning resource.new).items ≡
        (settle (B.sort resource.old) (beside (B.meaning resource.old).items undoable.old.items) effect).pairs }
    ensures undoable { undoable.new.items ≡
        (settle (B.sort resource.old) (beside (B.meaning resource.old).items undoable.old.items) effect).undoable }
    ensures kind { B.sort resource.new ≡ B.sort resource.old }
    ensures capacity { vec_capacity undoable.old ≤ vec_capacity undoable.new }
    ensures size { vec_len undoable.new ≡ (if effect.undo then vec_len undoable.old - 1 else vec_len undoable.old + 1) }
{
    if effect.undo {
        undo(resource, undoable, &effect);
    } else {
        let before = resource.apply(&effect.call);
        undoable.push_reserved(Undoable { effect, before });
    }
}

fn undo<B: Resource>(resource: &mut B, undoable: &mut Vec<Undoable>, effect: &Effect)
    requires ready { IsTrue (has_key (B.meaning resource.old).items effect.now.call.key) }
    requires found { IsTrue (is_some (take_last effect.now undoable.old.items)) }
    ensures pairs { (B.meaning resource.new).items ≡
        (undone (B.sort resource.old) (beside (B.meaning resource.old).items undoable.old.items) effect.now
        (take_last effect.now undoable.old.items)).pairs }
    ensures undoable { undoable.new.items ≡
        (undone (B.sort resource.old) (beside (B.meaning resource.old).items undoable.old.items) effect.now
        (take_last effect.now undoable.old.items)).undoable }
    ensures kind { B.sort resource.new ≡ B.sort resource.old }
    ensures capacity { vec_capacity undoable.old ≤ vec_capacity undoable.new }
    ensures size { vec_len undoable.new + 1 ≡ vec_len undoable.old }
{
    let Some(place) = last_place(effect, undoable) else {
        unreachable!();
    };
    let found = undoable.remove(place);
    resource.revert(&effect.call, found.before);
}
