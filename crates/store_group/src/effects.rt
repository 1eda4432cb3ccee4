// The effects of a group in one store.
ghost use Rattle.std.specs.Prelude.{◌≡◌, ◌<◌, ◌++◌, ◌∷◌, [], length, IfOk};
ghost use Rattle.schedule_model.specs.Limits.{most_active};
ghost use Rattle.store_group.specs.Events.{has_any};

use schedule_model::MOST_ACTIVE;
use std::alloc::{AllocError, Global};
use std::marker::Model;
use subsystem_store::Effect;

/// The effects of a group in one store, in order. It has room for one of each process that may be active, so that listing them takes
/// no memory.
#[derive(Drop)]
pub struct Effects {
    listed: Vec<Effect>,
}

impl Model for Effects {
    ghost use Rattle.std.specs.Prelude.{◌≤◌, List, vec_capacity};
    ghost use Rattle.schedule_model.specs.Limits.{most_active};
    ghost use Rattle.subsystem_store.specs.declared.effect.Effect.{Effect};

    ghost Value = { List Effect };

    ghost view = { λ e. e.listed.items };

    ghost invariant = { λ e. most_active ≤ vec_capacity e.listed };
}

impl Effects {
    /// None, with room for the most.
    pub fn new(alloc: Global) -> Result<Self, AllocError>
        ensures { IfOk result (λ effects. effects ≡ []) }
    {
        Ok(Effects {
            listed: Vec::with_capacity(alloc, MOST_ACTIVE)?,
        })
    }

    /// One more, behind the others.
    pub fn push(&mut self, effect: Effect)
        requires { length self.old < most_active }
        ensures { self.new ≡ self.old ++ effect ∷ [] }
    {
        self.listed.push_reserved(effect);
    }

    /// Takes all out, and keeps the room.
    pub fn clear(&mut self)
        ensures { self.new ≡ [] }
    {
        self.listed.clear();
    }

    pub fn as_slice(&self) -> &[Effect]
        ensures { result.now ≡ self.now }
    {
        self.listed.as_slice()
    }

    /// Whether there is an effect.
    pub fn has_any(&self) -> bool
        ensures { result ≡ has_any self.now }
    {
        !self.listed.is_empty()
    }
}
