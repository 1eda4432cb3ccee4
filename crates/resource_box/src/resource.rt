// Resources as the layers above see them.
ghost use Rattle.std.specs.Prelude.{◌≡◌, [], OnOk, OnErr, IsTrue};
ghost use Rattle.resource_box.specs.Meaning.{Pairs, value_at, has_key, with_value, with_key};
ghost use Rattle.resource_box.specs.Table.{bars, applied, reverted};
ghost use Rattle.resource_box.specs.declared.call.Kind.{Kind};

use crate::{Call, Kind};
use std::alloc::AllocError;

/// Values at keys. A key that was never used has the value 0.
pub trait Resource: Drop {
    /// The map that it means.
    ghost meaning: { Self → Pairs };

    ghost sort: { Self → Kind };

    fn kind(&self) -> Kind
        ensures { result ≡ sort self.now };

    /// The value at a key.
    fn look(&self, key: u32) -> i64
        ensures { result ≡ value_at (meaning self.now).items key };

    /// Makes a pair of the key, so that calls at it need no memory.
    fn ready(&mut self, key: u32) -> Result<(), AllocError>
        ensures ok { OnOk result ((meaning self.new).items ≡ with_key (meaning self.old).items key) }
        ensures ready { OnOk result (IsTrue (has_key (meaning self.new).items key)) }
        ensures err { OnErr result ((meaning self.new).items ≡ (meaning self.old).items) }
        ensures kind { sort self.new ≡ sort self.old };

    /// Whether a call is barred now.
    fn bars(&self, call: &Call) -> bool
        ensures { result ≡ bars (sort self.now) call.now (value_at (meaning self.now).items call.now.key) };

    /// Applies a call, and answers the value before.
    fn apply(&mut self, call: &Call) -> i64
        requires ready { IsTrue (has_key (meaning self.old).items call.now.key) }
        ensures before { result ≡ value_at (meaning self.old).items call.now.key }
        ensures changed { (meaning self.new).items ≡
            with_value (meaning self.old).items call.now.key
            (applied (sort self.old) call.now (value_at (meaning self.old).items call.now.key)) }
        ensures kind { sort self.new ≡ sort self.old };

    /// Undoes a call, given the value before it.
    fn revert(&mut self, call: &Call, before: i64)
        requires ready { IsTrue (has_key (meaning self.old).items call.now.key) }
        ensures changed { (meaning self.new).items ≡
            with_value (meaning self.old).items call.now.key
            (reverted (sort self.old) call.now (value_at (meaning self.old).items call.now.key) before) }
        ensures kind { sort self.new ≡ sort self.old };

    /// Takes all pairs out.
    fn clear(&mut self)
        ensures empty { (meaning self.new).items ≡ [] }
        ensures kind { sort self.new ≡ sort self.old };
}
