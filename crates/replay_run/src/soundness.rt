// Whether a catalog names each conflict in value.
ghost use Rattle.std.specs.Prelude.{◌≡◌, false, OnOk, IfErr};
ghost use Rattle.commute_table.specs.Operations.{IsCatalog};
ghost use Rattle.value_conflict.specs.ValueConflict.{IsValueSound};
ghost use Rattle.command_input.specs.Early.{comes_before_files};
ghost use Rattle.replay_run.specs.Soundness.{IsUnsound};

use command_refusals::Refusal;
use commute_table::Catalog;
use std::alloc::Global;
use value_conflict::{commuting, first_commuting_is_exact};

/// Refuses a catalog that names not each conflict in value.
pub fn sound_catalog(alloc: Global, c: &Catalog) -> Result<(), Refusal>
    requires { IsCatalog c.now }
    ensures sound { OnOk result (IsValueSound c.now) }
    ensures refused { IfErr result (IsUnsound c.now) }
    ensures late { IfErr result (λ r. comes_before_files r ≡ false) }
{
    first_commuting_is_exact();
    match commuting(alloc, c)? {
        None => Ok(()),
        Some((first, second)) => Err(Refusal::Commuting(first, second)),
    }
}
