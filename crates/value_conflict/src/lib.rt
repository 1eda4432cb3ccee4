//! Which operations conflict in value, and whether a catalog names each such conflict.
//!
//! Operations of one subsystem conflict in value unless both look, both add, or both take (`specs/ValueConflict`). `is_commuting`
//! asks it of one pair that the catalog doesn't name as conflicting, and `value_sound` of all pairs; `commuting` answers the least
//! such pair by its names. What a catalog without such pairs keeps of the values is said in `value_rules`.
#![tactic(auto)]

mod laws;
mod names;
mod soundness;

pub use laws::first_commuting_is_exact;
pub use names::commuting;
pub use soundness::{Commuting, is_commuting, value_sound};
