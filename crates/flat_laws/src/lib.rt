//! The flat grammar of an accepted specification is well formed.
#![tactic(auto)]

mod laws;

pub use laws::flat_grammars_are_well_formed;
