//! What a written computation and an added attribute are given in a plain rule of the flat grammar, and what they depend on.
#![tactic(auto)]

mod folds;
mod leaves;
mod needs;
mod places;
mod sets;
mod site;
mod tails;
mod term_needs;
mod terms;
mod withs;

pub use leaves::{Here, computed, copied};
pub use needs::computed_needs;
pub use places::added_occ;
pub use sets::Sets;
pub use site::{Role, Site};
pub use tails::{Tail, Tails};
pub use term_needs::{given_needs, held_needs};
pub use terms::{Added, given, held_value};
pub use withs::Withs;
