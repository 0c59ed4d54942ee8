//! Attributes with two kinds or two types, and the least place of any clash.
#![tactic(auto)]

mod clash;
mod items;
mod kinds;
mod pairs;
mod sides;

pub use clash::least_kind_clash;
pub use items::{KindFact, TypeFact, type_facts};
pub use kinds::{SaidKind, second_kind};
pub use pairs::{Facts, twofold};
pub use sides::kind_facts;
