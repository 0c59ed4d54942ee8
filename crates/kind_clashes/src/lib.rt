//! Names that are used or declared as two things, and the least place where one is.
#![tactic(auto)]

mod bodies;
mod chains;
mod comps;
mod firsts;
mod items;
mod least;
mod names;
mod plain;
mod sets;
mod sides;
mod symbols;
mod types;

pub use bodies::{clash_in_rules, clash_in_symbols};
pub use chains::chain_again;
pub use comps::{body_clash, comp_clash};
pub use firsts::{Firsts, firsts_of, if_behind, least_behind};
pub use items::terminal_of_items;
pub use least::earlier;
pub use names::Names;
pub use plain::plain_clash;
pub use sets::NameSets;
pub use sides::rule_comp_clash;
pub use symbols::{class_in_productions, inherits_no_class, terminal_in_lists};
pub use types::{faulty_term, second_type};
