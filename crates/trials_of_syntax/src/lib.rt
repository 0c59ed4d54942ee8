//! The definitions of a specification's meaning, tried on small specifications whose meaning is known.
//!
//! Each function does nothing; what is proved is its contract: what the definitions give, without the product's
//! code. Nothing of the product stands on this crate.
#![tactic(auto)]

mod chains;
mod coordinates;
mod expressions;
mod inherited;
mod messages;
mod remote_access;
mod symbol_computations;
mod whole;

pub use chains::{nested_start, numbered_list, tails};
pub use coordinates::line_and_column;
pub use expressions::{parts_of_a_message, values_of_expressions};
pub use inherited::{
    complete_right_sides, computing_nodes, inherited_kinds, listed_class, values_handed_down,
};
pub use messages::{conditions_of_messages, messages_and_least_faults};
pub use remote_access::{nested_depths, pairs_of_remote_lists, shielded_sums};
pub use symbol_computations::{
    attribute_of_a_class, chain_of_a_symbol, class_of_a_class, class_symbol_rule,
    goals_of_an_occurrence, two_classes_left,
};
pub use whole::{
    attribute_of_an_item, complete_specification, fitting_trees, incomplete_specification,
    only_attribution, sum_of_items, two_sides,
};

#[cfg(test)]
mod tests;
