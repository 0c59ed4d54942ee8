//! The definitions of the tables of a specification, tried on small specifications.
//!
//! Each function does nothing; what is proved is its contract: what the definitions give, without the product's
//! code. Nothing of the product stands on this crate.
#![tactic(auto)]

mod counted_items;
mod faulty;

pub use counted_items::{
    forced_of_items, items_from_text, needs_of_items, shares_of_items, slots_of_items,
    tables_of_items, whole_tables_of_items, without_faults, without_in_force_faults,
};
pub use faulty::{
    bad_index, bad_out, class_cycle, double_computation, duplicate_rule, kind_clash,
    missing_computation, root_not_one, unknown_symbol,
};
