//! Worked values of the definitions in lido_base: each function does nothing, and its contract is what was computed or
//! proved. Nothing of the product stands on this crate.
#![tactic(auto)]

mod contents;
mod graphs;
mod kinds;
mod operations;
mod systems;
mod trees;

pub use contents::Sample;
pub use graphs::{the_least_path, what_reaches_a_source};
pub use kinds::{rows_of_types, the_first_of_three_kinds};
pub use operations::{
    arithmetic_at_its_edges, bad_arguments, braces, braces_of_every_pattern, comparisons, division,
    kept_values, plain_functions, text_lengths, worked_expressions,
};
pub use systems::{circular_equations, equations_in_order};
pub use trees::{
    a_tree_with_lists, computed_over_a_tree, plain_terminals, tables_that_are_no_trees,
};
