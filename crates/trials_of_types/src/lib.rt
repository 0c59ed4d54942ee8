//! The definitions of types, tried on small expressions.
//!
//! Each function does nothing; what is proved is its contract: what the definitions give, without the product's
//! code. Nothing of the product stands on this crate.
#![tactic(auto)]

mod calls;
mod computations;
mod remote;
mod small;

pub use calls::{arguments_of_add, branches_of_if, last_of_order, nested_faults};
pub use computations::{goals_and_types, plain_computations, typed_specifications};
pub use remote::{comb_with_one_argument, line_in_a_rule, unequal_pairs};
pub use small::{line_is_an_int, single_types, unknown_function};
