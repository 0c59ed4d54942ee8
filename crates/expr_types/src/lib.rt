//! Types of expressions.
#![tactic(auto)]

mod called;
mod callee;
mod computations;
mod expressions;
mod functions;
mod goals;
mod laws;
mod names;
mod pairs;
mod rows;
mod scope;
mod table;
mod typed;
mod withs;

pub use called::functions_called;
pub use computations::{Wanted, check_computation};
pub use functions::Functions;
pub use goals::wanted_by;
pub use laws::{
    calls_have_the_types_of_their_functions, expressions_have_one_type,
    leaves_in_force_name_what_is_there, typed_computations_have_no_fault,
    typed_expressions_have_no_fault,
};
pub use names::operation_named;
pub use scope::{Holder, Scope};
pub use typed::{NamedOp, Typed};
