//! What a specification names: its symbols, attributes and remote lists, and what they are.
#![tactic(auto)]

mod attribute_uses;
mod coordinates;
mod different;
mod names;
mod numbers;
mod parts;
mod production;
mod symbol_uses;

pub use attribute_uses::attribute_names;
pub use coordinates::{is_coordinate_in_rule, is_coordinate_in_symbol};
pub use different::{different_names, different_symbols};
pub use names::Names;
pub use numbers::{attribute_numbers, numbered, symbol_numbers};
pub use parts::leaves;
pub use production::{Production, right_symbols};
pub use symbol_uses::symbol_names;
