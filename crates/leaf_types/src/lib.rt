//! The types of what the leaves of expressions name: attributes of symbols, terminals and chains.
#![tactic(auto)]

mod attributes;
mod heirs;
mod laws;
mod leaves;
mod names;
mod uneven;

pub use attributes::AttributeTypes;
pub use laws::types_are_single;
pub use leaves::LeafTypes;
pub use names::NameTypes;
