//! Trials of the flat grammar's definitions: small grammars, trees and plans that meet them, and faulty ones that don't.
//!
//! Nothing of the product stands on this crate. Its functions do nothing; each contract is a trial, and its values stand in `specs/`.
//! `parts` builds grammars for the trials above.
#![tactic(auto)]

pub mod cells_of_operations;
pub mod crossed_uses;
pub mod late_inherited;
pub mod list_of_items;
pub mod parts;
