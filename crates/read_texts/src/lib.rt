//! What a specification has that was read from a text. The functions do nothing; what is proved is their contracts.
#![tactic(auto)]

pub mod laws;
