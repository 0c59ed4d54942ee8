//! What specifications without a fault of their tables, and those tables, have besides. The functions do nothing; what is proved is
//! their contracts.
#![tactic(auto)]

pub mod laws;
