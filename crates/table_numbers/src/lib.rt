//! That the tables of a specification have the numbers that the definitions speak of. The functions do nothing; what is proved is
//! their contracts.
#![tactic(auto)]

pub mod laws;
