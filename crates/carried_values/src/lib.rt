//! The values of computations in a flat tree, from those in its written tree. The functions do nothing; what is proved is their
//! contracts.
#![tactic(auto)]

pub mod laws;
