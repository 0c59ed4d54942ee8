//! Written trees and their flat trees: what stands where, and what it means there. The functions do nothing; what is proved is
//! their contracts.
#![tactic(auto)]

pub mod laws;
