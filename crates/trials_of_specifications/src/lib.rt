//! Specifications with ample memory: deep, large, and one of each form of plain computation. Nothing of the product stands on them.
#![tactic(auto)]

#[cfg(test)]
mod tests;
