//! Tests of what no contract says, by public calls alone: that memory is found, that devices fail, and how long large texts,
//! tables, tokens and patterns take. Nothing of the product stands on them.
#![tactic(auto)]

#[cfg(test)]
mod chains;
#[cfg(test)]
mod names;
#[cfg(test)]
mod patterns;
#[cfg(test)]
mod tables;
#[cfg(test)]
mod tokens;
