//! The first path's trees: a bracketed text becomes the nodes of a tree over rules whose one attribute is a sum. The bytes of white
//! space, names and numbers are those of every bracketed tree. Nothing recurses.
#![tactic(auto)]

mod form;
mod marks;
mod numbers;
mod scan;
mod tree;

pub use form::{Child, Element, FormFault, SumRule, TreeNode};
pub use scan::{is_digit, is_letter, is_white};
pub use tree::read_sum_tree;
