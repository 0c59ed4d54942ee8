//! The numbers by which symbols, rules, attributes, texts and nodes are named.

/// A symbol of the flat grammar, by its place among the symbols.
#[derive(Clone, Copy, Debug, PartialEq, Eq, PartialOrd, Ord)]
pub struct SymId(pub u16);

/// A plain rule, by its place among the rules.
#[derive(Clone, Copy, Debug, PartialEq, Eq, PartialOrd, Ord)]
pub struct RuleId(pub u16);

/// An attribute, by its place among those of its symbol.
#[derive(Clone, Copy, Debug, PartialEq, Eq, PartialOrd, Ord)]
pub struct AttrId(pub u16);

/// A text, by its place among those of a `Strings`.
#[derive(Clone, Copy, Debug, PartialEq, Eq, PartialOrd, Ord)]
pub struct StrId(pub u32);

/// A node of a tree, by its place in preorder, from 0.
#[derive(Clone, Copy, Debug, PartialEq, Eq, PartialOrd, Ord)]
pub struct NodeId(pub u32);
