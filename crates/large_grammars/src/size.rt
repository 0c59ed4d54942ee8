//! How large a grammar is, and what its attributes depend on.

/// How large a grammar is. It has no terminals.
#[derive(Clone, Copy, Debug, PartialEq, Eq)]
pub struct Size {
    /// How many symbols it has, one at least.
    pub symbols: usize,
    /// How many attributes each symbol has, 256 at most.
    pub attributes: usize,
    /// How many rules it has. They take turns through the symbols.
    pub rules: usize,
    /// How many symbols are on each right side, one at least.
    pub children: usize,
    /// Whether a symbol stands behind its children's, and not before.
    pub bottom_up: bool,
}

/// What the attributes depend on. Even ones are inherited, odd ones synthesized.
#[derive(Clone, Copy, Debug, PartialEq, Eq)]
pub enum Flow {
    /// Each is a copy of its neighbour's attribute of the same number: all values go down, and then up.
    Straight,
    /// Each inherited attribute but the first needs the synthesized one before it: a visit for each pair.
    Turns,
    /// As with turns, and each attribute needs all occurrences of the attribute before it.
    Dense,
    /// Each synthesized attribute of a left side is a copy of the inherited one before it, and all that children inherit waits for
    /// the left side's last attribute.
    Late,
    /// As straight, but the first attribute of each of the first two children is a copy of the other one's last attribute, and the
    /// left side's last one a copy of the one before it. So the partition makes a cycle between the first and the last attribute.
    Crossed,
    /// Inherited attributes are copied to the children's next one, the last to the first, and synthesized ones to the left side's
    /// next one, the last but one to the first. Where a symbol is its own child, one more rule copies its first inherited attribute
    /// to its first synthesized one, if there are twice as many rules as symbols. So the induced dependencies of that symbol grow by
    /// one pair at a time: with n inherited and n synthesized attributes by n * (n - 1) pairs, one after the other.
    Rotated,
}
