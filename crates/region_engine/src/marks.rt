//! What a region knows of a key.

/// Whether a region has the value of a key.
#[derive(Clone, Copy, Debug, PartialEq, Eq)]
pub(crate) enum Mark {
    /// It has none, or what its desk found.
    Missing,
    /// It evaluated it.
    Evaluated,
    /// It was delivered.
    Delivered,
}
