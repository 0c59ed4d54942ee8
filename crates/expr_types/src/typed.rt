//! What typing a specification gives.
use lido_base::{List, Op, StrId};

/// A specification whose computations in force have their types.
#[derive(Debug, Drop)]
pub struct Typed {
    /// One for each function that a computation in force calls, by itself or in a WITH, but for IF and ORDER, by the places
    /// where their names first stand there.
    pub ops: List<NamedOp>,
}

/// A function's name with its operation.
#[derive(Clone, Copy, Debug, PartialEq, Eq)]
pub struct NamedOp {
    pub name: StrId,
    pub op: Op,
}
