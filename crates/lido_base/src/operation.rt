//! The operations that the functions of an expression name.

/// An operation. Each evaluates all its arguments, and the first Bad one is its result.
#[derive(Clone, Copy, Debug, PartialEq, Eq)]
pub enum Op {
    Add,
    Sub,
    Mul,
    /// Truncates towards zero.
    Div,
    /// Has the dividend's sign.
    Mod,
    Neg,
    And,
    Or,
    Not,
    Eq,
    Ne,
    Lt,
    Le,
    Gt,
    Ge,
    Identical,
    Zero,
    One,
    ArgToOne,
    /// `PTGNULL` and `PTGNull()`: the empty text.
    Null,
    Numb,
    AsIs,
    Seq,
    /// A pattern's function, by the pattern's place in `Patterns`.
    Pattern(u32),
}
