//! The operations that names stand for.
ghost use Rattle.std.specs.Prelude.{◌≡◌, ℕ, List, map};
ghost use Rattle.std.specs.Borrow.{Bor};
ghost use Rattle.lido_base.specs.declared.operation.Op.{Op as Operation};
ghost use Rattle.expr_types.specs.Named.{named_in, operation_named};

use lido_base::Op;

/// LIDO's operators and functions, and PTG's own text functions, with their operations.
const OPERATIONS: [(&[u8], Op); 24] = [
    (b"ADD", Op::Add),
    (b"SUB", Op::Sub),
    (b"MUL", Op::Mul),
    (b"DIV", Op::Div),
    (b"MOD", Op::Mod),
    (b"NEG", Op::Neg),
    (b"AND", Op::And),
    (b"OR", Op::Or),
    (b"NOT", Op::Not),
    (b"EQ", Op::Eq),
    (b"NE", Op::Ne),
    (b"LT", Op::Lt),
    (b"LE", Op::Le),
    (b"GT", Op::Gt),
    (b"GE", Op::Ge),
    (b"IDENTICAL", Op::Identical),
    (b"ZERO", Op::Zero),
    (b"ONE", Op::One),
    (b"ARGTOONE", Op::ArgToOne),
    (b"PTGNULL", Op::Null),
    (b"PTGNull", Op::Null),
    (b"PTGNumb", Op::Numb),
    (b"PTGAsIs", Op::AsIs),
    (b"PTGSeq", Op::Seq),
];

/// The first of these operations that has the name.
fn first_named(words: &[(&[u8], Op)], name: &[u8]) -> Option<Op>
    ensures { result ≡ named_in (map (λ (word : Bor (List ℕ) × Operation). (word.0.now, word.1)) words.now) name.now }
{
    for word in words {
        if word.0 == name {
            return Some(word.1);
        }
    }
    None
}

/// The operation that has the name: one of LIDO's operators and functions (LIDO, expressions), or of PTG's own text functions
/// (PTG, functions that are always there). None where no such operation has it; a pattern's function is none of these.
pub fn operation_named(name: &[u8]) -> Option<Op>
    ensures { result ≡ operation_named name.now }
{
    first_named(&OPERATIONS, name)
}
