//! The table of types.
ghost use Rattle.std.specs.Prelude.{◌≡◌, List, map, IfOk};
ghost use Rattle.lido_base.specs.declared.operation.Op.TheVariants as operation;
ghost use Rattle.lido_base.specs.declared.pattern.Pattern.{Pattern as OnePattern};
ghost use Rattle.lido_base.specs.Types.{signatures};
ghost use Rattle.expr_types.specs.Rows.{signatures_of, pattern_signature};
ghost use Rattle.expr_types.specs.Typing.{choices as all_choices};

use crate::rows::Row;
use lido_base::{Memory, Op, Pattern, ValueType};
use std::alloc::Global;

/// Two ints give an int.
static ARITHMETIC: [Row<'static>; 1] = [Row {
    args: &[ValueType::Int, ValueType::Int],
    gives: ValueType::Int,
}];

/// The sign of an int.
static NEGATION: [Row<'static>; 1] = [Row {
    args: &[ValueType::Int],
    gives: ValueType::Int,
}];

/// Two bools give a bool.
static CONNECTION: [Row<'static>; 1] = [Row {
    args: &[ValueType::Bool, ValueType::Bool],
    gives: ValueType::Bool,
}];

/// The other bool.
static COMPLEMENT: [Row<'static>; 1] = [Row {
    args: &[ValueType::Bool],
    gives: ValueType::Bool,
}];

/// Two ints, two strings or two bools are equal or not.
static EQUALITY: [Row<'static>; 3] = [
    Row {
        args: &[ValueType::Int, ValueType::Int],
        gives: ValueType::Bool,
    },
    Row {
        args: &[ValueType::Str, ValueType::Str],
        gives: ValueType::Bool,
    },
    Row {
        args: &[ValueType::Bool, ValueType::Bool],
        gives: ValueType::Bool,
    },
];

/// Two ints are in order or not.
static COMPARISON: [Row<'static>; 1] = [Row {
    args: &[ValueType::Int, ValueType::Int],
    gives: ValueType::Bool,
}];

/// IDENTICAL gives what it takes.
static IDENTITY: [Row<'static>; 5] = [
    Row {
        args: &[ValueType::Int],
        gives: ValueType::Int,
    },
    Row {
        args: &[ValueType::Str],
        gives: ValueType::Str,
    },
    Row {
        args: &[ValueType::Bool],
        gives: ValueType::Bool,
    },
    Row {
        args: &[ValueType::Text],
        gives: ValueType::Text,
    },
    Row {
        args: &[ValueType::Void],
        gives: ValueType::Void,
    },
];

/// ZERO and ONE take nothing.
static CONSTANT: [Row<'static>; 1] = [Row {
    args: &[],
    gives: ValueType::Int,
}];

/// ARGTOONE takes any argument.
static COUNTED: [Row<'static>; 5] = [
    Row {
        args: &[ValueType::Int],
        gives: ValueType::Int,
    },
    Row {
        args: &[ValueType::Str],
        gives: ValueType::Int,
    },
    Row {
        args: &[ValueType::Bool],
        gives: ValueType::Int,
    },
    Row {
        args: &[ValueType::Text],
        gives: ValueType::Int,
    },
    Row {
        args: &[ValueType::Void],
        gives: ValueType::Int,
    },
];

/// The empty text.
static EMPTY_TEXT: [Row<'static>; 1] = [Row {
    args: &[],
    gives: ValueType::Text,
}];

/// An int's text.
static NUMBER_TEXT: [Row<'static>; 1] = [Row {
    args: &[ValueType::Int],
    gives: ValueType::Text,
}];

/// A string as it is.
static STRING_TEXT: [Row<'static>; 1] = [Row {
    args: &[ValueType::Str],
    gives: ValueType::Text,
}];

/// Two texts in a row.
static SEQUENCE: [Row<'static>; 1] = [Row {
    args: &[ValueType::Text, ValueType::Text],
    gives: ValueType::Text,
}];

/// IF takes a bool and two of one type.
static CHOICES: [Row<'static>; 5] = [
    Row {
        args: &[ValueType::Bool, ValueType::Int, ValueType::Int],
        gives: ValueType::Int,
    },
    Row {
        args: &[ValueType::Bool, ValueType::Str, ValueType::Str],
        gives: ValueType::Str,
    },
    Row {
        args: &[ValueType::Bool, ValueType::Bool, ValueType::Bool],
        gives: ValueType::Bool,
    },
    Row {
        args: &[ValueType::Bool, ValueType::Text, ValueType::Text],
        gives: ValueType::Text,
    },
    Row {
        args: &[ValueType::Bool, ValueType::Void, ValueType::Void],
        gives: ValueType::Void,
    },
];

/// The rows of IF.
pub(crate) fn choices() -> &'static [Row<'static>]
    ensures { signatures_of result.now ≡ all_choices }
{
    &CHOICES
}

/// The row of the pattern with this number, if there is one.
fn row_at<'a>(patterns: &'a [Row<'a>], k: u32) -> &'a [Row<'a>]
    ensures { (written : List OnePattern) → signatures_of patterns.now ≡ map pattern_signature written
        → signatures_of result.now ≡ signatures written (operation.Pattern k) }
{
    let k = k as usize;
    if k < patterns.len() {
        &patterns[k..k + 1]
    } else {
        &[]
    }
}

/// The rows of an operation, where these are those of the patterns' functions.
pub(crate) fn rows_of<'a>(patterns: &'a [Row<'a>], op: Op) -> &'a [Row<'a>]
    ensures { (written : List OnePattern) → signatures_of patterns.now ≡ map pattern_signature written
        → signatures_of result.now ≡ signatures written op }
{
    match op {
        Op::Add | Op::Sub | Op::Mul | Op::Div | Op::Mod => &ARITHMETIC,
        Op::Neg => &NEGATION,
        Op::And | Op::Or => &CONNECTION,
        Op::Not => &COMPLEMENT,
        Op::Eq | Op::Ne => &EQUALITY,
        Op::Lt | Op::Le | Op::Gt | Op::Ge => &COMPARISON,
        Op::Identical => &IDENTITY,
        Op::Zero | Op::One => &CONSTANT,
        Op::ArgToOne => &COUNTED,
        Op::Null => &EMPTY_TEXT,
        Op::Numb => &NUMBER_TEXT,
        Op::AsIs => &STRING_TEXT,
        Op::Seq => &SEQUENCE,
        Op::Pattern(k) => row_at(patterns, k),
    }
}

/// The rows of the patterns' functions, in the order of the patterns. `Err` is want of memory.
pub(crate) fn pattern_rows<'a>(
    alloc: Global,
    patterns: &'a [Pattern],
) -> Result<Vec<Row<'a>>, Memory>
    ensures { IfOk result (λ rows. signatures_of rows.items ≡ map pattern_signature patterns.now) }
{
    let mut rows = Vec::new(alloc);
    for pattern in patterns {
        rows.push(Row {
            args: pattern.args.as_slice(),
            gives: ValueType::Text,
        })?;
    }
    Ok(rows)
}
