//! The two words that stand for a value in the table.
ghost use Rattle.std.specs.Prelude.{◌≡◌};
ghost use Rattle.lido_base.specs.declared.value.BadKind.{BadKind};
ghost use Rattle.lido_base.specs.declared.value.Value.{Value};
ghost use Rattle.lido_base.specs.Ranges.{IsInRange};
ghost use Rattle.boundary_table.specs.Codes.{first_word, second_word, kind_number};

use lido_base::{BadKind, Desc, Origin, StrId, Value};

const HALF: u64 = 0x1_0000_0000;

const TAG: u64 = 0x1_0000_0000_0000;

const TOP: u64 = 0x8000_0000_0000_0000;

const ROOMS: u64 = 0x1_0000;

const KINDS: u64 = 256;

/// The word of the value's kind and its first number.
pub(crate) fn first_word(value: Value) -> u64
    ensures { result ≡ first_word value }
{
    match value {
        Value::Int(n) => TOP + n.cast_unsigned() / HALF,
        Value::Bool(b) => TOP + TAG + u64::from(b),
        Value::Str(s) => TOP + 2 * TAG + u64::from(s.0),
        Value::Text(d) => TOP + 3 * TAG + u64::from(d.room) * HALF + u64::from(d.node),
        Value::Void => TOP + 4 * TAG,
        Value::Bad(o) => TOP + 5 * TAG + u64::from(o.node),
    }
}

/// The word of the value's other numbers.
pub(crate) fn second_word(value: Value) -> u64
    ensures { result ≡ second_word value }
{
    match value {
        Value::Int(n) => TOP + n.cast_unsigned() % HALF,
        Value::Bool(_) | Value::Str(_) | Value::Void => TOP,
        Value::Text(d) => TOP + u64::from(d.len),
        Value::Bad(o) => TOP + u64::from(o.comp) * KINDS + kind_number(o.kind),
    }
}

fn kind_number(kind: BadKind) -> u64
    ensures { result ≡ kind_number kind }
{
    match kind {
        BadKind::Overflow => 0,
        BadKind::DivideByZero => 1,
        BadKind::TextTooLong => 2,
    }
}

fn kind_of(number: u64) -> BadKind
    ensures { (k : BadKind) → number ≡ kind_number k → result ≡ k }
{
    match number {
        0 => BadKind::Overflow,
        1 => BadKind::DivideByZero,
        _ => BadKind::TextTooLong,
    }
}

/// The one value that these words stand for. So two values never have the same two words.
pub(crate) fn decode(first: u64, second: u64) -> Value
    ensures { (v : Value) → IsInRange v → first ≡ first_word v → second ≡ second_word v → result ≡ v }
{
    let tag = first / TAG % 8;
    let room = (first / HALF % ROOMS) as u16;
    let node = (first % HALF) as u32;
    let low = (second % HALF) as u32;
    match tag {
        0 => Value::Int((u64::from(node) * HALF + u64::from(low)).cast_signed()),
        1 => Value::Bool(node == 1),
        2 => Value::Str(StrId(node)),
        3 => Value::Text(Desc {
            room,
            node,
            len: low,
        }),
        5 => Value::Bad(Origin {
            node,
            comp: (second / KINDS % ROOMS) as u16,
            kind: kind_of(second % KINDS),
        }),
        _ => Value::Void,
    }
}
