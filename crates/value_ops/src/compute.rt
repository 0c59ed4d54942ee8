//! The operations that make no text.
ghost use Rattle.std.specs.Prelude.{◌≡◌, List, ℕ, MatchOption, None, Some, map, ◌∷◌, [], slice_get, unwrap_or};
ghost use Rattle.std.specs.Str.{bytes_eq};
ghost use Rattle.lido_base.specs.Operations.{applied};
ghost use Rattle.lido_base.specs.Plain.{Plain, Int as Whole, Truth, Str as Words};
ghost use Rattle.lido_base.specs.declared.value.BadKind.{BadKind as Failure};
ghost use Rattle.lido_base.specs.declared.pattern.Pattern.{Pattern as TextPattern};
ghost use Rattle.lido_base.specs.declared.value.Desc.{Desc as Descriptor};
ghost use Rattle.lido_base.specs.declared.value.Value.{Value as Given};
ghost use Rattle.string_librarian.specs.Denotes.{read_by};
ghost use Rattle.string_librarian.specs.Rooms.{RoomState};
ghost use Rattle.value_ops.specs.Outcome.{piece_of, handed_on, DenoteAll, IsOutcome, IsNumberOutcome, StandsFor};

use crate::numbers::{difference, negated, product, quotient, remainder, sum};
use lido_base::{BadKind, EMPTY, Op, StrId, Strings, Value};
use string_librarian::bytes_of;

/// What an operation that makes no text gives, or how it fails. Arguments that do not fit give `Void`.
pub fn computed(op: Op, args: &[Value], strings: &Strings) -> Result<Value, BadKind>
    ensures value { (patterns : List TextPattern) (rooms : List RoomState) (reading : Descriptor → List ℕ) → piece_of op ≡ None
        → DenoteAll strings.now patterns rooms reading args.now
        → IsOutcome strings.now patterns rooms result
        (λ fails. applied strings.now patterns fails op (map (read_by strings.now reading) args.now)) }
    ensures handed { (v : Given) → handed_on op args.now ≡ Some v → result ≡ Ok v }
    ensures unread { (patterns : List TextPattern) (rooms : List RoomState) (reading : Descriptor → List ℕ) → piece_of op ≡ None
        → handed_on op args.now ≡ None
        → IsOutcome strings.now patterns rooms result
        (λ fails. applied strings.now patterns fails op (map (read_by strings.now reading) args.now)) }
{
    let Some((a, rest)) = next(args) else {
        return Ok(of_none(op));
    };
    let Some((b, rest)) = next(rest) else {
        return of_one(op, a);
    };
    let Some(_) = next(rest) else {
        return of_two(op, a, b, strings);
    };
    Ok(Value::Void)
}

/// The first argument, and those behind it.
fn next(args: &[Value]) -> Option<(Value, &[Value])>
    ensures { MatchOption result (args.now ≡ []) (λ x. args.now ≡ x.0 ∷ x.1.now) }
{
    match args.split_first() {
        Some((first, rest)) => Some((*first, rest)),
        None => None,
    }
}

/// What an operation gives for no arguments.
fn of_none(op: Op) -> Value
    ensures value { (texts : List (List ℕ)) (patterns : List TextPattern) (rooms : List RoomState) (fails : Failure → Plain)
        → piece_of op ≡ None
        → StandsFor texts patterns rooms result (applied texts patterns fails op []) }
    ensures handed { (v : Given) → handed_on op [] ≡ Some v → result ≡ v }
{
    match op {
        Op::Zero => Value::Int(0),
        Op::One => Value::Int(1),
        Op::Null => Value::Text(EMPTY),
        _ => Value::Void,
    }
}

/// What an operation gives for one argument.
fn of_one(op: Op, a: Value) -> Result<Value, BadKind>
    ensures value { (texts : List (List ℕ)) (patterns : List TextPattern) (rooms : List RoomState) (reading : Descriptor → List ℕ)
        → piece_of op ≡ None
        → DenoteAll texts patterns rooms reading (a ∷ [])
        → IsOutcome texts patterns rooms result (λ fails. applied texts patterns fails op (read_by texts reading a ∷ [])) }
    ensures handed { (v : Given) → handed_on op (a ∷ []) ≡ Some v → result ≡ Ok v }
    ensures unread { (texts : List (List ℕ)) (patterns : List TextPattern) (rooms : List RoomState) (reading : Descriptor → List ℕ)
        → piece_of op ≡ None
        → handed_on op (a ∷ []) ≡ None
        → IsOutcome texts patterns rooms result (λ fails. applied texts patterns fails op (read_by texts reading a ∷ [])) }
{
    match op {
        Op::Identical => Ok(a),
        Op::ArgToOne => Ok(Value::Int(1)),
        Op::Neg => match a {
            Value::Int(x) => number(negated(x)),
            _ => Ok(Value::Void),
        },
        Op::Not => match a {
            Value::Bool(b) => Ok(Value::Bool(!b)),
            _ => Ok(Value::Void),
        },
        _ => Ok(Value::Void),
    }
}

/// What an operation gives for two arguments.
fn of_two(op: Op, a: Value, b: Value, strings: &Strings) -> Result<Value, BadKind>
    ensures { (patterns : List TextPattern) (rooms : List RoomState) (reading : Descriptor → List ℕ) → piece_of op ≡ None
        → IsOutcome strings.now patterns rooms result
        (λ fails. applied strings.now patterns fails op (read_by strings.now reading a ∷ read_by strings.now reading b ∷ [])) }
{
    match a {
        Value::Int(x) => of_int_and(op, x, b),
        Value::Str(s) => match b {
            Value::Str(t) => Ok(of_same(op, are_equal(strings, s, t))),
            _ => Ok(Value::Void),
        },
        Value::Bool(x) => match b {
            Value::Bool(y) => Ok(of_bools(op, x, y)),
            _ => Ok(Value::Void),
        },
        _ => Ok(Value::Void),
    }
}

/// What an operation gives for an int and another argument.
fn of_int_and(op: Op, x: i64, b: Value) -> Result<Value, BadKind>
    ensures { (texts : List (List ℕ)) (patterns : List TextPattern) (rooms : List RoomState) (reading : Descriptor → List ℕ)
        → piece_of op ≡ None
        → IsOutcome texts patterns rooms result (λ fails. applied texts patterns fails op (Whole x ∷ read_by texts reading b ∷ [])) }
{
    match b {
        Value::Int(y) => of_ints(op, x, y),
        _ => Ok(Value::Void),
    }
}

/// What an operation gives for two ints.
fn of_ints(op: Op, x: i64, y: i64) -> Result<Value, BadKind>
    ensures { (texts : List (List ℕ)) (patterns : List TextPattern) (rooms : List RoomState) → piece_of op ≡ None
        → IsOutcome texts patterns rooms result (λ fails. applied texts patterns fails op (Whole x ∷ Whole y ∷ [])) }
{
    match op {
        Op::Add => number(sum(x, y)),
        Op::Sub => number(difference(x, y)),
        Op::Mul => number(product(x, y)),
        Op::Div => number(quotient(x, y)),
        Op::Mod => number(remainder(x, y)),
        Op::Eq => Ok(Value::Bool(x == y)),
        Op::Ne => Ok(Value::Bool(x != y)),
        Op::Lt => Ok(Value::Bool(x < y)),
        Op::Le => Ok(Value::Bool(x <= y)),
        Op::Gt => Ok(Value::Bool(x > y)),
        Op::Ge => Ok(Value::Bool(x >= y)),
        _ => Ok(Value::Void),
    }
}

/// What an operation gives for two bools.
fn of_bools(op: Op, x: bool, y: bool) -> Value
    ensures { (texts : List (List ℕ)) (patterns : List TextPattern) (rooms : List RoomState) (fails : Failure → Plain) → piece_of op ≡ None
        → StandsFor texts patterns rooms result (applied texts patterns fails op (Truth x ∷ Truth y ∷ [])) }
{
    match op {
        Op::And => Value::Bool(x && y),
        Op::Or => Value::Bool(x || y),
        Op::Eq => Value::Bool(x == y),
        Op::Ne => Value::Bool(x != y),
        _ => Value::Void,
    }
}

/// What an operation gives for two strings, which are the same or not.
fn of_same(op: Op, same: bool) -> Value
    ensures { (texts : List (List ℕ)) (patterns : List TextPattern) (rooms : List RoomState) (fails : Failure → Plain) (s t : List ℕ)
        → piece_of op ≡ None
        → same ≡ bytes_eq s t → StandsFor texts patterns rooms result (applied texts patterns fails op (Words s ∷ Words t ∷ [])) }
{
    match op {
        Op::Eq => Value::Bool(same),
        Op::Ne => Value::Bool(!same),
        _ => Value::Void,
    }
}

/// Whether two strings have the same bytes. No text stands twice in the table, so two ids with texts tell by themselves; an id
/// without a text has no byte.
fn are_equal(strings: &Strings, s: StrId, t: StrId) -> bool
    ensures { result ≡ bytes_eq (unwrap_or (slice_get strings.now s.0) []) (unwrap_or (slice_get strings.now t.0) []) }
{
    if s == t {
        return true;
    }
    let count = strings.len();
    if (s.0 as usize) < count && (t.0 as usize) < count {
        return false;
    }
    bytes_of(strings, s) == bytes_of(strings, t)
}

/// The number as a value.
fn number(outcome: Result<i64, BadKind>) -> Result<Value, BadKind>
    ensures { (texts : List (List ℕ)) (patterns : List TextPattern) (rooms : List RoomState) (p : (Failure → Plain) → Plain)
        → IsNumberOutcome outcome p → IsOutcome texts patterns rooms result p }
{
    match outcome {
        Ok(value) => Ok(Value::Int(value)),
        Err(kind) => Err(kind),
    }
}
