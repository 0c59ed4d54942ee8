//! What an operation gives for its arguments.
ghost use Rattle.std.specs.Prelude.{◌≡◌, ◌+◌, ◌≤◌, List, ℕ, Option, Some, IsSome, MatchResult, map, length, slice_get, slice_set};
ghost use Rattle.lido_base.specs.Operations.{applied, operate};
ghost use Rattle.lido_base.specs.declared.operation.Op.{Op as Operation};
ghost use Rattle.lido_base.specs.declared.value.Desc.{Desc as Descriptor};
ghost use Rattle.lido_base.specs.declared.value.Value.{Value as Given};
ghost use Rattle.string_librarian.specs.Denotes.{Denotes, read_by};
ghost use Rattle.string_librarian.specs.Rooms.{RoomState, cells_of};
ghost use Rattle.value_ops.specs.Results.{answered, piece_result, result_of};
ghost use Rattle.value_ops.specs.Outcome.{after, bad_at, cells_wanted, piece_of, handed_on, fits};
ghost use Rattle.value_ops.specs.Outcome.{first_bad as first_bad_of, made, DenoteAll, IsOutcome, StandsFor};

use crate::compute::computed;
use crate::lengths::printed_len;
use lido_base::{BadKind, Op, Origin, Patterns, Piece, Strings, Value};
use string_librarian::{Room, parts_of};

/// The value of an operation: the first Bad argument, or else what the operation gives, or Bad with this node and computation
/// where it fails. An operation that makes a text adds a deposit to the room, and a text of more than 2^30 bytes is
/// `TextTooLong` before any is made. It takes no memory, and for a pattern's function time in line with the pattern's parts.
/// Arguments that do not fit the operation give `Void`.
pub fn apply(
    op: Op,
    args: &[Value],
    node: u32,
    comp: u16,
    room: &mut Room,
    strings: &Strings,
    patterns: &Patterns,
) -> Value
    requires { cells_wanted op args.now ≤ room.old.space }

    // The value and the deposits, whatever the arguments are.
    ensures exact { (result, room.new.deposits)
        ≡ result_of strings.now patterns.now.list room.old.number node comp op args.now room.old.deposits }

    // The value is that of the operation over plain values, wherever the texts among the arguments denote texts.
    ensures value { (rooms : List RoomState) (reading : Descriptor → List ℕ) → slice_get rooms room.new.number ≡ Some room.new
        → DenoteAll strings.now patterns.now.list rooms reading args.now
        → StandsFor strings.now patterns.now.list rooms result
        (operate strings.now patterns.now.list (bad_at node comp) op (map (read_by strings.now reading) args.now)) }

    // An operation that makes a text and succeeds adds its deposit, and no other adds one.
    ensures room { room.new ≡ after room.old op args.now result }
    ensures descriptor { (d : Descriptor) → IsSome (piece_of op) → result ≡ Value.Text d
        → d ≡ record { room = room.old.number; node = 1 + cells_of room.old.deposits; len = d.len } }

    // `IDENTICAL` gives the value that it was given, a text by the same descriptor, and `PTGNULL` the empty descriptor.
    ensures handed { (v : Given) → handed_on op args.now ≡ Some v → result ≡ v }

    ensures earlier { (rooms : List RoomState) (d : Descriptor) (bytes : List ℕ) → slice_get rooms room.old.number ≡ Some room.old
        → Denotes strings.now patterns.now.list rooms d bytes
        → Denotes strings.now patterns.now.list (slice_set rooms room.old.number room.new) d bytes }
{
    if let Some(origin) = first_bad(args) {
        return Value::Bad(origin);
    }
    match outcome_of(op, args, room, strings, patterns) {
        Ok(value) => value,
        Err(kind) => Value::Bad(Origin { node, comp, kind }),
    }
}

/// What an operation gives for arguments of which none is Bad, or how it fails.
fn outcome_of(
    op: Op,
    args: &[Value],
    room: &mut Room,
    strings: &Strings,
    patterns: &Patterns,
) -> Result<Value, BadKind>
    requires { cells_wanted op args.now ≤ room.old.space }
    ensures value { (rooms : List RoomState) (reading : Descriptor → List ℕ) → slice_get rooms room.new.number ≡ Some room.new
        → DenoteAll strings.now patterns.now.list rooms reading args.now
        → IsOutcome strings.now patterns.now.list rooms result
        (λ fails. applied strings.now patterns.now.list fails op (map (read_by strings.now reading) args.now)) }
    ensures room { MatchResult result (λ v. room.new ≡ after room.old op args.now v) (λ _. room.new ≡ room.old) }
    ensures handed { (v : Given) → handed_on op args.now ≡ Some v → result ≡ Ok v }
    ensures exact { (node comp : ℕ) → first_bad_of args.now ≡ None
        → (answered node comp result, room.new.deposits)
        ≡ result_of strings.now patterns.now.list room.old.number node comp op args.now room.old.deposits }
    ensures descriptor { (d : Descriptor) → IsSome (piece_of op) → result ≡ Ok (Value.Text d)
        → d ≡ record { room = room.old.number; node = 1 + cells_of room.old.deposits; len = d.len } }
    ensures earlier { (rooms : List RoomState) (d : Descriptor) (bytes : List ℕ) → slice_get rooms room.old.number ≡ Some room.old
        → Denotes strings.now patterns.now.list rooms d bytes
        → Denotes strings.now patterns.now.list (slice_set rooms room.old.number room.new) d bytes }
{
    match text_piece(op) {
        Some(piece) => built(piece, args, room, strings, patterns),
        None => computed(op, args, strings),
    }
}

/// The text that the piece makes of the arguments, as a new deposit, if it is no longer than a text may be.
fn built(
    piece: Piece,
    args: &[Value],
    room: &mut Room,
    strings: &Strings,
    patterns: &Patterns,
) -> Result<Value, BadKind>
    requires { 1 + length args.now ≤ room.old.space }
    ensures value { (rooms : List RoomState) (reading : Descriptor → List ℕ) (op : Operation) → piece_of op ≡ Some piece
        → slice_get rooms room.new.number ≡ Some room.new → DenoteAll strings.now patterns.now.list rooms reading args.now
        → IsOutcome strings.now patterns.now.list rooms result
        (λ fails. applied strings.now patterns.now.list fails op (map (read_by strings.now reading) args.now)) }
    ensures room { MatchResult result (λ v. room.new ≡ made room.old piece args.now v) (λ _. room.new ≡ room.old) }
    ensures exact { (node comp : ℕ)
        → (answered node comp result, room.new.deposits)
        ≡ piece_result strings.now patterns.now.list room.old.number node comp piece args.now room.old.deposits }
    ensures descriptor { (d : Descriptor) → result ≡ Ok (Value.Text d)
        → d ≡ record { room = room.old.number; node = 1 + cells_of room.old.deposits; len = d.len } }
    ensures earlier { (rooms : List RoomState) (d : Descriptor) (bytes : List ℕ) → slice_get rooms room.old.number ≡ Some room.old
        → Denotes strings.now patterns.now.list rooms d bytes
        → Denotes strings.now patterns.now.list (slice_set rooms room.old.number room.new) d bytes }
{
    if !is_fit(piece, args) {
        return Ok(Value::Void);
    }
    match printed_len(parts_of(patterns, piece), args, strings) {
        Some(len) => Ok(Value::Text(room.deposit(piece, args, len))),
        None => Err(BadKind::TextTooLong),
    }
}

/// The origin of the first Bad value.
pub fn first_bad(args: &[Value]) -> Option<Origin>
    ensures { result ≡ first_bad_of args.now }
{
    for arg in args {
        if let Value::Bad(origin) = *arg {
            return Some(origin);
        }
    }
    None
}

/// What the operation makes a text by, if it makes one.
fn text_piece(op: Op) -> Option<Piece>
    ensures { result ≡ piece_of op }
{
    match op {
        Op::Numb => Some(Piece::Numb),
        Op::AsIs => Some(Piece::AsIs),
        Op::Seq => Some(Piece::Seq),
        Op::Pattern(k) => Some(Piece::Pattern(k)),
        _ => None,
    }
}

/// Whether the arguments are of the types that the piece has.
fn is_fit(piece: Piece, args: &[Value]) -> bool
    ensures { result ≡ fits piece args.now }
{
    match piece {
        Piece::Numb => matches!(args, [Value::Int(_)]),
        Piece::AsIs => matches!(args, [Value::Str(_)]),
        Piece::Seq => matches!(args, [Value::Text(_), Value::Text(_)]),
        Piece::Pattern(_) => true,
    }
}
