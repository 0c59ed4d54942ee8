//! Texts that are chains and ropes of deposits, and sinks that fail.
ghost use Rattle.std.specs.Prelude.{◌≡◌, ◌≤◌, ◌<◌, ◌+◌, ◌-◌, ◌*◌, ◌^◌, ℕ, List, Some, [], ◌∷◌, length, slice_get, IfOk};
ghost use Rattle.string_librarian.specs.Rooms.{all_cells, cells_of};
ghost use Rattle.string_librarian.specs.Denotes.{Denotes};
ghost use Rattle.lido_base.specs.declared.value.Desc.{Desc as Descriptor};
ghost use Rattle.trials_of_texts.specs.Held.{IsHeld};

use lido_base::{
    BadKind, Desc, List, MemSink, Memory, Op, Origin, Patterns, Piece, StrId, Strings, Value,
};
use std::alloc::{AllocError, Global};
use std::test::Fail;
use std::time::Instant;
use string_librarian::{Library, Room, Stack};
use value_ops::apply;

/// A string as a deposit.
fn string(room: &mut Room, texts: &Strings, id: StrId, len: u32) -> Desc
    requires first { room.old.number ≡ 0 }
    requires space { 2 ≤ room.old.space }
    requires text { (bytes : List ℕ) × (slice_get texts.now id.0 ≡ Some bytes) × (length bytes ≡ len) }
    ensures held { IsHeld texts.now room.new result }
    ensures kept { (d : Descriptor) → IsHeld texts.now room.old d → IsHeld texts.now room.new d }
    ensures len { result.len ≡ len }
    ensures space { room.new.space ≡ room.old.space - 2 }
    ensures cells { cells_of room.new.deposits ≡ cells_of room.old.deposits + 2 }
{
    room.deposit(Piece::AsIs, &[Value::Str(id)], len)
}

/// Two texts in a row as a deposit.
fn joined(room: &mut Room, texts: &Strings, left: Desc, right: Desc) -> Desc
    requires left { IsHeld texts.now room.old left }
    requires right { IsHeld texts.now room.old right }
    requires space { 3 ≤ room.old.space }
    requires small { left.len + right.len < 2 ^ 32 }
    ensures held { IsHeld texts.now room.new result }
    ensures len { result.len ≡ left.len + right.len }
    ensures space { room.new.space ≡ room.old.space - 3 }
    ensures cells { cells_of room.new.deposits ≡ cells_of room.old.deposits + 3 }
{
    room.deposit(
        Piece::Seq,
        &[Value::Text(left), Value::Text(right)],
        left.len + right.len,
    )
}

/// A text of one sign and so many units of two bytes, each deposited in front of the text before it or behind.
fn chain(
    alloc: Global,
    texts: &Strings,
    sign: StrId,
    unit: StrId,
    count: u32,
    in_front: bool,
) -> Result<(Library, Desc), Memory>
    requires few { count ≤ 500000 }
    requires sign { (bytes : List ℕ) × (slice_get texts.now sign.0 ≡ Some bytes) × (length bytes ≡ 1) }
    requires unit { (bytes : List ℕ) × (slice_get texts.now unit.0 ≡ Some bytes) × (length bytes ≡ 2) }
    ensures denotes { IfOk result (λ x. (bytes : List ℕ) × Denotes texts.now [] x.0 x.1 bytes) }
    ensures cells { IfOk result (λ x. all_cells x.0 ≡ 2 + 5 * count) }
{
    let mut room = Room::with_space(alloc, 0, 2 + 5 * count)?;
    let mut text = string(&mut room, texts, sign, 1);
    for _ in 0..count {
        let next = string(&mut room, texts, unit, 2);
        text = if in_front {
            joined(&mut room, texts, next, text)
        } else {
            joined(&mut room, texts, text, next)
        };
    }
    let mut rooms = Vec::new(alloc);
    rooms.push(room)?;
    Ok((Library::of(rooms), text))
}

/// A table of a sign of one byte and a unit of two.
fn table(alloc: Global) -> Result<(Strings, StrId, StrId), Memory>
    ensures sign { IfOk result (λ x. (bytes : List ℕ) × (slice_get x.0 x.1.0 ≡ Some bytes) × (length bytes ≡ 1)) }
    ensures unit { IfOk result (λ x. (bytes : List ℕ) × (slice_get x.0 x.2.0 ≡ Some bytes) × (length bytes ≡ 2)) }
{
    let mut texts = Strings::new(alloc)?;
    let sign = texts.intern(b">")?;
    let unit = texts.intern(b"ab")?;
    Ok((texts, sign, unit))
}

fn sink(alloc: Global, step: u32, fail: Vec<u32>) -> Result<MemSink, AllocError>
    requires { 0 < step }
{
    Ok(MemSink {
        bytes: List::from_vec(Vec::with_capacity(alloc, 1_000_001)?),
        step,
        fail: List::from_vec(fail),
        calls: 0,
        faults: 0,
    })
}

#[test]
fn long_chains(rt: HostRuntime) -> Result<(), Fail> {
    let alloc = rt.alloc();
    let (texts, sign, unit) = table(alloc)?;
    let patterns = Patterns {
        list: List::new(alloc),
    };
    for in_front in [false, true] {
        let start = Instant::now(&rt)?;
        let (library, text) = chain(alloc, &texts, sign, unit, 500_000, in_front)?;
        let mut stack = Stack::reserve(alloc, 2_500_002)?;
        let mut slow = sink(alloc, 1, Vec::new(alloc))?;
        let mut fast = sink(alloc, 4_096, Vec::new(alloc))?;
        assert!(rt;
            library
                .write(&texts, &patterns, text, &mut stack, &mut slow)
                .is_ok()
        );
        assert!(rt;
            library
                .write(&texts, &patterns, text, &mut stack, &mut fast)
                .is_ok()
        );
        assert_eq!(rt; slow.bytes.len(), 1_000_001);
        assert!(rt; slow.bytes.as_slice() == fast.bytes.as_slice());
        assert_eq!(rt; slow.bytes.as_slice().starts_with(b">ab"), !in_front);
        assert_eq!(rt; slow.bytes.as_slice().ends_with(b"ab>"), in_front);
        assert!(rt; start.elapsed(&rt)?.as_secs() < 20);
    }
    Ok(())
}

#[test]
fn a_sink_that_fails_at_each_call(rt: HostRuntime) -> Result<(), Fail> {
    let alloc = rt.alloc();
    let (texts, sign, unit) = table(alloc)?;
    let patterns = Patterns {
        list: List::new(alloc),
    };
    let (library, text) = chain(alloc, &texts, sign, unit, 4, false)?;
    for k in 0u32..10 {
        let mut stack = Stack::reserve(alloc, 22)?;
        let mut out = sink(alloc, 1, vec![in alloc; k]?)?;
        let written = match library.write(&texts, &patterns, text, &mut stack, &mut out) {
            Ok(()) => 9,
            Err(fault) => fault.written,
        };
        assert_eq!(rt; written, u64::from(k));
        assert!(rt; b">abababab".starts_with(out.bytes.as_slice()));
        assert_eq!(rt; out.bytes.len() as u64, written);
    }
    Ok(())
}

/// Two texts in a row, by computation 2 at node 1.
fn seq(room: &mut Room, texts: &Strings, patterns: &Patterns, left: Value, right: Value) -> Value
    requires { 3 ≤ room.old.space }
    ensures { room.old.space ≤ room.new.space + 3 }
{
    apply(Op::Seq, &[left, right], 1, 2, room, texts, patterns)
}

/// A text of one byte, doubled so many times.
fn rope(room: &mut Room, texts: &Strings, patterns: &Patterns, one: Value, times: u32) -> Value
    requires few { times ≤ 100 }
    requires space { 3 * times ≤ room.old.space }
    ensures { room.old.space ≤ room.new.space + 3 * times }
{
    let mut text = one;
    for _ in 0..times {
        text = seq(room, texts, patterns, text, text);
    }
    text
}

#[test]
fn rope_of_doublings(rt: HostRuntime) -> Result<(), Fail> {
    let alloc = rt.alloc();
    let start = Instant::now(&rt)?;
    let (texts, sign, _) = table(alloc)?;
    let patterns = Patterns {
        list: List::new(alloc),
    };
    let mut room = Room::with_space(alloc, 0, 200)?;
    let one = Value::Text(string(&mut room, &texts, sign, 1));
    let longest = rope(&mut room, &texts, &patterns, one, 30);
    assert!(rt; matches!(longest, Value::Text(text) if text.len == 1 << 30));
    let too_long = Value::Bad(Origin {
        node: 1,
        comp: 2,
        kind: BadKind::TextTooLong,
    });
    assert_eq!(rt; seq(&mut room, &texts, &patterns, longest, one), too_long);
    assert_eq!(rt;
        seq(&mut room, &texts, &patterns, longest, longest),
        too_long
    );
    assert!(rt; start.elapsed(&rt)?.as_secs() < 2);
    Ok(())
}
