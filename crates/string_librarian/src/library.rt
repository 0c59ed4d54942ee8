//! All rooms together, and how their texts are written.
ghost use Rattle.std.specs.Prelude.{◌≡◌, ◌+◌, ◌<◌, ◌≤◌, ◌^◌, ◌++◌, ◌&&◌, not, IfOk, IfErr, OnOk, OnErr, List, ℕ, Some};
ghost use Rattle.std.specs.Prelude.{length, take, slice_get, vec_len, vec_capacity};
ghost use Rattle.std.specs.Io.KnownBytes.{Appends};
ghost use Rattle.std.specs.List.{list_all};
ghost use Rattle.lido_base.specs.Causes.{Rose};
ghost use Rattle.string_librarian.specs.Denotes.{Denotes};
ghost use Rattle.string_librarian.specs.Parts.{argument_of, is_full as fills, parts_of as parts_for};
ghost use Rattle.string_librarian.specs.Printing.{all_steps, output_bytes, shown_of, AreLeft, GoesOn, IsLeft, IsLine, Shows};
ghost use Rattle.string_librarian.specs.Rooms.{Deposit as Deposited, RoomState, AreNumbered, IsAt, all_cells};

use crate::printing::{Output, Pending, Shown};
use crate::{Room, bytes_of, parts_of};
use lido_base::{
    Decimal, Desc, Memory, Part, PartPiece, Patterns, Piece, Sink, Strings, Value, WriteFault,
    write_all,
};
use std::alloc::Global;
use std::marker::Model;

/// Holds what is left to print while a text is written. Contracts see how many deposits it has room for.
#[derive(Drop)]
pub struct Stack {
    pending: Vec<Pending>,
}

impl Model for Stack {
    ghost use Rattle.std.specs.Prelude.{ℕ, vec_capacity};

    ghost Value = { ℕ };

    ghost view = { λ s. vec_capacity s.pending };
}

impl Stack {
    /// A stack for rooms of so many cells together. An `Err` is want of memory.
    pub fn reserve(alloc: Global, cells: u32) -> Result<Stack, Memory>
        ensures { IfOk result (λ stack. stack ≡ cells) }
    {
        Ok(Stack {
            pending: Vec::with_capacity(alloc, cells as usize)?,
        })
    }
}

/// The rooms of a run, each at its number. Contracts see the list of rooms.
#[derive(Drop)]
pub struct Library {
    rooms: Vec<Room>,
}

impl Model for Library {
    ghost use Rattle.std.specs.Prelude.{List};
    ghost use Rattle.string_librarian.specs.Rooms.{RoomState, AreNumbered};

    ghost Value = { List RoomState };

    ghost view = { λ l. l.rooms.items };
}

impl Library {
    /// The library of rooms that stand in the order of their numbers. It takes no memory.
    pub fn of(rooms: Vec<Room>) -> Library
        requires { AreNumbered rooms.items }
        ensures { result ≡ rooms.items }
    {
        Library { rooms }
    }
}

impl Library {
    /// Writes the text of a descriptor. It takes no memory, and time in line with the bytes, with the deposits that print them
    /// and with the parts of their patterns, of which each is looked at, also one that prints nothing.
    /// After a fault the sink has taken the first `written` bytes of the text, and not all.
    pub fn write<K: Sink>(
        &self,
        strings: &Strings,
        patterns: &Patterns,
        desc: Desc,
        stack: &mut Stack,
        sink: &mut K,
    ) -> Result<(), WriteFault>
        requires denotes { (bytes : List ℕ) × Denotes strings.now patterns.now.list self.now desc bytes }
        requires room { all_cells self.now ≤ stack.old }
        ensures all { (bytes : List ℕ) → Denotes strings.now patterns.now.list self.now desc bytes
            → OnOk result (Appends (K.written sink.old) (K.written sink.new) bytes) }
        ensures part { (bytes : List ℕ) → Denotes strings.now patterns.now.list self.now desc bytes
            → IfErr result (λ e. Appends (K.written sink.old) (K.written sink.new) (take e.written bytes)) }
        ensures short { IfErr result (λ e. e.written < desc.len) }
        ensures fault { OnErr result (Rose (K.faults sink.old) (K.faults sink.new)) }
        ensures later { K.faults sink.old ≤ K.faults sink.new }
        ensures stack { stack.new ≡ stack.old }
    {
        if desc.len == 0 {
            return Ok(());
        }
        self.print(strings, patterns, desc, &mut stack.pending, sink)
    }

    /// Writes the text of a deposit that has bytes.
    fn print<K: Sink>(
        &self,
        strings: &Strings,
        patterns: &Patterns,
        desc: Desc,
        pending: &mut Vec<Pending>,
        sink: &mut K,
    ) -> Result<(), WriteFault>
        requires denotes { (bytes : List ℕ) × Denotes strings.now patterns.now.list self.now desc bytes }
        requires some { 0 < desc.len }
        requires room { all_cells self.now ≤ vec_capacity pending.old }
        ensures all { (bytes : List ℕ) → Denotes strings.now patterns.now.list self.now desc bytes
            → OnOk result (Appends (K.written sink.old) (K.written sink.new) bytes) }
        ensures part { (bytes : List ℕ) → Denotes strings.now patterns.now.list self.now desc bytes
            → IfErr result (λ e. Appends (K.written sink.old) (K.written sink.new) (take e.written bytes)) }
        ensures short { IfErr result (λ e. e.written < desc.len) }
        ensures fault { OnErr result (Rose (K.faults sink.old) (K.faults sink.new)) }
        ensures later { K.faults sink.old ≤ K.faults sink.new }
        ensures capacity { vec_capacity pending.new ≡ vec_capacity pending.old }
    {
        let mut written = 0u64;
        pending.clear();
        pending.push_reserved(self.begun(patterns, desc));
        while !pending.is_empty() {
            let output = self.step(patterns, pending);
            match put(sink, strings, output) {
                Ok(count) => written += count,
                Err(fault) => {
                    return Err(WriteFault {
                        written: written + fault.written,
                    });
                }
            }
        }
        Ok(())
    }

    /// What makes the text of the deposit.
    fn piece(&self, desc: Desc) -> Option<Piece>
        ensures { (d : Deposited) → IsAt self.now desc d → result ≡ Some d.piece }
    {
        match self.rooms.get(desc.room as usize) {
            Some(room) => room.piece(desc.node),
            None => None,
        }
    }

    /// The argument of this number, from 1.
    fn argument(&self, desc: Desc, number: u32) -> Value
        ensures { (d : Deposited) → IsAt self.now desc d → result ≡ argument_of d.args number }
    {
        match self.rooms.get(desc.room as usize) {
            Some(room) => room.argument(desc.node, number),
            None => Value::Void,
        }
    }

    /// Whether the part inserts no empty text.
    fn is_full(&self, part: Part, desc: Desc) -> bool
        ensures { (d : Deposited) → IsAt self.now desc d → result ≡ fills d.args part }
    {
        match part.piece {
            PartPiece::Fixed(_) => true,
            PartPiece::Arg(k) => match self.argument(desc, k) {
                Value::Text(text) => text.len != 0,
                _ => true,
            },
        }
    }

    /// Whether braces are printed: no part inserts an empty text.
    fn are_full(&self, parts: &[Part], desc: Desc) -> bool
        ensures { (d : Deposited) → IsAt self.now desc d → result ≡ list_all (fills d.args) parts.now }
    {
        for part in parts {
            if !self.is_full(*part, desc) {
                return false;
            }
        }
        true
    }

    /// Whether the braces of the deposit's parts are printed.
    fn braces(&self, patterns: &Patterns, desc: Desc) -> bool
        ensures { (d : Deposited) → IsAt self.now desc d → result ≡ list_all (fills d.args) (parts_for patterns.now.list d.piece) }
    {
        match self.piece(desc) {
            Some(piece) => self.are_full(parts_of(patterns, piece), desc),
            None => true,
        }
    }

    /// The whole text of a deposit, to be printed.
    fn begun(&self, patterns: &Patterns, desc: Desc) -> Pending
        ensures left { (texts : List (List ℕ)) (bytes : List ℕ) → Denotes texts patterns.now.list self.now desc bytes → 0 < desc.len
            → IsLeft self.now patterns.now.list texts result bytes }
        ensures desc { result.desc ≡ desc }
        ensures next { result.next ≡ 0 }
    {
        Pending {
            desc,
            next: 0,
            braces: self.braces(patterns, desc),
        }
    }

    /// What comes next of a deposit.
    fn shown(&self, patterns: &Patterns, top: Pending) -> Shown
        ensures shows { (texts : List (List ℕ)) (bytes : List ℕ) → IsLeft self.now patterns.now.list texts top bytes
            → Shows self.now patterns.now.list texts top bytes result }
        ensures small { GoesOn result → top.next + 1 < 2 ^ 64 }
    {
        let Some(piece) = self.piece(top.desc) else {
            return Shown::End;
        };
        let Some(part) = parts_of(patterns, piece).get(top.next) else {
            return Shown::End;
        };
        if is_skipped(*part, top.braces) {
            return Shown::Print(Output::Nothing);
        }
        match part.piece {
            PartPiece::Fixed(text) => Shown::Print(Output::Bytes(text)),
            PartPiece::Arg(k) => shown_value(self.argument(top.desc, k)),
        }
    }

    /// Takes one step with what is left, the last of which comes first, and says what is to be written.
    fn step(&self, patterns: &Patterns, pending: &mut Vec<Pending>) -> Output
        requires ready { (texts : List (List ℕ)) × (bytes : List ℕ) × IsLine self.now patterns.now.list texts pending.old.items
            × AreLeft self.now patterns.now.list texts pending.old.items bytes }
        requires some { 0 < vec_len pending.old }
        requires room { all_cells self.now ≤ vec_capacity pending.old }
        ensures text { (texts : List (List ℕ)) (bytes : List ℕ) → IsLine self.now patterns.now.list texts pending.old.items
            → AreLeft self.now patterns.now.list texts pending.old.items bytes
            → (rest : List ℕ) × (bytes ≡ output_bytes texts result ++ rest)
            × AreLeft self.now patterns.now.list texts pending.new.items rest
            × IsLine self.now patterns.now.list texts pending.new.items }
        ensures smaller { all_steps self.now patterns.now.list (all_cells self.now) pending.new.items
            < all_steps self.now patterns.now.list (all_cells self.now) pending.old.items }
        ensures capacity { vec_capacity pending.new ≡ vec_capacity pending.old }
    {
        let Some(top) = pending.pop() else {
            return Output::Nothing;
        };
        match self.shown(patterns, top) {
            Shown::End => Output::Nothing,
            Shown::Print(output) => {
                pending.push_reserved(top.advanced());
                output
            }
            Shown::Enter(desc) => {
                pending.push_reserved(top.advanced());
                pending.push_reserved(self.begun(patterns, desc));
                Output::Nothing
            }
        }
    }
}

/// Writes an output, and says how many bytes it has.
fn put<K: Sink>(sink: &mut K, strings: &Strings, output: Output) -> Result<u64, WriteFault>
    ensures all { OnOk result (Appends (K.written sink.old) (K.written sink.new) (output_bytes strings.now output)) }
    ensures count { IfOk result (λ n. n ≡ length (output_bytes strings.now output)) }
    ensures part { IfErr result (λ e. Appends (K.written sink.old) (K.written sink.new)
        (take e.written (output_bytes strings.now output))) }
    ensures short { IfErr result (λ e. e.written < length (output_bytes strings.now output)) }
    ensures fault { OnErr result (Rose (K.faults sink.old) (K.faults sink.new)) }
    ensures later { K.faults sink.old ≤ K.faults sink.new }
{
    match output {
        Output::Nothing => Ok(0),
        Output::Bytes(text) => put_bytes(sink, bytes_of(strings, text)),
        Output::Number(number) => put_bytes(sink, Decimal::of_signed(number).as_bytes()),
    }
}

/// Writes bytes, and says how many there are.
fn put_bytes<K: Sink>(sink: &mut K, bytes: &[u8]) -> Result<u64, WriteFault>
    ensures all { OnOk result (Appends (K.written sink.old) (K.written sink.new) bytes.now) }
    ensures count { IfOk result (λ n. n ≡ length bytes.now) }
    ensures part { IfErr result (λ e. Appends (K.written sink.old) (K.written sink.new) (take e.written bytes.now)) }
    ensures short { IfErr result (λ e. e.written < length bytes.now) }
    ensures fault { OnErr result (Rose (K.faults sink.old) (K.faults sink.new)) }
    ensures later { K.faults sink.old ≤ K.faults sink.new }
{
    match write_all(sink, bytes) {
        Ok(()) => Ok(bytes.len() as u64),
        Err(fault) => Err(fault),
    }
}

/// Whether the part stands in braces that are not printed.
fn is_skipped(part: Part, braces: bool) -> bool
    ensures { result ≡ (part.brace && not braces) }
{
    part.brace && !braces
}

/// What comes next where a value is inserted: a text that has bytes is entered.
fn shown_value(value: Value) -> Shown
    ensures { result ≡ shown_of value }
{
    match value {
        Value::Int(number) => Shown::Print(Output::Number(number)),
        Value::Str(text) => Shown::Print(Output::Bytes(text)),
        Value::Text(text) => {
            if text.len == 0 {
                Shown::Print(Output::Nothing)
            } else {
                Shown::Enter(text)
            }
        }
        _ => Shown::Print(Output::Nothing),
    }
}
