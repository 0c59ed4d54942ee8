//! The line that says how a call ended.
ghost use Rattle.std.specs.Prelude.{◌≡◌, ◌≤◌, [], All, IfErr, OnOk, OnErr};
ghost use Rattle.std.specs.Fmt.{decimal};
ghost use Rattle.std.specs.Io.KnownBytes.{Appends};
ghost use Rattle.std.specs.List.{flat_map};
ghost use Rattle.lido_base.specs.Causes.{Rose};
ghost use Rattle.order_report.specs.Lines.{IsName, IsNamed, IsNamedFault, line, line_of, many_of, placed, spec_line_of, wrong_of};
ghost use Rattle.order_report.specs.Names.{texts_in};
ghost use Rattle.order_report.specs.Writing.{Puts, TakesPart};

use crate::names::Names;
use crate::status::{Status, Which};
use crate::writing::{name, write_line};
use lido_base::{Decimal, Many, Sink, StrId, Strings, WordKind, WriteFault};
use lido_syntax::SpecFault;

/// What is wrong with a word.
fn wrong(kind: WordKind) -> &'static [u8]
    ensures { result.now ≡ wrong_of kind }
{
    match kind {
        WordKind::Missing => b"missing",
        WordKind::Unknown => b"unknown",
        WordKind::Repeated => b"repeated",
        WordKind::Range => b"range",
    }
}

/// What there is too much of.
fn many(what: Many) -> &'static [u8]
    ensures { result.now ≡ many_of what }
{
    match what {
        Many::Symbols => b"Symbols",
        Many::Rules => b"Rules",
        Many::Elements => b"Elements",
        Many::Computations => b"Computations",
        Many::Attributes => b"Attributes",
        Many::Occurrences => b"Occurrences",
        Many::Nodes => b"Nodes",
        Many::Instances => b"Instances",
        Many::TextCells => b"TextCells",
    }
}

/// A line without a path.
fn words<K: Sink>(sink: &mut K, words: &[&[u8]]) -> Result<u64, WriteFault>
    ensures { Puts 0 (line (flat_map (λ word. word.now) words.now) []) (K.written sink.old) (K.written sink.new) (K.faults sink.old) (K.faults sink.new) result }
{
    write_line(sink, None, words, &[])
}

/// A fault that has a place and no names.
fn placed<K: Sink>(sink: &mut K, fault: &[u8], at: u32) -> Result<u64, WriteFault>
    ensures { Puts 0 (placed fault.now at) (K.written sink.old) (K.written sink.new) (K.faults sink.old) (K.faults sink.new) result }
{
    let at = Decimal::of(u64::from(at));
    words(sink, &[b"spec ", fault, b" at ", at.as_bytes()])
}

/// A number of nonterminals that is not one.
fn roots<K: Sink>(sink: &mut K, count: u32) -> Result<u64, WriteFault>
    ensures { Puts 0 (spec_line_of [] (SpecFault.RootNotOne count)) (K.written sink.old) (K.written sink.new) (K.faults sink.old) (K.faults sink.new) result }
{
    let count = Decimal::of(u64::from(count));
    words(sink, &[b"spec RootNotOne count ", count.as_bytes()])
}

/// Two computations that are inherited.
fn clash<K: Sink>(
    sink: &mut K,
    strings: Option<&Strings>,
    owner: StrId,
    attr: StrId,
    first: u32,
    second: u32,
) -> Result<u64, WriteFault>
    requires owner { IsName (texts_in strings) owner }
    requires attr { IsName (texts_in strings) attr }
    ensures { Puts 0 (spec_line_of (texts_in strings.entry) (SpecFault.ClashInherited owner attr first second)) (K.written sink.old) (K.written sink.new) (K.faults sink.old) (K.faults sink.new) result }
{
    let owner = name(strings, owner);
    let attr = name(strings, attr);
    let first = Decimal::of(u64::from(first));
    let second = Decimal::of(u64::from(second));
    words(
        sink,
        &[
            b"spec ClashInherited ",
            owner,
            b".",
            attr,
            b" at ",
            first.as_bytes(),
            b" and ",
            second.as_bytes(),
        ],
    )
}

/// An attribute that nothing computes.
fn missing<K: Sink>(
    sink: &mut K,
    strings: Option<&Strings>,
    rule: StrId,
    occ: u16,
    attr: StrId,
) -> Result<u64, WriteFault>
    requires rule { IsName (texts_in strings) rule }
    requires attr { IsName (texts_in strings) attr }
    ensures { Puts 0 (spec_line_of (texts_in strings.entry) (SpecFault.MissingComputation rule occ attr)) (K.written sink.old) (K.written sink.new) (K.faults sink.old) (K.faults sink.new) result }
{
    let rule = name(strings, rule);
    let attr = name(strings, attr);
    let occ = Decimal::of(u64::from(occ));
    words(
        sink,
        &[
            b"spec MissingComputation in ",
            rule,
            b" of ",
            occ.as_bytes(),
            b".",
            attr,
        ],
    )
}

/// A chain that has no start, with a path.
fn no_start<K: Sink>(
    sink: &mut K,
    strings: Option<&Strings>,
    chain: StrId,
    path: &[StrId],
) -> Result<u64, WriteFault>
    requires chain { IsName (texts_in strings) chain }
    requires path { All (IsName (texts_in strings)) path.now }
    ensures { Puts 0 (spec_line_of (texts_in strings.entry) (SpecFault.ChainNoStart chain path.now)) (K.written sink.old) (K.written sink.new) (K.faults sink.old) (K.faults sink.new) result }
{
    let chain = name(strings, chain);
    write_line(sink, strings, &[b"spec ChainNoStart ", chain, b":"], path)
}

/// The line of a specification's fault.
fn spec_line<K: Sink>(
    fault: &SpecFault,
    strings: Option<&Strings>,
    sink: &mut K,
) -> Result<u64, WriteFault>
    requires { IsNamedFault (texts_in strings) fault.now }
    ensures { Puts 0 (spec_line_of (texts_in strings.entry) fault.now) (K.written sink.old) (K.written sink.new) (K.faults sink.old) (K.faults sink.new) result }
{
    match fault {
        SpecFault::Lexical { at } => placed(sink, b"Lexical", *at),
        SpecFault::Syntax { at } => placed(sink, b"Syntax", *at),
        SpecFault::PtgSyntax { at } => placed(sink, b"PtgSyntax", *at),
        SpecFault::PtgDuplicate { at } => placed(sink, b"PtgDuplicate", *at),
        SpecFault::PtgMixed { at } => placed(sink, b"PtgMixed", *at),
        SpecFault::UnknownSymbol { at } => placed(sink, b"UnknownSymbol", *at),
        SpecFault::DuplicateRule { at } => placed(sink, b"DuplicateRule", *at),
        SpecFault::RootNotOne { count } => roots(sink, *count),
        SpecFault::KindClash { at } => placed(sink, b"KindClash", *at),
        SpecFault::BadIndex { at } => placed(sink, b"BadIndex", *at),
        SpecFault::DoubleComputation { at } => placed(sink, b"DoubleComputation", *at),
        SpecFault::BadOut { at } => placed(sink, b"BadOut", *at),
        SpecFault::TooMany { what } => words(sink, &[b"spec TooMany ", many(*what)]),
        SpecFault::ClassCycle { path } => write_line(
            sink,
            strings,
            &[b"spec ClassCycle"],
            path.as_slice(),
        ),
        SpecFault::ClashInherited {
            sym,
            attr,
            first,
            second,
        } => clash(sink, strings, *sym, *attr, *first, *second),
        SpecFault::MissingComputation { rule, occ, attr } => missing(
            sink, strings, *rule, *occ, *attr,
        ),
        SpecFault::NoIncluding { path } => write_line(
            sink,
            strings,
            &[b"spec NoIncluding"],
            path.as_slice(),
        ),
        SpecFault::NoWith { at } => placed(sink, b"NoWith", *at),
        SpecFault::ChainNoStart { chain, path } => no_start(sink, strings, *chain, path.as_slice()),
        SpecFault::UnknownFunction { at } => placed(sink, b"UnknownFunction", *at),
        SpecFault::ArgCount { at } => placed(sink, b"ArgCount", *at),
        SpecFault::TypeMismatch { at } => placed(sink, b"TypeMismatch", *at),
        SpecFault::Memory => words(sink, &[b"no memory"]),
    }
}

/// The line of a word of the command.
fn word_line<K: Sink>(sink: &mut K, index: u64, kind: WordKind) -> Result<u64, WriteFault>
    ensures { Puts 0 (line_of [] (Status.Words index kind)) (K.written sink.old) (K.written sink.new) (K.faults sink.old) (K.faults sink.new) result }
{
    let index = Decimal::of(index);
    words(sink, &[b"word ", index.as_bytes(), b" ", wrong(kind)])
}

/// The line of a fault of `out`.
fn output_line<K: Sink>(sink: &mut K, written: u64) -> Result<u64, WriteFault>
    ensures { Puts 0 (line_of [] (Status.WriteFault Which.Out written)) (K.written sink.old) (K.written sink.new) (K.faults sink.old) (K.faults sink.new) result }
{
    let written = Decimal::of(written);
    words(
        sink,
        &[b"output failed after ", written.as_bytes(), b" bytes"],
    )
}

/// The line of a status, and how many bytes it has.
fn status_line<K: Sink>(
    status: &Status,
    strings: Option<&Strings>,
    sink: &mut K,
) -> Result<u64, WriteFault>
    requires { IsNamed (texts_in strings) status.now }
    ensures { Puts 0 (line_of (texts_in strings.entry) status.now) (K.written sink.old) (K.written sink.new) (K.faults sink.old) (K.faults sink.new) result }
{
    match status {
        Status::Done => Ok(0),
        Status::Words { index, kind } => word_line(sink, *index, *kind),
        Status::ReadFault => words(sink, &[b"input failed"]),
        Status::WriteFault {
            sink: Which::Out,
            written,
        } => output_line(sink, *written),
        Status::WriteFault {
            sink: Which::Err,
            ..
        } => Ok(0),
        Status::InputTooLong => words(sink, &[b"input longer than 8388608 bytes"]),
        Status::NoPtg => words(sink, &[b"no %%PTG line"]),
        Status::NoTree => words(sink, &[b"no %%TREE line"]),
        Status::Spec(fault) => spec_line(fault, strings, sink),
        Status::Memory => words(sink, &[b"no memory"]),
        Status::FirstPathOnly => words(sink, &[b"not built yet"]),
    }
}

/// Writes the line of a status. It takes no memory.
///
/// Done, and a fault of `err`, have no line: nothing is then written. `strings` has the texts of the names in the status, where
/// there are any. No status has names of the flat grammar so far.
///
/// After a fault the sink took the first `written` bytes of the line, and not all. The count stands still at the last value of
/// a `u64`, which a line would pass only by names of that length.
pub fn write_fault<K: Sink>(
    status: &Status,
    _flat_names: Option<&Names>,
    strings: Option<&Strings>,
    sink: &mut K,
) -> Result<(), WriteFault>
    requires { IsNamed (texts_in strings) status.now }
    ensures all { OnOk result (Appends (K.written sink.old) (K.written sink.new) (line_of (texts_in strings.entry) status.now)) }
    ensures part { IfErr result (λ e. TakesPart (line_of (texts_in strings.entry) status.now) (K.written sink.old) (K.written sink.new) e.written) }
    ensures fault { OnErr result (Rose (K.faults sink.old) (K.faults sink.new)) }
    ensures later { K.faults sink.old ≤ K.faults sink.new }
{
    match status_line(status, strings, sink) {
        Ok(_) => Ok(()),
        Err(fault) => Err(fault),
    }
}
