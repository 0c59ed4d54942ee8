//! The line of a cycle of dependencies, piece by piece.
ghost use Rattle.std.specs.Prelude.{◌≡◌, ◌≤◌, All, IfErr, OnOk, OnErr};
ghost use Rattle.std.specs.Io.KnownBytes.{Appends};
ghost use Rattle.lido_base.specs.Causes.{Rose};
ghost use Rattle.order_report.specs.CycleLines.{AreNamed, closing_text, cycle_line, label_text, named_attribute, named_occurrence, named_vertex, occs_of, rule_name_of, step_text, steps_text, text_at};
ghost use Rattle.order_report.specs.Lines.{IsName};
ghost use Rattle.order_report.specs.Writing.{Extends, Puts, TakesPart};

use crate::names::Names;
use crate::report::{add_index, count};
use crate::writing::{add, add_pieces, name};
use flat_grammar::{Cycle, CycleStep, Label, Occ};
use lido_base::{RuleId, Sink, StrId, Strings, SymId, WriteFault};

/// Why an edge stands in the dependencies of a rule.
fn label(label: Label) -> &'static [u8]
    ensures { result.now ≡ label_text label }
{
    match label {
        Label::Direct => b"direct",
        Label::Induced => b"induced",
        Label::Partition => b"partition",
    }
}

/// The text of the name of this number, and nothing where there is none.
fn text_at<'a>(strings: &'a Strings, names: &[StrId], k: usize) -> &'a [u8]
    requires { All (IsName strings.now) names.now }
    ensures { result.now ≡ text_at strings.entry.now names.now k }
{
    match names.get(k) {
        Some(id) => name(Some(strings), *id),
        None => &[],
    }
}

/// The symbol at an occurrence, with its index.
fn add_occurrence<K: Sink>(
    sink: &mut K,
    so_far: Result<u64, WriteFault>,
    strings: &Strings,
    names: &Names,
    occs: &[SymId],
    occ: usize,
) -> Result<u64, WriteFault>
    requires { AreNamed strings.now names.now }
    ensures { Extends (named_occurrence strings.now names.now occs.now occ) (K.written sink.old) (K.faults sink.old) so_far
        (K.written sink.new) (K.faults sink.new) result }
{
    if occ >= occs.len() {
        return so_far;
    }
    let symbol = occs[occ];
    let text = text_at(strings, names.symbols.as_slice(), symbol.0 as usize);
    let named = add(sink, so_far, text);
    let all = count(symbol, occs);
    let index = count(symbol, &occs[..occ + 1]);
    add_index(sink, named, all, index)
}

/// The name of the attribute at an occurrence.
fn attribute_at<'a>(strings: &'a Strings, names: &Names, occs: &[SymId], occ: Occ) -> &'a [u8]
    requires { AreNamed strings.now names.now }
    ensures { result.now ≡ named_attribute strings.entry.now names.now occs.now occ }
{
    let Some(symbol) = occs.get(occ.occ as usize) else {
        return &[];
    };
    match names.attrs.as_slice().get(symbol.0 as usize) {
        Some(attrs) => text_at(strings, attrs.as_slice(), occ.attr.0 as usize),
        None => &[],
    }
}

/// An attribute occurrence.
fn add_vertex<K: Sink>(
    sink: &mut K,
    so_far: Result<u64, WriteFault>,
    strings: &Strings,
    names: &Names,
    occs: &[SymId],
    occ: Occ,
) -> Result<u64, WriteFault>
    requires { AreNamed strings.now names.now }
    ensures { Extends (named_vertex strings.now names.now occs.now occ) (K.written sink.old) (K.faults sink.old) so_far
        (K.written sink.new) (K.faults sink.new) result }
{
    let at = add_occurrence(sink, so_far, strings, names, occs, occ.occ as usize);
    let attribute = attribute_at(strings, names, occs, occ);
    add_pieces(sink, at, &[b".", attribute])
}

/// A step: where it begins, and why its edge stands there.
fn add_step<K: Sink>(
    sink: &mut K,
    so_far: Result<u64, WriteFault>,
    strings: &Strings,
    names: &Names,
    occs: &[SymId],
    step: CycleStep,
) -> Result<u64, WriteFault>
    requires { AreNamed strings.now names.now }
    ensures { Extends (step_text strings.now names.now occs.now step) (K.written sink.old) (K.faults sink.old) so_far
        (K.written sink.new) (K.faults sink.new) result }
{
    let space = add(sink, so_far, b" ");
    let from = add_vertex(sink, space, strings, names, occs, step.from);
    add_pieces(sink, from, &[b" ", label(step.label)])
}

/// The steps of a cycle.
fn add_steps<K: Sink>(
    sink: &mut K,
    so_far: Result<u64, WriteFault>,
    strings: &Strings,
    names: &Names,
    occs: &[SymId],
    steps: &[CycleStep],
) -> Result<u64, WriteFault>
    requires { AreNamed strings.now names.now }
    ensures { Extends (steps_text strings.now names.now occs.now steps.now) (K.written sink.old) (K.faults sink.old) so_far
        (K.written sink.new) (K.faults sink.new) result }
{
    let mut written = so_far;
    for step in steps {
        written = add_step(sink, written, strings, names, occs, *step);
    }
    written
}

/// Where a cycle closes.
fn add_closing<K: Sink>(
    sink: &mut K,
    so_far: Result<u64, WriteFault>,
    strings: &Strings,
    names: &Names,
    occs: &[SymId],
    steps: &[CycleStep],
) -> Result<u64, WriteFault>
    requires { AreNamed strings.now names.now }
    ensures { Extends (closing_text strings.now names.now occs.now steps.now) (K.written sink.old) (K.faults sink.old) so_far
        (K.written sink.new) (K.faults sink.new) result }
{
    match steps {
        [] => so_far,
        [first, ..] => {
            let space = add(sink, so_far, b" ");
            add_vertex(sink, space, strings, names, occs, first.from)
        }
    }
}

/// The name of a rule, and nothing where there is none.
fn rule_name<'a>(strings: &'a Strings, names: &Names, rule: RuleId) -> &'a [u8]
    requires { AreNamed strings.now names.now }
    ensures { result.now ≡ rule_name_of strings.entry.now names.now rule.0 }
{
    match names.rules.as_slice().get(rule.0 as usize) {
        Some(found) => name(Some(strings), found.name),
        None => &[],
    }
}

/// The symbols at the occurrences of a rule.
fn occs_of(names: &Names, rule: RuleId) -> &[SymId]
    ensures { result.now ≡ occs_of names.now rule.0 }
{
    match names.rules.as_slice().get(rule.0 as usize) {
        Some(found) => found.occs.as_slice(),
        None => &[],
    }
}

/// Hands over the line, and says how many bytes it has.
fn put_cycle<K: Sink>(
    cycle: &Cycle,
    names: &Names,
    strings: &Strings,
    sink: &mut K,
) -> Result<u64, WriteFault>
    requires { AreNamed strings.now names.now }
    ensures { Puts 0 (cycle_line strings.now names.now cycle.now) (K.written sink.old) (K.written sink.new)
        (K.faults sink.old) (K.faults sink.new) result }
{
    let steps = cycle.steps.as_slice();
    let of_rule = rule_name(strings, names, cycle.rule);
    let head = add_pieces(sink, Ok(0), &[b"lido: circular in ", of_rule, b":"]);
    let occs = occs_of(names, cycle.rule);
    let walk = add_steps(sink, head, strings, names, occs, steps);
    let closed = add_closing(sink, walk, strings, names, occs, steps);
    add(sink, closed, b"\n")
}

/// Writes the line of a cycle of dependencies. It takes no memory.
///
/// The line is `lido: circular in RULE:`, then for each step a space, the attribute occurrence OCC.ATTR where it begins, a space and why its
/// edge stands there, `direct`, `induced` or `partition`, and at the end the first occurrence again. OCC is the symbol's name, with `[k]`
/// where it is the k-th of several occurrences of that symbol in the rule.
///
/// After a fault the sink took the first `written` bytes of the line, and not all; the count stands still at the last value of a `u64`.
pub fn write_cycle<K: Sink>(
    cycle: &Cycle,
    names: &Names,
    strings: &Strings,
    sink: &mut K,
) -> Result<(), WriteFault>
    requires { AreNamed strings.now names.now }
    ensures all { OnOk result (Appends (K.written sink.old) (K.written sink.new) (cycle_line strings.now names.now cycle.now)) }
    ensures part { IfErr result (λ e. TakesPart (cycle_line strings.now names.now cycle.now) (K.written sink.old) (K.written sink.new) e.written) }
    ensures fault { OnErr result (Rose (K.faults sink.old) (K.faults sink.new)) }
    ensures later { K.faults sink.old ≤ K.faults sink.new }
{
    match put_cycle(cycle, names, strings, sink) {
        Ok(_) => Ok(()),
        Err(fault) => Err(fault),
    }
}
