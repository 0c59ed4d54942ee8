//! The report of an order, piece by piece.
ghost use Rattle.std.specs.Prelude.{◌≡◌, ◌≤◌, ◌+◌, All, IfErr, OnOk, OnErr, length, take};
ghost use Rattle.std.specs.Io.KnownBytes.{Appends};
ghost use Rattle.std.specs.List.{enumerate_from, flat_map};
ghost use Rattle.lido_base.specs.Causes.{Rose};
ghost use Rattle.flat_grammar.specs.Rules.{symbols_of};
ghost use Rattle.order_report.specs.Lines.{IsName};
ghost use Rattle.order_report.specs.Report.{IsNamedGrammar, IsNamedSymbol, attribute_at_text, attribute_text, attributes_text, further_text, index_text, item_text, items_text, occurrence_text, occurrences, report, row_of, rule_line, symbol_text, vertex_text, visit_line, visit_lines};
ghost use Rattle.order_report.specs.Writing.{Extends, Puts, TakesPart};

use crate::writing::{add, add_pieces, name};
use flat_grammar::{Flat, FlatRule, FlatSymbol, Occ, Plan, PlanItem, VisitClass, symbol_at};
use lido_base::{AttrId, Decimal, List, Sink, Strings, SymId, WriteFault};

/// The name of the symbol's attribute of that number.
fn attribute<'a>(strings: &'a Strings, symbol: &FlatSymbol, attr: AttrId) -> &'a [u8]
    requires { IsNamedSymbol strings.now symbol.now }
    ensures { result.now ≡ attribute_text strings.entry.now symbol.now attr }
{
    match symbol.attrs.as_slice().get(attr.0 as usize) {
        Some(found) => name(Some(strings), found.name),
        None => &[],
    }
}

/// The names of attributes, a word in front of each.
fn add_attributes<K: Sink>(
    sink: &mut K,
    so_far: Result<u64, WriteFault>,
    strings: &Strings,
    symbol: &FlatSymbol,
    word: &[u8],
    attrs: &[AttrId],
) -> Result<u64, WriteFault>
    requires { IsNamedSymbol strings.now symbol.now }
    ensures { Extends (attributes_text strings.now symbol.now word.now attrs.now) (K.written sink.old) (K.faults sink.old) so_far
        (K.written sink.new) (K.faults sink.new) result }
{
    let mut written = so_far;
    for attr in attrs {
        written = add_pieces(sink, written, &[word, attribute(strings, symbol, *attr)]);
    }
    written
}

/// The line of the symbol's visit of this number.
fn add_visit<K: Sink>(
    sink: &mut K,
    so_far: Result<u64, WriteFault>,
    strings: &Strings,
    symbol: &FlatSymbol,
    number: u64,
    class: &VisitClass,
) -> Result<u64, WriteFault>
    requires { IsNamedSymbol strings.now symbol.now }
    ensures { Extends (visit_line strings.now symbol.now number class.now) (K.written sink.old) (K.faults sink.old) so_far
        (K.written sink.new) (K.faults sink.new) result }
{
    let number = Decimal::of(number);
    let symbol_name = name(Some(strings), symbol.name);
    let head = add_pieces(
        sink,
        so_far,
        &[b"visit ", symbol_name, b" ", number.as_bytes(), b":"],
    );
    let taken = add_attributes(
        sink,
        head,
        strings,
        symbol,
        b" in ",
        class.inherited.as_slice(),
    );
    let given = add_attributes(
        sink,
        taken,
        strings,
        symbol,
        b" out ",
        class.synthesized.as_slice(),
    );
    add(sink, given, b"\n")
}

/// The lines of all visits of the symbol.
fn add_visits<K: Sink>(
    sink: &mut K,
    so_far: Result<u64, WriteFault>,
    strings: &Strings,
    symbol: &FlatSymbol,
    row: &[VisitClass],
) -> Result<u64, WriteFault>
    requires { IsNamedSymbol strings.now symbol.now }
    ensures { Extends (visit_lines strings.now symbol.now row.now) (K.written sink.old) (K.faults sink.old) so_far
        (K.written sink.new) (K.faults sink.new) result }
{
    let mut written = so_far;
    for (place, class) in row.iter().enumerate() {
        written = add_visit(sink, written, strings, symbol, place as u64 + 1, class);
    }
    written
}

/// The row of this number, and an empty one where there is none.
fn row_of<T>(rows: &[List<T>], k: usize) -> &[T]
    ensures { result.now ≡ row_of rows.now k }
{
    match rows.get(k) {
        Some(row) => row.as_slice(),
        None => &[],
    }
}

/// The lines of all symbols' visits.
fn add_symbols<K: Sink>(
    sink: &mut K,
    so_far: Result<u64, WriteFault>,
    strings: &Strings,
    symbols: &[FlatSymbol],
    visits: &[List<VisitClass>],
) -> Result<u64, WriteFault>
    requires { All (IsNamedSymbol strings.now) symbols.now }
    ensures { Extends (flat_map (λ p. visit_lines strings.now p.1 (row_of visits.now p.0)) (enumerate_from 0 symbols.now))
        (K.written sink.old) (K.faults sink.old) so_far (K.written sink.new) (K.faults sink.new) result }
{
    let mut written = so_far;
    for (k, symbol) in symbols.iter().enumerate() {
        written = add_visits(sink, written, strings, symbol, row_of(visits, k));
    }
    written
}

/// The name of a symbol.
fn symbol_name<'a>(strings: &'a Strings, symbols: &[FlatSymbol], symbol: SymId) -> &'a [u8]
    requires { All (IsNamedSymbol strings.now) symbols.now }
    ensures { result.now ≡ symbol_text strings.entry.now symbols.now symbol }
{
    match symbols.get(symbol.0 as usize) {
        Some(found) => name(Some(strings), found.name),
        None => &[],
    }
}

/// How often the symbol stands among these.
pub fn count(symbol: SymId, among: &[SymId]) -> u64
    ensures is { result ≡ occurrences symbol among.now }
    ensures few { result ≤ length among.now }
{
    among.iter().filter(|other| symbol.0 == other.0).count() as u64
}

/// How often the symbol stands at the rule's occurrences up to this one.
fn count_up_to(rule: &FlatRule, symbol: SymId, occ: usize) -> u64
    requires { occ ≤ length rule.now.right }
    ensures { result ≡ occurrences symbol (take (occ + 1) (symbols_of rule.now)) }
{
    let left = u64::from(symbol.0 == rule.left.0);
    let right = count(symbol, &rule.right.as_slice()[..occ]);
    left + right
}

/// An index in brackets, where a symbol occurs more than once.
pub fn add_index<K: Sink>(
    sink: &mut K,
    so_far: Result<u64, WriteFault>,
    occurrences: u64,
    index: u64,
) -> Result<u64, WriteFault>
    ensures { Extends (index_text occurrences index) (K.written sink.old) (K.faults sink.old) so_far
        (K.written sink.new) (K.faults sink.new) result }
{
    if occurrences <= 1 {
        return so_far;
    }
    let index = Decimal::of(index);
    add_pieces(sink, so_far, &[b"[", index.as_bytes(), b"]"])
}

/// The symbol at an occurrence of the rule, with its index.
fn add_occurrence<K: Sink>(
    sink: &mut K,
    so_far: Result<u64, WriteFault>,
    strings: &Strings,
    symbols: &[FlatSymbol],
    rule: &FlatRule,
    occ: u16,
) -> Result<u64, WriteFault>
    requires { All (IsNamedSymbol strings.now) symbols.now }
    ensures { Extends (occurrence_text strings.now symbols.now rule.now occ) (K.written sink.old) (K.faults sink.old) so_far
        (K.written sink.new) (K.faults sink.new) result }
{
    let Some(symbol) = symbol_at(rule, occ) else {
        return so_far;
    };
    let named = add(sink, so_far, symbol_name(strings, symbols, symbol));
    let all = count_up_to(rule, symbol, rule.right.len());
    let index = count_up_to(rule, symbol, occ as usize);
    add_index(sink, named, all, index)
}

/// The name of the attribute at an occurrence of the rule.
fn attribute_at<'a>(
    strings: &'a Strings,
    symbols: &[FlatSymbol],
    rule: &FlatRule,
    occ: Occ,
) -> &'a [u8]
    requires { All (IsNamedSymbol strings.now) symbols.now }
    ensures { result.now ≡ attribute_at_text strings.entry.now symbols.now rule.now occ }
{
    let Some(symbol) = symbol_at(rule, occ.occ) else {
        return &[];
    };
    match symbols.get(symbol.0 as usize) {
        Some(found) => attribute(strings, found, occ.attr),
        None => &[],
    }
}

/// An attribute occurrence of the rule.
fn add_vertex<K: Sink>(
    sink: &mut K,
    so_far: Result<u64, WriteFault>,
    strings: &Strings,
    symbols: &[FlatSymbol],
    rule: &FlatRule,
    occ: Occ,
) -> Result<u64, WriteFault>
    requires { All (IsNamedSymbol strings.now) symbols.now }
    ensures { Extends (vertex_text strings.now symbols.now rule.now occ) (K.written sink.old) (K.faults sink.old) so_far
        (K.written sink.new) (K.faults sink.new) result }
{
    let at = add_occurrence(sink, so_far, strings, symbols, rule, occ.occ);
    let attribute = attribute_at(strings, symbols, rule, occ);
    add_pieces(sink, at, &[b".", attribute])
}

/// The visit of the child at an occurrence of the rule.
fn add_child_visit<K: Sink>(
    sink: &mut K,
    so_far: Result<u64, WriteFault>,
    strings: &Strings,
    symbols: &[FlatSymbol],
    rule: &FlatRule,
    occ: u16,
    visit: u16,
) -> Result<u64, WriteFault>
    requires { All (IsNamedSymbol strings.now) symbols.now }
    ensures { Extends (item_text strings.now symbols.now rule.now (PlanItem.Visit occ visit)) (K.written sink.old) (K.faults sink.old) so_far
        (K.written sink.new) (K.faults sink.new) result }
{
    let word = add(sink, so_far, b"visit ");
    let child = add_occurrence(sink, word, strings, symbols, rule, occ);
    let visit = Decimal::of(u64::from(visit));
    add_pieces(sink, child, &[b" ", visit.as_bytes()])
}

/// An item of the rule's sequence.
fn add_item<K: Sink>(
    sink: &mut K,
    so_far: Result<u64, WriteFault>,
    strings: &Strings,
    symbols: &[FlatSymbol],
    rule: &FlatRule,
    item: PlanItem,
) -> Result<u64, WriteFault>
    requires { All (IsNamedSymbol strings.now) symbols.now }
    ensures { Extends (item_text strings.now symbols.now rule.now item) (K.written sink.old) (K.faults sink.old) so_far
        (K.written sink.new) (K.faults sink.new) result }
{
    match item {
        PlanItem::Eval(occ) => {
            let word = add(sink, so_far, b"eval ");
            add_vertex(sink, word, strings, symbols, rule, occ)
        }
        PlanItem::Visit { occ, visit } => {
            add_child_visit(sink, so_far, strings, symbols, rule, occ, visit)
        }
        PlanItem::Leave { visit } => {
            let visit = Decimal::of(u64::from(visit));
            add_pieces(sink, so_far, &[b"leave ", visit.as_bytes()])
        }
    }
}

/// Items of the rule's sequence behind its first one.
fn add_further<K: Sink>(
    sink: &mut K,
    so_far: Result<u64, WriteFault>,
    strings: &Strings,
    symbols: &[FlatSymbol],
    rule: &FlatRule,
    items: &[PlanItem],
) -> Result<u64, WriteFault>
    requires { All (IsNamedSymbol strings.now) symbols.now }
    ensures { Extends (further_text strings.now symbols.now rule.now items.now) (K.written sink.old) (K.faults sink.old) so_far
        (K.written sink.new) (K.faults sink.new) result }
{
    let mut written = so_far;
    for item in items {
        let between = add(sink, written, b"; ");
        written = add_item(sink, between, strings, symbols, rule, *item);
    }
    written
}

/// The items of the rule's sequence.
fn add_items<K: Sink>(
    sink: &mut K,
    so_far: Result<u64, WriteFault>,
    strings: &Strings,
    symbols: &[FlatSymbol],
    rule: &FlatRule,
    items: &[PlanItem],
) -> Result<u64, WriteFault>
    requires { All (IsNamedSymbol strings.now) symbols.now }
    ensures { Extends (items_text strings.now symbols.now rule.now items.now) (K.written sink.old) (K.faults sink.old) so_far
        (K.written sink.new) (K.faults sink.new) result }
{
    match items {
        [] => so_far,
        [first, further @ ..] => {
            let begun = add_item(sink, so_far, strings, symbols, rule, *first);
            add_further(sink, begun, strings, symbols, rule, further)
        }
    }
}

/// The line of a rule.
fn add_rule<K: Sink>(
    sink: &mut K,
    so_far: Result<u64, WriteFault>,
    strings: &Strings,
    symbols: &[FlatSymbol],
    rule: &FlatRule,
    items: &[PlanItem],
) -> Result<u64, WriteFault>
    requires symbols { All (IsNamedSymbol strings.now) symbols.now }
    requires rule { IsName strings.now rule.now.name }
    ensures { Extends (rule_line strings.now symbols.now rule.now items.now) (K.written sink.old) (K.faults sink.old) so_far
        (K.written sink.new) (K.faults sink.new) result }
{
    let rule_name = name(Some(strings), rule.name);
    let head = add_pieces(sink, so_far, &[b"rule ", rule_name, b": "]);
    let sequence = add_items(sink, head, strings, symbols, rule, items);
    add(sink, sequence, b"\n")
}

/// The lines of all rules.
fn add_rules<K: Sink>(
    sink: &mut K,
    so_far: Result<u64, WriteFault>,
    strings: &Strings,
    symbols: &[FlatSymbol],
    rules: &[FlatRule],
    seqs: &[List<PlanItem>],
) -> Result<u64, WriteFault>
    requires symbols { All (IsNamedSymbol strings.now) symbols.now }
    requires rules { All (λ r. IsName strings.now r.name) rules.now }
    ensures { Extends (flat_map (λ p. rule_line strings.now symbols.now p.1 (row_of seqs.now p.0)) (enumerate_from 0 rules.now))
        (K.written sink.old) (K.faults sink.old) so_far (K.written sink.new) (K.faults sink.new) result }
{
    let mut written = so_far;
    for (k, rule) in rules.iter().enumerate() {
        written = add_rule(sink, written, strings, symbols, rule, row_of(seqs, k));
    }
    written
}

/// Hands over the report, and says how many bytes it has.
fn put_report<K: Sink>(
    flat: &Flat,
    plan: &Plan,
    strings: &Strings,
    sink: &mut K,
) -> Result<u64, WriteFault>
    requires { IsNamedGrammar strings.now flat.now.symbols flat.now.rules }
    ensures { Puts 0 (report strings.now flat.now.symbols flat.now.rules plan.now.visits plan.now.seqs)
        (K.written sink.old) (K.written sink.new) (K.faults sink.old) (K.faults sink.new) result }
{
    let symbols = flat.symbols.as_slice();
    let visits = add_symbols(sink, Ok(0), strings, symbols, plan.visits.as_slice());
    add_rules(
        sink,
        visits,
        strings,
        symbols,
        flat.rules.as_slice(),
        plan.seqs.as_slice(),
    )
}

/// Writes the report of an order. It takes no memory.
///
/// For each symbol of the flat grammar by number and each of its visits there is a line `visit NAME V:`, then ` in ATTR` for each attribute
/// that the visit takes and ` out ATTR` for each that it gives, as the plan lists them. Then for each plain rule there is a line `rule NAME: `
/// and the items of its sequence, `; ` between them: `eval OCC.ATTR`, `visit OCC V` or `leave V`. OCC is the symbol's name, with `[k]` where
/// it is the k-th of several occurrences of that symbol in the rule. A terminal has no visit, so it has no line.
///
/// The time is in proportion to the items times the occurrences of their rules. After a fault the sink took the first `written` bytes of
/// the report, and not all; the count stands still at the last value of a `u64`.
pub fn write_order<K: Sink>(
    flat: &Flat,
    plan: &Plan,
    strings: &Strings,
    sink: &mut K,
) -> Result<(), WriteFault>
    requires { IsNamedGrammar strings.now flat.now.symbols flat.now.rules }
    ensures all { OnOk result (Appends (K.written sink.old) (K.written sink.new)
        (report strings.now flat.now.symbols flat.now.rules plan.now.visits plan.now.seqs)) }
    ensures part { IfErr result (λ e. TakesPart (report strings.now flat.now.symbols flat.now.rules plan.now.visits plan.now.seqs)
        (K.written sink.old) (K.written sink.new) e.written) }
    ensures fault { OnErr result (Rose (K.faults sink.old) (K.faults sink.new)) }
    ensures later { K.faults sink.old ≤ K.faults sink.new }
{
    match put_report(flat, plan, strings, sink) {
        Ok(_) => Ok(()),
        Err(fault) => Err(fault),
    }
}
