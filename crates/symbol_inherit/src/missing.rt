//! Attributes that the written rules have to compute and nothing does.
ghost use Rattle.std.specs.Prelude.{◌≡◌, ◌↔◌, ◌+◌, ℕ, IsTrue, Some, slice_get, Contains, IfOk};
ghost use Rattle.lido_syntax.specs.declared.spec.Spec.{Spec as Specification};
ghost use Rattle.lido_base.specs.Environment.{Environment};
ghost use Rattle.lido_syntax.specs.declared.spec.RuleItem.{RuleItem as Rule};
ghost use Rattle.lido_syntax.specs.Production.{left_of};
ghost use Rattle.lido_syntax.specs.Symbols.{IsRoot};
ghost use Rattle.lido_syntax.specs.Computation.{HasComputation};
ghost use Rattle.kind_clashes.specs.Sets.{AreNameSets};
ghost use Rattle.rule_tables.specs.declared.table.Tables.{Tables as Rows};
ghost use Rattle.rule_tables.specs.Needs.{Tables as Numbered};
ghost use Rattle.symbol_attributes.specs.Written.{IsWrittenAttribute};
ghost use Rattle.rule_tables.specs.InForceFaults.{IsMissing};
ghost use Rattle.computation_aims.specs.Aims.{goal_of, AreChains};
ghost use Rattle.symbol_inherit.specs.Rules.{HasRule, HasRuleAt};
ghost use Rattle.symbol_inherit.specs.Entries.{attrs_at, attribute_aim as aim_of_attribute, AreKnown};
ghost use Rattle.symbol_inherit.specs.Clashes.{AreNumbersIn};
ghost use Rattle.symbol_inherit.specs.Places.{IsPlaceIn, AreRightPlaces, left_id, right_ids};
ghost use Rattle.symbol_inherit.specs.Missing.{IsMissingAt, IsMissingFrom, IsMissingFault};

use crate::entries::{attribute_aim, attributes, narrow};
use crate::forced::resolve;
use crate::index::Index;
use crate::rule_notes::rule_index;
use crate::symbols::Symbols;
use flat_grammar::{FlatAttr, FlatRule, Shape};
use kind_clashes::NameSets;
use lido_base::{Kind, Memory, StrId, SymId};
use lido_symbols::Names;
use lido_syntax::{RuleItem, SpecFault};
use rule_tables::{SymbolRow, Tables};
use std::alloc::Global;

/// An attribute that is missing, and its occurrence.
#[derive(Clone, Copy)]
pub struct MissingAt {
    pub occ: u16,
    pub name: StrId,
}

/// Whether nothing computes the attribute at the occurrence.
fn lacks(rule: &Index, symbols: &Symbols, x: u16, occ: u16, name: StrId) -> bool
    ensures { (env : Environment) (t : Rows) (r : Rule) (i s : ℕ) → AreKnown env t symbols.now → HasRuleAt t.spec r occ rule.now
        → IsPlaceIn t r i occ s x → IsTrue result ↔ ¬ HasComputation t.spec r occ s (goal_of (aim_of_attribute occ name)) }
{
    let aim = attribute_aim(occ, name);
    let held = resolve(rule, symbols, x, occ, aim);
    held.is_none()
}

/// Whether the attribute of the left side is missing. An inherited one of the root is missing whatever computes it.
fn is_missing_left(rule: &Index, symbols: &Symbols, is_root: bool, x: u16, attr: &FlatAttr) -> bool
    ensures { (env : Environment) (t : Rows) (T : Numbered t.spec) (r : Rule) (i s : ℕ) → AreKnown env t symbols.now → HasRuleAt t.spec r 0 rule.now
        → IsPlaceIn t r i 0 s x → IsTrue is_root ↔ IsRoot t.spec (left_of r)
        → IsWrittenAttribute t.spec s attr.now → IsTrue result ↔ IsMissing t.spec T i 0 attr.now.name.0 }
{
    match attr.kind {
        Kind::Synthesized => lacks(rule, symbols, x, 0, attr.name),
        Kind::Inherited => is_root,
    }
}

/// Whether the attribute of an occurrence of the right side is missing.
fn is_missing_right(rule: &Index, symbols: &Symbols, x: u16, occ: u16, attr: &FlatAttr) -> bool
    ensures { (env : Environment) (t : Rows) (T : Numbered t.spec) (r : Rule) (i k s : ℕ) → AreKnown env t symbols.now → HasRuleAt t.spec r occ rule.now
        → IsPlaceIn t r i occ s x → occ ≡ k + 1
        → IsWrittenAttribute t.spec s attr.now → IsTrue result ↔ IsMissing t.spec T i occ attr.now.name.0 }
{
    match attr.kind {
        Kind::Synthesized => false,
        Kind::Inherited => lacks(rule, symbols, x, occ, attr.name),
    }
}

/// The first attribute of the left side that is missing.
fn missing_left(
    rule: &Index,
    symbols: &Symbols,
    is_root: bool,
    x: u16,
    attrs: &[FlatAttr],
) -> Option<StrId>
    ensures { (env : Environment) (t : Rows) (T : Numbered t.spec) (r : Rule) (i s : ℕ) → AreKnown env t symbols.now → AreNumbersIn t T
        → HasRuleAt t.spec r 0 rule.now → IsPlaceIn t r i 0 s x → IsTrue is_root ↔ IsRoot t.spec (left_of r)
        → attrs_at t.symbols x ≡ attrs.now → IsMissingAt t.spec T i 0 result }
{
    for attr in attrs {
        if is_missing_left(rule, symbols, is_root, x, attr) {
            return Some(attr.name);
        }
    }
    None
}

/// The first attribute of an occurrence of the right side that is missing.
fn missing_right(
    rule: &Index,
    symbols: &Symbols,
    x: u16,
    occ: u16,
    attrs: &[FlatAttr],
) -> Option<StrId>
    ensures { (env : Environment) (t : Rows) (T : Numbered t.spec) (r : Rule) (i k s : ℕ) → AreKnown env t symbols.now → AreNumbersIn t T
        → HasRuleAt t.spec r occ rule.now → IsPlaceIn t r i occ s x → occ ≡ k + 1
        → attrs_at t.symbols x ≡ attrs.now → IsMissingAt t.spec T i occ result }
{
    for attr in attrs {
        if is_missing_right(rule, symbols, x, occ, attr) {
            return Some(attr.name);
        }
    }
    None
}

/// The first attribute of the right side that is missing.
fn missing_on_right_side(
    rule: &Index,
    symbols: &Symbols,
    rows: &[SymbolRow],
    right: &[SymId],
) -> Result<Option<MissingAt>, Memory>
    ensures { IfOk result (λ missing. (env : Environment) (t : Rows) (T : Numbered t.spec) (r : Rule) (i : ℕ) → AreKnown env t symbols.now
        → AreNumbersIn t T → HasRule t.spec r rule.now → t.symbols ≡ rows.now → AreRightPlaces t r i right.now
        → IsMissingFrom t.spec T i 1 missing) }
{
    for (k, symbol) in right.iter().enumerate() {
        let occ = narrow(k + 1)?;
        let attrs = attributes(rows, symbol.0);
        if let Some(name) = missing_right(rule, symbols, symbol.0, occ, attrs) {
            return Ok(Some(MissingAt { occ, name }));
        }
    }
    Ok(None)
}

/// The first attribute of a written rule that is missing.
fn missing_in_rule(
    alloc: Global,
    tables: &Tables,
    symbols: &Symbols,
    chains: &Names,
    is_root: bool,
    rule: &RuleItem,
    left: SymId,
    right: &[SymId],
) -> Result<Option<MissingAt>, Memory>
    ensures { IfOk result (λ missing. (env : Environment) (T : Numbered tables.now.spec) (i s : ℕ) → AreKnown env tables.now symbols.now
        → AreNumbersIn tables.now T → AreChains tables.now.spec chains.now → IsPlaceIn tables.now rule.now i 0 s left.0
        → AreRightPlaces tables.now rule.now i right.now → IsTrue is_root ↔ IsRoot tables.now.spec (left_of rule.now)
        → IsMissingFrom tables.now.spec T i 0 missing) }
{
    let rows = tables.symbols.as_slice();
    let index = rule_index(alloc, chains, rule)?;
    let attrs = attributes(rows, left.0);
    if let Some(name) = missing_left(&index, symbols, is_root, left.0, attrs) {
        return Ok(Some(MissingAt { occ: 0, name }));
    }
    let found = missing_on_right_side(&index, symbols, rows, right)?;
    Ok(found)
}

/// The symbol on the left side of the rule of that number.
pub fn left_symbol(plain: &[FlatRule], i: usize) -> SymId
    ensures { result ≡ left_id (slice_get plain.now i) }
{
    match plain.get(i) {
        Some(flat) => flat.left,
        None => SymId(0),
    }
}

/// The symbols on the right side of the written rule of that number.
pub fn right_side(shapes: &[Shape], i: usize) -> &[SymId]
    ensures { result.now ≡ right_ids (slice_get shapes.now i) }
{
    match shapes.get(i) {
        Some(shape) => shape.right.as_slice(),
        None => &[],
    }
}

/// Whether the symbol on the rule's left side is the root.
fn is_root_rule(sets: &NameSets, rule: &RuleItem) -> bool
    ensures { (spec : Specification) → AreNameSets spec sets.now → Contains spec.rules rule.now → IsTrue result ↔ IsRoot spec (left_of rule.now) }
{
    !sets.right_sides.has(rule.left.id)
}

/// What is missing in the first written rule in which something is.
pub fn first_missing(
    alloc: Global,
    tables: &Tables,
    symbols: &Symbols,
    chains: &Names,
    sets: &NameSets,
) -> Result<Option<SpecFault>, Memory>
    ensures { IfOk result (λ missing. (env : Environment) (T : Numbered tables.now.spec) → AreKnown env tables.now symbols.now
        → AreNumbersIn tables.now T → AreChains tables.now.spec chains.now → AreNameSets tables.now.spec sets.now
        → IsMissingFault tables.now T missing) }
{
    let plain = tables.plain.as_slice();
    let shapes = tables.shapes.as_slice();
    let rules = tables.spec.rules.as_slice();
    for (i, rule) in rules.iter().enumerate() {
        let root = is_root_rule(sets, rule);
        let left = left_symbol(plain, i);
        let right = right_side(shapes, i);
        let found = missing_in_rule(alloc, tables, symbols, chains, root, rule, left, right)?;
        if let Some(missing) = found {
            return Ok(Some(SpecFault::MissingComputation {
                rule: rule.name,
                occ: missing.occ,
                attr: missing.name,
            }));
        }
    }
    Ok(None)
}
