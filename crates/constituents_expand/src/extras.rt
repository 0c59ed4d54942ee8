//! The attributes of CONSTITUENTS, and their computations in plain rules.
ghost use Rattle.std.specs.Prelude.{◌≡◌, ◌<◌, ◌≤◌, ◌^◌, ◌++◌, length, IfOk, OnOk};
ghost use Rattle.need_graphs.specs.Clear.{AreFew};
ghost use Rattle.constituents_expand.specs.Extras.{type_of, attr_of as its_attr, symbol_attrs, all_attrs as all_attrs_of, is_whole as is_whole_at, comp_of as its_comp, rule_comps, all_comps as all_comps_of};

use crate::weights::{Gathering, is_set, weight};
use flat_grammar::FlatRule;
use lido_base::{Kind, Memory, RuleId, SymId, ValueType};
use lido_syntax::RuleItem;
use rule_tables::{ExtraAttr, ExtraComp, Slot, SymbolRow};
use std::alloc::Global;

/// The type of its attribute: that of its WITH, and VOID without one.
fn gathered_type(with: Option<ValueType>) -> ValueType
    ensures { result ≡ type_of with }
{
    match with {
        Some(ty) => ty,
        None => ValueType::Void,
    }
}

/// The attribute of the symbol, if it has it.
fn attr_of(gathering: &Gathering, sym: SymId) -> Option<ExtraAttr>
    ensures { result ≡ its_attr sym.0 gathering.now }
{
    if is_set(gathering.bearers.as_slice(), sym) {
        Some(ExtraAttr {
            sym,
            slot: Slot::Con(gathering.number),
            kind: Kind::Synthesized,
            ty: gathered_type(gathering.with),
        })
    } else {
        None
    }
}

/// Adds the attributes of a symbol.
fn push_symbol(
    attrs: &mut Vec<ExtraAttr>,
    symbol: u16,
    gatherings: &[Gathering],
) -> Result<(), Memory>
    ensures { OnOk result (attrs.new.items ≡ attrs.old.items ++ symbol_attrs gatherings.now symbol) }
{
    for gathering in gatherings {
        if let Some(attr) = attr_of(gathering, SymId(symbol)) {
            attrs.push(attr)?;
        }
    }
    Ok(())
}

/// The attributes of symbols and cells.
pub fn all_attrs(
    alloc: Global,
    rows: &[SymbolRow],
    gatherings: &[Gathering],
) -> Result<Vec<ExtraAttr>, Memory>
    requires { length rows.now ≤ 512 }
    ensures { IfOk result (λ attrs. attrs.items ≡ all_attrs_of gatherings.now rows.now) }
{
    let mut attrs = Vec::new(alloc);
    for x in 0..rows.len() {
        push_symbol(&mut attrs, x as u16, gatherings)?;
    }
    Ok(attrs)
}

/// Whether the plain rule of that number is a written one that is no list.
fn is_whole(rules: &[RuleItem], k: usize) -> bool
    ensures { result ≡ is_whole_at rules.now k }
{
    match rules.get(k) {
        Some(rule) => !rule.list,
        None => false,
    }
}

/// The computation in the plain rule of that number, if its left side has the attribute.
fn comp_of(
    alloc: Global,
    gathering: &Gathering,
    number: u16,
    whole: bool,
    rule: &FlatRule,
) -> Result<Option<ExtraComp>, Memory>
    requires { length rule.now.right ≤ 1024 }
    ensures { IfOk result (λ comp. comp ≡ its_comp number whole rule.now gathering.now) }
{
    if !is_set(gathering.bearers.as_slice(), rule.left) {
        return Ok(None);
    }
    Ok(Some(ExtraComp {
        rule: RuleId(number),
        occ: 0,
        slot: Slot::Con(gathering.number),
        value: weight(alloc, gathering, whole, rule)?,
    }))
}

/// Adds the computations in the plain rule of that number.
fn push_rule(
    alloc: Global,
    comps: &mut Vec<ExtraComp>,
    number: u16,
    whole: bool,
    rule: &FlatRule,
    gatherings: &[Gathering],
) -> Result<(), Memory>
    requires { length rule.now.right ≤ 1024 }
    ensures { OnOk result (comps.new.items ≡ comps.old.items ++ rule_comps gatherings.now whole (number, rule.now)) }
{
    for gathering in gatherings {
        let made = comp_of(alloc, gathering, number, whole, rule)?;
        if let Some(comp) = made {
            comps.push(comp)?;
        }
    }
    Ok(())
}

/// The computations in all plain rules. `rules` are the written ones.
pub fn all_comps(
    alloc: Global,
    rules: &[RuleItem],
    plain: &[FlatRule],
    gatherings: &[Gathering],
) -> Result<Vec<ExtraComp>, Memory>
    requires { AreFew plain.now }
    ensures { IfOk result (λ comps. comps.items ≡ all_comps_of gatherings.now rules.now plain.now) }
{
    let mut comps = Vec::new(alloc);
    for (k, rule) in plain.iter().enumerate() {
        push_rule(
            alloc,
            &mut comps,
            k as u16,
            is_whole(rules, k),
            rule,
            gatherings,
        )?;
    }
    Ok(comps)
}
