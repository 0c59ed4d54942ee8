//! The attributes of INCLUDINGs, and their computations in plain rules.
ghost use Rattle.std.specs.Prelude.{◌≡◌, ◌<◌, ◌≤◌, ◌^◌, ◌++◌, length, IfOk, OnOk};
ghost use Rattle.need_graphs.specs.Clear.{AreFew};
ghost use Rattle.including_expand.specs.Extras.{needs_at as needs_of, symbol_attrs, all_attrs as all_attrs_of, handed as handed_of, child_comps, rule_comps, all_comps as all_comps_of};

use flat_grammar::FlatRule;
use including_sets::PairSet;
use lido_base::{Kind, List, Memory, RuleId, SymId};
use remote_lists::{is_set, source_at};
use rule_tables::{ExtraAttr, ExtraComp, Slot, SlotAt, SymbolRow, Term};
use std::alloc::Global;

/// Who needs the set of that number.
fn needs_at(needs: &[List<bool>], number: usize) -> &[bool]
    ensures { result.now ≡ needs_of needs.now number }
{
    match needs.get(number) {
        Some(row) => row.as_slice(),
        None => &[],
    }
}

/// Adds the attributes of a symbol: one for each set that it needs.
fn push_symbol(
    attrs: &mut Vec<ExtraAttr>,
    symbol: u16,
    sets: &[PairSet],
    needs: &[List<bool>],
) -> Result<(), Memory>
    requires { length sets.now ≤ 2 ^ 32 }
    ensures { OnOk result (attrs.new.items ≡ attrs.old.items ++ symbol_attrs needs.now sets.now symbol) }
{
    let sym = SymId(symbol);
    for (i, set) in sets.iter().enumerate() {
        let number = i as u32;
        if is_set(needs_at(needs, i), sym) {
            attrs.push(ExtraAttr {
                sym,
                slot: Slot::Inc(number),
                kind: Kind::Inherited,
                ty: set.ty,
            })?;
        }
    }
    Ok(())
}

/// The attributes of symbols and cells. `needs` tells for each set who needs it.
pub fn all_attrs(
    alloc: Global,
    rows: &[SymbolRow],
    sets: &[PairSet],
    needs: &[List<bool>],
) -> Result<Vec<ExtraAttr>, Memory>
    requires rows { length rows.now ≤ 512 }
    requires sets { length sets.now ≤ 2 ^ 32 }
    ensures { IfOk result (λ attrs. attrs.items ≡ all_attrs_of needs.now sets.now rows.now) }
{
    let mut attrs = Vec::new(alloc);
    for x in 0..rows.len() {
        push_symbol(&mut attrs, x as u16, sets, needs)?;
    }
    Ok(attrs)
}

/// What a left side hands down in the set of that number: the attribute that is listed for it, and where none is, what it was
/// handed itself.
fn handed(set: &PairSet, number: u32, left: SymId) -> Slot
    ensures { result ≡ handed_of number set.now left.0 }
{
    match source_at(set.sources.as_slice(), left) {
        Some(attribute) => Slot::Written(attribute),
        None => Slot::Inc(number),
    }
}

/// Adds the computations of a child, which is counted from 0: one for each set that it needs.
fn push_child(
    comps: &mut Vec<ExtraComp>,
    sets: &[PairSet],
    needs: &[List<bool>],
    rule: RuleId,
    left: SymId,
    j: usize,
    child: SymId,
) -> Result<(), Memory>
    requires few { length sets.now ≤ 2 ^ 32 }
    requires child { j < 1024 }
    ensures { OnOk result (comps.new.items ≡ comps.old.items ++ child_comps needs.now sets.now rule.0 left.0 (j, child)) }
{
    for (i, set) in sets.iter().enumerate() {
        let number = i as u32;
        if is_set(needs_at(needs, i), child) {
            comps.push(ExtraComp {
                rule,
                occ: (j + 1) as u16,
                slot: Slot::Inc(number),
                value: Term::Read(SlotAt {
                    occ: 0,
                    slot: handed(set, number, left),
                }),
            })?;
        }
    }
    Ok(())
}

/// Adds the computations in the plain rule of that number.
fn push_rule(
    comps: &mut Vec<ExtraComp>,
    sets: &[PairSet],
    needs: &[List<bool>],
    number: u16,
    rule: &FlatRule,
) -> Result<(), Memory>
    requires few { length sets.now ≤ 2 ^ 32 }
    requires right { length rule.now.right ≤ 1024 }
    ensures { OnOk result (comps.new.items ≡ comps.old.items ++ rule_comps needs.now sets.now (number, rule.now)) }
{
    let right = rule.right.as_slice();
    for (j, child) in right.iter().enumerate() {
        push_child(comps, sets, needs, RuleId(number), rule.left, j, *child)?;
    }
    Ok(())
}

/// The computations in all plain rules. `needs` tells for each set who needs it.
pub fn all_comps(
    alloc: Global,
    plain: &[FlatRule],
    sets: &[PairSet],
    needs: &[List<bool>],
) -> Result<Vec<ExtraComp>, Memory>
    requires few { AreFew plain.now }
    requires sets { length sets.now ≤ 2 ^ 32 }
    ensures { IfOk result (λ comps. comps.items ≡ all_comps_of needs.now sets.now plain.now) }
{
    let mut comps = Vec::new(alloc);
    for (k, rule) in plain.iter().enumerate() {
        push_rule(&mut comps, sets, needs, k as u16, rule)?;
    }
    Ok(comps)
}
