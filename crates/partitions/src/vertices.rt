//! The attribute occurrences of a rule, numbered in order.
ghost use Rattle.std.specs.Prelude.{◌≡◌, ◌<◌, ◌≤◌, ◌+◌, ◌^◌, ℕ, suc, Some, length, sum_by, slice_get, IfOk};
ghost use Rattle.lido_base.specs.declared.ids.SymId.{SymId as Symbol};
ghost use Rattle.flat_grammar.specs.Rules.{symbol_at, symbols_of, attrs_of};
ghost use Rattle.partitions.specs.RuleGraph.{AreVerticesBefore, AreNumbered};

use crate::peeling::attributes;
use flat_grammar::{Flat, FlatRule, Occ};
use lido_base::{AttrId, SymId};
use std::alloc::{AllocError, Global};

/// The attribute occurrences of a rule.
#[derive(Drop)]
pub struct Vertices {
    /// In order. A vertex has its place as its number.
    pub occs: Vec<Occ>,
    /// For each occurrence the number of its first attribute.
    pub starts: Vec<usize>,
}

/// The symbol at an occurrence.
pub fn symbol_of(rule: &FlatRule, k: usize) -> SymId
    requires { k < 1 + length rule.now.right }
    ensures { symbol_at rule.now k ≡ Some result }
{
    if k == 0 {
        rule.left
    } else {
        rule.right.as_slice()[k - 1]
    }
}

/// Adds the attributes of an occurrence.
fn push_occs(
    flat: &Flat,
    rule: &FlatRule,
    occs: &mut Vec<Occ>,
    starts: &[usize],
    k: usize,
) -> Result<(), AllocError>
    requires small { length rule.now.right < 2 ^ 16 }
    requires occurrence { k < 1 + length rule.now.right }
    requires before { AreVerticesBefore flat.now.symbols rule.now k 0 occs.old.items starts.now }
    requires start { slice_get starts.now k ≡ Some (length occs.old.items) }
    ensures before { IfOk result (λ _. AreVerticesBefore flat.now.symbols rule.now (k + 1) 0 occs.new.items starts.now) }
    ensures count { IfOk result (λ _. (x : Symbol) → symbol_at rule.now k ≡ Some x
        → length occs.new.items ≡ length occs.old.items + length (attrs_of flat.now.symbols x)) }
{
    let x = symbol_of(rule, k);
    for a in 0..attributes(flat, x).len() {
        occs.push(Occ {
            occ: k as u16,
            attr: AttrId(a as u16),
        })?;
    }
    Ok(())
}

/// The attribute occurrences of a rule.
pub fn vertices_of(alloc: Global, flat: &Flat, rule: &FlatRule) -> Result<Vertices, AllocError>
    requires small { length rule.now.right < 2 ^ 16 }
    requires few { sum_by (λ s. length (attrs_of flat.now.symbols s)) (symbols_of rule.now) ≤ 1024 }
    ensures { IfOk result (λ vertices. AreNumbered flat.now.symbols rule.now vertices.occs.items vertices.starts.items) }
{
    let mut occs = Vec::new(alloc);
    let mut starts = Vec::new(alloc);
    for k in 0..1 + rule.right.len() {
        starts.push(occs.len())?;
        push_occs(flat, rule, &mut occs, &starts, k)?;
    }
    Ok(Vertices { occs, starts })
}
