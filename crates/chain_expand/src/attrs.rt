//! The attributes that chains add.
ghost use Rattle.std.specs.Prelude.{◌≡◌, ◌<◌, ◌≤◌, ◌^◌, ◌++◌, length, OnOk, IfOk};
ghost use Rattle.least_paths.specs.Graph.{is_in};
ghost use Rattle.chain_expand.specs.Attrs.{needs_at as needs_of, symbol_attrs, all_attrs as all_of};

use crate::children::is_needed;
use lido_base::{Kind, List, Memory, SymId};
use lido_syntax::Typed1;
use rule_tables::{ExtraAttr, Slot, SymbolRow};
use std::alloc::Global;

/// Who needs the chain that is declared at the place.
fn needs_at(needs: &[List<bool>], place: usize) -> &[bool]
    ensures { result.now ≡ needs_of needs.now place }
{
    match needs.get(place) {
        Some(row) => row.as_slice(),
        None => &[],
    }
}

/// Adds the attributes that a symbol has in the chains that it needs.
fn push_symbol(
    attrs: &mut Vec<ExtraAttr>,
    symbol: u16,
    chains: &[Typed1],
    needs: &[List<bool>],
) -> Result<(), Memory>
    requires { length chains.now ≤ 2 ^ 32 }
    ensures { OnOk result (attrs.new.items ≡ attrs.old.items ++ symbol_attrs needs.now chains.now symbol) }
{
    let sym = SymId(symbol);
    for (i, chain) in chains.iter().enumerate() {
        let place = i as u32;
        if is_needed(needs_at(needs, i), sym) {
            attrs.push(ExtraAttr {
                sym,
                slot: Slot::Front(place),
                kind: Kind::Inherited,
                ty: chain.ty,
            })?;
            attrs.push(ExtraAttr {
                sym,
                slot: Slot::Behind(place),
                kind: Kind::Synthesized,
                ty: chain.ty,
            })?;
        }
    }
    Ok(())
}

/// The attributes that symbols and cells have in the chains that they need.
pub fn all_attrs(
    alloc: Global,
    rows: &[SymbolRow],
    chains: &[Typed1],
    needs: &[List<bool>],
) -> Result<Vec<ExtraAttr>, Memory>
    requires rows { length rows.now ≤ 512 }
    requires chains { length chains.now ≤ 2 ^ 32 }
    ensures { IfOk result (λ attrs. attrs.items ≡ all_of needs.now chains.now rows.now) }
{
    let mut attrs = Vec::new(alloc);
    for x in 0..rows.len() {
        push_symbol(&mut attrs, x as u16, chains, needs)?;
    }
    Ok(attrs)
}
