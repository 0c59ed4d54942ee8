//! What INCLUDINGs list for the nonterminals.
ghost use Rattle.std.specs.Prelude.{◌≡◌, ◌≤◌, List as Sequence, map, length, IfOk};
ghost use Rattle.std.specs.List.{AllZip};
ghost use Rattle.including_sets.specs.declared.listings.ListedAttr.{ListedAttr as Attr};
ghost use Rattle.including_sets.specs.declared.uses.Use.{Use as One};
ghost use Rattle.including_sets.specs.Keys.{attr_at, listed_in, listed_attrs as attrs_of, IsListing};

use crate::listings::{ListedAttr, Listing};
use crate::uses::Use;
use lido_base::{List, Memory, StrId, SymId};
use lido_syntax::Pair;
use remote_lists::{Symbols, is_nonterminal, listed};
use rule_tables::SymbolRow;
use std::alloc::Global;

/// The attribute of that name, if there is one, of the symbol of that number.
fn attr_of(sym: SymId, attr: Option<StrId>) -> Option<ListedAttr>
    ensures { result ≡ attr_at sym.0 attr }
{
    match attr {
        Some(attr) => Some(ListedAttr { sym, attr }),
        None => None,
    }
}

/// The attribute that the pairs list for the symbol of that number, if it is a nonterminal.
fn listed_at(symbols: &Symbols, pairs: &[Pair], sym: SymId, row: &SymbolRow) -> Option<ListedAttr>
    ensures { result ≡ listed_in symbols.now pairs.now (sym.0, row.now) }
{
    if is_nonterminal(row.class) {
        return attr_of(sym, listed(symbols, pairs, row));
    }
    None
}

/// The attributes that the pairs list for the nonterminals, in the order of their numbers.
fn listed_attrs(
    alloc: Global,
    symbols: &Symbols,
    rows: &[SymbolRow],
    pairs: &[Pair],
) -> Result<List<ListedAttr>, Memory>
    requires { length rows.now ≤ 512 }
    ensures { IfOk result (λ attrs. attrs ≡ attrs_of symbols.now rows.now pairs.now) }
{
    let mut attrs = Vec::new(alloc);
    for (x, row) in rows.iter().enumerate() {
        if let Some(attr) = listed_at(symbols, pairs, SymId(x as u16), row) {
            attrs.push(attr)?;
        }
    }
    Ok(List::from_vec(attrs))
}

/// For each INCLUDING the attributes that it lists for the nonterminals. It takes time linear in the symbols for each pair.
pub fn all_listed_attrs(
    alloc: Global,
    symbols: &Symbols,
    rows: &[SymbolRow],
    uses: &[Use],
) -> Result<Vec<List<ListedAttr>>, Memory>
    requires { length rows.now ≤ 512 }
    ensures { IfOk result (λ all. all.items ≡ map (λ one. attrs_of symbols.now rows.now one.pairs.now) uses.now) }
{
    let mut all = Vec::new(alloc);
    for one in uses {
        all.push(listed_attrs(alloc, symbols, rows, one.pairs.as_slice())?)?;
    }
    Ok(all)
}

/// The INCLUDINGs with what they list. `attrs` has a list for each.
pub fn with_attrs<'a>(
    alloc: Global,
    uses: &[Use<'a>],
    attrs: &'a [List<ListedAttr>],
) -> Result<Vec<Listing<'a>>, Memory>
    requires { length attrs.now ≡ length uses.now }
    ensures { IfOk result (λ all. (f : One → Sequence Attr) → attrs.now ≡ map f uses.now → AllZip (IsListing f) uses.now all.items) }
{
    let mut all = Vec::new(alloc);
    for (k, one) in uses.iter().enumerate() {
        all.push(Listing {
            one: *one,
            attrs: &attrs[k],
        })?;
    }
    Ok(all)
}
