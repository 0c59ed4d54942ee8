//! Which symbols are named, and which are cells.
ghost use Rattle.std.specs.Prelude.{◌≡◌, ℕ, Bool, Some, IfOk, slice_get};
ghost use Rattle.std.specs.List.{list_any};
ghost use Rattle.flat_grammar.specs.WellFormed.{is_same_symbol};
ghost use Rattle.flat_grammar.specs.FlatTrees.{is_cell as is_cell_symbol};
ghost use Rattle.subtree_split.specs.SplitNodes.{is_split_symbol};

use flat_grammar::{Flat, cell_of};
use lido_base::SymId;
use std::alloc::{AllocError, Global};

/// Whether the symbol is the cell of a list.
pub fn is_cell(flat: &Flat, symbol: SymId) -> bool
    ensures { result ≡ is_cell_symbol flat.now.rules flat.now.shapes symbol }
{
    flat.shapes
        .as_slice()
        .iter()
        .any(|shape| shape.list && symbol.0 == cell_of(flat, shape).0)
}

/// Whether the symbol is among these.
fn is_among(names: &[SymId], symbol: SymId) -> bool
    ensures { result ≡ list_any (is_same_symbol symbol) names.now }
{
    names.iter().any(|name| symbol.0 == name.0)
}

/// Whether nodes of the symbol can be split: it is named, and no cell.
pub fn is_split(flat: &Flat, names: &[SymId], symbol: SymId) -> bool
    ensures { result ≡ is_split_symbol flat.now.symbols flat.now.rules flat.now.shapes names.now symbol }
{
    is_among(names, symbol) && !is_cell(flat, symbol)
}

/// Whether nodes of each symbol can be split.
pub fn split_symbols(alloc: Global, flat: &Flat, names: &[SymId]) -> Result<Vec<bool>, AllocError>
    ensures { IfOk result (λ splits. (s : ℕ) (splits_s : Bool) → slice_get splits.items s ≡ Some splits_s
        → splits_s ≡ is_split_symbol flat.now.symbols flat.now.rules flat.now.shapes names.now (record { 0 = s })) }
{
    let mut splits = Vec::new(alloc);
    for s in 0..flat.symbols.len() {
        splits.push(is_split(flat, names, SymId(s as u16)))?;
    }
    Ok(splits)
}
