//! Which symbols are elements of which lists: a table that is made once, so that no child looks along all elements of its list.
ghost use Rattle.std.specs.Prelude.{◌≡◌, ◌≢◌, ◌<◌, ℕ, true, false, [], length, slice_index_or, IfOk};
ghost use Rattle.std.specs.List.{list_any};
ghost use Rattle.flat_grammar.specs.WellFormed.{is_same_symbol};
ghost use Rattle.tree_reader.specs.Elements.{AreMarked, AreElementRows};

use flat_grammar::{Flat, Shape};
use lido_base::{List, SymId};
use std::alloc::{AllocError, Global};

/// The symbol is among these.
fn is_among(symbols: &[SymId], symbol: SymId) -> bool
    ensures { result ≡ list_any (is_same_symbol symbol) symbols.now }
{
    symbols.iter().any(|q| symbol.0 == q.0)
}

/// Marks a symbol, if the row has it.
fn mark(row: &mut Vec<bool>, s: usize)
    ensures each { length row.new.items ≡ length row.old.items }
    ensures here { s < length row.old.items → slice_index_or row.new.items s false ≡ true }
    ensures others { (m : ℕ) → m ≢ s → slice_index_or row.new.items m false ≡ slice_index_or row.old.items m false }
{
    if s < row.len() {
        row[s] = true;
    }
}

/// Whether each of so many symbols is among these.
fn marked(alloc: Global, elements: &[SymId], count: usize) -> Result<Vec<bool>, AllocError>
    ensures { IfOk result (λ row. AreMarked elements.now row.items) }
{
    let mut row = vec![in alloc; false; count]?;
    for element in elements {
        mark(&mut row, element.0 as usize);
    }
    Ok(row)
}

/// Whether each symbol is an element of the list; nothing where the shape is no list's.
fn element_row(alloc: Global, flat: &Flat, shape: &Shape) -> Result<List<bool>, AllocError>
    ensures { IfOk result (λ row. AreMarked shape.now.right row) }
{
    if !shape.list {
        return Ok(List::new(alloc));
    }
    let row = marked(alloc, shape.right.as_slice(), flat.symbols.len())?;
    Ok(List::from_vec(row))
}

/// The row of each shape.
pub fn element_rows(alloc: Global, flat: &Flat) -> Result<Vec<List<bool>>, AllocError>
    ensures { IfOk result (λ rows. AreElementRows flat.now.shapes rows.items) }
{
    let mut rows = Vec::new(alloc);
    for shape in flat.shapes.as_slice() {
        let row = element_row(alloc, flat, shape)?;
        rows.push(row)?;
    }
    Ok(rows)
}

/// The row of a shape.
pub fn row_at(rows: &[List<bool>], k: usize) -> &[bool]
    requires { k < length rows.now }
    ensures { result.now ≡ slice_index_or rows.now k [] }
{
    rows[k].as_slice()
}

/// The symbol is among the elements: by their row, or anew where that has no such symbol.
pub fn is_element(row: &[bool], elements: &[SymId], symbol: SymId) -> bool
    requires { AreMarked elements.now row.now }
    ensures { result ≡ list_any (is_same_symbol symbol) elements.now }
{
    let s = symbol.0 as usize;
    if s < row.len() {
        row[s]
    } else {
        is_among(elements, symbol)
    }
}
