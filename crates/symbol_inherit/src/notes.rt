//! Computations with what they give values to, as they stand in the text.
ghost use Rattle.std.specs.Prelude.{◌≡◌, ◌++◌, ◌≤◌, IfOk, OnOk, length};
ghost use Rattle.symbol_inherit.specs.Notes.{body_notes, numbered_notes, item_notes, all_notes};

use crate::numbers::symbol_number;
use computation_aims::{Aim, symbol_aim};
use lido_base::Memory;
use lido_syntax::{Comp, SymbolItem};
use rule_tables::SymbolRow;
use std::alloc::Global;

/// A computation: its number, and the place of its first byte.
#[derive(Clone, Copy)]
pub struct Own {
    pub number: u32,
    pub at: u32,
}

/// A computation and what it gives a value to.
#[derive(Clone, Copy)]
pub struct Note {
    /// The symbol in whose body it stands, or the occurrence in whose rule.
    pub place: usize,
    pub aim: Aim,
    pub own: Own,
}

/// Notes the computations of a symbol's body.
fn note_body(notes: &mut Vec<Note>, symbol: u16, body: &[Comp]) -> Result<(), Memory>
    ensures { OnOk result (notes.new.items ≡ notes.old.items ++ body_notes symbol body.now) }
{
    for comp in body {
        if let Some(aim) = symbol_aim(&comp.target) {
            let own = Own {
                number: comp.number,
                at: comp.at,
            };
            notes.push(Note {
                place: symbol as usize,
                aim,
                own,
            })?;
        }
    }
    Ok(())
}

/// Notes the computations of a symbol's body, if the symbol has a number.
fn note_numbered(notes: &mut Vec<Note>, symbol: Option<u16>, body: &[Comp]) -> Result<(), Memory>
    ensures { OnOk result (notes.new.items ≡ notes.old.items ++ numbered_notes body.now symbol) }
{
    match symbol {
        Some(symbol) => note_body(notes, symbol, body),
        None => Ok(()),
    }
}

/// Notes the computations of an item, once for each of its symbols.
fn note_item(notes: &mut Vec<Note>, rows: &[SymbolRow], item: &SymbolItem) -> Result<(), Memory>
    requires { length rows.now ≤ 65536 }
    ensures { OnOk result (notes.new.items ≡ notes.old.items ++ item_notes rows.now item.now) }
{
    for name in item.names.as_slice() {
        note_numbered(notes, symbol_number(rows, name.id), item.body.as_slice())?;
    }
    Ok(())
}

/// The computations of all bodies of symbols and classes.
pub fn symbol_notes(
    alloc: Global,
    rows: &[SymbolRow],
    items: &[SymbolItem],
) -> Result<Vec<Note>, Memory>
    requires { length rows.now ≤ 65536 }
    ensures { IfOk result (λ notes. notes.items ≡ all_notes rows.now items.now) }
{
    let mut notes = Vec::new(alloc);
    for item in items {
        note_item(&mut notes, rows, item)?;
    }
    Ok(notes)
}
