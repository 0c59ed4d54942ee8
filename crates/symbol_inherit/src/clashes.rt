//! Computations of two classes that are left for one goal of a symbol.
ghost use Rattle.std.specs.Prelude.{◌≡◌, ◌↔◌, ℕ, IsTrue, Some, slice_get};
ghost use Rattle.lido_base.specs.Environment.{Environment};
ghost use Rattle.lido_syntax.specs.Symbols.{IsNonterminal};
ghost use Rattle.rule_tables.specs.declared.table.Tables.{Tables as Rows};
ghost use Rattle.rule_tables.specs.declared.table.SymbolClass.TheVariants as Classed;
ghost use Rattle.rule_tables.specs.Needs.{Tables as Numbered};
ghost use Rattle.rule_tables.specs.TablesOf.{named_symbols};
ghost use Rattle.computation_aims.specs.Aims.{goal_of};
ghost use Rattle.symbol_inherit.specs.Entries.{attrs_at, chain_kind, chain_way as way_of_chain, AreKnown};
ghost use Rattle.symbol_inherit.specs.Clashes.{kind_aim as aim_of_kind, AreNumbersIn, IsTwoOf, IsClashFor};
ghost use Rattle.symbol_inherit.specs.Clashes.{HasNoClash, IsClashOf, IsRowClash, IsFirstOfAll};

use crate::entries::{attributes, chain_way};
use crate::standing::{Standing, of_symbol};
use crate::symbols::Symbols;
use computation_aims::{Aim, Way};
use flat_grammar::FlatAttr;
use lido_base::{Kind, StrId};
use lido_syntax::Typed1;
use rule_tables::{SymbolClass, SymbolRow, Tables};

/// The places of two computations.
#[derive(Clone, Copy)]
pub struct Two {
    pub first: u32,
    pub second: u32,
}

/// The attribute or the chain of which computations of two classes are left.
#[derive(Clone, Copy)]
pub struct Clash {
    pub name: StrId,
    pub two: Two,
}

/// A clash, and its symbol.
#[derive(Clone, Copy)]
pub struct ClashAt {
    pub symbol: StrId,
    pub clash: Clash,
}

/// The places of the first two computations, if those of two classes are left for the aim of symbol `x`.
fn two_left(symbols: &Symbols, x: u16, aim: Aim) -> Option<Two>
    ensures { (env : Environment) (t : Rows) (T : Numbered t.spec) (s : ℕ) → AreKnown env t symbols.now
        → slice_get (named_symbols t) x ≡ Some s → IsTwoOf t.spec T s (goal_of aim) result }
{
    match of_symbol(&symbols.classes, &symbols.index, symbols.count, x, aim) {
        Standing::Clash { first, second } => Some(Two { first, second }),
        Standing::Missing => None,
        Standing::Computed(_) => None,
    }
}

/// The clash of an aim, if there is one.
fn clash_of(symbols: &Symbols, x: u16, aim: Aim) -> Option<Clash>
    ensures { (env : Environment) (t : Rows) (T : Numbered t.spec) (s : ℕ) → AreKnown env t symbols.now
        → slice_get (named_symbols t) x ≡ Some s → IsClashFor t.spec T s aim result }
{
    match two_left(symbols, x, aim) {
        Some(two) => Some(Clash {
            name: aim.name,
            two,
        }),
        None => None,
    }
}

/// An attribute of this kind as what is given a value to.
fn kind_aim(kind: Kind, name: StrId) -> Aim
    ensures { result ≡ aim_of_kind kind name }
{
    let way = match kind {
        Kind::Synthesized => Way::Synthesized,
        Kind::Inherited => Way::Inherited,
    };
    Aim { way, name }
}

/// The first clash of an attribute of the nonterminal `x`.
fn attribute_clash(symbols: &Symbols, x: u16, attrs: &[FlatAttr]) -> Option<Clash>
    ensures { (env : Environment) (t : Rows) (T : Numbered t.spec) (s : ℕ) → AreKnown env t symbols.now → AreNumbersIn t T
        → slice_get (named_symbols t) x ≡ Some s → IsNonterminal t.spec s → attrs_at t.symbols x ≡ attrs.now
        → IsClashOf t.spec T s 0 result }
{
    for attr in attrs {
        let aim = kind_aim(attr.kind, attr.name);
        if let Some(clash) = clash_of(symbols, x, aim) {
            return Some(clash);
        }
    }
    None
}

/// The first clash of a chain of the nonterminal `x`, of its start or of what is behind it.
fn chain_clash(symbols: &Symbols, x: u16, is_behind: bool, chains: &[Typed1]) -> Option<Clash>
    ensures { (env : Environment) (t : Rows) (T : Numbered t.spec) (s : ℕ) → AreKnown env t symbols.now
        → slice_get (named_symbols t) x ≡ Some s → IsNonterminal t.spec s → t.spec.chains ≡ chains.now
        → HasNoClash t.spec T s (chain_kind is_behind) → IsClashOf t.spec T s (chain_kind is_behind) result }
{
    for chain in chains {
        let way = chain_way(is_behind);
        let name = chain.name.id;
        if let Some(clash) = clash_of(symbols, x, Aim { way, name }) {
            return Some(clash);
        }
    }
    None
}

/// The first clash of the nonterminal `x`: of an attribute, else of the start of a chain, else of what is behind it in a chain.
fn symbol_clash(symbols: &Symbols, x: u16, attrs: &[FlatAttr], chains: &[Typed1]) -> Option<Clash>
    ensures { (env : Environment) (t : Rows) (T : Numbered t.spec) (s : ℕ) → AreKnown env t symbols.now → AreNumbersIn t T
        → slice_get (named_symbols t) x ≡ Some s → IsNonterminal t.spec s → attrs_at t.symbols x ≡ attrs.now
        → t.spec.chains ≡ chains.now → IsClashOf t.spec T s 2 result }
{
    if let Some(clash) = attribute_clash(symbols, x, attrs) {
        return Some(clash);
    }
    if let Some(clash) = chain_clash(symbols, x, false, chains) {
        return Some(clash);
    }
    chain_clash(symbols, x, true, chains)
}

/// Whether the row is that of a nonterminal.
fn is_nonterminal(row: &SymbolRow) -> bool
    ensures { IsTrue result ↔ (row.now.class ≡ Classed.Nonterminal) }
{
    match row.class {
        SymbolClass::Nonterminal => true,
        _ => false,
    }
}

/// The first clash of symbol `x`, which has none if it is no nonterminal.
fn row_clash(symbols: &Symbols, x: u16, row: &SymbolRow, chains: &[Typed1]) -> Option<ClashAt>
    ensures { (env : Environment) (t : Rows) (T : Numbered t.spec) (s : ℕ) → AreKnown env t symbols.now → AreNumbersIn t T
        → slice_get (named_symbols t) x ≡ Some s → slice_get t.symbols x ≡ Some row.now → t.spec.chains ≡ chains.now
        → IsRowClash t.spec T s result }
{
    if !is_nonterminal(row) {
        return None;
    }
    let attrs = row.attrs.as_slice();
    match symbol_clash(symbols, x, attrs, chains) {
        Some(clash) => Some(ClashAt {
            symbol: row.name,
            clash,
        }),
        None => None,
    }
}

/// The first clash of symbol `x`.
fn clash_at(tables: &Tables, symbols: &Symbols, x: u16) -> Option<ClashAt>
    ensures { (env : Environment) (T : Numbered tables.now.spec) (s : ℕ) → AreKnown env tables.now symbols.now
        → AreNumbersIn tables.now T → slice_get (named_symbols tables.now) x ≡ Some s → IsRowClash tables.now.spec T s result }
{
    let chains = tables.spec.chains.as_slice();
    let rows = tables.symbols.as_slice();
    match rows.get(x as usize) {
        Some(row) => row_clash(symbols, x, row, chains),
        None => None,
    }
}

/// The first clash, at the nonterminal of least number.
pub fn first_clash(tables: &Tables, symbols: &Symbols) -> Option<ClashAt>
    ensures { (env : Environment) (T : Numbered tables.now.spec) → AreKnown env tables.now symbols.now
        → AreNumbersIn tables.now T → IsFirstOfAll tables.now T result }
{
    for x in 0..symbols.count {
        if let Some(clash) = clash_at(tables, symbols, x) {
            return Some(clash);
        }
    }
    None
}
