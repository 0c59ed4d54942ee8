//! The tables of a specification.
use flat_grammar::{FlatAttr, FlatRule, Shape};
use lido_base::{List, StrId, SymId, ValueType};
use lido_syntax::Spec;

/// A specification with its symbols, attributes and plain rules.
#[derive(Debug, Drop)]
pub struct Tables {
    pub spec: Spec,
    /// By number: the symbols by the places where their names first stand as symbols, and behind them the cells in the
    /// order of their rules.
    pub symbols: List<SymbolRow>,
    /// The nonterminal that stands on no right side.
    pub root: SymId,
    /// The plain rules: the written ones in order, then for each list those of its cell. They have no computations yet.
    pub plain: List<FlatRule>,
    /// One for each written rule, in order.
    pub shapes: List<Shape>,
}

/// A symbol with its written attributes.
#[derive(Debug, Drop)]
pub struct SymbolRow {
    /// Its name. A cell is called by its rule, `$` in front.
    pub name: StrId,
    pub class: SymbolClass,
    /// By the places where their names first stand in the text. A class has those that it hands to its heirs.
    pub attrs: List<FlatAttr>,
    /// The classes that its items name behind INHERITS, by number, each once.
    pub classes: List<SymId>,
}

/// What a symbol is.
#[derive(Clone, Copy, Debug, PartialEq, Eq)]
pub enum SymbolClass {
    Nonterminal,
    /// With the type of its value, `Int` or `Str`.
    Terminal(ValueType),
    Class,
    /// The symbol of a list's cells.
    Cell,
}
