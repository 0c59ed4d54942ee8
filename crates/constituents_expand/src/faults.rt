//! The CONSTITUENTS that lack a WITH.
ghost use Rattle.std.specs.Prelude.{◌≡◌};
ghost use Rattle.kind_clashes.specs.Least.{IsFirst, Among};
ghost use Rattle.constituents_expand.specs.Uses.{told};
ghost use Rattle.constituents_expand.specs.Faults.{lists_value as lists, is_plain, lacks_with as lacks, IsLackAt};

use crate::listings::{gives_value, listed};
use crate::symbols::Symbols;
use crate::uses::Use;
use kind_clashes::earlier;
use lido_syntax::Pair;
use rule_tables::SymbolRow;

/// Whether the pairs list for some nonterminal an attribute that isn't VOID.
fn lists_value(symbols: &Symbols, rows: &[SymbolRow], pairs: &[Pair]) -> bool
    ensures { result ≡ lists symbols.now rows.now pairs.now }
{
    rows.iter()
        .any(|row| gives_value(row, listed(symbols, pairs, row)))
}

/// Whether the CONSTITUENTS has no WITH, and its value is used.
fn is_bare(one: &Use) -> bool
    ensures { result ≡ is_plain (told one.now) }
{
    match one.constituents.with {
        None => one.valued,
        Some(_) => false,
    }
}

/// Whether the CONSTITUENTS lacks a WITH: it has none, its value is used, and it lists an attribute that isn't VOID.
fn lacks_with(symbols: &Symbols, rows: &[SymbolRow], one: &Use) -> bool
    ensures { result ≡ lacks symbols.now rows.now (told one.now) }
{
    is_bare(one) && lists_value(symbols, rows, one.constituents.pairs.as_slice())
}

/// Its place, if it lacks a WITH.
fn lack_at(symbols: &Symbols, rows: &[SymbolRow], one: &Use) -> Option<u32>
    ensures { IsFirst (IsLackAt symbols.now rows.now (told one.now)) result }
{
    if lacks_with(symbols, rows, one) {
        Some(one.constituents.at)
    } else {
        None
    }
}

/// The least of the places of the CONSTITUENTS that lack a WITH. It takes time linear in the symbols for each pair.
pub fn least_lack(symbols: &Symbols, rows: &[SymbolRow], uses: &[Use]) -> Option<u32>
    ensures { IsFirst (Among (λ u. IsLackAt symbols.now rows.now (told u)) uses.now) result }
{
    let mut found = None;
    for one in uses {
        found = earlier(found, lack_at(symbols, rows, one));
    }
    found
}
