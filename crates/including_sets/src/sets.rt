//! The sets of the INCLUDINGs of a text.
ghost use Rattle.std.specs.Prelude.{◌≡◌, ◌≤◌, ◌<◌, [], map, length, Contains, IfOk};
ghost use Rattle.std.specs.List.{AllZip};
ghost use Rattle.lido_base.specs.Environment.{Environment};
ghost use Rattle.lido_symbols.specs.Uses.{all_includings};
ghost use Rattle.rule_tables.specs.ForcedOf.{AreForcedOf};
ghost use Rattle.need_graphs.specs.Clear.{AreWithin};
ghost use Rattle.remote_lists.specs.Listings.{AreSymbols};
ghost use Rattle.including_sets.specs.declared.sets.PairSet.{PairSet as Pairs};
ghost use Rattle.including_sets.specs.Made.{IsMade, IsCounted};
ghost use Rattle.including_sets.specs.Sets.{AreSetsOf};

use crate::keys::{all_listed_attrs, with_attrs};
use crate::listings::{Listing, computations, firsts};
use crate::types::set_type;
use crate::uses::sorted_uses;
use lido_base::{AttrId, List, Memory, ValueType};
use need_graphs::context_symbols;
use remote_lists::{Symbols, listed_rows, source_rows};
use rule_tables::Forced;
use std::alloc::Global;

/// A set of the INCLUDINGs that list the same attribute for each nonterminal, as the first of them has it.
#[derive(Drop)]
pub struct PairSet {
    /// For each symbol and cell whether an attribute is listed for it.
    pub listed: List<bool>,
    /// For each symbol and cell the attribute that is listed for it, by its number in the row.
    pub sources: List<Option<AttrId>>,
    /// The type of the attributes that are listed. Where none is, that of the first pair's attribute on the class that it names.
    pub ty: ValueType,
    /// For each symbol and cell whether a computation with an INCLUDING of the set is in force there.
    pub users: List<bool>,
}

/// The set of the INCLUDINGs that list the same as this one, which is the first.
fn pair_set(
    alloc: Global,
    forced: &Forced,
    symbols: &Symbols,
    listings: &[Listing],
    first: &Listing,
) -> Result<PairSet, Memory>
    requires { (env : Environment) × AreForcedOf env forced.now }
    ensures { IfOk result (IsMade forced.now symbols.now listings.now first.now) }
{
    let rows = forced.tables.symbols.as_slice();
    let pairs = first.one.pairs.as_slice();
    let listed = listed_rows(alloc, symbols, rows, pairs)?;
    let sources = source_rows(alloc, symbols, rows, pairs)?;
    let numbers = computations(alloc, listings, first)?;
    let users = context_symbols(alloc, forced, &numbers)?;
    Ok(PairSet {
        listed: List::from_vec(listed),
        sources: List::from_vec(sources),
        ty: set_type(symbols, pairs, rows),
        users: List::from_vec(users),
    })
}

/// The sets of these first INCLUDINGs.
fn all_sets(
    alloc: Global,
    forced: &Forced,
    symbols: &Symbols,
    listings: &[Listing],
    kept: &[Listing],
) -> Result<Vec<PairSet>, Memory>
    requires { (env : Environment) × AreForcedOf env forced.now }
    ensures { IfOk result (λ sets. AllZip (IsMade forced.now symbols.now listings.now) kept.now sets.items) }
{
    let mut sets = Vec::new(alloc);
    for first in kept {
        sets.push(pair_set(alloc, forced, symbols, listings, first)?)?;
    }
    Ok(sets)
}

/// The sets of the INCLUDINGs of the text, in the order of their numbers: two are one set if they list the same attribute for each
/// nonterminal, and a set stands where its first INCLUDING stands. It takes time linear in the symbols for each pair of the text,
/// in the INCLUDINGs for each set, and in the rules and the computations in force for each set.
pub fn sets_of(alloc: Global, forced: &Forced, symbols: &Symbols) -> Result<Vec<PairSet>, Memory>
    requires forced { (env : Environment) × AreForcedOf env forced.now }
    requires within { AreWithin forced.now.tables }
    requires symbols { AreSymbols forced.now.tables.spec symbols.now }
    ensures count { IfOk result (λ sets. (set : Pairs) → Contains sets.items set → IsCounted forced.now.tables set) }
    ensures few { IfOk result (λ sets. length sets.items ≤ length (all_includings forced.now.tables.spec)) }
    ensures exactly { IfOk result (λ sets. AreSetsOf forced.now symbols.now sets.items) }
{
    let rows = forced.tables.symbols.as_slice();
    let uses = sorted_uses(alloc, &forced.tables.spec)?;
    let attrs = all_listed_attrs(alloc, symbols, rows, &uses)?;
    let listings = with_attrs(alloc, &uses, &attrs)?;
    let kept = firsts(alloc, &listings)?;
    let sets = all_sets(alloc, forced, symbols, &listings, &kept)?;
    Ok(sets)
}
