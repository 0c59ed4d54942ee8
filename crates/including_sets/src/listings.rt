//! INCLUDINGs that list the same: the first of each, and the computations in which they stand.
ghost use Rattle.std.specs.Prelude.{◌≡◌, [], map, filter, IfOk};
ghost use Rattle.std.specs.List.{list_any};
ghost use Rattle.including_sets.specs.Firsts.{firsts as firsts_of};
ghost use Rattle.including_sets.specs.Listings.{is_same_listing, computation_of};

use crate::uses::Use;
use lido_base::{List, Memory, StrId, SymId};
use std::alloc::Global;

/// An attribute that is listed for a nonterminal.
#[derive(Clone, Copy, Debug, PartialEq, Eq)]
pub struct ListedAttr {
    pub sym: SymId,
    pub attr: StrId,
}

/// An INCLUDING with what it lists for the nonterminals, in the order of their numbers.
#[derive(Clone, Copy)]
pub struct Listing<'a> {
    pub one: Use<'a>,
    pub attrs: &'a List<ListedAttr>,
}

/// Whether the INCLUDINGs list the same for each nonterminal.
fn is_same(one: &Listing, other: &Listing) -> bool
    ensures { result ≡ is_same_listing one.now other.now }
{
    one.attrs.as_slice() == other.attrs.as_slice()
}

/// Whether one of these lists the same.
fn is_known(known: &[Listing], one: &Listing) -> bool
    ensures { result ≡ list_any (λ other. is_same_listing other one.now) known.now }
{
    known.iter().any(|other| is_same(other, one))
}

/// Those in front of which none lists the same. It takes time linear in their number for each of those that are kept.
pub fn firsts<'a>(alloc: Global, listings: &[Listing<'a>]) -> Result<Vec<Listing<'a>>, Memory>
    ensures { IfOk result (λ kept. kept.items ≡ firsts_of is_same_listing [] listings.now) }
{
    let mut kept = Vec::new(alloc);
    for one in listings {
        if !is_known(&kept, one) {
            kept.push(*one)?;
        }
    }
    Ok(kept)
}

/// The numbers of the computations in which the INCLUDINGs stand that list the same.
pub fn computations(alloc: Global, listings: &[Listing], one: &Listing) -> Result<Vec<u32>, Memory>
    ensures { IfOk result (λ numbers. numbers.items ≡ map computation_of (filter (λ other. is_same_listing one.now other) listings.now)) }
{
    let mut numbers = Vec::new(alloc);
    for other in listings {
        if is_same(one, other) {
            numbers.push(other.one.comp)?;
        }
    }
    Ok(numbers)
}
