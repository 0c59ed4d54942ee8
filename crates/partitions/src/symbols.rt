//! The visits of all symbols.
ghost use Rattle.std.specs.Prelude.{◌≡◌, ◌<◌, length, IfOk};
ghost use Rattle.lido_base.specs.declared.ids.SymId.{SymId as Symbol};
ghost use Rattle.flat_grammar.specs.WellFormed.{is_nonterminal as is_nonterminal_symbol};
ghost use Rattle.flat_grammar.specs.Dependencies.{AreInducedRows};
ghost use Rattle.flat_grammar.specs.Partition.{AreAllVisits};
ghost use Rattle.partitions.specs.Peeling.{AreRows, AreLaterRows};
ghost use Rattle.partitions.specs.Symbols.{rows_at, IsAllPeeled, AreItsVisits, HasLast, AreAllLaterRows};

use crate::classes::{later_rows, visits_of};
use crate::peeling::peel;
use flat_grammar::{Bits, Deps, Flat, VisitClass};
use lido_base::{List, SymId};
use std::alloc::{AllocError, Global};

/// The visits of a symbol.
#[derive(Drop)]
struct SymbolParts {
    visits: List<VisitClass>,
    /// For each attribute those in later classes.
    later: List<Bits>,
}

/// The visits of all symbols.
#[derive(Drop)]
pub struct AllParts {
    pub visits: List<List<VisitClass>>,
    /// For each symbol and attribute the attributes in later classes.
    pub later: List<List<Bits>>,
}

/// Whether the symbol is a nonterminal.
fn is_nonterminal(flat: &Flat, x: SymId) -> bool
    ensures { result ≡ is_nonterminal_symbol flat.now.symbols x }
{
    match flat.symbols.as_slice().get(x.0 as usize) {
        Some(symbol) => symbol.terminal.is_none(),
        None => false,
    }
}

/// The rows of a symbol, or none where there are none.
pub fn rows_of(rows: &List<List<Bits>>, x: SymId) -> &[Bits]
    ensures { result.now ≡ rows_at rows.now x.0 }
{
    match rows.as_slice().get(x.0 as usize) {
        Some(rows) => rows.as_slice(),
        None => &[],
    }
}

/// The visits of a symbol, with the rows of its induced dependencies.
fn partition_symbol(
    alloc: Global,
    flat: &Flat,
    x: SymId,
    rows: &[Bits],
) -> Result<SymbolParts, AllocError>
    requires { AreRows flat.now.symbols flat.now.rules x rows.now }
    ensures visits { IfOk result (λ parts. IsAllPeeled flat.now.symbols flat.now.rules x
        → AreItsVisits flat.now.symbols flat.now.rules x parts.visits) }
    ensures later { IfOk result (λ parts. AreLaterRows flat.now.symbols flat.now.rules x parts.later) }
    ensures last { IfOk result (λ parts. HasLast flat.now.symbols flat.now.rules x) }
{
    let all = peel(alloc, flat, x, rows)?;
    let later = later_rows(alloc, flat, x, &all)?;
    if !is_nonterminal(flat, x) {
        return Ok(SymbolParts {
            visits: List::new(alloc),
            later,
        });
    }
    let visits = visits_of(alloc, &all)?;
    Ok(SymbolParts { visits, later })
}

/// The visits of each symbol, where each attribute is in some class, and for each attribute those in later classes.
pub fn partition_symbols(alloc: Global, flat: &Flat, deps: &Deps) -> Result<AllParts, AllocError>
    requires { AreInducedRows flat.now.symbols flat.now.rules deps.now.ids }
    ensures visits { IfOk result (λ parts. ((x : Symbol) → IsAllPeeled flat.now.symbols flat.now.rules x)
        → AreAllVisits flat.now.symbols flat.now.rules parts.visits) }
    ensures later { IfOk result (λ parts. AreAllLaterRows flat.now.symbols flat.now.rules parts.later) }
    ensures last { IfOk result (λ parts. (x : Symbol) → HasLast flat.now.symbols flat.now.rules x) }
{
    let mut visits = Vec::new(alloc);
    let mut later = Vec::new(alloc);
    for x in 0..flat.symbols.len() {
        let id = SymId(x as u16);
        let parts = partition_symbol(alloc, flat, id, rows_of(&deps.ids, id))?;
        visits.push(parts.visits)?;
        later.push(parts.later)?;
    }
    Ok(AllParts {
        visits: List::from_vec(visits),
        later: List::from_vec(later),
    })
}
