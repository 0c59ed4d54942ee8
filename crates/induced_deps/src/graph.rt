//! The vertices of a rule.
ghost use Rattle.std.specs.Prelude.{◌≡◌, ◌≤◌, IfOk};
ghost use Rattle.flat_grammar.specs.Rules.{symbols_of};
ghost use Rattle.induced_deps.specs.Vertices.{ArePlaces, vertices, width};

use flat_grammar::{Flat, FlatRule, Occ};
use lido_base::{Memory, SymId};
use std::alloc::Global;

/// An occurrence of a rule: its symbol, the number of its first vertex, and how many it has.
#[derive(Clone, Copy, Debug)]
pub struct Place {
    pub symbol: SymId,
    pub offset: usize,
    pub width: usize,
}

/// How many attributes the symbol has.
fn width(flat: &Flat, symbol: SymId) -> usize
    ensures { result ≡ width flat.now.symbols symbol }
{
    match flat.symbols.as_slice().get(symbol.0 as usize) {
        Some(symbol) => symbol.attrs.len(),
        None => 0,
    }
}

/// The symbols at the occurrences of a rule, the left side first.
fn symbols_of(alloc: Global, rule: &FlatRule) -> Result<Vec<SymId>, Memory>
    ensures { IfOk result (λ symbols. symbols.items ≡ symbols_of rule.now) }
{
    let mut symbols = Vec::new(alloc);
    symbols.push(rule.left)?;
    symbols.extend_from_slice(rule.right.as_slice())?;
    Ok(symbols)
}

/// The occurrences of a rule in order, and how many vertices it has.
pub fn places_of(alloc: Global, flat: &Flat, rule: &FlatRule) -> Result<(Vec<Place>, usize), Memory>
    requires { vertices flat.now.symbols rule.now ≤ 1024 }
    ensures places { IfOk result (λ x. ArePlaces flat.now.symbols rule.now x.0.items) }
    ensures count { IfOk result (λ x. x.1 ≡ vertices flat.now.symbols rule.now) }
{
    let mut places = Vec::new(alloc);
    let mut offset = 0;
    for symbol in symbols_of(alloc, rule)?.as_slice() {
        let width = width(flat, *symbol);
        places.push(Place {
            symbol: *symbol,
            offset,
            width,
        })?;
        offset += width;
    }
    Ok((places, offset))
}
