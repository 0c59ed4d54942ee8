//! The computations that read a chain.
ghost use Rattle.std.specs.Prelude.{◌≡◌, IfOk};
ghost use Rattle.std.specs.List.{list_any};
ghost use Rattle.lido_syntax.specs.Parts.{leaves_of};
ghost use Rattle.need_graphs.specs.Reads.{is_tail_place, reads};

use lido_base::{Memory, StrId};
use lido_symbols::leaves;
use lido_syntax::{Comp, Expr, Place};
use std::alloc::Global;

/// Whether the place is TAIL.
fn is_tail(place: &Place) -> bool
    ensures { result ≡ is_tail_place place.now }
{
    match place {
        Place::Tail => true,
        Place::Named(..) | Place::Synt | Place::Inh | Place::This => false,
    }
}

/// Whether the leaf reads the chain. Where the chain starts in the rule, TAIL is not the rule's own.
fn is_read_of(chain: StrId, starts: bool, leaf: &Expr) -> bool
    ensures { result ≡ reads chain.0 starts leaf.now }
{
    match leaf {
        Expr::Read(_, place, name) => name.id == chain && !(is_tail(place) && starts),
        Expr::Int(..)
        | Expr::Str(..)
        | Expr::Bool(..)
        | Expr::Terminal(..)
        | Expr::Including(..)
        | Expr::Constituents(_)
        | Expr::Call(..) => false,
    }
}

/// Whether one of the leaves reads the chain.
fn has_read(chain: StrId, starts: bool, found: &[&Expr]) -> bool
    ensures { result ≡ list_any (λ e. reads chain.0 starts e.now) found.now }
{
    found.iter().any(|leaf| is_read_of(chain, starts, leaf))
}

/// Whether the computation reads the chain, where `starts` tells whether the chain starts in its plain rule: what TAIL reads
/// there comes from the start. An `Err` is want of memory.
pub fn reads_chain(alloc: Global, comp: &Comp, chain: StrId, starts: bool) -> Result<bool, Memory>
    ensures { IfOk result (λ found. found ≡ list_any (reads chain.0 starts) (leaves_of comp.now)) }
{
    let found = leaves(alloc, comp)?;
    Ok(has_read(chain, starts, &found))
}
