//! The visits of all symbols, where no rule has a cycle.
ghost use Rattle.std.specs.Prelude.{IfOk, IfErr};
ghost use Rattle.flat_grammar.specs.Dependencies.{AreInducedRows};
ghost use Rattle.flat_grammar.specs.Partition.{AreAllVisits};
ghost use Rattle.flat_grammar.specs.Cycles.{IsOrderedGrammar};
ghost use Rattle.partitions.specs.Parts.{HasCycle};

use crate::rule_cycle::rule_cycle;
use crate::symbols::partition_symbols;
use flat_grammar::{Cycle, Deps, Flat, Parts};
use lido_base::{Memory, RuleId};
use std::alloc::{AllocError, Global};

/// Why there are no visits.
#[derive(Debug, Drop)]
pub enum PartFault {
    /// The extended dependencies of a rule have a cycle.
    Circular(Cycle),
    /// Want of memory.
    Memory,
}

impl From<AllocError> for PartFault {
    ghost use Rattle.std.specs.Prelude.{◌≡◌};
    ghost use Rattle.partitions.specs.declared.parts.PartFault.TheVariants.{Memory};

    ghost from_gives = { λ _ fault. fault ≡ Memory };

    fn from(_: AllocError) -> Self {
        PartFault::Memory
    }
}

impl From<Memory> for PartFault {
    ghost use Rattle.std.specs.Prelude.{◌≡◌};
    ghost use Rattle.partitions.specs.declared.parts.PartFault.TheVariants.{Memory as OutOfMemory};

    ghost from_gives = { λ _ fault. fault ≡ OutOfMemory };

    fn from(_: Memory) -> Self {
        PartFault::Memory
    }
}

/// The visits of each symbol of a grammar with these induced dependencies. `Circular` comes exactly where the extended
/// dependencies of a rule have a cycle: it is one of the first such rule. The partition is that of Kastens (1980), with the
/// peeling and the edges between all classes as our own.
pub fn partition(alloc: Global, flat: &Flat, deps: &Deps) -> Result<Parts, PartFault>
    requires { AreInducedRows flat.now.symbols flat.now.rules deps.now.ids }
    ensures visits { IfOk result (λ parts. AreAllVisits flat.now.symbols flat.now.rules parts.visits) }
    ensures ordered { IfOk result (λ _. IsOrderedGrammar flat.now.symbols flat.now.rules) }
    ensures circular { IfErr result (λ fault. HasCycle flat.now.symbols flat.now.rules fault) }
{
    let parts = partition_symbols(alloc, flat, deps)?;
    for i in 0..flat.rules.len() {
        let rule = &flat.rules.as_slice()[i];
        match rule_cycle(alloc, flat, deps, &parts.later, rule)? {
            None => {}
            Some(steps) => {
                return Err(PartFault::Circular(Cycle {
                    rule: RuleId(i as u16),
                    steps,
                }));
            }
        }
    }
    Ok(Parts {
        visits: parts.visits,
    })
}
