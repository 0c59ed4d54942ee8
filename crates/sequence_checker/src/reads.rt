//! Whether a computation's dependencies are at hand.
ghost use Rattle.std.specs.Prelude.{◌≡◌, ◌++◌, suc, IfOk, OnOk, flat_map, map, sum_by};
ghost use Rattle.std.specs.List.{list_all};
ghost use Rattle.flat_grammar.specs.Rules.{dependencies, reads};
ghost use Rattle.flat_grammar.specs.Expressions.{own_reads, weight};
ghost use Rattle.sequence_checker.specs.Steps.{is_at_hand};

use crate::progress::Progress;
use flat_grammar::{FlatComp, FlatExpr, Occ, arguments, push_all};
use lido_base::Memory;
use std::alloc::Global;

impl Progress {
    /// Whether all these are at hand.
    fn has_each(&self, occurrences: &[Occ]) -> bool
        ensures { result ≡ list_all (is_at_hand self.now) occurrences.now }
    {
        occurrences.iter().all(|o| self.is_at_hand(*o))
    }

    /// Whether what the expression reads by itself is at hand.
    fn has_read(&self, value: &FlatExpr) -> bool
        ensures { result ≡ list_all (is_at_hand self.now) (own_reads value.now) }
    {
        match value {
            FlatExpr::Read(o) => self.is_at_hand(*o),
            _ => true,
        }
    }

    /// Whether all that the expression reads is at hand.
    fn has_reads(&self, alloc: Global, value: &FlatExpr) -> Result<bool, Memory>
        ensures { IfOk result (λ all. all ≡ list_all (is_at_hand self.now) (reads value.now)) }
    {
        let mut rest = Vec::new(alloc);
        rest.push(value)?;
        while let Some(next) = rest.pop() {
            if !self.has_read(next) {
                return Ok(false);
            }
            push_all(&mut rest, arguments(next))?;
        }
        Ok(true)
    }

    /// Whether all that the computation depends on is at hand.
    pub fn has_dependencies(&self, alloc: Global, comp: &FlatComp) -> Result<bool, Memory>
        ensures { IfOk result (λ all. all ≡ list_all (is_at_hand self.now) (dependencies comp.now)) }
    {
        Ok(self.has_reads(alloc, &comp.value)? && self.has_each(comp.after.as_slice()))
    }
}
