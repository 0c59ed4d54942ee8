//! What a computation counts while it is read.
ghost use Rattle.std.specs.Prelude.{◌≡◌, ◌+◌, IfOk, IfErr};
ghost use Rattle.lido_computations.specs.Counting.{spent};

use crate::ReadSpecFault;

/// What is left to spend, and which number comes next.
#[derive(Clone, Copy, Debug, PartialEq, Eq)]
pub struct Counts {
    /// How many operators, calls and opening parentheses may still come in the computation.
    pub budget: u32,
    /// The number of the next computation or CONSTITUENTS.
    pub number: u32,
}

/// One operator, call or parenthesis less to come, if there may be one.
pub(crate) fn spend(counts: Counts) -> Option<Counts>
    ensures { result ≡ spent counts }
{
    match counts.budget {
        0 => None,
        budget => Some(Counts {
            budget: budget - 1,
            number: counts.number,
        }),
    }
}

/// The number behind this one. There are 2^32 numbers; a want of them is a want of memory.
pub(crate) fn number_behind(number: u32) -> Result<u32, ReadSpecFault>
    ensures next { IfOk result (λ next. next ≡ number + 1) }
    ensures memory { IfErr result (λ fault. fault ≡ ReadSpecFault.Memory) }
{
    match number.checked_add(1) {
        Some(next) => Ok(next),
        None => Err(ReadSpecFault::Memory),
    }
}
