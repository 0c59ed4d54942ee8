//! What the check finds wrong with a plan.
use lido_base::{Memory, RuleId};

/// Why a plan isn't accepted.
#[derive(Clone, Copy, Debug, PartialEq, Eq)]
pub enum CheckFault {
    /// The plan isn't sound. This is its first fault, by rule, place and clause.
    Unsound {
        /// The rule whose sequence has it, the first one where the visits or the number of sequences are wrong.
        rule: RuleId,
        /// The place in the sequence, from 0; the sequence's length where its end is the fault. It has 32 bits whatever the plan:
        /// before its first fault a sequence evaluates at most 1,024 goals, and makes fewer than 2^16 visits of each of at most
        /// 2^16 symbols, since an item names a visit by 16 bits.
        place: u32,
        /// The clause that is broken, from 0 to 5.
        clause: u32,
    },
    /// Want of memory.
    Memory,
}

/// The first fault of a sequence.
#[derive(Clone, Copy)]
pub struct SequenceFault {
    /// The place in the sequence, from 0; the length where the end is the fault.
    pub place: u32,
    /// The clause that is broken.
    pub clause: u32,
}

impl From<Memory> for CheckFault {
    ghost use Rattle.std.specs.Prelude.{◌≡◌};
    ghost use Rattle.sequence_checker.specs.declared.fault.CheckFault.TheVariants.{Memory as OutOfMemory};

    ghost from_gives = { λ _ e. e ≡ OutOfMemory };

    fn from(_: Memory) -> Self {
        CheckFault::Memory
    }
}
