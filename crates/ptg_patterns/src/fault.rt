//! Why a text gives no patterns.
ghost use Rattle.std.specs.Prelude.{◌≡◌};
ghost use Rattle.ptg_patterns.specs.declared.fault.PtgFault.TheVariants.{Memory};

use std::alloc::{AllocError, AllocFailed};
use thiserror::Error;

/// Why a text gives no patterns. Places count its bytes from 0.
#[derive(Clone, Copy, Debug, PartialEq, Eq, Error)]
pub enum PtgFault {
    /// What stands here fits no pattern; at the text's length, something is missing there.
    #[error("what stands at byte {at} fits no pattern")]
    PtgSyntax { at: u32 },
    /// The name here is that of an earlier pattern, or one that every text has.
    #[error("the pattern at byte {at} has a name that is taken")]
    PtgDuplicate { at: u32 },
    /// The point here does not agree with an earlier one of its pattern.
    #[error("the point at byte {at} does not agree with an earlier one")]
    PtgMixed { at: u32 },
    #[error("out of memory")]
    Memory,
}

impl<T: Drop> From<AllocFailed<T>> for PtgFault {
    ghost from_gives = { λ _ e. e ≡ Memory };

    fn from(_: AllocFailed<T>) -> Self {
        PtgFault::Memory
    }
}

impl From<AllocError> for PtgFault {
    ghost from_gives = { λ _ e. e ≡ Memory };

    fn from(_: AllocError) -> Self {
        PtgFault::Memory
    }
}
