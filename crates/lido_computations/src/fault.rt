//! Why tokens are no specification.
ghost use Rattle.std.specs.Prelude.{◌≡◌};
ghost use Rattle.lido_computations.specs.declared.fault.ReadSpecFault.TheVariants.{Memory};

use lido_base::Memory as NoMemory;
use std::alloc::{AllocError, AllocFailed};
use thiserror::Error;

/// Why the reader gave no syntax tree.
#[derive(Clone, Copy, Debug, PartialEq, Eq, Error)]
pub enum ReadSpecFault {
    /// What stands before this place, counted in bytes from 0, begins a specification, and with the token here it begins
    /// none; where the text ends here, it is none.
    #[error("no specification goes on with what stands at byte {at}")]
    Syntax { at: u32 },
    #[error("out of memory")]
    Memory,
}

impl<T: Drop> From<AllocFailed<T>> for ReadSpecFault {
    ghost from_gives = { λ _ e. e ≡ Memory };

    fn from(_: AllocFailed<T>) -> Self {
        ReadSpecFault::Memory
    }
}

impl From<AllocError> for ReadSpecFault {
    ghost from_gives = { λ _ e. e ≡ Memory };

    fn from(_: AllocError) -> Self {
        ReadSpecFault::Memory
    }
}

impl From<NoMemory> for ReadSpecFault {
    ghost from_gives = { λ _ e. e ≡ Memory };

    fn from(_: NoMemory) -> Self {
        ReadSpecFault::Memory
    }
}
