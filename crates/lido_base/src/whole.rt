//! Whole texts in and out.
ghost use Rattle.std.specs.Prelude.{◌≡◌, ◌<◌, ◌≤◌, ◌+◌, ℕ, List, length, take, IfOk, IfErr, OnOk, OnErr, IsErrOf};
ghost use Rattle.std.specs.Io.KnownBytes.{Consumes, Appends};
ghost use Rattle.lido_base.specs.Causes.{Rose};
ghost use Rattle.lido_base.specs.Inputs.{most, TakesAll, TakesTooMany, TakesAtMost};

use crate::{Failed, Sink, Source};
use std::alloc::{AllocError, Global};
use thiserror::Error;

const TOO_MANY: usize = 8_388_609;

const PIECE: usize = 4096;

/// Why a source was not read to its end.
#[derive(Clone, Copy, Debug, PartialEq, Eq, Error)]
pub enum ReadAllFault {
    /// The source failed.
    #[error("the source failed")]
    ReadFault,
    /// The source has more than 8,388,608 bytes.
    #[error("the input has more than 8388608 bytes")]
    InputTooLong,
    #[error("no memory")]
    Memory,
}

/// The sink failed, after it took this many of the bytes.
#[derive(Clone, Copy, Debug, PartialEq, Eq)]
pub struct WriteFault {
    pub written: u64,
}

/// All the bytes up to the source's end, which has no more than 8,388,608. Once the source has answered that nothing is left,
/// it is not asked again.
pub fn read_all<S: Source>(alloc: Global, src: &mut S) -> Result<Vec<u8>, ReadAllFault>
    ensures all { IfOk result (λ v. TakesAll (S.left src.old) (S.left src.new) v.items) }

    // The source failed in this call, and 8,388,609 bytes were not taken.
    ensures fault { IsErrOf result ReadAllFault.ReadFault → Rose (S.faults src.old) (S.faults src.new) }
    ensures part { IsErrOf result ReadAllFault.ReadFault → TakesAtMost most (S.left src.old) (S.left src.new) }

    ensures too_long { IsErrOf result ReadAllFault.InputTooLong → TakesTooMany (S.left src.old) (S.left src.new) }
    ensures no_memory { IsErrOf result ReadAllFault.Memory → TakesAtMost (most + 1) (S.left src.old) (S.left src.new) }
    ensures later { S.faults src.old ≤ S.faults src.new }
{
    let mut bytes = Vec::new(alloc);
    let mut piece = [0u8; PIECE];
    while bytes.len() < TOO_MANY {
        let room = (TOO_MANY - bytes.len()).min(PIECE);
        let Ok(count) = src.read(&mut piece[..room]) else {
            return Err(ReadAllFault::ReadFault);
        };
        if count == 0 {
            return Ok(bytes);
        }
        if bytes.extend_from_slice(&piece[..count]).is_err() {
            return Err(ReadAllFault::Memory);
        }
    }
    Err(ReadAllFault::InputTooLong)
}

/// Hands over all the bytes. After a fault the sink has taken the first `written` of them, and not all.
pub fn write_all<K: Sink>(sink: &mut K, bytes: &[u8]) -> Result<(), WriteFault>
    ensures all { OnOk result (Appends (K.written sink.old) (K.written sink.new) bytes.now) }
    ensures part { IfErr result (λ e. Appends (K.written sink.old) (K.written sink.new) (take e.written bytes.now)) }
    ensures short { IfErr result (λ e. e.written < length bytes.now) }
    ensures fault { OnErr result (Rose (K.faults sink.old) (K.faults sink.new)) }
    ensures later { K.faults sink.old ≤ K.faults sink.new }
{
    let mut done = 0usize;
    while done < bytes.len() {
        match sink.write(&bytes[done..]) {
            Ok(count) => done += count,
            Err(Failed) => {
                return Err(WriteFault {
                    written: done as u64,
                });
            }
        }
    }
    Ok(())
}
