//! How a call ends.
ghost use Rattle.std.specs.Prelude.{◌≡◌};
ghost use Rattle.order_report.specs.Statuses.{exit_of};

use lido_base::WordKind;
use lido_syntax::SpecFault;

/// One of the two sinks.
#[derive(Clone, Copy, Debug, PartialEq, Eq)]
pub enum Which {
    /// The sink of the text.
    Out,
    /// The sink of fault lines.
    Err,
}

/// How a call ended.
///
/// The faults of cycles, of trees, of split words and of evaluation join these once they can come.
#[derive(Debug, Drop)]
pub enum Status {
    /// The command's whole text stands on `out`.
    Done,
    /// The command's word with this index, from 0, is the first faulty one. The index of a missing word is the one that it
    /// would have.
    Words { index: u64, kind: WordKind },
    /// The source failed.
    ReadFault,
    /// That sink failed after it took the first `written` bytes of its text.
    WriteFault { sink: Which, written: u64 },
    /// The input has more than 8,388,608 bytes.
    InputTooLong,
    /// No line of the input is `%%PTG`.
    NoPtg,
    /// No line behind the first that is `%%PTG` is `%%TREE`.
    NoTree,
    /// The specification or the patterns have this fault first.
    Spec(SpecFault),
    /// No memory was found.
    Memory,
    /// The command or the job has a form that is not built yet.
    FirstPathOnly,
}

impl Status {
    /// The exit status of the program.
    pub fn exit(&self) -> u8
        ensures { result ≡ exit_of self.now }
    {
        match self {
            Status::Done => 0,
            Status::Words { .. } => 1,
            Status::ReadFault => 2,
            Status::WriteFault { .. } => 3,
            Status::InputTooLong => 4,
            Status::NoPtg => 5,
            Status::NoTree => 6,
            Status::Spec(_) => 7,
            Status::Memory => 12,
            Status::FirstPathOnly => 13,
        }
    }
}
