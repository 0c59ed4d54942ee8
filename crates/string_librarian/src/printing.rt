//! What is left to print of a text, deposit by deposit and part by part.
ghost use Rattle.std.specs.Prelude.{◌≡◌, ◌+◌, ◌<◌, ◌^◌};
ghost use Rattle.string_librarian.specs.Printing.{advanced as one_further};

use lido_base::{Desc, StrId};

/// A deposit that is being printed: the first of its parts that is not printed yet, and whether its braces are printed.
#[derive(Clone, Copy)]
pub struct Pending {
    pub desc: Desc,
    pub next: usize,
    pub braces: bool,
}

/// What is written next: nothing, a string or a number.
#[derive(Clone, Copy)]
pub enum Output {
    Nothing,
    Bytes(StrId),
    Number(i64),
}

/// What comes next of a deposit: its end, an output or an inserted text.
#[derive(Clone, Copy)]
pub enum Shown {
    End,
    Print(Output),
    Enter(Desc),
}

impl Pending {
    /// The same deposit, one part further.
    pub fn advanced(self) -> Pending
        requires { self.next + 1 < 2 ^ 64 }
        ensures { result ≡ one_further self }
    {
        Pending {
            desc: self.desc,
            next: self.next + 1,
            braces: self.braces,
        }
    }
}
