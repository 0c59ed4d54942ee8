//! What can be wrong with the text of a tree.
ghost use Rattle.std.specs.Prelude.{◌≡◌};
ghost use Rattle.tree_store.specs.declared.fault.TreeFault.TheVariants.{Memory as NoMemory};

use lido_base::{Many, Memory};

/// Why a text gives no tree. Places are byte offsets into the tree's text, from 0.
#[derive(Clone, Copy, Debug, PartialEq, Eq)]
pub enum TreeFault {
    /// The text leaves the language of bracketed trees there first.
    TreeSyntax { at: u32 },
    /// The name there is no rule's.
    UnknownRule { at: u32 },
    /// The first node's rule, named there, has not the root on its left.
    WrongRoot { at: u32 },
    /// The child that stands or ends there is not what the rule of its node has next, or one is missing there.
    WrongChild { at: u32 },
    /// There is too much of something.
    TooMany { what: Many },
    /// Want of memory.
    Memory,
}

impl From<Memory> for TreeFault {
    ghost from_gives = { λ _ e. e ≡ NoMemory };

    fn from(_: Memory) -> Self {
        TreeFault::Memory
    }
}
