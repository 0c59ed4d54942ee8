//! What the tests of texts share.
use crate::expressions::{NAMES, grammar};
use lido_base::Strings;
use std::alloc::{AllocError, Global};
use std::test::Fail;
use tree_reader::read_tree;
use tree_store::{TreeFault, Trees};

/// A table with the names of the grammar.
pub(crate) fn names(alloc: Global) -> Result<Strings, Fail> {
    let mut strings = Strings::new(alloc)?;
    for name in NAMES {
        strings.intern(name.as_bytes())?;
    }
    Ok(strings)
}

/// What a text gives.
pub(crate) fn read(alloc: Global, text: &[u8]) -> Result<Result<Trees, TreeFault>, Fail> {
    let mut strings = names(alloc)?;
    if text.len() > 8_388_608 || strings.len() > 1_000 {
        return Ok(Err(TreeFault::Memory));
    }
    Ok(read_tree(alloc, text, &grammar(alloc)?, &mut strings))
}

/// Adds a piece of text so many times.
fn push_times(text: &mut Vec<u8>, piece: &[u8], times: u32) -> Result<(), AllocError> {
    for _ in 0..times {
        text.extend_from_slice(piece)?;
    }
    Ok(())
}

/// A text of pieces, each so many times, and of so many closing brackets.
pub(crate) fn long_text(
    alloc: Global,
    pieces: &[(&[u8], u32)],
    ends: u32,
) -> Result<Vec<u8>, AllocError> {
    let mut text = Vec::new(alloc);
    for (piece, times) in pieces {
        push_times(&mut text, piece, *times)?;
    }
    push_times(&mut text, b")", ends)?;
    Ok(text)
}
