//! Tests of types.
ghost use Rattle.std.specs.Prelude.{IfOk};
ghost use Rattle.expr_types.specs.Functions.{AreNamedIn};

use crate::check_text;
use crate::faults::told;
use crate::type_rows::{CALLS, MISTYPED, ORDERS, REMOTE, TYPED};
use lido_base::{Patterns, Strings};
use ptg_patterns::read_patterns;
use std::alloc::{AllocError, Global};
use std::test::Fail;

const PATTERNS: &[u8] = b"Two: $ int \" \" $ int";

/// The patterns of all specifications here.
fn patterns(alloc: Global, strings: &mut Strings) -> Result<Patterns, Fail>
    ensures { IfOk result (λ patterns. AreNamedIn strings.new patterns.list) }
{
    let patterns = read_patterns(alloc, PATTERNS, strings)?;
    if patterns.list.len() > 1 {
        return Err(Fail::from(AllocError));
    }
    Ok(patterns)
}

/// The first fault up to types of the specification that the text is, as its line has it; nothing where it has none.
fn fault_of(alloc: Global, text: &[u8]) -> Result<Vec<u8>, Fail> {
    if text.len() > 8_388_608 {
        return Err(Fail::from(AllocError));
    }
    let mut strings = Strings::new(alloc)?;
    let patterns = patterns(alloc, &mut strings)?;
    match check_text(alloc, text, &patterns, &mut strings) {
        Ok(()) => Ok(Vec::new(alloc)),
        Err(fault) => Ok(told(alloc, &strings, &fault)?),
    }
}

#[test]
fn first_faults_of_types(rt: HostRuntime) -> Result<(), Fail> {
    let alloc = rt.alloc();
    let groups: [&[(&[u8], &[u8])]; 5] = [&TYPED, &MISTYPED, &CALLS, &REMOTE, &ORDERS];
    for group in groups {
        for (text, line) in group {
            let found = fault_of(alloc, text)?;
            assert_eq!(rt; found.as_slice(), *line);
        }
    }
    Ok(())
}
