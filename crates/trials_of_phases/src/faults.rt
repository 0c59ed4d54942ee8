//! Tests of what no contract says: that the definitions put each fault where a writer of specifications looks for it.
use crate::forced_of;
use crate::rows::{ATTRIBUTES, CHAINS, IN_FORCE, INDICES, RULES, SYMBOLS, TWICE, UNKNOWN};
use lido_base::{Decimal, StrId, Strings};
use lido_syntax::SpecFault;
use std::alloc::{AllocError, Global};
use std::test::Fail;

fn add(line: &mut Vec<u8>, words: &[u8]) -> Result<(), AllocError> {
    line.extend_from_slice(words)
}

fn add_number(line: &mut Vec<u8>, words: &[u8], number: u32) -> Result<(), AllocError> {
    add(line, words)?;
    add(line, Decimal::of(u64::from(number)).as_bytes())
}

fn add_name(
    line: &mut Vec<u8>,
    words: &[u8],
    strings: &Strings,
    name: StrId,
) -> Result<(), AllocError> {
    add(line, words)?;
    if (name.0 as usize) < strings.len() {
        add(line, strings.bytes(name))?;
    }
    Ok(())
}

/// Adds a fault of which only the kind and the place are told.
fn add_placed(line: &mut Vec<u8>, fault: &SpecFault) -> Result<(), AllocError> {
    match fault {
        SpecFault::UnknownSymbol { at } => add_number(line, b"UnknownSymbol at ", *at),
        SpecFault::DuplicateRule { at } => add_number(line, b"DuplicateRule at ", *at),
        SpecFault::RootNotOne { count } => add_number(line, b"RootNotOne count ", *count),
        SpecFault::KindClash { at } => add_number(line, b"KindClash at ", *at),
        SpecFault::BadIndex { at } => add_number(line, b"BadIndex at ", *at),
        SpecFault::DoubleComputation { at } => add_number(line, b"DoubleComputation at ", *at),
        SpecFault::BadOut { at } => add_number(line, b"BadOut at ", *at),
        SpecFault::Syntax { at } => add_number(line, b"Syntax at ", *at),
        SpecFault::UnknownFunction { at } => add_number(line, b"UnknownFunction at ", *at),
        SpecFault::ArgCount { at } => add_number(line, b"ArgCount at ", *at),
        SpecFault::TypeMismatch { at } => add_number(line, b"TypeMismatch at ", *at),
        _ => add(line, b"another"),
    }
}

/// Adds a path of classes.
fn add_path(line: &mut Vec<u8>, strings: &Strings, path: &[StrId]) -> Result<(), AllocError> {
    for name in path {
        add_name(line, b" ", strings, *name)?;
    }
    Ok(())
}

/// The fault as its line has it.
pub fn told(alloc: Global, strings: &Strings, fault: &SpecFault) -> Result<Vec<u8>, AllocError> {
    let mut line = Vec::new(alloc);
    match fault {
        SpecFault::ClassCycle { path } => {
            add(&mut line, b"ClassCycle")?;
            add_path(&mut line, strings, path.as_slice())?;
        }
        SpecFault::ClashInherited {
            sym,
            attr,
            first,
            second,
        } => {
            add_name(&mut line, b"ClashInherited ", strings, *sym)?;
            add_name(&mut line, b".", strings, *attr)?;
            add_number(&mut line, b" at ", *first)?;
            add_number(&mut line, b" and ", *second)?;
        }
        SpecFault::MissingComputation { rule, occ, attr } => {
            add_name(&mut line, b"MissingComputation in ", strings, *rule)?;
            add_number(&mut line, b" of ", u32::from(*occ))?;
            add_name(&mut line, b".", strings, *attr)?;
        }
        _ => add_placed(&mut line, fault)?,
    }
    Ok(line)
}

/// The first fault of the specification that the text is, as its line has it; nothing where it has none.
fn fault_of(alloc: Global, text: &[u8]) -> Result<Vec<u8>, Fail> {
    if text.len() > 8_388_608 {
        return Err(Fail::from(AllocError));
    }
    let mut strings = Strings::new(alloc)?;
    match forced_of(alloc, text, &mut strings) {
        Ok(_) => Ok(Vec::new(alloc)),
        Err(fault) => Ok(told(alloc, &strings, &fault)?),
    }
}

#[test]
fn first_faults(rt: HostRuntime) -> Result<(), Fail> {
    let alloc = rt.alloc();
    let groups: [&[(&[u8], &[u8])]; 8] = [
        &UNKNOWN,
        &RULES,
        &SYMBOLS,
        &ATTRIBUTES,
        &CHAINS,
        &INDICES,
        &TWICE,
        &IN_FORCE,
    ];
    for group in groups {
        for (text, line) in group {
            let found = fault_of(alloc, text)?;
            assert_eq!(rt; found.as_slice(), *line);
        }
    }
    Ok(())
}
