//! What an expansion adds, as text: a line for each attribute, as `2.con1 out int`, and for each computation, as
//! `rule 3: 0.con1 = 1.con1 + null`. Symbols, rules and computations go by their numbers; `written 0` is an attribute of the text.
use lido_base::{Decimal, Kind, ValueType};
use rule_tables::{Extra, ExtraAttr, ExtraComp, Piece, Slot, SlotAt, Term};
use std::alloc::{AllocError, Global};

fn add(text: &mut Vec<u8>, words: &[u8]) -> Result<(), AllocError> {
    text.extend_from_slice(words)
}

fn add_number(text: &mut Vec<u8>, words: &[u8], number: u32) -> Result<(), AllocError> {
    add(text, words)?;
    add(text, Decimal::of(u64::from(number)).as_bytes())
}

fn add_slot(text: &mut Vec<u8>, slot: Slot) -> Result<(), AllocError> {
    match slot {
        Slot::Written(attribute) => add_number(text, b"written", u32::from(attribute.0)),
        Slot::Inc(set) => add_number(text, b"inc", set),
        Slot::Con(number) => add_number(text, b"con", number),
        Slot::Front(chain) => add_number(text, b"front", chain),
        Slot::Behind(chain) => add_number(text, b"behind", chain),
    }
}

fn add_place(text: &mut Vec<u8>, words: &[u8], at: SlotAt) -> Result<(), AllocError> {
    add_number(text, words, u32::from(at.occ))?;
    add(text, b".")?;
    add_slot(text, at.slot)
}

fn add_piece(text: &mut Vec<u8>, piece: &Piece) -> Result<(), AllocError> {
    match piece {
        Piece::Read(at) => add_place(text, b" ", *at),
        Piece::Single(at) => add_place(text, b" single ", *at),
        Piece::Null => add(text, b" null"),
    }
}

fn add_term(text: &mut Vec<u8>, term: &Term) -> Result<(), AllocError> {
    match term {
        Term::Read(at) => add_place(text, b" ", *at)?,
        Term::Copied(number) => add_number(text, b" copy ", *number)?,
        Term::Void(needed) => {
            add(text, b" void")?;
            for at in needed.as_slice() {
                add_place(text, b" ", *at)?;
            }
        }
        Term::Joined(number, pieces) => {
            add_number(text, b" join", *number)?;
            for piece in pieces.as_slice() {
                add_piece(text, piece)?;
            }
        }
    }
    Ok(())
}

fn kind_name(kind: Kind) -> &'static [u8] {
    match kind {
        Kind::Synthesized => b" up ",
        Kind::Inherited => b" down ",
    }
}

fn type_name(ty: ValueType) -> &'static [u8] {
    match ty {
        ValueType::Int => b"int",
        ValueType::Bool => b"bool",
        ValueType::Str => b"string",
        ValueType::Text => b"text",
        ValueType::Void => b"void",
    }
}

fn add_attribute(text: &mut Vec<u8>, attr: &ExtraAttr) -> Result<(), AllocError> {
    add_number(text, b"", u32::from(attr.sym.0))?;
    add(text, b".")?;
    add_slot(text, attr.slot)?;
    add(text, kind_name(attr.kind))?;
    add(text, type_name(attr.ty))?;
    add(text, b"\n")
}

fn add_computation(text: &mut Vec<u8>, comp: &ExtraComp) -> Result<(), AllocError> {
    add_number(text, b"rule ", u32::from(comp.rule.0))?;
    add_number(text, b": ", u32::from(comp.occ))?;
    add(text, b".")?;
    add_slot(text, comp.slot)?;
    add(text, b" =")?;
    add_term(text, &comp.value)?;
    add(text, b"\n")
}

/// All that is added, a line each.
pub fn shown(alloc: Global, extra: &Extra) -> Result<Vec<u8>, AllocError> {
    let mut text = Vec::new(alloc);
    for attr in extra.attrs.as_slice() {
        add_attribute(&mut text, attr)?;
    }
    for comp in extra.comps.as_slice() {
        add_computation(&mut text, comp)?;
    }
    Ok(text)
}
