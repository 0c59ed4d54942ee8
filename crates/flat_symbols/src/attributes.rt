//! The attributes of a symbol of the flat grammar.
ghost use Rattle.std.specs.Prelude.{◌≡◌, nat_eq, find, length, IfOk};
ghost use Rattle.std.specs.List.{AllZip};
ghost use Rattle.std.specs.Option.{option_copied};
ghost use Rattle.std.specs.List.Sorted.{IsStrictlyIncreasing};
ghost use Rattle.lido_base.specs.Environment.{Environment};
ghost use Rattle.lido_base.specs.Texts.{Gains};
ghost use Rattle.lido_syntax.specs.Functions.{text_of};
ghost use Rattle.flat_grammar.specs.declared.flat.FlatAttr.{FlatAttr as OneAttr};
ghost use Rattle.flat_symbols.specs.Attributes.{name_text, IsBelow, added_kind, added_type, is_named as named, is_message_slot};
ghost use Rattle.flat_symbols.specs.Attributes.{written_in, IsAddedAttr, IsMade, AreAddedOf};

use crate::constituents::Numbers;
use crate::names::{named_after, numbered};
use crate::types::Types;
use flat_grammar::FlatAttr;
use flat_slots::Slot;
use lido_base::{Kind, Memory, StrId, Strings, ValueType};
use rule_tables::{Extra, Tables};
use std::alloc::Global;

/// What tells the names and types of the attributes that are added.
#[derive(Drop)]
pub struct Added {
    /// The types of INCLUDINGs, by the numbers of their sets.
    pub includings: Types,
    /// The types of CONSTITUENTS, by their numbers.
    pub constituents: Types,
    /// The types of chains, by the ids of their names.
    pub chains: Types,
    /// The CONSTITUENTS of the text.
    pub numbers: Numbers,
}

impl Added {
    /// What the tables and expansions tell.
    pub fn of(
        alloc: Global,
        tables: &Tables,
        including: &Extra,
        constituents: &Extra,
    ) -> Result<Added, Memory>
        ensures { IfOk result (AreAddedOf tables.now including.now constituents.now) }
    {
        Ok(Added {
            includings: Types::of_includings(alloc, including.attrs.as_slice())?,
            constituents: Types::of_constituents(alloc, constituents.attrs.as_slice())?,
            chains: Types::of_chains(alloc, tables.spec.chains.as_slice())?,
            numbers: Numbers::of(alloc, &tables.spec)?,
        })
    }

    /// The type of an attribute that is added.
    fn type_of(&self, slot: Slot) -> ValueType
        ensures { result ≡ added_type self.now slot }
    {
        match slot {
            Slot::Inc(set) => self.includings.get(set),
            Slot::Con(number) => self.constituents.get(number),
            Slot::Front(chain) | Slot::Behind(chain) => self.chains.get(chain.0),
            Slot::Msg(_) | Slot::Out => ValueType::Text,
            Slot::Written(_) => ValueType::Void,
        }
    }
}

/// The name of an attribute. Names that are not there yet are added to the texts.
fn slot_name(
    alloc: Global,
    strings: &mut Strings,
    numbers: &Numbers,
    slot: Slot,
) -> Result<StrId, Memory>
    ensures name { IfOk result (λ id. (env : Environment) → IsBelow (length strings.old) slot → IsStrictlyIncreasing numbers.now.list
        → Gains strings.new env.texts → text_of env id.0 ≡ name_text env numbers.now.list slot) }
    ensures kept { Gains strings.old strings.new }
{
    match slot {
        Slot::Written(name) => Ok(name),
        Slot::Inc(set) => numbered(alloc, strings, b"$inc", u64::from(set) + 1),
        Slot::Con(number) => numbered(alloc, strings, b"$con", numbers.place(number) as u64 + 1),
        Slot::Front(chain) => named_after(alloc, strings, b"$front_", chain),
        Slot::Behind(chain) => named_after(alloc, strings, b"$behind_", chain),
        Slot::Msg(number) => numbered(alloc, strings, b"$msg", number as u64),
        Slot::Out => Ok(strings.intern(b"$out")?),
    }
}

/// The kind of an attribute that is added.
fn kind_of(slot: Slot) -> Kind
    ensures { result ≡ added_kind slot }
{
    match slot {
        Slot::Inc(_) | Slot::Front(_) => Kind::Inherited,
        Slot::Written(_) | Slot::Con(_) | Slot::Behind(_) | Slot::Msg(_) | Slot::Out =>
            Kind::Synthesized,
    }
}

/// Whether a Bad value of the attribute is a fault of the evaluation.
fn is_named(slot: Slot) -> bool
    ensures { result ≡ named slot }
{
    matches!(slot, Slot::Written(_) | Slot::Msg(_) | Slot::Out)
}

/// Whether the attribute is a message.
fn is_message(slot: Slot) -> bool
    ensures { result ≡ is_message_slot slot }
{
    matches!(slot, Slot::Msg(_))
}

/// The attribute of that name among these.
fn found(attrs: &[FlatAttr], name: StrId) -> Option<&FlatAttr>
    ensures { option_copied result ≡ find (λ (x : OneAttr). nat_eq x.name.0 name.0) attrs.now }
{
    attrs.iter().find(|attr| attr.name == name)
}

/// The attribute of that name among the written ones of a symbol, which has it.
fn written(attrs: &[FlatAttr], name: StrId) -> FlatAttr
    ensures { result ≡ written_in attrs.now name }
{
    match found(attrs, name) {
        Some(attr) => *attr,
        None => FlatAttr {
            name,
            kind: Kind::Synthesized,
            ty: ValueType::Void,
            written: true,
            message: false,
        },
    }
}

/// An attribute that is added.
fn added_attribute(
    alloc: Global,
    strings: &mut Strings,
    added: &Added,
    slot: Slot,
) -> Result<FlatAttr, Memory>
    ensures attr { IfOk result (λ attr. (env : Environment) → Gains strings.new env.texts
        → IsAddedAttr env (length strings.old) added.now slot attr) }
    ensures kept { Gains strings.old strings.new }
{
    Ok(FlatAttr {
        name: slot_name(alloc, strings, &added.numbers, slot)?,
        kind: kind_of(slot),
        ty: added.type_of(slot),
        written: is_named(slot),
        message: is_message(slot),
    })
}

/// An attribute of a symbol that has these written ones.
fn attribute(
    alloc: Global,
    strings: &mut Strings,
    added: &Added,
    attrs: &[FlatAttr],
    slot: Slot,
) -> Result<FlatAttr, Memory>
    ensures attr { IfOk result (λ attr. (env : Environment) → Gains strings.new env.texts
        → IsMade env (length strings.old) added.now attrs.now slot attr) }
    ensures kept { Gains strings.old strings.new }
{
    match slot {
        Slot::Written(name) => Ok(written(attrs, name)),
        _ => added_attribute(alloc, strings, added, slot),
    }
}

/// The attributes of a symbol that has these written ones, in order.
pub fn attributes_of(
    alloc: Global,
    strings: &mut Strings,
    added: &Added,
    attrs: &[FlatAttr],
    slots: &[Slot],
) -> Result<Vec<FlatAttr>, Memory>
    ensures attrs { IfOk result (λ made. (env : Environment) → Gains strings.new env.texts
        → AllZip (IsMade env (length strings.old) added.now attrs.now) slots.now made.items) }
    ensures kept { Gains strings.old strings.new }
{
    let mut made = Vec::new(alloc);
    for slot in slots {
        made.push(attribute(alloc, strings, added, attrs, *slot)?)?;
    }
    Ok(made)
}
