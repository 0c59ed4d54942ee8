//! The written attributes of symbols, with their kinds and types.
ghost use Rattle.std.specs.Prelude.{◌≡◌, ◌++◌, ◌∷◌, [], ℕ, nat_eq, if◌then◌else◌, option_to_list, Contains, IfOk, OnOk, List as Sequence};
ghost use Rattle.std.specs.List.{AllZip};
ghost use Rattle.lido_syntax.specs.declared.spec.Spec.{Spec as Specification};
ghost use Rattle.lido_symbols.specs.FromText.{IsFromText};
ghost use Rattle.lido_symbols.specs.Numbers.{AreNumbered};
ghost use Rattle.lido_symbols.specs.Uses.{attribute_uses};
ghost use Rattle.kind_clashes.specs.Sets.{AreNameSets};
ghost use Rattle.symbol_attributes.specs.declared.facts.Said.{Said as Saying};
ghost use Rattle.symbol_attributes.specs.Inheritance.{AreNumberedIn, IsInheritance};
ghost use Rattle.symbol_attributes.specs.Facts.{said, AreSums, IsTableOf, AreSaidOn};
ghost use Rattle.symbol_attributes.specs.Written.{AreAttributesOf, AreFactsOf, AreOwners, IsAttributeAt, known_by_attr, written_attribute};

use crate::facts::{AttrTable, FactTable, Facts, joined};
use crate::inheritance::Inheritance;
use crate::named::named_attributes;
use crate::rows::SaidTables;
use crate::said::all_said;
use flat_grammar::FlatAttr;
use kind_clashes::{NameSets, Names as Attributes};
use lido_base::{Kind, List, Memory, StrId, ValueType};
use lido_symbols::{Names, attribute_numbers};
use lido_syntax::Spec;
use std::alloc::Global;

/// Adds the symbol, if it is to be added.
fn push_where(list: &mut Vec<u32>, is_added: bool, symbol: u32) -> Result<(), Memory>
    ensures { OnOk result (list.new.items ≡ list.old.items ++ (if is_added then symbol ∷ [] else [])) }
{
    if is_added {
        list.push(symbol)?;
    }
    Ok(())
}

/// The symbol, and behind it the classes that it inherits.
fn with_classes(
    alloc: Global,
    numbers: &Names,
    inheritance: &Inheritance,
    symbol: u32,
) -> Result<Vec<u32>, Memory>
    ensures { IfOk result (λ list. (spec : Specification) → AreNumberedIn numbers.now spec.symbols
        → IsInheritance spec numbers.now inheritance.now → AreOwners spec symbol list.items) }
{
    let mut list = vec![in alloc; symbol]?;
    let x = numbers.number(StrId(symbol));
    for class in numbers.as_slice() {
        let is_inherited = inheritance.inherits(x, numbers.number(StrId(*class)));
        push_where(&mut list, is_inherited, *class)?;
    }
    Ok(list)
}

/// What is said of the attribute on any of these symbols, if something is.
fn facts_on(table: &FactTable, symbols: &[u32], attribute: u32) -> Option<Facts>
    ensures { (list : Sequence Saying) → IsTableOf list table.now
        → AreSums (λ f. (s : ℕ) × Contains symbols.now s × Contains list (said s attribute f)) result }
{
    let mut found = None;
    for symbol in symbols {
        found = joined(found, table.find(*symbol, attribute));
    }
    found
}

/// What declarations say of the attribute of any symbol.
fn facts_by_attr(by_attr: &AttrTable, attribute: u32) -> Facts
    ensures { result ≡ known_by_attr by_attr.now attribute }
{
    match by_attr.find(attribute) {
        Some(facts) => facts,
        None => Facts {
            ty: None,
            kind: None,
            told: None,
        },
    }
}

/// The attribute, of which this is said: of the symbol and its classes, and by ATTR.
fn written(attribute: u32, facts: Facts, by_attr: Facts) -> FlatAttr
    ensures { result ≡ written_attribute attribute facts by_attr }
{
    FlatAttr {
        name: StrId(attribute),
        kind: facts
            .kind
            .or(by_attr.kind)
            .or(facts.told)
            .unwrap_or(Kind::Synthesized),
        ty: facts.ty.or(by_attr.ty).unwrap_or(ValueType::Void),
        written: true,
        message: false,
    }
}

/// The attribute of that name that a symbol has, if it has it. (`owners` are the symbol and its classes,
/// and `known` the attributes of which something is said on them.)
fn attribute_of(
    tables: &SaidTables,
    by_attr: &AttrTable,
    owners: &[u32],
    known: &Attributes,
    attribute: u32,
) -> Option<FlatAttr>
    ensures { (spec : Specification) (s : ℕ) (facts : AreFactsOf spec tables.now by_attr.now) → AreOwners spec s owners.now
        → AreSaidOn facts.list owners.now known.now → IsAttributeAt spec s attribute result }
{
    if !known.has(StrId(attribute)) {
        return None;
    }
    match facts_on(&tables.facts, owners, attribute) {
        Some(facts) => Some(written(attribute, facts, facts_by_attr(by_attr, attribute))),
        None => None,
    }
}

/// Adds the attribute, if there is one.
fn push_attribute(attrs: &mut Vec<FlatAttr>, attr: Option<FlatAttr>) -> Result<(), Memory>
    ensures { OnOk result (attrs.new.items ≡ attrs.old.items ++ option_to_list attr) }
{
    if let Some(attr) = attr {
        attrs.push(attr)?;
    }
    Ok(())
}

/// The attributes of a symbol, in the order of these names.
fn attributes_in_order(
    alloc: Global,
    tables: &SaidTables,
    by_attr: &AttrTable,
    owners: &[u32],
    names: &[u32],
) -> Result<Vec<FlatAttr>, Memory>
    ensures { IfOk result (λ attrs. (spec : Specification) (s : ℕ) → AreFactsOf spec tables.now by_attr.now → AreOwners spec s owners.now
        → AreNumbered nat_eq (attribute_uses spec) names.now → AreAttributesOf spec s attrs.items) }
{
    let known = tables.attributes_on(alloc, owners)?;
    let mut attrs = Vec::new(alloc);
    for name in names {
        push_attribute(
            &mut attrs,
            attribute_of(tables, by_attr, owners, &known, *name),
        )?;
    }
    Ok(attrs)
}

/// The attributes of each of the symbols, in the order of these names.
fn attributes_of_all(
    alloc: Global,
    tables: &SaidTables,
    by_attr: &AttrTable,
    inheritance: &Inheritance,
    numbers: &Names,
    names: &[u32],
) -> Result<Vec<List<FlatAttr>>, Memory>
    ensures { IfOk result (λ lists. (spec : Specification) → AreFactsOf spec tables.now by_attr.now → AreNumberedIn numbers.now spec.symbols
        → IsInheritance spec numbers.now inheritance.now → AreNumbered nat_eq (attribute_uses spec) names.now
        → AllZip (AreAttributesOf spec) numbers.now lists.items) }
{
    let mut lists = Vec::new(alloc);
    for symbol in numbers.as_slice() {
        let owners = with_classes(alloc, numbers, inheritance, *symbol)?;
        let attrs = attributes_in_order(alloc, tables, by_attr, &owners, names)?;
        lists.push(List::from_vec(attrs))?;
    }
    Ok(lists)
}

/// The written attributes of a specification that was read from a text: for each symbol, by its number, those that it has, its
/// own and those of its classes, by the places where their names first stand. (`sets` are its sets of names, and all symbols of
/// its SYMBOL items are numbered.) An `Err` is want of memory.
pub fn written_attributes(
    alloc: Global,
    spec: &Spec,
    sets: &NameSets,
    numbers: &Names,
) -> Result<Vec<List<FlatAttr>>, Memory>
    requires from_text { IsFromText spec.now }
    requires sets { AreNameSets spec.now sets.now }
    requires numbered { AreNumberedIn numbers.now spec.now.symbols }
    ensures { IfOk result (λ lists. AllZip (AreAttributesOf spec.now) numbers.now lists.items) }
{
    let inheritance = Inheritance::of(alloc, spec, numbers)?;
    let named = named_attributes(alloc, spec, sets)?;
    let said = all_said(alloc, spec, sets, &named)?;
    let tables = SaidTables::of(alloc, &said)?;
    let by_attr = AttrTable::of(alloc, spec.attrs.as_slice())?;
    let names = attribute_numbers(alloc, spec)?;
    let lists = attributes_of_all(
        alloc,
        &tables,
        &by_attr,
        &inheritance,
        numbers,
        names.as_slice(),
    )?;
    Ok(lists)
}
