//! Attributes of classes that have another type on a symbol that inherits the class.
ghost use Rattle.std.specs.Prelude.{◌≡◌, ◌↔◌, IsTrue, Some, IfOk, OnOk};
ghost use Rattle.leaf_types.specs.Tables.{type_of_attribute, OfSome, HasMore, IsTableOf};
ghost use Rattle.leaf_types.specs.Uneven.{IsOther, IsOtherOnClass, IsOtherOnHeir};

use crate::attributes::AttributeTypes;
use crate::heirs::Heirs;
use flat_grammar::FlatAttr;
use lido_base::{Memory, StrId};
use rule_tables::{SymbolClass, SymbolRow};
use std::alloc::Global;

/// Whether the attribute has another type on the symbol, or none.
fn is_other(types: &AttributeTypes, heir: StrId, attr: &FlatAttr) -> bool
    ensures { IsTrue result ↔ ¬ (type_of_attribute types.now (heir.0, attr.now.name.0) ≡ Some attr.now.ty) }
{
    match types.find(heir.0, attr.name.0) {
        Some(ty) => ty != attr.ty,
        None => true,
    }
}

/// Notes an attribute of the class, with its type there, if it has another type on the heir.
fn note_attribute(
    uneven: &mut AttributeTypes,
    types: &AttributeTypes,
    heir: StrId,
    class: StrId,
    attr: &FlatAttr,
) -> Result<(), Memory>
    ensures { OnOk result (HasMore (IsOther types.now heir.0 class.0 attr.now) (type_of_attribute uneven.old) (type_of_attribute uneven.new)) }
{
    if is_other(types, heir, attr) {
        uneven.set(class.0, attr.name.0, attr.ty)?;
    }
    Ok(())
}

/// Notes the attributes in the row of a class that have another type on the heir.
fn note_attributes(
    uneven: &mut AttributeTypes,
    types: &AttributeTypes,
    heir: StrId,
    row: &SymbolRow,
) -> Result<(), Memory>
    ensures { OnOk result (HasMore (OfSome (IsOther types.now heir.0 row.now.name.0) row.now.attrs)
        (type_of_attribute uneven.old) (type_of_attribute uneven.new)) }
{
    for attr in row.attrs.as_slice() {
        note_attribute(uneven, types, heir, row.name, attr)?;
    }
    Ok(())
}

/// The same, if the heir inherits the row's symbol.
fn note_class(
    uneven: &mut AttributeTypes,
    types: &AttributeTypes,
    heirs: &Heirs,
    heir: StrId,
    row: &SymbolRow,
) -> Result<(), Memory>
    ensures { OnOk result (HasMore (IsOtherOnClass types.now heirs.now heir.0 row.now) (type_of_attribute uneven.old) (type_of_attribute uneven.new)) }
{
    if heirs.inherits(heir, row.name) {
        note_attributes(uneven, types, heir, row)?;
    }
    Ok(())
}

/// Notes the attributes of classes that have another type on the heir.
fn note_classes(
    uneven: &mut AttributeTypes,
    types: &AttributeTypes,
    heirs: &Heirs,
    rows: &[SymbolRow],
    heir: StrId,
) -> Result<(), Memory>
    ensures { OnOk result (HasMore (OfSome (IsOtherOnClass types.now heirs.now heir.0) rows.now)
        (type_of_attribute uneven.old) (type_of_attribute uneven.new)) }
{
    for row in rows {
        note_class(uneven, types, heirs, heir, row)?;
    }
    Ok(())
}

/// The same, if the row is that of a nonterminal.
fn note_heir(
    uneven: &mut AttributeTypes,
    types: &AttributeTypes,
    heirs: &Heirs,
    rows: &[SymbolRow],
    row: &SymbolRow,
) -> Result<(), Memory>
    ensures { OnOk result (HasMore (IsOtherOnHeir types.now heirs.now rows.now row.now) (type_of_attribute uneven.old) (type_of_attribute uneven.new)) }
{
    if let SymbolClass::Nonterminal = row.class {
        note_classes(uneven, types, heirs, rows, row.name)?;
    }
    Ok(())
}

/// The attributes of classes that have another type on a nonterminal that inherits the class, with their types on the class.
pub(crate) fn uneven_attributes(
    alloc: Global,
    types: &AttributeTypes,
    heirs: &Heirs,
    rows: &[SymbolRow],
) -> Result<AttributeTypes, Memory>
    ensures { IfOk result (λ uneven. IsTableOf (OfSome (IsOtherOnHeir types.now heirs.now rows.now) rows.now) (type_of_attribute uneven)) }
{
    let mut uneven = AttributeTypes::new(alloc);
    for row in rows {
        note_heir(&mut uneven, types, heirs, rows, row)?;
    }
    Ok(uneven)
}
