//! What goals take.
ghost use Rattle.std.specs.Prelude.{◌≡◌, ◌↔◌, ◌⊎◌, ℕ, Some, slice_get};
ghost use Rattle.lido_base.specs.Environment.{Environment};
ghost use Rattle.lido_base.specs.declared.value.ValueType.TheVariants as type;
ghost use Rattle.lido_base.specs.declared.value.ValueType.{ValueType as OneType};
ghost use Rattle.lido_syntax.specs.Computation.{Goal as Aim};
ghost use Rattle.leaf_types.specs.Single.{AreSingleTypes};
ghost use Rattle.expr_types.specs.Wanted.{Takes, IsWantedOf};
ghost use Rattle.expr_types.specs.Goals.{IsAttributeType, IsChainType};
ghost use Rattle.rule_tables.specs.ForcedOf.{IsAttributeAt, IsChainAt, IsGoalAs};
ghost use Rattle.rule_tables.specs.TablesOf.{AreTablesOf, named_symbols};

use crate::computations::Wanted;
use lido_base::{AttrId, ValueType};
use rule_tables::{Goal, Tables};

/// What an attribute of that type takes.
fn of_attribute(ty: ValueType) -> Wanted
    ensures { (other : OneType) → Takes result other ↔ ((ty ≡ type.Void) ⊎ (other ≡ ty)) }
{
    match ty {
        ValueType::Void => Wanted::Any,
        ValueType::Int | ValueType::Str | ValueType::Bool | ValueType::Text => Wanted::Only(ty),
    }
}

/// The type of an attribute of the symbol with that number.
fn attribute_type(tables: &Tables, symbol: usize, id: AttrId) -> ValueType
    requires { (a : ℕ) × IsAttributeAt tables.now symbol id a }
    ensures { IsAttributeType tables.now symbol id result }
{
    let row = &tables.symbols.as_slice()[symbol];
    row.attrs.as_slice()[id.0 as usize].ty
}

/// The type of a chain, by its place among those that are declared.
fn chain_type(tables: &Tables, place: u32) -> ValueType
    requires { (c : ℕ) × IsChainAt tables.now place c }
    ensures { IsChainType tables.now place result }
{
    tables.spec.chains.as_slice()[place as usize].ty
}

/// What a goal at an occurrence of the symbol with that number takes.
pub fn wanted_by(tables: &Tables, symbol: usize, goal: Goal) -> Wanted
    requires { (aim : Aim) × IsGoalAs tables.now symbol goal aim }
    ensures { (env : Environment) (s : ℕ) (aim : Aim) → AreTablesOf env tables.now → AreSingleTypes tables.now.spec
        → slice_get (named_symbols tables.now) symbol ≡ Some s → IsGoalAs tables.now symbol goal aim
        → IsWantedOf tables.now.spec s aim result }
{
    match goal {
        Goal::Attr(id) => of_attribute(attribute_type(tables, symbol, id)),
        Goal::Start(place) => Wanted::Only(chain_type(tables, place)),
        Goal::Behind(place) => Wanted::Only(chain_type(tables, place)),
        Goal::Out => Wanted::Only(ValueType::Text),
        Goal::Message(_) => Wanted::Only(ValueType::Str),
    }
}
