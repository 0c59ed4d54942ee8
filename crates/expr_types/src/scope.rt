//! Where an expression stands.
ghost use Rattle.std.specs.Prelude.{◌≡◌, is_some, Some, None};
ghost use Rattle.lido_syntax.specs.Coordinates.{coordinate_named};
ghost use Rattle.expr_types.specs.Scopes.{IsScope, IsThereIn, IsBareIn, IsReadIn, holder_of, symbol_in, texts_of};
ghost use Rattle.lido_syntax.specs.declared.spec.Expr.TheVariants as expression;

use crate::functions::Functions;
use leaf_types::LeafTypes;
use lido_base::{StrId, ValueType};
use lido_symbols::{is_coordinate_in_rule, is_coordinate_in_symbol};
use lido_syntax::{Name, Place, RuleItem};

/// Whose body a computation stands in.
#[derive(Clone, Copy)]
pub enum Holder {
    Rule,
    Symbol,
}

/// Where an expression stands: in a computation of that holder, in force in the rule at an occurrence of a symbol.
#[derive(Drop)]
pub struct Scope<'a> {
    pub functions: &'a Functions<'a>,
    pub types: &'a LeafTypes<'a>,
    pub rule: &'a RuleItem,
    /// The symbol.
    pub own: StrId,
    pub holder: Holder,
}

impl Scope<'_> {
    /// Whether a bare name is a coordinate.
    fn is_coordinate(&self, name: Name, index: Option<i64>) -> bool
        ensures { result ≡ is_some (coordinate_named (texts_of self.now) (holder_of self.now.holder) self.now.rule.now name index) }
    {
        match self.holder {
            Holder::Rule => is_coordinate_in_rule(self.functions.strings, self.rule, name, index),
            Holder::Symbol => is_coordinate_in_symbol(self.functions.strings, name, index),
        }
    }

    /// The symbol at a place.
    fn symbol_at(&self, place: Place) -> StrId
        ensures { result.0 ≡ symbol_in self.now.own.0 place }
    {
        match place {
            Place::Named(name, _) => name.id,
            Place::Synt | Place::Inh | Place::This | Place::Tail => self.own,
        }
    }

    /// The type of a bare name.
    pub(crate) fn bare_type(&self, name: Name, index: Option<i64>) -> ValueType
        requires scope { IsScope self.now }
        requires there { IsThereIn self.now (expression.Terminal name index) }
        ensures { IsBareIn self.now name index result }
    {
        if self.is_coordinate(name, index) {
            return ValueType::Int;
        }
        match self.types.terminal(name.id) {
            Some(ty) => ty,
            None => unreachable!(),
        }
    }

    /// The type of what is read at a place: a chain, or an attribute.
    pub(crate) fn read_type(&self, at: u32, place: Place, name: Name) -> ValueType
        requires scope { IsScope self.now }
        requires there { IsThereIn self.now (expression.Read at place name) }
        ensures { IsReadIn self.now place name result }
    {
        if let Some(ty) = self.types.chain(name.id) {
            return ty;
        }
        match self.types.attribute(self.symbol_at(place), name.id) {
            Some(ty) => ty,
            None => unreachable!(),
        }
    }
}
