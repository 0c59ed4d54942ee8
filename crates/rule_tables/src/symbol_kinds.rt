//! What the symbols are.
ghost use Rattle.std.specs.Prelude.{◌≡◌, ℕ, Some, None, List as Sequence, nat_eq, if◌then◌else◌, IfOk, OnOk};
ghost use Rattle.lido_base.specs.Environment.{Environment};
ghost use Rattle.lido_syntax.specs.declared.spec.Spec.{Spec as Specification};
ghost use Rattle.kind_clashes.specs.Names.{has};
ghost use Rattle.kind_clashes.specs.Sets.{AreNameSets};
ghost use Rattle.table_faults.specs.Faults.{IsKnown};
ghost use Rattle.rule_tables.specs.SymbolKinds.{type_in, AreTermTypes};
ghost use Rattle.rule_tables.specs.TablesOf.{IsSymbolClass};

use crate::table::SymbolClass;
use kind_clashes::NameSets;
use lido_base::{Memory, StrId, ValueType};
use lido_syntax::Typed1;
use std::alloc::Global;
use std::collections::HashMap;

/// The types of the names that TERM declares, by the ids of their texts.
#[derive(Drop)]
pub struct TermTypes {
    pub types: HashMap<u32, ValueType>,
}

impl TermTypes {
    /// No types. It takes no memory.
    #[tactic(auto, unfolding(crate::specs::SymbolKinds::type_in))]
    fn new(alloc: Global) -> TermTypes
        ensures { (s : ℕ) → type_in result s ≡ None }
    {
        TermTypes {
            types: HashMap::new(alloc),
        }
    }

    /// Gives a name its type.
    #[tactic(auto, unfolding(crate::specs::SymbolKinds::type_in))]
    fn set(&mut self, name: StrId, ty: ValueType) -> Result<(), Memory>
        ensures { OnOk result ((s : ℕ) → type_in self.new s ≡ (if nat_eq name.0 s then Some ty else type_in self.old s)) }
    {
        self.types.insert(name.0, ty)?;
        Ok(())
    }

    /// The types that are declared. Of a name that is declared more than once it is the last one.
    pub fn of(alloc: Global, terms: &[Typed1]) -> Result<TermTypes, Memory>
        ensures { IfOk result (AreTermTypes terms.now) }
    {
        let mut types = TermTypes::new(alloc);
        for term in terms {
            types.set(term.name.id, term.ty)?;
        }
        Ok(types)
    }

    /// The type of the name, if it is declared.
    #[tactic(auto, unfolding(crate::specs::SymbolKinds::type_in))]
    fn get(&self, name: StrId) -> Option<ValueType>
        ensures { result ≡ type_in self.now name.0 }
    {
        self.types.get(&name.0).copied()
    }
}

/// What the name is that TERM doesn't declare and that stands on no left side: a terminal on a right side, or else a class.
fn undeclared(sets: &NameSets, symbol: StrId) -> SymbolClass
    ensures { result ≡ (if has sets.now.right_sides symbol.0 then SymbolClass.Terminal ValueType.Int else SymbolClass.Class) }
{
    if sets.right_sides.has(symbol) {
        SymbolClass::Terminal(ValueType::Int)
    } else {
        SymbolClass::Class
    }
}

/// What the symbol is, if it is something. (`sets` and `types` are those of the specification.)
pub fn class_of(sets: &NameSets, types: &TermTypes, symbol: StrId) -> SymbolClass
    ensures { (spec : Specification) (env : Environment) (symbols : Sequence ℕ) → AreNameSets spec sets.now → AreTermTypes spec.terms types.now
        → ¬ ¬ IsKnown spec env symbol.0 → IsSymbolClass spec env symbols symbol.0 result }
{
    if sets.nonterminals.has(symbol) {
        return SymbolClass::Nonterminal;
    }
    match types.get(symbol) {
        Some(ty) => SymbolClass::Terminal(ty),
        None => undeclared(sets, symbol),
    }
}
