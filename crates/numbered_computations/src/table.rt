//! Computations by their numbers.
ghost use Rattle.std.specs.Prelude.{◌≡◌, ℕ, nat_eq, None, Some, if◌then◌else◌, flat_map, option_map, IfOk, OnOk};
ghost use Rattle.lido_syntax.specs.declared.spec.RuleItem.{RuleItem as Rule};
ghost use Rattle.lido_syntax.specs.declared.spec.SymbolItem.{SymbolItem as Item};
ghost use Rattle.lido_symbols.specs.FromText.{IsFromText};
ghost use Rattle.numbered_computations.specs.declared.table.Holder.TheVariants as holder_of;
ghost use Rattle.numbered_computations.specs.Held.{standing, held_at, held_by, last_of, AreComputationsOf};

use lido_base::Memory;
use lido_syntax::{Comp, RuleItem, Spec, SymbolItem};
use std::alloc::Global;
use std::collections::HashMap;

/// Whose body a computation stands in.
#[derive(Clone, Copy, Debug)]
pub enum Holder {
    Rule,
    /// A symbol or a class.
    Symbol,
}

/// A computation, and whose body it stands in.
#[derive(Clone, Copy)]
pub struct Held<'a> {
    pub holder: Holder,
    pub comp: &'a Comp,
}

/// The computations of a specification by their numbers.
#[derive(Drop)]
pub struct Computations<'a> {
    held: HashMap<u32, Held<'a>>,
}

impl<'a> Computations<'a> {
    /// No computations. It takes no memory.
    #[tactic(auto, unfolding(crate::specs::Held::held_at))]
    fn new(alloc: Global) -> Computations<'a>
        ensures { (n : ℕ) → held_at result n ≡ None }
    {
        Computations {
            held: HashMap::new(alloc),
        }
    }

    /// Notes a computation.
    #[tactic(auto, unfolding(crate::specs::Held::held_at))]
    fn note(&mut self, held: Held<'a>) -> Result<(), Memory>
        ensures { OnOk result ((n : ℕ) → held_at self.new n
            ≡ (if nat_eq held.entry.comp.now.number n then Some (standing held.entry) else held_at self.old n)) }
    {
        self.held.insert(held.comp.number, held)?;
        Ok(())
    }

    /// Notes the computations of a body.
    fn note_body(&mut self, holder: Holder, body: &'a [Comp]) -> Result<(), Memory>
        ensures { OnOk result ((n : ℕ) → held_at self.new n ≡ last_of n (held_at self.old n) (held_by holder body.now)) }
    {
        for comp in body {
            self.note(Held { holder, comp })?;
        }
        Ok(())
    }

    /// Notes the computations of rules.
    fn note_rules(&mut self, rules: &'a [RuleItem]) -> Result<(), Memory>
        ensures { OnOk result ((n : ℕ) → held_at self.new n
            ≡ last_of n (held_at self.old n) (flat_map (λ (r : Rule). held_by holder_of.Rule r.body) rules.now)) }
    {
        for rule in rules {
            self.note_body(Holder::Rule, rule.body.as_slice())?;
        }
        Ok(())
    }

    /// Notes the computations of symbols.
    fn note_items(&mut self, items: &'a [SymbolItem]) -> Result<(), Memory>
        ensures { OnOk result ((n : ℕ) → held_at self.new n
            ≡ last_of n (held_at self.old n) (flat_map (λ (item : Item). held_by holder_of.Symbol item.body) items.now)) }
    {
        for item in items {
            self.note_body(Holder::Symbol, item.body.as_slice())?;
        }
        Ok(())
    }

    /// The computations of a specification that was read from a text. It takes time linear in the text. An `Err` is want of
    /// memory.
    pub fn of(alloc: Global, spec: &'a Spec) -> Result<Computations<'a>, Memory>
        requires { IsFromText spec.now }
        ensures { IfOk result (AreComputationsOf spec.now) }
    {
        let mut computations = Computations::new(alloc);
        computations.note_rules(spec.rules.as_slice())?;
        computations.note_items(spec.symbols.as_slice())?;
        Ok(computations)
    }

    /// The computation of that number, if there is one. It takes constant time.
    #[tactic(auto, unfolding(crate::specs::Held::held_at))]
    pub fn at(&self, number: u32) -> Option<Held<'a>>
        ensures { option_map standing result ≡ held_at self.now number }
    {
        self.held.get(&number).copied()
    }
}
