//! Computations of what is computed before.
ghost use Rattle.std.specs.Prelude.{◌≡◌, ◌++◌, ℕ, IsTrue, IfOk, OnOk, None, Some, if◌then◌else◌, map, flat_map, option_to_list, Contains};
ghost use Rattle.lido_base.specs.Environment.{Environment};
ghost use Rattle.lido_syntax.specs.declared.spec.RuleItem.{RuleItem as Rule};
ghost use Rattle.lido_syntax.specs.declared.spec.SymbolItem.{SymbolItem as Item};
ghost use Rattle.lido_syntax.specs.Production.{name_of};
ghost use Rattle.lido_symbols.specs.Occurrences.{IsProductionOf};
ghost use Rattle.computation_aims.specs.Aims.{AreChains};
ghost use Rattle.computation_aims.specs.Keys.{is_same_aim};
ghost use Rattle.computation_aims.specs.declared.aims.Aim.{Aim as AnyAim};
ghost use Rattle.kind_clashes.specs.Least.{IsFirst, Among, earlier_of};
ghost use Rattle.kind_clashes.specs.Names.{has, HasMore, IsSetOf};
ghost use Rattle.table_faults.specs.declared.doubles.Computed.{Computed as AnyComputed};
ghost use Rattle.table_faults.specs.Doubles.{first_at, AreFirsts, IsLater, IsDoubleIn, computed_in_rule, all_in_rule, computed_in_symbol, all_in_body, IsDoubleInItem, IsSeen, IsShared, all_if_shared, all_in_item, IsDoubleOfSymbol};
ghost use Rattle.kind_clashes.specs.declared.names.Names.{Names as AnyNames};
ghost use Rattle.table_faults.specs.Faults.{IsDouble};

use computation_aims::{Aim, chain_names, rule_aim, symbol_aim};
use kind_clashes::{Names, earlier};
use lido_base::{Memory, StrId};
use lido_symbols::Production;
use lido_syntax::{Comp, Name, RuleItem, Spec, SymbolItem};
use std::alloc::Global;
use std::collections::HashMap;

/// A computation that gives a value to an attribute or a chain.
#[derive(Clone, Copy)]
struct Computed {
    /// The symbol in whose body it stands, or the occurrence in whose rule.
    place: usize,
    aim: Aim,
    /// The place of its first byte.
    at: u32,
}

/// The least place of a computation of each thing that is computed.
#[derive(Drop)]
struct Firsts {
    places: HashMap<(usize, u8, u32), u32>,
}

/// The earlier of a place, where there is one, and another.
fn earliest(first: Option<u32>, at: u32) -> u32
    ensures { Some result ≡ earlier_of first (Some at) }
{
    match first {
        Some(first) => first.min(at),
        None => at,
    }
}

impl Firsts {
    /// Without computations. It takes no memory.
    #[tactic(auto, unfolding(crate::specs::Doubles::first_at))]
    fn new(alloc: Global) -> Firsts
        ensures { (place : ℕ) (aim : AnyAim) → first_at result place aim ≡ None }
    {
        Firsts {
            places: HashMap::new(alloc),
        }
    }

    #[tactic(auto, unfolding(crate::specs::Doubles::first_at))]
    fn find(&self, place: usize, aim: Aim) -> Option<u32>
        ensures { result ≡ first_at self.now place aim }
    {
        self.places
            .get(&(place, aim.way.number(), aim.name.0))
            .copied()
    }

    #[tactic(auto, unfolding(crate::specs::Doubles::first_at))]
    fn set(&mut self, place: usize, aim: Aim, first: u32) -> Result<(), Memory>
        ensures { OnOk result ((p : ℕ) (a : AnyAim) → first_at self.new p a ≡ (if is_same_aim place aim p a then Some first else first_at self.old p a)) }
    {
        self.places
            .insert((place, aim.way.number(), aim.name.0), first)?;
        Ok(())
    }

    fn note(&mut self, computed: Computed) -> Result<(), Memory>
        ensures { OnOk result ((place : ℕ) (aim : AnyAim) → first_at self.new place aim
            ≡ (if is_same_aim computed.place computed.aim place aim then earlier_of (first_at self.old computed.place computed.aim) (Some computed.at) else first_at self.old place aim)) }
    {
        let first = earliest(self.find(computed.place, computed.aim), computed.at);
        self.set(computed.place, computed.aim, first)
    }

    fn of(alloc: Global, all: &[Computed]) -> Result<Firsts, Memory>
        ensures { IfOk result (AreFirsts all.now) }
    {
        let mut firsts = Firsts::new(alloc);
        for computed in all {
            firsts.note(*computed)?;
        }
        Ok(firsts)
    }
}

/// The computation's place, if one of the same stands in front of it.
fn if_later(firsts: &Firsts, computed: Computed) -> Option<u32>
    ensures { IsFirst (IsLater firsts.now computed) result }
{
    match firsts.find(computed.place, computed.aim) {
        Some(first) if first < computed.at => Some(computed.at),
        _ => None,
    }
}

fn least_later(firsts: &Firsts, all: &[Computed]) -> Option<u32>
    ensures { IsFirst (Among (λ (c : AnyComputed) at. IsLater firsts.now c at) all.now) result }
{
    let mut least = None;
    for computed in all {
        least = earlier(least, if_later(firsts, *computed));
    }
    least
}

/// The least place of one of these computations behind another of the same.
fn double_among(alloc: Global, all: &[Computed]) -> Result<Option<u32>, Memory>
    ensures { IfOk result (IsFirst (IsDoubleIn all.now)) }
{
    let firsts = Firsts::of(alloc, all)?;
    Ok(least_later(&firsts, all))
}

/// A rule's computation, if it gives a value to an attribute or a chain.
fn in_rule(chains: &lido_symbols::Names, production: &Production, comp: &Comp) -> Option<Computed>
    ensures { (r : Rule) → IsProductionOf r production.now → result ≡ computed_in_rule chains.now r comp.now }
{
    let (place, aim) = rule_aim(chains, production, &comp.target)?;
    let at = comp.at;
    Some(Computed { place, aim, at })
}

fn note_in_rule(
    all: &mut Vec<Computed>,
    chains: &lido_symbols::Names,
    production: &Production,
    comp: &Comp,
) -> Result<(), Memory>
    ensures { OnOk result ((r : Rule) → IsProductionOf r production.now → all.new.items ≡ all.old.items ++ option_to_list (computed_in_rule chains.now r comp.now)) }
{
    if let Some(computed) = in_rule(chains, production, comp) {
        all.push(computed)?;
    }
    Ok(())
}

/// The computations of a rule that give values to attributes and chains.
fn of_rule(
    alloc: Global,
    chains: &lido_symbols::Names,
    rule: &RuleItem,
) -> Result<Vec<Computed>, Memory>
    ensures { IfOk result (λ all. all.items ≡ all_in_rule chains.now rule.now) }
{
    let production = Production::of(alloc, rule)?;
    let mut all = Vec::new(alloc);
    for comp in rule.body.as_slice() {
        note_in_rule(&mut all, chains, &production, comp)?;
    }
    Ok(all)
}

fn double_in_rule(
    alloc: Global,
    chains: &lido_symbols::Names,
    rule: &RuleItem,
) -> Result<Option<u32>, Memory>
    ensures { IfOk result (IsFirst (IsDoubleIn (all_in_rule chains.now rule.now))) }
{
    let all = of_rule(alloc, chains, rule)?;
    double_among(alloc, &all)
}

fn double_in_rules(
    alloc: Global,
    chains: &lido_symbols::Names,
    rules: &[RuleItem],
) -> Result<Option<u32>, Memory>
    ensures { IfOk result (IsFirst (Among (λ (r : Rule). IsDoubleIn (all_in_rule chains.now r)) rules.now)) }
{
    let mut least = None;
    for rule in rules {
        least = earlier(least, double_in_rule(alloc, chains, rule)?);
    }
    Ok(least)
}

fn note_in_symbol(all: &mut Vec<Computed>, symbol: StrId, comp: &Comp) -> Result<(), Memory>
    ensures { OnOk result (all.new.items ≡ all.old.items ++ option_to_list (computed_in_symbol symbol.0 comp.now)) }
{
    if let Some(aim) = symbol_aim(&comp.target) {
        all.push(Computed {
            place: symbol.0 as usize,
            aim,
            at: comp.at,
        })?;
    }
    Ok(())
}

fn note_body(all: &mut Vec<Computed>, symbol: StrId, body: &[Comp]) -> Result<(), Memory>
    ensures { OnOk result (all.new.items ≡ all.old.items ++ all_in_body symbol.0 body.now) }
{
    for comp in body {
        note_in_symbol(all, symbol, comp)?;
    }
    Ok(())
}

fn double_in_body(alloc: Global, symbol: StrId, body: &[Comp]) -> Result<Option<u32>, Memory>
    ensures { IfOk result (IsFirst (IsDoubleIn (all_in_body symbol.0 body.now))) }
{
    let mut all = Vec::new(alloc);
    note_body(&mut all, symbol, body)?;
    double_among(alloc, &all)
}

/// The least place of a computation of an item behind another one of the same in it.
fn double_in_item(alloc: Global, item: &SymbolItem) -> Result<Option<u32>, Memory>
    ensures { IfOk result (IsFirst (IsDoubleInItem item.now)) }
{
    match item.names.as_slice().first() {
        Some(name) => double_in_body(alloc, name.id, item.body.as_slice()),
        None => Ok(None),
    }
}

fn double_in_items(alloc: Global, items: &[SymbolItem]) -> Result<Option<u32>, Memory>
    ensures { IfOk result (IsFirst (Among IsDoubleInItem items.now)) }
{
    let mut least = None;
    for item in items {
        least = earlier(least, double_in_item(alloc, item)?);
    }
    Ok(least)
}

fn add_if_seen(seen: &Names, shared: &mut Names, name: Name) -> Result<(), Memory>
    ensures { OnOk result (HasMore (IsSeen seen.now name) shared.old shared.new) }
{
    if seen.has(name.id) {
        shared.add(name.id)?;
    }
    Ok(())
}

fn add_seen(seen: &Names, shared: &mut Names, names: &[Name]) -> Result<(), Memory>
    ensures { OnOk result (HasMore (Among (IsSeen seen.now) names.now) shared.old shared.new) }
{
    for name in names {
        add_if_seen(seen, shared, *name)?;
    }
    Ok(())
}

/// The symbols that more than one item is about.
fn shared_names(alloc: Global, items: &[SymbolItem]) -> Result<Names, Memory>
    ensures { IfOk result (IsSetOf (IsShared items.now)) }
{
    let mut seen = Names::new(alloc);
    let mut shared = Names::new(alloc);
    for item in items {
        add_seen(&seen, &mut shared, item.names.as_slice())?;
        seen.add_all(item.names.as_slice())?;
    }
    Ok(shared)
}

fn note_shared(
    all: &mut Vec<Computed>,
    shared: &Names,
    symbol: StrId,
    body: &[Comp],
) -> Result<(), Memory>
    ensures { OnOk result (all.new.items ≡ all.old.items ++ all_if_shared shared.now body.now symbol.0) }
{
    if shared.has(symbol) {
        note_body(all, symbol, body)?;
    }
    Ok(())
}

/// Notes the computations of an item, once for each of its symbols that are shared.
fn note_item(all: &mut Vec<Computed>, shared: &Names, item: &SymbolItem) -> Result<(), Memory>
    ensures { OnOk result (all.new.items ≡ all.old.items ++ all_in_item shared.now item.now) }
{
    for name in item.names.as_slice() {
        note_shared(all, shared, name.id, item.body.as_slice())?;
    }
    Ok(())
}

fn of_items(alloc: Global, shared: &Names, items: &[SymbolItem]) -> Result<Vec<Computed>, Memory>
    ensures { IfOk result (λ all. all.items ≡ flat_map (all_in_item shared.now) items.now) }
{
    let mut all = Vec::new(alloc);
    for item in items {
        note_item(&mut all, shared, item)?;
    }
    Ok(all)
}

/// The least place of a computation behind another one of the same, where a symbol has both in different items.
fn double_between_items(alloc: Global, items: &[SymbolItem]) -> Result<Option<u32>, Memory>
    ensures { IfOk result (λ found. (shared : AnyNames) × IsSetOf (IsShared items.now) shared × IsFirst (IsDoubleIn (flat_map (all_in_item shared) items.now)) found) }
{
    let shared = shared_names(alloc, items)?;
    let all = of_items(alloc, &shared, items)?;
    double_among(alloc, &all)
}

fn double_in_symbols(alloc: Global, items: &[SymbolItem]) -> Result<Option<u32>, Memory>
    ensures { IfOk result (IsFirst (IsDoubleOfSymbol items.now)) }
{
    let within = double_in_items(alloc, items)?;
    let between = double_between_items(alloc, items)?;
    Ok(earlier(within, between))
}

/// The least place of the later of two computations of one target in a rule, or in the bodies of a symbol.
pub fn least_double(alloc: Global, spec: &Spec) -> Result<Option<u32>, Memory>
    ensures { IfOk result (λ found. (env : Environment) → IsFirst (IsDouble spec.now env) found) }
{
    let chains = chain_names(alloc, spec)?;
    let in_rules = double_in_rules(alloc, &chains, spec.rules.as_slice())?;
    let in_symbols = double_in_symbols(alloc, spec.symbols.as_slice())?;
    Ok(earlier(in_rules, in_symbols))
}
