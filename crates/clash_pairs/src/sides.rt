//! Which kinds the targets of rules' computations tell.
ghost use Rattle.std.specs.Prelude.{◌≡◌, ◌++◌, map, flat_map, IfOk, OnOk};
ghost use Rattle.lido_syntax.specs.Attributes.{possible};
ghost use Rattle.lido_syntax.specs.declared.spec.Comp.{Comp as Computation};
ghost use Rattle.lido_symbols.specs.Occurrences.{IsProductionOf};
ghost use Rattle.symbol_attributes.specs.Said.{side_of, one_side};
ghost use Rattle.clash_pairs.specs.Facts.{kinds_by_place, kinds_by_target, kinds_of_rule, kinds_of_text};

use crate::items::{KindFact, push_items, push_unless_chain};
use kind_clashes::Names as Set;
use lido_base::{Kind, Memory};
use lido_symbols::{Names, Production};
use lido_syntax::{Comp, Name, Place, RuleItem, Spec, Target};
use std::alloc::Global;

/// The side where all occurrences are that the name can mean, by the kind that it tells, if they are on one side.
fn side(production: &Production, rule: &RuleItem, name: Name, index: Option<i64>) -> Option<Kind>
    requires { IsProductionOf rule.now production.now }
    ensures { result ≡ side_of (possible rule.now name index) }
{
    match production.occurrence(name, index) {
        Some(0) => Some(Kind::Synthesized),
        Some(_) => Some(Kind::Inherited),
        None => only_side(name.id.0 == rule.left.id.0, production.is_right(name.id)),
    }
}

/// The side of a name that is on these.
fn only_side(left: bool, right: bool) -> Option<Kind>
    ensures { result ≡ one_side left right }
{
    match (left, right) {
        (true, false) => Some(Kind::Synthesized),
        (false, true) => Some(Kind::Inherited),
        _ => None,
    }
}

fn push_place(
    facts: &mut Vec<KindFact>,
    numbers: &Names,
    chains: &Set,
    production: &Production,
    rule: &RuleItem,
    place: Place,
    attr: Name,
) -> Result<(), Memory>
    requires { IsProductionOf rule.now production.now }
    ensures { OnOk result (facts.new.items ≡ facts.old.items ++ kinds_by_place numbers.now chains.now rule.now place attr) }
{
    match place {
        Place::Named(name, index) => {
            let kind = side(production, rule, name, index);
            push_unless_chain(facts, numbers, chains, &[name], attr, kind)
        }
        Place::Synt | Place::Inh | Place::This | Place::Tail => Ok(()),
    }
}

fn push_target(
    facts: &mut Vec<KindFact>,
    numbers: &Names,
    chains: &Set,
    production: &Production,
    rule: &RuleItem,
    target: &Target,
) -> Result<(), Memory>
    requires { IsProductionOf rule.now production.now }
    ensures { OnOk result (facts.new.items ≡ facts.old.items ++ kinds_by_target numbers.now chains.now rule.now target.now) }
{
    match target {
        Target::Attr(place, attr) => push_place(
            facts, numbers, chains, production, rule, *place, *attr,
        ),
        Target::Start(_) | Target::Out | Target::Message(..) => Ok(()),
    }
}

fn push_comps(
    facts: &mut Vec<KindFact>,
    numbers: &Names,
    chains: &Set,
    production: &Production,
    rule: &RuleItem,
    comps: &[Comp],
) -> Result<(), Memory>
    requires { IsProductionOf rule.now production.now }
    ensures { OnOk result (facts.new.items ≡ facts.old.items
        ++ flat_map (λ (c : Computation). kinds_by_target numbers.now chains.now rule.now c.target) comps.now) }
{
    for comp in comps {
        push_target(facts, numbers, chains, production, rule, &comp.target)?;
    }
    Ok(())
}

fn push_rule(
    alloc: Global,
    facts: &mut Vec<KindFact>,
    numbers: &Names,
    chains: &Set,
    rule: &RuleItem,
) -> Result<(), Memory>
    ensures { OnOk result (facts.new.items ≡ facts.old.items ++ kinds_of_rule numbers.now chains.now rule.now) }
{
    let production = Production::of(alloc, rule)?;
    push_comps(
        facts,
        numbers,
        chains,
        &production,
        rule,
        rule.body.as_slice(),
    )
}

fn push_rules(
    alloc: Global,
    facts: &mut Vec<KindFact>,
    numbers: &Names,
    chains: &Set,
    rules: &[RuleItem],
) -> Result<(), Memory>
    ensures { OnOk result (facts.new.items ≡ facts.old.items ++ flat_map (kinds_of_rule numbers.now chains.now) rules.now) }
{
    for rule in rules {
        push_rule(alloc, facts, numbers, chains, rule)?;
    }
    Ok(())
}

/// The kinds that the text says of attributes on symbols: what SYMBOL items declare, and what computations tell. The time is
/// near linear in the text and the list.
pub fn kind_facts(
    alloc: Global,
    spec: &Spec,
    numbers: &Names,
    chains: &Set,
) -> Result<Vec<KindFact>, Memory>
    ensures { IfOk result (λ facts. facts.items ≡ kinds_of_text numbers.now chains.now spec.now) }
{
    let mut facts = Vec::new(alloc);
    push_rules(alloc, &mut facts, numbers, chains, spec.rules.as_slice())?;
    push_items(alloc, &mut facts, numbers, chains, spec.symbols.as_slice())?;
    Ok(facts)
}
