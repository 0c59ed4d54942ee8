//! What is in force in a plain rule, in order.
ghost use Rattle.std.specs.Prelude.{◌≡◌, ◌++◌, ◌+◌, ◌∷◌, [], ◌↔◌, ℕ, IsTrue, true, Some, slice_get, length, filter, IfOk, OnOk};
ghost use Rattle.lido_base.specs.Environment.{Environment};
ghost use Rattle.lido_syntax.specs.declared.spec.RuleItem.{RuleItem as Rule};
ghost use Rattle.lido_syntax.specs.Computation.{is_message as gives_message, messages_of};
ghost use Rattle.lido_syntax.specs.declared.spec.Target.TheVariants as Aimed;
ghost use Rattle.lido_syntax.specs.Completeness.{IsSingle};
ghost use Rattle.rule_tables.specs.declared.table.Tables.{Tables as Rows};
ghost use Rattle.rule_tables.specs.PlainRules.{PlainRule};
ghost use Rattle.rule_tables.specs.ForcedOf.{IsAttributeAt, IsChainAt};
ghost use Rattle.symbol_inherit.specs.Rules.{HasRule, HasRuleAt};
ghost use Rattle.symbol_inherit.specs.Entries.{entries_of, attrs_at, attribute_aim as aim_of_attribute, chain_way as way_of_chain};
ghost use Rattle.symbol_inherit.specs.Entries.{chain_goal as goal_of_chain, chain_kind, AreUpTo, AreKnown, IsOccurrenceOf, HasRightSide, IsOutOf};

use crate::forced::{Held, resolve};
use crate::index::Index;
use crate::symbols::Symbols;
use computation_aims::{Aim, Way};
use flat_grammar::FlatAttr;
use lido_base::{AttrId, Memory, StrId, SymId};
use lido_syntax::{Comp, Target, Typed1};
use rule_tables::{Force, Goal, SymbolRow};

/// The number in 16 bits. That it is larger is want of memory.
pub fn narrow(number: usize) -> Result<u16, Memory>
    ensures { IfOk result (λ n. n ≡ number) }
{
    if number > 65535 {
        return Err(Memory);
    }
    Ok(number as u16)
}

/// The number in 32 bits. That it is larger is want of memory.
fn shorten(number: usize) -> Result<u32, Memory>
    ensures { IfOk result (λ n. n ≡ number) }
{
    if number > 4294967295 {
        return Err(Memory);
    }
    Ok(number as u32)
}

/// An attribute of an occurrence as what is given a value to: at the left side from below, else from above.
pub fn attribute_aim(occ: u16, name: StrId) -> Aim
    ensures { result ≡ aim_of_attribute occ name }
{
    let way = if occ > 0 {
        Way::Inherited
    } else {
        Way::Synthesized
    };
    Aim { way, name }
}

/// The attributes of the symbol with this number.
pub fn attributes(rows: &[SymbolRow], x: u16) -> &[FlatAttr]
    ensures { result.now ≡ attrs_at rows.now x }
{
    match rows.get(x as usize) {
        Some(row) => row.attrs.as_slice(),
        None => &[],
    }
}

/// Adds what is held for a goal.
pub fn push_held(
    entries: &mut Vec<Force>,
    occ: u16,
    goal: Goal,
    held: Option<Held>,
) -> Result<(), Memory>
    ensures { OnOk result (entries.new.items ≡ entries.old.items ++ entries_of occ goal held) }
{
    if let Some(held) = held {
        entries.push(Force {
            occ,
            goal,
            context: held.context,
            number: held.number,
        })?;
    }
    Ok(())
}

/// Adds what is in force for the attribute of that number.
fn push_attribute(
    entries: &mut Vec<Force>,
    rule: &Index,
    symbols: &Symbols,
    x: u16,
    occ: u16,
    id: usize,
    name: StrId,
) -> Result<(), Memory>
    ensures { OnOk result ((env : Environment) (t : Rows) (p : PlainRule) (r : Rule) (s : ℕ) → AreKnown env t symbols.now
        → HasRuleAt t.spec r occ rule.now → IsOccurrenceOf t p r occ s x → IsAttributeAt t x (record { 0 = id }) name.0
        → AreUpTo t p 0 occ id entries.old.items → AreUpTo t p 0 occ (id + 1) entries.new.items) }
{
    let number = narrow(id)?;
    let aim = attribute_aim(occ, name);
    let held = resolve(rule, symbols, x, occ, aim);
    push_held(entries, occ, Goal::Attr(AttrId(number)), held)?;
    Ok(())
}

/// Adds what is in force for the attributes of an occurrence.
pub fn push_attributes(
    entries: &mut Vec<Force>,
    rule: &Index,
    symbols: &Symbols,
    x: u16,
    occ: u16,
    attrs: &[FlatAttr],
) -> Result<(), Memory>
    ensures { OnOk result ((env : Environment) (t : Rows) (p : PlainRule) (r : Rule) (s : ℕ) → AreKnown env t symbols.now
        → HasRuleAt t.spec r occ rule.now → IsOccurrenceOf t p r occ s x → attrs_at t.symbols x ≡ attrs.now
        → AreUpTo t p 0 occ 0 entries.old.items → AreUpTo t p 0 (occ + 1) 0 entries.new.items) }
{
    for (id, attr) in attrs.iter().enumerate() {
        push_attribute(entries, rule, symbols, x, occ, id, attr.name)?;
    }
    Ok(())
}

/// Adds what is in force for the attributes of the right side.
pub fn push_right_side(
    entries: &mut Vec<Force>,
    rule: &Index,
    symbols: &Symbols,
    rows: &[SymbolRow],
    right: &[SymId],
) -> Result<(), Memory>
    ensures { OnOk result ((env : Environment) (t : Rows) (p : PlainRule) (r : Rule) → AreKnown env t symbols.now
        → HasRule t.spec r rule.now → t.symbols ≡ rows.now → HasRightSide t p r right.now
        → AreUpTo t p 0 1 0 entries.old.items → AreUpTo t p 0 (length right.now + 1) 0 entries.new.items) }
{
    for (k, symbol) in right.iter().enumerate() {
        let occ = narrow(k + 1)?;
        let attrs = attributes(rows, symbol.0);
        push_attributes(entries, rule, symbols, symbol.0, occ, attrs)?;
    }
    Ok(())
}

/// How a chain is given a value, at its start or behind the left side.
pub fn chain_way(is_behind: bool) -> Way
    ensures { result ≡ way_of_chain is_behind }
{
    if is_behind { Way::Behind } else { Way::Start }
}

/// The start of the chain that is declared at this place, or what is behind the left side in it.
fn chain_goal(is_behind: bool, place: u32) -> Goal
    ensures { result ≡ goal_of_chain is_behind place }
{
    if is_behind {
        Goal::Behind(place)
    } else {
        Goal::Start(place)
    }
}

/// Adds what is in force for a chain.
fn push_chain(
    entries: &mut Vec<Force>,
    rule: &Index,
    symbols: &Symbols,
    x: u16,
    is_behind: bool,
    place: usize,
    name: StrId,
) -> Result<(), Memory>
    ensures { OnOk result ((env : Environment) (t : Rows) (p : PlainRule) (r : Rule) (s : ℕ) → AreKnown env t symbols.now
        → HasRuleAt t.spec r 0 rule.now → IsOccurrenceOf t p r 0 s x → IsChainAt t place name.0
        → AreUpTo t p (chain_kind is_behind) 0 place entries.old.items
        → AreUpTo t p (chain_kind is_behind) 0 (place + 1) entries.new.items) }
{
    let number = shorten(place)?;
    let goal = chain_goal(is_behind, number);
    let way = chain_way(is_behind);
    let held = resolve(rule, symbols, x, 0, Aim { way, name });
    push_held(entries, 0, goal, held)?;
    Ok(())
}

/// Adds what is in force for the chains, their starts or what is behind the left side in them.
pub fn push_chains(
    entries: &mut Vec<Force>,
    rule: &Index,
    symbols: &Symbols,
    x: u16,
    is_behind: bool,
    chains: &[Typed1],
) -> Result<(), Memory>
    ensures { OnOk result ((env : Environment) (t : Rows) (p : PlainRule) (r : Rule) (s : ℕ) → AreKnown env t symbols.now
        → HasRuleAt t.spec r 0 rule.now → IsOccurrenceOf t p r 0 s x → t.spec.chains ≡ chains.now
        → AreUpTo t p (chain_kind is_behind) 0 0 entries.old.items
        → AreUpTo t p (chain_kind is_behind + 1) 0 0 entries.new.items) }
{
    for (place, chain) in chains.iter().enumerate() {
        push_chain(entries, rule, symbols, x, is_behind, place, chain.name.id)?;
    }
    Ok(())
}

/// Whether the computation gives the output.
fn is_output(comp: &Comp) -> bool
    ensures { IsTrue result ↔ (comp.now.target ≡ Aimed.Out) }
{
    match comp.target {
        Target::Out => true,
        _ => false,
    }
}

/// What is held of a rule's own computation.
fn held_by_rule(comp: &Comp) -> Held
    ensures { result ≡ record { context = 0; number = comp.now.number } }
{
    Held {
        context: 0,
        number: comp.number,
    }
}

/// The rule's output, if it has one.
pub fn output(body: &[Comp]) -> Option<Held>
    ensures { IsOutOf body.now result }
{
    for comp in body {
        if is_output(comp) {
            return Some(held_by_rule(comp));
        }
    }
    None
}

/// Whether the computation gives a message.
fn is_message(comp: &Comp) -> bool
    ensures { result ≡ gives_message comp.now }
{
    match comp.target {
        Target::Message(..) => true,
        _ => false,
    }
}

/// The next number. That it is larger than 32 bits is want of memory.
fn next(number: u32) -> Result<u32, Memory>
    ensures { IfOk result (λ n. n ≡ number + 1) }
{
    if number == 4294967295 {
        return Err(Memory);
    }
    Ok(number + 1)
}

/// Adds the message of a computation, if it gives one, and answers how many messages there are with it.
fn push_message(entries: &mut Vec<Force>, comp: &Comp, count: u32) -> Result<u32, Memory>
    ensures count { IfOk result (λ n. n ≡ count + length (filter gives_message (comp.now ∷ []))) }
    ensures entries { IfOk result (λ n. (t : Rows) (p : PlainRule) (r : Rule) (s x : ℕ) → IsSingle t.spec → IsOccurrenceOf t p r 0 s x
        → (gives_message comp.now ≡ true → slice_get (messages_of r) count ≡ Some comp.now)
        → AreUpTo t p 4 0 (count + 1) entries.old.items → AreUpTo t p 4 0 (n + 1) entries.new.items) }
{
    if !is_message(comp) {
        return Ok(count);
    }
    let number = next(count)?;
    let held = held_by_rule(comp);
    push_held(entries, 0, Goal::Message(number), Some(held))?;
    Ok(number)
}

/// Adds the messages of a rule, which are counted from 1.
pub fn push_messages(entries: &mut Vec<Force>, body: &[Comp]) -> Result<(), Memory>
    ensures { OnOk result ((t : Rows) (p : PlainRule) (r : Rule) (s x : ℕ) → IsSingle t.spec → IsOccurrenceOf t p r 0 s x
        → r.body ≡ body.now → AreUpTo t p 4 0 0 entries.old.items → AreUpTo t p 5 0 0 entries.new.items) }
{
    let mut count = 0;
    for comp in body {
        count = push_message(entries, comp, count)?;
    }
    Ok(())
}
