//! The time of the analysis, and that its answer is sound.
ghost use Rattle.std.specs.Prelude.{◌≡◌, ◌+◌, ◌*◌, ◌<◌, ◌≤◌};
ghost use Rattle.large_grammars.specs.Sizes.{IsWithin};

use flat_grammar::{CycleStep, Label, Occ};
use induced_deps::induce;
use large_grammars::{Flow, Size, grammar};
use lido_base::{AttrId, Memory, RuleId};
use partitions::{PartFault, partition};
use sequence_checker::check;
use std::alloc::Global;
use std::test::Fail;
use std::time::Instant;
use visit_sequences::sequences;

/// Whether the grammar of this size has a sound plan.
fn is_planned(alloc: Global, size: Size, flow: Flow) -> Result<bool, Memory>
    requires { IsWithin size }
{
    let flat = grammar(alloc, size, flow)?;
    let deps = induce(alloc, &flat)?;
    match partition(alloc, &flat, &deps) {
        Ok(parts) => {
            let plan = sequences(alloc, &flat, &deps, &parts)?;
            Ok(check(alloc, &flat, &plan).is_ok())
        }
        Err(_fault) => Ok(false),
    }
}

/// Whether the grammar of this size has a sound plan within half a minute. The bound is wide, since the machine may do other work
/// beside: without it the slowest takes a few seconds.
fn is_soon_planned(rt: &HostRuntime, size: Size, flow: Flow) -> Result<bool, Fail>
    requires { IsWithin size }
{
    let start = Instant::now(rt)?;
    Ok(is_planned(rt.alloc(), size, flow)? && start.elapsed(rt)?.as_secs() < 30)
}

/// So many rules, and half as many symbols.
fn rules(rules: usize, attributes: usize, children: usize, bottom_up: bool) -> Size
    requires some { 2 ≤ rules }
    requires rules { rules ≤ 1024 }
    requires attributes { attributes ≤ 256 }
    requires child { 0 < children }
    requires occurrences { (1 + children) * attributes ≤ 1024 }
    requires children { children < 1024 }
    ensures { IsWithin result }
{
    Size {
        symbols: rules / 2,
        attributes,
        rules,
        children,
        bottom_up,
    }
}

/// Symbols under one another with 64 inherited and 64 synthesized attributes, two rules for each.
fn rotated(symbols: usize) -> Size
    requires some { 0 < symbols }
    requires few { symbols ≤ 256 }
    ensures { IsWithin result }
{
    Size {
        symbols,
        attributes: 128,
        rules: 2 * symbols,
        children: 1,
        bottom_up: false,
    }
}

/// A step of a cycle.
fn step(occ: u16, attr: u16, label: Label) -> CycleStep {
    let from = Occ {
        occ,
        attr: AttrId(attr),
    };
    CycleStep { from, label }
}

#[test]
fn straight_flow(rt: HostRuntime) -> Result<(), Fail> {
    assert!(rt; is_soon_planned(&rt, rules(1_024, 128, 7, false), Flow::Straight)?);
    Ok(())
}

#[test]
fn straight_flow_from_below(rt: HostRuntime) -> Result<(), Fail> {
    assert!(rt; is_soon_planned(&rt, rules(1_024, 128, 7, true), Flow::Straight)?);
    Ok(())
}

#[test]
fn flow_in_turns(rt: HostRuntime) -> Result<(), Fail> {
    assert!(rt; is_soon_planned(&rt, rules(1_024, 128, 7, false), Flow::Turns)?);
    Ok(())
}

#[test]
fn late_flow(rt: HostRuntime) -> Result<(), Fail> {
    assert!(rt; is_soon_planned(&rt, rules(1_024, 128, 7, false), Flow::Late)?);
    Ok(())
}

#[test]
fn dense_flow(rt: HostRuntime) -> Result<(), Fail> {
    assert!(rt; is_soon_planned(&rt, rules(1_024, 128, 7, false), Flow::Dense)?);
    Ok(())
}

#[test]
fn dense_flow_through_most_attributes(rt: HostRuntime) -> Result<(), Fail> {
    assert!(rt; is_soon_planned(&rt, rules(1_024, 256, 3, false), Flow::Dense)?);
    Ok(())
}

#[test]
fn pairs_induced_one_by_one(rt: HostRuntime) -> Result<(), Fail> {
    assert!(rt; is_soon_planned(&rt, rotated(1), Flow::Rotated)?);
    Ok(())
}

#[test]
fn cycle_between_the_first_and_the_last_attribute(rt: HostRuntime) -> Result<(), Fail> {
    let alloc = rt.alloc();
    let flat = grammar(alloc, rules(2, 256, 2, false), Flow::Crossed)?;
    let deps = induce(alloc, &flat)?;
    let Err(PartFault::Circular(cycle)) = partition(alloc, &flat, &deps) else {
        return Err(Fail::from(Memory));
    };
    let wanted = [
        step(1, 0, Label::Partition),
        step(1, 255, Label::Direct),
        step(2, 0, Label::Partition),
        step(2, 255, Label::Direct),
    ];
    assert_eq!(rt; cycle.rule, RuleId(0));
    assert_eq!(rt; cycle.steps.as_slice(), &wanted[..]);
    Ok(())
}

#[test]
fn dense_flow_through_many_children(rt: HostRuntime) -> Result<(), Fail> {
    assert!(rt; is_soon_planned(&rt, rules(40, 4, 255, false), Flow::Dense)?);
    Ok(())
}

#[test]
fn most_children(rt: HostRuntime) -> Result<(), Fail> {
    assert!(rt; is_soon_planned(&rt, rules(200, 1, 1_023, true), Flow::Straight)?);
    Ok(())
}
