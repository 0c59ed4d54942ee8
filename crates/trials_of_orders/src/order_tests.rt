//! The analysis of orders from end to end.
use crate::{bare_leaf, clashing_contexts, crossed_uses, late_inherited, two_visits};
use flat_grammar::{Cycle, CycleStep, Flat, Label, Occ};
use induced_deps::induce;
use lido_base::{AttrId, Memory, RuleId};
use partitions::{PartFault, partition};
use sequence_checker::check;
use std::alloc::Global;
use std::test::Fail;
use visit_sequences::sequences;

/// The cycle of a grammar, or none where it has a sound plan.
fn cycle_of(alloc: Global, flat: &Flat) -> Result<Option<Cycle>, Memory> {
    let deps = induce(alloc, flat)?;
    match partition(alloc, flat, &deps) {
        Ok(parts) => {
            let plan = sequences(alloc, flat, &deps, &parts)?;
            match check(alloc, flat, &plan) {
                Ok(()) => Ok(None),
                Err(_fault) => Err(Memory),
            }
        }
        Err(fault) => match fault {
            PartFault::Circular(cycle) => Ok(Some(cycle)),
            PartFault::Memory => Err(Memory),
        },
    }
}

/// A step of a cycle.
fn step(occ: u16, attr: u16, label: Label) -> CycleStep {
    CycleStep {
        from: Occ {
            occ,
            attr: AttrId(attr),
        },
        label,
    }
}

#[test]
fn ordered_grammars_have_sound_plans(rt: HostRuntime) -> Result<(), Fail> {
    let alloc = rt.alloc();
    assert!(rt; cycle_of(alloc, &late_inherited::grammar(alloc)?)?.is_none());
    assert!(rt; cycle_of(alloc, &bare_leaf::grammar(alloc)?)?.is_none());
    assert!(rt; cycle_of(alloc, &two_visits::grammar(alloc)?)?.is_none());
    Ok(())
}

#[test]
fn circular_grammars_have_cycles(rt: HostRuntime) -> Result<(), Fail> {
    let alloc = rt.alloc();
    let crossed = [
        step(1, 0, Label::Partition),
        step(1, 1, Label::Direct),
        step(2, 0, Label::Partition),
        step(2, 1, Label::Direct),
    ];
    // The clashing contexts have other cycles too, none of which needs the partition; any of them would be right.
    let clashing = [step(0, 0, Label::Induced)];
    for (flat, wanted) in [
        (crossed_uses::grammar(alloc)?, &crossed[..]),
        (clashing_contexts::grammar(alloc)?, &clashing[..]),
    ] {
        let Some(cycle) = cycle_of(alloc, &flat)? else {
            return Err(Fail::from(Memory));
        };
        assert_eq!(rt; cycle.rule, RuleId(0));
        assert_eq!(rt; cycle.steps.as_slice(), wanted);
    }
    Ok(())
}
