//! Plans with as many visits as items can name.
use flat_grammar::{Flat, Occ, Plan, PlanItem, VisitClass};
use lido_base::{AttrId, List, Memory, RuleId};
use sequence_checker::{CheckFault, check};
use std::alloc::{AllocError, Global};
use std::test::Fail;
use std::time::Instant;
use trials_of_orders::late_inherited;

/// The most visits that items can name.
const MOST_VISITS: u16 = u16::MAX;

/// A visit in which these attributes pass.
fn visit(alloc: Global, inherited: &[u16], synthesized: &[u16]) -> Result<VisitClass, AllocError> {
    Ok(VisitClass {
        inherited: List::from_vec(inherited.iter().map(|a| AttrId(*a)).collect(alloc)?),
        synthesized: List::from_vec(synthesized.iter().map(|a| AttrId(*a)).collect(alloc)?),
    })
}

/// So many visits, of which this is the first or the last one. In the others nothing passes.
fn many_visits(
    alloc: Global,
    first: VisitClass,
    last: VisitClass,
    idle: u16,
) -> Result<List<VisitClass>, AllocError> {
    let mut row = List::new(alloc);
    row.push(first)?;
    for _ in 0..idle {
        row.push(visit(alloc, &[], &[])?)?;
    }
    row.push(last)?;
    Ok(row)
}

/// The rows of the grammar: A has the most visits that items can name, and B so many more.
fn long_rows(alloc: Global, more: u16) -> Result<List<List<VisitClass>>, AllocError> {
    let idle = MOST_VISITS - 2;
    let mut of_s = List::new(alloc);
    of_s.push(visit(alloc, &[], &[0, 1])?)?;
    let of_a = many_visits(
        alloc,
        visit(alloc, &[0], &[])?,
        visit(alloc, &[], &[])?,
        idle,
    )?;
    let mut of_b = many_visits(
        alloc,
        visit(alloc, &[], &[])?,
        visit(alloc, &[], &[0])?,
        idle,
    )?;
    for _ in 0..more {
        of_b.push(visit(alloc, &[], &[])?)?;
    }
    let mut rows = List::new(alloc);
    rows.push(of_s)?;
    rows.push(of_a)?;
    rows.push(of_b)?;
    Ok(rows)
}

/// Adds an evaluation.
fn evaluate(items: &mut List<PlanItem>, occ: u16, attr: u16) -> Result<(), AllocError> {
    let attr = AttrId(attr);
    items.push(PlanItem::Eval(Occ { occ, attr }))
}

/// Adds each visit of a child in turn.
fn visit_all(items: &mut List<PlanItem>, occ: u16) -> Result<(), AllocError> {
    for made in 0..MOST_VISITS {
        let visit = made + 1;
        items.push(PlanItem::Visit { occ, visit })?;
    }
    Ok(())
}

/// Adds the end of each visit in turn.
fn leave_all(items: &mut List<PlanItem>) -> Result<(), AllocError> {
    for ended in 0..MOST_VISITS {
        items.push(PlanItem::Leave { visit: ended + 1 })?;
    }
    Ok(())
}

/// The sequences for these rows.
fn long_sequences(alloc: Global) -> Result<List<List<PlanItem>>, AllocError> {
    let mut of_s = List::new(alloc);
    evaluate(&mut of_s, 1, 0)?;
    visit_all(&mut of_s, 1)?;
    visit_all(&mut of_s, 2)?;
    evaluate(&mut of_s, 0, 0)?;
    evaluate(&mut of_s, 0, 1)?;
    of_s.push(PlanItem::Leave { visit: 1 })?;
    let mut of_a = List::new(alloc);
    leave_all(&mut of_a)?;
    let mut of_b = List::new(alloc);
    evaluate(&mut of_b, 0, 0)?;
    leave_all(&mut of_b)?;
    let mut seqs = List::new(alloc);
    seqs.push(of_s)?;
    seqs.push(of_a)?;
    seqs.push(of_b)?;
    Ok(seqs)
}

/// What the check says of the plan in which B has so many more visits than its rule's sequence makes.
fn judged(alloc: Global, flat: &Flat, more: u16) -> Result<Result<(), CheckFault>, Memory> {
    let visits = long_rows(alloc, more)?;
    let seqs = long_sequences(alloc)?;
    Ok(check(alloc, flat, &Plan { visits, seqs }))
}

#[test]
fn as_many_visits_as_items_can_name(rt: HostRuntime) -> Result<(), Fail> {
    let alloc = rt.alloc();
    let flat = late_inherited::grammar(alloc)?;
    let start = Instant::now(&rt)?;
    assert_eq!(rt; judged(alloc, &flat, 0)?, Ok(()));
    let missing = CheckFault::Unsound {
        rule: RuleId(0),
        place: 131_074,
        clause: 2,
    };
    assert_eq!(rt; judged(alloc, &flat, 1)?, Err(missing));
    assert!(rt; start.elapsed(&rt)?.as_secs() < 30);
    Ok(())
}
