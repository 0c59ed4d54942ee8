//! The table of plans.
use crate::{bare_leaf, late_inherited, two_visits};
use flat_grammar::{Flat, Occ, Plan, PlanItem, VisitClass};
use lido_base::{AttrId, List, Memory, RuleId};
use sequence_checker::{CheckFault, check};
use std::alloc::Global;
use std::test::Fail;

/// A grammar of the table.
#[derive(Clone, Copy)]
enum Grammar {
    BareLeaf,
    LateInherited,
    TwoVisits,
}

/// The first fault of a plan, by rule, place and clause, or none.
type Fault = Option<(u16, u32, u32)>;

/// Plans, and their first faults. The visits are given symbol by symbol, each ended by a semicolon: each visit stands in
/// parentheses, with the numbers of the inherited attributes behind `i`, those of the synthesized ones behind `s`. The
/// sequences are given rule by rule: `e12` evaluates attribute 2 at occurrence 1, `v12` makes visit 2 of the child at
/// occurrence 1, `l02` ends visit 2. `M` is 65,535.
const PLANS: [(Grammar, &[u8], &[u8], Fault); 24] = [
    // Visits in which nothing passes are sound too.
    (
        Grammar::LateInherited,
        b"()(s0)(s1);(i0)();()(s0);",
        b"v21 l01 v22 e00 l02 e10 v11 v12 e01 l03 ;l01 l02 ;l01 e00 l02 ;",
        None,
    ),
    // The rows or the number of sequences are wrong.
    (
        Grammar::LateInherited,
        b"(s01);(i0);(s00);",
        b"e10 v21 e00 e01 v11 l01 ;l01 ;e00 l01 ;",
        Some((0, 0, 0)),
    ),
    (
        Grammar::LateInherited,
        b"(s01);(i0);",
        b"e10 v21 e00 e01 v11 l01 ;l01 ;e00 l01 ;",
        Some((0, 0, 0)),
    ),
    (
        Grammar::BareLeaf,
        b"(s0);;",
        b"e00 v11 l01 ;l01 ;",
        Some((0, 0, 0)),
    ),
    (
        Grammar::TwoVisits,
        b"(s0);(i0s1)(i2s3);();",
        b"e10 v11 e12 v12 e00 l01 ;e01 l01 e03 l02 ;",
        Some((0, 0, 0)),
    ),
    (
        Grammar::LateInherited,
        b"(s01);(i0);(s0);",
        b"e10 v21 e00 e01 v11 l01 ;l01 ;e00 l01 ;l01 ;",
        Some((0, 0, 0)),
    ),
    // A number is out of range, in an item of each kind.
    (
        Grammar::LateInherited,
        b"(s01);(i0);(s0);",
        b"vMM ;;;",
        Some((0, 0, 0)),
    ),
    (
        Grammar::LateInherited,
        b"(s01);(i0);(s0);",
        b"e10 v21 e0M l01 ;;;",
        Some((0, 2, 0)),
    ),
    (
        Grammar::LateInherited,
        b"(s01);(i0);(s0);",
        b"e10 v21 e00 e01 v11 l02 ;;;",
        Some((0, 5, 0)),
    ),
    (
        Grammar::TwoVisits,
        b"(s0);(i0s1)(i2s3);;",
        b"e10 v11 e12 v12 e00 l01 ;v11 ;",
        Some((1, 0, 0)),
    ),
    // What is evaluated is no goal, or was evaluated; at the end a goal is left.
    (
        Grammar::LateInherited,
        b"(s01);(i0);(s0);",
        b"e20 ;;;",
        Some((0, 0, 1)),
    ),
    (
        Grammar::LateInherited,
        b"(s01);(i0);(s0);",
        b"e10 v21 e10 l01 ;;;",
        Some((0, 2, 1)),
    ),
    (
        Grammar::LateInherited,
        b"(s01);(i0);(s0);",
        b"v21 e00 e01 l01 ;;;",
        Some((0, 4, 1)),
    ),
    // The visit isn't the child's next one; at the end one is left.
    (
        Grammar::LateInherited,
        b"(s01);(i0);(s0)();",
        b"v22 ;;;",
        Some((0, 0, 2)),
    ),
    (
        Grammar::LateInherited,
        b"(s01);(i0)();(s0);",
        b"e10 v21 e00 e01 v11 l01 ;;;",
        Some((0, 6, 2)),
    ),
    // What the child inherits in the visit is not evaluated.
    (
        Grammar::TwoVisits,
        b"(s0);(i0s1)(i2s3);;",
        b"e10 v11 v12 ;;",
        Some((0, 2, 3)),
    ),
    // What the goal depends on is not at hand: it comes in a later visit of the child, or of the left side.
    (
        Grammar::LateInherited,
        b"(s01);(i0);()(s0);",
        b"e10 v21 e00 ;;;",
        Some((0, 2, 4)),
    ),
    (
        Grammar::TwoVisits,
        b"(s0);(i0s1)(i2s3);;",
        b"e10 v11 e12 v12 e00 l01 ;e03 ;",
        Some((1, 0, 4)),
    ),
    // The end of a visit stands in another one, or before what the visit owes; at the end the last visit isn't ended.
    (
        Grammar::LateInherited,
        b"()(s01);(i0);(s0);",
        b"l02 ;;;",
        Some((0, 0, 5)),
    ),
    (
        Grammar::LateInherited,
        b"(s01);(i0);(s0);",
        b"e10 l01 v21 ;;;",
        Some((0, 1, 5)),
    ),
    (
        Grammar::TwoVisits,
        b"(s0);(i0s1)(i2s3);;",
        b"e10 v11 e12 v12 e00 l01 ;e01 l01 e03 ;",
        Some((1, 3, 5)),
    ),
    // The first fault counts, by rule and by place.
    (
        Grammar::LateInherited,
        b"(s01);(i0);(s0);",
        b"e10 v21 e00 e01 v11 l01 ;;e00 l01 ;",
        Some((1, 0, 5)),
    ),
    (
        Grammar::LateInherited,
        b"(s01);(i0);(s0);",
        b"e10 v21 e00 e01 v11 l01 ;l01 ;e00 e00 ;",
        Some((2, 1, 1)),
    ),
    (
        Grammar::LateInherited,
        b"(s01);(i0);(s0);",
        b"e10 v11 e00 v31 ;l09 ;e00 e00 ;",
        Some((0, 2, 4)),
    ),
];

/// The number that a character stands for.
fn number(byte: u8) -> u16 {
    if byte.is_ascii_digit() {
        u16::from(byte) - 48
    } else {
        u16::MAX
    }
}

/// A visit in which nothing passes.
fn idle_visit(alloc: Global) -> VisitClass {
    VisitClass {
        inherited: List::new(alloc),
        synthesized: List::new(alloc),
    }
}

/// A visit as the table gives it, up to its closing parenthesis.
fn visit(alloc: Global, text: &[u8]) -> Result<VisitClass, Memory> {
    let mut class = idle_visit(alloc);
    let mut inherited = false;
    for byte in text {
        match *byte {
            b'i' => inherited = true,
            b's' => inherited = false,
            _ => {
                let list = if inherited {
                    &mut class.inherited
                } else {
                    &mut class.synthesized
                };
                list.push(AttrId(number(*byte)))?;
            }
        }
    }
    Ok(class)
}

/// A symbol's visits as the table gives them.
fn row(alloc: Global, text: &[u8]) -> Result<List<VisitClass>, Memory> {
    let mut row = List::new(alloc);
    let mut start = 0;
    for (end, byte) in text.iter().enumerate() {
        if *byte == b'(' {
            start = end + 1;
        }
        if *byte == b')' {
            row.push(visit(alloc, &text[start.min(end)..end])?)?;
        }
    }
    Ok(row)
}

/// The visits of all symbols as the table gives them.
fn visits(alloc: Global, text: &[u8]) -> Result<List<List<VisitClass>>, Memory> {
    let mut rows = List::new(alloc);
    let mut start = 0;
    for (end, byte) in text.iter().enumerate() {
        if *byte == b';' {
            rows.push(row(alloc, &text[start.min(end)..end])?)?;
            start = end + 1;
        }
    }
    Ok(rows)
}

/// A sequence as the table gives it: four characters for each item.
fn sequence(alloc: Global, text: &[u8]) -> Result<List<PlanItem>, Memory> {
    let mut items = List::new(alloc);
    for item in text.chunks(4) {
        if let [kind, first, second, ..] = item {
            let (occ, last) = (number(*first), number(*second));
            items.push(match *kind {
                b'e' => PlanItem::Eval(Occ {
                    occ,
                    attr: AttrId(last),
                }),
                b'v' => PlanItem::Visit { occ, visit: last },
                _ => PlanItem::Leave { visit: last },
            })?;
        }
    }
    Ok(items)
}

/// The sequences of all rules as the table gives them.
fn sequences(alloc: Global, text: &[u8]) -> Result<List<List<PlanItem>>, Memory> {
    let mut seqs = List::new(alloc);
    let mut start = 0;
    for (end, byte) in text.iter().enumerate() {
        if *byte == b';' {
            seqs.push(sequence(alloc, &text[start.min(end)..end])?)?;
            start = end + 1;
        }
    }
    Ok(seqs)
}

/// The grammar's value.
fn flat_of(alloc: Global, which: Grammar) -> Result<Flat, Memory> {
    match which {
        Grammar::BareLeaf => bare_leaf::grammar(alloc),
        Grammar::LateInherited => late_inherited::grammar(alloc),
        Grammar::TwoVisits => two_visits::grammar(alloc),
    }
}

/// The answer that a fault stands for.
fn answer(fault: Fault) -> Result<(), CheckFault> {
    match fault {
        Some((rule, place, clause)) => Err(CheckFault::Unsound {
            rule: RuleId(rule),
            place,
            clause,
        }),
        None => Ok(()),
    }
}

#[test]
fn table_of_plans(rt: HostRuntime) -> Result<(), Fail> {
    let alloc = rt.alloc();
    for (which, rows, seqs, fault) in PLANS {
        let plan = Plan {
            visits: visits(alloc, rows)?,
            seqs: sequences(alloc, seqs)?,
        };
        let flat = flat_of(alloc, which)?;
        assert_eq!(rt; check(alloc, &flat, &plan), answer(fault));
    }
    Ok(())
}
