//! The lists of the two regions, by a cursor.
ghost use Rattle.std.specs.Prelude.{◌≤◌, length};

use crate::two_regions::job;
use core_machine::{Cursor, Item, Job};
use flat_grammar::Occ;
use lido_base::{AttrId, Memory, NodeId};
use std::alloc::Global;

/// The items of a region.
#[tactic(auto, using(crate::proofs::WalkLemmas::some_left, crate::proofs::WalkLemmas::fewer_left))]
fn walked(alloc: Global, job: &Job, region: u32) -> Result<Vec<Item>, Memory>
    requires { region ≤ length job.now.nodes }
{
    let mut cursor = Cursor::new(alloc, job, region)?;
    let mut items = Vec::new(alloc);
    while let Some(item) = cursor.item(job) {
        items.push(item)?;
        cursor.step(job);
    }
    Ok(items)
}

/// The evaluation of a goal of a node's rule.
fn eval(node: u32, occ: u16, attr: u16) -> Item {
    Item::Eval {
        node: NodeId(node),
        occ: Occ {
            occ,
            attr: AttrId(attr),
        },
    }
}

#[test]
fn region_of_the_root(rt: HostRuntime) -> Result<(), Memory> {
    let job = job(rt.alloc())?;
    let items = walked(rt.alloc(), &job, 0)?;
    let wanted = [
        eval(0, 1, 0),
        eval(1, 1, 0),
        eval(2, 0, 1),
        eval(1, 2, 0),
        Item::Put { key: 0 },
        eval(1, 0, 1),
        eval(0, 0, 0),
    ];
    assert_eq!(rt; items.as_slice(), &wanted[..]);
    Ok(())
}

#[test]
fn region_of_the_second_cell(rt: HostRuntime) -> Result<(), Memory> {
    let job = job(rt.alloc())?;
    let items = walked(rt.alloc(), &job, 1)?;
    let wanted = [
        eval(3, 1, 0),
        eval(4, 0, 1),
        eval(3, 2, 0),
        eval(5, 0, 1),
        eval(3, 0, 1),
        Item::Put { key: 1 },
    ];
    assert_eq!(rt; items.as_slice(), &wanted[..]);
    Ok(())
}
