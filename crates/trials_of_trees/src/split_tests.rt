//! Where trees are split.
use crate::expressions::grammar;
use crate::readings::{long_text, names, read};
use lido_base::{List, NodeId, SymId};
use std::alloc::Global;
use std::test::Fail;
use subtree_split::{find_split, split};
use tree_store::Split;

/// How a text's tree is split at expressions of so many nodes; no node and no region where the text has a fault.
fn split_of(alloc: Global, text: &[u8], min: u32) -> Result<Split, Fail> {
    match read(alloc, text)? {
        Ok(trees) => Ok(split(alloc, &trees, &grammar(alloc)?, &[SymId(1)], min)?),
        Err(_) => Ok(Split {
            nodes: List::new(alloc),
            region_of: List::new(alloc),
        }),
    }
}

/// A tree of six blocks, split at expressions of at least so many nodes: the split nodes, and the region of each flat node.
const SPLITS: [(u32, &[NodeId], &[u8]); 4] = [
    (
        1,
        &[NodeId(1), NodeId(3), NodeId(6), NodeId(8), NodeId(12)],
        &[0, 1, 1, 2, 2, 1, 3, 3, 4, 4, 3, 1, 5, 5, 1],
    ),
    (
        2,
        &[NodeId(1), NodeId(6)],
        &[0, 1, 1, 1, 1, 1, 2, 2, 2, 2, 2, 1, 1, 1, 1],
    ),
    (
        5,
        &[NodeId(1)],
        &[0, 1, 1, 1, 1, 1, 1, 1, 1, 1, 1, 1, 1, 1, 1],
    ),
    (6, &[], &[0, 0, 0, 0, 0, 0, 0, 0, 0, 0, 0, 0, 0, 0, 0]),
];

/// The nonterminal of this name, if there is one.
fn nonterminal(alloc: Global, name: &str) -> Result<Option<SymId>, Fail> {
    let flat = grammar(alloc)?;
    let strings = names(alloc)?;
    let count = strings.len();
    if !flat
        .symbols
        .as_slice()
        .iter()
        .all(|symbol| (symbol.name.0 as usize) < count)
    {
        return Ok(None);
    }
    Ok(find_split(&flat, &strings, name).ok())
}

/// Also where more than 63 nodes could be split nodes: of 71 blocks, the outermost and the first 62 in it are.
#[test]
fn where_trees_are_split(rt: HostRuntime) -> Result<(), Fail> {
    let alloc = rt.alloc();
    let text = b"(rTop (rBlock (rBlock) (rBlock (rBlock)) (rBlock)))";
    for (min, nodes, regions) in SPLITS {
        let found = split_of(alloc, text, min)?;
        assert_eq!(rt; found.nodes.as_slice(), nodes, "at {min}");
        assert_eq!(rt; found.region_of.as_slice(), regions, "at {min}");
    }
    let many = long_text(alloc, &[(b"(rTop(rBlock", 1), (b"(rBlock)", 70)], 2)?;
    let found = split_of(alloc, many.as_slice(), 1)?;
    assert_eq!(rt; found.nodes.len(), 63);
    for (n, region) in [(0, 0), (1, 1), (3, 2), (186, 63), (189, 1), (212, 1)] {
        assert_eq!(rt;
            found.region_of.as_slice().get(n).copied(),
            Some(region),
            "at {n}"
        );
    }
    for (name, symbol) in [
        ("Top", Some(SymId(0))),
        ("Expr", Some(SymId(1))),
        ("Item", Some(SymId(3))),
        ("Num", None),
        ("$rBlock", None),
        ("rBlock", None),
        ("Foo", None),
        ("Exp", None),
        ("", None),
    ] {
        assert_eq!(rt; nonterminal(alloc, name)?, symbol, "at {name}");
    }
    Ok(())
}
