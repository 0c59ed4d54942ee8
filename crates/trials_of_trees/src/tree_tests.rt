//! Texts and what they give over the grammar of expressions, each limit on both sides.
use crate::expressions::{NAMES, grammar};
use crate::readings::{long_text, names, read};
use lido_base::{Many, NodeId};
use std::alloc::Global;
use std::test::Fail;
use tree_reader::{scan_tree, write_tree};
use tree_store::TreeFault::{TooMany, TreeSyntax, UnknownRule, WrongChild, WrongRoot};
use tree_store::{Tree, TreeFault};

/// The example's tree.
const WHOLE: &[u8] = b"(rTop (rAdd (rNum 3) (rNum 4)))";

/// A tree with every kind of part.
const CUT: &[u8] = b"(rTop @12:3 (rBlock (rP -4 \"\\n\\12\")))";

/// Texts outside the language of trees, and where they leave it.
const OUTSIDE: [(&[u8], u32); 32] = [
    (b"  ", 2),
    (b"()", 1),
    (b"(a.b)", 2),
    (b"(a 1b)", 4),
    (b"(a -)", 4),
    (b"(a 9223372036854775808)", 21),
    (b"(a -09223372036854775809)", 23),
    (b"(a \"\\400\")", 7),
    (b"(a \"\\x\")", 5),
    (b"(a \"\n\")", 4),
    (b"(a \"b\\12", 8),
    (b"(a))", 3),
    (b"(a) (b)", 4),
    (b"(a // b\n)", 3),
    (b"(rTop (rFoo) x", 13),
    (b"(rTop@1 (rLeaf 5))", 7),
    (b"(@1:1)", 1),
    (b"(a@", 3),
    (b"(a@:1)", 3),
    (b"(a@-1:1)", 3),
    (b"(a@ 1:1)", 3),
    (b"(a@1", 4),
    (b"(a@1 :1)", 4),
    (b"(a@1:)", 5),
    (b"(a@1: 1)", 5),
    (b"(a@1:1b)", 6),
    (b"(a@1:1 @1:1)", 7),
    (b"(a 5@1:1)", 4),
    (b"(a@4294967296:1)", 12),
    (b"(a@1:4294967296)", 14),
    (b"(a@00000000001:1)", 13),
    (b"(a@1:00000000001)", 15),
];

/// Texts of trees, and the written node of each flat node; or the first fault.
const TREES: [(&[u8], Result<&[u32], TreeFault>); 16] = [
    (WHOLE, Ok(&[0, 1, 2, 3])),
    (
        b"\t\r\n (\t\r\n rTop\t\r\n (\t\r\n rNum\t\r\n 3\t\r\n )\t\r\n )\t\r\n ",
        Ok(&[0, 1]),
    ),
    (
        b"(rTop@1:1(rAdd @2:2(rNum@3:3 007)(rNum-9223372036854775808)))",
        Ok(&[0, 1, 2, 3]),
    ),
    (b"(rTop (rSum))", Ok(&[0, 1, 1])),
    (
        b"(rTop (rBlock (rP -0 \"\\\"\\\\\\377(rTop\")(rP 1\"rTop\")))",
        Ok(&[0, 1, 1, 2, 1, 3, 1]),
    ),
    (
        b"(rTop (rSum (rNum 1) (rBlock (rNum 2) (rRich) (rSum))))",
        Ok(&[0, 1, 1, 2, 1, 3, 3, 4, 3, 5, 3, 6, 6, 3, 1]),
    ),
    (b"( rFoo)", Err(UnknownRule { at: 2 })),
    (b"(rTop (of_expr))", Err(UnknownRule { at: 7 })),
    (b"( rNum 3)", Err(WrongRoot { at: 2 })),
    (b"(rTop ( rTop@1:1 (rBlock)))", Err(WrongChild { at: 6 })),
    (b"(rTop@1:1)", Err(WrongChild { at: 9 })),
    (b"(rTop 3 (rFoo))", Err(WrongChild { at: 6 })),
    (b"(rTop (rNum \"x\"))", Err(WrongChild { at: 12 })),
    (b"(rTop (rNum 3 4))", Err(WrongChild { at: 14 })),
    (b"(rTop (rSum (rRich)))", Err(WrongChild { at: 12 })),
    (
        b"(rTop (rBlock (rP 1 \"x\" (rRich))))",
        Err(WrongChild { at: 24 }),
    ),
];

/// How many nodes a text's tree has, or its fault, where its parts are read first.
fn nodes_of(alloc: Global, text: &[u8]) -> Result<Result<u32, TreeFault>, Fail> {
    if text.len() > 8_388_608 {
        return Ok(Err(TreeFault::Memory));
    }
    let parts = match scan_tree(alloc, text) {
        Ok(parts) => parts,
        Err(e) => return Ok(Err(e)),
    };
    if parts.len() > 8_388_608 {
        return Ok(Err(TreeFault::Memory));
    }
    let mut strings = names(alloc)?;
    match write_tree(alloc, &grammar(alloc)?, &mut strings, parts.as_slice()) {
        Ok(tree) => Ok(Ok(tree.len())),
        Err(e) => Ok(Err(e)),
    }
}

/// The coordinates of a tree's nodes.
fn places(alloc: Global, tree: &Tree) -> Result<Vec<(u32, u32)>, Fail> {
    let mut places = Vec::new(alloc);
    for n in 0..tree.len() {
        places.push((tree.line(NodeId(n)), tree.column(NodeId(n))))?;
    }
    Ok(places)
}

/// Texts, and the coordinates of their written and their flat nodes.
const COORDINATES: [(&[u8], &[(u32, u32)], &[(u32, u32)]); 4] = [
    (b"(rTop (rNum 5))", &[(0, 0), (0, 0)], &[(0, 0), (0, 0)]),
    (b"(rTop@2:4 (rNum 5))", &[(2, 4), (2, 4)], &[(2, 4), (2, 4)]),
    (
        b"(rTop @4294967295:0000000007(rNum\t@0:4294967295\"x\"))",
        &[],
        &[],
    ),
    (
        b"(rTop@1:1 (rAdd (rNum@3:7 5) (rSum@4:2 (rNum 6) (rNum@5:9 7))))",
        &[(1, 1), (1, 1), (3, 7), (4, 2), (4, 2), (5, 9)],
        &[
            (1, 1),
            (1, 1),
            (3, 7),
            (4, 2),
            (4, 2),
            (4, 2),
            (4, 2),
            (5, 9),
            (4, 2),
        ],
    ),
];

/// Threads may share these values, and they may move between threads.
fn crosses<T: Send + Sync>(_value: &T) {}

/// They are those behind the name, else the parent's, else 0 and 0; a cell has those of its list.
#[test]
fn coordinates_are_handed_down(rt: HostRuntime) -> Result<(), Fail> {
    let alloc = rt.alloc();
    for (text, written, flat) in COORDINATES {
        match read(alloc, text)? {
            Ok(trees) => {
                crosses(&trees);
                assert_eq!(rt;
                    places(alloc, &trees.written)?.as_slice(),
                    written,
                    "at {text:?}"
                );
                assert_eq!(rt; places(alloc, &trees.flat)?.as_slice(), flat, "at {text:?}");
            }
            Err(fault) => assert_eq!(rt; fault, WrongChild { at: 47 }, "at {text:?}"),
        }
    }
    Ok(())
}

/// Whether a text gives this, read at once and in two steps.
fn is_answer(alloc: Global, text: &[u8], want: Result<&[u32], TreeFault>) -> Result<bool, Fail> {
    let nodes = nodes_of(alloc, text)?;
    Ok(match (read(alloc, text)?, want) {
        (Ok(trees), Ok(node_of)) => {
            trees.node_of.as_slice() == node_of && nodes == Ok(trees.written.len())
        }
        (Err(found), Err(fault)) => found == fault && nodes == Err(fault),
        _ => false,
    })
}

/// A text that is cut off leaves the language at its length.
#[test]
fn texts_and_their_trees(rt: HostRuntime) -> Result<(), Fail> {
    let alloc = rt.alloc();
    for (k, name) in NAMES.iter().enumerate() {
        let id = names(alloc)?.intern(name.as_bytes())?;
        assert_eq!(rt; id.0 as usize, k);
    }
    for (text, want) in TREES {
        assert!(rt; is_answer(alloc, text, want)?, "at {text:?}");
    }
    for (text, at) in OUTSIDE {
        assert!(rt;
            is_answer(alloc, text, Err(TreeSyntax { at }))?,
            "at {text:?}"
        );
    }
    let mut front = Vec::new(alloc);
    for (k, b) in CUT.iter().enumerate() {
        let at = u32::try_from(k).unwrap_or(0);
        assert!(rt;
            is_answer(alloc, front.as_slice(), Err(TreeSyntax { at }))?,
            "cut at {k}"
        );
        front.push(*b)?;
    }
    Ok(())
}

/// How many written and flat nodes a tree has, or its fault.
type Sizes = Result<(u32, u32), TreeFault>;

/// The fault of a tree with too many nodes.
const NODES: Sizes = Err(TooMany { what: Many::Nodes });

/// The fault of a tree with too many instances.
const INSTANCES: Sizes = Err(TooMany {
    what: Many::Instances,
});

/// The fault of a tree with too many text cells.
const TEXT_CELLS: Sizes = Err(TooMany {
    what: Many::TextCells,
});

/// Deep and broad trees, by the pieces of their texts and the closing brackets. Each limit has both its sides; nodes come first, then
/// instances, then text cells.
const LARGE: [(&[(&[u8], u32)], u32, Sizes); 6] = [
    (
        &[(b"(rTop(rBlock", 1), (b"(rR", 1_048_573), (b"(rRich)", 1)],
        1_048_575,
        Ok((1_048_576, 1_048_578)),
    ),
    (
        &[(b"(rTop(rBlock", 1), (b"(rR", 1_048_574), (b"(rRich)", 1)],
        1_048_576,
        NODES,
    ),
    (
        &[(b"(rTop(rBlock", 1), (b"(rBlock)", 838_860)],
        2,
        Ok((838_862, 2_516_583)),
    ),
    (
        &[(b"(rTop(rBlock", 1), (b"(rBlock)", 838_861)],
        2,
        INSTANCES,
    ),
    (
        &[(b"(rTop(rBlock", 1), (b"(rRich)", 524_288)],
        2,
        Ok((524_290, 1_048_579)),
    ),
    (
        &[(b"(rTop(rBlock", 1), (b"(rRich)", 524_289)],
        2,
        TEXT_CELLS,
    ),
];

/// How many written and flat nodes a text gives, or the fault.
fn sizes(alloc: Global, text: &[u8]) -> Result<Sizes, Fail> {
    Ok(match read(alloc, text)? {
        Ok(trees) => Ok((trees.written.len(), trees.flat.len())),
        Err(fault) => Err(fault),
    })
}

#[test]
fn large_trees(rt: HostRuntime) -> Result<(), Fail> {
    let alloc = rt.alloc();
    for (pieces, ends, want) in LARGE {
        let text = long_text(alloc, pieces, ends)?;
        assert_eq!(rt; sizes(alloc, text.as_slice())?, want, "at {pieces:?}");
    }
    Ok(())
}
