//! Texts and their parts.
use crate::readings::long_text;
use Wanted::{Begin, End, Int, Str};
use std::alloc::Global;
use std::test::Fail;
use tree_reader::{Part, scan_tree};
use tree_store::TreeFault;
use tree_store::TreeFault::TreeSyntax;

/// A part that a text is to have.
#[derive(Clone, Copy, Debug)]
enum Wanted {
    /// The place of a bracket, that of the name behind it, the name, and its coordinates.
    Begin(u32, u32, &'static [u8], Option<(u32, u32)>),
    Int(u32, i64),
    Str(u32, &'static [u8]),
    End(u32),
}

/// Texts and their parts.
const PARTS: [(&[u8], &[Wanted]); 9] = [
    (b"\t(\r\na\t)\n", &[Begin(1, 4, b"a", None), End(6)]),
    (
        b"(A_z9(_)(Z__0))",
        &[
            Begin(0, 1, b"A_z9", None),
            Begin(5, 6, b"_", None),
            End(7),
            Begin(8, 9, b"Z__0", None),
            End(13),
            End(14),
        ],
    ),
    (
        b"(a@3:7(b \t@4294967295:0000000000\"x\")1)",
        &[
            Begin(0, 1, b"a", Some((3, 7))),
            Begin(6, 7, b"b", Some((4_294_967_295, 0))),
            Str(32, b"x"),
            End(35),
            Int(36, 1),
            End(37),
        ],
    ),
    (
        b"(a\"x\"\"y\"1\"z\"(b)2(c)\"w\")",
        &[
            Begin(0, 1, b"a", None),
            Str(2, b"x"),
            Str(5, b"y"),
            Int(8, 1),
            Str(9, b"z"),
            Begin(12, 13, b"b", None),
            End(14),
            Int(15, 2),
            Begin(16, 17, b"c", None),
            End(18),
            Str(19, b"w"),
            End(22),
        ],
    ),
    (
        b"(a 1-2)",
        &[Begin(0, 1, b"a", None), Int(3, 1), Int(4, -2), End(6)],
    ),
    (
        b"(a -00009223372036854775808 09223372036854775807 -0)",
        &[
            Begin(0, 1, b"a", None),
            Int(3, i64::MIN),
            Int(28, 9_223_372_036_854_775_807),
            Int(49, 0),
            End(51),
        ],
    ),
    (
        b"(a \"\\0\\08\\18\\1a\\40\\77\\377\")",
        &[
            Begin(0, 1, b"a", None),
            Str(3, b"\0\x008\x018\x01a ?\xff"),
            End(26),
        ],
    ),
    (
        b"(a \"\\n\\t\\r\\a\\b\\f\\v\\\\\\\"\\'\\?\")",
        &[
            Begin(0, 1, b"a", None),
            Str(3, b"\n\t\r\x07\x08\x0c\x0b\\\"'?"),
            End(27),
        ],
    ),
    (
        b"(a \" !#[]~\x7f\x80\xff\t'()/**/-1\")",
        &[
            Begin(0, 1, b"a", None),
            Str(3, b" !#[]~\x7f\x80\xff\t'()/**/-1"),
            End(24),
        ],
    ),
];

/// Whether a part is the one that is wanted.
fn is_wanted(part: &Part, wanted: Wanted) -> bool {
    match (part, wanted) {
        (
            Part::Begin {
                at,
                name_at,
                name,
                coordinates,
            },
            Begin(a, n, text, numbers),
        ) => {
            let found = coordinates.map(|c| (c.line, c.column));
            *at == a && *name_at == n && name.as_slice() == text && found == numbers
        }
        (Part::Int { at, value }, Int(a, number)) => *at == a && *value == number,
        (Part::Str { at, text }, Str(a, bytes)) => *at == a && text.as_slice() == bytes,
        (Part::End { at }, End(a)) => *at == a,
        _ => false,
    }
}

/// Whether a text has these parts.
fn has_parts(alloc: Global, text: &[u8], wanted: &[Wanted]) -> bool {
    if text.len() > 1_000 {
        return false;
    }
    match scan_tree(alloc, text) {
        Ok(parts) => {
            parts.len() == wanted.len()
                && parts
                    .iter()
                    .zip(wanted.iter())
                    .all(|(part, w)| is_wanted(part, *w))
        }
        Err(_) => false,
    }
}

#[test]
fn texts_and_their_parts(rt: HostRuntime) -> Result<(), Fail> {
    for (text, wanted) in PARTS {
        assert!(rt; has_parts(rt.alloc(), text, wanted), "at {text:?}");
    }
    Ok(())
}

/// Long texts, by their pieces and closing brackets, and how many parts each has; or its fault.
const LONG: [(&[(&[u8], u32)], u32, Result<usize, TreeFault>); 2] = [
    (&[(b"(a", 2_796_202)], 2_796_202, Ok(5_592_404)),
    (&[(b"(a ", 1), (b"0000", 2_097_000), (b"7", 1)], 1, Ok(3)),
];

/// How many parts a text has, or its fault.
fn part_count(alloc: Global, text: &[u8]) -> Result<usize, TreeFault> {
    if text.len() > 8_388_608 {
        return Err(TreeFault::Memory);
    }
    Ok(scan_tree(alloc, text)?.len())
}

/// A deep tree and a long part, each of about the most bytes that a text has.
#[test]
fn long_texts(rt: HostRuntime) -> Result<(), Fail> {
    let alloc = rt.alloc();
    for (pieces, ends, want) in LONG {
        let text = long_text(alloc, pieces, ends)?;
        assert_eq!(rt; part_count(alloc, text.as_slice()), want, "at {pieces:?}");
    }
    Ok(())
}
