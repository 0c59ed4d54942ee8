//! Patterns of texts: what the definitions mean, the functions of patterns, and how long large texts take.
use lido_base::{Part, PartPiece, Pattern, StrId, Strings, ValueType};
use ptg_patterns::{arg_type, arity, read_patterns};
use std::alloc::{AllocError, Global};
use std::test::Fail;
use std::time::Instant;

/// Each text with its patterns, as `Name(types) parts `.
const CASES: [(&[u8], &[u8]); 12] = [
    (b"A:", b"A() "),
    (b"A: $1 int $1 int", b"A(I) 11 "),
    (b"A: $2 int", b"A(TI) 2 "),
    (b"A: $3 $1 string $3", b"A(STT) 313 "),
    (b"A: $ int $ string $", b"A(IST) 123 "),
    (b"A: $1int", b"A(I) 1 "),
    (
        b"A:$$$$$$$$$$$$$$$$$$$$$$$$$$$$$$$$$$$$$$$$$$$$$$$$$$$$$$$$$$$$$$$$",
        b"A(TTTTTTTTTTTTTTTTTTTTTTTTTTTTTTTTTTTTTTTTTTTTTTTTTTTTTTTTTTTTTTTT) 12345678910111213141516171819202122232425262728293031323334353637383940414243444546474849505152535455565758596061626364 ",
    ),
    (b"Nul: Outs: null:", b"Nul() Outs() null() "),
    (b"A: { \"x\" $ int } $ string", b"A(IS) {\"x\"}{1}2 "),
    (b"A: {} { $ } B: $1 \"y\"", b"A(T) {1} B(T) 1\"y\" "),
    (b"A/*x*/: // y\n $ /*z*/ int", b"A(I) 1 "),
    (b"A: \"\" \"\\n\"", b"A() \"\"\"\n\" "),
];

fn push_text(out: &mut Vec<u8>, strings: &Strings, id: StrId) -> Result<(), AllocError> {
    if (id.0 as usize) < strings.len() {
        out.extend_from_slice(strings.bytes(id))?;
    }
    Ok(())
}

fn push_number(alloc: Global, out: &mut Vec<u8>, number: u32) -> Result<(), AllocError> {
    let text = number.to_string(alloc)?;
    out.extend_from_slice(text.as_bytes())?;
    Ok(())
}

fn type_letter(kind: ValueType) -> u8 {
    match kind {
        ValueType::Int => b'I',
        ValueType::Str => b'S',
        ValueType::Text => b'T',
        _ => b'?',
    }
}

fn push_part(
    alloc: Global,
    out: &mut Vec<u8>,
    strings: &Strings,
    part: Part,
) -> Result<(), AllocError> {
    if part.brace {
        out.push(b'{')?;
    }
    match part.piece {
        PartPiece::Fixed(id) => {
            out.push(b'"')?;
            push_text(out, strings, id)?;
            out.push(b'"')?;
        }
        PartPiece::Arg(number) => push_number(alloc, out, number)?,
    }
    if part.brace {
        out.push(b'}')?;
    }
    Ok(())
}

fn push_pattern(
    alloc: Global,
    out: &mut Vec<u8>,
    strings: &Strings,
    pattern: &Pattern,
) -> Result<(), AllocError> {
    push_text(out, strings, pattern.name)?;
    out.push(b'(')?;
    for kind in pattern.args.as_slice() {
        out.push(type_letter(*kind))?;
    }
    out.extend_from_slice(b") ")?;
    for part in pattern.parts.as_slice() {
        push_part(alloc, out, strings, *part)?;
    }
    if pattern.parts.len() > 0 {
        out.push(b' ')?;
    }
    Ok(())
}

fn answer(alloc: Global, text: &[u8]) -> Result<Vec<u8>, Fail> {
    let mut out = Vec::new(alloc);
    if text.len() > 1_000 {
        return Ok(out);
    }
    let mut strings = Strings::new(alloc)?;
    match read_patterns(alloc, text, &mut strings) {
        Ok(patterns) => {
            for pattern in patterns.list.as_slice() {
                push_pattern(alloc, &mut out, &strings, pattern)?;
            }
        }
        Err(_) => out.push(b'?')?,
    }
    Ok(out)
}

#[test]
fn texts_and_their_patterns(rt: HostRuntime) -> Result<(), Fail> {
    for (text, want) in CASES {
        let found = answer(rt.alloc(), text)?;
        assert_eq!(rt; found.as_slice(), want, "at {text:?}");
    }
    Ok(())
}

/// The number of patterns of a text, and the arity and the type of the last argument of the first one.
fn first_pattern(alloc: Global, text: &[u8]) -> Result<(usize, u32, Option<ValueType>), Fail> {
    if text.len() > 8_388_608 {
        return Ok((usize::MAX, 0, None));
    }
    let mut strings = Strings::new(alloc)?;
    let patterns = read_patterns(alloc, text, &mut strings)?;
    let count = patterns.list.len();
    match patterns.list.as_slice() {
        [first, ..] if first.args.len() == 2 => {
            Ok((count, arity(&patterns, 0), Some(arg_type(&patterns, 0, 1))))
        }
        _ => Ok((count, 0, None)),
    }
}

/// 700,000 patterns of two points.
fn many_patterns(alloc: Global) -> Result<Vec<u8>, AllocError> {
    let mut text = Vec::new(alloc);
    for number in 0..700_000u32 {
        text.push(b'n')?;
        let mut left = number;
        for _ in 0..6 {
            text.push(b'0' + (left % 10) as u8)?;
            left /= 10;
        }
        text.extend_from_slice(b":$$ ")?;
    }
    Ok(text)
}

/// One pattern with points for two arguments, up to 8 MiB.
fn long_pattern(alloc: Global) -> Result<Vec<u8>, AllocError> {
    let mut text = Vec::new(alloc);
    text.extend_from_slice(b"A: $2int")?;
    for _ in 0..2_097_150u32 {
        text.extend_from_slice(b"{$1}")?;
    }
    Ok(text)
}

#[test]
fn patterns_of_eight_mebibytes(rt: HostRuntime) -> Result<(), Fail> {
    let alloc = rt.alloc();
    let start = Instant::now(&rt)?;
    assert_eq!(rt;
        first_pattern(alloc, many_patterns(alloc)?.as_slice())?,
        (700_000, 2, Some(ValueType::Text))
    );
    assert_eq!(rt;
        first_pattern(alloc, long_pattern(alloc)?.as_slice())?,
        (1, 2, Some(ValueType::Int))
    );
    assert!(rt; start.elapsed(&rt)?.as_secs() < 20);
    Ok(())
}
