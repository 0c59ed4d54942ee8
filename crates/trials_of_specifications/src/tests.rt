//! Tests of what no contract says: that memory is found, how deep computations may be, and how long it takes.
use lido_base::Strings;
use lido_computations::messages::MessageWords;
use lido_computations::owners::Owner;
use lido_computations::{computation, computation_in};
use lido_lexer::lex;
use lido_reader::{ReadSpecFault, intern_known_words, read_spec};
use lido_syntax::{Comp, Severity, Target};
use std::alloc::{AllocError, Global};
use std::test::Fail;
use std::time::Instant;

const HEAD: &[u8] = b"RULE r: X ::= COMPUTE ";

/// Which message a computation gives, if it is a plain one.
fn severity_of(comp: &Comp) -> Option<Severity> {
    match &comp.target {
        Target::Message(severity, _) => Some(*severity),
        _ => None,
    }
}

/// What the only computation of the first rule gives, or the fault.
fn message(alloc: Global, row: &[u8]) -> Result<Result<Option<Severity>, ReadSpecFault>, Fail> {
    let mut text = Vec::new(alloc);
    text.extend_from_slice(HEAD)?;
    text.extend_from_slice(row)?;
    text.extend_from_slice(b" END;")?;
    if text.len() > 1_000 {
        return Ok(Ok(None));
    }
    let mut strings = Strings::new(alloc)?;
    intern_known_words(&mut strings)?;
    let tokens = lex(alloc, text.as_slice(), &mut strings)?;
    let result = read_spec(alloc, tokens.as_slice(), text.len() as u32, &mut strings);
    Ok(result.map(|spec| match spec.rules.as_slice().first() {
        Some(rule) => match rule.body.as_slice().first() {
            Some(comp) => severity_of(comp),
            None => None,
        },
        None => None,
    }))
}

#[test]
fn messages_are_read(rt: HostRuntime) -> Result<(), Fail> {
    let alloc = rt.alloc();
    let note = message(alloc, b"message(NOTE, \"x\", 0, COORDREF);")?;
    assert_eq!(rt; note, Ok(Some(Severity::Note)));
    let warning = message(
        alloc,
        b"IF(X.a, message(WARNING, X.b, 0, COORDREF)) <- X.c;",
    )?;
    assert_eq!(rt; warning, Ok(Some(Severity::Warning)));
    let info = message(alloc, b"message(INFO, \"x\", 0, COORDREF);")?;
    assert_eq!(rt; info, Err(ReadSpecFault::Syntax { at: 30 }));
    let named = message(alloc, b"message.a = 1;")?;
    assert_eq!(rt; named, Ok(None));
    Ok(())
}

/// Computations of 1,000 counted tokens: what stands 1,000 times in front of a value, how far into it the token that counts
/// begins, the value, and what stands 1,000 times behind it.
const DEEP: [(&[u8], u32, &[u8], &[u8]); 6] = [
    (b"(", 0, b"1", b")"),
    (b"-", 0, b"1", b""),
    (b"1+", 1, b"1", b""),
    (b"IF(true,", 0, b"1", b",2)"),
    (b"ORDER(1,", 0, b"1", b")"),
    (b"f(", 1, b"1", b")"),
];

fn put_times(out: &mut Vec<u8>, bytes: &[u8], times: u32) -> Result<(), AllocError> {
    for _ in 0..times {
        out.extend_from_slice(bytes)?;
    }
    Ok(())
}

/// A rule whose only computation has this value.
fn computing(
    alloc: Global,
    times: u32,
    front: &[u8],
    middle: &[u8],
    behind: &[u8],
) -> Result<Vec<u8>, AllocError> {
    let mut text = Vec::new(alloc);
    text.extend_from_slice(HEAD)?;
    text.extend_from_slice(b"X.a = ")?;
    put_times(&mut text, front, times)?;
    text.extend_from_slice(middle)?;
    put_times(&mut text, behind, times)?;
    text.extend_from_slice(b"; END;")?;
    Ok(text)
}

#[test]
fn a_thousand_counted_tokens(rt: HostRuntime) -> Result<(), Fail> {
    let alloc = rt.alloc();
    for (front, into, middle, behind) in DEEP {
        let text = computing(alloc, 1_000, front, middle, behind)?;
        let found = read(alloc, text.as_slice())?;
        assert_eq!(rt; found, Ok(1), "{front:?}");
        let text = computing(alloc, 1_001, front, middle, behind)?;
        let found = read(alloc, text.as_slice())?;
        let at = 28 + 1_000 * front.len() as u32 + into;
        assert_eq!(rt; found, Err(ReadSpecFault::Syntax { at }), "{front:?}");
    }
    Ok(())
}

/// A message whose condition and whose text have so many operators.
fn sharing(alloc: Global, condition: u32, text: u32) -> Result<Vec<u8>, AllocError> {
    let mut all = Vec::new(alloc);
    all.extend_from_slice(HEAD)?;
    all.extend_from_slice(b"IF(")?;
    put_times(&mut all, b"-", condition)?;
    all.extend_from_slice(b"1, message(NOTE, ")?;
    put_times(&mut all, b"-", text)?;
    all.extend_from_slice(b"1, 0, COORDREF)); END;")?;
    Ok(all)
}

#[test]
fn condition_and_text_count_together(rt: HostRuntime) -> Result<(), Fail> {
    let alloc = rt.alloc();
    let halves = sharing(alloc, 500, 500)?;
    assert_eq!(rt; read(alloc, halves.as_slice())?, Ok(1));
    let condition = sharing(alloc, 1_000, 0)?;
    assert_eq!(rt; read(alloc, condition.as_slice())?, Ok(1));
    let text = sharing(alloc, 0, 1_000)?;
    assert_eq!(rt; read(alloc, text.as_slice())?, Ok(1));
    let more = sharing(alloc, 500, 501)?;
    let fault = Err(ReadSpecFault::Syntax { at: 1_042 });
    assert_eq!(rt; read(alloc, more.as_slice())?, fault);
    Ok(())
}

/// The number behind a computation in such a body, or anywhere.
fn number_behind(
    alloc: Global,
    text: &[u8],
    owner: Option<Owner>,
) -> Result<Result<u32, ReadSpecFault>, Fail> {
    if text.len() > 1_000 {
        return Ok(Ok(0));
    }
    let mut strings = Strings::new(alloc)?;
    intern_known_words(&mut strings)?;
    let words = MessageWords {
        message: strings.intern(b"message")?,
        note: strings.intern(b"NOTE")?,
        warning: strings.intern(b"WARNING")?,
        error: strings.intern(b"ERROR")?,
        coordref: strings.intern(b"COORDREF")?,
    };
    let tokens = lex(alloc, text, &mut strings)?;
    let end = text.len() as u32;
    let result = match owner {
        Some(owner) => {
            computation_in(alloc, tokens.as_slice(), end, &mut strings, words, owner, 7)
        }
        None => computation(alloc, tokens.as_slice(), end, &mut strings, 7),
    };
    match result {
        Ok(((_, next), _)) => Ok(Ok(next)),
        Err(fault) => Ok(Err(fault)),
    }
}

#[test]
fn computations_are_read(rt: HostRuntime) -> Result<(), Fail> {
    let alloc = rt.alloc();
    let plain = number_behind(alloc, b"X.a = CONSTITUENTS X.b", None)?;
    assert_eq!(rt; plain, Ok(9));
    let message: &[u8] = b"message(ERROR, \"x\", 0, COORDREF)";
    assert_eq!(rt; number_behind(alloc, message, Some(Owner::Rule))?, Ok(8));
    let fault = Err(ReadSpecFault::Syntax { at: 0 });
    assert_eq!(rt; number_behind(alloc, message, Some(Owner::Symbol))?, fault);
    let inherited = number_behind(alloc, b"INH.a = 1", Some(Owner::Symbol))?;
    assert_eq!(rt; inherited, Ok(8));
    Ok(())
}

/// Specifications that fill eight mebibytes: what begins one, what begins each of its parts, what is in it and how often, what
/// ends it, how often it stands, what ends the whole, and how many rules there are.
const LONG: [(&[u8], &[u8], &[u8], u32, &[u8], u32, &[u8], usize); 5] = [
    (
        b"",
        b"RULE: X ::= A 'b' END;\n",
        b"",
        0,
        b"",
        364_000,
        b"",
        364_000,
    ),
    (
        b"RULE: X ::= COMPUTE ",
        b"X.a=1;",
        b"",
        0,
        b"",
        1_398_000,
        b"END;",
        1,
    ),
    (
        b"RULE: X ::= COMPUTE ",
        b"X.a=1",
        b"+1",
        1_000,
        b";",
        4_181,
        b"END;",
        1,
    ),
    (
        b"RULE: X ::= COMPUTE ",
        b"X.a=",
        b"-",
        1_000,
        b"1;",
        8_338,
        b"END;",
        1,
    ),
    (
        b"RULE: X ::= COMPUTE X.a=f(1",
        b",1",
        b"",
        0,
        b"",
        4_194_000,
        b"); END;",
        1,
    ),
];

/// The number of rules of a specification, or its fault.
fn read(alloc: Global, text: &[u8]) -> Result<Result<usize, ReadSpecFault>, Fail> {
    if text.len() > 8_388_608 {
        return Ok(Ok(0));
    }
    let mut strings = Strings::new(alloc)?;
    let tokens = lex(alloc, text, &mut strings)?;
    let result = read_spec(alloc, tokens.as_slice(), text.len() as u32, &mut strings);
    Ok(result.map(|spec| spec.rules.len()))
}

#[test]
fn eight_mebibytes(rt: HostRuntime) -> Result<(), Fail> {
    let alloc = rt.alloc();
    for (front, begins, inner, inner_times, ends, times, behind, rules) in LONG {
        let mut part = Vec::new(alloc);
        part.extend_from_slice(begins)?;
        put_times(&mut part, inner, inner_times)?;
        part.extend_from_slice(ends)?;
        let mut text = Vec::new(alloc);
        text.extend_from_slice(front)?;
        put_times(&mut text, part.as_slice(), times)?;
        text.extend_from_slice(behind)?;
        let start = Instant::now(&rt)?;
        assert_eq!(rt; read(alloc, text.as_slice())?, Ok(rules), "at {begins:?}");
        assert!(rt; start.elapsed(&rt)?.as_secs() < 20, "at {begins:?}");
    }
    Ok(())
}
