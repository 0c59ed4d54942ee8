//! Tokens of texts: what the definitions mean, and how long large texts take.
use lido_base::{StrId, Strings};
use lido_lexer::{Token, TokenKind, lex};
use std::alloc::{AllocError, Global};
use std::test::Fail;
use std::time::Instant;

/// Texts, and what they spell: for each token a letter for its kind, what it says, and where it stands.
const CASES: [(&[u8], &[u8]); 18] = [
    (b"/***//* a */ b */", b"Wb@13-14 G*@15-16 G/@16-17 "),
    (b"a// x /*", b"Wa@0-1 "),
    (b"\"\\377\"", b"S\xff@0-6 "),
    (b"\"\\18\"", b"S\x018@0-5 "),
    (b"\"\\1234\"", b"SS4@0-7 "),
    (
        b"\"\\n\\t\\r\\a\\b\\f\\v\\\\\\\"\\'\\?\"",
        b"S\n\t\r\x07\x08\x0c\x0b\\\"'?@0-24 ",
    ),
    (b"\"\x80\xff\"", b"S\x80\xff@0-4 "),
    (b"'\xff\"'", b"L\xff\"@0-4 "),
    (b"9223372036854775807", b"I9223372036854775807@0-19 "),
    (b"00000000000000000000012", b"I12@0-23 "),
    (b"1a", b"I1@0-1 Wa@1-2 "),
    (
        b"RULE RULES rule _RULE",
        b"KRULE@0-4 WRULES@5-10 Wrule@11-15 W_RULE@16-21 ",
    ),
    (b":::=", b"G:@0-1 G::=@1-4 "),
    (b"|||", b"G||@0-2 G|@2-3 "),
    (b"<=-", b"G<=@0-2 G-@2-3 "),
    (b"$1int", b"G$@0-1 I1@1-2 Kint@2-5 "),
    (
        b"RULE COMPUTE END LISTOF CLASS SYMBOL INHERITS ATTR TERM CHAIN CHAINSTART HEAD TAIL INH SYNT THIS INCLUDING CONSTITUENTS SHIELD WITH IF ORDER PTGOut PTGNULL PTGNode VOID int string bool true false ",
        b"KRULE@0-4 KCOMPUTE@5-12 KEND@13-16 KLISTOF@17-23 KCLASS@24-29 KSYMBOL@30-36 KINHERITS@37-45 KATTR@46-50 KTERM@51-55 KCHAIN@56-61 KCHAINSTART@62-72 KHEAD@73-77 KTAIL@78-82 KINH@83-86 KSYNT@87-91 KTHIS@92-96 KINCLUDING@97-106 KCONSTITUENTS@107-119 KSHIELD@120-126 KWITH@127-131 KIF@132-134 KORDER@135-140 KPTGOut@141-147 KPTGNULL@148-155 KPTGNode@156-163 KVOID@164-168 Kint@169-172 Kstring@173-179 Kbool@180-184 Ktrue@185-189 Kfalse@190-195 ",
    ),
    (
        b"::= <- && || == != <= >= : ; , . ( ) [ ] { } = + - * / % ! < > | $ ",
        b"G::=@0-3 G<-@4-6 G&&@7-9 G||@10-12 G==@13-15 G!=@16-18 G<=@19-21 G>=@22-24 G:@25-26 G;@27-28 G,@29-30 G.@31-32 G(@33-34 G)@35-36 G[@37-38 G]@39-40 G{@41-42 G}@43-44 G=@45-46 G+@47-48 G-@49-50 G*@51-52 G/@53-54 G%@55-56 G!@57-58 G<@59-60 G>@61-62 G|@63-64 G$@65-66 ",
    ),
];

fn push_text(out: &mut Vec<u8>, strings: &Strings, id: StrId) -> Result<(), AllocError> {
    if (id.0 as usize) < strings.len() {
        out.extend_from_slice(strings.bytes(id))?;
    }
    Ok(())
}

fn push_number(alloc: Global, out: &mut Vec<u8>, number: i64) -> Result<(), AllocError> {
    let text = number.to_string(alloc)?;
    out.extend_from_slice(text.as_bytes())?;
    Ok(())
}

fn push_kind(
    alloc: Global,
    out: &mut Vec<u8>,
    strings: &Strings,
    what: TokenKind,
) -> Result<(), AllocError> {
    match what {
        TokenKind::Word(id) => {
            out.push(b'W')?;
            push_text(out, strings, id)?;
        }
        TokenKind::Key(keyword) => {
            out.push(b'K')?;
            out.extend_from_slice(keyword.spelling())?;
        }
        TokenKind::Int(value) => {
            out.push(b'I')?;
            push_number(alloc, out, value)?;
        }
        TokenKind::Str(id) => {
            out.push(b'S')?;
            push_text(out, strings, id)?;
        }
        TokenKind::Literal(id) => {
            out.push(b'L')?;
            push_text(out, strings, id)?;
        }
        TokenKind::Sign(sign) => {
            out.push(b'G')?;
            out.extend_from_slice(sign.spelling())?;
        }
    }
    Ok(())
}

fn push_token(
    alloc: Global,
    out: &mut Vec<u8>,
    strings: &Strings,
    token: Token,
) -> Result<(), AllocError> {
    push_kind(alloc, out, strings, token.what)?;
    out.push(b'@')?;
    push_number(alloc, out, i64::from(token.from))?;
    out.push(b'-')?;
    push_number(alloc, out, i64::from(token.to))?;
    out.push(b' ')?;
    Ok(())
}

fn answer(alloc: Global, text: &[u8]) -> Result<Vec<u8>, Fail> {
    let mut out = Vec::new(alloc);
    if text.len() > 1_000 {
        return Ok(out);
    }
    let mut strings = Strings::new(alloc)?;
    match lex(alloc, text, &mut strings) {
        Ok(tokens) => {
            for token in &tokens {
                push_token(alloc, &mut out, &strings, *token)?;
            }
        }
        Err(_) => out.push(b'?')?,
    }
    Ok(out)
}

#[test]
fn texts_and_their_tokens(rt: HostRuntime) -> Result<(), Fail> {
    for (text, want) in CASES {
        let found = answer(rt.alloc(), text)?;
        assert_eq!(rt; found.as_slice(), want, "at {text:?}");
    }
    Ok(())
}

/// The number of tokens of a text.
fn token_count(alloc: Global, text: &[u8]) -> Result<usize, Fail> {
    if text.len() > 8_388_608 {
        return Ok(usize::MAX);
    }
    let mut strings = Strings::new(alloc)?;
    Ok(lex(alloc, text, &mut strings)?.len())
}

/// A million different names.
fn many_names(alloc: Global) -> Result<Vec<u8>, AllocError> {
    let mut text = Vec::new(alloc);
    for number in 0..1_000_000u32 {
        text.push(b'n')?;
        let mut left = number;
        for _ in 0..6 {
            text.push(b'0' + (left % 10) as u8)?;
            left /= 10;
        }
        text.push(b' ')?;
    }
    Ok(text)
}

/// A text of 8 MiB that goes on with one byte between a front and an end of two bytes.
fn long_text(alloc: Global, front: &[u8; 2], end: &[u8; 2]) -> Result<Vec<u8>, AllocError> {
    let mut text = Vec::new(alloc);
    text.extend_from_slice(front)?;
    for _ in 0..8_388_604u32 {
        text.push(b'a')?;
    }
    text.extend_from_slice(end)?;
    Ok(text)
}

#[test]
fn tokens_of_eight_mebibytes(rt: HostRuntime) -> Result<(), Fail> {
    let alloc = rt.alloc();
    let start = Instant::now(&rt)?;
    assert_eq!(rt;
        token_count(alloc, long_text(alloc, b"aa", b"aa")?.as_slice())?,
        1
    );
    assert_eq!(rt;
        token_count(alloc, long_text(alloc, b"/*", b"*/")?.as_slice())?,
        0
    );
    assert_eq!(rt;
        token_count(alloc, long_text(alloc, b" \"", b"\" ")?.as_slice())?,
        1
    );
    assert_eq!(rt;
        token_count(alloc, many_names(alloc)?.as_slice())?,
        1_000_000
    );
    assert!(rt; start.elapsed(&rt)?.as_secs() < 20);
    Ok(())
}
