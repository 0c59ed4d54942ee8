//! Calls of `lido` over sources and sinks in memory that fail.
ghost use Rattle.std.specs.Prelude.{◌<◌, ◌^◌, length};

use lido_base::{List, MemSink, MemSource, OpenGate, WordKind};
use lido_top::lido;
use order_report::{Status, Which};
use std::alloc::{AllocError, Global};
use std::process::Abort;
use std::test::Fail;
use std::thread::Threads;

const JOB: &str =
    "ATTR val: int;\nTERM Num: int;\nRULE rTop: Top ::= Expr COMPUTE\n  PTGOut(PTGNumb(Expr.val));\nEND;\nRULE rAdd: Expr ::= Expr '+' Expr COMPUTE\n  Expr[1].val = Expr[2].val + Expr[3].val;\nEND;\nRULE rNum: Expr ::= Num COMPUTE\n  Expr.val = Num;\nEND;\n%%PTG\n%%TREE\n(rTop (rAdd (rNum 30) (rNum 4)))\n";

/// A call on the job, filled up with blanks to the size, whose reads of 200 bytes or writes of one byte fail at these calls.
struct Case {
    name: &'static str,
    size: usize,
    read_fails: &'static [u32],
    write_fails: &'static [u32],
    exit: u8,
    text: &'static str,
    line: &'static str,
    taken: u32,
}

const CASES: &[Case] = &[
    Case {
        name: "a read behind the end would fail",
        size: 0,
        read_fails: &[3],
        write_fails: &[],
        exit: 0,
        text: "34",
        line: "",
        taken: 287,
    },
    Case {
        name: "the first read fails",
        size: 0,
        read_fails: &[0],
        write_fails: &[],
        exit: 2,
        text: "",
        line: "lido: input failed\n",
        taken: 0,
    },
    Case {
        name: "the second read fails",
        size: 9_000,
        read_fails: &[1],
        write_fails: &[],
        exit: 2,
        text: "",
        line: "lido: input failed\n",
        taken: 200,
    },
    Case {
        name: "the first write fails",
        size: 0,
        read_fails: &[],
        write_fails: &[0],
        exit: 3,
        text: "",
        line: "lido: output failed after 0 bytes\n",
        taken: 287,
    },
    Case {
        name: "the second write fails",
        size: 0,
        read_fails: &[],
        write_fails: &[1],
        exit: 3,
        text: "3",
        line: "lido: output failed after 1 bytes\n",
        taken: 287,
    },
];

fn source(bytes: Vec<u8>, fail: Vec<u32>) -> MemSource
    requires { length bytes.items < 2 ^ 32 }
{
    MemSource {
        bytes: List::from_vec(bytes),
        next: 0,
        step: 200,
        fail: List::from_vec(fail),
        calls: 0,
        faults: 0,
    }
}

fn sink(bytes: Vec<u8>, fail: Vec<u32>) -> MemSink {
    MemSink {
        bytes: List::from_vec(bytes),
        step: 1,
        fail: List::from_vec(fail),
        calls: 0,
        faults: 0,
    }
}

fn words_of(alloc: Global, texts: &[&str]) -> Result<Vec<String>, AllocError> {
    let mut words = Vec::new(alloc);
    for text in texts {
        words.push(String::from_str(alloc, text)?)?;
    }
    Ok(words)
}

/// Makes the call, and compares what comes of it.
fn call<R: Abort + Threads + Sync>(rt: &R, alloc: Global, case: &Case) -> Result<(), Fail> {
    let words = words_of(alloc, &["run"])?;
    let mut bytes = JOB.as_bytes().to_vec(alloc)?;
    if bytes.len() < case.size {
        bytes.resize(case.size, b' ')?;
    }
    assert!(rt; bytes.len() < 9_000_000);
    let mut src = source(bytes, case.read_fails.to_vec(alloc)?);
    let mut out = sink(
        Vec::with_capacity(alloc, 64)?,
        case.write_fails.to_vec(alloc)?,
    );
    let mut err = sink(Vec::with_capacity(alloc, 64)?, Vec::new(alloc));
    let status = lido(rt, alloc, &words, &mut src, &mut out, &mut err, &OpenGate);
    assert_eq!(rt; status.exit(), case.exit, "{}", case.name);
    assert_eq!(rt; out.bytes.as_slice(), case.text.as_bytes(), "{}", case.name);
    assert_eq!(rt; err.bytes.as_slice(), case.line.as_bytes(), "{}", case.name);
    assert_eq!(rt; src.next, case.taken, "{}", case.name);
    Ok(())
}

#[test]
fn a_source_or_out_fails(rt: HostRuntime) -> Result<(), Fail> {
    for case in CASES {
        call(&rt, rt.alloc(), case)?;
    }
    Ok(())
}

/// `err` fails at one call, each in turn, and once not at all; the source isn't asked.
#[test]
fn err_fails(rt: HostRuntime) -> Result<(), Fail> {
    let alloc = rt.alloc();
    let line = b"lido: word 1 range\n";
    let words = words_of(alloc, &["run", "workers=0"])?;
    for call in 0..20u32 {
        let mut src = source(Vec::new(alloc), Vec::new(alloc));
        let mut out = sink(Vec::new(alloc), Vec::new(alloc));
        let mut err = sink(Vec::with_capacity(alloc, 64)?, vec![in alloc; call]?);
        let status = lido(&rt, alloc, &words, &mut src, &mut out, &mut err, &OpenGate);
        let right = match status {
            Status::WriteFault {
                sink: Which::Err,
                written,
            } => call < 19 && written == u64::from(call),
            Status::Words {
                index: 1,
                kind: WordKind::Range,
            } => call == 19,
            _ => false,
        };
        assert!(rt; right, "{}", call);
        assert_eq!(rt; err.bytes.as_slice(), &line[..call as usize], "{}", call);
        assert_eq!(rt; src.calls, 0, "{}", call);
    }
    Ok(())
}

/// Where `out` failed before, a fault of `err` doesn't change the answer.
#[test]
fn a_fault_of_out_stays(rt: HostRuntime) -> Result<(), Fail> {
    let alloc = rt.alloc();
    let words = words_of(alloc, &["run"])?;
    let bytes = JOB.as_bytes().to_vec(alloc)?;
    assert!(rt; bytes.len() < 9_000_000);
    let mut src = source(bytes, Vec::new(alloc));
    let mut out = sink(Vec::new(alloc), Vec::new(alloc));
    let mut err = sink(Vec::new(alloc), Vec::new(alloc));
    let status = lido(&rt, alloc, &words, &mut src, &mut out, &mut err, &OpenGate);
    let stays = matches!(
        &status,
        Status::WriteFault {
            sink: Which::Out,
            written: 0
        }
    );
    assert!(rt; stays);
    assert_eq!(rt; err.faults, 1);
    Ok(())
}
