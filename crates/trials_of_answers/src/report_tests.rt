//! The lines of statuses, over sinks that take a byte at a time, and over sinks that fail.
ghost use Rattle.std.specs.Prelude.{◌≡◌, ◌<◌, [], All, IfOk, length};
ghost use Rattle.order_report.specs.Lines.{IsName, IsNamed};
ghost use Rattle.order_report.specs.Names.{texts_in};

use lido_base::{List, Many, MemSink, StrId, Strings, WordKind, WriteFault};
use lido_syntax::SpecFault;
use order_report::{Status, write_fault};
use std::alloc::{AllocError, Global};
use std::test::Fail;

/// A status, its exit status and its line.
#[derive(Drop)]
struct Case {
    status: Status,
    exit: u8,
    line: &'static [u8],
}

fn ended(status: Status, exit: u8, line: &'static [u8]) -> Case
    ensures { result.status ≡ status }
{
    Case { status, exit, line }
}

fn word(index: u64, kind: WordKind, line: &'static [u8]) -> Case
    ensures { result.status ≡ Status.Words index kind }
{
    ended(Status::Words { index, kind }, 1, line)
}

fn spec(fault: SpecFault, line: &'static [u8]) -> Case
    ensures { result.status ≡ Status.Spec fault }
{
    ended(Status::Spec(fault), 7, line)
}

const PLAIN: u32 = 4;

/// Statuses whose lines have no name.
fn plain_case(number: u32) -> Case
    ensures { IsNamed [] result.status }
{
    match number {
        0 => ended(Status::Done, 0, b""),
        1 => word(
            u64::MAX,
            WordKind::Range,
            b"lido: word 18446744073709551615 range\n",
        ),
        2 => ended(Status::Memory, 12, b"lido: no memory\n"),
        _ => spec(
            SpecFault::TooMany {
                what: Many::Attributes,
            },
            b"lido: spec TooMany Attributes\n",
        ),
    }
}

/// A path of two names.
fn path(
    strings: &Strings,
    alloc: Global,
    first: StrId,
    second: StrId,
) -> Result<List<StrId>, AllocError>
    requires first { IsName strings.now first }
    requires second { IsName strings.now second }
    ensures { IfOk result (λ path. All (IsName strings.now) path) }
{
    Ok(List::from_vec(vec![in alloc; first, second]?))
}

const NAMED: u32 = 5;

/// Faults of the specification that have names.
fn named_case(strings: &Strings, alloc: Global, number: u32) -> Result<Case, AllocError>
    requires { 2 < length strings.now }
    ensures { IfOk result (λ named. IsNamed strings.now named.status) }
{
    match number {
        0 => {
            let path = path(strings, alloc, StrId(0), StrId(0))?;
            Ok(spec(
                SpecFault::ClassCycle { path },
                b"lido: spec ClassCycle Top Top\n",
            ))
        }
        1 => {
            let path = path(strings, alloc, StrId(0), StrId(1))?;
            Ok(spec(
                SpecFault::NoIncluding { path },
                b"lido: spec NoIncluding Top Block\n",
            ))
        }
        2 => {
            let path = path(strings, alloc, StrId(0), StrId(1))?;
            Ok(spec(
                SpecFault::ChainNoStart {
                    chain: StrId(2),
                    path,
                },
                b"lido: spec ChainNoStart v: Top Block\n",
            ))
        }
        3 => Ok(spec(
            SpecFault::ClashInherited {
                sym: StrId(1),
                attr: StrId(2),
                first: 36,
                second: 76,
            },
            b"lido: spec ClashInherited Block.v at 36 and 76\n",
        )),
        _ => Ok(spec(
            SpecFault::MissingComputation {
                rule: StrId(0),
                occ: 3,
                attr: StrId(2),
            },
            b"lido: spec MissingComputation in Top of 3.v\n",
        )),
    }
}

/// A sink that takes a byte at a time.
fn sink(alloc: Global, fail: Vec<u32>) -> Result<MemSink, AllocError> {
    Ok(MemSink {
        bytes: List::from_vec(Vec::with_capacity(alloc, 64)?),
        step: 1,
        fail: List::from_vec(fail),
        calls: 0,
        faults: 0,
    })
}

/// The texts `Top`, `Block` and `v`.
fn texts(alloc: Global) -> Result<Strings, AllocError> {
    let mut strings = Strings::keyed(alloc, &[]);
    for text in [b"Top" as &[u8], b"Block", b"v"] {
        if strings.intern(text).is_err() {
            return Err(AllocError);
        }
    }
    Ok(strings)
}

/// Whether the case's line comes whole, and its exit status.
fn is_written(alloc: Global, strings: Option<&Strings>, case: &Case) -> Result<bool, AllocError>
    requires { IsNamed (texts_in strings) case.now.status }
{
    let mut sink = sink(alloc, Vec::new(alloc))?;
    let whole = write_fault(&case.status, None, strings, &mut sink).is_ok();
    Ok(whole && sink.bytes.as_slice() == case.line && case.status.exit() == case.exit)
}

#[test]
fn lines_of_statuses(rt: HostRuntime) -> Result<(), Fail> {
    let alloc = rt.alloc();
    for number in 0..PLAIN {
        assert!(rt; is_written(alloc, None, &plain_case(number))?, "{}", number);
    }
    let strings = texts(alloc)?;
    assert!(rt; strings.len() > 2);
    for number in 0..NAMED {
        let case = named_case(&strings, alloc, number)?;
        assert!(rt; is_written(alloc, Some(&strings), &case)?, "{}", number);
    }
    Ok(())
}

#[test]
fn a_sink_that_fails_at_each_call(rt: HostRuntime) -> Result<(), Fail> {
    let alloc = rt.alloc();
    for call in 0..38u32 {
        let case = plain_case(1);
        let mut sink = sink(alloc, vec![in alloc; call]?)?;
        let result = write_fault(&case.status, None, None, &mut sink);
        let written = u64::from(call);
        assert_eq!(rt; result, Err(WriteFault { written }));
        assert!(rt; case.line.starts_with(sink.bytes.as_slice()));
        assert_eq!(rt; sink.bytes.len(), call as usize);
        assert_eq!(rt; sink.faults, 1);
    }
    Ok(())
}
