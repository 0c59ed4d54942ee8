//! The sections of job texts, the commands of command lines, and generated jobs.
use job_text::{Command, CutFault, WordsFault, big, cut, words};
use std::alloc::{AllocError, Global};
use std::test::Fail;

#[test]
fn texts_are_cut(rt: HostRuntime) -> Result<(), Fail> {
    let rows: [(&[u8], [u32; 6]); 8] = [
        (b"%%PTG\n%%TREE", [0, 0, 6, 6, 12, 12]),
        (b"%%PTG\n%%TREE\n", [0, 0, 6, 6, 13, 13]),
        (b"%%PTG\r\n%%TREE\r\n", [0, 0, 7, 7, 15, 15]),
        (b"%%PTG\r\n%%TREE\r", [0, 0, 7, 7, 14, 14]),
        (b"ab\n%%PTG\ncd\n%%TREE\nef", [0, 3, 9, 12, 19, 21]),
        (
            b"ab\r\n%%PTG\r\ncd\r\n%%TREE\r\nef\r\n",
            [0, 4, 11, 15, 23, 27],
        ),
        (
            b"a\n%%TREE\n%%PTG\n%%PTG\nb\n%%TREE\nc\n%%TREE\n%%PTG\n",
            [0, 9, 15, 23, 30, 45],
        ),
        (b"/*\n%%PTG\n*/\n\n%%TREE\n\n", [0, 3, 9, 13, 20, 21]),
    ];
    for (text, want) in rows {
        let got = match cut(text) {
            Ok(s) => Ok([
                s.spec.from,
                s.spec.to,
                s.ptg.from,
                s.ptg.to,
                s.tree.from,
                s.tree.to,
            ]),
            Err(fault) => Err::<[u32; 6], CutFault>(fault),
        };
        assert_eq!(rt; got, Ok(want), "at {text:?}");
    }
    Ok(())
}

/// The job of one block.
const ONE: &[u8] = br#"CHAIN pos: int;
ATTR text: PTGNode;
TERM Number: int;
RULE rTop: Top LISTOF Block COMPUTE
  CHAINSTART HEAD.pos = 0;
  PTGOut(CONSTITUENTS Block.text SHIELD Block WITH (PTGNode, PTGSeq, IDENTICAL, PTGNull));
END;
RULE rBlock: Block LISTOF Item COMPUTE
  Block.text = CONSTITUENTS Item.text WITH (PTGNode, PTGSeq, IDENTICAL, PTGNull);
END;
RULE rItem: Item ::= Number COMPUTE
  Item.text = PTGLine(Item.pos);
  Item.pos = Item.pos + Number;
END;
%%PTG
Line: $ int "\n"
%%TREE
(rTop
(rBlock (rItem 1) (rItem 1) (rItem 1) (rItem 1) (rItem 1) (rItem 1) (rItem 1) (rItem 1) (rItem 1) (rItem 1))
)
"#;

#[test]
fn jobs_are_generated(rt: HostRuntime) -> Result<(), Fail> {
    let alloc = rt.alloc();
    let one = big(alloc, 1)?;
    assert_eq!(rt; one.as_slice(), ONE);
    assert_eq!(rt; big(alloc, 50_000)?.len(), 5450483);
    Ok(())
}

/// The words of a line, with a blank between each two; no word in an empty line.
fn words_of(alloc: Global, line: &str) -> Result<Vec<String>, AllocError> {
    let mut words = Vec::new(alloc);
    if line.is_empty() {
        return Ok(words);
    }
    for word in line.split(' ') {
        words.push(String::from_str(alloc, word)?)?;
    }
    Ok(words)
}

/// A command or a fault in short.
fn shown(alloc: Global, answer: &Result<Command, WordsFault>) -> Result<String, AllocError> {
    match answer {
        Ok(Command::Check) => String::from_str(alloc, "check"),
        Ok(Command::Order) => String::from_str(alloc, "order"),
        Ok(Command::Run(said)) => {
            let (workers, min, patience) = (said.workers, said.min, said.patience);
            let split = said.split.as_slice();
            format!(in alloc; "run {workers} {split:?} {min} {patience}")
        }
        Ok(Command::Big { n, workers }) => format!(in alloc; "big {n} {workers}"),
        Err(WordsFault::Words { index, kind }) => format!(in alloc; "{index} {kind:?}"),
        Err(WordsFault::Memory) => String::from_str(alloc, "no memory"),
    }
}

#[test]
fn words_are_read(rt: HostRuntime) -> Result<(), Fail> {
    let alloc = rt.alloc();
    let rows: [(&str, &str); 12] = [
        (" ", "0 Unknown"),
        ("run ", "1 Unknown"),
        ("check", "check"),
        ("order", "order"),
        ("run", "run 1 [] 1 4"),
        ("run workers=0000000016", "run 16 [] 1 4"),
        ("run min=1048576", "run 1 [] 1048576 4"),
        ("run patience=1000", "run 1 [] 1 1000"),
        (
            "run split=a min=2 split=Z_ workers=3 split=a patience=5",
            "run 3 [1, 3, 5] 2 5",
        ),
        ("big 50000", "big 50000 1"),
        ("big 0000000007 workers=3", "big 7 3"),
        ("big 5 workers=16", "big 5 16"),
    ];
    for (line, want) in rows {
        let said = words_of(alloc, line)?;
        let got = shown(alloc, &words(alloc, &said))?;
        assert_eq!(rt; got.as_str(), want, "at {line:?}");
    }
    Ok(())
}
