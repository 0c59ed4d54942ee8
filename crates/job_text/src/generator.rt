//! The generator of large jobs.
ghost use Rattle.std.specs.Prelude.{◌≡◌, ◌≤◌, IfOk};
ghost use Rattle.job_text.specs.Generator.{generated};

use lido_base::Memory;
use std::alloc::Global;

/// Everything in front of the blocks: the specification, the patterns, and the tree's first line.
const HEAD: &[u8] = br#"CHAIN pos: int;
ATTR text: PTGNode;
TERM Number: int;
RULE rTop: Top LISTOF Block COMPUTE
  CHAINSTART HEAD.pos = 0;
  PTGOut(CONSTITUENTS Block.text SHIELD Block WITH (PTGNode, PTGSeq, IDENTICAL, PTGNull));
END;
RULE rBlock: Block LISTOF Item COMPUTE
  Block.text = CONSTITUENTS Item.text WITH (PTGNode, PTGSeq, IDENTICAL, PTGNull);
END;
RULE rItem: Item ::= Number COMPUTE
  Item.text = PTGLine(Item.pos);
  Item.pos = Item.pos + Number;
END;
%%PTG
Line: $ int "\n"
%%TREE
(rTop
"#;

/// The line of one block, with its ten items.
const BLOCK: &[u8] =
    b"(rBlock (rItem 1) (rItem 1) (rItem 1) (rItem 1) (rItem 1) (rItem 1) (rItem 1) (rItem 1) (rItem 1) (rItem 1))\n";

/// The tree's last line.
const TAIL: &[u8] = b")\n";

/// The job text with this many blocks of ten items each, from 1 to 50,000. An `Err` is want of memory.
#[tactic(auto, using(crate::proofs::GeneratedLemmas::texts_are))]
pub fn big(alloc: Global, n: u32) -> Result<Vec<u8>, Memory>
    requires some { 1 ≤ n }
    requires few { n ≤ 50000 }
    ensures { IfOk result (λ text. text.items ≡ generated n) }
{
    let mut text = Vec::new(alloc);
    text.extend_from_slice(HEAD)?;
    for _ in 0..n {
        text.extend_from_slice(BLOCK)?;
    }
    text.extend_from_slice(TAIL)?;
    Ok(text)
}
