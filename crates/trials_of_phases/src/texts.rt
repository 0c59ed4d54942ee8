//! Specifications with CONSTITUENTS and chains.

/// The sum of the items of a list. Item is 1, the cell 3.
pub const SUM: &[u8] = b"ATTR n: int;
RULE rTop: Top LISTOF Item COMPUTE
  PTGOut(PTGNumb(CONSTITUENTS Item.n WITH (int, ADD, IDENTICAL, ZERO)));
END;
RULE rItem: Item ::= Num COMPUTE Item.n = Num; END;
TERM Num: int;";

/// Items that are numbered along a chain. Item is 2, the cell 3.
pub const NUMBERED: &[u8] = b"CHAIN no: int;
ATTR text: PTGNode;
TERM Name: string;
RULE rList: List LISTOF Item COMPUTE
  CHAINSTART HEAD.no = 1;
  PTGOut(CONSTITUENTS Item.text SHIELD Item
         WITH (PTGNode, PTGSeq, IDENTICAL, PTGNull));
END;
RULE rItem: Item ::= Name COMPUTE
  Item.text = PTGLine(Item.no, Name);
  Item.no = Item.no + 1;
END;";

/// The same with groups of items, which have a start of their own. Item is 2, Group 3, the cells 4 and 5.
pub const GROUPED: &[u8] = b"CHAIN no: int;
ATTR text: PTGNode;
TERM Name: string;
RULE rList: List LISTOF Item COMPUTE
  CHAINSTART HEAD.no = 1;
  PTGOut(CONSTITUENTS Item.text SHIELD Item
         WITH (PTGNode, PTGSeq, IDENTICAL, PTGNull));
END;
RULE rItem: Item ::= Name COMPUTE
  Item.text = PTGLine(Item.no, Name);
  Item.no = Item.no + 1;
END;
RULE rSub: Item ::= Group COMPUTE Item.text = Group.text; END;
RULE rGroup: Group LISTOF Item COMPUTE
  CHAINSTART HEAD.no = 10;
  Group.text = CONSTITUENTS Item.text SHIELD Item
               WITH (PTGNode, PTGSeq, IDENTICAL, PTGNull);
END;";

/// Blocks in blocks, with and without a shield. Block is 2, Blocks 3, the cell 4.
pub const SHIELDED: &[u8] = b"ATTR n: int;
TERM Num: int;
RULE rTop: Top ::= Block COMPUTE
  PTGOut(PTGTwo(
    CONSTITUENTS Block.n SHIELD Block WITH (int, ADD, IDENTICAL, ZERO),
    CONSTITUENTS Block.n WITH (int, ADD, IDENTICAL, ZERO)));
END;
RULE rBlock: Block ::= Num Blocks COMPUTE Block.n = Num; END;
RULE rBlocks: Blocks LISTOF Block END;";

/// Blocks that are numbered on the way back. Block is 1, the cell 2.
pub const BLOCKS: &[u8] = b"CHAIN no: int;
ATTR text: PTGNode;
RULE rTop: Top ::= Block COMPUTE
  CHAINSTART HEAD.no = 1;
  PTGOut(Block.text);
END;
RULE rBlock: Block LISTOF Block COMPUTE
  Block.text = PTGPart(CONSTITUENTS Block.text SHIELD Block
               WITH (PTGNode, PTGSeq, IDENTICAL, PTGNull), TAIL.no);
  Block.no = TAIL.no + 1;
END;";

/// A small translator. Decl is 3, Stmt 4, Expr 5, the cell 6.
pub const TRANSLATOR: &[u8] = b"CHAIN adr: int;
ATTR code: PTGNode;
TERM Ident: string;
TERM Number: int;
RULE rProgram: Program LISTOF Decl | Stmt COMPUTE
  CHAINSTART HEAD.adr = 0;
  PTGOut(CONSTITUENTS (Decl.code, Stmt.code)
         WITH (PTGNode, PTGSeq, IDENTICAL, PTGNull));
END;
RULE rDecl: Decl ::= 'var' Ident ':' Number ';' COMPUTE
  Decl.code = PTGVar(Ident, Decl.adr);
  Decl.adr = Decl.adr + Number;
END;
RULE rAssign: Stmt ::= Ident ':=' Expr ';' COMPUTE
  Stmt.code = PTGAssign(Expr.code, Ident);
END;
RULE rAdd: Expr ::= Expr '+' Expr COMPUTE
  Expr[1].code = PTGOp(Expr[2].code, Expr[3].code, \"add\");
END;
RULE rLoad: Expr ::= Ident COMPUTE Expr.code = PTGLoad(Ident); END;
RULE rConst: Expr ::= Number COMPUTE Expr.code = PTGPush(Number); END;";

/// A computation that waits for what is below, and a symbol with a CONSTITUENTS in one of its rules. Pair is 1, Leaf 2.
pub const WAITING: &[u8] = b"ATTR n: int;
ATTR done: VOID;
RULE rTop: Top ::= Pair COMPUTE PTGOut(PTGNumb(Pair.n)) <- CONSTITUENTS Leaf.done; END;
RULE rPair: Pair ::= Pair Leaf COMPUTE Pair[1].n = CONSTITUENTS Leaf.n WITH (int, ADD, IDENTICAL, ZERO); END;
RULE rOne: Pair ::= Leaf COMPUTE Pair.n = Leaf.n; END;
CLASS SYMBOL Known COMPUTE SYNT.n = 1; SYNT.done = 1; END;
SYMBOL Leaf INHERITS Known END;
RULE rLeaf: Leaf ::= 'x' END;";

/// A chain without a start, to which two ways lead.
pub const UNSTARTED: &[u8] = b"CHAIN c: int;
ATTR n: int;
RULE rTop: Top ::= B A COMPUTE PTGOut(PTGNumb(A.n)); END;
RULE rA: A ::= D COMPUTE A.n = D.n; END;
RULE rB: B ::= D END;
RULE rD: D ::= 'x' COMPUTE D.n = D.c; END;";

/// A CONSTITUENTS whose value is used and that has no WITH.
pub const JOINLESS: &[u8] = b"ATTR n: int;
RULE rTop: Top ::= Leaf COMPUTE PTGOut(PTGNumb(CONSTITUENTS Leaf.n)) <- CONSTITUENTS Leaf.n; END;
RULE rLeaf: Leaf ::= 'x' COMPUTE Leaf.n = 1; END;";
