//! Small specifications with the first fault of types that each has, or none.

/// Expressions that have their types.
pub const TYPED: [(&[u8], &[u8]); 25] = [
    (
        b"TERM N: int; TERM W: string; ATTR i: int; ATTR b: bool; ATTR s: string; ATTR t: PTGNode; ATTR v: VOID; RULE r: S ::= N W COMPUTE S.i = 1 + 2 * 3 - 4 / 5 % 6; END;",
        b"",
    ),
    (
        b"TERM N: int; TERM W: string; ATTR i: int; ATTR b: bool; ATTR s: string; ATTR t: PTGNode; ATTR v: VOID; RULE r: S ::= N W COMPUTE S.i = -1; END;",
        b"",
    ),
    (
        b"TERM N: int; TERM W: string; ATTR i: int; ATTR b: bool; ATTR s: string; ATTR t: PTGNode; ATTR v: VOID; RULE r: S ::= N W COMPUTE S.b = !true; END;",
        b"",
    ),
    (
        b"TERM N: int; TERM W: string; ATTR i: int; ATTR b: bool; ATTR s: string; ATTR t: PTGNode; ATTR v: VOID; RULE r: S ::= N W COMPUTE S.b = 1 == 2; END;",
        b"",
    ),
    (
        b"TERM N: int; TERM W: string; ATTR i: int; ATTR b: bool; ATTR s: string; ATTR t: PTGNode; ATTR v: VOID; RULE r: S ::= N W COMPUTE S.b = \"x\" != \"y\"; END;",
        b"",
    ),
    (
        b"TERM N: int; TERM W: string; ATTR i: int; ATTR b: bool; ATTR s: string; ATTR t: PTGNode; ATTR v: VOID; RULE r: S ::= N W COMPUTE S.b = true == false; END;",
        b"",
    ),
    (
        b"TERM N: int; TERM W: string; ATTR i: int; ATTR b: bool; ATTR s: string; ATTR t: PTGNode; ATTR v: VOID; RULE r: S ::= N W COMPUTE S.b = 1 < 2 && 2 >= 1 || false; END;",
        b"",
    ),
    (
        b"TERM N: int; TERM W: string; ATTR i: int; ATTR b: bool; ATTR s: string; ATTR t: PTGNode; ATTR v: VOID; RULE r: S ::= N W COMPUTE S.i = IF(true, 1, 2); END;",
        b"",
    ),
    (
        b"TERM N: int; TERM W: string; ATTR i: int; ATTR b: bool; ATTR s: string; ATTR t: PTGNode; ATTR v: VOID; RULE r: S ::= N W COMPUTE S.s = ORDER(1, true, W); END;",
        b"",
    ),
    (
        b"TERM N: int; TERM W: string; ATTR i: int; ATTR b: bool; ATTR s: string; ATTR t: PTGNode; ATTR v: VOID; RULE r: S ::= N W COMPUTE S.t = PTGSeq(PTGNumb(1), PTGAsIs(W)); END;",
        b"",
    ),
    (
        b"TERM N: int; TERM W: string; ATTR i: int; ATTR b: bool; ATTR s: string; ATTR t: PTGNode; ATTR v: VOID; RULE r: S ::= N W COMPUTE S.t = PTGNULL; END;",
        b"",
    ),
    (
        b"TERM N: int; TERM W: string; ATTR i: int; ATTR b: bool; ATTR s: string; ATTR t: PTGNode; ATTR v: VOID; RULE r: S ::= N W COMPUTE S.t = PTGNull(); END;",
        b"",
    ),
    (
        b"TERM N: int; TERM W: string; ATTR i: int; ATTR b: bool; ATTR s: string; ATTR t: PTGNode; ATTR v: VOID; RULE r: S ::= N W COMPUTE S.v = 1; END;",
        b"",
    ),
    (
        b"TERM N: int; TERM W: string; ATTR i: int; ATTR b: bool; ATTR s: string; ATTR t: PTGNode; ATTR v: VOID; RULE r: S ::= N W COMPUTE S.v = W; END;",
        b"",
    ),
    (
        b"TERM N: int; TERM W: string; ATTR i: int; ATTR b: bool; ATTR s: string; ATTR t: PTGNode; ATTR v: VOID; RULE r: S ::= N W COMPUTE S.i = IDENTICAL(1); END;",
        b"",
    ),
    (
        b"TERM N: int; TERM W: string; ATTR i: int; ATTR b: bool; ATTR s: string; ATTR t: PTGNode; ATTR v: VOID; RULE r: S ::= N W COMPUTE S.s = IDENTICAL(W); END;",
        b"",
    ),
    (
        b"TERM N: int; TERM W: string; ATTR i: int; ATTR b: bool; ATTR s: string; ATTR t: PTGNode; ATTR v: VOID; RULE r: S ::= N W COMPUTE S.i = ARGTOONE(W); END;",
        b"",
    ),
    (
        b"TERM N: int; TERM W: string; ATTR i: int; ATTR b: bool; ATTR s: string; ATTR t: PTGNode; ATTR v: VOID; RULE r: S ::= N W COMPUTE S.i = ZERO() + ONE(); END;",
        b"",
    ),
    (
        b"TERM N: int; TERM W: string; ATTR i: int; ATTR b: bool; ATTR s: string; ATTR t: PTGNode; ATTR v: VOID; RULE r: S ::= N W COMPUTE S.t = PTGTwo(1, 2); END;",
        b"",
    ),
    (
        b"TERM N: int; TERM W: string; ATTR i: int; ATTR b: bool; ATTR s: string; ATTR t: PTGNode; ATTR v: VOID; RULE r: S ::= N W COMPUTE S.i = LINE + COL; END;",
        b"",
    ),
    (
        b"TERM N: int; TERM W: string; ATTR i: int; ATTR b: bool; ATTR s: string; ATTR t: PTGNode; ATTR v: VOID; RULE r: S ::= N W COMPUTE S.i = N; S.s = W; END;",
        b"",
    ),
    (
        b"TERM N: int; TERM W: string; ATTR i: int; ATTR b: bool; ATTR s: string; ATTR t: PTGNode; ATTR v: VOID; RULE r: S ::= N W COMPUTE S.i = CONSTITUENTS S.i WITH (int, ADD, IDENTICAL, ZERO); END;",
        b"",
    ),
    (
        b"TERM N: int; TERM W: string; ATTR i: int; ATTR b: bool; ATTR s: string; ATTR t: PTGNode; ATTR v: VOID; RULE r: S ::= N W COMPUTE S.i = 1; S.t = CONSTITUENTS S.i WITH (PTGNode, PTGSeq, PTGNumb, PTGNull); END;",
        b"",
    ),
    (
        b"TERM N: int; TERM W: string; ATTR i: int; ATTR b: bool; ATTR s: string; ATTR t: PTGNode; ATTR v: VOID; RULE r: S ::= N W COMPUTE message(ERROR, W, 0, COORDREF); END;",
        b"",
    ),
    (
        b"TERM N: int; TERM W: string; ATTR i: int; ATTR b: bool; ATTR s: string; ATTR t: PTGNode; ATTR v: VOID; RULE r: S ::= N W COMPUTE IF(N > 9, message(WARNING, W, 0, COORDREF)); END;",
        b"",
    ),
];

/// Expressions of other types than those that are wanted.
pub const MISTYPED: [(&[u8], &[u8]); 27] = [
    (
        b"TERM N: int; TERM W: string; ATTR i: int; ATTR b: bool; ATTR s: string; ATTR t: PTGNode; ATTR v: VOID; RULE r: S ::= N W COMPUTE S.i = true; END;",
        b"TypeMismatch at 135",
    ),
    (
        b"TERM N: int; TERM W: string; ATTR i: int; ATTR b: bool; ATTR s: string; ATTR t: PTGNode; ATTR v: VOID; RULE r: S ::= N W COMPUTE S.b = 1; END;",
        b"TypeMismatch at 135",
    ),
    (
        b"TERM N: int; TERM W: string; ATTR i: int; ATTR b: bool; ATTR s: string; ATTR t: PTGNode; ATTR v: VOID; RULE r: S ::= N W COMPUTE S.i = 1 + true; END;",
        b"TypeMismatch at 139",
    ),
    (
        b"TERM N: int; TERM W: string; ATTR i: int; ATTR b: bool; ATTR s: string; ATTR t: PTGNode; ATTR v: VOID; RULE r: S ::= N W COMPUTE S.i = true + 1; END;",
        b"TypeMismatch at 135",
    ),
    (
        b"TERM N: int; TERM W: string; ATTR i: int; ATTR b: bool; ATTR s: string; ATTR t: PTGNode; ATTR v: VOID; RULE r: S ::= N W COMPUTE S.b = 1 == true; END;",
        b"TypeMismatch at 140",
    ),
    (
        b"TERM N: int; TERM W: string; ATTR i: int; ATTR b: bool; ATTR s: string; ATTR t: PTGNode; ATTR v: VOID; RULE r: S ::= N W COMPUTE S.b = PTGNULL == PTGNULL; END;",
        b"TypeMismatch at 135",
    ),
    (
        b"TERM N: int; TERM W: string; ATTR i: int; ATTR b: bool; ATTR s: string; ATTR t: PTGNode; ATTR v: VOID; RULE r: S ::= N W COMPUTE S.b = 1 < W; END;",
        b"TypeMismatch at 139",
    ),
    (
        b"TERM N: int; TERM W: string; ATTR i: int; ATTR b: bool; ATTR s: string; ATTR t: PTGNode; ATTR v: VOID; RULE r: S ::= N W COMPUTE S.b = 1 && true; END;",
        b"TypeMismatch at 135",
    ),
    (
        b"TERM N: int; TERM W: string; ATTR i: int; ATTR b: bool; ATTR s: string; ATTR t: PTGNode; ATTR v: VOID; RULE r: S ::= N W COMPUTE S.b = !1; END;",
        b"TypeMismatch at 136",
    ),
    (
        b"TERM N: int; TERM W: string; ATTR i: int; ATTR b: bool; ATTR s: string; ATTR t: PTGNode; ATTR v: VOID; RULE r: S ::= N W COMPUTE S.i = -true; END;",
        b"TypeMismatch at 136",
    ),
    (
        b"TERM N: int; TERM W: string; ATTR i: int; ATTR b: bool; ATTR s: string; ATTR t: PTGNode; ATTR v: VOID; RULE r: S ::= N W COMPUTE S.i = IF(1, 2, 3); END;",
        b"TypeMismatch at 138",
    ),
    (
        b"TERM N: int; TERM W: string; ATTR i: int; ATTR b: bool; ATTR s: string; ATTR t: PTGNode; ATTR v: VOID; RULE r: S ::= N W COMPUTE S.i = IF(true, 2, W); END;",
        b"TypeMismatch at 147",
    ),
    (
        b"TERM N: int; TERM W: string; ATTR i: int; ATTR b: bool; ATTR s: string; ATTR t: PTGNode; ATTR v: VOID; RULE r: S ::= N W COMPUTE S.i = IF(true, W, W); END;",
        b"TypeMismatch at 135",
    ),
    (
        b"TERM N: int; TERM W: string; ATTR i: int; ATTR b: bool; ATTR s: string; ATTR t: PTGNode; ATTR v: VOID; RULE r: S ::= N W COMPUTE S.i = ORDER(1, W); END;",
        b"TypeMismatch at 135",
    ),
    (
        b"TERM N: int; TERM W: string; ATTR i: int; ATTR b: bool; ATTR s: string; ATTR t: PTGNode; ATTR v: VOID; RULE r: S ::= N W COMPUTE S.t = 1; END;",
        b"TypeMismatch at 135",
    ),
    (
        b"TERM N: int; TERM W: string; ATTR i: int; ATTR b: bool; ATTR s: string; ATTR t: PTGNode; ATTR v: VOID; RULE r: S ::= N W COMPUTE PTGOut(1); END;",
        b"TypeMismatch at 136",
    ),
    (
        b"TERM N: int; TERM W: string; ATTR i: int; ATTR b: bool; ATTR s: string; ATTR t: PTGNode; ATTR v: VOID; RULE r: S ::= N W COMPUTE S.t = PTGSeq(1, PTGNULL); END;",
        b"TypeMismatch at 142",
    ),
    (
        b"TERM N: int; TERM W: string; ATTR i: int; ATTR b: bool; ATTR s: string; ATTR t: PTGNode; ATTR v: VOID; RULE r: S ::= N W COMPUTE S.t = PTGNumb(W); END;",
        b"TypeMismatch at 143",
    ),
    (
        b"TERM N: int; TERM W: string; ATTR i: int; ATTR b: bool; ATTR s: string; ATTR t: PTGNode; ATTR v: VOID; RULE r: S ::= N W COMPUTE S.t = PTGAsIs(1); END;",
        b"TypeMismatch at 143",
    ),
    (
        b"TERM N: int; TERM W: string; ATTR i: int; ATTR b: bool; ATTR s: string; ATTR t: PTGNode; ATTR v: VOID; RULE r: S ::= N W COMPUTE S.t = PTGTwo(1, W); END;",
        b"TypeMismatch at 145",
    ),
    (
        b"TERM N: int; TERM W: string; ATTR i: int; ATTR b: bool; ATTR s: string; ATTR t: PTGNode; ATTR v: VOID; RULE r: S ::= N W COMPUTE S.i = (true); END;",
        b"TypeMismatch at 136",
    ),
    (
        b"TERM N: int; TERM W: string; ATTR i: int; ATTR b: bool; ATTR s: string; ATTR t: PTGNode; ATTR v: VOID; RULE r: S ::= N W COMPUTE S.i = 1 + (true); END;",
        b"TypeMismatch at 140",
    ),
    (
        b"TERM N: int; TERM W: string; ATTR i: int; ATTR b: bool; ATTR s: string; ATTR t: PTGNode; ATTR v: VOID; RULE r: S ::= N W COMPUTE S.i = LINE + COL == 2; END;",
        b"TypeMismatch at 135",
    ),
    (
        b"TERM N: int; TERM W: string; ATTR i: int; ATTR b: bool; ATTR s: string; ATTR t: PTGNode; ATTR v: VOID; RULE r: S ::= N W COMPUTE S.b = LINE; END;",
        b"TypeMismatch at 135",
    ),
    (
        b"TERM N: int; TERM W: string; ATTR i: int; ATTR b: bool; ATTR s: string; ATTR t: PTGNode; ATTR v: VOID; RULE r: S ::= N W COMPUTE message(ERROR, N, 0, COORDREF); END;",
        b"TypeMismatch at 144",
    ),
    (
        b"TERM N: int; TERM W: string; ATTR i: int; ATTR b: bool; ATTR s: string; ATTR t: PTGNode; ATTR v: VOID; RULE r: S ::= N W COMPUTE IF(N, message(ERROR, W, 0, COORDREF)); END;",
        b"TypeMismatch at 132",
    ),
    (
        b"TERM N: int; TERM W: string; ATTR i: int; ATTR b: bool; ATTR s: string; ATTR t: PTGNode; ATTR v: VOID; RULE r: S ::= N W COMPUTE IF(N, message(ERROR, N, 0, COORDREF)); END;",
        b"TypeMismatch at 132",
    ),
];

/// Calls of what is no function, and with too few or too many arguments; what is faulty within a call comes behind its name.
pub const CALLS: [(&[u8], &[u8]); 17] = [
    (
        b"TERM N: int; TERM W: string; ATTR i: int; ATTR b: bool; ATTR s: string; ATTR t: PTGNode; ATTR v: VOID; RULE r: S ::= N W COMPUTE S.i = FOO(1); END;",
        b"UnknownFunction at 135",
    ),
    (
        b"TERM N: int; TERM W: string; ATTR i: int; ATTR b: bool; ATTR s: string; ATTR t: PTGNode; ATTR v: VOID; RULE r: S ::= N W COMPUTE S.t = PTGFoo(1); END;",
        b"UnknownFunction at 135",
    ),
    (
        b"TERM N: int; TERM W: string; ATTR i: int; ATTR b: bool; ATTR s: string; ATTR t: PTGNode; ATTR v: VOID; RULE r: S ::= N W COMPUTE S.i = ZERO(1); END;",
        b"ArgCount at 135",
    ),
    (
        b"TERM N: int; TERM W: string; ATTR i: int; ATTR b: bool; ATTR s: string; ATTR t: PTGNode; ATTR v: VOID; RULE r: S ::= N W COMPUTE S.i = ADD(1); END;",
        b"ArgCount at 135",
    ),
    (
        b"TERM N: int; TERM W: string; ATTR i: int; ATTR b: bool; ATTR s: string; ATTR t: PTGNode; ATTR v: VOID; RULE r: S ::= N W COMPUTE S.i = ADD(1, 2, 3); END;",
        b"ArgCount at 135",
    ),
    (
        b"TERM N: int; TERM W: string; ATTR i: int; ATTR b: bool; ATTR s: string; ATTR t: PTGNode; ATTR v: VOID; RULE r: S ::= N W COMPUTE S.t = PTGTwo(1); END;",
        b"ArgCount at 135",
    ),
    (
        b"TERM N: int; TERM W: string; ATTR i: int; ATTR b: bool; ATTR s: string; ATTR t: PTGNode; ATTR v: VOID; RULE r: S ::= N W COMPUTE S.t = PTGTwo(1, 2, 3); END;",
        b"ArgCount at 135",
    ),
    (
        b"TERM N: int; TERM W: string; ATTR i: int; ATTR b: bool; ATTR s: string; ATTR t: PTGNode; ATTR v: VOID; RULE r: S ::= N W COMPUTE S.i = IDENTICAL(); END;",
        b"ArgCount at 135",
    ),
    (
        b"TERM N: int; TERM W: string; ATTR i: int; ATTR b: bool; ATTR s: string; ATTR t: PTGNode; ATTR v: VOID; RULE r: S ::= N W COMPUTE S.i = ARGTOONE(1, 2); END;",
        b"ArgCount at 135",
    ),
    (
        b"TERM N: int; TERM W: string; ATTR i: int; ATTR b: bool; ATTR s: string; ATTR t: PTGNode; ATTR v: VOID; RULE r: S ::= N W COMPUTE S.t = PTGNumb(); END;",
        b"ArgCount at 135",
    ),
    (
        b"TERM N: int; TERM W: string; ATTR i: int; ATTR b: bool; ATTR s: string; ATTR t: PTGNode; ATTR v: VOID; RULE r: S ::= N W COMPUTE S.t = PTGAsIs(W, W); END;",
        b"ArgCount at 135",
    ),
    (
        b"TERM N: int; TERM W: string; ATTR i: int; ATTR b: bool; ATTR s: string; ATTR t: PTGNode; ATTR v: VOID; RULE r: S ::= N W COMPUTE S.t = PTGSeq(PTGNULL); END;",
        b"ArgCount at 135",
    ),
    (
        b"TERM N: int; TERM W: string; ATTR i: int; ATTR b: bool; ATTR s: string; ATTR t: PTGNode; ATTR v: VOID; RULE r: S ::= N W COMPUTE S.i = ADD(FOO()); END;",
        b"ArgCount at 135",
    ),
    (
        b"TERM N: int; TERM W: string; ATTR i: int; ATTR b: bool; ATTR s: string; ATTR t: PTGNode; ATTR v: VOID; RULE r: S ::= N W COMPUTE S.i = ADD(FOO(), true); END;",
        b"UnknownFunction at 139",
    ),
    (
        b"TERM N: int; TERM W: string; ATTR i: int; ATTR b: bool; ATTR s: string; ATTR t: PTGNode; ATTR v: VOID; RULE r: S ::= N W COMPUTE S.i = ADD(true, FOO()); END;",
        b"UnknownFunction at 145",
    ),
    (
        b"TERM N: int; TERM W: string; ATTR i: int; ATTR b: bool; ATTR s: string; ATTR t: PTGNode; ATTR v: VOID; RULE r: S ::= N W COMPUTE S.i = ADD(ADD(1, true), FOO()); END;",
        b"TypeMismatch at 146",
    ),
    (
        b"TERM N: int; TERM W: string; ATTR i: int; ATTR b: bool; ATTR s: string; ATTR t: PTGNode; ATTR v: VOID; RULE r: S ::= N W COMPUTE S.b = true && (1 < FOO()); END;",
        b"UnknownFunction at 148",
    ),
];

/// The functions behind WITH, and pairs of two types.
pub const REMOTE: [(&[u8], &[u8]); 14] = [
    (
        b"TERM N: int; TERM W: string; ATTR i: int; ATTR b: bool; ATTR s: string; ATTR t: PTGNode; ATTR v: VOID; RULE r: S ::= N W COMPUTE S.i = CONSTITUENTS S.i WITH (int, FOO, IDENTICAL, ZERO); END;",
        b"UnknownFunction at 163",
    ),
    (
        b"TERM N: int; TERM W: string; ATTR i: int; ATTR b: bool; ATTR s: string; ATTR t: PTGNode; ATTR v: VOID; RULE r: S ::= N W COMPUTE S.i = CONSTITUENTS S.i WITH (int, IDENTICAL, IDENTICAL, ZERO); END;",
        b"ArgCount at 163",
    ),
    (
        b"TERM N: int; TERM W: string; ATTR i: int; ATTR b: bool; ATTR s: string; ATTR t: PTGNode; ATTR v: VOID; RULE r: S ::= N W COMPUTE S.i = CONSTITUENTS S.i WITH (int, PTGSeq, IDENTICAL, ZERO); END;",
        b"TypeMismatch at 163",
    ),
    (
        b"TERM N: int; TERM W: string; ATTR i: int; ATTR b: bool; ATTR s: string; ATTR t: PTGNode; ATTR v: VOID; RULE r: S ::= N W COMPUTE S.i = CONSTITUENTS S.i WITH (int, ADD, ADD, ZERO); END;",
        b"ArgCount at 168",
    ),
    (
        b"TERM N: int; TERM W: string; ATTR i: int; ATTR b: bool; ATTR s: string; ATTR t: PTGNode; ATTR v: VOID; RULE r: S ::= N W COMPUTE S.i = CONSTITUENTS S.i WITH (int, ADD, PTGNumb, ZERO); END;",
        b"TypeMismatch at 168",
    ),
    (
        b"TERM N: int; TERM W: string; ATTR i: int; ATTR b: bool; ATTR s: string; ATTR t: PTGNode; ATTR v: VOID; RULE r: S ::= N W COMPUTE S.i = CONSTITUENTS S.i WITH (int, ADD, IDENTICAL, TWO); END;",
        b"UnknownFunction at 179",
    ),
    (
        b"TERM N: int; TERM W: string; ATTR i: int; ATTR b: bool; ATTR s: string; ATTR t: PTGNode; ATTR v: VOID; RULE r: S ::= N W COMPUTE S.i = CONSTITUENTS S.i WITH (int, ADD, IDENTICAL, IDENTICAL); END;",
        b"ArgCount at 179",
    ),
    (
        b"TERM N: int; TERM W: string; ATTR i: int; ATTR b: bool; ATTR s: string; ATTR t: PTGNode; ATTR v: VOID; RULE r: S ::= N W COMPUTE S.i = CONSTITUENTS S.i WITH (int, ADD, IDENTICAL, PTGNull); END;",
        b"TypeMismatch at 179",
    ),
    (
        b"TERM N: int; TERM W: string; ATTR i: int; ATTR b: bool; ATTR s: string; ATTR t: PTGNode; ATTR v: VOID; RULE r: S ::= N W COMPUTE S.i = CONSTITUENTS S.i WITH (int, FOO, ADD, PTGNull); END;",
        b"UnknownFunction at 163",
    ),
    (
        b"TERM N: int; TERM W: string; ATTR i: int; ATTR b: bool; ATTR s: string; ATTR t: PTGNode; ATTR v: VOID; RULE r: S ::= N W COMPUTE S.i = 1 <- CONSTITUENTS S.i WITH (int, FOO, IDENTICAL, ZERO); END;",
        b"UnknownFunction at 168",
    ),
    (
        b"TERM N: int; TERM W: string; ATTR i: int; ATTR b: bool; ATTR s: string; ATTR t: PTGNode; ATTR v: VOID; RULE r: S ::= N W COMPUTE S.i = CONSTITUENTS S.i WITH (PTGNode, PTGSeq, PTGNumb, PTGNull); END;",
        b"TypeMismatch at 135",
    ),
    (
        b"ATTR i: int; ATTR k: int; CLASS SYMBOL K COMPUTE SYNT.k = 1; END; SYMBOL A INHERITS K END; SYMBOL B INHERITS K END; SYMBOL A: k: int; SYMBOL B: k: bool; RULE r: S ::= A B COMPUTE S.i = CONSTITUENTS K.k WITH (int, ADD, IDENTICAL, ZERO); END; RULE q: A ::= COMPUTE A.k = 1; END; RULE p: B ::= COMPUTE B.k = true; END;",
        b"TypeMismatch at 198",
    ),
    (
        b"ATTR i: int; ATTR b: bool; RULE r: S ::= A COMPUTE S.i = 1; S.b = true; END; RULE q: A ::= B COMPUTE A.i = 1; A.b = true; END; RULE p: B ::= COMPUTE B.i = INCLUDING (A.i, S.b); END;",
        b"TypeMismatch at 171",
    ),
    (
        b"ATTR i: int; ATTR b: bool; RULE r: S ::= A COMPUTE S.i = 1; END; RULE q: A ::= B COMPUTE A.i = 1; END; RULE p: B ::= COMPUTE B.b = INCLUDING (A.i, S.i) == 1; END;",
        b"",
    ),
];

/// Chains, and which of two faults is the first.
pub const ORDERS: [(&[u8], &[u8]); 10] = [
    (
        b"CHAIN c: int; CHAIN w: VOID; TERM N: int; ATTR i: int; RULE r: S ::= A COMPUTE CHAINSTART HEAD.c = 1; END; RULE q: A ::= N COMPUTE A.i = A.c; END;",
        b"",
    ),
    (
        b"CHAIN c: int; CHAIN w: VOID; TERM N: int; ATTR i: int; RULE r: S ::= A COMPUTE CHAINSTART HEAD.c = true; END; RULE q: A ::= N COMPUTE  END;",
        b"TypeMismatch at 99",
    ),
    (
        b"CHAIN c: int; CHAIN w: VOID; TERM N: int; ATTR i: int; RULE r: S ::= A COMPUTE CHAINSTART HEAD.w = 1; END; RULE q: A ::= N COMPUTE  END;",
        b"TypeMismatch at 99",
    ),
    (
        b"CHAIN c: int; CHAIN w: VOID; TERM N: int; ATTR i: int; RULE r: S ::= A COMPUTE CHAINSTART HEAD.c = 1; END; RULE q: A ::= N COMPUTE A.c = true; END;",
        b"TypeMismatch at 137",
    ),
    (
        b"CHAIN c: int; CHAIN w: VOID; TERM N: int; ATTR i: int; RULE r: S ::= A COMPUTE PTGOut(1); CHAINSTART HEAD.c = true; END; RULE q: A ::= N COMPUTE  END;",
        b"TypeMismatch at 110",
    ),
    (
        b"CHAIN c: int; CHAIN w: VOID; TERM N: int; ATTR i: int; RULE r: S ::= A COMPUTE S.c = true; CHAINSTART HEAD.c = true; END; RULE q: A ::= N COMPUTE  END;",
        b"TypeMismatch at 111",
    ),
    (
        b"CHAIN c: int; CHAIN w: VOID; TERM N: int; ATTR i: int; RULE r: S ::= A COMPUTE CHAINSTART HEAD.c = true; S.i = true; END; RULE q: A ::= N COMPUTE  END;",
        b"TypeMismatch at 111",
    ),
    (
        b"CHAIN c: int; CHAIN w: VOID; TERM N: int; ATTR i: int; RULE r: S ::= A COMPUTE message(ERROR, 1, 0, COORDREF); PTGOut(1); END; RULE q: A ::= N COMPUTE  END;",
        b"TypeMismatch at 118",
    ),
    (
        b"TERM N: int; TERM W: string; ATTR i: int; ATTR b: bool; ATTR s: string; ATTR t: PTGNode; ATTR v: VOID; RULE r: S ::= N W COMPUTE S.s = 1; S.i = true; END;",
        b"TypeMismatch at 144",
    ),
    (
        b"TERM N: int; TERM W: string; ATTR i: int; ATTR b: bool; ATTR s: string; ATTR t: PTGNode; ATTR v: VOID; RULE r: S ::= N W COMPUTE S.s = FOO(); S.i = ADD(); END;",
        b"ArgCount at 148",
    ),
];
