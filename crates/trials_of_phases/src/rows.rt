//! Small specifications with the first fault that each has, or none. Nothing else than what is in force is looked at.

/// Names that mean nothing where they stand.
pub const UNKNOWN: [(&[u8], &[u8]); 13] = [
    (
        b"RULE r: S ::= COMPUTE X.a = 1; END;",
        b"UnknownSymbol at 22",
    ),
    (
        b"RULE r: S ::= A COMPUTE S.a = B; END;",
        b"UnknownSymbol at 30",
    ),
    (
        b"RULE r: S ::= COMPUTE THIS.a = 1; END;",
        b"UnknownSymbol at 22",
    ),
    (
        b"RULE r: S ::= END; SYMBOL T: a: int;",
        b"UnknownSymbol at 26",
    ),
    (
        b"RULE r: S ::= END; SYMBOL S COMPUTE SYNT.a = B; END;",
        b"UnknownSymbol at 45",
    ),
    (
        b"RULE r: S ::= END; SYMBOL S COMPUTE S.a = 1; END;",
        b"UnknownSymbol at 36",
    ),
    (
        b"RULE r: S ::= COMPUTE S.a = INCLUDING Q.a; END;",
        b"UnknownSymbol at 38",
    ),
    (
        b"RULE r: S ::= COMPUTE S.a = CONSTITUENTS S.a SHIELD Q; END;",
        b"UnknownSymbol at 52",
    ),
    (
        b"RULE r: S ::= COMPUTE S.a = TAIL.a; SYNT.b = 1; END;",
        b"UnknownSymbol at 36",
    ),
    (
        b"RULE r: S ::= END; SYMBOL S INHERITS C END;",
        b"UnknownSymbol at 37",
    ),
    (
        b"RULE r: S ::= A END; RULE r: A ::= END; SYMBOL T: a: int;",
        b"UnknownSymbol at 47",
    ),
    (b"RULE r: S ::= COMPUTE S.a = LINE; END;", b""),
    (b"RULE r: S ::= LINE COMPUTE S.a = LINE; END;", b""),
];

/// Rules of one name, and specifications without one root.
pub const RULES: [(&[u8], &[u8]); 10] = [
    (
        b"RULE r: S ::= A END; RULE r: A ::= END;",
        b"DuplicateRule at 26",
    ),
    (
        b"RULE r: S ::= A END; RULE r: T ::= END;",
        b"DuplicateRule at 26",
    ),
    (
        b"RULE rule_2: S ::= A END; RULE: A ::= END;",
        b"DuplicateRule at 26",
    ),
    (
        b"RULE r: S ::= A END; RULE q: A ::= END; RULE q: A ::= END; RULE r: A ::= END;",
        b"DuplicateRule at 45",
    ),
    (b"RULE: S ::= A END; RULE: A ::= END;", b""),
    (
        b"RULE r: S ::= A END; RULE q: S ::= END; RULE p: A ::= END;",
        b"",
    ),
    (
        b"RULE r: S ::= END; RULE q: T ::= END;",
        b"RootNotOne count 2",
    ),
    (b"RULE r: S ::= S END;", b"RootNotOne count 0"),
    (b"", b"RootNotOne count 0"),
    (
        b"CLASS SYMBOL C END; RULE r: S ::= C S END;",
        b"RootNotOne count 0",
    ),
];

/// Symbols that are used as what they aren't.
pub const SYMBOLS: [(&[u8], &[u8]); 19] = [
    (
        b"CLASS SYMBOL C: a: int; RULE r: S ::= C END;",
        b"KindClash at 38",
    ),
    (
        b"CLASS SYMBOL S END; RULE r: S ::= END;",
        b"KindClash at 28",
    ),
    (
        b"TERM C: int; CLASS SYMBOL C END; RULE r: S ::= END;",
        b"KindClash at 5",
    ),
    (b"RULE r: S ::= END; TERM S: int;", b"KindClash at 24"),
    (
        b"TERM T: int; TERM T: string; RULE r: S ::= T END;",
        b"KindClash at 18",
    ),
    (b"TERM T: int; TERM T: int; RULE r: S ::= T END;", b""),
    (b"TERM T: int; RULE r: S LISTOF T END;", b"KindClash at 30"),
    (
        b"RULE r: S LISTOF A | B END; RULE q: A ::= END;",
        b"KindClash at 21",
    ),
    (
        b"RULE r: S LISTOF A END; RULE q: A ::= END; TERM A: int;",
        b"KindClash at 48",
    ),
    (
        b"RULE r: S ::= A END; RULE q: A ::= END; SYMBOL S INHERITS A END;",
        b"KindClash at 58",
    ),
    (
        b"TERM T: int; RULE r: S ::= T END; SYMBOL S INHERITS T END;",
        b"KindClash at 52",
    ),
    (b"RULE r: S ::= B COMPUTE B.a = 1; END;", b"KindClash at 24"),
    (
        b"RULE r: S ::= B COMPUTE S.a = B.a; END;",
        b"KindClash at 30",
    ),
    (
        b"TERM T: int; RULE r: S ::= T END; SYMBOL T: a: int;",
        b"KindClash at 41",
    ),
    (
        b"TERM T: int; RULE r: S ::= T COMPUTE S.a = INCLUDING T.a; END;",
        b"KindClash at 53",
    ),
    (
        b"TERM T: int; RULE r: S ::= T COMPUTE S.a = CONSTITUENTS S.a SHIELD T; END;",
        b"KindClash at 67",
    ),
    (
        b"TERM T: int; CLASS SYMBOL C COMPUTE SYNT.a = 1; END; RULE r: S ::= T END; SYMBOL T INHERITS C END;",
        b"KindClash at 81",
    ),
    (
        b"RULE r: S ::= A COMPUTE S.a = A; END; RULE q: A ::= END;",
        b"KindClash at 30",
    ),
    (
        b"RULE r: S ::= A A COMPUTE S.a = A[1]; END; RULE q: A ::= END;",
        b"KindClash at 32",
    ),
];

/// Attributes of two kinds or types.
pub const ATTRIBUTES: [(&[u8], &[u8]); 8] = [
    (
        b"ATTR a: int INH; RULE r: S ::= COMPUTE S.a = 1; END;",
        b"KindClash at 41",
    ),
    (
        b"RULE r: S ::= A COMPUTE A.a = 1; END; RULE q: A ::= COMPUTE A.a = 2; END;",
        b"KindClash at 62",
    ),
    (
        b"ATTR a: int; ATTR a: bool; RULE r: S ::= END;",
        b"KindClash at 18",
    ),
    (
        b"RULE r: S ::= END; SYMBOL S: a: int; SYMBOL S: a: bool;",
        b"KindClash at 47",
    ),
    (
        b"ATTR a: int SYNT; RULE r: S ::= END; SYMBOL S: a: int INH;",
        b"KindClash at 47",
    ),
    (
        b"ATTR a: int; RULE r: S ::= COMPUTE S.a = true; END; SYMBOL S: a: bool;",
        b"",
    ),
    (
        b"RULE r: S ::= END; SYMBOL S COMPUTE THIS.a = 1; END;",
        b"KindClash at 36",
    ),
    (
        b"CLASS SYMBOL C COMPUTE THIS.a = 1; END; RULE r: S ::= END;",
        b"KindClash at 23",
    ),
];

/// Chains where none may stand, and what is no chain.
pub const CHAINS: [(&[u8], &[u8]); 19] = [
    (
        b"CHAIN c: int; CHAIN c: int; RULE r: S ::= END;",
        b"KindClash at 20",
    ),
    (
        b"CHAIN c: int; ATTR c: int; RULE r: S ::= END;",
        b"KindClash at 19",
    ),
    (
        b"ATTR c: int; CHAIN c: int; RULE r: S ::= END;",
        b"KindClash at 19",
    ),
    (
        b"CHAIN c: int; RULE r: S ::= END; SYMBOL S: c: int;",
        b"KindClash at 43",
    ),
    (
        b"CHAIN c: int; RULE r: S ::= COMPUTE S.a = INCLUDING S.c; END;",
        b"KindClash at 54",
    ),
    (
        b"CHAIN c: int; RULE r: S ::= COMPUTE S.a = CONSTITUENTS S.c WITH (int, ADD, IDENTICAL, ZERO); END;",
        b"KindClash at 57",
    ),
    (
        b"CHAIN c: int; RULE r: S ::= A COMPUTE A.c = 1; END; RULE q: A ::= END;",
        b"KindClash at 40",
    ),
    (
        b"CHAIN c: int; RULE r: S ::= A COMPUTE S.a = A.c; END; RULE q: A ::= END;",
        b"KindClash at 46",
    ),
    (
        b"CHAIN c: int; RULE r: S ::= END; SYMBOL S COMPUTE SYNT.c = 1; END;",
        b"KindClash at 55",
    ),
    (
        b"CHAIN c: int; RULE r: S ::= A END; RULE q: A ::= END; SYMBOL A COMPUTE SYNT.b = INH.c; END;",
        b"KindClash at 84",
    ),
    (
        b"RULE r: S ::= COMPUTE CHAINSTART HEAD.a = 1; END;",
        b"KindClash at 38",
    ),
    (
        b"RULE r: S ::= COMPUTE S.a = TAIL.b; END;",
        b"KindClash at 33",
    ),
    (
        b"RULE r: S ::= COMPUTE S.a = INCLUDING S.a; CHAINSTART HEAD.a = 1; END;",
        b"KindClash at 59",
    ),
    (
        b"CHAIN c: int; RULE r: S ::= COMPUTE CHAINSTART HEAD.c = 1; S.a = TAIL.c; END;",
        b"",
    ),
    (
        b"RULE r: S ::= A END; RULE q: A ::= END; SYMBOL A COMPUTE INH.a = CONSTITUENTS S.a; END;",
        b"KindClash at 65",
    ),
    (
        b"RULE r: S ::= A END; RULE q: A ::= END; SYMBOL A COMPUTE INH.a = 1 <- CONSTITUENTS S.a; END;",
        b"KindClash at 70",
    ),
    (
        b"CHAIN c: int; RULE r: S ::= A END; RULE q: A ::= END; SYMBOL A COMPUTE INH.a = TAIL.c; END;",
        b"KindClash at 79",
    ),
    (
        b"CHAIN c: int; RULE r: S ::= A COMPUTE CHAINSTART HEAD.c = TAIL.c; END; RULE q: A ::= END;",
        b"KindClash at 58",
    ),
    (
        b"CHAIN c: int; RULE r: S ::= A COMPUTE CHAINSTART HEAD.c = 1 <- TAIL.c; END; RULE q: A ::= END;",
        b"KindClash at 63",
    ),
];

/// Places that mean no occurrence, and clashes that come before them.
pub const INDICES: [(&[u8], &[u8]); 12] = [
    (
        b"CHAIN c: int; RULE r: S LISTOF A COMPUTE S.b = A.c; END; RULE q: A ::= END;",
        b"KindClash at 49",
    ),
    (
        b"RULE r: S ::= A A COMPUTE A.i = 1; S.b = A[1]; END; RULE q: A ::= END;",
        b"KindClash at 41",
    ),
    (
        b"RULE r: S LISTOF A COMPUTE S.b = A.n; END; RULE q: A ::= END;",
        b"BadIndex at 33",
    ),
    (
        b"RULE r: S ::= A A COMPUTE A.i = 1; END; RULE q: A ::= END;",
        b"BadIndex at 26",
    ),
    (
        b"RULE r: S ::= A A COMPUTE A[3].i = 1; END; RULE q: A ::= END;",
        b"BadIndex at 26",
    ),
    (
        b"RULE r: S LISTOF A COMPUTE S[1].a = 1; END; RULE q: A ::= END;",
        b"BadIndex at 27",
    ),
    (
        b"RULE r: S ::= B B COMPUTE S.a = B[0]; END;",
        b"BadIndex at 32",
    ),
    (
        b"RULE r: S ::= A A COMPUTE S.a = 1; S.a = 2; A.i = 1; END; RULE q: A ::= END;",
        b"BadIndex at 44",
    ),
    (
        b"RULE r: S ::= A END; RULE q: A ::= A COMPUTE A[1].a = A[2].a; A[3].b = 1; END;",
        b"BadIndex at 62",
    ),
    (
        b"RULE r: S ::= A COMPUTE A[1].i = 1; END; RULE q: A ::= END;",
        b"",
    ),
    (
        b"RULE r: S ::= A A COMPUTE A[1].i = 1; A[2].i = 2; S.a = 1; END; RULE q: A ::= END;",
        b"",
    ),
    (
        b"RULE r: S ::= A END; RULE q: A ::= A COMPUTE A[1].a = 1; A.a = 2; END;",
        b"BadIndex at 57",
    ),
];

/// What is computed twice, and outputs that may not stand where they do.
pub const TWICE: [(&[u8], &[u8]); 9] = [
    (
        b"RULE r: S ::= COMPUTE S.a = 1; S.a = 2; END;",
        b"DoubleComputation at 31",
    ),
    (
        b"RULE r: S ::= END; SYMBOL S COMPUTE SYNT.a = 1; END; SYMBOL S COMPUTE SYNT.a = 2; END;",
        b"DoubleComputation at 70",
    ),
    (
        b"CHAIN c: int; RULE r: S ::= A COMPUTE CHAINSTART HEAD.c = 1; CHAINSTART HEAD.c = 2; END; RULE q: A ::= END;",
        b"DoubleComputation at 61",
    ),
    (
        b"CHAIN c: int; RULE r: S ::= COMPUTE S.c = 1; S.c = 2; END;",
        b"DoubleComputation at 45",
    ),
    (
        b"RULE r: S ::= A COMPUTE A[1].i = 1; A.i = 2; END; RULE q: A ::= END;",
        b"DoubleComputation at 36",
    ),
    (
        b"RULE r: S ::= COMPUTE PTGOut(PTGNULL); PTGOut(PTGNULL); S.a = 1; S.a = 2; END;",
        b"DoubleComputation at 65",
    ),
    (
        b"RULE r: S ::= A END; RULE q: A ::= COMPUTE PTGOut(PTGNULL); END;",
        b"BadOut at 43",
    ),
    (
        b"RULE r: S ::= COMPUTE PTGOut(PTGNULL); PTGOut(PTGNULL); END;",
        b"BadOut at 39",
    ),
    (
        b"RULE r: S ::= END; SYMBOL S COMPUTE PTGOut(PTGNULL); END;",
        b"BadOut at 36",
    ),
];

/// What is in force nowhere, or twice.
pub const IN_FORCE: [(&[u8], &[u8]); 14] = [
    (
        b"CLASS SYMBOL C INHERITS D END; CLASS SYMBOL D INHERITS C END; RULE r: S ::= END;",
        b"ClassCycle C D C",
    ),
    (
        b"CLASS SYMBOL C INHERITS D END; CLASS SYMBOL D INHERITS C END; CLASS SYMBOL E INHERITS E END; RULE r: S ::= END;",
        b"ClassCycle E E",
    ),
    (
        b"CLASS SYMBOL C INHERITS D END; CLASS SYMBOL D INHERITS C END; RULE r: S ::= A COMPUTE S.b = A.n; END; RULE q: A ::= END;",
        b"ClassCycle C D C",
    ),
    (
        b"CLASS SYMBOL C INHERITS C END; RULE r: S ::= A END; RULE q: A ::= COMPUTE PTGOut(PTGNULL); END;",
        b"BadOut at 74",
    ),
    (
        b"CLASS SYMBOL E INHERITS E END; CLASS SYMBOL C COMPUTE SYNT.n = 1; END; CLASS SYMBOL D COMPUTE SYNT.n = 2; END; RULE r: S ::= A COMPUTE S.b = A.n; END; RULE q: A ::= END; SYMBOL A INHERITS C, D END;",
        b"ClassCycle E E",
    ),
    (
        b"CLASS SYMBOL C COMPUTE SYNT.n = 1; END; CLASS SYMBOL D COMPUTE SYNT.n = 2; END; RULE r: S ::= A COMPUTE S.b = A.m; END; RULE q: A ::= END; SYMBOL A INHERITS C, D END;",
        b"ClashInherited A.n at 23 and 63",
    ),
    (
        b"RULE r: S ::= A COMPUTE S.b = A.n; END; RULE q: A ::= END;",
        b"MissingComputation in q of 0.n",
    ),
    (
        b"ATTR i: int INH; RULE r: S ::= COMPUTE S.b = S.i; END;",
        b"MissingComputation in r of 0.i",
    ),
    (
        b"RULE r: S ::= A END; RULE q: A ::= COMPUTE A.b = A.i; END; SYMBOL A: i: int INH;",
        b"MissingComputation in r of 1.i",
    ),
    (
        b"RULE r: S ::= T A COMPUTE S.b = 1; END; RULE q: A ::= COMPUTE A.b = A.i; END; SYMBOL A: i: int INH;",
        b"MissingComputation in r of 2.i",
    ),
    (
        b"CLASS SYMBOL C COMPUTE SYNT.n = 1; END; RULE r: S ::= A COMPUTE S.b = A.n; END; RULE q: A ::= END; SYMBOL A INHERITS C END;",
        b"",
    ),
    (
        b"CLASS SYMBOL C COMPUTE SYNT.n = 1; END; CLASS SYMBOL D INHERITS C COMPUTE SYNT.n = 2; END; RULE r: S ::= A COMPUTE S.b = A.n; END; RULE q: A ::= END; SYMBOL A INHERITS C, D END;",
        b"",
    ),
    (
        b"CLASS SYMBOL C COMPUTE SYNT.n = 1; END; CLASS SYMBOL D COMPUTE SYNT.n = 2; END; RULE r: S ::= A COMPUTE S.b = A.n; END; RULE q: A ::= END; SYMBOL A INHERITS C, D END;",
        b"ClashInherited A.n at 23 and 63",
    ),
    (
        b"CLASS SYMBOL C COMPUTE SYNT.n = 1; END; CLASS SYMBOL D COMPUTE SYNT.n = 2; END; RULE r: S ::= A COMPUTE S.b = A.n; END; RULE q: A ::= END; SYMBOL A INHERITS C, D COMPUTE SYNT.n = 3; END;",
        b"",
    ),
];
