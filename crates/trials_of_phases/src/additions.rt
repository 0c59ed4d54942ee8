//! Tests of what no contract says: that the definitions add what a writer of specifications expects.
ghost use Rattle.std.specs.Prelude.{IfOk};
ghost use Rattle.lido_base.specs.Environment.{Environment};
ghost use Rattle.rule_tables.specs.ForcedOf.{AreForcedOf};
ghost use Rattle.need_graphs.specs.Clear.{AreWithin};

use crate::forced_of;
use crate::shown::shown;
use crate::texts::{
    BLOCKS, GROUPED, JOINLESS, NUMBERED, SHIELDED, SUM, TRANSLATOR, UNSTARTED, WAITING,
};
use chain_expand::expand_chains;
use constituents_expand::expand_constituents;
use lido_base::Strings;
use lido_syntax::SpecFault;
use rule_tables::Forced;
use std::alloc::{AllocError, Global};
use std::test::Fail;

/// A specification and what is added to its flat grammar.
#[derive(Clone, Copy)]
struct Row {
    text: &'static [u8],
    constituents: &'static [u8],
    chains: &'static [u8],
}

const ROWS: [Row; 7] = [
    Row {
        text: SUM,
        constituents: b"1.con1 up int
3.con1 up int
rule 1: 0.con1 = join1 single 0.written0 null
rule 2: 0.con1 = join1 1.con1 2.con1
rule 3: 0.con1 = join1 null
",
        chains: b"",
    },
    Row {
        text: NUMBERED,
        constituents: b"2.con2 up text
3.con2 up text
rule 1: 0.con2 = join2 single 0.written0
rule 2: 0.con2 = join2 1.con2 2.con2
rule 3: 0.con2 = join2 null
",
        chains: b"2.front0 down int
2.behind0 up int
3.front0 down int
3.behind0 up int
rule 0: 1.front0 = copy 0
rule 1: 0.behind0 = copy 4
rule 2: 0.behind0 = 2.behind0
rule 2: 1.front0 = 0.front0
rule 2: 2.front0 = 1.behind0
rule 3: 0.behind0 = 0.front0
",
    },
    Row {
        text: GROUPED,
        constituents: b"2.con2 up text
2.con8 up text
4.con2 up text
5.con8 up text
rule 1: 0.con2 = join2 single 0.written0
rule 1: 0.con8 = join8 single 0.written0
rule 2: 0.con2 = join2 single 0.written0
rule 2: 0.con8 = join8 single 0.written0
rule 4: 0.con2 = join2 1.con2 2.con2
rule 5: 0.con2 = join2 null
rule 6: 0.con8 = join8 1.con8 2.con8
rule 7: 0.con8 = join8 null
",
        chains: b"2.front0 down int
2.behind0 up int
4.front0 down int
4.behind0 up int
5.front0 down int
5.behind0 up int
rule 0: 1.front0 = copy 0
rule 1: 0.behind0 = copy 4
rule 2: 0.behind0 = 0.front0
rule 3: 1.front0 = copy 6
rule 4: 0.behind0 = 2.behind0
rule 4: 1.front0 = 0.front0
rule 4: 2.front0 = 1.behind0
rule 5: 0.behind0 = 0.front0
rule 6: 0.behind0 = 2.behind0
rule 6: 1.front0 = 0.front0
rule 6: 2.front0 = 1.behind0
rule 7: 0.behind0 = 0.front0
",
    },
    Row {
        text: SHIELDED,
        constituents: b"2.con1 up int
2.con2 up int
3.con2 up int
4.con2 up int
rule 1: 0.con1 = join1 single 0.written0
rule 1: 0.con2 = join2 single 0.written0 2.con2 null
rule 2: 0.con2 = join2 1.con2
rule 3: 0.con2 = join2 1.con2 2.con2
rule 4: 0.con2 = join2 null
",
        chains: b"",
    },
    Row {
        text: BLOCKS,
        constituents: b"1.con3 up text
2.con3 up text
rule 1: 0.con3 = join3 single 0.written0
rule 2: 0.con3 = join3 1.con3 2.con3
rule 3: 0.con3 = join3 null
",
        chains: b"1.front0 down int
1.behind0 up int
2.front0 down int
2.behind0 up int
rule 0: 1.front0 = copy 0
rule 1: 0.behind0 = copy 4
rule 1: 1.front0 = 0.front0
rule 2: 0.behind0 = 2.behind0
rule 2: 1.front0 = 0.front0
rule 2: 2.front0 = 1.behind0
rule 3: 0.behind0 = 0.front0
",
    },
    Row {
        text: TRANSLATOR,
        constituents: b"3.con2 up text
4.con2 up text
6.con2 up text
rule 1: 0.con2 = join2 single 0.written0 null
rule 2: 0.con2 = join2 single 0.written0 null
rule 6: 0.con2 = join2 1.con2 2.con2
rule 7: 0.con2 = join2 1.con2 2.con2
rule 8: 0.con2 = join2 null
",
        chains: b"3.front0 down int
3.behind0 up int
6.front0 down int
6.behind0 up int
rule 0: 1.front0 = copy 0
rule 1: 0.behind0 = copy 4
rule 6: 0.behind0 = 2.behind0
rule 6: 1.front0 = 0.front0
rule 6: 2.front0 = 1.behind0
rule 7: 0.behind0 = 2.behind0
rule 7: 2.front0 = 0.front0
rule 8: 0.behind0 = 0.front0
",
    },
    Row {
        text: WAITING,
        constituents: b"1.con1 up void
1.con3 up int
2.con1 up void
2.con3 up int
rule 1: 0.con1 = void 1.con1 2.con1
rule 1: 0.con3 = join3 1.con3 2.con3 null
rule 2: 0.con1 = void 1.con1
rule 2: 0.con3 = join3 1.con3 null
rule 3: 0.con1 = void 0.written1
rule 3: 0.con3 = join3 single 0.written0 null
",
        chains: b"",
    },
];

/// What is in force in the specification that the text is, which has no fault up to there.
fn in_force(alloc: Global, text: &[u8], strings: &mut Strings) -> Result<Forced, Fail>
    ensures forced { IfOk result (λ forced. (env : Environment) × AreForcedOf env forced) }
    ensures within { IfOk result (λ forced. AreWithin forced.tables) }
{
    if text.len() > 8_388_608 {
        return Err(Fail::from(AllocError));
    }
    match forced_of(alloc, text, strings) {
        Ok(forced) => Ok(forced),
        Err(_) => Err(Fail::from(AllocError)),
    }
}

#[test]
fn additions(rt: HostRuntime) -> Result<(), Fail> {
    let alloc = rt.alloc();
    for row in ROWS {
        let mut strings = Strings::new(alloc)?;
        let forced = in_force(alloc, row.text, &mut strings)?;
        let Ok(constituents) = expand_constituents(alloc, &forced) else {
            return Err(Fail::from(AllocError));
        };
        let Ok(chains) = expand_chains(alloc, &forced) else {
            return Err(Fail::from(AllocError));
        };
        let constituents = shown(alloc, &constituents)?;
        assert_eq!(rt; constituents.as_slice(), row.constituents);
        let chains = shown(alloc, &chains)?;
        assert_eq!(rt; chains.as_slice(), row.chains);
    }
    Ok(())
}

/// Of two ways of the same length to the chain's use, that by the symbol of the lower number is named.
#[test]
fn a_chain_without_a_start(rt: HostRuntime) -> Result<(), Fail> {
    let alloc = rt.alloc();
    let mut strings = Strings::new(alloc)?;
    let forced = in_force(alloc, UNSTARTED, &mut strings)?;
    let symbols = forced.tables.symbols.as_slice();
    let Err(SpecFault::ChainNoStart { path, .. }) = expand_chains(alloc, &forced) else {
        return Err(Fail::from(AllocError));
    };
    assert_eq!(rt; path.len(), 3);
    for (name, number) in path.as_slice().iter().zip([0, 1, 3]) {
        assert_eq!(rt; Some(*name), symbols.get(number).map(|row| row.name));
    }
    Ok(())
}

/// What stands behind `<-` needs no WITH.
#[test]
fn a_value_without_a_with(rt: HostRuntime) -> Result<(), Fail> {
    let alloc = rt.alloc();
    let mut strings = Strings::new(alloc)?;
    let forced = in_force(alloc, JOINLESS, &mut strings)?;
    let Err(SpecFault::NoWith { at }) = expand_constituents(alloc, &forced) else {
        return Err(Fail::from(AllocError));
    };
    assert_eq!(rt; at, 60);
    Ok(())
}
