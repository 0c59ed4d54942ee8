//! Tests of what no contract says of `Strings`: that memory is found, and how long it takes.
use crate::names::{Name, colliding_names, plain_names};
use indexmap::IndexSet;
use lido_base::Strings;
use std::alloc::Global;
use std::hash::{BuildHasherDefault, FoldHasher};
use std::rt::Clock;
use std::test::Fail;
use std::time::Instant;

const HOSTILE: usize = 80_000;

const TRIES: u32 = 5;

#[test]
fn a_million_texts(rt: HostRuntime) -> Result<(), Fail> {
    let start = Instant::now(&rt)?;
    let mut strings = Strings::new(rt.alloc())?;
    for number in 0..1_000_000u32 {
        strings.intern(&number.to_le_bytes())?;
    }
    assert_eq!(rt; strings.len(), 1_000_000);
    for number in [0, 1, 65_535, 65_536, 777_777, 999_999] {
        let text = u32::to_le_bytes(number);
        let id = strings.intern(&text)?;
        assert_eq!(rt; id.0, number);
        assert!(rt; (id.0 as usize) < strings.len());
        assert_eq!(rt; strings.bytes(id), text.as_slice());
    }
    assert!(rt; strings.find(&777_777u32.to_le_bytes()).is_some());
    assert!(rt; strings.find(b"no such text").is_none());
    assert_eq!(rt; strings.len(), 1_000_000);
    assert!(rt; start.elapsed(&rt)?.as_secs() < 20);
    Ok(())
}

/// Microseconds to intern the names once, in a table that is keyed by the text of them all.
fn keyed_micros(rt: &impl Clock, alloc: Global, names: &[Name]) -> Result<u128, Fail> {
    let mut text = Vec::new(alloc);
    for name in names {
        text.extend_from_slice(name)?;
    }
    let start = Instant::now(rt)?;
    let mut strings = Strings::keyed_by(alloc, text.as_slice());
    for name in names {
        strings.intern(name)?;
    }
    Ok(start.elapsed(rt)?.as_micros())
}

/// The same in a table of std's hasher.
fn unkeyed_micros(rt: &impl Clock, alloc: Global, names: &[Name]) -> Result<u128, Fail> {
    let start = Instant::now(rt)?;
    let mut set: IndexSet<Vec<u8>, BuildHasherDefault<FoldHasher>> = IndexSet::new(alloc);
    for name in names {
        set.insert(name.to_vec(alloc)?)?;
    }
    Ok(start.elapsed(rt)?.as_micros())
}

#[test]
fn hostile_names_take_no_longer(rt: HostRuntime) -> Result<(), Fail> {
    let hostile = colliding_names(rt.alloc(), HOSTILE)?;
    let plain = plain_names(rt.alloc(), HOSTILE as u64)?;
    assert_eq!(rt; hostile.len(), HOSTILE);
    let mut hostile_best = u128::MAX;
    let mut plain_best = u128::MAX;
    for _ in 0..TRIES {
        hostile_best = hostile_best.min(keyed_micros(&rt, rt.alloc(), hostile.as_slice())?);
        plain_best = plain_best.min(keyed_micros(&rt, rt.alloc(), plain.as_slice())?);
    }
    println!(rt; "keyed: hostile {hostile_best} us, plain {plain_best} us")?;
    assert!(rt; hostile_best <= plain_best.saturating_mul(2).saturating_add(200_000));
    Ok(())
}

/// The names are hostile: without a key they take many times as long.
#[test]
fn hostile_names_are_hostile(rt: HostRuntime) -> Result<(), Fail> {
    let hostile = colliding_names(rt.alloc(), 20_000)?;
    let plain = plain_names(rt.alloc(), 20_000)?;
    let mut plain_best = u128::MAX;
    for _ in 0..TRIES {
        plain_best = plain_best.min(unkeyed_micros(&rt, rt.alloc(), plain.as_slice())?);
    }
    let hostile = unkeyed_micros(&rt, rt.alloc(), hostile.as_slice())?;
    println!(rt; "unkeyed: hostile {hostile} us, plain {plain_best} us")?;
    assert!(rt; plain_best.saturating_mul(4) < hostile);
    Ok(())
}
