use crate::rows::{Rows, before_and_after};
use crate::single::{Single, there_and_back};
use boundary_table::{Boundary, Taken};
use lido_base::{BadKind, Desc, Origin, StrId, Value};
use std::test::Fail;

#[test]
fn each_kind_of_value_goes_through(rt: HostRuntime) -> Result<(), Fail> {
    let built = Desc {
        room: u16::MAX,
        node: u32::MAX,
        len: u32::MAX,
    };
    let first = Origin {
        node: 0,
        comp: 0,
        kind: BadKind::Overflow,
    };
    let middle = Origin {
        node: 1,
        comp: 256,
        kind: BadKind::DivideByZero,
    };
    let last = Origin {
        node: u32::MAX,
        comp: u16::MAX,
        kind: BadKind::TextTooLong,
    };
    for value in [
        Value::Int(i64::MIN),
        Value::Int(-1),
        Value::Int(0),
        Value::Int(i64::MAX),
        Value::Bool(false),
        Value::Bool(true),
        Value::Str(StrId(0)),
        Value::Str(StrId(u32::MAX)),
        Value::Text(lido_base::EMPTY),
        Value::Text(built),
        Value::Void,
        Value::Bad(first),
        Value::Bad(middle),
        Value::Bad(last),
    ] {
        assert!(rt; there_and_back(rt.alloc(), value) == Some(value));
    }
    Ok(())
}

#[test]
fn numbers_are_drawn_in_order(rt: HostRuntime) -> Result<(), Fail> {
    let of = Single { value: Value::Void };
    let (boundary, mut desks) = Boundary::new(rt.alloc(), &of, 2)?;
    let mut one = desks.pop().ok_or("a desk")?;
    let mut two = desks.pop().ok_or("a desk")?;
    assert!(rt;
        boundary.number(&mut one, 1)
            == Err(Taken {
                wanted: 1,
                found: 0
            })
    );
    assert!(rt; boundary.number(&mut two, 0) == Ok(()));
    assert!(rt; boundary.get(&mut two, 0).is_err());
    boundary.put(&mut two, 0, Value::Void);
    boundary.meet(&mut one, two);
    assert!(rt; boundary.get(&mut one, 0) == Ok(Value::Void));
    Ok(())
}

#[test]
fn four_threads_see_nothing_but_the_contents(rt: HostRuntime) -> Result<(), Fail> {
    let rows = Rows { count: 10_000 };
    let (boundary, mut desks) = Boundary::new(rt.alloc(), &rows, 5)?;
    let seen = before_and_after(&rt, &boundary, rows, &mut desks).ok_or("five desks")?;
    assert_eq!(rt; seen.before, 0);
    assert_eq!(rt; seen.after, 10_000);
    assert!(rt; seen.right);
    Ok(())
}
