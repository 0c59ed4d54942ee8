//! The types of a syntax tree can be built, nested in one another, and printed.
use lido_base::{Boxed, Gate, List, OpenGate, StrId, ValueType};
use lido_syntax::{Cons, Expr, Name, Pair, SpecFault, With};
use std::alloc::{AllocError, Global};

fn name(id: u32) -> Name {
    Name {
        at: 7,
        id: StrId(id),
    }
}

/// `CONSTITUENTS Item.n WITH (int, ADD, IDENTICAL, ZERO)`.
fn sum(alloc: Global) -> Result<Expr, AllocError> {
    let mut pairs = List::new(alloc);
    pairs.push(Pair {
        sym: name(21),
        attr: name(30),
    })?;
    let cons = Cons {
        at: 3,
        number: 1,
        pairs,
        shield: List::new(alloc),
        with: Some(With {
            ty: ValueType::Int,
            comb: name(0),
            single: name(6),
            null: name(7),
        }),
    };
    Ok(Expr::Constituents(Boxed::new(alloc, cons)?))
}

#[test]
fn a_call_holds_a_remote_access(rt: HostRuntime) -> Result<(), AllocError> {
    let mut args = List::new(rt.alloc());
    args.push(sum(rt.alloc())?)?;
    args.push(Expr::Int(9, 1))?;
    let call = Expr::Call(name(0), args);
    match &call {
        Expr::Call(function, args) => {
            assert!(rt; *function == name(0));
            assert_eq!(rt; args.len(), 2);
            match &args.as_slice()[0] {
                Expr::Constituents(cons) => assert_eq!(rt; cons.get().pairs.len(), 1),
                _ => assert!(rt; false),
            }
        }
        _ => assert!(rt; false),
    }
    Ok(())
}

#[test]
fn a_fault_is_printed_with_its_place(rt: HostRuntime) -> Result<(), AllocError> {
    let text = format!(in rt.alloc(); "{:?}", SpecFault::BadIndex { at: 12 })?;
    assert_eq!(rt; text.as_str(), "BadIndex { at: 12 }");
    Ok(())
}

#[test]
fn what_is_held_is_given_back(rt: HostRuntime) -> Result<(), AllocError> {
    let boxed = Boxed::new(rt.alloc(), 7u32)?;
    assert_eq!(rt; boxed.into_inner(), 7);
    let items = List::from_vec(vec![in rt.alloc(); 5u32, 6]?).into_vec();
    assert!(rt; items.as_slice() == [5, 6].as_slice());
    OpenGate.at(3);
    Ok(())
}
