//! A table with one key.
ghost use Rattle.lido_base.specs.declared.value.Value.{Value};
ghost use Rattle.lido_base.specs.Ranges.{IsInRange};

use boundary_table::Boundary;
use lido_base::{Contents, Value};
use std::alloc::Global;

/// One value, which region 0 stores.
#[derive(Clone, Copy)]
pub struct Single {
    pub value: Value,
}

impl Contents for Single {
    ghost use Rattle.std.specs.Prelude.{[], ◌∷◌};

    ghost contents = { λ s. s.value ∷ [] };

    ghost owners = { λ _. 0 ∷ [] };

    fn keys(&self) -> u32 {
        read_numbers(self.value);
        1
    }
}

/// A number that is read is known to be in the range of its type.
fn read_numbers(value: Value)
    ensures { IsInRange value }
{
    match value {
        Value::Int(_number) => {}
        Value::Str(text) => {
            let _text = text.0;
        }
        Value::Text(built) => {
            let _room = built.room;
            let _node = built.node;
            let _len = built.len;
        }
        Value::Bad(fault) => {
            let _node = fault.node;
            let _comp = fault.comp;
        }
        Value::Bool(_) | Value::Void => {}
    }
}

/// What a second desk gets after a first has put the value; None where memory ran out, a number was taken or nothing is there.
pub(crate) fn there_and_back(alloc: Global, value: Value) -> Option<Value> {
    let of = Single { value };
    let (boundary, mut desks) = Boundary::new(alloc, &of, 2).ok()?;
    let mut one = desks.pop()?;
    let mut other = desks.pop()?;
    boundary.number(&mut one, 0).ok()?;
    boundary.put(&mut one, 0, value);
    boundary.get(&mut other, 0).ok()
}
