//! The operations that functions' names stand for.
ghost use Rattle.std.specs.Prelude.{◌≡◌, ℕ, None, Some, nat_eq, if◌then◌else◌, OnOk, IfOk};
ghost use Rattle.flat_copies.specs.Ops.{op_in, op_named};

use lido_base::{Memory, Op, StrId};
use std::alloc::Global;
use std::collections::HashMap;

/// The operations of functions, by the ids of their names.
#[derive(Drop)]
pub struct Ops {
    pub ops: HashMap<u32, Op>,
}

impl Ops {
    /// No operations. It takes no memory.
    #[tactic(auto, unfolding(crate::specs::Ops::op_in))]
    fn new(alloc: Global) -> Ops
        ensures { (id : ℕ) → op_in result id ≡ None }
    {
        Ops {
            ops: HashMap::new(alloc),
        }
    }

    /// Gives a name its operation.
    #[tactic(auto, unfolding(crate::specs::Ops::op_in))]
    fn set(&mut self, name: StrId, op: Op) -> Result<(), Memory>
        ensures { OnOk result ((id : ℕ) → op_in self.new id ≡ (if nat_eq name.0 id then Some op else op_in self.old id)) }
    {
        self.ops.insert(name.0, op)?;
        Ok(())
    }

    /// The operations of these names. Of a name that stands there twice it is the last one.
    pub fn of(alloc: Global, named: &[(StrId, Op)]) -> Result<Ops, Memory>
        ensures { IfOk result (λ ops. (id : ℕ) → op_in ops id ≡ op_named named.now id) }
    {
        let mut ops = Ops::new(alloc);
        for (name, op) in named {
            ops.set(*name, *op)?;
        }
        Ok(ops)
    }

    /// The operation of the name, if it has one.
    #[tactic(auto, unfolding(crate::specs::Ops::op_in))]
    pub fn get(&self, name: StrId) -> Option<Op>
        ensures { result ≡ op_in self.now name.0 }
    {
        self.ops.get(&name.0).copied()
    }
}
