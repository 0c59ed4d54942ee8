//! Attributes of the flat grammar.
ghost use Rattle.std.specs.Cmp.Rules.{comparing, hashing};
ghost use Rattle.std.proofs.Common.{rules};
ghost use Rattle.flat_slots.specs.Inputs.{hash_of};

use lido_base::StrId;
use std::hash::{Hash, Hasher};

/// What an attribute of the flat grammar is. A written attribute and a chain go by their names.
#[derive(Clone, Copy, Debug, PartialEq, Eq)]
pub enum Slot {
    /// A written attribute.
    Written(StrId),
    /// INCLUDING of a set of pairs, by the set's number.
    Inc(u32),
    /// A CONSTITUENTS, by its number in the text.
    Con(u32),
    /// What a chain has in front of a node.
    Front(StrId),
    /// What a chain has behind a node.
    Behind(StrId),
    /// A message of a rule, which are counted from 1.
    Msg(usize),
    /// The output.
    Out,
}

impl Hash for Slot {
    ghost hash_input = { hash_of };

    ghost respects_eq = { Prim.search (hashing, rules) };

    fn hash<H: Hasher>(&self, state: &mut H) {
        match *self {
            Slot::Written(name) => {
                state.write_u8(0);
                name.0.hash(state);
            }
            Slot::Inc(set) => {
                state.write_u8(1);
                set.hash(state);
            }
            Slot::Con(number) => {
                state.write_u8(2);
                number.hash(state);
            }
            Slot::Front(chain) => {
                state.write_u8(3);
                chain.0.hash(state);
            }
            Slot::Behind(chain) => {
                state.write_u8(4);
                chain.0.hash(state);
            }
            Slot::Msg(number) => {
                state.write_u8(5);
                number.hash(state);
            }
            Slot::Out => state.write_u8(6),
        }
    }
}
