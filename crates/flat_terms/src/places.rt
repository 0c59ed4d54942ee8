//! Attributes as the expansions name them.
ghost use Rattle.std.specs.Prelude.{◌≡◌, ℕ, Some, option_map};
ghost use Rattle.lido_base.specs.declared.ids.StrId.{StrId as Id};
ghost use Rattle.rule_tables.specs.Slots.{Slot as Named};
ghost use Rattle.rule_tables.specs.ForcedOf.{IsAttributeAt, IsChainAt};
ghost use Rattle.rule_tables.specs.ExtraOf.{IsSlotAs, IsSlotOf};
ghost use Rattle.flat_slots.specs.declared.slot.Slot.TheVariants as slot;
ghost use Rattle.flat_slots.specs.Named.{slot_of};
ghost use Rattle.flat_terms.specs.Scene.{Scene, occ as occ_at};
ghost use Rattle.flat_terms.specs.Sites.{IsSiteOf};

use crate::site::Site;
use flat_grammar::{Occ, symbol_at};
use flat_slots::Slot;
use lido_base::{AttrId, StrId, SymId};
use rule_tables::{Slot as Added, SlotAt, Tables};

/// The name of a symbol's written attribute, by its number in the symbol's row.
fn attribute_name(tables: &Tables, symbol: SymId, id: AttrId) -> Option<StrId>
    ensures { (a : ℕ) → IsAttributeAt tables.now symbol.0 id a → option_map (λ (x : Id). x.0) result ≡ Some a }
{
    match tables.symbols.as_slice().get(symbol.0 as usize) {
        None => None,
        Some(row) => match row.attrs.as_slice().get(id.0 as usize) {
            None => None,
            Some(attr) => Some(attr.name),
        },
    }
}

/// The name of the chain that is declared at this place.
fn chain_name(tables: &Tables, place: u32) -> Option<StrId>
    ensures { (c : ℕ) → IsChainAt tables.now place c → option_map (λ (x : Id). x.0) result ≡ Some c }
{
    match tables.spec.chains.as_slice().get(place as usize) {
        None => None,
        Some(chain) => Some(chain.name.id),
    }
}

/// The written attribute of that name.
fn written(name: Option<StrId>) -> Option<Slot>
    ensures { result ≡ option_map slot.Written name }
{
    match name {
        None => None,
        Some(name) => Some(Slot::Written(name)),
    }
}

/// What the chain of that name has in front.
fn front(chain: Option<StrId>) -> Option<Slot>
    ensures { result ≡ option_map slot.Front chain }
{
    match chain {
        None => None,
        Some(chain) => Some(Slot::Front(chain)),
    }
}

/// What the chain of that name has behind.
fn behind(chain: Option<StrId>) -> Option<Slot>
    ensures { result ≡ option_map slot.Behind chain }
{
    match chain {
        None => None,
        Some(chain) => Some(Slot::Behind(chain)),
    }
}

/// The symbol's attribute.
fn slot(tables: &Tables, symbol: SymId, slot: Added) -> Option<Slot>
    ensures { (s : Named) → IsSlotAs tables.now symbol.0 slot s → option_map slot_of result ≡ Some s }
{
    match slot {
        Added::Written(id) => written(attribute_name(tables, symbol, id)),
        Added::Inc(set) => Some(Slot::Inc(set)),
        Added::Con(number) => Some(Slot::Con(number)),
        Added::Front(place) => front(chain_name(tables, place)),
        Added::Behind(place) => behind(chain_name(tables, place)),
    }
}

/// The symbol's attribute at an occurrence, if there are such ones.
fn slot_there(site: &Site, tables: &Tables, at: SlotAt) -> Option<Slot>
    ensures { (scene : Scene) → IsSiteOf scene site.now → (o : ℕ × Named) → IsSlotOf tables.now scene.plain at o → option_map slot_of result ≡ Some o.1 }
{
    match symbol_at(site.plain, at.occ) {
        None => None,
        Some(symbol) => slot(tables, symbol, at.slot),
    }
}

/// The attribute of an occurrence that an expansion names. It takes constant time.
pub fn added_occ(site: &Site, tables: &Tables, at: SlotAt) -> Occ
    ensures { (scene : Scene) → IsSiteOf scene site.now → (o : ℕ × Named) → IsSlotOf tables.now scene.plain at o → result ≡ occ_at scene o.0 o.1 }
{
    match slot_there(site, tables, at) {
        None => Occ {
            occ: at.occ,
            attr: AttrId(0),
        },
        Some(slot) => site.occ(at.occ, slot),
    }
}
