//! What computations give values to.
ghost use Rattle.std.specs.Prelude.{◌≡◌};
ghost use Rattle.computation_aims.specs.Aims.{aim_in_symbol, aim_at, aim_in_rule, number_of};
ghost use Rattle.lido_symbols.specs.Occurrences.{IsProductionOf};
ghost use Rattle.lido_syntax.specs.declared.spec.RuleItem.{RuleItem as Rule};

use lido_base::StrId;
use lido_symbols::{Names, Production};
use lido_syntax::{Name, Place, Target};

/// How a computation gives a value to an attribute or a chain.
#[derive(Clone, Copy)]
pub enum Way {
    /// To a synthesized attribute of its symbol, from below.
    Synthesized,
    /// To an inherited attribute of its symbol, from above.
    Inherited,
    /// To the start of a chain.
    Start,
    /// To what is behind a node in a chain.
    Behind,
}

impl Way {
    /// Which of the four it is, from 0.
    pub fn number(self) -> u8
        ensures { result ≡ number_of self }
    {
        match self {
            Way::Synthesized => 0,
            Way::Inherited => 1,
            Way::Start => 2,
            Way::Behind => 3,
        }
    }
}

/// What a computation gives a value to, seen from the symbol at which it stands.
#[derive(Clone, Copy)]
pub struct Aim {
    pub way: Way,
    /// The attribute or the chain.
    pub name: StrId,
}

/// What a computation with this target in a symbol's body gives a value to.
pub fn symbol_aim(target: &Target) -> Option<Aim>
    ensures { result ≡ aim_in_symbol target.now }
{
    let (way, name) = match target {
        Target::Attr(Place::Synt, name) => (Way::Synthesized, name),
        Target::Attr(Place::Inh, name) => (Way::Inherited, name),
        Target::Attr(Place::This, name) => (Way::Behind, name),
        Target::Start(name) => (Way::Start, name),
        _ => return None,
    };
    Some(Aim { way, name: name.id })
}

/// What a computation of a rule whose target is this attribute or chain at an occurrence gives a value to, and where.
fn aim_at_occurrence(is_chain: bool, occurrence: Option<usize>, name: Name) -> Option<(usize, Aim)>
    ensures { result ≡ aim_at is_chain occurrence name }
{
    let occ = occurrence?;
    let way = if occ > 0 {
        Way::Inherited
    } else if is_chain {
        Way::Behind
    } else {
        Way::Synthesized
    };
    Some((occ, Aim { way, name: name.id }))
}

/// What a computation with this target in a rule's body gives a value to, and at which occurrence. The output and a message
/// are none of these.
pub fn rule_aim(chains: &Names, production: &Production, target: &Target) -> Option<(usize, Aim)>
    ensures { (r : Rule) → IsProductionOf r production.now → result ≡ aim_in_rule chains.now r target.now }
{
    match target {
        Target::Attr(Place::Named(symbol, index), name) => aim_at_occurrence(
            chains.has(name.id),
            production.occurrence(*symbol, *index),
            *name,
        ),
        Target::Start(name) => Some((
            0,
            Aim {
                way: Way::Start,
                name: name.id,
            },
        )),
        _ => None,
    }
}
