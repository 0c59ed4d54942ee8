//! Who needs the chains.
ghost use Rattle.std.specs.Prelude.{IfOk};
ghost use Rattle.lido_base.specs.Environment.{Environment};
ghost use Rattle.rule_tables.specs.ForcedOf.{AreForcedOf};
ghost use Rattle.chain_expand.specs.Needed.{IsNeedOf, AreNeedsOf};

use lido_base::{List, Memory, StrId};
use need_graphs::{chain_needs, chain_users};
use rule_tables::Forced;
use std::alloc::Global;

/// For each symbol and cell whether it needs the chain.
fn needs_of(alloc: Global, forced: &Forced, chain: StrId) -> Result<List<bool>, Memory>
    requires { (env : Environment) × AreForcedOf env forced.now }
    ensures { IfOk result (IsNeedOf forced.now chain.0) }
{
    let users = chain_users(alloc, forced, chain)?;
    let needs = chain_needs(alloc, forced, chain, &users)?;
    Ok(List::from_vec(needs))
}

/// For each chain, in the order in which they are declared, who needs it. It takes time linear in the text, the rules and the
/// computations in force for each chain.
pub fn all_needs(alloc: Global, forced: &Forced) -> Result<Vec<List<bool>>, Memory>
    requires { (env : Environment) × AreForcedOf env forced.now }
    ensures { IfOk result (λ needs. AreNeedsOf forced.now forced.now.tables.spec.chains needs.items) }
{
    let chains = forced.tables.spec.chains.as_slice();
    let mut needs = Vec::new(alloc);
    for chain in chains {
        needs.push(needs_of(alloc, forced, chain.name.id)?)?;
    }
    Ok(needs)
}
