//! The fault of a chain that the root needs.
ghost use Rattle.std.specs.Prelude.{◌≡◌, ℕ, Some, map, slice_get, IfOk, IfSome, IfNone};
ghost use Rattle.lido_base.specs.Environment.{Environment};
ghost use Rattle.lido_syntax.specs.declared.spec.Typed1.{Typed1 as Typed};
ghost use Rattle.lido_syntax.specs.Production.{name_of};
ghost use Rattle.rule_tables.specs.ForcedOf.{AreForcedOf};
ghost use Rattle.chain_expand.specs.Needed.{HasNoPath, IsFaultOf, IsFirstFault, name_in};

use lido_base::{List, Memory, StrId};
use lido_syntax::SpecFault;
use need_graphs::{chain_path, chain_users};
use rule_tables::{Forced, SymbolRow};
use std::alloc::Global;

/// The name of the symbol or cell of that number.
fn name_at(rows: &[SymbolRow], x: usize) -> StrId
    ensures { result ≡ name_in rows.now x }
{
    match rows.get(x) {
        Some(row) => row.name,
        None => StrId(0),
    }
}

/// The names of the symbols and cells on a path.
fn names(alloc: Global, rows: &[SymbolRow], path: &[usize]) -> Result<List<StrId>, Memory>
    ensures { IfOk result (λ names. names ≡ map (name_in rows.now) path.now) }
{
    let mut names = Vec::new(alloc);
    for x in path {
        names.push(name_at(rows, *x))?;
    }
    Ok(List::from_vec(names))
}

/// The fault, if the root needs the chain.
fn chain_fault(alloc: Global, forced: &Forced, chain: StrId) -> Result<Option<SpecFault>, Memory>
    requires { (env : Environment) × AreForcedOf env forced.now }
    ensures some { IfOk result (λ found. IfSome found (IsFaultOf forced.now chain)) }
    ensures none { IfOk result (λ found. IfNone found (HasNoPath forced.now chain.0)) }
{
    let users = chain_users(alloc, forced, chain)?;
    match chain_path(alloc, forced, chain, &users)? {
        None => Ok(None),
        Some(path) => {
            let path = names(alloc, forced.tables.symbols.as_slice(), &path)?;
            Ok(Some(SpecFault::ChainNoStart { chain, path }))
        }
    }
}

/// The fault of the first chain that the root needs, in the order in which they are declared. It takes time linear in the text,
/// the rules and the computations in force for each chain.
pub fn first_fault(alloc: Global, forced: &Forced) -> Result<Option<SpecFault>, Memory>
    requires { (env : Environment) × AreForcedOf env forced.now }
    ensures some { IfOk result (λ found. IfSome found (IsFirstFault forced.now)) }
    ensures none { IfOk result (λ found. IfNone found ((i : ℕ) (chain : Typed) → slice_get forced.now.tables.spec.chains i ≡ Some chain
        → HasNoPath forced.now (name_of chain.name))) }
{
    for chain in forced.tables.spec.chains.as_slice() {
        if let Some(fault) = chain_fault(alloc, forced, chain.name.id)? {
            return Ok(Some(fault));
        }
    }
    Ok(None)
}
