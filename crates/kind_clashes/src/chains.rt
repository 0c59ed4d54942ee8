//! Chains that are declared again.
ghost use Rattle.std.specs.Prelude.{◌≡◌, ◌++◌, map, flat_map, OnOk, IfOk};
ghost use Rattle.lido_syntax.specs.declared.spec.Decl.{Decl as Declared};
ghost use Rattle.lido_syntax.specs.declared.spec.SymbolItem.{SymbolItem as Item};
ghost use Rattle.lido_syntax.specs.declared.spec.Typed1.{Typed1 as Typed};
ghost use Rattle.lido_symbols.specs.Uses.{declared_names};
ghost use Rattle.kind_clashes.specs.Least.{IsFirst};
ghost use Rattle.kind_clashes.specs.KindClash.{IsChainAgain};

use crate::firsts::{firsts_of, least_behind};
use crate::least::earlier;
use lido_base::Memory;
use lido_syntax::{Decl, Name, Spec, SymbolItem, Typed1};
use std::alloc::Global;

fn chain_names(alloc: Global, chains: &[Typed1]) -> Result<Vec<Name>, Memory>
    ensures { IfOk result (λ names. names.items ≡ map (λ (x : Typed). x.name) chains.now) }
{
    let mut names = Vec::new(alloc);
    for chain in chains {
        names.push(chain.name)?;
    }
    Ok(names)
}

/// Adds the names of the declarations.
fn push_decls(names: &mut Vec<Name>, decls: &[Decl]) -> Result<(), Memory>
    ensures { OnOk result (names.new.items ≡ names.old.items ++ map (λ (d : Declared). d.attr) decls.now) }
{
    for decl in decls {
        names.push(decl.attr)?;
    }
    Ok(())
}

/// Adds the names that SYMBOL items declare.
fn push_items(names: &mut Vec<Name>, items: &[SymbolItem]) -> Result<(), Memory>
    ensures { OnOk result (names.new.items ≡ names.old.items
        ++ flat_map (λ (item : Item). map (λ (d : Declared). d.attr) item.decls) items.now) }
{
    for item in items {
        push_decls(names, item.decls.as_slice())?;
    }
    Ok(())
}

/// The names of attributes that ATTR and SYMBOL items declare.
fn names_of_declarations(alloc: Global, spec: &Spec) -> Result<Vec<Name>, Memory>
    ensures { IfOk result (λ names. names.items ≡ declared_names spec.now) }
{
    let mut names = Vec::new(alloc);
    push_decls(&mut names, spec.attrs.as_slice())?;
    push_items(&mut names, spec.symbols.as_slice())?;
    Ok(names)
}

/// The least place of a chain's declaration behind another declaration of its name, or of an attribute's behind a chain's.
pub fn chain_again(alloc: Global, spec: &Spec) -> Result<Option<u32>, Memory>
    ensures { IfOk result (IsFirst (IsChainAgain spec.now)) }
{
    let chains = chain_names(alloc, spec.chains.as_slice())?;
    let declared = names_of_declarations(alloc, spec)?;
    let of_chains = firsts_of(alloc, &chains)?;
    let of_declared = firsts_of(alloc, &declared)?;
    let behind_chains = earlier(
        least_behind(&of_chains, &chains),
        least_behind(&of_chains, &declared),
    );
    Ok(earlier(behind_chains, least_behind(&of_declared, &chains)))
}
