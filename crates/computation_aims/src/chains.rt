//! The chains of a specification.
ghost use Rattle.std.specs.Prelude.{IfOk};
ghost use Rattle.computation_aims.specs.Aims.{AreChains};

use lido_base::Memory;
use lido_symbols::Names;
use lido_syntax::Spec;
use std::alloc::Global;

/// The names of the chains that are declared, each once.
pub fn chain_names(alloc: Global, spec: &Spec) -> Result<Names, Memory>
    ensures { IfOk result (AreChains spec.now) }
{
    let mut names = Names::new(alloc);
    for chain in spec.chains.as_slice() {
        names.add(chain.name.id)?;
    }
    Ok(names)
}
