//! All clashes but those of an attribute with two kinds or two types.
ghost use Rattle.std.specs.Prelude.{◌≡◌, IfOk};
ghost use Rattle.kind_clashes.specs.Least.{IsFirst};
ghost use Rattle.kind_clashes.specs.Plain.{IsNameClash, IsPlainClash};
ghost use Rattle.kind_clashes.specs.Sets.{AreNameSets};

use crate::bodies::{clash_in_rules, clash_in_symbols};
use crate::chains::chain_again;
use crate::items::terminal_of_items;
use crate::least::earlier;
use crate::names::Names;
use crate::sets::NameSets;
use crate::symbols::{class_in_productions, inherits_no_class, terminal_in_lists};
use crate::types::faulty_term;
use lido_base::{Memory, Strings};
use lido_syntax::Spec;
use std::alloc::Global;

fn name_clash(alloc: Global, spec: &Spec, sets: &NameSets) -> Result<Option<u32>, Memory>
    requires { AreNameSets spec.now sets.now }
    ensures { IfOk result (IsFirst (IsNameClash spec.now sets.now)) }
{
    let of_terms = faulty_term(alloc, spec, sets)?;
    let declared = earlier(of_terms, chain_again(alloc, spec)?);
    let rules = spec.rules.as_slice();
    let in_rules = earlier(
        class_in_productions(sets, rules),
        terminal_in_lists(sets, rules),
    );
    let in_items = earlier(inherits_no_class(sets, spec.symbols.as_slice()), declared);
    Ok(earlier(in_rules, in_items))
}

/// The least place of a clash that isn't one of an attribute with two kinds or two types. (`bearers` are the names that have an
/// attribute.)
pub fn plain_clash(
    alloc: Global,
    spec: &Spec,
    strings: &Strings,
    sets: &NameSets,
    bearers: &Names,
) -> Result<Option<u32>, Memory>
    requires { AreNameSets spec.now sets.now }
    ensures { IfOk result (IsFirst (IsPlainClash spec.now sets.now bearers.now strings.now)) }
{
    let of_names = name_clash(alloc, spec, sets)?;
    let items = spec.symbols.as_slice();
    let of_terminals = terminal_of_items(alloc, sets, bearers, items)?;
    let in_rules = clash_in_rules(alloc, sets, strings, spec.rules.as_slice())?;
    let in_comps = earlier(in_rules, clash_in_symbols(alloc, sets, items)?);
    Ok(earlier(of_names, earlier(of_terminals, in_comps)))
}
