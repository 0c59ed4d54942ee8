//! The symbols of the flat grammar of a specification.
ghost use Rattle.std.specs.Prelude.{◌≡◌, ◌⊎◌, ◌≤◌, length, IfOk, IfErr, All};
ghost use Rattle.lido_base.specs.Texts.{Gains};
ghost use Rattle.lido_syntax.specs.declared.fault.SpecFault.{SpecFault as Fault};
ghost use Rattle.lido_syntax.specs.declared.fault.SpecFault.TheVariants as fault;
ghost use Rattle.flat_grammar.specs.declared.flat.FlatSymbol.{FlatSymbol as OneSymbol};
ghost use Rattle.rule_tables.specs.RuleNames.{HasIds};
ghost use Rattle.flat_slots.specs.Slots.{slots_in};
ghost use Rattle.flat_symbols.specs.Symbols.{IsTooManyAttributes, AreSymbolsOf};

use crate::attributes::Added;
use crate::limits::are_few;
use crate::symbols::symbols_of;
use flat_grammar::FlatSymbol;
use flat_slots::SlotTable;
use lido_base::{Many, Strings};
use lido_syntax::SpecFault;
use rule_tables::{Extra, Forced};
use std::alloc::Global;

/// The symbols and cells of the flat grammar of a specification, whose names are ids of `strings`, to which the names of the added
/// attributes are added. (`including` and `constituents` are what these expansions add, `table` has the attributes of all symbols.)
/// An `Err` is TooMany Attributes, exactly where a symbol has more than 256, or it is want of memory.
pub fn flat_symbols(
    alloc: Global,
    forced: &Forced,
    including: &Extra,
    constituents: &Extra,
    table: &SlotTable,
    strings: &mut Strings,
) -> Result<Vec<FlatSymbol>, SpecFault>
    requires { HasIds strings.old forced.now.tables.spec }
    ensures symbols { IfOk result (λ symbols. AreSymbolsOf forced.now including.now constituents.now table.now strings.new symbols.items) }
    ensures few { IfOk result (λ symbols. All (λ (x : OneSymbol). length x.attrs ≤ 256) symbols.items) }
    ensures none { IfOk result (λ _. (f : Fault) → IsTooManyAttributes (slots_in table.now) f → ⊥) }
    ensures err { IfErr result (λ f. (f ≡ fault.Memory) ⊎ IsTooManyAttributes (slots_in table.now) f) }
    ensures kept { Gains strings.old strings.new }
{
    if !are_few(table) {
        return Err(SpecFault::TooMany {
            what: Many::Attributes,
        });
    }
    let added = Added::of(alloc, &forced.tables, including, constituents)?;
    let rows = forced.tables.symbols.as_slice();
    Ok(symbols_of(alloc, strings, &added, rows, table)?)
}
