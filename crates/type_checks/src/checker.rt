//! Types of one computation in force.
ghost use Rattle.std.specs.Prelude.{◌≡◌, ◌⊎◌, ◌<◌, ℕ, Some, length, slice_get, IfOk, IfErr};
ghost use Rattle.lido_base.specs.Environment.{Environment};
ghost use Rattle.lido_base.specs.Faults.{HasNone};
ghost use Rattle.lido_syntax.specs.declared.fault.SpecFault.TheVariants as fault;
ghost use Rattle.lido_symbols.specs.FromText.{IsFromText};
ghost use Rattle.table_faults.specs.Faults.{table_faults};
ghost use Rattle.rule_tables.specs.TablesOf.{AreTablesOf};
ghost use Rattle.expr_types.specs.Functions.{AreNamedIn};
ghost use Rattle.lido_syntax.specs.declared.spec.RuleItem.{RuleItem as Rule};
ghost use Rattle.rule_tables.specs.PlainRules.{PlainRule, symbol_at as place_of};
ghost use Rattle.rule_tables.specs.Forced.{Force as Forced};
ghost use Rattle.expr_types.specs.Scopes.{holder_of as holder_in};
ghost use Rattle.type_checks.specs.Checker.{IsChecker, texts_of};
ghost use Rattle.type_checks.specs.Entries.{HasSymbolsOf, body_of, IsEntryAt, IsTypedEntry, HasEntryFault};

use crate::written::{list_rules, plain_rule, written_rule};
use expr_types::{Functions, Holder, Scope, check_computation, wanted_by};
use flat_grammar::FlatRule;
use leaf_types::LeafTypes;
use lido_base::{Memory, Patterns, Strings};
use lido_syntax::SpecFault;
use numbered_computations::{Computations, Holder as Body};
use rule_tables::{Force, SymbolRow, Tables};
use std::alloc::Global;

/// What the computations in force of a specification are checked by.
#[derive(Drop)]
pub struct Checker<'a> {
    pub tables: &'a Tables,
    pub functions: Functions<'a>,
    pub types: LeafTypes<'a>,
    pub computations: Computations<'a>,
    /// The numbers of the rules that are lists.
    pub lists: Vec<usize>,
}

/// Whose body it is.
fn holder_of(body: Body) -> Holder
    ensures { holder_in result ≡ body_of body }
{
    match body {
        Body::Rule => Holder::Rule,
        Body::Symbol => Holder::Symbol,
    }
}

/// The number of the symbol at an occurrence of a plain rule.
fn symbol_at(plain: &FlatRule, occ: u16) -> usize
    requires { (p : PlainRule) × (x : ℕ) × HasSymbolsOf p plain.now × (place_of p occ ≡ Some x) }
    ensures { (p : PlainRule) (x : ℕ) → HasSymbolsOf p plain.now → place_of p occ ≡ Some x → result ≡ x }
{
    if occ == 0 {
        return plain.left.0 as usize;
    }
    plain.right.as_slice()[occ as usize - 1].0 as usize
}

/// The row of a symbol, by number.
fn symbol_row(tables: &Tables, x: usize) -> &SymbolRow
    requires { x < length tables.now.symbols }
    ensures { slice_get tables.now.symbols x ≡ Some result.now }
{
    &tables.symbols.as_slice()[x]
}

impl<'a> Checker<'a> {
    /// What is checked by, for the tables of a specification that was read from a text and has no fault of the tables. An `Err` is
    /// want of memory.
    pub(crate) fn of(
        alloc: Global,
        tables: &'a Tables,
        patterns: &'a Patterns,
        strings: &'a Strings,
    ) -> Result<Checker<'a>, Memory>
        requires tables { (env : Environment) × AreTablesOf env tables.now }
        requires text { IsFromText tables.now.spec }
        requires faults { (texts : Environment) → texts.texts ≡ strings.now → HasNone (table_faults tables.now.spec texts) }
        requires named { AreNamedIn strings.now patterns.now.list }
        ensures checker { IfOk result IsChecker }
        ensures of_tables { IfOk result (λ checker. checker.tables.now ≡ tables.now) }
        ensures texts { IfOk result (λ checker. texts_of checker ≡ record { texts = strings.now; patterns = patterns.now.list }) }
    {
        let functions = Functions::of(alloc, strings, patterns.list.as_slice())?;
        let types = LeafTypes::of(alloc, tables, strings)?;
        let computations = Computations::of(alloc, &tables.spec)?;
        let lists = list_rules(alloc, tables.spec.rules.as_slice())?;
        Ok(Checker {
            tables,
            functions,
            types,
            computations,
            lists,
        })
    }

    /// Whether the computation of an entry of plain rule `j` has a type that its goal takes, or its first fault. An `Err` may be
    /// want of memory too.
    pub(crate) fn check_entry(
        &self,
        alloc: Global,
        j: usize,
        entry: &Force,
    ) -> Result<(), SpecFault>
        requires checker { IsChecker self.now }
        requires there { (f : Forced) × (r : Rule) × (s : ℕ) × IsEntryAt self.now.tables.now j entry.now f r s }
        ensures ok { IfOk result (λ done. IsTypedEntry self.now.tables.now (texts_of self.now) j entry.now) }
        ensures err { IfErr result (λ e. (e ≡ fault.Memory) ⊎ HasEntryFault self.now.tables.now (texts_of self.now) j entry.now e) }
    {
        let rule = written_rule(self.tables, &self.lists, j);
        let x = symbol_at(plain_rule(self.tables, j), entry.occ);
        let row = symbol_row(self.tables, x);
        let Some(held) = self.computations.at(entry.number) else {
            unreachable!();
        };
        let scope = Scope {
            functions: &self.functions,
            types: &self.types,
            rule,
            own: row.name,
            holder: holder_of(held.holder),
        };
        let wanted = wanted_by(self.tables, x, entry.goal);
        check_computation(alloc, &scope, held.comp, wanted)
    }
}
