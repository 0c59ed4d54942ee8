//! The functions that names call.
ghost use Rattle.std.specs.Prelude.{◌≡◌, ◌<◌, ◌^◌, ℕ, None, Some, nat_eq, length, option_map, if◌then◌else◌, IfOk, OnOk};
ghost use Rattle.std.specs.Option.{option_or};
ghost use Rattle.lido_base.specs.Texts.{IsDistinctTexts};
ghost use Rattle.lido_syntax.specs.Functions.{text_of, operation_of, pattern_names};
ghost use Rattle.expr_types.specs.Callees.{function_in};
ghost use Rattle.expr_types.specs.Functions.{number_of, first_pattern, environment_of, AreNamedIn, AreFunctions};
ghost use Rattle.expr_types.specs.Named.{named_in};
ghost use Rattle.expr_types.specs.Typing.{function_of};

use crate::callee::Callee;
use crate::names::operation_named;
use crate::rows::Row;
use crate::table::{choices, pattern_rows, rows_of};
use lido_base::{Memory, Op, Pattern, StrId, Strings};
use lido_syntax::Name;
use std::alloc::Global;
use std::collections::HashMap;

/// Patterns by the ids of their names.
#[derive(Drop)]
pub(crate) struct PatternNames {
    numbers: HashMap<u32, u32>,
}

impl PatternNames {
    /// No names. It takes no memory.
    #[tactic(auto, unfolding(crate::specs::Functions::number_of))]
    fn new(alloc: Global) -> PatternNames
        ensures { (id : ℕ) → number_of result id ≡ None }
    {
        PatternNames {
            numbers: HashMap::new(alloc),
        }
    }

    /// The number of the first pattern that has the name.
    #[tactic(auto, unfolding(crate::specs::Functions::number_of))]
    fn find(&self, name: StrId) -> Option<u32>
        ensures { result ≡ number_of self.now name.0 }
    {
        self.numbers.get(&name.0).copied()
    }

    /// Notes a pattern's name with the pattern's number, unless an earlier pattern has the name.
    #[tactic(auto, unfolding(crate::specs::Functions::number_of))]
    fn note(&mut self, name: StrId, number: u32) -> Result<(), Memory>
        ensures { OnOk result ((id : ℕ) → number_of self.new id
            ≡ option_or (number_of self.old id) (if nat_eq name.0 id then Some number else None)) }
    {
        if self.find(name).is_none() {
            self.numbers.insert(name.0, number)?;
        }
        Ok(())
    }

    /// The names of these patterns.
    fn of(alloc: Global, patterns: &[Pattern]) -> Result<PatternNames, Memory>
        requires { length patterns.now < 2 ^ 32 }
        ensures { IfOk result (λ names. (id : ℕ) → number_of names id ≡ first_pattern id 0 patterns.now) }
    {
        let mut names = PatternNames::new(alloc);
        for (k, pattern) in patterns.iter().enumerate() {
            names.note(pattern.name, k as u32)?;
        }
        Ok(names)
    }
}

/// The functions of LIDO, of PTG and of patterns, by name.
#[derive(Drop)]
pub struct Functions<'a> {
    pub strings: &'a Strings,
    pub patterns: &'a [Pattern],
    rows: Vec<Row<'a>>,
    names: PatternNames,
}

impl<'a> Functions<'a> {
    /// The functions, where these are the patterns and these the texts of all names. The time is linear in the patterns.
    pub fn of(
        alloc: Global,
        strings: &'a Strings,
        patterns: &'a [Pattern],
    ) -> Result<Functions<'a>, Memory>
        requires { AreNamedIn strings.now patterns.now }
        ensures texts { IfOk result (λ functions. functions.strings.now ≡ strings.now) }
        ensures patterns { IfOk result (λ functions. functions.patterns.now ≡ patterns.now) }
        ensures functions { IfOk result AreFunctions }
    {
        let rows = pattern_rows(alloc, patterns)?;
        let names = PatternNames::of(alloc, patterns)?;
        Ok(Functions {
            strings,
            patterns,
            rows,
            names,
        })
    }

    /// The text of an id, and the empty one where there is none.
    pub fn text(&self, id: StrId) -> &[u8]
        ensures text { result.now ≡ text_of (environment_of self.now) id.0 }
        ensures distinct { IsDistinctTexts self.now.strings.now }
    {
        if (id.0 as usize) < self.strings.len() {
            self.strings.bytes(id)
        } else {
            &[]
        }
    }

    /// The pattern's function that has this text for its name.
    fn pattern_operation(&self, text: &[u8]) -> Option<Op>
        requires functions { AreFunctions self.now }
        requires distinct { IsDistinctTexts self.now.strings.now }
        ensures { result ≡ named_in (pattern_names (environment_of self.now) 0 self.now.patterns.now) text.now }
    {
        let rest = text.strip_prefix(b"PTG".as_slice())?;
        let id = self.strings.find(rest)?;
        let number = self.names.find(id)?;
        Some(Op::Pattern(number))
    }

    /// The operation that has this text for its name: that of LIDO or PTG, or a pattern's function.
    pub fn operation(&self, text: &[u8]) -> Option<Op>
        requires functions { AreFunctions self.now }
        requires distinct { IsDistinctTexts self.now.strings.now }
        ensures { result ≡ operation_of (environment_of self.now) text.now }
    {
        match operation_named(text) {
            Some(op) => Some(op),
            None => self.pattern_operation(text),
        }
    }

    /// What the name calls.
    pub(crate) fn callee(&self, name: Name) -> Option<Callee<'_>>
        requires { AreFunctions self.now }
        ensures { option_map function_in result ≡ function_of (environment_of self.now) name }
    {
        let text = self.text(name.id);
        if text == b"IF".as_slice() {
            return Some(Callee::Rows(choices()));
        }
        if text == b"ORDER".as_slice() {
            return Some(Callee::Order);
        }
        let op = self.operation(text)?;
        Some(Callee::Rows(rows_of(&self.rows, op)))
    }
}
