//! The steps from an input to its text.
ghost use Rattle.std.specs.Prelude.{◌≡◌, ◌<◌, ◌≤◌, ℕ, List, [], string_bytes, length, IfErr};
ghost use Rattle.lido_base.specs.Inputs.{most};
ghost use Rattle.lido_base.specs.Phases.{Gives, OneOf};
ghost use Rattle.sum_trees.specs.Trees.{IsReadable};
ghost use Rattle.order_report.specs.declared.status.Status.{Status};
ghost use Rattle.order_report.specs.Lines.{IsNamed};
ghost use Rattle.lido_top.specs.Endings.{GivesAs, ending, no_memory};
ghost use Rattle.lido_top.specs.Verdict.{FirstPathOf, TextOf};
ghost use Rattle.lido_top.specs.Steps.{IsTopText, ValueOf, NumberOf};

use crate::job::{sum_rules, tree_part};
use crate::parts::{first_texts, patterns_of, sections_of, syntax_of, tokens_of};
use crate::sums::evaluate;
use lido_base::Strings;
use order_report::Status;
use std::alloc::{AllocError, Global};
use sum_trees::{FormFault, SumRule, read_sum_tree};

/// The decimal number of the first value.
fn top_text(alloc: Global, values: &[i64]) -> Result<String, FormFault>
    requires { 0 < length values.now }
    ensures { Gives string_bytes (OneOf (IsTopText values.now) FormFault.Outside) FormFault.Memory result }
{
    Ok(values[0].to_string(alloc)?)
}

/// The text of the sum at the top of the tree.
#[tactic(auto, unfolding(crate::specs::Steps::ValueOf))]
fn value_of(alloc: Global, tree_text: &[u8], rules: &[SumRule]) -> Result<String, FormFault>
    requires { IsReadable rules.now }
    ensures { Gives string_bytes (ValueOf rules.now tree_text.now) FormFault.Memory result }
{
    let nodes = match read_sum_tree(alloc, tree_text, rules) {
        Ok(nodes) => nodes,
        Err(e) => return Err(e),
    };
    let values = match evaluate(alloc, rules, nodes.as_slice()) {
        Ok(values) => values,
        Err(e) => return Err(e),
    };
    match top_text(alloc, &values) {
        Ok(text) => Ok(text),
        Err(e) => Err(e),
    }
}

/// The number that the input calls for, as text.
#[tactic(auto, unfolding(crate::specs::Steps::NumberOf))]
fn number_of(alloc: Global, bytes: &[u8]) -> Result<String, FormFault>
    ensures { Gives string_bytes (NumberOf bytes.now) FormFault.Memory result }
{
    let tree_text = match tree_part(bytes) {
        Ok(tree_text) => tree_text,
        Err(e) => return Err(e),
    };
    let rules = sum_rules(alloc)?;
    match value_of(alloc, tree_text, rules.as_slice()) {
        Ok(text) => Ok(text),
        Err(e) => Err(e),
    }
}

/// The text of an input that has the form of the first path.
fn first_path(alloc: Global, bytes: &[u8]) -> Result<String, Status>
    ensures gives { (texts : List (List ℕ)) → GivesAs string_bytes (ending texts) (FirstPathOf bytes.now) no_memory result }
    ensures named { (texts : List (List ℕ)) → IfErr result (IsNamed texts) }
{
    match number_of(alloc, bytes) {
        Ok(text) => Ok(text),
        Err(FormFault::Outside) => Err(Status::FirstPathOnly),
        Err(FormFault::Memory) => Err(Status::Memory),
    }
}

/// The text of the input, or the status of the first refusal that stands in it, whose names have their texts in the table. The table
/// begins without texts.
pub fn text_of(alloc: Global, bytes: &[u8], strings: &mut Strings) -> Result<String, Status>
    requires few { length bytes.now ≤ most }
    requires empty { strings.old ≡ [] }
    ensures gives { GivesAs string_bytes (ending strings.new) (TextOf bytes.now) no_memory result }
    ensures named { IfErr result (IsNamed strings.new) }
{
    let sections = match sections_of(bytes) {
        Ok(sections) => sections,
        Err(status) => return Err(status),
    };
    match first_texts(strings) {
        Ok(()) => {}
        Err(status) => return Err(status),
    }
    let tokens = match tokens_of(alloc, bytes, sections, strings) {
        Ok(tokens) => tokens,
        Err(status) => return Err(status),
    };
    let size = sections.spec.to - sections.spec.from;
    match syntax_of(alloc, &tokens, size, strings) {
        Ok(_) => {}
        Err(status) => return Err(status),
    }
    match patterns_of(alloc, bytes, sections, strings) {
        Ok(_) => {}
        Err(status) => return Err(status),
    }
    match first_path(alloc, bytes) {
        Ok(text) => Ok(text),
        Err(status) => Err(status),
    }
}
