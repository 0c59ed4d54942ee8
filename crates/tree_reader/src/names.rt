//! The shapes of a grammar by the names of their rules.
ghost use Rattle.std.specs.Prelude.{◌≡◌, ◌≢◌, ◌+◌, ◌<◌, ◌≤◌, ℕ, true, List, [], ◌∷◌, Option, None, Some, length, slice_index_or, IfOk, OnOk, IfErr, IfSome};
ghost use Rattle.lido_base.specs.Texts.{IsDistinctTexts};
ghost use Rattle.lido_lexer.specs.Lexing.{Gains};
ghost use Rattle.lido_lexer.specs.Tables.{interned};
ghost use Rattle.tree_reader.specs.Asking.{IsNameTable, first_from, has_name, is_called, or_last};

use flat_grammar::{Flat, Shape};
use lido_base::Strings;
use std::alloc::{AllocError, Global};
use tree_store::TreeFault;

/// Gives an id this shape, if it has none yet.
fn give_name(names: &mut Vec<Option<usize>>, id: usize, k: usize)
    ensures each { length names.new.items ≡ length names.old.items }
    ensures here { id < length names.old.items
        → slice_index_or names.new.items id None ≡ or_last (slice_index_or names.old.items id None) true k }
    ensures others { (m : ℕ) → m ≢ id → slice_index_or names.new.items m None ≡ slice_index_or names.old.items m None }
{
    if id < names.len() && names[id].is_none() {
        names[id] = Some(k);
    }
}

/// Gives the name of a shape's rule this shape, if it has none yet.
fn add_shape(names: &mut Vec<Option<usize>>, flat: &Flat, shape: &Shape, k: usize)
    ensures each { length names.new.items ≡ length names.old.items }
    ensures entries { (id : ℕ) → id < length names.old.items
        → slice_index_or names.new.items id None ≡ or_last (slice_index_or names.old.items id None) (is_called flat.now.rules id shape.now) k }
{
    match flat.rules.as_slice().get(shape.rule.0 as usize) {
        Some(rule) => give_name(names, rule.name.0 as usize, k),
        None => {}
    }
}

/// For each of so many ids the first shape whose rule has it as its name.
pub fn name_table(
    alloc: Global,
    flat: &Flat,
    count: usize,
) -> Result<Vec<Option<usize>>, AllocError>
    ensures { IfOk result (λ names. IsNameTable flat.now.rules flat.now.shapes count names.items) }
{
    let mut names = vec![in alloc; None; count]?;
    for (k, shape) in flat.shapes.as_slice().iter().enumerate() {
        add_shape(&mut names, flat, shape, k);
    }
    Ok(names)
}

/// The shape whose rule has this name, if there is one. The name is among the texts from then on, whether or not there is one. The table
/// was made when there were as many texts as it has ids.
pub fn find_named(
    flat: &Flat,
    names: &[Option<usize>],
    strings: &mut Strings,
    name: &[u8],
) -> Result<Option<usize>, TreeFault>
    requires { IsNameTable flat.now.rules flat.now.shapes (length names.now) names.now }
    ensures found { IfOk result (λ found. (texts : List (List ℕ)) → Gains texts strings.old → length texts ≡ length names.now
        → found ≡ first_from 0 (has_name flat.now.symbols flat.now.rules flat.now.shapes flat.now.root texts name.now) flat.now.shapes) }
    ensures inside { IfOk result (λ found. IfSome found (λ k. k < length flat.now.shapes)) }
    ensures memory { IfErr result (λ e. e ≡ TreeFault.Memory) }
    ensures table { OnOk result (strings.new ≡ interned strings.old (name.now ∷ [])) }
    ensures few { length strings.new ≤ length strings.old + 1 }
    ensures kept { Gains strings.old strings.new }
    ensures distinct { IsDistinctTexts strings.new }
{
    match strings.intern(name) {
        Ok(id) => Ok(names.get(id.0 as usize).copied().flatten()),
        Err(_) => Err(TreeFault::Memory),
    }
}
