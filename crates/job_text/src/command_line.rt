//! The words of the command line.
ghost use Rattle.std.specs.Prelude.{◌≡◌, ℕ, ◌<◌, map, string_bytes, find, None, IsTrue, IfSome, IfNone, IfOk};
ghost use Rattle.std.specs.Option.{option_copied};
ghost use Rattle.lido_base.specs.Phases.{Gives};
ghost use Rattle.job_text.specs.declared.forms.Form.{Form};
ghost use Rattle.job_text.specs.Forms.{has_form, most_of, allowed};
ghost use Rattle.job_text.specs.CommandLine.{fault_of, fault_at, number_or, IsInside, splits, run_words, IsFirstFault, WordsOf};

use crate::forms::{
    Form, Verb, any_has_form, any_is_needed, first_verb, has_form, is_outside, is_repeatable,
    number_of,
};
use lido_base::{List, WordKind};
use std::alloc::{AllocError, Global};

/// What a command line asks for.
#[derive(Clone, Debug, Drop)]
pub enum Command {
    /// Whether the specification is ordered.
    Check,
    /// The report on its order.
    Order,
    /// The output of the job.
    Run(RunWords),
    /// The output of a generated job: `n` blocks, from 1 to 50,000, with this many workers, from 1 to 16.
    Big { n: u32, workers: u32 },
}

/// What the words behind `run` say.
#[derive(Clone, Debug, Drop)]
pub struct RunWords {
    /// How many workers there are, from 1 to 16; 1 by default.
    pub workers: u32,
    /// The indices of the words `split=SYM`, the first word of the command line being 0, in order.
    pub split: List<u64>,
    /// The least number of nodes in a subtree that is split off, from 1 to 1,048,576; 1 by default.
    pub min: u32,
    /// How often a worker goes over its regions in one shift, from 1 to 1,000; 4 by default.
    pub patience: u32,
}

/// Why there is no command.
#[derive(Clone, Copy, Debug, PartialEq, Eq)]
pub enum WordsFault {
    /// The word of this index, counted from 0, is the first that is wrong, in this way.
    Words { index: u64, kind: WordKind },
    /// No memory was found.
    Memory,
}

impl From<AllocError> for WordsFault {
    ghost use Rattle.job_text.specs.declared.command_line.WordsFault.TheVariants.{Memory};

    ghost from_gives = { λ _ e. e ≡ Memory };

    fn from(_: AllocError) -> Self {
        WordsFault::Memory
    }
}

/// The forms that are allowed at an index.
fn allowed(verb: Option<Verb>, index: usize) -> &'static [Form]
    ensures { result.now ≡ allowed verb index }
{
    match (verb, index) {
        (_, 0) => &[Form::First],
        (Some(Verb::Run), _) => &[Form::Workers, Form::Split, Form::Min, Form::Patience],
        (Some(Verb::Big), 1) => &[Form::Count],
        (Some(Verb::Big), _) => &[Form::Workers],
        _ => &[],
    }
}

/// The first of the forms that the word has.
#[tactic(auto, using(crate::proofs::WordLemmas::find_passes))]
fn form_of(forms: &[Form], word: &[u8]) -> Option<Form>
    ensures first { result ≡ find (λ form. has_form form word.now) forms.now }
    ensures has { IfSome result (λ form. IsTrue (has_form form word.now)) }
{
    forms.iter().copied().find(|form| has_form(*form, word))
}

/// What is wrong with a word that has this form, or none that is allowed, behind these words.
#[tactic(auto, using(crate::proofs::WordLemmas::list_any_of_map))]
fn fault_of(before: &[String], word: &[u8], form: Option<Form>) -> Option<WordKind>
    requires { IfSome form (λ form. IsTrue (has_form form word.now)) }
    ensures { result ≡ fault_of (map string_bytes before.now) word.now form }
{
    let Some(form) = form else {
        return Some(WordKind::Unknown);
    };
    if !is_repeatable(form) && any_has_form(form, before) {
        return Some(WordKind::Repeated);
    }
    if is_outside(form, word) {
        return Some(WordKind::Range);
    }
    None
}

/// What is wrong at the index.
fn fault_at(words: &[String], index: usize) -> Option<WordKind>
    ensures { result ≡ fault_at (map string_bytes words.now) index }
{
    let forms = allowed(first_verb(words), index);
    let Some(word) = words.get(index) else {
        return any_is_needed(forms).then_some(WordKind::Missing);
    };
    let word = word.as_bytes();
    fault_of(&words[..index], word, form_of(forms, word))
}

/// The first index where something is wrong, and what.
fn first_fault(words: &[String]) -> Option<(usize, WordKind)>
    ensures found { IfSome result (λ first. IsFirstFault (map string_bytes words.now) first.0 first.1) }
    ensures none { IfNone result ((k : ℕ) → fault_at (map string_bytes words.now) k ≡ None) }
{
    for index in 0..words.len() + 1 {
        if let Some(kind) = fault_at(words, index) {
            return Some((index, kind));
        }
    }
    None
}

/// The first of the words that has the form.
fn first_of(form: Form, words: &[String]) -> Option<&String>
    ensures { option_copied result ≡ find (λ word. has_form form (string_bytes word)) words.now }
{
    words.iter().find(|word| has_form(form, word.as_bytes()))
}

/// The number of the first of the words that has the form, or else this.
fn number_or(default: u32, form: Form, words: &[String]) -> u32
    requires numbered { 0 < most_of form }
    requires inside { IsInside form (map string_bytes words.now) }
    ensures { result ≡ number_or default form (map string_bytes words.now) }
{
    match first_of(form, words) {
        Some(word) => number_of(form, word.as_bytes()) as u32,
        None => default,
    }
}

/// The indices of the words that name a symbol to split at.
fn splits(alloc: Global, words: &[String]) -> Result<List<u64>, AllocError>
    ensures { IfOk result (λ found. found ≡ splits (map string_bytes words.now)) }
{
    let mut found = List::new(alloc);
    for (index, word) in words.iter().enumerate() {
        if has_form(Form::Split, word.as_bytes()) {
            found.push(index as u64)?;
        }
    }
    Ok(found)
}

/// What the words behind `run` say.
fn run_words(alloc: Global, words: &[String]) -> Result<RunWords, AllocError>
    requires { (form : Form) → IsInside form (map string_bytes words.now) }
    ensures { IfOk result (λ said. said ≡ run_words (map string_bytes words.now)) }
{
    let split = splits(alloc, words)?;
    Ok(RunWords {
        workers: number_or(1, Form::Workers, words),
        split,
        min: number_or(1, Form::Min, words),
        patience: number_or(4, Form::Patience, words),
    })
}

/// The command that the words of a command line give, the program's own name not among them: `check` or `order` alone; `run`,
/// and behind it, in any order, any number of words `split=SYM` and each of `workers=N`, `min=N` and `patience=N` at most once;
/// or `big N`, and behind it `workers=N` at most once. A number is 1 to 10 decimal digits, without a sign, and SYM is a letter
/// or `_`, then letters, digits and `_`.
///
/// `Words` tells the first word that is wrong. What is wrong is the first of these that applies: a word that is needed there is
/// missing; it has none of the forms allowed at its place; its form may stand once and stood before; its number is out of range.
pub fn words(alloc: Global, words: &[String]) -> Result<Command, WordsFault>
    ensures { Gives (λ command. command) (WordsOf (map string_bytes words.now)) WordsFault.Memory result }
{
    if let Some((index, kind)) = first_fault(words) {
        return Err(WordsFault::Words {
            index: index as u64,
            kind,
        });
    }
    match first_verb(words) {
        Some(Verb::Check) => Ok(Command::Check),
        Some(Verb::Order) => Ok(Command::Order),
        Some(Verb::Run) => Ok(Command::Run(run_words(alloc, words)?)),
        Some(Verb::Big) => Ok(Command::Big {
            n: number_or(1, Form::Count, words),
            workers: number_or(1, Form::Workers, words),
        }),
        None => unreachable!(),
    }
}
