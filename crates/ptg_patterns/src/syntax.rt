//! Whether marks are patterns.
ghost use Rattle.std.specs.Prelude.{◌≡◌, IfSome, IfNone};
ghost use Rattle.lido_base.specs.Reading.{IsFaultPlace};
ghost use Rattle.ptg_patterns.specs.Language.{IsText};
ghost use Rattle.ptg_patterns.specs.Steps.{ends, item_step, step};

use crate::marks::Mark;

/// The most points without a number that a pattern has.
const MOST_BARE: u32 = 64;

/// How far a text has come. Within a pattern: whether a brace is open, and how many points have no number.
#[derive(Clone, Copy)]
pub enum State {
    /// No pattern has begun.
    Start,
    /// A name was the last.
    Named,
    /// An item may come next.
    Items(bool, u32),
    /// A `$` that an int follows was the last.
    Numbering(bool, u32),
    /// A word for the last point's type may come next, or an item.
    Pointed(bool, u32),
}

/// How far the text has come behind an item, a brace, or the next pattern's name.
fn item_step(brace: bool, bare: u32, mark: Mark) -> Option<State>
    ensures { result ≡ item_step brace bare mark }
{
    match mark {
        Mark::Name(_, _) if !brace => Some(State::Named),
        Mark::Fixed(_) => Some(State::Items(brace, bare)),
        Mark::Bare(_) if bare < MOST_BARE => Some(State::Pointed(brace, bare + 1)),
        Mark::Numbering(_) => Some(State::Numbering(brace, bare)),
        Mark::BraceOpen if !brace => Some(State::Items(true, bare)),
        Mark::BraceClose if brace => Some(State::Items(false, bare)),
        _ => None,
    }
}

/// How far the text has come behind the mark, if that fits.
fn step(state: State, mark: Mark) -> Option<State>
    ensures { result ≡ step state mark }
{
    match (state, mark) {
        (State::Start, Mark::Name(_, _)) => Some(State::Named),
        (State::Named, Mark::Colon) => Some(State::Items(false, 0)),
        (State::Numbering(brace, bare), Mark::Number(_)) => Some(State::Pointed(brace, bare)),
        (State::Pointed(brace, bare), Mark::IntWord) => Some(State::Items(brace, bare)),
        (State::Pointed(brace, bare), Mark::StringWord) => Some(State::Items(brace, bare)),
        (State::Pointed(brace, bare), _) => item_step(brace, bare, mark),
        (State::Items(brace, bare), _) => item_step(brace, bare, mark),
        _ => None,
    }
}

/// Whether a text may end here.
fn ends(state: State) -> bool
    ensures { result ≡ ends state }
{
    match state {
        State::Start => true,
        State::Items(brace, _) => !brace,
        State::Pointed(brace, _) => !brace,
        _ => false,
    }
}

/// How many marks begin some patterns, if not all of them are patterns.
pub fn first_misfit(marks: &[Mark]) -> Option<usize>
    ensures misfit { IfSome result (λ k. IsFaultPlace IsText marks.now k) }
    ensures fits { IfNone result (IsText marks.now) }
{
    let mut state = State::Start;
    for (i, mark) in marks.iter().enumerate() {
        match step(state, *mark) {
            Some(next) => state = next,
            None => return Some(i),
        }
    }
    if ends(state) { None } else { Some(marks.len()) }
}
