//! The classes whose computations are left for a symbol.
ghost use Rattle.std.specs.Prelude.{◌≡◌, ◌<◌, ◌+◌, ◌↔◌, IsTrue, ◌&&◌, Some, None, MatchOption, if◌then◌else◌};
ghost use Rattle.symbol_inherit.specs.Index.{noted};
ghost use Rattle.symbol_inherit.specs.Classes.{inherits_by, is_that, is_candidate, IsDropped, IsLeftBy, IsBest, earlier_of};

use crate::classes::Classes;
use crate::index::Index;
use crate::notes::Own;
use computation_aims::Aim;

/// A class that is left, and its computation.
#[derive(Clone, Copy)]
pub struct Left {
    pub class: u16,
    pub own: Own,
}

/// Whether the number is the one that is excepted.
fn is_excepted(except: Option<u16>, y: u16) -> bool
    ensures { result ≡ is_that except y }
{
    match except {
        Some(other) => other == y,
        None => false,
    }
}

/// The computation of the aim in class `y`, if symbol `x` inherits the class.
fn candidate(classes: &Classes, index: &Index, x: u16, aim: Aim, y: u16) -> Option<Own>
    ensures { result ≡ (if inherits_by classes.now x y then noted index.now y aim else None) }
{
    if classes.inherits(x as usize, y as usize) {
        index.find(y as usize, aim)
    } else {
        None
    }
}

/// Whether class `o` is a candidate and inherits class `y`.
fn drops(classes: &Classes, index: &Index, x: u16, aim: Aim, o: u16, y: u16) -> bool
    ensures { result ≡ (is_candidate classes.now index.now x aim o && inherits_by classes.now o y) }
{
    candidate(classes, index, x, aim, o).is_some() && classes.inherits(o as usize, y as usize)
}

/// Whether one of the first `count` classes is a candidate and inherits class `y`.
fn is_dropped(classes: &Classes, index: &Index, count: u16, x: u16, aim: Aim, y: u16) -> bool
    ensures { IsTrue result ↔ IsDropped classes.now index.now x aim count y }
{
    for o in 0..count {
        if drops(classes, index, x, aim, o, y) {
            return true;
        }
    }
    false
}

/// The computation of class `y`, if the class is left.
fn left_own(classes: &Classes, index: &Index, count: u16, x: u16, aim: Aim, y: u16) -> Option<Own>
    ensures { MatchOption result (¬ IsLeftBy classes.now index.now x aim count y)
        (λ own. IsLeftBy classes.now index.now x aim count y × (noted index.now y aim ≡ Some own)) }
{
    let own = candidate(classes, index, x, aim, y)?;
    if is_dropped(classes, index, count, x, aim, y) {
        return None;
    }
    Some(own)
}

/// The one of two computations that stands first, and the former one where they have one place.
fn earlier(best: Option<Left>, next: Left) -> Left
    ensures { result ≡ earlier_of best next }
{
    match best {
        Some(left) if left.own.at <= next.own.at => left,
        _ => next,
    }
}

/// The best of the first `y` classes, with class `y` it is that of one more.
fn with_class(
    classes: &Classes,
    index: &Index,
    count: u16,
    x: u16,
    aim: Aim,
    except: Option<u16>,
    y: u16,
    best: Option<Left>,
) -> Option<Left>
    requires { IsBest classes.now index.now x aim count y except best }
    ensures { IsBest classes.now index.now x aim count (y + 1) except result }
{
    if is_excepted(except, y) {
        return best;
    }
    match left_own(classes, index, count, x, aim, y) {
        Some(own) => Some(earlier(best, Left { class: y, own })),
        None => best,
    }
}

/// Of the first `count` classes that are left for the aim of symbol `x`, but for one that is excepted, the one whose computation
/// stands first.
pub fn first_left(
    classes: &Classes,
    index: &Index,
    count: u16,
    x: u16,
    aim: Aim,
    except: Option<u16>,
) -> Option<Left>
    ensures { IsBest classes.now index.now x aim count count except result }
{
    let mut best = None;
    for y in 0..count {
        best = with_class(classes, index, count, x, aim, except, y, best);
    }
    best
}
