//! A bracketed tree's text is cut into its parts, byte by byte. Nothing of the text is read twice.
ghost use Rattle.std.specs.Prelude.{◌≡◌, ◌≢◌, ◌+◌, ◌-◌, ◌*◌, ◌^◌, ◌<◌, ◌≤◌, ◌&&◌, nat_lt, false, FitsSigned, ℕ, List, [], ◌∷◌, ◌++◌, Some, None, length, IfOk, OnOk, IfErr};
ghost use Rattle.std.specs.Int.{w64};
ghost use Rattle.std.specs.Option.{SomeIff};
ghost use Rattle.lido_base.specs.Phases.{Gives};
ghost use Rattle.lido_lexer.specs.Bytes.{is_octal};
ghost use Rattle.sum_trees.specs.Bytes.{is_white, is_digit, is_name_byte};
ghost use Rattle.tree_reader.specs.Scanning.{Scanning, Moves, Refuses, HasScanned, IsShallow, Stands, deeper, signed, is_done, IsDigitOn};

use crate::part::{Coordinates, Part};
use lido_base::List;
use lido_lexer::{escaped, is_octal, is_plain};
use std::alloc::{AllocError, Global};
use sum_trees::{is_digit, is_letter, is_white};
use tree_store::TreeFault;

/// What of a part stands in front of the next byte.
#[derive(Clone, Copy, Debug, PartialEq, Eq)]
enum Phase {
    /// No part is begun.
    Gap,
    /// A bracket, whose name has not begun.
    Opened {
        at: u32,
    },
    /// A bracket, and letters of its name.
    Name {
        at: u32,
        name_at: u32,
    },
    /// A bracket and its name, and white space behind it.
    Named {
        at: u32,
        name_at: u32,
    },
    /// A bracket, its name, an @ and so many digits of the line, which write this number.
    Line {
        at: u32,
        name_at: u32,
        count: u8,
        value: u32,
    },
    /// A bracket, its name, an @, the line, a colon and so many digits of the column, which write this number.
    Column {
        at: u32,
        name_at: u32,
        line: u32,
        count: u8,
        value: u32,
    },
    /// A minus.
    Minus {
        at: u32,
    },
    /// Digits, which write this number.
    Digits {
        at: u32,
        negative: bool,
        value: u64,
    },
    /// A double quote, and whole parts of a string.
    Text {
        at: u32,
    },
    /// A backslash in a string.
    Escape {
        at: u32,
    },
    /// A backslash in a string and octal digits, which write this number; so many more may follow.
    Octal {
        at: u32,
        count: u8,
        value: u8,
    },
}

/// The parts so far, and what is known of the part that is begun.
#[derive(Drop)]
struct Scanner {
    parts: List<Part>,
    phase: Phase,
    /// The bytes of the name or the string that is begun.
    held: List<u8>,
    /// How many nodes are open; none before the first node.
    depth: Option<u32>,
}

/// The number that one digit more writes, if it is one of 64 bits with this sign.
fn number_on(negative: bool, value: u64, b: u8) -> Option<u64>
    ensures { SomeIff result (FitsSigned w64 (signed negative (value * 10 + (b - 48)))) (value * 10 + (b - 48)) }
{
    if value > (1 << 60) {
        return None;
    }
    let next = value * 10 + u64::from(b.saturating_sub(b'0'));
    let most = if negative { 1 << 63 } else { (1 << 63) - 1 };
    if next > most {
        return None;
    }
    Some(next)
}

/// The number with this sign.
fn signed_value(negative: bool, value: u64) -> i64
    requires { FitsSigned w64 (signed negative value) }
    ensures { result ≡ signed negative value }
{
    if !negative {
        value as i64
    } else if value == (1 << 63) {
        i64::MIN
    } else {
        -(value as i64)
    }
}

/// The number of 32 bits that one digit more writes, if there are 10 digits at most.
fn coordinate_on(count: u8, value: u32, b: u8) -> Option<u32>
    ensures { SomeIff result (IsDigitOn count value b) (value * 10 + (b - 48)) }
{
    if count >= 10 || value > 429_496_729 {
        return None;
    }
    let next = u64::from(value) * 10 + u64::from(b.saturating_sub(b'0'));
    if next > 4_294_967_295 {
        return None;
    }
    Some(next as u32)
}

/// What a name goes on with.
fn is_name_byte(b: u8) -> bool
    ensures { result ≡ is_name_byte b }
{
    is_letter(b) || is_digit(b)
}

/// An octal digit, where one may follow.
fn takes_octal(count: u8, b: u8) -> bool
    ensures { result ≡ (nat_lt 0 count && is_octal b) }
{
    count > 0 && is_octal(b)
}

/// The number that one octal digit more writes, if it is a byte.
fn octal_on(value: u8, b: u8) -> Option<u8>
    ensures { SomeIff result (value * 8 + (b - 48) ≤ 255) (value * 8 + (b - 48)) }
{
    let next = u16::from(value) * 8 + u16::from(b.saturating_sub(b'0'));
    if next > 255 {
        return None;
    }
    Some(next as u8)
}

impl Scanner {
    /// Holds a byte of the text, and is in this phase from now on.
    fn hold(&mut self, byte: u8, phase: Phase) -> Result<(), TreeFault>
        ensures ok { OnOk result (self.new ≡ record self.old { held = self.old.held ++ byte ∷ []; phase = phase }) }
        ensures memory { IfErr result (λ e. e ≡ TreeFault.Memory) }
    {
        match self.held.push(byte) {
            Ok(()) => {
                self.phase = phase;
                Ok(())
            }
            Err(_) => Err(TreeFault::Memory),
        }
    }

    /// What was held, and nothing is held any more.
    fn take_held(&mut self, alloc: Global) -> List<u8>
        ensures held { result ≡ self.old.held }
        ensures rest { self.new ≡ record self.old { held = [] } }
    {
        std::mem::replace(&mut self.held, List::new(alloc))
    }

    /// A part is whole. So many nodes are open behind it.
    fn give(&mut self, part: Part, depth: Option<u32>) -> Result<(), TreeFault>
        ensures ok { OnOk result (self.new ≡ record self.old { parts = self.old.parts ++ part ∷ []; phase = Phase.Gap; depth = depth }) }
        ensures memory { IfErr result (λ e. e ≡ TreeFault.Memory) }
    {
        match self.parts.push(part) {
            Ok(()) => {
                self.phase = Phase::Gap;
                self.depth = depth;
                Ok(())
            }
            Err(_) => Err(TreeFault::Memory),
        }
    }

    /// The name that is held is whole, and these coordinates stand behind it: a node is open.
    fn begin_node(
        &mut self,
        alloc: Global,
        at: u32,
        name_at: u32,
        coordinates: Option<Coordinates>,
    ) -> Result<(), TreeFault>
        requires few { IsShallow (2 ^ 32 - 2) self.old.depth }
        ensures ok { OnOk result (self.new ≡ record { parts = self.old.parts ++ Part.Begin at name_at self.old.held coordinates ∷ []; phase = Phase.Gap; held = []; depth = Some (deeper self.old.depth) }) }
        ensures memory { IfErr result (λ e. e ≡ TreeFault.Memory) }
    {
        let name = self.take_held(alloc);
        let depth = match self.depth {
            Some(depth) => depth + 1,
            None => 1,
        };
        let part = Part::Begin {
            at,
            name_at,
            name,
            coordinates,
        };
        self.give(part, Some(depth))
    }

    /// Between the children of a node: a part begins or ends.
    fn child(&mut self, b: u8, at: u32, depth: u32) -> Result<(), TreeFault>
        requires stands { Stands self.old }
        requires phase { self.old.phase ≡ Phase.Gap }
        requires depth { (self.old.depth ≡ Some depth) × (0 < depth) }
        requires other { is_white b ≡ false }
        requires shallow { depth ≤ at + 1 }
        ensures moves { OnOk result (Moves at (b ∷ []) self.old [] self.new) }
        ensures refused { IfErr result (λ e. Refuses at b self.old e) }
        ensures shallow { OnOk result (IsShallow (at + 1) self.new.depth) }
    {
        if b == b')' {
            return self.give(Part::End { at }, Some(depth - 1));
        }
        if b == b'(' {
            self.phase = Phase::Opened { at };
            return Ok(());
        }
        if b == b'"' {
            self.phase = Phase::Text { at };
            return Ok(());
        }
        if b == b'-' {
            self.phase = Phase::Minus { at };
            return Ok(());
        }
        if is_digit(b) {
            self.phase = Phase::Digits {
                at,
                negative: false,
                value: u64::from(b - b'0'),
            };
            return Ok(());
        }
        Err(TreeFault::TreeSyntax { at })
    }

    /// Before the first node.
    fn first(&mut self, b: u8, at: u32) -> Result<(), TreeFault>
        requires stands { Stands self.old }
        requires phase { self.old.phase ≡ Phase.Gap }
        requires depth { self.old.depth ≡ None }
        requires other { is_white b ≡ false }
        ensures moves { OnOk result (Moves at (b ∷ []) self.old [] self.new) }
        ensures refused { IfErr result (λ e. Refuses at b self.old e) }
        ensures shallow { OnOk result (IsShallow (at + 1) self.new.depth) }
    {
        if b != b'(' {
            return Err(TreeFault::TreeSyntax { at });
        }
        self.phase = Phase::Opened { at };
        Ok(())
    }

    /// Between two parts.
    fn gap(&mut self, b: u8, at: u32) -> Result<(), TreeFault>
        requires stands { Stands self.old }
        requires phase { self.old.phase ≡ Phase.Gap }
        requires shallow { IsShallow (at + 1) self.old.depth }
        ensures moves { OnOk result (Moves at (b ∷ []) self.old [] self.new) }
        ensures refused { IfErr result (λ e. Refuses at b self.old e) }
        ensures shallow { OnOk result (IsShallow (at + 1) self.new.depth) }
    {
        if is_white(b) {
            return Ok(());
        }
        match self.depth {
            Some(0) => Err(TreeFault::TreeSyntax { at }),
            Some(depth) => self.child(b, at, depth),
            None => self.first(b, at),
        }
    }

    /// Behind a bracket: its name begins.
    fn opened(&mut self, b: u8, from: u32, at: u32) -> Result<(), TreeFault>
        requires stands { Stands self.old }
        requires phase { self.old.phase ≡ Phase.Opened from }
        requires shallow { IsShallow at self.old.depth }
        ensures moves { OnOk result (Moves at (b ∷ []) self.old [] self.new) }
        ensures refused { IfErr result (λ e. Refuses at b self.old e) }
        ensures shallow { OnOk result (IsShallow (at + 1) self.new.depth) }
    {
        if is_white(b) {
            return Ok(());
        }
        if is_letter(b) {
            return self.hold(
                b,
                Phase::Name {
                    at: from,
                    name_at: at,
                },
            );
        }
        Err(TreeFault::TreeSyntax { at })
    }

    /// Behind a name: coordinates may follow.
    fn named(
        &mut self,
        alloc: Global,
        b: u8,
        from: u32,
        name_at: u32,
        at: u32,
    ) -> Result<(), TreeFault>
        requires stands { Stands self.old }
        requires phase { self.old.phase ≡ Phase.Named from name_at }
        requires shallow { IsShallow at self.old.depth }
        requires small { at < 2 ^ 32 - 2 }
        ensures moves { OnOk result (Moves at (b ∷ []) self.old [] self.new) }
        ensures refused { IfErr result (λ e. Refuses at b self.old e) }
        ensures shallow { OnOk result (IsShallow (at + 1) self.new.depth) }
    {
        if is_white(b) {
            return Ok(());
        }
        if b == b'@' {
            self.phase = Phase::Line {
                at: from,
                name_at,
                count: 0,
                value: 0,
            };
            return Ok(());
        }
        match self.begin_node(alloc, from, name_at, None) {
            Ok(()) => self.gap(b, at),
            Err(e) => Err(e),
        }
    }

    /// In a line, which goes on, or is whole where a colon stands.
    fn line(
        &mut self,
        b: u8,
        from: u32,
        name_at: u32,
        count: u8,
        value: u32,
        at: u32,
    ) -> Result<(), TreeFault>
        requires stands { Stands self.old }
        requires phase { self.old.phase ≡ Phase.Line from name_at count value }
        requires shallow { IsShallow at self.old.depth }
        ensures moves { OnOk result (Moves at (b ∷ []) self.old [] self.new) }
        ensures refused { IfErr result (λ e. Refuses at b self.old e) }
        ensures shallow { OnOk result (IsShallow (at + 1) self.new.depth) }
    {
        if is_digit(b) {
            return match coordinate_on(count, value, b) {
                Some(value) => {
                    self.phase = Phase::Line {
                        at: from,
                        name_at,
                        count: count + 1,
                        value,
                    };
                    Ok(())
                }
                None => Err(TreeFault::TreeSyntax { at }),
            };
        }
        if count == 0 || b != b':' {
            return Err(TreeFault::TreeSyntax { at });
        }
        self.phase = Phase::Column {
            at: from,
            name_at,
            line: value,
            count: 0,
            value: 0,
        };
        Ok(())
    }

    /// In a column, which goes on or is whole.
    fn column(
        &mut self,
        alloc: Global,
        b: u8,
        from: u32,
        name_at: u32,
        line: u32,
        count: u8,
        value: u32,
        at: u32,
    ) -> Result<(), TreeFault>
        requires stands { Stands self.old }
        requires phase { self.old.phase ≡ Phase.Column from name_at line count value }
        requires shallow { IsShallow at self.old.depth }
        requires small { at < 2 ^ 32 - 2 }
        ensures moves { OnOk result (Moves at (b ∷ []) self.old [] self.new) }
        ensures refused { IfErr result (λ e. Refuses at b self.old e) }
        ensures shallow { OnOk result (IsShallow (at + 1) self.new.depth) }
    {
        if is_digit(b) {
            return match coordinate_on(count, value, b) {
                Some(value) => {
                    self.phase = Phase::Column {
                        at: from,
                        name_at,
                        line,
                        count: count + 1,
                        value,
                    };
                    Ok(())
                }
                None => Err(TreeFault::TreeSyntax { at }),
            };
        }
        if count == 0 {
            return Err(TreeFault::TreeSyntax { at });
        }
        let column = value;
        match self.begin_node(alloc, from, name_at, Some(Coordinates { line, column })) {
            Ok(()) => self.gap(b, at),
            Err(e) => Err(e),
        }
    }

    /// In a name, which goes on or is whole.
    fn name(
        &mut self,
        alloc: Global,
        b: u8,
        from: u32,
        name_at: u32,
        at: u32,
    ) -> Result<(), TreeFault>
        requires stands { Stands self.old }
        requires phase { self.old.phase ≡ Phase.Name from name_at }
        requires shallow { IsShallow at self.old.depth }
        requires small { at < 2 ^ 32 - 2 }
        ensures moves { OnOk result (Moves at (b ∷ []) self.old [] self.new) }
        ensures refused { IfErr result (λ e. Refuses at b self.old e) }
        ensures shallow { OnOk result (IsShallow (at + 1) self.new.depth) }
    {
        if is_name_byte(b) {
            return self.hold(b, Phase::Name { at: from, name_at });
        }
        self.phase = Phase::Named { at: from, name_at };
        self.named(alloc, b, from, name_at, at)
    }

    /// Behind a minus: a digit follows.
    fn minus(&mut self, b: u8, from: u32, at: u32) -> Result<(), TreeFault>
        requires stands { Stands self.old }
        requires phase { self.old.phase ≡ Phase.Minus from }
        requires shallow { IsShallow at self.old.depth }
        ensures moves { OnOk result (Moves at (b ∷ []) self.old [] self.new) }
        ensures refused { IfErr result (λ e. Refuses at b self.old e) }
        ensures shallow { OnOk result (IsShallow (at + 1) self.new.depth) }
    {
        if !is_digit(b) {
            return Err(TreeFault::TreeSyntax { at });
        }
        self.phase = Phase::Digits {
            at: from,
            negative: true,
            value: u64::from(b - b'0'),
        };
        Ok(())
    }

    /// A number is whole.
    fn give_int(&mut self, at: u32, value: i64) -> Result<(), TreeFault>
        ensures ok { OnOk result (self.new ≡ record self.old { parts = self.old.parts ++ Part.Int at value ∷ []; phase = Phase.Gap }) }
        ensures memory { IfErr result (λ e. e ≡ TreeFault.Memory) }
    {
        let depth = self.depth;
        self.give(Part::Int { at, value }, depth)
    }

    /// In a number, which goes on or is whole.
    fn digits(
        &mut self,
        b: u8,
        from: u32,
        negative: bool,
        value: u64,
        at: u32,
    ) -> Result<(), TreeFault>
        requires stands { Stands self.old }
        requires phase { self.old.phase ≡ Phase.Digits from negative value }
        requires shallow { IsShallow at self.old.depth }
        requires small { at < 2 ^ 32 - 2 }
        ensures moves { OnOk result (Moves at (b ∷ []) self.old [] self.new) }
        ensures refused { IfErr result (λ e. Refuses at b self.old e) }
        ensures shallow { OnOk result (IsShallow (at + 1) self.new.depth) }
    {
        if is_digit(b) {
            return match number_on(negative, value, b) {
                Some(value) => {
                    self.phase = Phase::Digits {
                        at: from,
                        negative,
                        value,
                    };
                    Ok(())
                }
                None => Err(TreeFault::TreeSyntax { at }),
            };
        }
        match self.give_int(from, signed_value(negative, value)) {
            Ok(()) => self.gap(b, at),
            Err(e) => Err(e),
        }
    }

    /// A string is whole.
    fn give_text(&mut self, alloc: Global, at: u32) -> Result<(), TreeFault>
        ensures ok { OnOk result (self.new ≡ record self.old { parts = self.old.parts ++ Part.Str at self.old.held ∷ []; phase = Phase.Gap; held = [] }) }
        ensures memory { IfErr result (λ e. e ≡ TreeFault.Memory) }
    {
        let text = self.take_held(alloc);
        let depth = self.depth;
        self.give(Part::Str { at, text }, depth)
    }

    /// In a string: it ends, or a part of it begins or stands there.
    fn text(&mut self, alloc: Global, b: u8, from: u32, at: u32) -> Result<(), TreeFault>
        requires stands { Stands self.old }
        requires phase { self.old.phase ≡ Phase.Text from }
        requires shallow { IsShallow at self.old.depth }
        ensures moves { OnOk result (Moves at (b ∷ []) self.old [] self.new) }
        ensures refused { IfErr result (λ e. Refuses at b self.old e) }
        ensures shallow { OnOk result (IsShallow (at + 1) self.new.depth) }
    {
        if b == b'"' {
            return self.give_text(alloc, from);
        }
        if b == b'\\' {
            self.phase = Phase::Escape { at: from };
            return Ok(());
        }
        if is_plain(b) {
            return self.hold(b, Phase::Text { at: from });
        }
        Err(TreeFault::TreeSyntax { at })
    }

    /// Behind a backslash.
    fn escape(&mut self, b: u8, from: u32, at: u32) -> Result<(), TreeFault>
        requires stands { Stands self.old }
        requires phase { self.old.phase ≡ Phase.Escape from }
        requires shallow { IsShallow at self.old.depth }
        ensures moves { OnOk result (Moves at (b ∷ []) self.old [] self.new) }
        ensures refused { IfErr result (λ e. Refuses at b self.old e) }
        ensures shallow { OnOk result (IsShallow (at + 1) self.new.depth) }
    {
        if is_octal(b) {
            self.phase = Phase::Octal {
                at: from,
                count: 2,
                value: b - b'0',
            };
            return Ok(());
        }
        match escaped(b) {
            Some(byte) => self.hold(byte, Phase::Text { at: from }),
            None => Err(TreeFault::TreeSyntax { at }),
        }
    }

    /// Behind octal digits, which go on or are all.
    fn octal(
        &mut self,
        alloc: Global,
        b: u8,
        from: u32,
        count: u8,
        value: u8,
        at: u32,
    ) -> Result<(), TreeFault>
        requires stands { Stands self.old }
        requires phase { self.old.phase ≡ Phase.Octal from count value }
        requires shallow { IsShallow at self.old.depth }
        ensures moves { OnOk result (Moves at (b ∷ []) self.old [] self.new) }
        ensures refused { IfErr result (λ e. Refuses at b self.old e) }
        ensures shallow { OnOk result (IsShallow (at + 1) self.new.depth) }
    {
        if takes_octal(count, b) {
            return match octal_on(value, b) {
                Some(value) => {
                    self.phase = Phase::Octal {
                        at: from,
                        count: count - 1,
                        value,
                    };
                    Ok(())
                }
                None => Err(TreeFault::TreeSyntax { at }),
            };
        }
        match self.hold(value, Phase::Text { at: from }) {
            Ok(()) => self.text(alloc, b, from, at),
            Err(e) => Err(e),
        }
    }

    /// The text can end here.
    fn is_done(&self) -> bool
        ensures { result ≡ is_done self.now.phase self.now.depth }
    {
        match (self.phase, self.depth) {
            (Phase::Gap, Some(0)) => true,
            _ => false,
        }
    }

    /// The next byte of the text, which stands at this place.
    fn step(&mut self, alloc: Global, b: u8, at: u32) -> Result<(), TreeFault>
        requires stands { Stands self.old }
        requires shallow { IsShallow at self.old.depth }
        requires small { at < 2 ^ 32 - 2 }
        ensures moves { OnOk result (Moves at (b ∷ []) self.old [] self.new) }
        ensures refused { IfErr result (λ e. Refuses at b self.old e) }
        ensures shallow { OnOk result (IsShallow (at + 1) self.new.depth) }
    {
        match self.phase {
            Phase::Gap => self.gap(b, at),
            Phase::Opened { at: from } => self.opened(b, from, at),
            Phase::Name { at: from, name_at } => self.name(alloc, b, from, name_at, at),
            Phase::Named { at: from, name_at } => self.named(alloc, b, from, name_at, at),
            Phase::Line {
                at: from,
                name_at,
                count,
                value,
            } => self.line(b, from, name_at, count, value, at),
            Phase::Column {
                at: from,
                name_at,
                line,
                count,
                value,
            } => self.column(alloc, b, from, name_at, line, count, value, at),
            Phase::Minus { at: from } => self.minus(b, from, at),
            Phase::Digits {
                at: from,
                negative,
                value,
            } => self.digits(b, from, negative, value, at),
            Phase::Text { at: from } => self.text(alloc, b, from, at),
            Phase::Escape { at: from } => self.escape(b, from, at),
            Phase::Octal {
                at: from,
                count,
                value,
            } => self.octal(alloc, b, from, count, value, at),
        }
    }
}

/// The parts of a bracketed tree's text, from the left.
///
/// `TreeSyntax` comes exactly where the text is outside the language of bracketed trees, and has the least place such that the
/// bytes up to it and at it begin no text of the language, or the text's length if the text itself begins one and isn't one.
/// `Memory` is want of memory. There are no more parts than bytes.
pub fn scan(alloc: Global, text: &[u8]) -> Result<Vec<Part>, TreeFault>
    requires { length text.now ≤ 8388608 }
    ensures gives { Gives (λ parts. parts.items) (Scanning text.now) TreeFault.Memory result }
    ensures few { IfOk result (λ parts. length parts.items ≤ length text.now) }
{
    let mut scanner = Scanner {
        parts: List::new(alloc),
        phase: Phase::Gap,
        held: List::new(alloc),
        depth: None,
    };
    for (i, b) in text.iter().enumerate() {
        match scanner.step(alloc, *b, i as u32) {
            Ok(()) => {}
            Err(e) => return Err(e),
        }
    }
    if scanner.is_done() {
        Ok(scanner.parts.into_vec())
    } else {
        Err(TreeFault::TreeSyntax {
            at: text.len() as u32,
        })
    }
}
