//! Bytes by what they may stand for, and how many pass a test in front of a text.
ghost use Rattle.std.specs.Prelude.{◌≡◌, length, drop, take_while};
ghost use Rattle.lido_base.specs.Bytes.{is_white, is_digit, is_letter, is_name_byte, behind};
ghost use Rattle.lido_lexer.specs.Bytes.{is_octal, is_line_byte, is_literal_byte, is_plain, octal_front};

/// White space: space, tab, form feed, carriage return and line feed.
pub fn is_white(b: u8) -> bool
    ensures { result ≡ is_white b }
{
    b == b' ' || (b == b'\t' || (b == 12 || (b == b'\r' || b == b'\n')))
}

/// A decimal digit.
pub fn is_digit(b: u8) -> bool
    ensures { result ≡ is_digit b }
{
    b >= b'0' && b <= b'9'
}

/// An octal digit.
pub fn is_octal(b: u8) -> bool
    ensures { result ≡ is_octal b }
{
    b >= b'0' && b <= b'7'
}

/// A letter of ASCII, or an underscore.
pub fn is_letter(b: u8) -> bool
    ensures { result ≡ is_letter b }
{
    (b >= b'A' && b <= b'Z') || ((b >= b'a' && b <= b'z') || b == b'_')
}

/// A byte that stands for itself in a string.
pub fn is_plain(b: u8) -> bool
    ensures { result ≡ is_plain b }
{
    (b >= b' ' || b == b'\t') && (b != b'"' && b != b'\\')
}

fn name_len(bytes: &[u8]) -> usize
    ensures { result ≡ length (take_while is_name_byte bytes.now) }
{
    bytes
        .iter()
        .take_while(|b| is_letter(**b) || is_digit(**b))
        .count()
}

fn digits_len(bytes: &[u8]) -> usize
    ensures { result ≡ length (take_while is_digit bytes.now) }
{
    bytes.iter().take_while(|b| is_digit(**b)).count()
}

fn octal_len(bytes: &[u8]) -> usize
    ensures { result ≡ length (octal_front bytes.now) }
{
    bytes.iter().take(3).take_while(|b| is_octal(**b)).count()
}

fn literal_len(bytes: &[u8]) -> usize
    ensures { result ≡ length (take_while is_literal_byte bytes.now) }
{
    bytes
        .iter()
        .take_while(|b| **b != b'\'' && **b != b'\n')
        .count()
}

fn line_len(bytes: &[u8]) -> usize
    ensures { result ≡ length (take_while is_line_byte bytes.now) }
{
    bytes.iter().take_while(|b| **b != b'\n').count()
}

/// The letters, digits and underscores in front, and what stands behind them.
#[tactic(auto, using(crate::proofs::Runs::length_take_while))]
pub fn split_name(bytes: &[u8]) -> (&[u8], &[u8])
    ensures front { result.0.now ≡ take_while is_name_byte bytes.now }
    ensures rest { result.1.now ≡ behind is_name_byte bytes.now }
{
    bytes.split_at(name_len(bytes))
}

/// The digits in front, and what stands behind them.
#[tactic(auto, using(crate::proofs::Runs::length_take_while))]
pub fn split_digits(bytes: &[u8]) -> (&[u8], &[u8])
    ensures front { result.0.now ≡ take_while is_digit bytes.now }
    ensures rest { result.1.now ≡ behind is_digit bytes.now }
{
    bytes.split_at(digits_len(bytes))
}

/// The octal digits in front, three at most, and what stands behind them.
pub fn split_octal(bytes: &[u8]) -> (&[u8], &[u8])
    ensures front { result.0.now ≡ octal_front bytes.now }
    ensures rest { result.1.now ≡ drop (length (octal_front bytes.now)) bytes.now }
{
    bytes.split_at(octal_len(bytes))
}

/// The bytes in front that a literal may hold, and what stands behind them.
#[tactic(auto, using(crate::proofs::Runs::length_take_while))]
pub fn split_literal(bytes: &[u8]) -> (&[u8], &[u8])
    ensures front { result.0.now ≡ take_while is_literal_byte bytes.now }
    ensures rest { result.1.now ≡ behind is_literal_byte bytes.now }
{
    bytes.split_at(literal_len(bytes))
}

/// What stands behind the rest of the line.
#[tactic(auto, using(crate::proofs::Runs::length_take_while))]
pub fn line_end(bytes: &[u8]) -> &[u8]
    ensures { result.now ≡ behind is_line_byte bytes.now }
{
    &bytes[line_len(bytes)..]
}
