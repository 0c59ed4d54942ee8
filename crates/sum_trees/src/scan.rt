//! The parts of a tree's text.
ghost use Rattle.std.specs.Prelude.{◌≡◌, ◌≤◌, ◌<◌, ℕ, List, ◌∷◌, length, take_while, IsTrue};
ghost use Rattle.std.specs.List.{prefix_len};
ghost use Rattle.sum_trees.specs.Bytes.{is_white, is_digit, is_letter, is_name_byte, behind, first_is};

/// A space, a tab, a carriage return or a line feed.
pub fn is_white(b: u8) -> bool
    ensures { result ≡ is_white b }
{
    b == b' ' || (b == b'\t' || (b == b'\r' || b == b'\n'))
}

/// A decimal digit.
pub fn is_digit(b: u8) -> bool
    ensures { result ≡ is_digit b }
{
    b >= b'0' && b <= b'9'
}

/// A letter or an underscore.
pub fn is_letter(b: u8) -> bool
    ensures { result ≡ is_letter b }
{
    (b >= b'A' && b <= b'Z') || ((b >= b'a' && b <= b'z') || b == b'_')
}

#[tactic(auto, using(std::proofs::lemmas::List::Sums::prefix_len_is))]
fn white_len(bytes: &[u8]) -> usize
    ensures bound { result ≤ length bytes.now }
    ensures front { result ≡ prefix_len is_white bytes.now }
{
    for (i, b) in bytes.iter().enumerate() {
        if !is_white(*b) {
            return i;
        }
    }
    bytes.len()
}

#[tactic(auto, using(std::proofs::lemmas::List::Sums::prefix_len_is))]
fn name_len(bytes: &[u8]) -> usize
    ensures bound { result ≤ length bytes.now }
    ensures front { result ≡ prefix_len is_name_byte bytes.now }
{
    for (i, b) in bytes.iter().enumerate() {
        if !is_letter(*b) && !is_digit(*b) {
            return i;
        }
    }
    bytes.len()
}

#[tactic(auto, using(std::proofs::lemmas::List::Sums::prefix_len_is))]
fn digits_len(bytes: &[u8]) -> usize
    ensures bound { result ≤ length bytes.now }
    ensures front { result ≡ prefix_len is_digit bytes.now }
{
    for (i, b) in bytes.iter().enumerate() {
        if !is_digit(*b) {
            return i;
        }
    }
    bytes.len()
}

/// What stands behind the white space in front.
pub fn skip_white(bytes: &[u8]) -> &[u8]
    ensures { result.now ≡ behind is_white bytes.now }
{
    &bytes[white_len(bytes)..]
}

/// The name in front, which may be empty, and what stands behind it.
pub fn name_front(bytes: &[u8]) -> (&[u8], &[u8])
    ensures name { result.0.now ≡ take_while is_name_byte bytes.now }
    ensures rest { result.1.now ≡ behind is_name_byte bytes.now }
{
    bytes.split_at(name_len(bytes))
}

/// The digits in front, and what stands behind them.
pub fn digits_front(bytes: &[u8]) -> (&[u8], &[u8])
    ensures digits { result.0.now ≡ take_while is_digit bytes.now }
    ensures rest { result.1.now ≡ behind is_digit bytes.now }
{
    bytes.split_at(digits_len(bytes))
}
