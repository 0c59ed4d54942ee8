//! Numbers as decimal text, without memory.
ghost use Rattle.std.specs.Prelude.{◌≡◌, ◌+◌, ◌≤◌, drop, length};
ghost use Rattle.std.specs.Fmt.{decimal, signed_decimal};

use std::marker::Model;

/// The most bytes that a number of 64 bits has.
const LONGEST: usize = 20;

/// The decimal text of a number. Contracts see its bytes.
#[derive(Drop)]
pub struct Decimal {
    buffer: [u8; LONGEST],
    from: usize,
}

impl Model for Decimal {
    ghost use Rattle.std.specs.Prelude.{List, ℕ, drop, ◌≤◌};

    ghost Value = { List ℕ };

    ghost view = { λ d. drop d.from d.buffer };

    ghost invariant = { λ d. d.from ≤ 20 };
}

impl Decimal {
    /// The text of a number without a sign.
    pub fn of(number: u64) -> Decimal
        ensures { result ≡ decimal number }
    {
        let mut buffer = [0u8; LONGEST];
        let from = write_digits(number, &mut buffer);
        Decimal { buffer, from }
    }

    /// The text of a number, with a minus in front where it is below 0.
    pub fn of_signed(number: i64) -> Decimal
        ensures { result ≡ signed_decimal number }
    {
        let mut buffer = [0u8; LONGEST];
        let from = write_digits(number.unsigned_abs(), &mut buffer);
        if number >= 0 {
            return Decimal { buffer, from };
        }
        buffer[from - 1] = b'-';
        Decimal {
            buffer,
            from: from - 1,
        }
    }

    /// The bytes.
    pub fn as_bytes(&self) -> &[u8]
        ensures { result.now ≡ self.now }
    {
        &self.buffer[self.from..]
    }

    /// How many bytes there are.
    pub fn len(&self) -> u32
        ensures { result ≡ length self.now }
    {
        (LONGEST - self.from) as u32
    }
}

/// Writes the digits at the end of the buffer, and says where they begin.
fn write_digits(number: u64, buffer: &mut [u8; LONGEST]) -> usize
    ensures written { drop result buffer.new ≡ decimal number }
    ensures start { result + length (decimal number) ≡ 20 }
{
    let mut left = number;
    let mut at = LONGEST;
    while left >= 10 {
        at -= 1;
        buffer[at] = b'0' + (left % 10) as u8;
        left /= 10;
    }
    at -= 1;
    buffer[at] = b'0' + left as u8;
    at
}
