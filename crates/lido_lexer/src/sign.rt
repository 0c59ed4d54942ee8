//! Signs.
ghost use Rattle.std.specs.Prelude.{◌≡◌, ◌<◌, List, ℕ, nat_eq, length, find, IfSome, IfNone};
ghost use Rattle.std.specs.List.{starts_with};
ghost use Rattle.lido_lexer.specs.declared.sign.Sign.{Sign as Signs};
ghost use Rattle.lido_lexer.specs.Signs.{sign_spelling, sign_of, begins_comment, IsSign};

/// A token of one, two or three bytes that are neither letters, digits, quotes nor white space.
#[derive(Clone, Copy, Debug, PartialEq, Eq)]
pub enum Sign {
    /// `::=`
    Produces,
    /// `<-`
    Arrow,
    /// `&&`
    AndAnd,
    /// `||`
    OrOr,
    /// `==`
    EqEq,
    /// `!=`
    NotEq,
    /// `<=`
    LessEq,
    /// `>=`
    GreaterEq,
    /// `:`
    Colon,
    /// `;`
    Semicolon,
    /// `,`
    Comma,
    /// `.`
    Dot,
    /// `(`
    ParenOpen,
    /// `)`
    ParenClose,
    /// `[`
    BracketOpen,
    /// `]`
    BracketClose,
    /// `{`
    BraceOpen,
    /// `}`
    BraceClose,
    /// `=`
    Equal,
    /// `+`
    Plus,
    /// `-`
    Minus,
    /// `*`
    Star,
    /// `/`
    Slash,
    /// `%`
    Percent,
    /// `!`
    Bang,
    /// `<`
    Less,
    /// `>`
    Greater,
    /// `|`
    Bar,
    /// `$`
    Dollar,
}

/// All signs, the longest first.
const SIGNS: [Sign; 29] = [
    Sign::Produces,
    Sign::Arrow,
    Sign::AndAnd,
    Sign::OrOr,
    Sign::EqEq,
    Sign::NotEq,
    Sign::LessEq,
    Sign::GreaterEq,
    Sign::Colon,
    Sign::Semicolon,
    Sign::Comma,
    Sign::Dot,
    Sign::ParenOpen,
    Sign::ParenClose,
    Sign::BracketOpen,
    Sign::BracketClose,
    Sign::BraceOpen,
    Sign::BraceClose,
    Sign::Equal,
    Sign::Plus,
    Sign::Minus,
    Sign::Star,
    Sign::Slash,
    Sign::Percent,
    Sign::Bang,
    Sign::Less,
    Sign::Greater,
    Sign::Bar,
    Sign::Dollar,
];

impl Sign {
    /// The bytes of the sign.
    pub fn spelling(self) -> &'static [u8]
        ensures bytes { result.now ≡ sign_spelling self }
        ensures some { 0 < length result.now }
    {
        match self {
            Sign::Produces => b"::=",
            Sign::Arrow => b"<-",
            Sign::AndAnd => b"&&",
            Sign::OrOr => b"||",
            Sign::EqEq => b"==",
            Sign::NotEq => b"!=",
            Sign::LessEq => b"<=",
            Sign::GreaterEq => b">=",
            Sign::Colon => b":",
            Sign::Semicolon => b";",
            Sign::Comma => b",",
            Sign::Dot => b".",
            Sign::ParenOpen => b"(",
            Sign::ParenClose => b")",
            Sign::BracketOpen => b"[",
            Sign::BracketClose => b"]",
            Sign::BraceOpen => b"{",
            Sign::BraceClose => b"}",
            Sign::Equal => b"=",
            Sign::Plus => b"+",
            Sign::Minus => b"-",
            Sign::Star => b"*",
            Sign::Slash => b"/",
            Sign::Percent => b"%",
            Sign::Bang => b"!",
            Sign::Less => b"<",
            Sign::Greater => b">",
            Sign::Bar => b"|",
            Sign::Dollar => b"$",
        }
    }

    /// The sign is in front.
    fn begins(self, bytes: &[u8]) -> bool
        ensures { result ≡ starts_with nat_eq bytes.now (sign_spelling self) }
    {
        bytes.starts_with(self.spelling())
    }
}

/// The first of these signs that stands in front.
fn first_in_front(signs: &[Sign], bytes: &[u8]) -> Option<Sign>
    ensures { result ≡ find (λ sign. starts_with nat_eq bytes.now (sign_spelling sign)) signs.now }
{
    signs.iter().copied().find(|sign| sign.begins(bytes))
}

/// The longest sign in front.
#[tactic(auto, unfolding(crate::specs::Signs::sign_of))]
fn longest_sign(bytes: &[u8]) -> Option<Sign>
    ensures { result ≡ sign_of bytes.now }
{
    first_in_front(&SIGNS, bytes)
}

/// A comment begins in front.
fn begins_comment(bytes: &[u8]) -> bool
    ensures { result ≡ begins_comment bytes.now }
{
    bytes.starts_with(b"/*") || bytes.starts_with(b"//")
}

/// The sign in front, and what stands behind it.
pub fn sign_front(bytes: &[u8]) -> Option<(Sign, &[u8])>
    ensures some { IfSome result (λ x. IsSign bytes.now x.0 x.1.now) }
    ensures shorter { IfSome result (λ x. length x.1.now < length bytes.now) }
    ensures none { IfNone result ((sign : Signs) (rest : List ℕ) → IsSign bytes.now sign rest → ⊥) }
{
    if begins_comment(bytes) {
        return None;
    }
    match longest_sign(bytes) {
        Some(sign) => Some((sign, &bytes[sign.spelling().len()..])),
        None => None,
    }
}
