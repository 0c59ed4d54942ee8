//! Keywords.
ghost use Rattle.std.specs.Prelude.{◌≡◌, find};
ghost use Rattle.std.specs.Str.{bytes_eq};
ghost use Rattle.lido_lexer.specs.Keywords.{keyword_spelling, keyword_of};

/// A word that is no name.
#[derive(Clone, Copy, Debug, PartialEq, Eq)]
pub enum Keyword {
    /// `RULE`
    Rule,
    /// `COMPUTE`
    Compute,
    /// `END`
    End,
    /// `LISTOF`
    Listof,
    /// `CLASS`
    Class,
    /// `SYMBOL`
    Symbol,
    /// `INHERITS`
    Inherits,
    /// `ATTR`
    Attr,
    /// `TERM`
    Term,
    /// `CHAIN`
    Chain,
    /// `CHAINSTART`
    Chainstart,
    /// `HEAD`
    Head,
    /// `TAIL`
    Tail,
    /// `INH`
    Inh,
    /// `SYNT`
    Synt,
    /// `THIS`
    This,
    /// `INCLUDING`
    Including,
    /// `CONSTITUENTS`
    Constituents,
    /// `SHIELD`
    Shield,
    /// `WITH`
    With,
    /// `IF`
    If,
    /// `ORDER`
    Order,
    /// `PTGOut`
    PtgOut,
    /// `PTGNULL`
    PtgNull,
    /// `PTGNode`
    PtgNode,
    /// `VOID`
    Void,
    /// `int`
    Int,
    /// `string`
    Str,
    /// `bool`
    Bool,
    /// `true`
    True,
    /// `false`
    False,
}

/// All keywords.
const KEYWORDS: [Keyword; 31] = [
    Keyword::Rule,
    Keyword::Compute,
    Keyword::End,
    Keyword::Listof,
    Keyword::Class,
    Keyword::Symbol,
    Keyword::Inherits,
    Keyword::Attr,
    Keyword::Term,
    Keyword::Chain,
    Keyword::Chainstart,
    Keyword::Head,
    Keyword::Tail,
    Keyword::Inh,
    Keyword::Synt,
    Keyword::This,
    Keyword::Including,
    Keyword::Constituents,
    Keyword::Shield,
    Keyword::With,
    Keyword::If,
    Keyword::Order,
    Keyword::PtgOut,
    Keyword::PtgNull,
    Keyword::PtgNode,
    Keyword::Void,
    Keyword::Int,
    Keyword::Str,
    Keyword::Bool,
    Keyword::True,
    Keyword::False,
];

impl Keyword {
    /// The bytes of the keyword.
    pub fn spelling(self) -> &'static [u8]
        ensures { result.now ≡ keyword_spelling self }
    {
        match self {
            Keyword::Rule => b"RULE",
            Keyword::Compute => b"COMPUTE",
            Keyword::End => b"END",
            Keyword::Listof => b"LISTOF",
            Keyword::Class => b"CLASS",
            Keyword::Symbol => b"SYMBOL",
            Keyword::Inherits => b"INHERITS",
            Keyword::Attr => b"ATTR",
            Keyword::Term => b"TERM",
            Keyword::Chain => b"CHAIN",
            Keyword::Chainstart => b"CHAINSTART",
            Keyword::Head => b"HEAD",
            Keyword::Tail => b"TAIL",
            Keyword::Inh => b"INH",
            Keyword::Synt => b"SYNT",
            Keyword::This => b"THIS",
            Keyword::Including => b"INCLUDING",
            Keyword::Constituents => b"CONSTITUENTS",
            Keyword::Shield => b"SHIELD",
            Keyword::With => b"WITH",
            Keyword::If => b"IF",
            Keyword::Order => b"ORDER",
            Keyword::PtgOut => b"PTGOut",
            Keyword::PtgNull => b"PTGNULL",
            Keyword::PtgNode => b"PTGNode",
            Keyword::Void => b"VOID",
            Keyword::Int => b"int",
            Keyword::Str => b"string",
            Keyword::Bool => b"bool",
            Keyword::True => b"true",
            Keyword::False => b"false",
        }
    }

    /// The name is this keyword.
    fn spells(self, name: &[u8]) -> bool
        ensures { result ≡ bytes_eq name.now (keyword_spelling self) }
    {
        name == self.spelling()
    }
}

/// The first of these keywords that the name is.
fn first_spelled(keywords: &[Keyword], name: &[u8]) -> Option<Keyword>
    ensures { result ≡ find (λ keyword. bytes_eq name.now (keyword_spelling keyword)) keywords.now }
{
    keywords
        .iter()
        .copied()
        .find(|keyword| keyword.spells(name))
}

/// The keyword that a name is, if it is one.
#[tactic(auto, unfolding(crate::specs::Keywords::keyword_of))]
pub fn keyword_of(name: &[u8]) -> Option<Keyword>
    ensures { result ≡ keyword_of name.now }
{
    first_spelled(&KEYWORDS, name)
}
