//! Laws of the grammar of tokens. Each function does nothing; what is proved is its contract.
ghost use Rattle.std.specs.Prelude.{◌≡◌, ◌≤◌, ◌++◌, ◌∷◌, List, ℕ, Some, length, map, All, Option, Result};
ghost use Rattle.lido_base.specs.Texts.{IsDistinctTexts};
ghost use Rattle.lido_lexer.specs.declared.keyword.Keyword.{Keyword};
ghost use Rattle.lido_lexer.specs.declared.sign.Sign.{Sign};
ghost use Rattle.lido_lexer.specs.declared.token.LexFault.{LexFault};
ghost use Rattle.lido_lexer.specs.declared.token.Token.{Token};
ghost use Rattle.lido_lexer.specs.Gaps.{IsGap};
ghost use Rattle.lido_lexer.specs.Keywords.{keyword_spelling, keyword_of};
ghost use Rattle.lido_lexer.specs.Signs.{sign_spelling, sign_of};
ghost use Rattle.lido_lexer.specs.Tokens.{Shown, IsFront};
ghost use Rattle.lido_lexer.specs.Lexing.{Placed, HasText, Lexes, IsCutInto, IsStuck, Lexing, shown_in};
ghost use Rattle.lido_lexer.specs.Tables.{LexedFrom};

/// A text has one list of tokens at most, or is stuck at one place at most, and never both.
pub fn one_answer()
    ensures { (text : List ℕ) (first second : Result (List Placed) LexFault)
        → Lexing text first → Lexing text second → first ≡ second }
{}

/// Behind a table of distinct texts, a text has one later table and one list of tokens at most, or is stuck at one place at most, and
/// never both.
pub fn one_table_and_tokens()
    ensures { (texts : List (List ℕ)) (text : List ℕ) → IsDistinctTexts texts
        → (first second : Result (List (List ℕ) × List Token) LexFault)
        → LexedFrom texts text first → LexedFrom texts text second → first ≡ second }
{}

/// The tokens in front of a text are settled, and the place where no more can be formed, if there is one.
pub fn one_cut()
    ensures { (text : List ℕ) (first second : List Placed) (stuck other : Option ℕ)
        → IsCutInto (length text) text first stuck → IsCutInto (length text) text second other → (first ≡ second) × (stuck ≡ other) }
{}

/// Over one table of distinct texts, tokens that show the same are the same.
pub fn tokens_are_told_apart()
    ensures { (texts : List (List ℕ)) (tokens others : List Token) → IsDistinctTexts texts
        → All (λ token. HasText (length texts) token.what) tokens → All (λ token. HasText (length texts) token.what) others
        → map (shown_in texts) tokens ≡ map (shown_in texts) others → tokens ≡ others }
{}

/// What is in front is settled: one token at most, one piece between tokens at most, and never both.
pub fn one_front()
    ensures token { (bytes rest other : List ℕ) (first second : Shown)
        → IsFront bytes first rest → IsFront bytes second other → (first ≡ second) × (rest ≡ other) }
    ensures gap { (bytes rest other : List ℕ) → IsGap bytes rest → IsGap bytes other → rest ≡ other }
    ensures apart { (bytes rest other : List ℕ) (shown : Shown) → IsGap bytes rest → IsFront bytes shown other → ⊥ }
{}

/// Each keyword and each sign is read from its own bytes.
pub fn spellings_read_back()
    ensures keyword { (keyword : Keyword) → keyword_of (keyword_spelling keyword) ≡ Some keyword }
    ensures sign { (sign : Sign) → sign_of (sign_spelling sign) ≡ Some sign }
{}

/// No sign in front is longer than the one that is taken.
pub fn longest_sign_is_taken()
    ensures { (bytes rest : List ℕ) (taken other : Sign)
        → sign_of bytes ≡ Some taken → bytes ≡ sign_spelling other ++ rest
        → length (sign_spelling other) ≤ length (sign_spelling taken) }
{}
