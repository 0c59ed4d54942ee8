//! Laws of specifications that were read from texts.
ghost use Rattle.std.specs.Prelude.{◌+◌, ◌<◌, ◌≤◌, ◌^◌, List, ℕ, length, All, AllPairs};
ghost use Rattle.lido_base.specs.Texts.{interned};
ghost use Rattle.lido_computations.specs.Functions.{HasAll};
ghost use Rattle.lido_lexer.specs.declared.token.Token.{Token};
ghost use Rattle.lido_lexer.specs.Lexing.{HasText, IsInOrder};
ghost use Rattle.lido_reader.specs.Added.{rule_names};
ghost use Rattle.lido_reader.specs.Known.{HasKnownId};
ghost use Rattle.lido_reader.specs.Numbers.{IsEarlier};
ghost use Rattle.lido_reader.specs.Specification.{IsSpecOf};
ghost use Rattle.lido_symbols.specs.FromText.{IsFromText};
ghost use Rattle.rule_tables.specs.RuleNames.{HasIds};
ghost use Rattle.lido_syntax.specs.declared.spec.Spec.{Spec};

/// Tokens that stand one behind the other between two places, none of them empty, begin each behind those before it, and are no more
/// than the bytes there. Ids below the number of texts stay so where texts are added.
pub fn tokens_of_a_text()
    ensures earlier { (from to : ℕ) (tokens : List Token) → IsInOrder from to tokens → AllPairs IsEarlier tokens }
    ensures few { (from to : ℕ) (tokens : List Token) → IsInOrder from to tokens → from + length tokens ≤ to }
    ensures known { (texts : List (List ℕ)) (count : ℕ) (tokens : List Token) → count ≤ length texts
        → All (λ (t : Token). HasText count t.what) tokens → All (HasKnownId texts) tokens }
{}

/// Where each token begins behind those before it, and there are fewer than 2^32, a specification that they derive is one that was read
/// from a text: names, functions, declarations and terminals at one place are one, chains stand one behind the other, numbers and
/// places tell computations, CONSTITUENTS and INCLUDINGs, no list lacks an element that it needs, and there are fewer than 2^32 rules,
/// chains and INCLUDINGs.
pub fn read_specifications()
    ensures { (texts : List (List ℕ)) (tokens : List Token) (spec : Spec)
        → AllPairs IsEarlier tokens → length tokens < 2 ^ 32 → IsSpecOf texts tokens spec → IsFromText spec }
{}

/// Where the ids of the tokens and the names of the rules that have none are those of a table of texts, so are all names of a
/// specification that the tokens derive.
pub fn read_names()
    ensures { (texts : List (List ℕ)) (tokens : List Token) (spec : Spec)
        → All (HasKnownId texts) tokens → HasAll (rule_names 1 tokens) texts → IsSpecOf texts tokens spec → HasIds texts spec }
{}

/// What `lex` and then `read_spec` answer, at the table of texts that they leave, meets what the tables ask: a specification from a text,
/// whose names are ids of these texts.
pub fn what_is_read()
    ensures { (old : List (List ℕ)) (tokens : List Token) (size : ℕ) (spec : Spec)
        → IsInOrder 0 size tokens → size < 2 ^ 32 → All (λ (t : Token). HasText (length old) t.what) tokens
        → IsSpecOf (interned old (rule_names 1 tokens)) tokens spec
        → IsFromText spec × HasIds (interned old (rule_names 1 tokens)) spec }
{}
