//! Laws about the definitions. Each function does nothing; what is proved is its contract.
ghost use Rattle.std.specs.Prelude.{◌≡◌, List, ℕ, All, AllPairs, Result};
ghost use Rattle.lido_base.specs.Texts.{IsDistinctTexts};
ghost use Rattle.lido_lexer.specs.declared.token.Token.{Token};
ghost use Rattle.lido_computations.specs.declared.fault.ReadSpecFault.{ReadSpecFault};
ghost use Rattle.lido_computations.specs.Functions.{HasAll};
ghost use Rattle.lido_reader.specs.Added.{rule_names};
ghost use Rattle.lido_reader.specs.Known.{HasKnownId, HasKnownIds, HasWordsOf, IsWordOf};
ghost use Rattle.lido_reader.specs.Numbers.{AreApart, IsEarlier, all_includings, all_numbers};
ghost use Rattle.lido_reader.specs.Specification.{IsReading, IsSpecOf};
ghost use Rattle.lido_syntax.specs.declared.spec.Name.{Name};
ghost use Rattle.lido_syntax.specs.declared.spec.Spec.{Spec};

/// Tokens are one specification at most, if no text stands twice in the table.
pub fn one_specification()
    ensures { (texts : List (List ℕ)) → IsDistinctTexts texts → (tokens : List Token) (first second : Spec)
        → IsSpecOf texts tokens first → IsSpecOf texts tokens second → first ≡ second }
{}

/// Tokens whose text ends here are one specification at most, or have one fault, and never both, if no text stands twice in the table.
pub fn one_reading()
    ensures { (texts : List (List ℕ)) → IsDistinctTexts texts
        → (tokens : List Token) (text_end : ℕ) (first second : Result Spec ReadSpecFault)
        → IsReading texts tokens text_end first → IsReading texts tokens text_end second → first ≡ second }
{}

/// Where each token begins behind those before it, no two of a specification's computations and CONSTITUENTS have the same number,
/// and the one with the smaller number stands in front.
pub fn numbers_tell_places()
    ensures { (texts : List (List ℕ)) (tokens : List Token) (spec : Spec)
        → AllPairs IsEarlier tokens → IsSpecOf texts tokens spec → AllPairs AreApart (all_numbers spec) }
{}

/// Where each token begins behind those before it, no two INCLUDINGs of a specification have the same place.
pub fn includings_tell_places()
    ensures { (texts : List (List ℕ)) (tokens : List Token) (spec : Spec)
        → AllPairs IsEarlier tokens → IsSpecOf texts tokens spec → AllPairs (λ x y. x ≡ y → ⊥) (all_includings spec) }
{}

/// Where the ids of the tokens and the names of the rules that have none are those of a table of texts, so are all ids of a
/// specification; an item is about at least one symbol, a remote list has a pair and a LISTOF an element.
pub fn ids_are_known()
    ensures { (texts : List (List ℕ)) (tokens : List Token) (spec : Spec)
        → All (HasKnownId texts) tokens → HasAll (rule_names 1 tokens) texts → IsSpecOf texts tokens spec → HasKnownIds texts spec }
{}

/// All names of a specification but those of functions and rules are words of its tokens, at their places.
pub fn names_are_words()
    ensures { (texts : List (List ℕ)) (tokens : List Token) (spec : Spec) → IsSpecOf texts tokens spec → HasWordsOf tokens spec }
{}

/// Where each token begins behind those before it, words at one place are one name: different names have different places.
pub fn places_tell_names()
    ensures { (tokens : List Token) (one other : Name)
        → AllPairs IsEarlier tokens → IsWordOf tokens one → IsWordOf tokens other → one.at ≡ other.at → one ≡ other }
{}
