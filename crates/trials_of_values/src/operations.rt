// What the operations give at their edges.
ghost use Rattle.std.specs.Prelude.{◌≡◌, ◌≢◌, ◌+◌, ◌-◌, ◌^◌, ◌++◌, if◌then◌else◌, flat_map, Contains, [], ◌∷◌, ℕ, pos};
ghost use Rattle.std.specs.Prelude.{negsuc, true, false, codes, length, List, None, All};
ghost use Rattle.lido_base.specs.Operations.{operate, argument, pattern_bytes, piece_bytes, chosen, last, unless_bad, kept};
ghost use Rattle.lido_base.specs.Plain.{Plain, Int, Truth, Str, Text, Void, Bad, fault_of};
ghost use Rattle.lido_base.specs.declared.operation.Op.{Op as Operation};
ghost use Rattle.lido_base.specs.declared.operation.Op.TheVariants as op;
ghost use Rattle.lido_base.specs.declared.pattern.Part.{Part};
ghost use Rattle.lido_base.specs.declared.pattern.PartPiece.TheVariants.{Arg};
ghost use Rattle.lido_base.specs.declared.pattern.Pattern.{Pattern};
ghost use Rattle.lido_base.specs.declared.value.Origin.{Origin};
ghost use Rattle.lido_base.specs.declared.value.BadKind.TheVariants.{Overflow, DivideByZero, TextTooLong};
ghost use Rattle.lido_base.specs.declared.value.ValueType.TheVariants as kind;
ghost use Rattle.trials_of_values.specs.Samples.{gives, fails, earlier, least, greatest, spaced, without_texts};
ghost use Rattle.trials_of_values.specs.Samples.{two_texts, skipping, of_string};

/// Division truncates towards zero, and `%` has the dividend's sign.
pub fn division()
    ensures quotient { gives [] op.Div (Int (pos 7) ∷ Int (pos 2) ∷ []) ≡ Int (pos 3) }
    ensures dividend_below_zero { gives [] op.Div (Int (negsuc 6) ∷ Int (pos 2) ∷ []) ≡ Int (negsuc 2) }
    ensures divisor_below_zero { gives [] op.Div (Int (pos 7) ∷ Int (negsuc 1) ∷ []) ≡ Int (negsuc 2) }
    ensures both_below_zero { gives [] op.Div (Int (negsuc 6) ∷ Int (negsuc 1) ∷ []) ≡ Int (pos 3) }
    ensures remainder { gives [] op.Mod (Int (pos 7) ∷ Int (pos 2) ∷ []) ≡ Int (pos 1) }
    ensures remainder_below_zero { gives [] op.Mod (Int (negsuc 6) ∷ Int (pos 2) ∷ []) ≡ Int (negsuc 0) }
    ensures remainder_by_below_zero { gives [] op.Mod (Int (pos 7) ∷ Int (negsuc 1) ∷ []) ≡ Int (pos 1) }
    ensures remainder_of_both { gives [] op.Mod (Int (negsuc 6) ∷ Int (negsuc 1) ∷ []) ≡ Int (negsuc 0) }
    ensures by_zero { gives [] op.Div (Int (pos 1) ∷ Int (pos 0) ∷ []) ≡ fails DivideByZero }
    ensures zero_by_zero { gives [] op.Div (Int (pos 0) ∷ Int (pos 0) ∷ []) ≡ fails DivideByZero }
    ensures remainder_by_zero { gives [] op.Mod (Int least ∷ Int (pos 0) ∷ []) ≡ fails DivideByZero }
{}

/// A result outside 64 bits with a sign is Overflow, and the least int has no negation; the least ints themselves pass.
pub fn arithmetic_at_its_edges()
    ensures least_by_minus_one { gives [] op.Div (Int least ∷ Int (negsuc 0) ∷ []) ≡ fails Overflow }
    ensures least_rem_minus_one { gives [] op.Mod (Int least ∷ Int (negsuc 0) ∷ []) ≡ Int (pos 0) }
    ensures negated_least { gives [] op.Neg (Int least ∷ []) ≡ fails Overflow }
    ensures negated_greatest { gives [] op.Neg (Int greatest ∷ []) ≡ Int (negsuc (2 ^ 63 - 2)) }
    ensures sum { gives [] op.Add (Int greatest ∷ Int (pos 1) ∷ []) ≡ fails Overflow }
    ensures sum_that_fits { gives [] op.Add (Int least ∷ Int greatest ∷ []) ≡ Int (negsuc 0) }
    ensures difference { gives [] op.Sub (Int least ∷ Int (pos 1) ∷ []) ≡ fails Overflow }
    ensures difference_that_fits { gives [] op.Sub (Int (pos 0) ∷ Int greatest ∷ []) ≡ Int (negsuc (2 ^ 63 - 2)) }
    ensures product { gives [] op.Mul (Int (pos (2 ^ 32)) ∷ Int (pos (2 ^ 31)) ∷ []) ≡ fails Overflow }
    ensures product_that_fits { gives [] op.Mul (Int (pos (2 ^ 32)) ∷ Int (negsuc (2 ^ 31 - 1)) ∷ []) ≡ Int least }
    ensures least_stays { gives [] op.Add (Int least ∷ Int (pos 0) ∷ []) ≡ Int least }
{}

/// The first Bad argument is the result of every operation; `&&` and `||` evaluate both arguments, and a pattern also the
/// ones that it does not print.
pub fn bad_arguments()
    ensures first { (texts : List (List ℕ)) (patterns : List Pattern) (o : Operation) (before after : List Plain) (bad : Origin)
        → All (λ v. fault_of v ≡ None) before
        → operate texts patterns fails o (before ++ Bad bad ∷ after) ≡ Bad bad }
    ensures and { gives [] op.And (Truth false ∷ Bad (earlier Overflow) ∷ []) ≡ Bad (earlier Overflow) }
    ensures or { gives [] op.Or (Truth true ∷ Bad (earlier Overflow) ∷ []) ≡ Bad (earlier Overflow) }
    ensures of_two { gives [] op.Add (Bad (earlier DivideByZero) ∷ Bad (earlier Overflow) ∷ []) ≡ Bad (earlier DivideByZero) }
    ensures before_its_own { gives [] op.Div (Bad (earlier Overflow) ∷ Int (pos 0) ∷ []) ≡ Bad (earlier Overflow) }
    ensures one { gives [] op.ArgToOne (Bad (earlier Overflow) ∷ []) ≡ Bad (earlier Overflow) }
    ensures skipped { gives (skipping ∷ []) (op.Pattern 0) (Bad (earlier Overflow) ∷ Int (pos 5) ∷ Text [] ∷ Text [] ∷ [])
        ≡ Bad (earlier Overflow) }
{}

/// Strings are compared by their bytes, ints by their order.
pub fn comparisons()
    ensures equal { gives [] op.Eq (Str (codes "ab") ∷ Str (codes "ab") ∷ []) ≡ Truth true }
    ensures longer { gives [] op.Eq (Str (codes "ab") ∷ Str (codes "abc") ∷ []) ≡ Truth false }
    ensures differs { gives [] op.Ne (Str (codes "ab") ∷ Str (codes "ac") ∷ []) ≡ Truth true }
    ensures ints { gives [] op.Ne (Int least ∷ Int least ∷ []) ≡ Truth false }
    ensures bools { gives [] op.Eq (Truth false ∷ Truth false ∷ []) ≡ Truth true }
    ensures other_bools { gives [] op.Ne (Truth false ∷ Truth false ∷ []) ≡ Truth false }
    ensures less { gives [] op.Lt (Int least ∷ Int (pos 0) ∷ []) ≡ Truth true }
    ensures not_less { gives [] op.Lt (Int (pos 3) ∷ Int (pos 3) ∷ []) ≡ Truth false }
    ensures at_most { gives [] op.Le (Int (pos 3) ∷ Int (pos 3) ∷ []) ≡ Truth true }
    ensures greater { gives [] op.Gt (Int (pos 0) ∷ Int (negsuc 0) ∷ []) ≡ Truth true }
    ensures at_least { gives [] op.Ge (Int (negsuc 1) ∷ Int (negsuc 0) ∷ []) ≡ Truth false }
{}

/// The functions of LIDO and PTG that are no operators.
pub fn plain_functions()
    ensures identical { gives [] op.Identical (Text (codes "x") ∷ []) ≡ Text (codes "x") }
    ensures zero { gives [] op.Zero [] ≡ Int (pos 0) }
    ensures one { gives [] op.One [] ≡ Int (pos 1) }
    ensures arg_to_one { gives [] op.ArgToOne (Void ∷ []) ≡ Int (pos 1) }
    ensures null { gives [] op.Null [] ≡ Text [] }
    ensures number { gives [] op.Numb (Int (pos 120) ∷ []) ≡ Text (codes "120") }
    ensures number_below_zero { gives [] op.Numb (Int (negsuc 4) ∷ []) ≡ Text (codes "-5") }
    ensures least_number { gives [] op.Numb (Int least ∷ []) ≡ Text (codes "-9223372036854775808") }
    ensures as_it_is { gives [] op.AsIs (Str (codes "a b") ∷ []) ≡ Text (codes "a b") }
    ensures in_a_row { gives [] op.Seq (Text (codes "a") ∷ Text (codes "b") ∷ []) ≡ Text (codes "ab") }
    ensures negated { gives [] op.Not (Truth false ∷ []) ≡ Truth true }
    ensures both { gives [] op.And (Truth true ∷ Truth false ∷ []) ≡ Truth false }
    ensures either { gives [] op.Or (Truth false ∷ Truth true ∷ []) ≡ Truth true }
{}

/// A text may have 2^30 bytes and no more.
pub fn text_lengths()
    ensures longest { (bytes : List ℕ) → length bytes ≡ 2 ^ 30 → gives [] op.AsIs (Str bytes ∷ []) ≡ Text bytes }
    ensures one_more { (bytes : List ℕ) → length bytes ≡ 2 ^ 30 + 1 → gives [] op.AsIs (Str bytes ∷ []) ≡ fails TextTooLong }
    ensures in_a_row { (front back : List ℕ) → length front + length back ≡ 2 ^ 30
        → gives [] op.Seq (Text front ∷ Text back ∷ []) ≡ Text (front ++ back) }
    ensures one_more_in_a_row { (front back : List ℕ) → length front + length back ≡ 2 ^ 30 + 1
        → gives [] op.Seq (Text front ∷ Text back ∷ []) ≡ fails TextTooLong }
    ensures of_a_pattern { (bytes : List ℕ) → length bytes ≡ 2 ^ 30
        → gives (two_texts ∷ []) (op.Pattern 0) (Text [] ∷ Text bytes ∷ []) ≡ Text bytes }
    ensures one_more_of_a_pattern { (bytes : List ℕ) → length bytes ≡ 2 ^ 30 + 1
        → gives (two_texts ∷ []) (op.Pattern 0) (Text [] ∷ Text bytes ∷ []) ≡ fails TextTooLong }
{}

/// A part in braces is printed exactly where every inserted text of its pattern has a byte, and always where the pattern
/// inserts no text. Strings and numbers are no texts, and an argument that is skipped is no insertion.
pub fn braces()
    ensures filled { gives (spaced ∷ []) (op.Pattern 0) (Int (pos 1) ∷ Text (codes "2") ∷ []) ≡ Text (codes "1 2") }
    ensures empty { gives (spaced ∷ []) (op.Pattern 0) (Int (pos 3) ∷ Text [] ∷ []) ≡ Text (codes "3") }
    ensures no_text { gives (without_texts ∷ []) (op.Pattern 0) (Int (pos 5) ∷ []) ≡ Text (codes "<5>") }
    ensures both_filled { gives (two_texts ∷ []) (op.Pattern 0) (Text (codes "a") ∷ Text (codes "b") ∷ []) ≡ Text (codes "<ab>") }
    ensures outside_empty { gives (two_texts ∷ []) (op.Pattern 0) (Text (codes "a") ∷ Text [] ∷ []) ≡ Text [] }
    ensures inside_empty { gives (two_texts ∷ []) (op.Pattern 0) (Text [] ∷ Text (codes "b") ∷ []) ≡ Text (codes "b") }
    ensures skipped { gives (skipping ∷ []) (op.Pattern 0) (Text [] ∷ Int (pos 5) ∷ Text [] ∷ Text (codes "a") ∷ []) ≡ Text (codes "<5a") }
    ensures empty_string { gives (of_string ∷ []) (op.Pattern 0) (Str [] ∷ []) ≡ Text (codes "<") }
    ensures second_pattern { gives (spaced ∷ without_texts ∷ []) (op.Pattern 1) (Int (negsuc 0) ∷ []) ≡ Text (codes "<-1>") }
{}

/// Of every pattern: where no inserted text is empty, all its parts are printed; where one is, those without braces.
pub fn braces_of_every_pattern()
    ensures filled { (texts : List (List ℕ)) (pattern : Pattern) (args : List Plain)
        → All (λ (part : Part). (k : ℕ) → part.piece ≡ Arg k → argument args k ≢ Text []) pattern.parts
        → pattern_bytes texts (pattern ∷ []) 0 args ≡ flat_map (λ (part : Part). piece_bytes texts args part.piece) pattern.parts }
    ensures empty { (texts : List (List ℕ)) (pattern : Pattern) (args : List Plain) (part : Part) (k : ℕ)
        → Contains pattern.parts part → part.piece ≡ Arg k → argument args k ≡ Text []
        → pattern_bytes texts (pattern ∷ []) 0 args
        ≡ flat_map (λ (p : Part). if p.brace then [] else piece_bytes texts args p.piece) pattern.parts }
{}

/// A place of type VOID keeps Void or the Bad value; the others keep the value.
pub fn kept_values()
    ensures void { kept kind.Void (Int (pos 5)) ≡ Void }
    ensures bad { kept kind.Void (Bad (earlier Overflow)) ≡ Bad (earlier Overflow) }
    ensures int { kept kind.Int (Int (pos 5)) ≡ Int (pos 5) }
    ensures bad_int { kept kind.Int (Bad (earlier Overflow)) ≡ Bad (earlier Overflow) }
{}

/// `IF(false, 1 / 0, 5)` is 5, `0 - 7 / 2` is -3 and `-7 % 2` is -1. IF looks at the chosen branch alone; ORDER at all.
pub fn worked_expressions()
    ensures if_false { chosen (Truth false ∷ gives [] op.Div (Int (pos 1) ∷ Int (pos 0) ∷ []) ∷ Int (pos 5) ∷ []) ≡ Int (pos 5) }
    ensures if_true { chosen (Truth true ∷ gives [] op.Div (Int (pos 1) ∷ Int (pos 0) ∷ []) ∷ Int (pos 5) ∷ []) ≡ fails DivideByZero }
    ensures if_bad { chosen (Bad (earlier Overflow) ∷ Int (pos 4) ∷ Int (pos 5) ∷ []) ≡ Bad (earlier Overflow) }
    ensures difference { gives [] op.Sub (Int (pos 0) ∷ gives [] op.Div (Int (pos 7) ∷ Int (pos 2) ∷ []) ∷ []) ≡ Int (negsuc 2) }
    ensures remainder { gives [] op.Mod (gives [] op.Neg (Int (pos 7) ∷ []) ∷ Int (pos 2) ∷ []) ≡ Int (negsuc 0) }
    ensures ordered { unless_bad (Truth true ∷ Int (pos 2) ∷ []) (last (Truth true ∷ Int (pos 2) ∷ [])) ≡ Int (pos 2) }
    ensures ordered_bad { unless_bad (Bad (earlier Overflow) ∷ Int (pos 2) ∷ []) (last (Bad (earlier Overflow) ∷ Int (pos 2) ∷ []))
        ≡ Bad (earlier Overflow) }
{}
