//! The forms that the words of a command line have.
ghost use Rattle.std.specs.Prelude.{◌≡◌, ◌<◌, IsTrue, map, string_bytes};
ghost use Rattle.std.specs.Char.{is_ascii_digit};
ghost use Rattle.std.specs.List.{list_all, list_any};
ghost use Rattle.std.specs.Str.Parse.{digits_value};
ghost use Rattle.lido_base.specs.Bytes.{is_letter, is_name_byte};
ghost use Rattle.job_text.specs.Forms.{verb_of, first_verb, key, is_number, is_identifier, is_value, has_form, number_of, most_of, is_outside, is_repeatable, is_needed};

/// What the first word asks for.
#[derive(Clone, Copy, Debug, PartialEq, Eq)]
pub enum Verb {
    Check,
    Order,
    Run,
    Big,
}

/// The forms of words.
#[derive(Clone, Copy, Debug, PartialEq, Eq)]
pub enum Form {
    /// One of the four first words.
    First,
    /// A number alone: how many blocks.
    Count,
    /// `workers=N`
    Workers,
    /// `split=SYM`
    Split,
    /// `min=N`
    Min,
    /// `patience=N`
    Patience,
}

/// The verb that the word is.
#[tactic(auto, unfolding(crate::specs::Forms::verb_of))]
pub fn verb_of(word: &[u8]) -> Option<Verb>
    ensures { result ≡ verb_of word.now }
{
    match word {
        b"check" => Some(Verb::Check),
        b"order" => Some(Verb::Order),
        b"run" => Some(Verb::Run),
        b"big" => Some(Verb::Big),
        _ => None,
    }
}

/// The verb of a command line.
pub fn first_verb(words: &[String]) -> Option<Verb>
    ensures { result ≡ first_verb (map string_bytes words.now) }
{
    match words {
        [first, ..] => verb_of(first.as_bytes()),
        [] => None,
    }
}

/// What a word of the form begins with.
fn key(form: Form) -> &'static [u8]
    ensures { result.now ≡ key form }
{
    match form {
        Form::First | Form::Count => b"",
        Form::Workers => b"workers=",
        Form::Split => b"split=",
        Form::Min => b"min=",
        Form::Patience => b"patience=",
    }
}

fn all_digits(bytes: &[u8]) -> bool
    ensures { result ≡ list_all is_ascii_digit bytes.now }
{
    bytes.iter().all(|b| b.is_ascii_digit())
}

#[tactic(auto, unfolding(crate::specs::Forms::is_number))]
fn is_number(value: &[u8]) -> bool
    ensures { result ≡ is_number value.now }
{
    !value.is_empty() && value.len() <= 10 && all_digits(value)
}

fn is_letter(byte: u8) -> bool
    ensures { result ≡ is_letter byte }
{
    byte.is_ascii_alphabetic() || byte == b'_'
}

fn is_name_byte(byte: u8) -> bool
    ensures { result ≡ is_name_byte byte }
{
    is_letter(byte) || byte.is_ascii_digit()
}

fn all_name_bytes(bytes: &[u8]) -> bool
    ensures { result ≡ list_all is_name_byte bytes.now }
{
    bytes.iter().all(|b| is_name_byte(*b))
}

#[tactic(auto, unfolding(crate::specs::Forms::is_identifier))]
fn is_identifier(value: &[u8]) -> bool
    ensures { result ≡ is_identifier value.now }
{
    match value {
        [first, others @ ..] => is_letter(*first) && all_name_bytes(others),
        [] => false,
    }
}

/// Whether this may stand behind the form's key.
fn is_value(form: Form, value: &[u8]) -> bool
    ensures { result ≡ is_value form value.now }
{
    match form {
        Form::First => verb_of(value).is_some(),
        Form::Split => is_identifier(value),
        Form::Count | Form::Workers | Form::Min | Form::Patience => is_number(value),
    }
}

/// Whether the word has the form.
#[tactic(auto, unfolding(crate::specs::Forms::has_form))]
pub fn has_form(form: Form, word: &[u8]) -> bool
    ensures { result ≡ has_form form word.now }
{
    let key = key(form);
    word.starts_with(key) && is_value(form, &word[key.len()..])
}

/// Whether one of the words has the form.
pub fn any_has_form(form: Form, words: &[String]) -> bool
    ensures { result ≡ list_any (λ word. has_form form (string_bytes word)) words.now }
{
    words.iter().any(|word| has_form(form, word.as_bytes()))
}

/// The number that the digits say.
fn number(digits: &[u8]) -> u64
    requires { IsTrue (is_number digits.now) }
    ensures { result ≡ digits_value 10 digits.now }
{
    let mut value = 0u64;
    for digit in digits {
        value = value * 10 + u64::from(digit.saturating_sub(b'0'));
    }
    value
}

/// The greatest number that the form allows, or 0 where it has none.
fn most_of(form: Form) -> u64
    ensures { result ≡ most_of form }
{
    match form {
        Form::First | Form::Split => 0,
        Form::Count => 50_000,
        Form::Workers => 16,
        Form::Min => 1_048_576,
        Form::Patience => 1_000,
    }
}

/// The number behind the form's key.
#[tactic(auto, unfolding(crate::specs::Forms::has_form, crate::specs::Forms::number_of))]
pub fn number_of(form: Form, word: &[u8]) -> u64
    requires form { IsTrue (has_form form word.now) }
    requires numbered { 0 < most_of form }
    ensures { result ≡ number_of form word.now }
{
    number(&word[key(form).len()..])
}

/// Whether the form has a number, and the word's is outside its range.
pub fn is_outside(form: Form, word: &[u8]) -> bool
    requires { IsTrue (has_form form word.now) }
    ensures { result ≡ is_outside form word.now }
{
    let most = most_of(form);
    if most == 0 {
        return false;
    }
    let number = number_of(form, word);
    number == 0 || number > most
}

/// Whether a word of the form may stand more than once.
pub fn is_repeatable(form: Form) -> bool
    ensures { result ≡ is_repeatable form }
{
    matches!(form, Form::Split)
}

/// Whether a word has to stand where the form may.
fn is_needed(form: Form) -> bool
    ensures { result ≡ is_needed form }
{
    matches!(form, Form::First | Form::Count)
}

/// Whether a word has to stand where one of the forms may.
pub fn any_is_needed(forms: &[Form]) -> bool
    ensures { result ≡ list_any is_needed forms.now }
{
    forms.iter().any(|form| is_needed(*form))
}
