//! The values of the options of attacks.
ghost use Rattle.std.specs.Prelude.{◌≡◌, ℕ, List, option_map};
ghost use Rattle.std.specs.Borrow.{Bor};
ghost use Rattle.jcard_arguments.specs.Attacks.{accepted_given, are_upper_digits, is_answer_end, is_upper_digit, models_given, models_of, with_model, with_next, within_given, within_of};

use crate::numbers::number_of;
use jcard_outcomes::models::Models;

/// The most instructions within which a second fault comes.
const MOST_WITHIN: u32 = 64;

/// The models that an option names that may be given: all where it is not; nothing where it names another.
pub(crate) fn models_given(text: Option<&str>) -> Option<Models>
    ensures { result ≡ models_given (option_map (λ (t : Bor (List ℕ)). t.now) text.entry) }
{
    match text {
        Some(text) => models_of(text.as_bytes()),
        None => Some(Models::all()),
    }
}

// The models that a text of one, two or three names names, with commas between them. Each name has four letters.
fn models_of(text: &[u8]) -> Option<Models>
    ensures { result ≡ models_of text.now }
{
    let count = text.len();
    if count == 4 {
        return with_model(Models::none(), text);
    }
    if count == 9 && text[4] == b',' {
        let first = with_model(Models::none(), &text[..4]);
        return with_next(first, &text[5..]);
    }
    if count == 14 && text[4] == b',' && text[9] == b',' {
        let first = with_model(Models::none(), &text[..4]);
        let second = with_next(first, &text[5..9]);
        return with_next(second, &text[10..]);
    }
    None
}

// These models, if there are any, and the named one.
fn with_next(models: Option<Models>, name: &[u8]) -> Option<Models>
    ensures { result ≡ with_next models name.now }
{
    match models {
        Some(models) => with_model(models, name),
        None => None,
    }
}

// These models and the named one.
fn with_model(models: Models, name: &[u8]) -> Option<Models>
    ensures { result ≡ with_model models name.now }
{
    if name == b"skip".as_slice() {
        return Some(Models {
            skip: true,
            ..models
        });
    }
    if name == b"turn".as_slice() {
        return Some(Models {
            turn: true,
            ..models
        });
    }
    if name == b"zero".as_slice() {
        return Some(Models {
            zero: true,
            ..models
        });
    }
    None
}

/// The end of an answer that an option names that may be given: 9000 where it is not; nothing where it names none.
pub(crate) fn accepted_given(text: Option<&str>) -> Option<&str>
    ensures { option_map (λ (t : Bor (List ℕ)). t.now) result
        ≡ accepted_given (option_map (λ (t : Bor (List ℕ)). t.now) text.entry) }
{
    let Some(text) = text else {
        return Some("9000");
    };
    if is_answer_end(text.as_bytes()) {
        return Some(text);
    }
    None
}

// Whether this is four hexadecimal digits or more, in upper case, and an even number of them.
fn is_answer_end(text: &[u8]) -> bool
    ensures { result ≡ is_answer_end text.now }
{
    if text.len() < 4 || text.len() % 2 == 1 {
        return false;
    }
    are_upper_digits(text)
}

// Whether each byte is a hexadecimal digit, in upper case.
fn are_upper_digits(text: &[u8]) -> bool
    ensures { result ≡ are_upper_digits text.now }
{
    for byte in text {
        if !is_upper_digit(*byte) {
            return false;
        }
    }
    true
}

// Whether a byte is a hexadecimal digit, in upper case.
fn is_upper_digit(byte: u8) -> bool
    ensures { result ≡ is_upper_digit byte }
{
    byte.is_ascii_digit() || (b'A' <= byte && byte <= b'F')
}

/// Within how many instructions a second fault comes, as an option names it: 0 where it is not given; nothing where it names no number from 1 to 64.
pub(crate) fn within_given(text: Option<&str>) -> Option<u32>
    ensures { result ≡ within_given (option_map (λ (t : Bor (List ℕ)). t.now) text.entry) }
{
    match text {
        Some(text) => within_of(text),
        None => Some(0),
    }
}

// A number from 1 to 64.
fn within_of(text: &str) -> Option<u32>
    ensures { result ≡ within_of text.now }
{
    match number_of(text) {
        Some(number) if 0 < number && number <= MOST_WITHIN => Some(number),
        _ => None,
    }
}
