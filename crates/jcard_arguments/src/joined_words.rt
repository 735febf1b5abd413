//! Words of a command line that belong together.
ghost use Rattle.std.specs.Prelude.{◌≡◌, ◌++◌, ◌∷◌, [], map, codes, Some, IfOk, OnOk};
ghost use Rattle.std.specs.String.{string_bytes};
ghost use Rattle.jcard_arguments.specs.JoinedWords.{are_digits, is_last_count, joined, takes_count};

use std::alloc::{AllocError, Global};

/// The words of a command line, of which the option `--lines` and a hyphen with digits after it are one, as `--lines=-N`. Words after `--`
/// stay as they are.
pub fn joined(alloc: Global, words: &[String]) -> Result<Vec<String>, AllocError>
    ensures { IfOk result (λ all. map string_bytes all.items ≡ joined (map string_bytes words.now)) }
{
    let mut all = Vec::new(alloc);
    let mut place = 0;
    while place < words.len() {
        let word = &words[place];
        if word.as_str() == "--" {
            push_words(&mut all, &words[place..])?;
            return Ok(all);
        }
        if takes_count(word, &words[place + 1..]) {
            push_option(alloc, &mut all, &words[place + 1])?;
            place += 2;
        } else {
            push_word(&mut all, word)?;
            place += 1;
        }
    }
    Ok(all)
}

// Whether a word is the option, and a hyphen with digits comes after it.
fn takes_count(word: &str, more: &[String]) -> bool
    ensures { result ≡ takes_count word.now (map string_bytes more.now) }
{
    match more {
        [next, ..] => word == "--lines" && is_last_count(next),
        [] => false,
    }
}

// Whether a word is a hyphen and digits.
fn is_last_count(word: &str) -> bool
    ensures { result ≡ is_last_count word.now }
{
    match word.strip_prefix('-') {
        Some(digits) => are_digits(digits),
        None => false,
    }
}

// Whether a text has digits alone, and one at least.
fn are_digits(text: &str) -> bool
    ensures { result ≡ are_digits (Some text.now) }
{
    let bytes = text.as_bytes();
    for byte in bytes {
        if !byte.is_ascii_digit() {
            return false;
        }
    }
    !bytes.is_empty()
}

// The option with this value as one word.
fn push_option(alloc: Global, all: &mut Vec<String>, value: &str) -> Result<(), AllocError>
    ensures { OnOk result (map string_bytes all.new.items
        ≡ map string_bytes all.old.items ++ (codes "--lines=" ++ value.now) ∷ []) }
{
    let word = format!(in alloc; "--lines={value}")?;
    all.push(word)?;
    Ok(())
}

fn push_word(all: &mut Vec<String>, word: &String) -> Result<(), AllocError>
    ensures { OnOk result (map string_bytes all.new.items
        ≡ map string_bytes all.old.items ++ string_bytes word.now ∷ []) }
{
    let copy = word.clone()?;
    all.push(copy)?;
    Ok(())
}

fn push_words(all: &mut Vec<String>, words: &[String]) -> Result<(), AllocError>
    ensures { OnOk result (map string_bytes all.new.items
        ≡ map string_bytes all.old.items ++ map string_bytes words.now) }
{
    for word in words {
        push_word(all, word)?;
    }
    Ok(())
}
