//! Answers that are wanted.
ghost use Rattle.std.specs.Prelude.{◌↔◌, ◌≡◌, ◌≤◌, ◌∷◌, ℕ, List, length};
ghost use Rattle.std.specs.Bool.{IsTrue};
ghost use Rattle.jcard_outcomes.specs.Answers.{FitsUnspaced, IsDigit, unspaced};

/// Whether an answer is one that is wanted: the same text, where each `*` of that stands for any number of digits, and spaces do not
/// count.
pub fn fits(wanted: &[u8], told: &[u8]) -> bool
    ensures { IsTrue result ↔ FitsUnspaced wanted.now told.now }
{
    let wanted = behind_spaces(wanted);
    let told = behind_spaces(told);
    let Some((first, more)) = wanted.split_first() else {
        return told.is_empty();
    };
    if *first != b'*' {
        return match told.split_first() {
            Some((byte, rest)) => *byte == *first && fits(more, rest),
            None => false,
        };
    }
    if fits(more, told) {
        return true;
    }
    match told.split_first() {
        Some((byte, rest)) => is_digit(*byte) && fits(wanted, rest),
        None => false,
    }
}

// What follows the spaces at the beginning of a text.
fn behind_spaces(text: &[u8]) -> &[u8]
    ensures same { unspaced result.now ≡ unspaced text.now }
    ensures shorter { length result.now ≤ length text.now }
    ensures plain { (more : List ℕ) → result.now ≡ 32 ∷ more → ⊥ }
{
    let Some((first, more)) = text.split_first() else {
        return text;
    };
    if *first == b' ' {
        return behind_spaces(more);
    }
    text
}

// Whether a byte is a hexadecimal digit as a card prints them.
fn is_digit(byte: u8) -> bool
    ensures { IsTrue result ↔ IsDigit byte }
{
    matches!(byte, b'0'..=b'9' | b'A'..=b'F')
}
