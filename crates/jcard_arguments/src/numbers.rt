//! Numbers of a command line.
ghost use Rattle.std.specs.Prelude.{◌≡◌, ℕ, List, option_map};
ghost use Rattle.std.specs.Borrow.{Bor};
ghost use Rattle.jcard_arguments.specs.Numbers.{budget_given, budget_of, lines_given, lines_of, number_of};
ghost use Rattle.jcard_arguments.specs.declared.options.Lines.TheVariants.{First, Last};

use crate::options::Lines;

/// The number that decimal digits spell, if it is below 2^32.
#[tactic(auto, using(crate::proofs::Digits::number_empty, crate::proofs::Digits::number_plus))]
pub(crate) fn number_of(text: &str) -> Option<u32>
    ensures { result ≡ number_of text.now }
{
    let bytes = text.as_bytes();
    if bytes.is_empty() {
        return None;
    }
    if bytes[0] == b'+' {
        return None;
    }
    text.parse().ok()
}

// The same, but for 0.
fn budget_of(text: &str) -> Option<u32>
    ensures { result ≡ budget_of text.now }
{
    match number_of(text) {
        Some(number) if number > 0 => Some(number),
        _ => None,
    }
}

// The first n lines, or, after a hyphen, the last n.
fn lines_of(text: &str) -> Option<Lines>
    ensures { result ≡ lines_of text.now }
{
    match text.strip_prefix('-') {
        Some(digits) => last_lines(digits),
        None => first_lines(text),
    }
}

fn last_lines(text: &str) -> Option<Lines>
    ensures { result ≡ option_map Last (number_of text.now) }
{
    Some(Lines::Last(number_of(text)?))
}

fn first_lines(text: &str) -> Option<Lines>
    ensures { result ≡ option_map First (number_of text.now) }
{
    Some(Lines::First(number_of(text)?))
}

/// The lines that an option asks for that may be given; nothing where it names none.
pub(crate) fn lines_given(text: Option<&str>) -> Option<Option<Lines>>
    ensures { result ≡ lines_given (option_map (λ (t : Bor (List ℕ)). t.now) text.entry) }
{
    match text {
        Some(text) => Some(Some(lines_of(text)?)),
        None => Some(None),
    }
}

/// A number of instructions that may be given; nothing where it is no number below 2^32, or 0.
pub(crate) fn budget_given(text: Option<&str>) -> Option<Option<u32>>
    ensures { result ≡ budget_given (option_map (λ (t : Bor (List ℕ)). t.now) text.entry) }
{
    match text {
        Some(text) => Some(Some(budget_of(text)?)),
        None => Some(None),
    }
}
