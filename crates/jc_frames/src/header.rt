//! Headers of methods.
ghost use Rattle.std.specs.Prelude.{◌≡◌, ◌<◌, ◌≤◌, ◌^◌, IfSome, length};
ghost use Rattle.jc_frames.specs.Header.{header_in, long_header_at, says_abstract};

use crate::operands::u1_at;

/// What a method's header says.
#[derive(Clone, Copy)]
pub struct Header {
    pub is_abstract: bool,
    /// How many cells its arguments have, the receiver among them.
    pub arguments: u8,
    /// How many locals it has besides its arguments.
    pub locals: u8,
    /// How many cells its stack holds at most.
    pub limit: u8,
    /// The place of its first instruction, in the Method component.
    pub place: u16,
}

// The flag of a method that is abstract.
const fn says_abstract(first: u8) -> bool
    ensures { result ≡ says_abstract first }
{
    first / 64 % 2 == 1
}

// The extended header at a place, which begins with this byte.
fn long_header_at(text: &[u8], place: u16, first: u8) -> Option<Header>
    requires { length text.now < 2 ^ 16 }
    ensures { result ≡ long_header_at text.now place first }
{
    let at = usize::from(place);
    let limit = u1_at(text, at + 1)?;
    let arguments = u1_at(text, at + 2)?;
    let locals = u1_at(text, at + 3)?;
    Some(Header {
        is_abstract: says_abstract(first),
        arguments,
        locals,
        limit,
        place: (at + 4) as u16,
    })
}

/// The header that begins at a place of a Method component; `None` where the component ends before it does.
#[tactic(auto, unfolding(crate::specs::Header::header_in))]
#[inline(always)]
pub fn header_at(text: &[u8], place: u16) -> Option<Header>
    requires { length text.now < 2 ^ 16 }
    ensures header { result ≡ header_in text.now place }
{
    let at = usize::from(place);
    // No header has one byte alone.
    let second = u1_at(text, at + 1)?;
    let first = text[at];
    if first >= 128 {
        return long_header_at(text, place, first);
    }
    Some(Header {
        is_abstract: says_abstract(first),
        arguments: second / 16,
        locals: second % 16,
        limit: first % 16,
        place: (at + 2) as u16,
    })
}
