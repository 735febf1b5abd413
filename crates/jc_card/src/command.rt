//! Commands.
ghost use Rattle.std.specs.Prelude.{◌≡◌, ◌<◌, ◌≤◌, IfSome, IsTrue, false, length};
ghost use Rattle.std.specs.Option.{option_map};
ghost use Rattle.jc_memory.specs.Commands.{has_extended_length, most_command};
ghost use Rattle.jc_card.specs.Command.{apdu_of, has_extended_form, has_short_form, apdu_value};

use jc_memory::{data_of, has_extended_length, two_bytes};

/// A command APDU (ISO/IEC 7816-4).
#[derive(Clone, Copy)]
pub struct Command<'a> {
    pub class: u8,
    pub instruction: u8,
    pub p1: u8,
    pub p2: u8,
    /// At most 255 bytes; in the extended form at most 65535.
    pub data: &'a [u8],
}

impl<'a> Command<'a> {
    /// The command that the bytes are, in the short form or in the extended one. `None` for bytes of any other form.
    #[tactic(auto, unfolding(jc_memory::specs::Commands::data_of))]
    pub fn parse(bytes: &'a [u8]) -> Option<Self>
        ensures value { option_map apdu_value result ≡ apdu_of bytes.entry.now }
        ensures short { IfSome result (λ command. has_extended_length bytes.entry.now ≡ false
            → length command.data.now < 256) }
        ensures long { IfSome result (λ command. length bytes.entry.now ≤ most_command) }
    {
        if !has_short_form(bytes) && !has_extended_form(bytes) {
            return None;
        }
        Some(Command {
            class: bytes[0],
            instruction: bytes[1],
            p1: bytes[2],
            p2: bytes[3],
            data: data_of(bytes),
        })
    }
}

// Whether these bytes have the short form: a header of four bytes; then nothing, or the expected length, or the length of the data (1 to
// 255), the data and perhaps the expected length.
fn has_short_form(bytes: &[u8]) -> bool
    ensures form { result ≡ has_short_form bytes.now }
    ensures header { IsTrue result → 3 < length bytes.now }
    ensures long { IsTrue result → length bytes.now ≤ 261 }
{
    if bytes.len() < 4 {
        return false;
    }
    if bytes.len() <= 5 {
        return true;
    }
    let count = usize::from(bytes[4]);
    count > 0 && (bytes.len() == 5 + count || bytes.len() == 6 + count)
}

// Whether they have the extended form: a header of four bytes and a byte of 0; then two bytes, the expected length; or two bytes, the length of
// the data (1 to 65535), the data and perhaps two bytes, the expected length.
fn has_extended_form(bytes: &[u8]) -> bool
    ensures form { result ≡ has_extended_form bytes.now }
    ensures header { IsTrue result → 3 < length bytes.now }
    ensures long { IsTrue result → length bytes.now ≤ most_command }
{
    if !has_extended_length(bytes) || bytes.len() < 7 {
        return false;
    }
    if bytes.len() == 7 {
        return true;
    }
    let count = usize::from(two_bytes(bytes, 5));
    count > 0 && (bytes.len() == 7 + count || bytes.len() == 9 + count)
}
