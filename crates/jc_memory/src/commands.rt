//! The bytes of a command (ISO/IEC 7816-4): its form, and where its data stand.
ghost use Rattle.std.specs.Prelude.{◌≡◌, ◌+◌, ◌<◌, ◌≤◌, length};
ghost use Rattle.jc_memory.specs.Commands.{data_of, data_offset, has_extended_length, header_length, lc_of, most_answer, two_bytes};

use crate::memory::MOST_SENT;

/// How many bytes of data the answer to a command in the short form has at most.
pub const MOST_SHORT: usize = 256;

/// Whether a command has the extended form: its fifth byte is 0, and more follow.
pub fn has_extended_length(command: &[u8]) -> bool
    ensures { result ≡ has_extended_length command.now }
{
    command.len() > 5 && command[4] == 0
}

/// Two bytes of a command from one on, as a number.
pub fn two_bytes(command: &[u8], i: usize) -> u16
    requires { i + 1 < length command.now }
    ensures { result ≡ two_bytes command.now i }
{
    256 * u16::from(command[i]) + u16::from(command[i + 1])
}

/// Lc: how many bytes of data a command says that it has.
pub fn lc_of(command: &[u8]) -> u16
    ensures { result ≡ lc_of command.now }
{
    if has_extended_length(command) {
        if command.len() <= 7 {
            return 0;
        }
        return two_bytes(command, 5);
    }
    if command.len() <= 5 {
        return 0;
    }
    u16::from(command[4])
}

/// Where the data of a command begin: 5 or 7.
pub fn data_offset(command: &[u8]) -> usize
    ensures offset { result ≡ data_offset command.now }
    ensures few { result ≤ 7 }
{
    if has_extended_length(command) && command.len() > 7 {
        7
    } else {
        5
    }
}

/// The data of a command: as many bytes as it says that it has, or as it has.
#[tactic(auto, unfolding(crate::specs::Commands::data_of))]
pub fn data_of(command: &[u8]) -> &[u8]
    ensures data { result.now ≡ data_of command.entry.now }
    ensures few { length result.now ≤ 65535 }
{
    let start = data_offset(command);
    if command.len() <= start {
        return &[];
    }
    let end = (start + usize::from(lc_of(command))).min(command.len());
    &command[start..end]
}

/// How many bytes stand in the APDU buffer before anything is received: 5 or 7.
pub fn header_length(command: &[u8]) -> usize
    ensures length { result ≡ header_length command.now }
    ensures few { result ≤ 7 }
{
    if has_extended_length(command) { 7 } else { 5 }
}

/// How many bytes of data the answer to a command has at most: 256 or 32767.
pub fn most_answer(command: &[u8]) -> u16
    ensures { result ≡ most_answer command.now }
{
    if has_extended_length(command) {
        MOST_SENT as u16
    } else {
        MOST_SHORT as u16
    }
}
