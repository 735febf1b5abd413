//! The class byte of a command.
ghost use Rattle.std.specs.Prelude.{◌≡◌};
ghost use Rattle.jc_api_framework.specs.Apdu.Class.{class_byte, is_interindustry, is_valid_class, is_chained, is_further, is_secured, channel_of};

use jc_memory::Memory;
use jc_words::WordStore;

/// The class byte of the command; 0 of none.
pub(crate) fn class_byte<S: WordStore>(memory: &Memory<S>) -> u8
    ensures { result ≡ class_byte memory.now.command }
{
    let command = memory.command();
    if command.is_empty() {
        return 0;
    }
    command[0]
}

/// Whether it is a class of ISO.
pub(crate) fn is_interindustry(class: u8) -> bool
    ensures { result ≡ is_interindustry class }
{
    class < 128
}

/// Whether it is a class at all.
pub(crate) fn is_valid_class(class: u8) -> bool
    ensures { result ≡ is_valid_class class }
{
    class / 32 != 1 && class != 255
}

/// Whether more commands of the chain follow.
pub(crate) fn is_chained(class: u8) -> bool
    ensures { result ≡ is_chained class }
{
    class / 16 % 2 == 1
}

// Whether it is for one of the channels 4 to 19.
fn is_further(class: u8) -> bool
    ensures { result ≡ is_further class }
{
    class / 64 % 2 == 1
}

/// Whether it says secure messaging.
pub(crate) fn is_secured(class: u8) -> bool
    ensures { result ≡ is_secured class }
{
    if is_further(class) {
        class / 32 % 2 == 1
    } else {
        class / 4 % 4 != 0
    }
}

/// The channel that it is for.
pub(crate) fn channel_of(class: u8) -> u8
    ensures { result ≡ channel_of class }
{
    if !is_valid_class(class) {
        return 0;
    }
    if is_further(class) {
        4 + class % 16
    } else {
        class % 4
    }
}
