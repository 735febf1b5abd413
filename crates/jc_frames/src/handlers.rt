//! Exception handlers.
ghost use Rattle.std.specs.Prelude.{◌≡◌, ◌+◌, ◌<◌, ◌^◌};
ghost use Rattle.jc_frames.specs.Handlers.{handler_in, watches};

use crate::operands::u2_at;

/// How many bytes a handler has.
pub const HANDLER_SIZE: usize = 8;

/// An exception handler. Its places count from the first byte of the Method component.
#[derive(Clone, Copy)]
pub struct Handler {
    /// The first place that it watches over.
    pub start: u16,
    /// How many bytes it watches over.
    pub length: u16,
    /// Where it goes on.
    pub target: u16,
    /// The entry of the constant pool with the class that it catches, or 0 where it catches everything.
    pub catch_type: u16,
}

/// The handler that begins at a place of a Method component; `None` where the component ends before it does.
#[tactic(auto, unfolding(crate::specs::Handlers::handler_in))]
pub fn handler_at(text: &[u8], at: usize) -> Option<Handler>
    requires { at < 2 ^ 16 }
    ensures { result ≡ handler_in text.now at }
{
    let catch_type = u2_at(text, at + 6)?; // the last first, so that the others need no test
    let start = u2_at(text, at)?;
    let active = u2_at(text, at + 2)?;
    let target = u2_at(text, at + 4)?;
    Some(Handler {
        start,
        length: active % 32768,
        target,
        catch_type,
    })
}

impl Handler {
    /// It watches over an instruction whose opcode stands at this place.
    pub const fn watches(self, place: u16) -> bool
        ensures { result ≡ watches self place }
    {
        self.start <= place && (place as u32) < self.start as u32 + self.length as u32
    }
}
