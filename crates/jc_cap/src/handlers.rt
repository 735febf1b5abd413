//! The exception handlers of a Method component.
ghost use Rattle.std.specs.Prelude.{◌≡◌, ◌<◌, length, Some, Ok, slice_get};
ghost use Rattle.jc_cap.specs.Reading.{ParsesAs, many_at, rest_after, IsReadable};
ghost use Rattle.jc_cap.specs.MethodReading.{active_at, handler_at};

use crate::counted::{Part, skip_many};
use crate::fault::CapFault;
use crate::fields::{u1, u2};
use std::marker::Model;

/// An exception handler (`exception_handler_info` of the Java Card CAP format).
#[derive(Clone, Copy, Drop)]
pub struct Handler {
    /// The offset of the first byte that it watches over, in the component's info.
    pub start_offset: u16,
    /// That no handler after this one watches over the same bytes.
    pub stop: bool,
    /// How many bytes it watches over, up to 32767.
    pub active_length: u16,
    /// The offset of its first instruction, in the component's info.
    pub handler_offset: u16,
    /// The index in the constant pool of the class that it catches, or 0 where it catches everything.
    pub catch_type_index: u16,
}

/// The stop bit, and the length.
#[tactic(auto, unfolding(crate::specs::MethodReading::active_at))]
fn read_active_length(bytes: &[u8]) -> Result<((bool, u16), &[u8]), CapFault>
    ensures { ParsesAs (λ x. (x.0, x.1.now)) result (active_at bytes.now) }
{
    let (high, rest) = u1(bytes)?;
    let (low, rest) = u1(rest)?;
    if high < 128 {
        return Ok(((false, high as u16 * 256 + low as u16), rest));
    }
    Ok(((true, (high - 128) as u16 * 256 + low as u16), rest))
}

#[tactic(auto, unfolding(crate::specs::MethodReading::handler_at))]
fn read_handler(bytes: &[u8]) -> Result<(Handler, &[u8]), CapFault>
    ensures { ParsesAs (λ x. (x.0, x.1.now)) result (handler_at bytes.now) }
{
    let (start_offset, rest) = u2(bytes)?;
    let ((stop, active_length), rest) = read_active_length(rest)?;
    let (handler_offset, rest) = u2(rest)?;
    let (catch_type_index, rest) = u2(rest)?;
    let handler = Handler {
        start_offset,
        stop,
        active_length,
        handler_offset,
        catch_type_index,
    };
    Ok((handler, rest))
}

struct HandlerPart;

impl Part for HandlerPart {
    ghost use Rattle.jc_cap.specs.declared.handlers.Handler.{Handler};
    ghost use Rattle.jc_cap.specs.MethodReading.{handler_at};

    ghost Said = { Handler };

    ghost at = { handler_at };

    fn skip(bytes: &[u8]) -> Result<&[u8], CapFault> {
        let (_, rest) = read_handler(bytes)?;
        Ok(rest)
    }
}

/// The exception handlers of a package, in the order in which they are tried. They are lent from the component.
#[derive(Drop)]
pub struct Handlers<'a> {
    count: u8,
    bytes: &'a [u8],
}

impl<'a> Model for Handlers<'a> {
    ghost use Rattle.std.specs.Prelude.{List};
    ghost use Rattle.jc_cap.specs.declared.handlers.Handler.{Handler};
    ghost use Rattle.jc_cap.specs.MethodReading.{handler_at};
    ghost use Rattle.jc_cap.specs.Reading.{many_at, list_or_empty};
    ghost use Rattle.jc_cap.specs.Places.{IsList};

    ghost Value = { List Handler };

    ghost view = { λ a. list_or_empty (many_at handler_at a.count a.bytes.now) };

    ghost invariant = { λ a. IsList handler_at a.count a.bytes.now };
}

pub(crate) fn read_handlers(count: u8, bytes: &[u8]) -> Result<(Handlers<'_>, &[u8]), CapFault>
    ensures { ParsesAs (λ x. (x.0, x.1.now)) result (many_at handler_at count bytes.now) }
{
    let rest = skip_many::<HandlerPart>(count as u16, bytes)?;
    Ok((Handlers { count, bytes }, rest))
}

/// As many handlers as are counted, which were read before, and the bytes after them: found again without reading them.
pub(crate) fn handlers_found_in(count: u8, bytes: &[u8]) -> (Handlers<'_>, &[u8])
    requires { IsReadable (many_at handler_at count bytes.now) }
    ensures { many_at handler_at count bytes.now ≡ Ok (result.0, result.1.now) }
{
    let (_, rest) = bytes.split_at(count as usize * 8);
    (Handlers { count, bytes }, rest)
}

impl<'a> Handlers<'a> {
    /// How many there are.
    pub fn count(&self) -> u8
        ensures { result ≡ length self.now }
    {
        self.count
    }

    /// The handler with this index.
    pub fn get(&self, index: u8) -> Handler
        requires { index < length self.now }
        ensures { slice_get self.now index ≡ Some result }
    {
        let (_, rest) = self.bytes.split_at(index as usize * 8);
        match read_handler(rest) {
            Ok((handler, _)) => handler,
            Err(_) => unreachable!(),
        }
    }
}
