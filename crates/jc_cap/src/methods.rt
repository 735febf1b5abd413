//! The Method component.
ghost use Rattle.std.specs.Prelude.{◌≡◌, Ok, IfOk};
ghost use Rattle.jc_cap.specs.Reading.{ParsesAs, IsReadable};
ghost use Rattle.jc_cap.specs.Methods.{MethodParts, AreMethods};
ghost use Rattle.jc_cap.specs.MethodReading.{methods_of, methods_start, short_header, extended_header, header_of, method_at, has_room};
ghost use Rattle.jc_cap.specs.MethodViews.{method_parts, method_value};

use crate::fault::CapFault;
use crate::fields::u1;
use crate::handlers::{Handlers, handlers_found_in, read_handlers};

/// The header of a method (`method_header_info` and `extended_method_header_info` of the Java Card CAP format).
#[derive(Clone, Copy, Drop)]
pub struct MethodHeader {
    /// Whether it has four bytes in place of two.
    pub extended: bool,
    pub is_abstract: bool,
    /// How many cells the method's operand stack has.
    pub max_stack: u8,
    /// How many cells its arguments take, the receiver among them.
    pub nargs: u8,
    /// How many cells its other local variables take.
    pub max_locals: u8,
}

/// A method. It is lent from the component.
#[derive(Clone, Copy, Drop)]
pub struct Method<'a> {
    pub header: MethodHeader,
    /// The bytes from the header to the end of the component.
    pub bytes: &'a [u8],
}

/// A Method component, from which it is lent.
#[derive(Drop)]
pub struct Methods<'a> {
    pub handlers: Handlers<'a>,
    /// The methods, from the first byte after the handlers to the end.
    pub code: &'a [u8],
}

#[tactic(auto, unfolding(crate::specs::MethodReading::methods_of))]
fn read_parts(info: &[u8]) -> Result<Methods<'_>, CapFault>
    ensures { ParsesAs method_parts result (methods_of info.now) }
{
    let (count, rest) = u1(info)?;
    let (handlers, code) = read_handlers(count, rest)?;
    Ok(Methods { handlers, code })
}

/// Reads the info of a Method component. The methods themselves are looked at by their offsets.
///
/// Truncated where the handlers are cut.
pub fn read_method(info: &[u8]) -> Result<Methods<'_>, CapFault>
    // What is read stands in the info.
    ensures found { IfOk result (λ m. AreMethods (method_parts m) info.now) }
    // An info that is a Method component is read.
    ensures only { (m : MethodParts) → AreMethods m info.now → ParsesAs method_parts result (Ok m) }
    // Otherwise the fault is the first one from the left.
    ensures exact { ParsesAs method_parts result (methods_of info.now) }
{
    read_parts(info)
}

fn short_header(first: u8, rest: &[u8]) -> Option<MethodHeader>
    ensures { result ≡ short_header first rest.now }
{
    match rest {
        [] => None,
        [second, ..] => Some(MethodHeader {
            extended: false,
            is_abstract: first / 64 % 2 == 1,
            max_stack: first % 16,
            nargs: *second / 16,
            max_locals: *second % 16,
        }),
    }
}

fn extended_header(first: u8, rest: &[u8]) -> Option<MethodHeader>
    ensures { result ≡ extended_header first rest.now }
{
    match rest {
        [max_stack, nargs, max_locals, ..] => Some(MethodHeader {
            extended: true,
            is_abstract: first / 64 % 2 == 1,
            max_stack: *max_stack,
            nargs: *nargs,
            max_locals: *max_locals,
        }),
        _ => None,
    }
}

#[tactic(auto, unfolding(crate::specs::MethodReading::header_of))]
fn read_header(bytes: &[u8]) -> Option<MethodHeader>
    ensures { result ≡ header_of bytes.now }
{
    match bytes {
        [] => None,
        [first, rest @ ..] => {
            if *first > 127 {
                return extended_header(*first, rest);
            }
            short_header(*first, rest)
        }
    }
}

impl<'a> Methods<'a> {
    /// What an info is that was read before. It is found again without reading it.
    pub fn found_in(info: &'a [u8]) -> Methods<'a>
        requires { IsReadable (methods_of info.now) }
        ensures { methods_of info.now ≡ Ok (method_parts result) }
    {
        match u1(info) {
            Ok((count, bytes)) => {
                let (handlers, code) = handlers_found_in(count, bytes);
                Methods { handlers, code }
            }
            Err(_) => unreachable!(),
        }
    }

    /// The offset, in the info, of the first byte after the handlers.
    pub fn start(&self) -> u16
        ensures { result ≡ methods_start (method_parts self.now) }
    {
        1 + 8 * self.handlers.count() as u16
    }

    /// The method whose header begins at the offset, counted from the first byte of the info.
    ///
    /// None where the offset lies in front of the methods, or leaves no room for the header.
    #[tactic(auto, unfolding(crate::specs::MethodReading::method_at))]
    pub fn method(&self, offset: u16) -> Option<Method<'a>>
        ensures { method_value result ≡ method_at (method_parts self.now) offset }
    {
        let start = self.start();
        if offset < start {
            return None;
        }
        let at = (offset - start) as usize;
        if self.code.len() < at {
            return None;
        }
        let (_, bytes) = self.code.split_at(at);
        let header = read_header(bytes)?;
        Some(Method { header, bytes })
    }

    /// Whether a method's header begins at the offset: whether the offset lies after the handlers, and leaves room for the
    /// header.
    pub fn has_room(&self, offset: u16) -> bool
        ensures { result ≡ has_room (method_parts self.now) offset }
    {
        match self.method(offset) {
            Some(_) => true,
            None => false,
        }
    }
}
