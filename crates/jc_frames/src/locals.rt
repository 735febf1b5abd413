//! The locals of the frame that runs.
ghost use Rattle.std.specs.Prelude.{◌≡◌, slice_get};
ghost use Rattle.std.specs.Option.{option_and_then};
ghost use Rattle.jc_frames.specs.Cell.{as_short, as_reference, as_address, result_or_none};
ghost use Rattle.jc_frames.specs.Frames.{in_frame, unless_fault, store_local};

use crate::cell::Cell;
use crate::frames::Frames;
use crate::outcome::CodeFault;
use jc_transient::Ref;

impl Frames {
    /// The local with this number, if there is one.
    #[inline(always)]
    pub fn local(&self, number: u8) -> Option<Cell>
        ensures { result ≡ slice_get self.now.current.locals number }
    {
        let place = self.current.base + usize::from(number);
        if place < self.current.bottom {
            Some(self.cells.as_slice()[place])
        } else {
            None
        }
    }

    /// The short in the local with this number.
    #[inline(always)]
    pub fn local_short(&self, number: u8) -> Result<i16, CodeFault>
        ensures { result_or_none result ≡ option_and_then as_short
            (slice_get self.now.current.locals number) }
    {
        match self.local(number).ok_or(CodeFault)? {
            Cell::Short(x) => Ok(x),
            _ => Err(CodeFault),
        }
    }

    /// The reference in the local with this number.
    #[inline(always)]
    pub fn local_reference(&self, number: u8) -> Result<Ref, CodeFault>
        ensures { result_or_none result ≡ option_and_then as_reference
            (slice_get self.now.current.locals number) }
    {
        match self.local(number).ok_or(CodeFault)? {
            Cell::Reference(r) => Ok(r),
            _ => Err(CodeFault),
        }
    }

    /// The return address in the local with this number.
    #[inline(always)]
    pub fn local_address(&self, number: u8) -> Result<u16, CodeFault>
        ensures { result_or_none result ≡ option_and_then as_address
            (slice_get self.now.current.locals number) }
    {
        match self.local(number).ok_or(CodeFault)? {
            Cell::ReturnAddress(a) => Ok(a),
            _ => Err(CodeFault),
        }
    }

    /// Writes the local with this number, if there is one.
    #[inline(always)]
    pub fn store(&mut self, number: u8, cell: Cell) -> Result<(), CodeFault>
        ensures { unless_fault result self.new ≡ in_frame self.old
            (store_local number cell self.old.current) }
    {
        let place = self.current.base + usize::from(number);
        if place >= self.current.bottom {
            return Err(CodeFault);
        }
        self.cells.set(place, cell);
        Ok(())
    }
}
