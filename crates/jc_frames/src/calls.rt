//! Calls and returns.
ghost use Rattle.std.specs.Prelude.{IsNone, ◌≡◌, ◌<◌, [], ◌∷◌, ◌++◌, length};
ghost use Rattle.std.specs.Option.{option_map};
ghost use Rattle.jc_frames.specs.Frames.{in_frame, unless_fault};
ghost use Rattle.jc_frames.specs.Calls.{call_or_fault, counted_cells, frames_after_return, frames_with_result};

use crate::cell::Cell;
use crate::fixed_stack::FixedStack;
use crate::frames::{Frames, MOST_CALLERS, MOST_CELLS, Region, SavedFrame, push_zeros};
use crate::method::{CallKind, Entry, ReturnPoint};
use crate::outcome::CodeFault;

// Puts a frame that waits for a call on the others, as it is.
#[inline(always)]
fn save(region: &Region, resume: ReturnPoint, saved: &mut FixedStack<SavedFrame, MOST_CALLERS>)
    requires { length saved.old.items < 31 }
    ensures { saved.new.items
        ≡ saved.old.items ++ record { region = region.now; resume = resume } ∷ [] }
{
    saved.push(SavedFrame {
        region: *region,
        resume,
    });
}

impl Frames {
    /// Begins the frame of a method that is called: the arguments on top of the caller's stack become
    /// its first locals. A code fault where they are not there, where it would be the 33rd frame, or
    /// where the callers' locals and stacks and the new frame's locals and whole stack are more than
    /// 512 cells.
    #[inline(always)]
    pub fn enter(&mut self, entry: Entry) -> Result<(), CodeFault>
        ensures { unless_fault result self.new ≡ call_or_fault entry self.old }
    {
        let length = self.cells.len();
        let arguments = usize::from(entry.arguments);
        let height = length - self.current.bottom;
        if height < arguments {
            return Err(CodeFault);
        }
        let callers = self.saved.len();
        if callers >= MOST_CALLERS {
            return Err(CodeFault);
        }
        let locals = usize::from(entry.locals);
        let limit = usize::from(entry.limit);
        let base = length - arguments;
        let bottom = length + locals;
        let ceiling = bottom + limit;
        if ceiling > MOST_CELLS {
            return Err(CodeFault);
        }
        save(&self.current, entry.resume, &mut self.saved);
        // Before the locals, so that nothing is kept while they are pushed, and field by field, so that nothing is packed.
        self.current.base = base;
        self.current.bottom = bottom;
        self.current.ceiling = ceiling;
        self.current.place = entry.place;
        self.current.origin.package_number = entry.origin.package_number;
        self.current.origin.method = entry.origin.method;
        push_zeros(&mut self.cells, entry.locals);
        Ok(())
    }

    /// How many cells all frames count, of the 512.
    #[tactic(auto, using(crate::proofs::Entered::ceiling_counts))]
    pub fn counted_cells(&self) -> usize
        ensures { result ≡ counted_cells self.now }
    {
        let frame = &self.current;
        frame.ceiling
    }

    /// Ends the frame that runs: its caller's goes on. `None`, and nothing changes, where nothing
    /// called it.
    #[inline(always)]
    pub fn leave(&mut self) -> Option<ReturnPoint>
        ensures caller { frames_after_return self.old.callers
            ≡ option_map (λ resume. (resume, self.new)) result }
        ensures same { IsNone result → self.new ≡ self.old }
    {
        if self.saved.len() == 0 {
            return None;
        }
        self.cells.truncate(self.current.base);
        let caller = self.saved.pop()?;
        self.current = caller.region;
        Some(caller.resume)
    }

    /// What the return of the frame that runs comes back to; `None` where nothing called it.
    pub fn resume(&self) -> Option<ReturnPoint>
        ensures { result ≡ option_map (λ p. p.0) (frames_after_return self.now.callers) }
    {
        Some(self.saved.as_slice().last()?.resume)
    }

    /// Puts what a called method hands over on the stack of its caller, which goes on. A code fault
    /// where there is no room, or where the runtime environment awaits a reference and gets none.
    #[inline(always)]
    pub fn receive(&mut self, call: CallKind, value: Option<Cell>) -> Result<(), CodeFault>
        ensures { unless_fault result self.new ≡ in_frame self.old
            (frames_with_result call value self.old.current) }
    {
        let _ = &self.cells; // so that the proof knows what holds of all frames
        match call {
            CallKind::Instruction => match value {
                Some(cell) => self.try_push(cell),
                None => Ok(()),
            },
            CallKind::ShareableRequest => match value.ok_or(CodeFault)? {
                Cell::Reference(r) => self.try_push(Cell::Reference(r)),
                _ => Err(CodeFault),
            },
        }
    }
}
