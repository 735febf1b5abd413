//! The first cells of a transient object, filled with bytes and zeros.
ghost use Rattle.std.specs.Prelude.{◌≡◌, ◌+◌, ◌≤◌, ◌++◌, false, length, map, replicate, take, Some};
ghost use Rattle.jc_transient.specs.Cell.{number_of};
ghost use Rattle.jc_heap.specs.Heap.{IsObject, facts};
ghost use Rattle.jc_memory.specs.State.{SetTransient, apply_effect};

use crate::memory::Memory;
use jc_transient::{ClearEvent, Ref};
use jc_words::WordStore;

impl<S: WordStore> Memory<S> {
    /// Sets the first cells of an object that this event clears: to these bytes, and the next `zeros` cells
    /// to zero.
    #[inline(always)]
    pub fn fill(&mut self, object: Ref, event: ClearEvent, bytes: &[u8], zeros: u16)
        requires up { self.old.heap.down ≡ false }
        requires there { IsObject self.old.heap.now object }
        requires transient { (facts self.old.heap.now object).event ≡ Some event }
        requires cells { length bytes.now + zeros ≤ (facts self.old.heap.now object).length }
        ensures { self.new ≡ apply_effect (SetTransient object 0
            (map number_of (bytes.now ++ replicate zeros 0))) self.old }
    {
        let place = self.facts(object).place;
        self.ram.put_bytes(event, place, bytes);
        let after = place + bytes.len() as u16;
        self.ram.fill_zeros(event, after, zeros);
    }

    /// Sets the first cells of an object that this event clears: to the first `count` bytes of the command, and the next `zeros` cells to zero.
    #[inline(always)]
    pub fn fill_from_command(&mut self, object: Ref, event: ClearEvent, count: u16, zeros: u16)
        requires up { self.old.heap.down ≡ false }
        requires there { IsObject self.old.heap.now object }
        requires transient { (facts self.old.heap.now object).event ≡ Some event }
        requires bytes { count ≤ length self.old.command }
        requires cells { count + zeros ≤ (facts self.old.heap.now object).length }
        ensures { self.new ≡ apply_effect (SetTransient object 0
            (map number_of (take count self.old.command ++ replicate zeros 0))) self.old }
    {
        let place = self.facts(object).place;
        let bytes = &self.command.as_slice()[..usize::from(count)];
        self.ram.put_bytes(event, place, bytes);
        self.ram.fill_zeros(event, place + count, zeros);
    }
}
