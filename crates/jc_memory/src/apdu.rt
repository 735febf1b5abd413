//! The command that is carried out, and the bytes sent in answer to it.
ghost use Rattle.std.specs.Prelude.{◌≡◌, ◌+◌, ◌≤◌, false, length};
ghost use Rattle.jc_heap.specs.Heap.{IsObject, facts};
ghost use Rattle.jc_memory.specs.Cells.{bytes_at};
ghost use Rattle.jc_memory.specs.Commands.{takes_extended_length};
ghost use Rattle.jc_memory.specs.State.{BeginCommand, SendBytes, SetRegisters, apply_effect};

use crate::memory::{MOST_COMMAND, MOST_SENT, Memory};
use crate::registers::ApduPhase;
use jc_transient::Ref;
use jc_words::WordStore;

// How many bytes are read at once where they are sent.
const SENT_AT_ONCE: u16 = 256;

// The same as the size of a room.
const PIECE: usize = SENT_AT_ONCE as usize;

// How many bytes most answers have at most.
const FEW: usize = 16;

impl<S: WordStore> Memory<S> {
    /// Begins a command of these bytes, in answer to which nothing was sent yet.
    pub fn start(&mut self, bytes: &[u8])
        requires { length bytes.now ≤ MOST_COMMAND }
        ensures { self.new ≡ apply_effect (BeginCommand bytes.now) self.old }
    {
        self.command.set(bytes);
        self.sent.clear();
    }

    /// The bytes of the command.
    pub fn command(&self) -> &[u8]
        ensures { result.now ≡ self.now.command }
    {
        self.command.as_slice()
    }

    /// Sets how far the APDU has come.
    #[inline(always)]
    pub fn set_phase(&mut self, phase: ApduPhase)
        ensures { self.new ≡ apply_effect (SetRegisters (record self.old.registers {
          apdu = record self.old.registers.apdu { phase = phase };
        })) self.old }
    {
        self.registers.apdu.phase = phase;
    }

    /// Sends bytes, after those that were sent already.
    #[inline(always)]
    pub fn send(&mut self, bytes: &[u8])
        requires { length self.old.sent + length bytes.now ≤ MOST_SENT }
        ensures { self.new ≡ apply_effect (SendBytes bytes.now) self.old }
    {
        self.sent.append(bytes);
    }

    // Sends at most `MOST` bytes of an object from an index on, after those that were sent already.
    #[inline(always)]
    fn send_piece<const MOST: usize>(&mut self, object: Ref, i: u16, count: u16)
        requires up { self.old.heap.down ≡ false }
        requires there { IsObject self.old.heap.now object }
        requires cells { i + count ≤ (facts self.old.heap.now object).length }
        requires few { length self.old.sent + count ≤ MOST_SENT }
        requires piece { count ≤ MOST }
        requires most { MOST ≤ PIECE }
        ensures { self.new ≡ apply_effect (SendBytes (bytes_at self.old object i count)) self.old }
    {
        let mut bytes = [0; MOST];
        let bytes = &mut bytes[..count as usize];
        self.bytes(object, i, bytes);
        self.send(bytes);
    }

    /// Sends bytes of an object from an index on, after those that were sent already.
    #[inline(always)]
    pub fn send_elements(&mut self, object: Ref, i: u16, count: u16)
        requires up { self.old.heap.down ≡ false }
        requires there { IsObject self.old.heap.now object }
        requires cells { i + count ≤ (facts self.old.heap.now object).length }
        requires few { length self.old.sent + count ≤ MOST_SENT }
        ensures { self.new ≡ apply_effect (SendBytes (bytes_at self.old object i count)) self.old }
    {
        if count as usize <= FEW {
            self.send_piece::<FEW>(object, i, count);
        } else {
            self.send_pieces(object, i, count);
        }
    }

    // The same of as many bytes as an answer may have.
    #[inline(never)]
    fn send_pieces(&mut self, object: Ref, i: u16, count: u16)
        requires up { self.old.heap.down ≡ false }
        requires there { IsObject self.old.heap.now object }
        requires cells { i + count ≤ (facts self.old.heap.now object).length }
        requires few { length self.old.sent + count ≤ MOST_SENT }
        ensures { self.new ≡ apply_effect (SendBytes (bytes_at self.old object i count)) self.old }
    {
        let _header = self.facts(object);
        if count <= SENT_AT_ONCE {
            self.send_piece::<PIECE>(object, i, count);
            return;
        }
        self.send_piece::<PIECE>(object, i, SENT_AT_ONCE);
        self.send_pieces(object, i + SENT_AT_ONCE, count - SENT_AT_ONCE);
    }

    /// Whether its image takes commands in the extended form: its APDU buffer is longer than usual.
    pub fn takes_extended_length(&self) -> bool
        requires up { self.now.heap.down ≡ false }
        ensures { result ≡ takes_extended_length self.now.ram.sizes }
    {
        let sizes = self.heap.area_sizes();
        sizes.deselect < sizes.reset
    }

    /// The bytes that were sent.
    pub fn sent(&self) -> &[u8]
        ensures bytes { result.now ≡ self.now.sent }
        ensures few { length result.now ≤ MOST_SENT }
    {
        self.sent.as_slice()
    }
}
