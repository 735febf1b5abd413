//! Flags of objects, clear events, and for whom code runs.
ghost use Rattle.std.specs.Prelude.{◌≡◌};
ghost use Rattle.jc_transient.specs.State.{flag_of};
ghost use Rattle.jc_memory.specs.State.{SetFlag, ClearTransient, SetRegisters, apply_effect};

use crate::memory::Memory;
use crate::registers::Registers;
use jc_transient::{ClearEvent, Owner, Ref};
use jc_words::WordStore;

impl<S: WordStore> Memory<S> {
    /// The flag of an object.
    pub fn flag(&self, object: Ref) -> bool
        ensures { result ≡ flag_of self.now.ram object }
    {
        self.ram.flag(object)
    }

    /// Sets the flag of an object. No abort takes it back.
    pub fn set_flag(&mut self, object: Ref, value: bool)
        ensures { self.new ≡ apply_effect (SetFlag object value) self.old }
    {
        self.ram.set_flag(object, value);
    }

    /// Clears the transient objects of an event.
    pub fn clear(&mut self, event: ClearEvent)
        ensures { self.new ≡ apply_effect (ClearTransient event) self.old }
    {
        self.ram.clear(event);
    }

    /// For whom code runs, and how far the command has come.
    #[inline(always)]
    pub fn registers(&self) -> Registers
        ensures { result ≡ self.now.registers }
    {
        self.registers
    }

    /// Sets the registers.
    pub fn set_registers(&mut self, registers: Registers)
        ensures { self.new ≡ apply_effect (SetRegisters registers) self.old }
    {
        self.registers = registers;
    }

    /// Sets for whom code runs, and for whom it ran before the last switch.
    #[inline(always)]
    pub fn set_owners(&mut self, active: Owner, previous: Owner)
        ensures { self.new ≡ apply_effect (SetRegisters (record self.old.registers {
          active = active;
          previous = previous;
        })) self.old }
    {
        let registers = &mut self.registers;
        registers.active = active;
        registers.previous = previous;
    }
}
