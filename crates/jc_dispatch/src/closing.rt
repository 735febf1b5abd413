//! Back in the runtime environment.
ghost use Rattle.std.specs.Prelude.{OnOk, ◌≡◌, false};
ghost use Rattle.jc_memory.specs.Programs.{Executes};
ghost use Rattle.jc_heap.specs.Completions.{after_step};
ghost use Rattle.jc_dispatch.specs.Phase.{close};

use jc_memory::{Depth, Memory, Registers};
use jc_words::{StoreDown, WordStore};

/// Ends what an applet left open: a transaction is taken back, references to what was made in it become
/// null, and no applet is being selected.
#[tactic(auto, unfolding(crate::specs::Phase::close))]
pub(crate) fn close<S: WordStore>(memory: &mut Memory<S>) -> Result<(), StoreDown>
    requires up { memory.old.heap.down ≡ false }
    ensures does { Executes (close memory.old) memory.old (after_step result memory.new) }
    ensures outside { OnOk result (memory.new.heap.begun ≡ false) }
{
    if memory.heap().is_open() {
        memory.abort()?;
    }
    let registers = memory.registers();
    memory.set_registers(Registers {
        depth: Depth::Outside,
        selecting: false,
        ..registers
    });
    Ok(())
}
