//! Transactions (runtime environment specification, transactions and atomicity).
ghost use Rattle.std.specs.Prelude.{◌≡◌, false};
ghost use Rattle.jc_memory.specs.State.{apply_effect};
ghost use Rattle.jc_memory.specs.Programs.{Executes};
ghost use Rattle.jc_world.specs.NativeCalls.{after_call};
ghost use Rattle.jc_api_framework.specs.System.Transactions.{jc_system_begin_transaction, jc_system_commit_transaction, jc_system_abort_transaction, set_level};
ghost use Rattle.jc_api_framework.specs.System.Transactions.{jc_system_get_transaction_depth, jc_system_get_max_commit_capacity};
ghost use Rattle.jc_api_framework.specs.System.Transactions.{jc_system_get_unused_commit_capacity};

use jc_frames::Outcome;
use jc_frames::reasons::{IN_PROGRESS, NOT_IN_PROGRESS};
use jc_memory::{Depth, Installation, Memory};
use jc_words::WordStore;
use jc_world::{NativeResult, StepExit};

// Sets the applet's own nesting level.
fn set_level<S: WordStore>(depth: Depth, memory: &mut Memory<S>)
    ensures { memory.new ≡ apply_effect (set_level memory.old depth) memory.old }
{
    let mut registers = memory.registers();
    registers.depth = depth;
    memory.set_registers(registers);
}

/// `JCSystem.beginTransaction`: begins a transaction; throws IN_PROGRESS where one is open.
#[inline(always)]
pub fn jc_system_begin_transaction<S: WordStore>(
    memory: &mut Memory<S>,
) -> Result<NativeResult, StepExit>
    requires up { memory.old.heap.down ≡ false }
    ensures { Executes (jc_system_begin_transaction memory.old.registers.depth memory.old)
        memory.old (after_call result memory.new) }
{
    match memory.registers().depth {
        Depth::Inside => return Err(StepExit::Throw(IN_PROGRESS)),
        Depth::Outside => {}
    }
    if !memory.heap().is_open() {
        memory.begin();
    }
    set_level(Depth::Inside, memory);
    Ok(NativeResult::ReturnVoid)
}

/// `JCSystem.commitTransaction`: commits; throws NOT_IN_PROGRESS where no transaction is open. That of an
/// installation stays open.
#[inline(always)]
pub fn jc_system_commit_transaction<S: WordStore>(
    memory: &mut Memory<S>,
) -> Result<NativeResult, StepExit>
    requires up { memory.old.heap.down ≡ false }
    ensures { Executes (jc_system_commit_transaction memory.old.registers.depth memory.old)
        memory.old (after_call result memory.new) }
{
    match memory.registers().depth {
        Depth::Outside => return Err(StepExit::Throw(NOT_IN_PROGRESS)),
        Depth::Inside => {}
    }
    match memory.registers().installation {
        Installation::Open(_, _) => {}
        _ => {
            if memory.heap().is_open() {
                memory.commit()?;
            }
        }
    }
    set_level(Depth::Outside, memory);
    Ok(NativeResult::ReturnVoid)
}

/// `JCSystem.abortTransaction`: aborts; throws NOT_IN_PROGRESS where no transaction is open. References to what
/// is gone become null. While an applet is being installed it ends the installation by a code fault.
pub(crate) fn jc_system_abort_transaction<S: WordStore>(
    memory: &mut Memory<S>,
) -> Result<NativeResult, StepExit>
    requires up { memory.old.heap.down ≡ false }
    ensures { Executes (jc_system_abort_transaction memory.old.registers.depth memory.old)
        memory.old (after_call result memory.new) }
{
    match memory.registers().depth {
        Depth::Outside => return Err(StepExit::Throw(NOT_IN_PROGRESS)),
        Depth::Inside => {}
    }
    if memory.heap().is_open() {
        memory.abort()?;
    }
    set_level(Depth::Outside, memory);
    match memory.registers().installation {
        Installation::Open(_, _) => Err(StepExit::End(Outcome::Fault)),
        _ => Ok(NativeResult::Aborted),
    }
}

/// `JCSystem.getTransactionDepth`: returns 1 within a transaction, else 0.
pub(crate) fn jc_system_get_transaction_depth(depth: Depth) -> i16
    ensures { result ≡ jc_system_get_transaction_depth depth }
{
    match depth {
        Depth::Outside => 0,
        Depth::Inside => 1,
    }
}

/// `JCSystem.getMaxCommitCapacity`: returns the commit capacity, in bytes.
pub(crate) fn jc_system_get_max_commit_capacity<S: WordStore>(memory: &Memory<S>) -> i16
    ensures { result ≡ jc_system_get_max_commit_capacity memory.now }
{
    (4 * memory.commit_capacity()).cast_signed()
}

/// `JCSystem.getUnusedCommitCapacity`: returns the commit capacity that is left, in bytes.
pub(crate) fn jc_system_get_unused_commit_capacity<S: WordStore>(memory: &Memory<S>) -> i16
    ensures { result ≡ jc_system_get_unused_commit_capacity memory.now }
{
    (4 * memory.heap().room()).cast_signed()
}
