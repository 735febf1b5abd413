//! `JCSystem` (API specification).

pub(crate) mod memory;
pub mod sharing;
pub mod transactions;
pub mod transient;

ghost use Rattle.std.specs.Prelude.{◌≡◌, false};
ghost use Rattle.jc_memory.specs.Programs.{Executes};
ghost use Rattle.jc_world.specs.NativeCalls.{after_call};
ghost use Rattle.jc_api_framework.specs.System.{system_call};

use crate::system::memory::{
    jc_system_get_available_memory, jc_system_get_available_memory_shorts,
};
use crate::system::sharing::{
    jc_system_get_aid, jc_system_get_applet_shareable_interface_object,
    jc_system_get_previous_context_aid, jc_system_is_applet_active, jc_system_lookup_aid,
};
use crate::system::transactions::{
    jc_system_abort_transaction, jc_system_begin_transaction, jc_system_commit_transaction,
    jc_system_get_max_commit_capacity, jc_system_get_transaction_depth,
    jc_system_get_unused_commit_capacity,
};
use crate::system::transient::{jc_system_is_transient, jc_system_make_transient_array};
use jc_frames::{Cell, Exception};
use jc_heap::Kind;
use jc_linker::linked::Linked;
use jc_memory::Memory;
use jc_platform::names::SystemMethod::{
    self, JcSystemAbortTransaction, JcSystemBeginTransaction, JcSystemCommitTransaction,
    JcSystemGetAid, JcSystemGetAppletShareableInterfaceObject, JcSystemGetAssignedChannel,
    JcSystemGetAvailableMemory, JcSystemGetAvailableMemoryShorts, JcSystemGetMaxCommitCapacity,
    JcSystemGetPreviousContextAid, JcSystemGetTransactionDepth, JcSystemGetUnusedCommitCapacity,
    JcSystemGetVersion, JcSystemIsAppletActive, JcSystemIsObjectDeletionSupported,
    JcSystemIsTransient, JcSystemLookupAid, JcSystemMakeTransientBooleanArray,
    JcSystemMakeTransientByteArray, JcSystemMakeTransientObjectArray,
    JcSystemMakeTransientShortArray, JcSystemRequestObjectDeletion,
};
use jc_words::WordStore;
use jc_world::{NativeResult, StepExit, boolean, short};

// The version of the API, 3.1: the major one in the high byte.
const API_VERSION: i16 = 0x0301;

// The number of the only channel.
const BASIC_CHANNEL: i16 = 0;

// The call is not there on this card (`SystemException`).
const ILLEGAL_USE_OF_SYSTEM: Exception = Exception::SystemException(6);

/// A call of a method of `JCSystem`. A method of another class is a code fault.
#[tactic(auto, unfolding(crate::specs::System::system_call))]
#[inline(never)]
pub fn call_system<S: WordStore>(
    method: SystemMethod,
    args: &[Cell],
    memory: &mut Memory<S>,
    linked: &Linked,
) -> Result<NativeResult, StepExit>
    requires up { memory.old.heap.down ≡ false }
    ensures { Executes (system_call method args.now linked.now memory.old) memory.old
        (after_call result memory.new) }
{
    match method {
        JcSystemAbortTransaction => jc_system_abort_transaction(memory),
        JcSystemBeginTransaction => jc_system_begin_transaction(memory),
        JcSystemCommitTransaction => jc_system_commit_transaction(memory),
        JcSystemGetAid => Ok(NativeResult::ReturnValue(Cell::Reference(jc_system_get_aid(memory)))),
        JcSystemGetAppletShareableInterfaceObject =>
            jc_system_get_applet_shareable_interface_object(args, memory, linked),
        JcSystemGetMaxCommitCapacity => Ok(short(jc_system_get_max_commit_capacity(memory))),
        JcSystemGetPreviousContextAid => Ok(NativeResult::ReturnValue(Cell::Reference(
            jc_system_get_previous_context_aid(memory),
        ))),
        JcSystemGetTransactionDepth => Ok(short(jc_system_get_transaction_depth(
            memory.registers().depth,
        ))),
        JcSystemGetUnusedCommitCapacity => Ok(short(jc_system_get_unused_commit_capacity(memory))),
        JcSystemIsTransient => jc_system_is_transient(args, memory),
        JcSystemLookupAid => jc_system_lookup_aid(args, memory, linked),
        JcSystemMakeTransientBooleanArray => jc_system_make_transient_array(
            Kind::BooleanArray,
            args,
            memory,
            linked,
        ),
        JcSystemMakeTransientByteArray => jc_system_make_transient_array(
            Kind::ByteArray,
            args,
            memory,
            linked,
        ),
        JcSystemMakeTransientObjectArray => jc_system_make_transient_array(
            Kind::ReferenceArray,
            args,
            memory,
            linked,
        ),
        JcSystemMakeTransientShortArray => jc_system_make_transient_array(
            Kind::ShortArray,
            args,
            memory,
            linked,
        ),
        JcSystemGetVersion => Ok(short(API_VERSION)),
        JcSystemIsObjectDeletionSupported => Ok(boolean(false)),
        JcSystemRequestObjectDeletion => Err(StepExit::Throw(ILLEGAL_USE_OF_SYSTEM)),
        JcSystemIsAppletActive => jc_system_is_applet_active(args, memory, linked),
        JcSystemGetAssignedChannel => Ok(short(BASIC_CHANNEL)),
        JcSystemGetAvailableMemory => jc_system_get_available_memory(args, memory),
        JcSystemGetAvailableMemoryShorts => {
            jc_system_get_available_memory_shorts(args, memory, linked)
        }
    }
}
