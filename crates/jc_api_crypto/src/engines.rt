//! The calls of `javacard.security`.
ghost use Rattle.std.specs.Prelude.{◌≡◌, false};
ghost use Rattle.jc_memory.specs.Programs.{Executes};
ghost use Rattle.jc_world.specs.NativeCalls.{after_call};
ghost use Rattle.jc_api_crypto.specs.Engines.{engine_call};

use crate::checksum::{
    checksum_do_final, checksum_get_algorithm, checksum_get_instance, checksum_init,
    checksum_update,
};
use crate::initialized_message_digest::initialized_message_digest_set_initial_digest;
use crate::message_digest::{
    message_digest_do_final, message_digest_get_algorithm,
    message_digest_get_initialized_message_digest_instance, message_digest_get_instance,
    message_digest_get_length, message_digest_reset, message_digest_update,
};
use crate::random_data::{
    random_data_generate_data, random_data_get_algorithm, random_data_get_instance,
    random_data_next_bytes, random_data_set_seed,
};
use jc_frames::Cell;
use jc_linker::linked::Linked;
use jc_memory::Memory;
use jc_platform::names::EnginesMethod;
use jc_words::WordStore;
use jc_world::{NativeResult, StepExit};

/// A call of a method of `javacard.security`.
#[tactic(auto, unfolding(crate::specs::Engines::engine_call))]
#[inline(never)]
pub fn call_engine<S: WordStore>(
    method: EnginesMethod,
    args: &[Cell],
    memory: &mut Memory<S>,
    linked: &Linked,
) -> Result<NativeResult, StepExit>
    requires up { memory.old.heap.down ≡ false }
    ensures { Executes (engine_call method args.now linked.now memory.old) memory.old
        (after_call result memory.new) }
{
    match method {
        EnginesMethod::MessageDigestGetInstance => {
            message_digest_get_instance(args, memory, linked)
        }
        EnginesMethod::MessageDigestGetAlgorithm => {
            message_digest_get_algorithm(args, memory, linked)
        }
        EnginesMethod::MessageDigestGetLength => message_digest_get_length(args, memory, linked),
        EnginesMethod::MessageDigestUpdate => message_digest_update(args, memory, linked),
        EnginesMethod::MessageDigestDoFinal => message_digest_do_final(args, memory, linked),
        EnginesMethod::MessageDigestReset => message_digest_reset(args, memory, linked),
        EnginesMethod::MessageDigestGetInitializedMessageDigestInstance => {
            message_digest_get_initialized_message_digest_instance(args, memory, linked)
        }
        EnginesMethod::ChecksumGetInstance => checksum_get_instance(args, memory, linked),
        EnginesMethod::ChecksumGetAlgorithm => checksum_get_algorithm(args, memory, linked),
        EnginesMethod::ChecksumInit => checksum_init(args, memory, linked),
        EnginesMethod::ChecksumUpdate => checksum_update(args, memory, linked),
        EnginesMethod::ChecksumDoFinal => checksum_do_final(args, memory, linked),
        EnginesMethod::RandomDataGetInstance => random_data_get_instance(args, memory, linked),
        EnginesMethod::RandomDataGenerateData => random_data_generate_data(args, memory, linked),
        EnginesMethod::RandomDataNextBytes => random_data_next_bytes(args, memory, linked),
        EnginesMethod::RandomDataSetSeed => random_data_set_seed(args, memory, linked),
        EnginesMethod::RandomDataGetAlgorithm => random_data_get_algorithm(args, memory, linked),
        EnginesMethod::InitializedMessageDigestSetInitialDigest => {
            initialized_message_digest_set_initial_digest(args, memory, linked)
        }
    }
}
