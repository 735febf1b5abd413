//! The calls of `KeyPair` and `KeyAgreement`.
ghost use Rattle.std.specs.Prelude.{◌≡◌, false};
ghost use Rattle.jc_memory.specs.Programs.{Executes};
ghost use Rattle.jc_world.specs.NativeCalls.{after_call};
ghost use Rattle.jc_api_pairs.specs.Pairs.{pair_call};

use crate::key_agreement::{
    key_agreement_generate_secret, key_agreement_get_algorithm, key_agreement_get_instance,
    key_agreement_init,
};
use crate::key_pair::keys::{PRIVATE_CELL, PUBLIC_CELL};
use crate::key_pair::{key_pair_gen_key_pair, key_pair_init, key_pair_init_of_keys};
use jc_api::kept_reference;
use jc_frames::Cell;
use jc_linker::linked::Linked;
use jc_memory::Memory;
use jc_platform::key_methods::KeyPairsMethod;
use jc_platform::names::PlatformClass;
use jc_words::WordStore;
use jc_world::{NativeResult, StepExit};

/// A call of a method of `KeyPair` or `KeyAgreement`.
#[tactic(auto, unfolding(crate::specs::Pairs::pair_call))]
#[inline(never)]
pub fn call_pair<S: WordStore>(
    method: KeyPairsMethod,
    args: &[Cell],
    memory: &mut Memory<S>,
    linked: &Linked,
) -> Result<NativeResult, StepExit>
    requires up { memory.old.heap.down ≡ false }
    ensures { Executes (pair_call method args.now linked.now memory.old) memory.old
        (after_call result memory.new) }
{
    match method {
        KeyPairsMethod::KeyPairInit => key_pair_init(args, memory, linked),
        KeyPairsMethod::KeyPairInitOfKeys => key_pair_init_of_keys(args, memory, linked),
        KeyPairsMethod::KeyPairGenKeyPair => key_pair_gen_key_pair(args, memory, linked),
        KeyPairsMethod::KeyPairGetPublic => kept_reference(
            PlatformClass::KeyPair,
            PUBLIC_CELL,
            args,
            memory,
            linked,
        ),
        KeyPairsMethod::KeyPairGetPrivate => kept_reference(
            PlatformClass::KeyPair,
            PRIVATE_CELL,
            args,
            memory,
            linked,
        ),
        KeyPairsMethod::KeyAgreementGetInstance => key_agreement_get_instance(args, memory, linked),
        KeyPairsMethod::KeyAgreementInit => key_agreement_init(args, memory, linked),
        KeyPairsMethod::KeyAgreementGenerateSecret => key_agreement_generate_secret(
            args, memory, linked,
        ),
        KeyPairsMethod::KeyAgreementGetAlgorithm => key_agreement_get_algorithm(
            args, memory, linked,
        ),
    }
}
