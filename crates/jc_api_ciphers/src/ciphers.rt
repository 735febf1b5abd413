//! The calls of `Cipher` and `Signature`.
ghost use Rattle.std.specs.Prelude.{◌≡◌, false};
ghost use Rattle.jc_memory.specs.Programs.{Executes};
ghost use Rattle.jc_world.specs.NativeCalls.{after_call};
ghost use Rattle.jc_api_ciphers.specs.Ciphers.{cipher_call};

use crate::cipher::{
    cipher_do_final, cipher_get_algorithm, cipher_get_cipher_algorithm, cipher_get_instance,
    cipher_get_instance_of_cipher_and_padding, cipher_get_padding_algorithm, cipher_init,
    cipher_init_with_vector, cipher_update,
};
use crate::signature::{
    signature_get_algorithm, signature_get_cipher_algorithm, signature_get_instance,
    signature_get_instance_of_digest_cipher_and_padding, signature_get_length,
    signature_get_message_digest_algorithm, signature_get_padding_algorithm, signature_init,
    signature_init_with_vector, signature_sign, signature_update, signature_verify,
};
use jc_frames::Cell;
use jc_linker::linked::Linked;
use jc_memory::Memory;
use jc_platform::names::CiphersMethod;
use jc_words::WordStore;
use jc_world::{NativeResult, StepExit};

/// A call of a method of `Cipher` or `Signature`.
#[tactic(auto, unfolding(crate::specs::Ciphers::cipher_call))]
#[inline(never)]
pub fn call_cipher<S: WordStore>(
    method: CiphersMethod,
    args: &[Cell],
    memory: &mut Memory<S>,
    linked: &Linked,
) -> Result<NativeResult, StepExit>
    requires up { memory.old.heap.down ≡ false }
    ensures { Executes (cipher_call method args.now linked.now memory.old) memory.old
        (after_call result memory.new) }
{
    match method {
        CiphersMethod::CipherGetInstance => cipher_get_instance(args, memory, linked),
        CiphersMethod::CipherGetInstanceOfCipherAndPadding => {
            cipher_get_instance_of_cipher_and_padding(args, memory, linked)
        }
        CiphersMethod::CipherInit => cipher_init(args, memory, linked),
        CiphersMethod::CipherInitWithVector => cipher_init_with_vector(args, memory, linked),
        CiphersMethod::CipherUpdate => cipher_update(args, memory, linked),
        CiphersMethod::CipherDoFinal => cipher_do_final(args, memory, linked),
        CiphersMethod::CipherGetAlgorithm => cipher_get_algorithm(args, memory, linked),
        CiphersMethod::CipherGetCipherAlgorithm => {
            cipher_get_cipher_algorithm(args, memory, linked)
        }
        CiphersMethod::CipherGetPaddingAlgorithm => {
            cipher_get_padding_algorithm(args, memory, linked)
        }
        CiphersMethod::SignatureGetInstance => signature_get_instance(args, memory, linked),
        CiphersMethod::SignatureGetInstanceOfDigestCipherAndPadding => {
            signature_get_instance_of_digest_cipher_and_padding(args, memory, linked)
        }
        CiphersMethod::SignatureInit => signature_init(args, memory, linked),
        CiphersMethod::SignatureInitWithVector => signature_init_with_vector(args, memory, linked),
        CiphersMethod::SignatureUpdate => signature_update(args, memory, linked),
        CiphersMethod::SignatureSign => signature_sign(args, memory, linked),
        CiphersMethod::SignatureVerify => signature_verify(args, memory, linked),
        CiphersMethod::SignatureGetAlgorithm => signature_get_algorithm(args, memory, linked),
        CiphersMethod::SignatureGetMessageDigestAlgorithm => {
            signature_get_message_digest_algorithm(args, memory, linked)
        }
        CiphersMethod::SignatureGetCipherAlgorithm => {
            signature_get_cipher_algorithm(args, memory, linked)
        }
        CiphersMethod::SignatureGetPaddingAlgorithm => {
            signature_get_padding_algorithm(args, memory, linked)
        }
        CiphersMethod::SignatureGetLength => signature_get_length(args, memory, linked),
    }
}
