//! The calls of RSA keys (API specification): `RSAPublicKey`, `RSAPrivateKey` and `RSAPrivateCrtKey`.
ghost use Rattle.std.specs.Prelude.{◌≡◌, false};
ghost use Rattle.jc_memory.specs.Programs.{Executes};
ghost use Rattle.jc_world.specs.NativeCalls.{after_call};
ghost use Rattle.jc_api_keys.specs.RsaKeys.{rsa_key_call};

use crate::key_objects::parts::{get_part, set_part};
use crate::key_parts::KeyPart;
use jc_frames::Cell;
use jc_linker::linked::Linked;
use jc_memory::Memory;
use jc_platform::key_methods::RsaKeysMethod;
use jc_words::WordStore;
use jc_world::{NativeResult, StepExit};

/// A call of a method of an RSA key.
#[tactic(auto, unfolding(crate::specs::RsaKeys::rsa_key_call))]
#[inline(never)]
pub fn call_rsa_key<S: WordStore>(
    method: RsaKeysMethod,
    args: &[Cell],
    memory: &mut Memory<S>,
    linked: &Linked,
) -> Result<NativeResult, StepExit>
    requires up { memory.old.heap.down ≡ false }
    ensures { Executes (rsa_key_call method args.now linked.now memory.old) memory.old
        (after_call result memory.new) }
{
    match method {
        RsaKeysMethod::RsaKeyObjectSetModulus => set_part(KeyPart::Modulus, args, memory, linked),
        RsaKeysMethod::RsaKeyObjectSetExponent => set_part(KeyPart::Exponent, args, memory, linked),
        RsaKeysMethod::RsaKeyObjectGetModulus => get_part(KeyPart::Modulus, args, memory, linked),
        RsaKeysMethod::RsaKeyObjectGetExponent => get_part(KeyPart::Exponent, args, memory, linked),
        RsaKeysMethod::RsaPrivateCrtKeyObjectSetP => set_part(KeyPart::P, args, memory, linked),
        RsaKeysMethod::RsaPrivateCrtKeyObjectSetQ => set_part(KeyPart::Q, args, memory, linked),
        RsaKeysMethod::RsaPrivateCrtKeyObjectSetDp1 => set_part(KeyPart::Dp1, args, memory, linked),
        RsaKeysMethod::RsaPrivateCrtKeyObjectSetDq1 => set_part(KeyPart::Dq1, args, memory, linked),
        RsaKeysMethod::RsaPrivateCrtKeyObjectSetPq => set_part(KeyPart::Pq, args, memory, linked),
        RsaKeysMethod::RsaPrivateCrtKeyObjectGetP => get_part(KeyPart::P, args, memory, linked),
        RsaKeysMethod::RsaPrivateCrtKeyObjectGetQ => get_part(KeyPart::Q, args, memory, linked),
        RsaKeysMethod::RsaPrivateCrtKeyObjectGetDp1 => get_part(KeyPart::Dp1, args, memory, linked),
        RsaKeysMethod::RsaPrivateCrtKeyObjectGetDq1 => get_part(KeyPart::Dq1, args, memory, linked),
        RsaKeysMethod::RsaPrivateCrtKeyObjectGetPq => get_part(KeyPart::Pq, args, memory, linked),
    }
}
