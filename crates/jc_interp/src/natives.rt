//! Calls of the platform's methods.
ghost use Rattle.std.specs.Prelude.{◌≡◌, false};
ghost use Rattle.jc_memory.specs.Programs.{Executes};
ghost use Rattle.jc_world.specs.NativeCalls.{after_call};
ghost use Rattle.jc_interp.specs.Natives.{native_call};

use jc_api_ciphers::call_cipher;
use jc_api_crypto::call_engine;
use jc_api_framework::{
    apdu_get_buffer, apdu_set_outgoing_and_send, call_aid, call_apdu, call_applet, call_event,
    call_exception, call_object, call_pin, call_system, call_util, jc_system_begin_transaction,
    jc_system_commit_transaction, util_get_short, util_set_short,
};
use jc_api_keys::{call_ec_key, call_key, call_rsa_key};
use jc_api_pairs::call_pair;
use jc_frames::{Cell, Outcome};
use jc_linker::linked::Linked;
use jc_memory::Memory;
use jc_platform::names::{
    ApdusMethod, AppletsMethod, PlatformMethod, SystemMethod, UtilitiesMethod,
};
use jc_words::WordStore;
use jc_world::{NativeResult, StepExit, boolean};

/// Carries out any method of the platform, out of line.
#[tactic(auto, unfolding(crate::specs::Natives::native_call))]
#[inline(never)]
pub(crate) fn call_other<S: WordStore>(
    method: PlatformMethod,
    args: &[Cell],
    memory: &mut Memory<S>,
    linked: &Linked,
) -> Result<NativeResult, StepExit>
    requires up { memory.old.heap.down ≡ false }
    ensures { Executes (native_call method args.now linked.now memory.old) memory.old
        (after_call result memory.new) }
{
    match method {
        PlatformMethod::Objects(method) => call_object(method, args, memory),
        PlatformMethod::Exceptions(method) => call_exception(method, args, memory),
        PlatformMethod::Utilities(method) => call_util(method, args, memory, linked),
        PlatformMethod::System(method) => call_system(method, args, memory, linked),
        PlatformMethod::Aids(method) => call_aid(method, args, memory, linked),
        PlatformMethod::Pins(method) => call_pin(method, args, memory, linked),
        PlatformMethod::Applets(method) => call_applet(method, args, memory, linked),
        PlatformMethod::Apdus(method) => call_apdu(method, args, memory, linked),
        PlatformMethod::Events(method) => call_event(method, memory),
        PlatformMethod::Engines(method) => call_engine(method, args, memory, linked),
        PlatformMethod::Keys(method) => call_key(method, args, memory, linked),
        PlatformMethod::KeyInterfaces(_) => Err(StepExit::End(Outcome::Fault)),
        PlatformMethod::Ciphers(method) => call_cipher(method, args, memory, linked),
        PlatformMethod::RsaKeys(method) => call_rsa_key(method, args, memory, linked),
        PlatformMethod::EcKeys(method) => call_ec_key(method, args, memory, linked),
        PlatformMethod::RsaInterfaces(_) | PlatformMethod::EcInterfaces(_) => Err(StepExit::End(
            Outcome::Fault,
        )),
        PlatformMethod::KeyPairs(method) => call_pair(method, args, memory, linked),
    }
}

/// Carries out a method of the platform with these arguments, the receiver first, in the caller's
/// context. Those that commands call most are called without a way over their room.
#[tactic(auto, unfolding(crate::specs::Natives::native_call, jc_api_framework::specs::Apdu::apdu_call, jc_api_framework::specs::Util::util_call, jc_api_framework::specs::Util::util_answer, jc_api_framework::specs::System::system_call, jc_api_framework::specs::Applet::applet_call))]
#[inline(always)]
pub fn call_native<S: WordStore>(
    method: PlatformMethod,
    args: &[Cell],
    memory: &mut Memory<S>,
    linked: &Linked,
) -> Result<NativeResult, StepExit>
    requires up { memory.old.heap.down ≡ false }
    ensures { Executes (native_call method args.now linked.now memory.old) memory.old
        (after_call result memory.new) }
{
    match method {
        PlatformMethod::Utilities(UtilitiesMethod::UtilGetShort) => {
            util_get_short(args, memory, linked)
        }
        PlatformMethod::Utilities(UtilitiesMethod::UtilSetShort) => {
            util_set_short(args, memory, linked)
        }
        PlatformMethod::System(SystemMethod::JcSystemBeginTransaction) => {
            jc_system_begin_transaction(memory)
        }
        PlatformMethod::System(SystemMethod::JcSystemCommitTransaction) => {
            jc_system_commit_transaction(memory)
        }
        PlatformMethod::Applets(AppletsMethod::AppletSelectingApplet) => {
            Ok(boolean(memory.registers().selecting))
        }
        PlatformMethod::Apdus(ApdusMethod::ApduGetBuffer) => apdu_get_buffer(memory),
        PlatformMethod::Apdus(ApdusMethod::ApduSetOutgoingAndSend) => {
            apdu_set_outgoing_and_send(args, memory)
        }
        PlatformMethod::Exceptions(method) => call_exception(method, args, memory),
        other => call_other(other, args, memory, linked),
    }
}
