//! The calls of `KeyBuilder` and of key objects.
ghost use Rattle.std.specs.Prelude.{◌≡◌, false};
ghost use Rattle.jc_memory.specs.Programs.{Executes};
ghost use Rattle.jc_world.specs.NativeCalls.{after_call};
ghost use Rattle.jc_api_keys.specs.Keys.{key_call};

use crate::key_builder::key_builder_build_key;
use crate::key_objects::{
    hmac_key_object_set_key, key_object_clear_key, key_object_get_key, key_object_get_size,
    key_object_get_type, key_object_is_initialized, key_object_set_key,
};
use jc_frames::Cell;
use jc_linker::linked::Linked;
use jc_memory::Memory;
use jc_platform::names::KeysMethod;
use jc_words::WordStore;
use jc_world::{NativeResult, StepExit};

/// A call of a method of `KeyBuilder` or of a key object.
#[tactic(auto, unfolding(crate::specs::Keys::key_call))]
#[inline(never)]
pub fn call_key<S: WordStore>(
    method: KeysMethod,
    args: &[Cell],
    memory: &mut Memory<S>,
    linked: &Linked,
) -> Result<NativeResult, StepExit>
    requires up { memory.old.heap.down ≡ false }
    ensures { Executes (key_call method args.now linked.now memory.old) memory.old
        (after_call result memory.new) }
{
    match method {
        KeysMethod::KeyBuilderBuildKey => key_builder_build_key(args, memory, linked),
        KeysMethod::KeyObjectClearKey => key_object_clear_key(args, memory, linked),
        KeysMethod::KeyObjectGetSize => key_object_get_size(args, memory, linked),
        KeysMethod::KeyObjectGetType => key_object_get_type(args, memory, linked),
        KeysMethod::KeyObjectIsInitialized => key_object_is_initialized(args, memory, linked),
        KeysMethod::KeyObjectGetKey => key_object_get_key(args, memory, linked),
        KeysMethod::KeyObjectSetKey => key_object_set_key(args, memory, linked),
        KeysMethod::HmacKeyObjectSetKey => hmac_key_object_set_key(args, memory, linked),
    }
}
