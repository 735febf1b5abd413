//! `InitializedMessageDigest` (API specification).

ghost use Rattle.std.specs.Prelude.{◌≡◌, ◌≤◌, false, Some};
ghost use Rattle.jc_digests.specs.Kept.{hash_size};
ghost use Rattle.jc_memory.specs.Programs.{Executes};
ghost use Rattle.jc_world.specs.Arrays.{IsInArray, bytes_in};
ghost use Rattle.jc_world.specs.NativeCalls.{after_call};
ghost use Rattle.jc_platform.specs.declared.names.PlatformClass.TheVariants as class;
ghost use Rattle.jc_api.specs.Changing.{changing_call};
ghost use Rattle.jc_api_crypto.specs.InitializedMessageDigest.{begins_after, begins_from, count_before, count_in, initialized_message_digest_set_initial_digest, is_counted, is_whole};
ghost use Rattle.jc_api_keys.specs.DigestStates.{IsRunning};

use crate::message_digest::running_digest;
use crate::message_digest::state::set_bytes;
use jc_api::{MOST_ELEMENTS, counted_of};
use jc_api_keys::digest_states::RunningDigest;
use jc_api_keys::exceptions::ILLEGAL_VALUE;
use jc_api_keys::receivers::read;
use jc_digests::kept::{HashAlgorithm, MOST_HASH, MOST_STATE, begin_state};
use jc_frames::Cell;
use jc_linker::linked::Linked;
use jc_memory::Memory;
use jc_platform::names::PlatformClass;
use jc_words::WordStore;
use jc_world::{NativeResult, StepExit, Stretch};

// The number that bytes are, the high byte first, where a state can count up to it.
fn count_in(bytes: &[u8]) -> Option<u64>
    ensures { result ≡ count_in bytes.now }
{
    let mut count: u64 = 0;
    'bytes: for i in 0..bytes.len() {
        if count > u64::MAX / 256 {
            return None;
        }
        count = count * 256 + u64::from(bytes[i]);
    }
    Some(count)
}

// The length that ends the padding can be that of this number of bytes.
fn is_counted(algorithm: HashAlgorithm, count: u64) -> bool
    ensures { result ≡ is_counted algorithm count }
{
    match algorithm {
        HashAlgorithm::Md5 | HashAlgorithm::Sha1 | HashAlgorithm::Sha224 | HashAlgorithm::Sha256 =>
            count < 1 << 61,
        HashAlgorithm::Sha384 | HashAlgorithm::Sha512 => true,
    }
}

// So many bytes are whole blocks, and some.
fn is_whole(algorithm: HashAlgorithm, count: u64) -> bool
    ensures { result ≡ is_whole algorithm count }
{
    count != 0 && count % (algorithm.block_size() as u64) == 0
}

// How many bytes came before a hash value, which is of this many bytes, if it may be set.
fn count_before(algorithm: HashAlgorithm, long: u16, bytes: &[u8]) -> Option<u64>
    ensures { result ≡ count_before algorithm long bytes.now }
{
    if usize::from(long) != algorithm.hash_size() {
        return None;
    }
    let count = count_in(bytes)?;
    if is_whole(algorithm, count) && is_counted(algorithm, count) {
        Some(count)
    } else {
        None
    }
}

// The same of elements.
#[inline(never)]
fn count_of<S: WordStore>(
    algorithm: HashAlgorithm,
    long: u16,
    count: Stretch,
    memory: &Memory<S>,
) -> Option<u64>
    requires up { memory.now.heap.down ≡ false }
    requires there { IsInArray memory.now count }
    requires few { count.count ≤ MOST_ELEMENTS }
    ensures { result ≡ count_before algorithm long (bytes_in memory.now count) }
{
    let mut buffer = [0; MOST_ELEMENTS];
    let bytes = &mut buffer[..count.count as usize];
    read(count, memory, bytes);
    count_before(algorithm, long, bytes)
}

// Sets the state after a number of bytes, whose hash value is this one.
fn begin_after<S: WordStore>(
    own: &RunningDigest,
    hash: Stretch,
    count: u64,
    memory: &mut Memory<S>,
    linked: &Linked,
) -> Result<NativeResult, StepExit>
    requires up { memory.old.heap.down ≡ false }
    requires own { IsRunning memory.old own.now }
    requires hash { IsInArray memory.old hash }
    requires all { hash.count ≡ hash_size own.now.algorithm }
    ensures { Executes (changing_call (begins_after memory.old own.now hash (Some count)) linked.now memory.old)
        memory.old (after_call result memory.new) }
{
    let mut buffer = [0; MOST_HASH];
    let value = &mut buffer[..own.algorithm.hash_size()];
    read(hash, memory, value);
    let mut state = [0; MOST_STATE];
    let bytes = &mut state[..own.algorithm.state_size()];
    begin_state(own.algorithm, value, count, bytes);
    set_bytes(own, bytes, memory, linked)
}

// Sets the state after a number of bytes: some elements are the number, others the hash value.
fn begin<S: WordStore>(
    own: &RunningDigest,
    hash: Stretch,
    count: Stretch,
    memory: &mut Memory<S>,
    linked: &Linked,
) -> Result<NativeResult, StepExit>
    requires up { memory.old.heap.down ≡ false }
    requires own { IsRunning memory.old own.now }
    requires hash { IsInArray memory.old hash }
    requires count { IsInArray memory.old count }
    requires few { count.count ≤ MOST_ELEMENTS }
    ensures { Executes (changing_call (begins_from memory.old own.now hash count) linked.now memory.old)
        memory.old (after_call result memory.new) }
{
    let Some(before) = count_of(own.algorithm, hash.count, count, memory) else {
        return Err(StepExit::Throw(ILLEGAL_VALUE));
    };
    begin_after(own, hash, before, memory, linked)
}

/// `InitializedMessageDigest.setInitialDigest`: the hash value of the first bytes of a message is given, and how many these are.
#[tactic(auto, unfolding(crate::specs::InitializedMessageDigest::initialized_message_digest_set_initial_digest))]
pub(crate) fn initialized_message_digest_set_initial_digest<S: WordStore>(
    args: &[Cell],
    memory: &mut Memory<S>,
    linked: &Linked,
) -> Result<NativeResult, StepExit>
    requires up { memory.old.heap.down ≡ false }
    ensures { Executes (changing_call (initialized_message_digest_set_initial_digest args.now linked.now memory.old)
        linked.now memory.old) memory.old (after_call result memory.new) }
{
    let own = running_digest(
        PlatformClass::InitializedMessageDigest,
        args,
        memory,
        linked,
    )?;
    let hash = counted_of(1, args, memory, linked)?;
    let count = counted_of(4, args, memory, linked)?;
    begin(&own, hash, count, memory, linked)
}
