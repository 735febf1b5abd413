//! Key objects that calls of other objects are given, and that these have kept.
ghost use Rattle.std.specs.Prelude.{◌≡◌, false, IfOk};
ghost use Rattle.jc_firewall.specs.declared.access.Access.TheVariants.{VirtualCall};
ghost use Rattle.jc_world.specs.Contexts.{firewall_check};
ghost use Rattle.jc_api.specs.Exits.{plainly};
ghost use Rattle.jc_api_keys.specs.KeyObjects.Arguments.{if_key, key_argument, key_at, key_cells};
ghost use Rattle.jc_api_keys.specs.KeyObjects.Contents.{IsKey};

use crate::exceptions::ILLEGAL_VALUE;
use crate::key_objects::contents::{Key, key_of};
use crate::receivers::{Receiver, instance_of_two};
use jc_firewall::access::Access;
use jc_frames::{Cell, FrameExit, Outcome};
use jc_heap::Facts;
use jc_linker::linked::Linked;
use jc_memory::Memory;
use jc_platform::names::PlatformClass;
use jc_transient::Ref;
use jc_words::WordStore;
use jc_world::arguments::reference_argument;
use jc_world::contexts::allow;
use jc_world::objects::is_instance_of;

// The firewall allows a virtual call, or throws.
fn allow_call<S: WordStore>(
    facts: Facts,
    memory: &Memory<S>,
    linked: &Linked,
) -> Result<(), FrameExit>
    requires up { memory.now.heap.down ≡ false }
    ensures allowed { result ≡ firewall_check VirtualCall linked.now memory.now facts }
    ensures plain { plainly result ≡ result }
{
    allow(Access::VirtualCall, facts, memory, linked)
}

// The key object that its cells make.
fn key_cells<S: WordStore>(key: Ref, memory: &Memory<S>, linked: &Linked) -> Result<Key, FrameExit>
    requires up { memory.now.heap.down ≡ false }
    ensures key { result ≡ key_cells linked.now memory.now key }
    ensures there { IfOk result (IsKey memory.now) }
    ensures plain { plainly result ≡ result }
{
    let _facts = instance_of_two(key, memory)?;
    let own = Receiver {
        own: key,
        number: memory.short(key, 0),
        array: memory.reference(key, 1),
    };
    key_of(&own, memory, linked)
}

// An object with this header is a key object of the platform, or ILLEGAL_VALUE is thrown.
fn if_key<S: WordStore>(
    key: Ref,
    facts: Facts,
    memory: &Memory<S>,
    linked: &Linked,
) -> Result<Key, FrameExit>
    requires up { memory.now.heap.down ≡ false }
    ensures key { result ≡ if_key linked.now memory.now key facts }
    ensures there { IfOk result (IsKey memory.now) }
    ensures plain { plainly result ≡ result }
{
    let class = linked.platform().class_word(PlatformClass::KeyObject);
    if !is_instance_of(facts, class, linked) {
        return Err(FrameExit::Throw(ILLEGAL_VALUE));
    }
    key_cells(key, memory, linked)
}

/// The key object that a reference names, which a call is given or an object has kept. Null throws ILLEGAL_VALUE; then the firewall throws as
/// for a virtual call; then what is no key object of the platform ILLEGAL_VALUE.
#[tactic(auto, unfolding(crate::specs::KeyObjects::Arguments::key_at))]
pub fn key_at<S: WordStore>(key: Ref, memory: &Memory<S>, linked: &Linked) -> Result<Key, FrameExit>
    requires up { memory.now.heap.down ≡ false }
    ensures key { result ≡ key_at linked.now memory.now key }
    ensures there { IfOk result (IsKey memory.now) }
    ensures plain { plainly result ≡ result }
{
    if key.is_null() {
        return Err(FrameExit::Throw(ILLEGAL_VALUE));
    }
    let Some(facts) = memory.header(key) else {
        return Err(FrameExit::End(Outcome::Fault));
    };
    allow_call(facts, memory, linked)?;
    if_key(key, facts, memory, linked)
}

/// The key object that an argument names.
pub fn key_argument<S: WordStore>(
    place: u8,
    args: &[Cell],
    memory: &Memory<S>,
    linked: &Linked,
) -> Result<Key, FrameExit>
    requires up { memory.now.heap.down ≡ false }
    ensures key { result ≡ key_argument place args.now linked.now memory.now }
    ensures there { IfOk result (IsKey memory.now) }
    ensures plain { plainly result ≡ result }
{
    let key = reference_argument(args, usize::from(place))?;
    key_at(key, memory, linked)
}
