//! The keys of a pair.
ghost use Rattle.std.specs.Prelude.{◌≡◌, false, IfOk};
ghost use Rattle.jc_firewall.specs.declared.access.Access.TheVariants.{InstanceField};
ghost use Rattle.jc_world.specs.Contexts.{firewall_check};
ghost use Rattle.jc_api.specs.Exits.{plainly};
ghost use Rattle.jc_api_keys.specs.KeyObjects.Contents.{IsKey};
ghost use Rattle.jc_api_pairs.specs.KeyPair.Keys.{IsPair, keys_at, own_if, own_pair, pair_called};

use crate::key_pair::kinds::{PairKind, kind_of_keys};
use jc_api::persistent_called;
use jc_api_keys::key_objects::arguments::key_at;
use jc_api_keys::key_objects::contents::Key;
use jc_firewall::access::Access;
use jc_frames::{Cell, FrameExit, Outcome};
use jc_heap::Facts;
use jc_linker::linked::Linked;
use jc_memory::Memory;
use jc_platform::names::PlatformClass;
use jc_transient::Ref;
use jc_words::WordStore;
use jc_world::contexts::allow;

/// A pair, and its keys.
#[derive(Clone, Copy)]
pub struct KeysOfPair {
    pub own: Ref,
    pub kind: PairKind,
    pub public: Key,
    pub private: Key,
}

// How many cells a pair has.
const PAIR_CELLS: u16 = 3;

/// The cell of a pair that says how many times its keys were made.
pub(crate) const TIMES_CELL: u16 = 0;

/// The cells that name its keys.
pub(crate) const PUBLIC_CELL: u16 = 1;

pub(crate) const PRIVATE_CELL: u16 = 2;

// The firewall allows an access to fields, or throws.
fn allow_fields<S: WordStore>(
    facts: Facts,
    memory: &Memory<S>,
    linked: &Linked,
) -> Result<(), FrameExit>
    requires up { memory.now.heap.down ≡ false }
    ensures allowed { result ≡ firewall_check InstanceField linked.now memory.now facts }
    ensures plain { plainly result ≡ result }
{
    allow(Access::InstanceField, facts, memory, linked)
}

// The pair, if the code that runs may set its fields.
fn own_if<S: WordStore>(own: Ref, memory: &Memory<S>, linked: &Linked) -> Result<Ref, FrameExit>
    requires up { memory.now.heap.down ≡ false }
    requires pair { IsPair memory.now own }
    ensures own { result ≡ own_if linked.now memory.now own }
    ensures there { IfOk result (IsPair memory.now) }
    ensures plain { plainly result ≡ result }
{
    allow_fields(memory.facts(own), memory, linked)?;
    Ok(own)
}

/// The pair that is called. Null throws, SecurityException where the code that runs may not set its fields, and anything else is a code fault.
#[tactic(auto, unfolding(crate::specs::KeyPair::Keys::own_pair))]
pub(crate) fn own_pair<S: WordStore>(
    args: &[Cell],
    memory: &Memory<S>,
    linked: &Linked,
) -> Result<Ref, FrameExit>
    requires up { memory.now.heap.down ≡ false }
    ensures own { result ≡ own_pair args.now linked.now memory.now }
    ensures there { IfOk result (IsPair memory.now) }
    ensures plain { plainly result ≡ result }
{
    let own = persistent_called(PlatformClass::KeyPair, PAIR_CELLS, args, memory, linked)?;
    own_if(own, memory, linked)
}

// The keys that the cells of a pair name. What is no pair is a code fault.
fn keys_at<S: WordStore>(
    own: Ref,
    public: Ref,
    private: Ref,
    memory: &Memory<S>,
    linked: &Linked,
) -> Result<KeysOfPair, FrameExit>
    requires up { memory.now.heap.down ≡ false }
    requires pair { IsPair memory.now own }
    ensures keys { result ≡ keys_at linked.now memory.now own public private }
    ensures own { IfOk result (λ pair. IsPair memory.now pair.own) }
    ensures public { IfOk result (λ pair. IsKey memory.now pair.public) }
    ensures private { IfOk result (λ pair. IsKey memory.now pair.private) }
    ensures plain { plainly result ≡ result }
{
    let public = key_at(public, memory, linked)?;
    let private = key_at(private, memory, linked)?;
    let Some(kind) = kind_of_keys(&public, &private) else {
        return Err(FrameExit::End(Outcome::Fault));
    };
    Ok(KeysOfPair {
        own,
        kind,
        public,
        private,
    })
}

/// The pair that is called, and its keys. Null throws, and anything but a pair is a code fault.
#[tactic(auto, unfolding(crate::specs::KeyPair::Keys::pair_called))]
pub(crate) fn pair_called<S: WordStore>(
    args: &[Cell],
    memory: &Memory<S>,
    linked: &Linked,
) -> Result<KeysOfPair, FrameExit>
    requires up { memory.now.heap.down ≡ false }
    ensures keys { result ≡ pair_called args.now linked.now memory.now }
    ensures own { IfOk result (λ pair. IsPair memory.now pair.own) }
    ensures public { IfOk result (λ pair. IsKey memory.now pair.public) }
    ensures private { IfOk result (λ pair. IsKey memory.now pair.private) }
    ensures plain { plainly result ≡ result }
{
    let own = own_pair(args, memory, linked)?;
    let public = memory.reference(own, PUBLIC_CELL);
    let private = memory.reference(own, PRIVATE_CELL);
    keys_at(own, public, private, memory, linked)
}
