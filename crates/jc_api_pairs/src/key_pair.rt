//! `KeyPair` (API specification): a public and a private key.

pub(crate) mod changes;
pub mod curves;
pub mod keys;
pub mod kinds;
pub(crate) mod new_keys;
pub(crate) mod rsa_keys;

ghost use Rattle.std.specs.Prelude.{◌≡◌, false};
ghost use Rattle.jc_memory.specs.Programs.{Executes};
ghost use Rattle.jc_world.specs.NativeCalls.{after_call};
ghost use Rattle.jc_api.specs.Exits.{plainly};
ghost use Rattle.jc_api.specs.Pairing.{pairing_call};
ghost use Rattle.jc_api_keys.specs.KeyObjects.Contents.{IsKey};
ghost use Rattle.jc_api_pairs.specs.KeyPair.{change_of_kind, given_if, key_pair_gen_key_pair, key_pair_init, key_pair_init_of_keys, keys_of_length};
ghost use Rattle.jc_api_pairs.specs.KeyPair.Changes.{generating_call};
ghost use Rattle.jc_api_pairs.specs.KeyPair.Keys.{IsPair};

use crate::key_pair::curves::generate_on_curve;
use crate::key_pair::keys::{KeysOfPair, pair_called};
use crate::key_pair::kinds::{PairKind, kind_named, kind_of_keys, private_type, public_type};
use crate::key_pair::rsa_keys::generate_rsa;
use jc_api::{NamedObject, NewPair, make_pair};
use jc_api_keys::exceptions::{ILLEGAL_VALUE, NO_SUCH_ALGORITHM};
use jc_api_keys::key_builder::key_named;
use jc_api_keys::key_objects::arguments::key_argument;
use jc_frames::{Cell, FrameExit};
use jc_linker::linked::Linked;
use jc_memory::Memory;
use jc_platform::names::PlatformClass;
use jc_words::WordStore;
use jc_world::arguments::short_argument;
use jc_world::{NativeResult, StepExit};

// How many times keys of a new pair were made.
const NO_TIMES: i16 = 0;

// A pair of new keys of a kind and a length, which are not set. A length that is none throws NO_SUCH_ALGORITHM.
fn keys_of_length<S: WordStore>(
    kind: PairKind,
    bits: i16,
    memory: &Memory<S>,
    linked: &Linked,
) -> Result<NewPair, FrameExit>
    requires up { memory.now.heap.down ≡ false }
    ensures pair { result ≡ keys_of_length bits linked.now memory.now kind }
    ensures plain { plainly result ≡ result }
{
    let public = key_named(public_type(kind), bits, 0, memory, linked)?;
    let private = key_named(private_type(kind), bits, 0, memory, linked)?;
    Ok(NewPair {
        class: PlatformClass::KeyPair,
        number: NO_TIMES,
        first: NamedObject::New(public),
        second: NamedObject::New(private),
    })
}

// The pair that is asked for by an algorithm and a length.
#[tactic(auto, unfolding(crate::specs::KeyPair::key_pair_init))]
fn requested_pair<S: WordStore>(
    args: &[Cell],
    memory: &Memory<S>,
    linked: &Linked,
) -> Result<NewPair, FrameExit>
    requires up { memory.now.heap.down ≡ false }
    ensures pair { result ≡ key_pair_init args.now linked.now memory.now }
    ensures plain { plainly result ≡ result }
{
    let number = short_argument(args, 1)?;
    let bits = short_argument(args, 2)?;
    let Some(kind) = kind_named(number) else {
        return Err(FrameExit::Throw(NO_SUCH_ALGORITHM));
    };
    keys_of_length(kind, bits, memory, linked)
}

/// `KeyPair.<init>` by an algorithm and a length: makes the two keys, which are not set. Another algorithm than ALG_RSA, ALG_RSA_CRT and ALG_EC_FP
/// throws NO_SUCH_ALGORITHM.
pub(crate) fn key_pair_init<S: WordStore>(
    args: &[Cell],
    memory: &mut Memory<S>,
    linked: &Linked,
) -> Result<NativeResult, StepExit>
    requires up { memory.old.heap.down ≡ false }
    ensures { Executes (pairing_call (key_pair_init args.now linked.now memory.old) args.now linked.now
        memory.old) memory.old (after_call result memory.new) }
{
    let pair = requested_pair(args, memory, linked)?;
    make_pair(&pair, args, memory, linked)
}

// The pair of the keys among the arguments, if they are those of a kind.
fn given_if(kind: Option<PairKind>) -> Result<NewPair, FrameExit>
    ensures pair { result ≡ given_if kind }
    ensures plain { plainly result ≡ result }
{
    match kind {
        Some(_) => Ok(NewPair {
            class: PlatformClass::KeyPair,
            number: NO_TIMES,
            first: NamedObject::Argument(1),
            second: NamedObject::Argument(2),
        }),
        None => Err(FrameExit::Throw(ILLEGAL_VALUE)),
    }
}

// The pair that is asked for by two keys.
#[tactic(auto, unfolding(crate::specs::KeyPair::key_pair_init_of_keys))]
fn requested_keys<S: WordStore>(
    args: &[Cell],
    memory: &Memory<S>,
    linked: &Linked,
) -> Result<NewPair, FrameExit>
    requires up { memory.now.heap.down ≡ false }
    ensures pair { result ≡ key_pair_init_of_keys args.now linked.now memory.now }
    ensures plain { plainly result ≡ result }
{
    let public = key_argument(1, args, memory, linked)?;
    let private = key_argument(2, args, memory, linked)?;
    given_if(kind_of_keys(&public, &private))
}

/// `KeyPair.<init>` by two keys: the pair names them. What is no public and no private key of one algorithm and size throws ILLEGAL_VALUE.
pub(crate) fn key_pair_init_of_keys<S: WordStore>(
    args: &[Cell],
    memory: &mut Memory<S>,
    linked: &Linked,
) -> Result<NativeResult, StepExit>
    requires up { memory.old.heap.down ≡ false }
    ensures { Executes (pairing_call (key_pair_init_of_keys args.now linked.now memory.old) args.now
        linked.now memory.old) memory.old (after_call result memory.new) }
{
    let pair = requested_keys(args, memory, linked)?;
    make_pair(&pair, args, memory, linked)
}

// Sets the keys of the pair that is called to new ones, by its kind.
fn generate<S: WordStore>(
    pair: &KeysOfPair,
    args: &[Cell],
    memory: &mut Memory<S>,
    linked: &Linked,
) -> Result<NativeResult, StepExit>
    requires up { memory.old.heap.down ≡ false }
    requires own { IsPair memory.old pair.now.own }
    requires public { IsKey memory.old pair.now.public }
    requires private { IsKey memory.old pair.now.private }
    ensures { Executes (generating_call (change_of_kind pair.now.kind linked.now memory.old pair.now)
        args.now linked.now memory.old) memory.old (after_call result memory.new) }
{
    match pair.kind {
        PairKind::Rsa(form) => generate_rsa(form, pair, args, memory, linked),
        PairKind::Curve => generate_on_curve(pair, args, memory, linked),
    }
}

/// `KeyPair.genKeyPair`: sets both keys to new ones, as one change: of RSA for the exponent of the public key, or 65537 where it is not set; on the
/// curve of the public key. Where its domain parameters are not set it throws UNINITIALIZED_KEY, and where there are no such keys ILLEGAL_VALUE.
#[tactic(auto, unfolding(crate::specs::KeyPair::key_pair_gen_key_pair))]
pub(crate) fn key_pair_gen_key_pair<S: WordStore>(
    args: &[Cell],
    memory: &mut Memory<S>,
    linked: &Linked,
) -> Result<NativeResult, StepExit>
    requires up { memory.old.heap.down ≡ false }
    ensures { Executes (generating_call (key_pair_gen_key_pair args.now linked.now memory.old) args.now
        linked.now memory.old) memory.old (after_call result memory.new) }
{
    let pair = pair_called(args, memory, linked)?;
    generate(&pair, args, memory, linked)
}
