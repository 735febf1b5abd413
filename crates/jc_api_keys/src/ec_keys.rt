//! The calls of keys on elliptic curves (API specification): `ECKey`, `ECPublicKey` and `ECPrivateKey`.
ghost use Rattle.std.specs.Prelude.{◌≡◌, ◌≤◌, false, IfSome};
ghost use Rattle.jc_memory.specs.Programs.{Executes};
ghost use Rattle.jc_world.specs.Arrays.{IsInArray};
ghost use Rattle.jc_world.specs.NativeCalls.{after_call};
ghost use Rattle.jc_api.specs.Forms.{reading_call};
ghost use Rattle.jc_api_keys.specs.EcKeys.{copies_domain, curve_size, domain_elements, domain_of, ec_key_call, ec_key_object_copy_domain_parameters_from, ec_key_object_get_k};
ghost use Rattle.jc_api_keys.specs.EcKeys.{ec_key_object_set_field_f2m, ec_key_object_set_k, is_on_curve};
ghost use Rattle.jc_api_keys.specs.KeyObjects.Contents.{IsKey};

use crate::exceptions::ILLEGAL_VALUE;
use crate::key_objects::arguments::key_argument;
use crate::key_objects::contents::{Key, receiver_key, set_at};
use crate::key_objects::parts::{
    curve_is_set, get_part, key_part, number_at, part_place, set_part,
};
use crate::key_parts::{KeyPart, MOST_DATA, MOST_SIZE, place_of, size_of};
use crate::key_types::{PairKey, pair_key_named};
use crate::receivers::read;
use jc_frames::{Cell, Outcome};
use jc_linker::linked::Linked;
use jc_memory::Memory;
use jc_platform::key_methods::EcKeysMethod;
use jc_platform::names::PlatformClass;
use jc_words::WordStore;
use jc_world::arguments::short_argument;
use jc_world::{NativeResult, StepExit, Stretch, short};

/// `ECKey.setFieldF2M`: throws ILLEGAL_VALUE, since no key is on a curve over a field of characteristic 2.
#[tactic(auto, unfolding(crate::specs::EcKeys::ec_key_object_set_field_f2m))]
pub(crate) fn ec_key_object_set_field_f2m<S: WordStore>(
    args: &[Cell],
    memory: &Memory<S>,
    linked: &Linked,
) -> Result<NativeResult, StepExit>
    requires up { memory.now.heap.down ≡ false }
    ensures { Executes (reading_call (ec_key_object_set_field_f2m args.now linked.now memory.now)
        linked.now memory.now) memory.now (after_call result memory.now) }
{
    receiver_key(PlatformClass::EcKeyObject, args, memory, linked)?;
    Err(StepExit::Throw(ILLEGAL_VALUE))
}

/// `ECKey.setK`: sets the cofactor, as one change.
#[tactic(auto, unfolding(crate::specs::EcKeys::ec_key_object_set_k))]
pub(crate) fn ec_key_object_set_k<S: WordStore>(
    args: &[Cell],
    memory: &mut Memory<S>,
    linked: &Linked,
) -> Result<NativeResult, StepExit>
    requires up { memory.old.heap.down ≡ false }
    ensures { Executes (reading_call (ec_key_object_set_k args.now linked.now memory.old)
        linked.now memory.old) memory.old (after_call result memory.new) }
{
    let key = receiver_key(PlatformClass::EcKeyObject, args, memory, linked)?;
    let place = part_place(&key, KeyPart::K)?;
    let cofactor = short_argument(args, 1)?;
    let [high, low] = cofactor.cast_unsigned().to_be_bytes();
    set_at(place.array, place.start, &[0, 2, high, low], memory, linked)
}

/// `ECKey.getK`: returns the cofactor.
#[tactic(auto, unfolding(crate::specs::EcKeys::ec_key_object_get_k))]
pub(crate) fn ec_key_object_get_k<S: WordStore>(
    args: &[Cell],
    memory: &Memory<S>,
    linked: &Linked,
) -> Result<NativeResult, StepExit>
    requires up { memory.now.heap.down ≡ false }
    ensures { Executes (reading_call (ec_key_object_get_k args.now linked.now memory.now)
        linked.now memory.now) memory.now (after_call result memory.now) }
{
    let key = receiver_key(PlatformClass::EcKeyObject, args, memory, linked)?;
    let cofactor = key_part(&key, KeyPart::K, memory)?;
    if cofactor.count != 2 {
        return Err(StepExit::End(Outcome::Fault));
    }
    Ok(short(number_at(&cofactor, memory).cast_signed()))
}

fn is_on_curve(pair: PairKey) -> bool
    ensures { result ≡ is_on_curve pair }
{
    match pair {
        PairKey::EcPublic | PairKey::EcPrivate => true,
        PairKey::RsaPublic | PairKey::RsaPrivate | PairKey::RsaCrtPrivate => false,
    }
}

/// The size of a key on a curve.
pub fn curve_size(key: &Key) -> Option<u16>
    ensures size { result ≡ curve_size key.now }
    ensures few { IfSome result (λ n. n ≤ MOST_SIZE) }
    ensures within { IfSome result (λ n. (domain_elements key.now n).count ≤ key.now.elements.count) }
{
    let pair = pair_key_named(key.number)?;
    if is_on_curve(pair) {
        size_of(pair, key.elements.count)
    } else {
        None
    }
}

// The elements that are the domain parameters of a key, if they are set, and for keys of this size.
fn domain_of<S: WordStore>(size: u16, other: &Key, memory: &Memory<S>) -> Option<Stretch>
    requires up { memory.now.heap.down ≡ false }
    requires key { IsKey memory.now other.now }
    ensures domain { result ≡ domain_of memory.now size other.now }
    ensures there { IfSome result (IsInArray memory.now) }
    ensures few { IfSome result (λ e. e.count ≤ MOST_DATA) }
{
    let its = curve_size(other)?;
    if its == size && curve_is_set(other, memory).is_ok() {
        Some(Stretch {
            array: other.elements.array,
            start: 0,
            count: place_of(KeyPart::W, its),
        })
    } else {
        None
    }
}

// Sets the domain parameters of a key of this size to those of another, as one change.
fn copy_domain<S: WordStore>(
    key: &Key,
    size: u16,
    other: &Key,
    memory: &mut Memory<S>,
    linked: &Linked,
) -> Result<NativeResult, StepExit>
    requires up { memory.old.heap.down ≡ false }
    requires other { IsKey memory.old other.now }
    ensures { Executes (reading_call (copies_domain memory.old key.now size other.now) linked.now
        memory.old) memory.old (after_call result memory.new) }
{
    let Some(from) = domain_of(size, other, memory) else {
        return Err(StepExit::Throw(ILLEGAL_VALUE));
    };
    let mut buffer = [0; MOST_DATA];
    let bytes = &mut buffer[..from.count as usize];
    read(from, memory, bytes);
    set_at(key.elements.array, 0, bytes, memory, linked)
}

/// `ECKey.copyDomainParametersFrom`: sets the domain parameters to those of a key, as one change. One of another size, or of which they are not
/// set, throws ILLEGAL_VALUE.
#[tactic(auto, unfolding(crate::specs::EcKeys::ec_key_object_copy_domain_parameters_from))]
pub(crate) fn ec_key_object_copy_domain_parameters_from<S: WordStore>(
    args: &[Cell],
    memory: &mut Memory<S>,
    linked: &Linked,
) -> Result<NativeResult, StepExit>
    requires up { memory.old.heap.down ≡ false }
    ensures { Executes (reading_call (ec_key_object_copy_domain_parameters_from args.now linked.now
        memory.old) linked.now memory.old) memory.old (after_call result memory.new) }
{
    let key = receiver_key(PlatformClass::EcKeyObject, args, memory, linked)?;
    let Some(size) = curve_size(&key) else {
        return Err(StepExit::End(Outcome::Fault));
    };
    let other = key_argument(1, args, memory, linked)?;
    copy_domain(&key, size, &other, memory, linked)
}

/// A call of a method of a key on an elliptic curve.
#[tactic(auto, unfolding(crate::specs::EcKeys::ec_key_call))]
#[inline(never)]
pub fn call_ec_key<S: WordStore>(
    method: EcKeysMethod,
    args: &[Cell],
    memory: &mut Memory<S>,
    linked: &Linked,
) -> Result<NativeResult, StepExit>
    requires up { memory.old.heap.down ≡ false }
    ensures { Executes (ec_key_call method args.now linked.now memory.old) memory.old
        (after_call result memory.new) }
{
    match method {
        EcKeysMethod::EcKeyObjectSetFieldFp => set_part(KeyPart::Field, args, memory, linked),
        EcKeysMethod::EcKeyObjectSetFieldF2m | EcKeysMethod::EcKeyObjectSetFieldF2mOfThree => {
            ec_key_object_set_field_f2m(args, memory, linked)
        }
        EcKeysMethod::EcKeyObjectSetA => set_part(KeyPart::A, args, memory, linked),
        EcKeysMethod::EcKeyObjectSetB => set_part(KeyPart::B, args, memory, linked),
        EcKeysMethod::EcKeyObjectSetG => set_part(KeyPart::G, args, memory, linked),
        EcKeysMethod::EcKeyObjectSetR => set_part(KeyPart::R, args, memory, linked),
        EcKeysMethod::EcKeyObjectSetK => ec_key_object_set_k(args, memory, linked),
        EcKeysMethod::EcKeyObjectGetField => get_part(KeyPart::Field, args, memory, linked),
        EcKeysMethod::EcKeyObjectGetA => get_part(KeyPart::A, args, memory, linked),
        EcKeysMethod::EcKeyObjectGetB => get_part(KeyPart::B, args, memory, linked),
        EcKeysMethod::EcKeyObjectGetG => get_part(KeyPart::G, args, memory, linked),
        EcKeysMethod::EcKeyObjectGetR => get_part(KeyPart::R, args, memory, linked),
        EcKeysMethod::EcKeyObjectGetK => ec_key_object_get_k(args, memory, linked),
        EcKeysMethod::EcKeyObjectCopyDomainParametersFrom => {
            ec_key_object_copy_domain_parameters_from(args, memory, linked)
        }
        EcKeysMethod::EcPublicKeyObjectSetW => set_part(KeyPart::W, args, memory, linked),
        EcKeysMethod::EcPublicKeyObjectGetW => get_part(KeyPart::W, args, memory, linked),
        EcKeysMethod::EcPrivateKeyObjectSetS => set_part(KeyPart::S, args, memory, linked),
        EcKeysMethod::EcPrivateKeyObjectGetS => get_part(KeyPart::S, args, memory, linked),
    }
}
