//! The private keys of key agreement.
ghost use Rattle.std.specs.Prelude.{◌≡◌, ◌≤◌, false, IfOk};
ghost use Rattle.jc_world.specs.Arrays.{IsInArray};
ghost use Rattle.jc_world.specs.Objects.{check_or_fault};
ghost use Rattle.jc_api.specs.Exits.{plainly};
ghost use Rattle.jc_api_keys.specs.KeyObjects.Contents.{IsKey};
ghost use Rattle.jc_api_keys.specs.KeyObjects.Parts.{number_at};
ghost use Rattle.jc_api_keys.specs.KeyTypes.{pair_key_named};
ghost use Rattle.jc_api_pairs.specs.KeyAgreement.Keys.{ArePartsThere, factor_if, factor_of, is_ec_private, key_given, kept_key, private_parts};

use crate::curve_parts::{CurveParts, curve_parts_of};
use crate::key_agreement::Agreement;
use crate::key_agreement::algorithms::AgreementAlgorithm;
use jc_api_keys::exceptions::{ILLEGAL_VALUE, INVALID_INIT};
use jc_api_keys::key_objects::arguments::{key_argument, key_at};
use jc_api_keys::key_objects::contents::Key;
use jc_api_keys::key_objects::parts::key_part;
use jc_api_keys::key_parts::KeyPart;
use jc_api_keys::key_types::{PairKey, pair_key_named};
use jc_frames::{Cell, FrameExit, Outcome};
use jc_linker::linked::Linked;
use jc_memory::Memory;
use jc_words::WordStore;
use jc_world::Stretch;

/// The elements that are the parts of a private key on a curve.
#[derive(Clone, Copy)]
pub struct PrivateParts {
    pub curve: CurveParts,
    pub secret: Stretch,
}

/// It is so, or a code fault.
pub(crate) fn check(holds: bool) -> Result<(), FrameExit>
    ensures checked { result ≡ check_or_fault holds }
    ensures plain { plainly result ≡ result }
{
    if holds {
        Ok(())
    } else {
        Err(FrameExit::End(Outcome::Fault))
    }
}

/// It is the number of a type of private keys on a curve.
pub(crate) fn is_ec_private(number: i16) -> bool
    ensures { result ≡ is_ec_private (pair_key_named number) }
{
    match pair_key_named(number) {
        Some(key) => matches!(key, PairKey::EcPrivate),
        None => false,
    }
}

/// The parts of a private key. One that is not set throws UNINITIALIZED_KEY.
pub(crate) fn private_parts<S: WordStore>(
    key: &Key,
    memory: &Memory<S>,
) -> Result<PrivateParts, FrameExit>
    requires up { memory.now.heap.down ≡ false }
    requires key { IsKey memory.now key.now }
    ensures parts { result ≡ private_parts memory.now key.now }
    ensures there { IfOk result (ArePartsThere memory.now) }
    ensures plain { plainly result ≡ result }
{
    let curve = curve_parts_of(key, memory)?;
    let secret = key_part(key, KeyPart::S, memory)?;
    Ok(PrivateParts { curve, secret })
}

// The number that two elements are, the first one high.
fn number_of_two<S: WordStore>(e: Stretch, memory: &Memory<S>) -> Result<u16, FrameExit>
    requires up { memory.now.heap.down ≡ false }
    requires there { IsInArray memory.now e }
    ensures number { result ≡ factor_if memory.now e }
    ensures plain { plainly result ≡ result }
{
    if e.count != 2 {
        return Err(FrameExit::End(Outcome::Fault));
    }
    Ok(
        u16::from(memory.byte(e.array, e.start)) * 256
            + u16::from(memory.byte(e.array, e.start + 1)),
    )
}

/// By what the multiple is taken besides the private key: the cofactor of the key, or 1. One that is not set throws UNINITIALIZED_KEY.
pub(crate) fn factor_of<S: WordStore>(
    algorithm: AgreementAlgorithm,
    key: &Key,
    memory: &Memory<S>,
) -> Result<u16, FrameExit>
    requires up { memory.now.heap.down ≡ false }
    requires key { IsKey memory.now key.now }
    ensures factor { result ≡ factor_of memory.now algorithm key.now }
    ensures plain { plainly result ≡ result }
{
    if algorithm.with_cofactor {
        let e = key_part(key, KeyPart::K, memory)?;
        number_of_two(e, memory)
    } else {
        Ok(1)
    }
}

/// The key after the receiver is a private key on a curve, or ILLEGAL_VALUE is thrown; and what the algorithm takes of it is set, or UNINITIALIZED_KEY.
pub(crate) fn key_given<S: WordStore>(
    algorithm: AgreementAlgorithm,
    args: &[Cell],
    memory: &Memory<S>,
    linked: &Linked,
) -> Result<(), FrameExit>
    requires up { memory.now.heap.down ≡ false }
    ensures given { result ≡ key_given algorithm args.now linked.now memory.now }
    ensures plain { plainly result ≡ result }
{
    let key = key_argument(1, args, memory, linked)?;
    if !is_ec_private(key.number) {
        return Err(FrameExit::Throw(ILLEGAL_VALUE));
    }
    let _parts = private_parts(&key, memory)?;
    let _factor = factor_of(algorithm, &key, memory)?;
    Ok(())
}

/// The key that an object has kept. None throws INVALID_INIT, and one of another type is a code fault.
pub(crate) fn kept_key<S: WordStore>(
    own: &Agreement,
    memory: &Memory<S>,
    linked: &Linked,
) -> Result<Key, FrameExit>
    requires up { memory.now.heap.down ≡ false }
    ensures key { result ≡ kept_key own.now linked.now memory.now }
    ensures there { IfOk result (IsKey memory.now) }
    ensures plain { plainly result ≡ result }
{
    if own.key.is_null() {
        return Err(FrameExit::Throw(INVALID_INIT));
    }
    let key = key_at(own.key, memory, linked)?;
    check(is_ec_private(key.number))?;
    Ok(key)
}
