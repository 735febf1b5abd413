//! Keys, and the arrays that hold them.
ghost use Rattle.std.specs.Prelude.{◌≡◌, ◌++◌, ◌∷◌, [], None, Some, true, length, IfOk, OnOk};
ghost use Rattle.jc_heap.specs.Object.{cells_of};
ghost use Rattle.jc_objects.specs.Keys.{array_of_key, can_hold, is_key, is_key_class, is_set_by, key_arrays, key_at, key_by};
ghost use Rattle.jc_objects.specs.Bounds.{IsBounded};
ghost use Rattle.jc_objects.specs.Places.{IsStanding};
ghost use Rattle.jc_objects.specs.Records.{IsRecord, item_at};

use crate::bounds::first_record;
use crate::places::{Standing, first_place, standing_from};
use crate::records::{cell_of, object_at, whole_size};
use jc_heap::{Facts, Kind};
use jc_image::ImageWords;
use jc_platform::names::PlatformClass;
use jc_platform::platform::Platform;
use jc_words::layout::TOP;
use std::alloc::{AllocError, Global};

/// How many cells a key has: the number of its type, and the array that holds it.
const KEY_CELLS: u16 = 2;

/// The longest array that holds a secret key: a byte counts the bytes of the key, of which there are 128 at most.
const LONGEST_ARRAY: u16 = 129;

/// What an array says of the secret key that it holds.
#[derive(Clone, Copy)]
pub struct KeyFacts {
    /// How many bits the key has, or will have.
    pub size: u16,
    pub is_set: bool,
}

/// Whether an object is a key.
pub fn is_key(platform: &Platform, facts: Facts) -> bool
    ensures { result ≡ is_key platform.now facts }
{
    matches!(facts.kind, Kind::Instance)
        && facts.event.is_none()
        && facts.length == KEY_CELLS
        && is_key_class(platform.class_by_word(facts.class()))
}

// Whether a class is one of keys.
fn is_key_class(found: Option<PlatformClass>) -> bool
    ensures { result ≡ is_key_class found }
{
    matches!(
        found,
        Some(
            PlatformClass::DesKeyObject
                | PlatformClass::AesKeyObject
                | PlatformClass::HmacKeyObject
                | PlatformClass::RsaPublicKeyObject
                | PlatformClass::RsaPrivateKeyObject
                | PlatformClass::RsaPrivateCrtKeyObject
                | PlatformClass::EcPublicKeyObject
                | PlatformClass::EcPrivateKeyObject
        )
    )
}

/// The addresses of the arrays of all keys, up to a record that lacks words.
pub fn key_arrays<W: ImageWords>(
    alloc: Global,
    platform: &Platform,
    words: &W,
) -> Result<Vec<u16>, AllocError>
    requires { IsBounded (W.words words.now) }
    ensures { IfOk result (λ found. found.items ≡ key_arrays platform.now (W.words words.now)) }
{
    let mut found = Vec::new(alloc);
    push_key_arrays(&mut found, platform, words)?;
    Ok(found)
}

// Adds them.
fn push_key_arrays<W: ImageWords>(
    found: &mut Vec<u16>,
    platform: &Platform,
    words: &W,
) -> Result<(), AllocError>
    requires { IsBounded (W.words words.now) }
    ensures { OnOk result (found.new.items ≡ found.old.items
        ++ key_arrays platform.now (W.words words.now)) }
{
    let _ = words.word_count(); // so that the proof knows that there are fewer than 65,536 words
    let top = words.word(TOP);
    let mut at = first_record(words) as u16;
    while at < top {
        let Some(size) = whole_size(words, at, top) else {
            return Ok(());
        };
        push_key_array(found, platform, words, at)?;
        at += size;
    }
    Ok(())
}

// Adds the address of the array of what stands at an address, if that is a key.
fn push_key_array<W: ImageWords>(
    found: &mut Vec<u16>,
    platform: &Platform,
    words: &W,
    at: u16,
) -> Result<(), AllocError>
    requires bounds { IsBounded (W.words words.now) }
    requires record { IsRecord (W.words words.now) at }
    ensures { OnOk result (found.new.items ≡ found.old.items
        ++ array_of_key platform.now (at, item_at (W.words words.now) at)) }
{
    match object_at(words, at) {
        Some(facts) if is_key(platform, facts) => {
            push_address(found, cell_of(words, at, facts, 1))
        }
        _ => Ok(()),
    }
}

// Adds an address.
fn push_address(found: &mut Vec<u16>, address: u16) -> Result<(), AllocError>
    ensures { OnOk result (found.new.items ≡ found.old.items ++ address ∷ []) }
{
    found.push(address)?;
    Ok(())
}

/// The secret key that the array at an address holds; none where no such array stands there.
pub fn key_at<W: ImageWords>(words: &W, address: u16) -> Option<KeyFacts>
    requires { IsBounded (W.words words.now) }
    ensures { result ≡ key_at (W.words words.now) address }
{
    let mut place = first_place(words);
    match standing_from(words, &mut place, address) {
        Standing::Object(facts) if can_hold(facts) => Some(key_by(words, address, facts)),
        _ => None,
    }
}

// Whether an object is an array that can hold a key.
fn can_hold(facts: Facts) -> bool
    ensures { result ≡ can_hold facts }
{
    matches!(facts.kind, Kind::ByteArray) && facts.length > 0 && facts.length <= LONGEST_ARRAY
}

// The key that such an array holds.
fn key_by<W: ImageWords>(words: &W, at: u16, facts: Facts) -> KeyFacts
    requires bounds { IsBounded (W.words words.now) }
    requires object { IsStanding (W.words words.now) at (Standing.Object facts) }
    requires can_hold { can_hold facts ≡ true }
    ensures { result ≡ key_by facts (cells_of (item_at (W.words words.now) at)) }
{
    KeyFacts {
        size: 8 * (facts.length - 1),
        is_set: is_set(words, at, facts),
    }
}

// Whether it is set.
fn is_set<W: ImageWords>(words: &W, at: u16, facts: Facts) -> bool
    requires bounds { IsBounded (W.words words.now) }
    requires object { IsStanding (W.words words.now) at (Standing.Object facts) }
    requires can_hold { can_hold facts ≡ true }
    ensures { result ≡ is_set_by facts.event (cells_of (item_at (W.words words.now) at)) }
{
    facts.event.is_none() && cell_of(words, at, facts, 0) != 0
}
