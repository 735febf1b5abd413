//! New keys of RSA.
ghost use Rattle.std.specs.Prelude.{◌≡◌, ◌≤◌, ◌++◌, ◌+◌, ◌*◌, false, length, IfOk, IfSome, Ok};
ghost use Rattle.jc_memory.specs.Programs.{Executes};
ghost use Rattle.jc_world.specs.Arrays.{IsInArray};
ghost use Rattle.jc_world.specs.NativeCalls.{after_call};
ghost use Rattle.jc_api.specs.Exits.{plainly};
ghost use Rattle.jc_api_keys.specs.KeyObjects.Contents.{IsKey};
ghost use Rattle.jc_public_keys.specs.RsaKeys.{part_at, parts_in};
ghost use Rattle.jc_api_pairs.specs.KeyPair.Changes.{generating_call};
ghost use Rattle.jc_api_pairs.specs.KeyPair.Keys.{IsPair};
ghost use Rattle.jc_api_pairs.specs.KeyPair.NewKeys.{part_bytes, sets_keys_of};
ghost use Rattle.jc_api_pairs.specs.KeyPair.RsaKeys.{change_for, exponent_bytes, exponent_place, prime_size, private_data, private_length, rsa_change};
ghost use Rattle.jc_api_pairs.specs.KeyPair.RsaKeys.{rsa_keys};
ghost use Rattle.jc_api_pairs.specs.declared.key_pair.kinds.PrivateForm.TheVariants.{Primes};

use crate::key_pair::keys::KeysOfPair;
use crate::key_pair::kinds::{PrivateForm, key_size};
use crate::key_pair::new_keys::{SEED, change_keys, put_part, put_seed};
use jc_api_keys::exceptions::ILLEGAL_VALUE;
use jc_api_keys::key_objects::contents::Key;
use jc_api_keys::key_objects::parts::key_part;
use jc_api_keys::key_parts::{KeyPart, MOST_DATA, MOST_SIZE};
use jc_api_keys::receivers::read;
use jc_frames::{Cell, FrameExit, Outcome};
use jc_linker::linked::Linked;
use jc_memory::Memory;
use jc_public_keys::rsa_keys::put_rsa_pair;
use jc_rsa::key_pair::{FEWEST_OF_PRIME, MOST_OF_PRIME};
use jc_words::WordStore;
use jc_world::{NativeResult, StepExit, Stretch};

// The exponent of a pair whose public key has none.
const EXPONENT: [u8; 3] = [1, 0, 1];

// How many bytes the parts of a key pair have at most.
const MOST_PARTS: usize = 9 * MOST_OF_PRIME;

// How many bytes the data of a public key have at most.
const MOST_PUBLIC: usize = 2 * (2 + MOST_SIZE);

// New keys of RSA: how the private one is kept, how many bytes a prime has, the public exponent, and the parts of the key pair.
#[derive(Clone, Copy)]
struct RsaKeys<'a> {
    form: PrivateForm,
    size: usize,
    exponent: &'a [u8],
    parts: &'a [u8],
}

// Where the exponent of a public key stands, if it is set.
fn exponent_place<S: WordStore>(key: &Key, memory: &Memory<S>) -> Result<Option<Stretch>, FrameExit>
    requires up { memory.now.heap.down ≡ false }
    requires key { IsKey memory.now key.now }
    ensures place { result ≡ exponent_place memory.now key.now }
    ensures there { IfOk result (λ o. IfSome o (IsInArray memory.now)) }
    ensures few { IfOk result (λ o. IfSome o (λ e. e.count ≤ MOST_SIZE)) }
    ensures plain { plainly result ≡ result }
{
    match key_part(key, KeyPart::Exponent, memory) {
        Ok(elements) => Ok(Some(elements)),
        Err(FrameExit::Throw(_)) => Ok(None),
        Err(FrameExit::End(_)) => Err(FrameExit::End(Outcome::Fault)),
    }
}

// How many bytes the primes have, half as many as the modulus. A key for which these are too few is a code fault.
fn prime_size(size: Option<u16>) -> Result<u16, FrameExit>
    requires few { IfSome size (λ n. n ≤ MOST_SIZE) }
    ensures size { result ≡ prime_size size }
    ensures some { IfOk result (λ n. FEWEST_OF_PRIME ≤ n) }
    ensures few { IfOk result (λ n. n ≤ MOST_OF_PRIME) }
    ensures plain { plainly result ≡ result }
{
    match size {
        Some(n) if FEWEST_OF_PRIME as u16 <= n / 2 => Ok(n / 2),
        _ => Err(FrameExit::End(Outcome::Fault)),
    }
}

// A part among the parts of a key pair.
fn part_of(parts: &[u8], at: usize, size: usize) -> &[u8]
    requires within { at + size ≤ length parts.now }
    ensures part { result.now ≡ part_at parts.now at size }
    ensures size { length result.now ≡ size }
{
    let part = &parts[at..];
    &part[..size]
}

// Writes two parts, each after its length.
fn put_two_parts(first: &[u8], second: &[u8], to: &mut [u8])
    requires first { length first.now ≤ 1024 }
    requires second { length second.now ≤ 1024 }
    requires all { length to.old ≡ (2 + length first.now) + (2 + length second.now) }
    ensures { to.new ≡ part_bytes first.now ++ part_bytes second.now }
{
    let (head, rest) = to.split_at_mut(2 + first.len());
    put_part(first, head);
    put_part(second, rest);
}

// Writes the parts of a private key by its primes.
fn put_primes(parts: &[u8], size: usize, to: &mut [u8])
    requires few { size ≤ MOST_OF_PRIME }
    requires parts { length parts.now ≡ 9 * size }
    requires all { length to.old ≡ private_length Primes size }
    ensures { to.new ≡ private_data Primes (parts_in size parts.now) }
{
    let room = 2 + size;
    let (p, rest) = to.split_at_mut(room);
    put_part(part_of(parts, 0, size), p);
    let (q, rest) = rest.split_at_mut(room);
    put_part(part_of(parts, size, size), q);
    let (q_inverse, rest) = rest.split_at_mut(room);
    put_part(part_of(parts, 4 * size, size), q_inverse);
    put_two_parts(
        part_of(parts, 2 * size, size),
        part_of(parts, 3 * size, size),
        rest,
    );
}

// How many bytes of the data of a private key are set.
fn private_length(form: PrivateForm, size: usize) -> usize
    requires few { size ≤ MOST_OF_PRIME }
    ensures exact { result ≡ private_length form size }
    ensures few { result ≤ MOST_DATA }
{
    match form {
        PrivateForm::Exponent => 2 * (2 + 2 * size),
        PrivateForm::Primes => 5 * (2 + size),
    }
}

// Writes what the private key of a key pair has.
fn put_private(form: PrivateForm, parts: &[u8], size: usize, to: &mut [u8])
    requires few { size ≤ MOST_OF_PRIME }
    requires parts { length parts.now ≡ 9 * size }
    requires all { length to.old ≡ private_length form size }
    ensures { to.new ≡ private_data form (parts_in size parts.now) }
{
    match form {
        PrivateForm::Exponent => put_two_parts(
            part_of(parts, 5 * size, 2 * size),
            part_of(parts, 7 * size, 2 * size),
            to,
        ),
        PrivateForm::Primes => put_primes(parts, size, to),
    }
}

// Sets both keys to a key pair.
fn set_keys<S: WordStore>(
    pair: &KeysOfPair,
    keys: RsaKeys<'_>,
    args: &[Cell],
    memory: &mut Memory<S>,
    linked: &Linked,
) -> Result<NativeResult, StepExit>
    requires up { memory.old.heap.down ≡ false }
    requires few { keys.size ≤ MOST_OF_PRIME }
    requires exponent { length keys.exponent.now ≤ MOST_SIZE }
    requires parts { length keys.parts.now ≡ 9 * keys.size }
    ensures { Executes (generating_call (Ok (sets_keys_of pair.now (rsa_keys keys.entry.form
        keys.entry.exponent.now (parts_in keys.entry.size keys.entry.parts.now)))) args.now
        linked.now memory.old) memory.old (after_call result memory.new) }
{
    let RsaKeys {
        form,
        size,
        exponent,
        parts,
    } = keys;
    let modulus = part_of(parts, 5 * size, 2 * size);
    let mut public_buffer = [0; MOST_PUBLIC];
    let public = &mut public_buffer[..(2 + modulus.len()) + (2 + exponent.len())];
    put_two_parts(modulus, exponent, public);
    let mut private_buffer = [0; MOST_DATA];
    let private = &mut private_buffer[..private_length(form, size)];
    put_private(form, parts, size, private);
    change_keys(pair, 0, public, private, args, memory, linked)
}

// Sets both keys to new ones for a public exponent. Where there are none it throws ILLEGAL_VALUE.
fn generate_for<S: WordStore>(
    form: PrivateForm,
    pair: &KeysOfPair,
    size: usize,
    exponent: &[u8],
    args: &[Cell],
    memory: &mut Memory<S>,
    linked: &Linked,
) -> Result<NativeResult, StepExit>
    requires up { memory.old.heap.down ≡ false }
    requires own { IsPair memory.old pair.now.own }
    requires private { IsKey memory.old pair.now.private }
    requires some { FEWEST_OF_PRIME ≤ size }
    requires few { size ≤ MOST_OF_PRIME }
    requires exponent { length exponent.now ≤ MOST_SIZE }
    ensures { Executes (generating_call (change_for form linked.now memory.old pair.now size exponent.now)
        args.now linked.now memory.old) memory.old (after_call result memory.new) }
{
    let mut seed = [0; SEED];
    put_seed(pair, memory, linked, &mut seed);
    let mut buffer = [0; MOST_PARTS];
    let parts = &mut buffer[..9 * size];
    if !put_rsa_pair(&seed, exponent, size, parts) {
        return Err(StepExit::Throw(ILLEGAL_VALUE));
    }
    let keys = RsaKeys {
        form,
        size,
        exponent,
        parts,
    };
    set_keys(pair, keys, args, memory, linked)
}

// Sets both keys to new ones for the exponent that stands in some elements, or for 65537.
fn generate_with<S: WordStore>(
    form: PrivateForm,
    pair: &KeysOfPair,
    size: usize,
    place: Option<Stretch>,
    args: &[Cell],
    memory: &mut Memory<S>,
    linked: &Linked,
) -> Result<NativeResult, StepExit>
    requires up { memory.old.heap.down ≡ false }
    requires own { IsPair memory.old pair.now.own }
    requires private { IsKey memory.old pair.now.private }
    requires some { FEWEST_OF_PRIME ≤ size }
    requires few { size ≤ MOST_OF_PRIME }
    requires there { IfSome place (IsInArray memory.old) }
    requires short { IfSome place (λ e. e.count ≤ MOST_SIZE) }
    ensures { Executes (generating_call (change_for form linked.now memory.old pair.now size
        (exponent_bytes memory.old place)) args.now linked.now memory.old) memory.old (after_call result memory.new) }
{
    let Some(e) = place else {
        return generate_for(form, pair, size, &EXPONENT, args, memory, linked);
    };
    let mut buffer = [0; MOST_SIZE];
    let exponent = &mut buffer[..e.count as usize];
    read(e, memory, exponent);
    generate_for(form, pair, size, exponent, args, memory, linked)
}

/// Sets the keys of the pair that is called to new ones of RSA, for the exponent of the public key, or 65537 where it is not set. Where there are
/// none for it it throws ILLEGAL_VALUE.
pub(crate) fn generate_rsa<S: WordStore>(
    form: PrivateForm,
    pair: &KeysOfPair,
    args: &[Cell],
    memory: &mut Memory<S>,
    linked: &Linked,
) -> Result<NativeResult, StepExit>
    requires up { memory.old.heap.down ≡ false }
    requires own { IsPair memory.old pair.now.own }
    requires public { IsKey memory.old pair.now.public }
    requires private { IsKey memory.old pair.now.private }
    ensures { Executes (generating_call (rsa_change form linked.now memory.old pair.now) args.now linked.now
        memory.old) memory.old (after_call result memory.new) }
{
    let size = prime_size(key_size(&pair.public))?;
    let place = exponent_place(&pair.public, memory)?;
    generate_with(form, pair, usize::from(size), place, args, memory, linked)
}
