//! New keys on the curve of a public key.
ghost use Rattle.std.specs.Option.{option_map};
ghost use Rattle.std.specs.Prelude.{◌≡◌, ◌≤◌, ◌++◌, ◌+◌, false, true, length, Ok, Some, None, if◌then◌else◌};
ghost use Rattle.jc_memory.specs.Programs.{Executes};
ghost use Rattle.jc_world.specs.Arrays.{IsInArray, bytes_in};
ghost use Rattle.jc_world.specs.NativeCalls.{after_call};
ghost use Rattle.jc_api_keys.specs.KeyObjects.Contents.{IsKey};
ghost use Rattle.jc_public_keys.specs.CurveKeys.{CurveKeyPair, key_pair_of};
ghost use Rattle.jc_api_pairs.specs.CurveParts.{AreCurveParts, are_curve_parts_short, curve_of_parts};
ghost use Rattle.jc_api_pairs.specs.KeyPair.Changes.{generating_call};
ghost use Rattle.jc_api_pairs.specs.KeyPair.Curves.{change_with, curve_change, keys_with};
ghost use Rattle.jc_api_pairs.specs.KeyPair.Keys.{IsPair};
ghost use Rattle.jc_api_pairs.specs.KeyPair.NewKeys.{part_bytes, sets_keys_of};

use crate::curve_parts::{
    CurveParts, MOST_NUMBER, MOST_POINT, are_curve_parts_short, curve_parts_of, parameters_of,
    read_curve_parts,
};
use crate::key_pair::keys::KeysOfPair;
use crate::key_pair::new_keys::{SEED, change_keys, put_part, put_seed};
use jc_api_keys::ec_keys::curve_size;
use jc_api_keys::exceptions::ILLEGAL_VALUE;
use jc_api_keys::key_parts::{KeyPart, MOST_DATA, place_of};
use jc_api_keys::receivers::read;
use jc_frames::{Cell, Outcome};
use jc_linker::linked::Linked;
use jc_memory::Memory;
use jc_public_keys::curve_keys::put_key_pair;
use jc_words::WordStore;
use jc_world::{NativeResult, StepExit, Stretch};

// Writes the private number and the point of a new pair. It returns false where there is none.
fn put_pair<S: WordStore>(
    parts: &CurveParts,
    seed: &[u8; SEED],
    memory: &Memory<S>,
    number: &mut [u8],
    point: &mut [u8],
) -> bool
    requires up { memory.now.heap.down ≡ false }
    requires there { AreCurveParts memory.now parts.now }
    requires short { are_curve_parts_short parts.now ≡ true }
    requires number { length number.old ≡ parts.now.order.count }
    requires point { length point.old ≡ parts.now.generator.count }
    ensures { (if result then Some (record { private = number.new; public = point.new }) else None)
        ≡ key_pair_of (curve_of_parts memory.now parts.now) seed.now }
{
    let bytes = read_curve_parts(parts, memory);
    let parameters = parameters_of(parts, &bytes, 1);
    put_key_pair(&parameters, seed, number, point)
}

// Writes the domain parameters, and after them the private number.
fn put_private<S: WordStore>(domain: Stretch, number: &[u8], memory: &Memory<S>, to: &mut [u8])
    requires up { memory.now.heap.down ≡ false }
    requires domain { IsInArray memory.now domain }
    requires few { length number.now ≤ 1024 }
    requires all { length to.old ≡ domain.count + (2 + length number.now) }
    ensures { to.new ≡ bytes_in memory.now domain ++ part_bytes number.now }
{
    let (first, last) = to.split_at_mut(domain.count as usize);
    read(domain, memory, first);
    put_part(number, last);
}

// Sets both keys to a new pair.
fn set_keys<S: WordStore>(
    pair: &KeysOfPair,
    domain: Stretch,
    number: &[u8],
    point: &[u8],
    args: &[Cell],
    memory: &mut Memory<S>,
    linked: &Linked,
) -> Result<NativeResult, StepExit>
    requires up { memory.old.heap.down ≡ false }
    requires domain { IsInArray memory.old domain }
    requires few { domain.count ≤ MOST_DATA }
    requires number { length number.now ≤ MOST_NUMBER }
    requires point { length point.now ≤ MOST_POINT }
    ensures { Executes (generating_call (Ok (sets_keys_of pair.now (keys_with memory.old domain
        (record { private = number.now; public = point.now })))) args.now linked.now memory.old)
        memory.old (after_call result memory.new) }
{
    let start = domain.count;
    let mut point_buffer = [0; MOST_POINT + 2];
    let public = &mut point_buffer[..point.len() + 2];
    put_part(point, public);
    let mut private_buffer = [0; MOST_DATA + MOST_NUMBER + 2];
    let private = &mut private_buffer[..start as usize + (2 + number.len())];
    put_private(domain, number, memory, private);
    change_keys(pair, start, public, private, args, memory, linked)
}

// Sets both keys to a new pair on a curve. Parameters that describe none throw ILLEGAL_VALUE.
fn generate_with<S: WordStore>(
    pair: &KeysOfPair,
    parts: &CurveParts,
    domain: Stretch,
    args: &[Cell],
    memory: &mut Memory<S>,
    linked: &Linked,
) -> Result<NativeResult, StepExit>
    requires up { memory.old.heap.down ≡ false }
    requires own { IsPair memory.old pair.now.own }
    requires private { IsKey memory.old pair.now.private }
    requires there { AreCurveParts memory.old parts.now }
    requires domain { IsInArray memory.old domain }
    requires few { domain.count ≤ MOST_DATA }
    ensures { Executes (generating_call (change_with linked.now memory.old pair.now parts.now domain)
        args.now linked.now memory.old) memory.old (after_call result memory.new) }
{
    if !are_curve_parts_short(parts) {
        return Err(StepExit::Throw(ILLEGAL_VALUE));
    }
    let mut seed = [0; SEED];
    put_seed(pair, memory, linked, &mut seed);
    let mut number = [0; MOST_NUMBER];
    let number = &mut number[..parts.order.count as usize];
    let mut point = [0; MOST_POINT];
    let point = &mut point[..parts.generator.count as usize];
    if !put_pair(parts, &seed, memory, number, point) {
        return Err(StepExit::Throw(ILLEGAL_VALUE));
    }
    set_keys(pair, domain, number, point, args, memory, linked)
}

/// Sets the keys of the pair that is called to new ones on the curve of the public key. Where its domain parameters are not set it throws
/// UNINITIALIZED_KEY, and where they describe no curve ILLEGAL_VALUE.
pub(crate) fn generate_on_curve<S: WordStore>(
    pair: &KeysOfPair,
    args: &[Cell],
    memory: &mut Memory<S>,
    linked: &Linked,
) -> Result<NativeResult, StepExit>
    requires up { memory.old.heap.down ≡ false }
    requires own { IsPair memory.old pair.now.own }
    requires public { IsKey memory.old pair.now.public }
    requires private { IsKey memory.old pair.now.private }
    ensures { Executes (generating_call (curve_change linked.now memory.old pair.now) args.now linked.now
        memory.old) memory.old (after_call result memory.new) }
{
    let parts = curve_parts_of(&pair.public, memory)?;
    let Some(size) = curve_size(&pair.public) else {
        return Err(StepExit::End(Outcome::Fault));
    };
    let domain = Stretch {
        array: pair.public.elements.array,
        start: 0,
        count: place_of(KeyPart::W, size),
    };
    generate_with(pair, &parts, domain, args, memory, linked)
}
