//! The secret that a private key shares with the holder of a public one.
ghost use Rattle.std.specs.Prelude.{◌≡◌, ◌≤◌, Ok, Some, None, false, if◌then◌else◌, length, true};
ghost use Rattle.jc_memory.specs.Programs.{Executes};
ghost use Rattle.jc_world.specs.Arrays.{IsInArray, bytes_in};
ghost use Rattle.jc_world.specs.NativeCalls.{after_call};
ghost use Rattle.jc_api.specs.Forms.{reading_call};
ghost use Rattle.jc_api_pairs.specs.KeyAgreement.Keys.{ArePartsThere};
ghost use Rattle.jc_api_pairs.specs.KeyAgreement.Secrets.{are_short, puts_of, puts_secret, shared_x};

use crate::curve_parts::{
    MOST_NUMBER, MOST_POINT, are_curve_parts_short, parameters_of, read_curve_parts,
};
use crate::key_agreement::algorithms::Secret;
use crate::key_agreement::keys::PrivateParts;
use jc_api_keys::receivers::{output_of, read};
use jc_frames::Cell;
use jc_linker::linked::Linked;
use jc_memory::Memory;
use jc_public_keys::shared_secrets::put_x;
use jc_words::WordStore;
use jc_world::{NativeResult, StepExit, Stretch, put, short};
use sha1::Sha1;

/// The parts of a key have no more bytes than the numbers of a curve, and a public key with this many bytes is as long as an uncompressed point.
pub(crate) fn are_short(parts: &PrivateParts, public: u16) -> bool
    ensures { result ≡ are_short parts.now public }
{
    are_curve_parts_short(&parts.curve)
        && parts.secret.count <= MOST_NUMBER as u16
        && public == 2 * parts.curve.field.count + 1
}

/// Writes the x that they share. It returns false where there is none.
pub(crate) fn put_shared_x<S: WordStore>(
    parts: &PrivateParts,
    factor: u16,
    public: Stretch,
    memory: &Memory<S>,
    to: &mut [u8],
) -> bool
    requires up { memory.now.heap.down ≡ false }
    requires there { ArePartsThere memory.now parts.now }
    requires public { IsInArray memory.now public }
    requires short { are_short parts.now public.count ≡ true }
    requires room { length to.old ≡ parts.now.curve.field.count }
    ensures { (if result then Some to.new else None) ≡ shared_x memory.now parts.now factor public }
{
    let bytes = read_curve_parts(&parts.curve, memory);
    let parameters = parameters_of(&parts.curve, &bytes, u32::from(factor));
    let mut secret = [0; MOST_NUMBER];
    let secret = &mut secret[..parts.secret.count as usize];
    read(parts.secret, memory, secret);
    let mut point = [0; MOST_POINT];
    let point = &mut point[..public.count as usize];
    read(public, memory, point);
    put_x(&parameters, secret, point, to)
}

// Puts bytes into the array of the caller, as one change, and returns their number.
fn put_secret<S: WordStore>(
    bytes: &[u8],
    args: &[Cell],
    memory: &mut Memory<S>,
    linked: &Linked,
) -> Result<NativeResult, StepExit>
    requires up { memory.old.heap.down ≡ false }
    requires few { length bytes.now ≤ MOST_NUMBER }
    ensures { Executes (reading_call (puts_secret bytes.now args.now linked.now memory.old) linked.now memory.old)
        memory.old (after_call result memory.new) }
{
    let to = output_of(4, bytes.len() as u8, args, memory, linked)?;
    put(memory, to, bytes)?;
    Ok(short(bytes.len() as i16))
}

/// Puts what is made of x.
pub(crate) fn put_of<S: WordStore>(
    secret: Secret,
    x: &[u8],
    args: &[Cell],
    memory: &mut Memory<S>,
    linked: &Linked,
) -> Result<NativeResult, StepExit>
    requires up { memory.old.heap.down ≡ false }
    requires few { length x.now ≤ MOST_NUMBER }
    ensures { Executes (reading_call (puts_of secret x.now args.now linked.now memory.old) linked.now memory.old)
        memory.old (after_call result memory.new) }
{
    match secret {
        Secret::Hashed => put_secret(&Sha1::digest(x), args, memory, linked),
        Secret::Plain => put_secret(x, args, memory, linked),
    }
}
