//! The domain parameters of a key on an elliptic curve.
ghost use Rattle.std.specs.Prelude.{◌≡◌, ◌≤◌, false, true, IfOk, length, take};
ghost use Rattle.jc_curves.specs.Curves.{AreShort};
ghost use Rattle.jc_world.specs.Arrays.{IsInArray, bytes_in};
ghost use Rattle.jc_public_keys.specs.CurveBytes.{bytes_of};
ghost use Rattle.jc_api.specs.Exits.{plainly};
ghost use Rattle.jc_api_keys.specs.KeyObjects.Contents.{IsKey};
ghost use Rattle.jc_api_pairs.specs.CurveParts.{AreCurveParts, are_curve_parts_short, bytes_read, curve_of_parts, curve_parts_of};

use jc_api_keys::key_objects::contents::Key;
use jc_api_keys::key_objects::parts::key_part;
use jc_api_keys::key_parts::KeyPart;
use jc_api_keys::receivers::read;
use jc_curves::curves::Parameters;
use jc_frames::FrameExit;
use jc_memory::Memory;
use jc_words::WordStore;
use jc_world::Stretch;

/// How many bytes a number of a curve has at most.
pub(crate) const MOST_NUMBER: usize = 66;

/// How many bytes a point has at most.
pub(crate) const MOST_POINT: usize = 2 * MOST_NUMBER + 1;

/// The elements that are the domain parameters of a key, but for the cofactor.
#[derive(Clone, Copy)]
pub struct CurveParts {
    pub field: Stretch,
    pub a: Stretch,
    pub b: Stretch,
    pub generator: Stretch,
    pub order: Stretch,
}

/// Their bytes, each from the beginning of an array on.
#[derive(Drop)]
pub struct CurvePartBytes {
    pub field: [u8; MOST_NUMBER],
    pub a: [u8; MOST_NUMBER],
    pub b: [u8; MOST_NUMBER],
    pub generator: [u8; MOST_POINT],
    pub order: [u8; MOST_NUMBER],
}

/// The domain parameters of a key. One that is not set throws UNINITIALIZED_KEY.
pub(crate) fn curve_parts_of<S: WordStore>(
    key: &Key,
    memory: &Memory<S>,
) -> Result<CurveParts, FrameExit>
    requires up { memory.now.heap.down ≡ false }
    requires key { IsKey memory.now key.now }
    ensures parts { result ≡ curve_parts_of memory.now key.now }
    ensures there { IfOk result (AreCurveParts memory.now) }
    ensures plain { plainly result ≡ result }
{
    let field = key_part(key, KeyPart::Field, memory)?;
    let a = key_part(key, KeyPart::A, memory)?;
    let b = key_part(key, KeyPart::B, memory)?;
    let generator = key_part(key, KeyPart::G, memory)?;
    let order = key_part(key, KeyPart::R, memory)?;
    Ok(CurveParts {
        field,
        a,
        b,
        generator,
        order,
    })
}

/// They have no more bytes than the numbers of a curve, and the base point is as long as an uncompressed one.
pub(crate) fn are_curve_parts_short(parts: &CurveParts) -> bool
    ensures { result ≡ are_curve_parts_short parts.now }
{
    let most = MOST_NUMBER as u16;
    parts.field.count <= most
        && parts.a.count <= most
        && parts.b.count <= most
        && parts.order.count <= most
        && parts.generator.count == 2 * parts.field.count + 1
}

// Reads a number of a curve.
fn read_number<S: WordStore>(part: Stretch, memory: &Memory<S>) -> [u8; MOST_NUMBER]
    requires up { memory.now.heap.down ≡ false }
    requires there { IsInArray memory.now part }
    requires short { part.count ≤ MOST_NUMBER }
    ensures { take part.count result ≡ bytes_in memory.now part }
{
    let mut bytes = [0; MOST_NUMBER];
    read(part, memory, &mut bytes[..part.count as usize]);
    bytes
}

// Reads a point.
fn read_point<S: WordStore>(part: Stretch, memory: &Memory<S>) -> [u8; MOST_POINT]
    requires up { memory.now.heap.down ≡ false }
    requires there { IsInArray memory.now part }
    requires short { part.count ≤ MOST_POINT }
    ensures { take part.count result ≡ bytes_in memory.now part }
{
    let mut bytes = [0; MOST_POINT];
    read(part, memory, &mut bytes[..part.count as usize]);
    bytes
}

/// Reads the domain parameters.
pub(crate) fn read_curve_parts<S: WordStore>(
    parts: &CurveParts,
    memory: &Memory<S>,
) -> CurvePartBytes
    requires up { memory.now.heap.down ≡ false }
    requires there { AreCurveParts memory.now parts.now }
    requires short { are_curve_parts_short parts.now ≡ true }
    ensures { bytes_read parts.now result ≡ curve_of_parts memory.now parts.now }
{
    CurvePartBytes {
        field: read_number(parts.field, memory),
        a: read_number(parts.a, memory),
        b: read_number(parts.b, memory),
        generator: read_point(parts.generator, memory),
        order: read_number(parts.order, memory),
    }
}

/// The numbers of a curve that were read, with a cofactor.
pub(crate) fn parameters_of<'a>(
    parts: &CurveParts,
    bytes: &'a CurvePartBytes,
    cofactor: u32,
) -> Parameters<'a>
    requires short { are_curve_parts_short parts.now ≡ true }
    ensures bytes { bytes_of result ≡ bytes_read parts.now bytes.now }
    ensures short { AreShort result }
    ensures field { length result.field.now ≡ parts.now.field.count }
    ensures order { length result.order.now ≡ parts.now.order.count }
    ensures cofactor { result.cofactor ≡ cofactor }
{
    Parameters {
        field: &bytes.field[..parts.field.count as usize],
        a: &bytes.a[..parts.a.count as usize],
        b: &bytes.b[..parts.b.count as usize],
        generator: &bytes.generator[..parts.generator.count as usize],
        order: &bytes.order[..parts.order.count as usize],
        cofactor,
    }
}
