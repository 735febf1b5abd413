//! What a package is made from, and how many words it takes.
ghost use Rattle.std.specs.Prelude.{◌≡◌, ◌<◌, length};
ghost use Rattle.jc_heap.specs.Package.{parts, array_init, array_inits, elements, components_words, arrays_size, AreComponents};
ghost use Rattle.jc_heap.specs.Package.{AreArrays, record_size, image_size};

use crate::layout::HEADER;
use crate::object::Kind;
use crate::packed::packed_size;

/// A component of a package.
#[derive(Clone, Copy)]
pub struct RecordComponent<'a> {
    /// 1 to 8, or 10.
    pub tag: u8,
    /// What stands after the component's tag and size.
    pub info: &'a [u8],
}

/// An initialised array of a package's static image.
#[derive(Clone, Copy)]
pub struct StaticArray<'a> {
    /// A boolean, byte or short array.
    pub kind: Kind,
    /// The elements: two bytes each of a short array, the high one first.
    pub values: &'a [u8],
}

// The number of an array's cells.
pub(crate) fn cell_count(array: &StaticArray) -> usize
    ensures { result ≡ length (elements (array_init array.now)) }
{
    match array.kind {
        Kind::BooleanArray | Kind::ByteArray => array.values.len(),
        _ => packed_size(array.values),
    }
}

// How many words components take in a record.
fn components_size(components: &[RecordComponent]) -> u32
    requires { AreComponents (parts components.now) }
    ensures exact { result ≡ length (components_words (parts components.now)) }
    ensures small { result < 1_000_000 }
{
    let mut size = 0;
    for component in components {
        size += 2 + packed_size(component.info) as u32;
    }
    size
}

// How many words arrays take.
pub(crate) fn size_of_arrays(arrays: &[StaticArray]) -> u32
    requires arrays { AreArrays (array_inits arrays.now) }
    requires few { length arrays.now < 32768 }
    ensures exact { result ≡ arrays_size (array_inits arrays.now) }
    ensures small { result < 2_500_000_000 }
{
    let mut size = 0;
    for array in arrays {
        size += u32::from(HEADER) + packed_size(array.values) as u32;
    }
    size
}

// How many words a package's record has.
pub(crate) fn size_of_record(
    components: &[RecordComponent],
    arrays: &[StaticArray],
    image: &[u8],
) -> u32
    requires components { AreComponents (parts components.now) }
    requires image { image_size (array_inits arrays.now) image.now < 65536 }
    ensures exact { result ≡ record_size (parts components.now) (array_inits arrays.now) image.now }
    ensures small { result < 1_500_000 }
{
    let statics = arrays.len() + packed_size(image);
    components_size(components) + statics as u32 + 2
}
