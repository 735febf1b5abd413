//! The words of a package above the top: its record and its initialised arrays.
ghost use Rattle.std.specs.Prelude.{ℕ, ◌≡◌, ◌<◌, ◌+◌, length, slice_index, OnOk, OnErr, IfOk};
ghost use Rattle.jc_heap.specs.Fresh.{IsFree, KeepsBelow, Fills, IsTornFresh};
ghost use Rattle.jc_heap.specs.Package.{part, parts, array_init, array_inits, AreArrays, AreArraysOfBytes, component_words, components_words, array_addresses, arrays_size};
ghost use Rattle.jc_heap.specs.Package.{image_words, record_size, package_record, AreComponents, array_words, arrays_words};
ghost use Rattle.jc_heap.specs.Packed.{packed_words};

use crate::fresh::write_run;
use crate::layout::HEADER;
use crate::package::{RecordComponent, StaticArray, cell_count};
use crate::packed::{packed_size, packed_word};
use jc_commit::Journal;
use jc_transient::{NO_CLASS, OwnerWord};
use jc_words::{StoreDown, WordStore};

// Writes bytes from an address on, two a word.
fn write_packed<S: WordStore>(
    journal: &mut Journal<S>,
    at: u16,
    bytes: &[u8],
) -> Result<(), StoreDown>
    requires { IsFree at (length (packed_words bytes.now)) journal.old }
    ensures below { KeepsBelow at journal.old journal.new }
    ensures done { OnOk result (Fills at (packed_words bytes.now) journal.old journal.new) }
    ensures bytes { OnOk result ((i : ℕ) → slice_index bytes.now i < 256) }
    ensures stopped { OnErr result (IsTornFresh (length (packed_words bytes.now)) journal.old journal.new) }
{
    for k in 0..packed_size(bytes) {
        journal.write_fresh(at + k as u16, packed_word(bytes, k as u16))?;
    }
    Ok(())
}

// Writes a component: its tag, its size, its info.
fn write_component<S: WordStore>(
    journal: &mut Journal<S>,
    at: u16,
    component: &RecordComponent,
) -> Result<(), StoreDown>
    requires free { IsFree at (length (component_words (part component.now))) journal.old }
    requires small { length component.now.info.now < 65536 }
    ensures below { KeepsBelow at journal.old journal.new }
    ensures done { OnOk result (Fills at (component_words (part component.now)) journal.old
        journal.new) }
    ensures stopped { OnErr result (IsTornFresh (length (component_words (part component.now))) journal.old journal.new) }
{
    let info = component.info;
    write_run(journal, at, &[u16::from(component.tag), info.len() as u16])?;
    write_packed(journal, at + 2, info)?;
    Ok(())
}

// Writes components one after another, and gives the address after them.
fn write_components<S: WordStore>(
    journal: &mut Journal<S>,
    at: u16,
    components: &[RecordComponent],
) -> Result<u16, StoreDown>
    requires free { IsFree at (length (components_words (parts components.now))) journal.old }
    requires small { AreComponents (parts components.now) }
    ensures behind { IfOk result (λ next. next ≡ at + length
        (components_words (parts components.now))) }
    ensures below { KeepsBelow at journal.old journal.new }
    ensures done { OnOk result (Fills at (components_words (parts components.now)) journal.old
        journal.new) }
    ensures stopped { OnErr result (IsTornFresh (length (components_words (parts components.now))) journal.old journal.new) }
{
    let mut next = at;
    for component in components {
        write_component(journal, next, component)?;
        next += 2 + packed_size(component.info) as u16;
    }
    Ok(next)
}

// Writes the addresses of arrays, the first of which begins at an address.
fn write_references<S: WordStore>(
    journal: &mut Journal<S>,
    at: u16,
    arrays: &[StaticArray],
    first: u16,
) -> Result<(), StoreDown>
    requires free { IsFree at (length arrays.now) journal.old }
    requires small { first + arrays_size (array_inits arrays.now) < 65536 }
    ensures below { KeepsBelow at journal.old journal.new }
    ensures done { OnOk result (Fills at (array_addresses first (array_inits arrays.now))
        journal.old journal.new) }
    ensures stopped { OnErr result (IsTornFresh (length arrays.now) journal.old journal.new) }
{
    let mut address = first;
    for (k, array) in arrays.iter().enumerate() {
        journal.write_fresh(at + k as u16, address)?;
        address += HEADER + packed_size(array.values) as u16;
    }
    Ok(())
}

// Writes a static image: references to the arrays, then the other bytes.
fn write_static_image<S: WordStore>(
    journal: &mut Journal<S>,
    at: u16,
    arrays: &[StaticArray],
    first: u16,
    image: &[u8],
) -> Result<(), StoreDown>
    requires free { IsFree at (length arrays.now + length (packed_words image.now)) journal.old }
    requires small { first + arrays_size (array_inits arrays.now) < 65536 }
    ensures below { KeepsBelow at journal.old journal.new }
    ensures done { OnOk result (Fills at (image_words first (array_inits arrays.now) image.now)
        journal.old journal.new) }
    ensures stopped { OnErr result (IsTornFresh (length arrays.now + length (packed_words image.now)) journal.old journal.new) }
{
    write_references(journal, at, arrays, first)?;
    write_packed(journal, at + arrays.len() as u16, image)?;
    Ok(())
}

// Writes an initialised array: its header, its cells.
fn write_array<S: WordStore>(
    journal: &mut Journal<S>,
    at: u16,
    array: &StaticArray,
    owner: OwnerWord,
) -> Result<(), StoreDown>
    requires free { IsFree at (length (array_words owner (array_init array.now))) journal.old }
    requires small { length array.now.values.now < 65536 }
    ensures below { KeepsBelow at journal.old journal.new }
    ensures done { OnOk result (Fills at (array_words owner (array_init array.now)) journal.old
        journal.new) }
    ensures bytes { OnOk result ((i : ℕ) → slice_index (array_init array.now).1 i < 256) }
    ensures stopped { OnErr result (IsTornFresh (length (array_words owner (array_init array.now))) journal.old journal.new) }
{
    let cells = cell_count(array) as u16;
    write_run(
        journal,
        at,
        &[array.kind.header_number(), NO_CLASS.0, owner.0, cells],
    )?;
    write_packed(journal, at + HEADER, array.values)?;
    Ok(())
}

// Writes initialised arrays one after another.
pub(crate) fn write_arrays<S: WordStore>(
    journal: &mut Journal<S>,
    at: u16,
    arrays: &[StaticArray],
    owner: OwnerWord,
) -> Result<(), StoreDown>
    requires free { IsFree at (length (arrays_words owner (array_inits arrays.now))) journal.old }
    requires arrays { AreArrays (array_inits arrays.now) }
    ensures below { KeepsBelow at journal.old journal.new }
    ensures done { OnOk result (Fills at (arrays_words owner (array_inits arrays.now)) journal.old
        journal.new) }
    ensures bytes { OnOk result (AreArraysOfBytes (array_inits arrays.now)) }
    ensures stopped { OnErr result (IsTornFresh (length (arrays_words owner (array_inits arrays.now))) journal.old journal.new) }
{
    let mut next = at;
    for array in arrays {
        write_array(journal, next, array, owner)?;
        next += HEADER + packed_size(array.values) as u16;
    }
    Ok(())
}

// Writes a package's record, of n words.
pub(crate) fn write_package_record<S: WordStore>(
    journal: &mut Journal<S>,
    at: u16,
    size: u16,
    components: &[RecordComponent],
    arrays: &[StaticArray],
    image: &[u8],
) -> Result<(), StoreDown>
    requires free { IsFree at size journal.old }
    requires size { size ≡ record_size (parts components.now) (array_inits arrays.now) image.now }
    requires components { AreComponents (parts components.now) }
    requires behind { at + size + arrays_size (array_inits arrays.now) < 65536 }
    ensures below { KeepsBelow at journal.old journal.new }
    ensures done { OnOk result (Fills at (package_record at (parts components.now)
        (array_inits arrays.now) image.now) journal.old journal.new) }
    ensures stopped { OnErr result (IsTornFresh size journal.old journal.new) }
{
    write_run(journal, at, &[size])?;
    let next = write_components(journal, at + 1, components)?;
    write_run(journal, next, &[0])?;
    write_static_image(journal, next + 1, arrays, at + size, image)?;
    Ok(())
}
