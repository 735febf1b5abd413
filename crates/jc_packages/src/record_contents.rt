//! What a package's record is made of.
ghost use Rattle.std.specs.Prelude.{◌≡◌, ◌+◌, ◌*◌, ◌≤◌, ◌<◌, ◌++◌, [], ◌∷◌, length, map, replicate, Ok, IfOk, OnOk};
ghost use Rattle.jc_cap.specs.Assembling.{IsPackage};
ghost use Rattle.jc_cap.specs.StaticViews.{static_array, static_parts};
ghost use Rattle.jc_heap.specs.Package.{AreArrays, array_init, array_inits, parts};
ghost use Rattle.jc_heap.specs.Package.{part as component_part};
ghost use Rattle.jc_packages.specs.RecordContents.{AreRecordContents, array_of, kind_of, part, parts_of, statics_of, zeros_of};

use crate::infos::info_in;
use jc_cap::assembling::Package;
use jc_cap::static_arrays::{ArrayInit, ArrayInits, ElementType};
use jc_cap::statics::StaticFields;
use jc_cap::tags;
use jc_cap::texts::PackageBytes;
use jc_heap::{Kind, RecordComponent, StaticArray};
use std::alloc::{AllocError, Global};

/// What a package's record is made of. Components and arrays are lent from the package.
#[derive(Drop)]
pub struct RecordContents<'a> {
    pub components: Vec<RecordComponent<'a>>,
    pub arrays: Vec<StaticArray<'a>>,
    /// The static image after the references to the arrays.
    pub image: Vec<u8>,
}

// A component of a record.
fn component(tag: u8, text: &[u8]) -> RecordComponent<'_>
    ensures { component_part result ≡ part tag text.entry.now }
{
    RecordComponent {
        tag,
        info: info_in(tag, text),
    }
}

// The components of a record.
#[tactic(auto, unfolding(crate::specs::RecordContents::parts_of))]
fn record_components_of(
    alloc: Global,
    texts: &PackageBytes,
) -> Result<Vec<RecordComponent<'_>>, AllocError>
    ensures { IfOk result (λ made. parts made.items ≡ parts_of texts.entry.now) }
{
    let mut components = Vec::new(alloc);
    components.push(component(tags::HEADER, texts.header.bytes()))?;
    components.push(component(tags::DIRECTORY, texts.directory.bytes()))?;
    if let Some(text) = &texts.applets {
        components.push(component(tags::APPLET, text.bytes()))?;
    }
    components.push(component(tags::IMPORT, texts.imports.bytes()))?;
    components.push(component(tags::CONSTANT_POOL, texts.pool.bytes()))?;
    components.push(component(tags::CLASS, texts.classes.bytes()))?;
    components.push(component(tags::METHOD, texts.methods.bytes()))?;
    components.push(component(tags::STATIC_FIELD, texts.statics.bytes()))?;
    if let Some(text) = &texts.exports {
        components.push(component(tags::EXPORT, text.bytes()))?;
    }
    Ok(components)
}

// The kind of the array that is made for an initialised array.
fn kind_of(element_type: ElementType) -> Kind
    ensures { result ≡ kind_of element_type }
{
    match element_type {
        ElementType::Boolean => Kind::BooleanArray,
        ElementType::Byte => Kind::ByteArray,
        ElementType::Short => Kind::ShortArray,
    }
}

// An array that is made with a package.
fn array_of(array: ArrayInit<'_>) -> StaticArray<'_>
    ensures { array_init result ≡ array_of (static_array array.entry) }
{
    StaticArray {
        kind: kind_of(array.element_type),
        values: array.values,
    }
}

fn push_array<'a>(made: &mut Vec<StaticArray<'a>>, array: StaticArray<'a>) -> Result<(), AllocError>
    ensures { OnOk result (made.new.items ≡ made.old.items ++ array.entry ∷ []) }
{
    made.push(array)?;
    Ok(())
}

// The arrays that are made with a package.
fn arrays_of<'a>(
    alloc: Global,
    mut left: ArrayInits<'a>,
) -> Result<Vec<StaticArray<'a>>, AllocError>
    ensures made { IfOk result (λ made. array_inits made.items ≡ map array_of left.entry) }
    ensures fit { IfOk result (λ made. AreArrays (array_inits made.items)) }
{
    let mut made = Vec::new(alloc);
    while let Some((array, others)) = left.split_first() {
        push_array(&mut made, array_of(array))?;
        left = others;
    }
    Ok(made)
}

// This many zeros, and these bytes after them.
fn zeros_and(alloc: Global, zeros: usize, others: &[u8]) -> Result<Vec<u8>, AllocError>
    ensures { IfOk result (λ bytes. bytes.items ≡ replicate zeros 0 ++ others.now) }
{
    let mut bytes = vec![in alloc; 0u8; zeros]?;
    bytes.extend_from_slice(others)?;
    Ok(bytes)
}

// How many zeros stand after the references to the arrays.
fn zeros_of(statics: &StaticFields<'_>) -> usize
    requires { length statics.now.arrays ≤ statics.now.reference_count }
    ensures { result ≡ zeros_of (static_parts statics.now) }
{
    let references = statics.reference_count;
    let zeros = statics.default_value_count;
    2 * usize::from(references - statics.arrays.count()) + usize::from(zeros)
}

// The size of the image.
fn size_of_image(statics: &StaticFields<'_>) -> u16
    ensures { result ≡ statics.now.image_size }
{
    statics.image_size
}

// What the record of a package is made of: its components' bytes, and its static fields as they were read.
fn contents_with<'a>(
    alloc: Global,
    texts: &'a PackageBytes,
    statics: StaticFields<'a>,
) -> Result<RecordContents<'a>, AllocError>
    requires sound { IsPackage texts.now }
    requires read { static_parts statics ≡ statics_of texts.now }
    ensures { IfOk result (λ made. AreRecordContents texts.entry.now made) }
{
    let zeros = zeros_of(&statics);
    let image = zeros_and(alloc, zeros, statics.non_default_values)?;
    let _size = size_of_image(&statics);
    let arrays = arrays_of(alloc, statics.arrays)?;
    let components = record_components_of(alloc, texts)?;
    Ok(RecordContents {
        components,
        arrays,
        image,
    })
}

/// What the record of a package is made of, if memory is there.
pub fn record_contents_of(alloc: Global, whole: &Package) -> Result<RecordContents<'_>, AllocError>
    ensures { IfOk result (λ made. AreRecordContents whole.entry.now made) }
{
    let contents = whole.contents();
    contents_with(alloc, whole.texts(), contents.statics)
}
