//! Packages read from the records of a heap.
ghost use Rattle.std.specs.Prelude.{◌≡◌, ◌<◌, ◌++◌, [], ◌∷◌, false, length, slice_index, IfOk, OnOk, Some, Ok, None, Err};
ghost use Rattle.jc_cap.specs.Texts.{taken, no_components};
ghost use Rattle.jc_heap.specs.WholeHeap.{IsConsistent};
ghost use Rattle.jc_heap.specs.Component.{record_of, IsWithin};
ghost use Rattle.jc_packages.specs.Reading.{CannotBeTaken, IsNoPackage, fault_of, load_of, packages_of, text_at, text_in, text_taken};
ghost use Rattle.jc_packages.specs.Reading.{with_prepared};
ghost use Rattle.jc_packages.specs.PendingPackages.{linked_components, linked_texts};

use crate::fault::ReadFault;
use crate::linking::link_package;
use crate::load::take_in;
use crate::load_refusal::LoadRefusal;
use jc_cap::assembling::Package;
use jc_cap::formats::Format;
use jc_cap::tags;
use jc_cap::texts::LoadedComponents;
use jc_heap::{Heap, Span};
use jc_linker::fault::LinkFault;
use jc_linker::linked::Linked;
use jc_platform::platform::Platform;
use jc_transient::Ref;
use jc_words::WordStore;
use std::alloc::{AllocError, Global};

fn push_byte(bytes: &mut Vec<u8>, byte: u8) -> Result<(), AllocError>
    ensures { OnOk result (bytes.new.items ≡ bytes.old.items ++ byte ∷ []) }
{
    bytes.push(byte)?;
    Ok(())
}

// The bytes of a component whose info stands there, with its tag and its size in front.
#[tactic(auto, unfolding(jc_heap::specs::Packed::bytes_of_packed))]
fn read_text<S: WordStore>(
    alloc: Global,
    heap: &Heap<S>,
    at: Ref,
    tag: u8,
    span: Span,
) -> Result<Vec<u8>, AllocError>
    requires up { heap.now.down ≡ false }
    requires within { IsWithin span (record_of heap.now.now at) }
    ensures { IfOk result (λ text. text.items ≡ text_at tag (record_of heap.now.now at) span) }
{
    let mut bytes = Vec::with_capacity(alloc, 3 + usize::from(span.size))?;
    push_byte(&mut bytes, tag)?;
    push_byte(&mut bytes, (span.size / 256) as u8)?;
    push_byte(&mut bytes, (span.size % 256) as u8)?;
    for i in 0..span.size {
        push_byte(&mut bytes, heap.info_byte(at, span, i))?;
    }
    Ok(bytes)
}

// The size of an info.
fn size_of(span: Span) -> u16
    ensures { result ≡ span.size }
{
    span.size
}

// Reads a record's component with this tag, if there is one, after a header that stated this format, and keeps it with the
// others. The answer is the format that is known after it.
fn take_text<S: WordStore>(
    alloc: Global,
    heap: &Heap<S>,
    at: Ref,
    told: Option<Format>,
    tag: u8,
    load: &mut LoadedComponents,
) -> Result<Option<Format>, ReadFault>
    requires up { heap.now.down ≡ false }
    requires there { 0 < length (record_of heap.now.now at) }
    requires tag { 0 < tag }
    ensures took { IfOk result (λ format. taken (Ok format) load.new
        ≡ text_taken told load.old tag (text_in (record_of heap.now.now at) tag)) }
    ensures damaged { result ≡ Err ReadFault.Damaged
        → CannotBeTaken told tag (text_in (record_of heap.now.now at) tag) }
{
    let Some(span) = heap.component(at, tag) else {
        return Ok(told);
    };
    let _size = size_of(span);
    let Ok(bytes) = read_text(alloc, heap, at, tag, span) else {
        return Err(ReadFault::NoMemory);
    };
    match take_in(told, load, tag, bytes) {
        Ok(format) => Ok(format),
        Err(_) => Err(ReadFault::Damaged),
    }
}

// Reads the components of a record, and keeps them where none is.
fn take_texts<S: WordStore>(
    alloc: Global,
    heap: &Heap<S>,
    at: Ref,
    load: &mut LoadedComponents,
) -> Result<(), ReadFault>
    requires up { heap.now.down ≡ false }
    requires there { 0 < length (record_of heap.now.now at) }
    requires none { load.old ≡ no_components }
    ensures taken { OnOk result (load.new ≡ load_of (record_of heap.now.now at)) }
    ensures damaged { result ≡ Err ReadFault.Damaged
        → IsNoPackage (load_of (record_of heap.now.now at)) }
{
    let told = take_text(alloc, heap, at, None, tags::HEADER, load)?;
    take_text(alloc, heap, at, told, tags::DIRECTORY, load)?;
    take_text(alloc, heap, at, told, tags::APPLET, load)?;
    take_text(alloc, heap, at, told, tags::IMPORT, load)?;
    take_text(alloc, heap, at, told, tags::CONSTANT_POOL, load)?;
    take_text(alloc, heap, at, told, tags::CLASS, load)?;
    take_text(alloc, heap, at, told, tags::METHOD, load)?;
    take_text(alloc, heap, at, told, tags::STATIC_FIELD, load)?;
    take_text(alloc, heap, at, told, tags::EXPORT, load)?;
    Ok(())
}

// The components of a record, each of them read.
fn load_of<S: WordStore>(
    alloc: Global,
    heap: &Heap<S>,
    at: Ref,
) -> Result<LoadedComponents, ReadFault>
    requires up { heap.now.down ≡ false }
    requires there { 0 < length (record_of heap.now.now at) }
    ensures taken { IfOk result (λ load. load ≡ load_of (record_of heap.now.now at)) }
    ensures damaged { result ≡ Err ReadFault.Damaged
        → IsNoPackage (load_of (record_of heap.now.now at)) }
{
    let mut load = LoadedComponents::new();
    take_texts(alloc, heap, at, &mut load)?;
    Ok(load)
}

// Why a package that was refused is not read.
fn fault_of(refusal: LoadRefusal) -> ReadFault
    ensures { result ≡ fault_of refusal }
{
    match refusal {
        LoadRefusal::LinkFailed(LinkFault::NoMemory) => ReadFault::NoMemory,
        _ => ReadFault::Damaged,
    }
}

// Links a package, and adds it.
fn link_and_add(alloc: Global, linked: &mut Linked, whole: &Package) -> Result<(), ReadFault>
    ensures added { OnOk result (with_prepared linked.old
        (linked_texts linked.old whole.now) ≡ Some linked.new) }
    ensures damaged { result ≡ Err ReadFault.Damaged
        → with_prepared linked.old (linked_texts linked.old whole.now) ≡ None }
{
    match link_package(alloc, linked, whole) {
        Ok(addition) => {
            linked.add(addition);
            Ok(())
        }
        Err(refusal) => Err(fault_of(refusal)),
    }
}

// Links the package of a record, and adds it.
fn add_record<S: WordStore>(
    alloc: Global,
    linked: &mut Linked,
    heap: &Heap<S>,
    at: Ref,
) -> Result<(), ReadFault>
    requires up { heap.now.down ≡ false }
    requires there { 0 < length (record_of heap.now.now at) }
    ensures added { OnOk result (with_prepared linked.old
        (linked_components linked.old (load_of (record_of heap.now.now at))) ≡ Some linked.new) }
    ensures damaged { result ≡ Err ReadFault.Damaged
        → with_prepared linked.old (linked_components linked.old
        (load_of (record_of heap.now.now at))) ≡ None }
{
    let load = load_of(alloc, heap, at)?;
    match Package::of(load) {
        Ok(whole) => link_and_add(alloc, linked, &whole),
        Err(_) => Err(ReadFault::Damaged),
    }
}

/// The packages of a heap, linked, after those of the platform.
#[tactic(auto, unfolding(crate::specs::Reading::packages_of))]
pub fn read_packages<S: WordStore>(
    alloc: Global,
    platform: Platform,
    heap: &Heap<S>,
) -> Result<Linked, ReadFault>
    requires up { heap.now.down ≡ false }
    requires whole { IsConsistent heap.now.now }
    ensures linked { IfOk result (λ linked. packages_of platform heap.now.now ≡ Some linked) }
    ensures damaged { result ≡ Err ReadFault.Damaged → packages_of platform heap.now.now ≡ None }
{
    let Ok(mut linked) = Linked::new(alloc, platform) else {
        return Err(ReadFault::NoMemory);
    };
    for k in 0..heap.packages() {
        let at = record_at(heap, k);
        add_record(alloc, &mut linked, heap, at)?;
    }
    Ok(linked)
}

/// Where the record of a package stands, in a whole heap.
pub(crate) fn record_at<S: WordStore>(heap: &Heap<S>, k: u16) -> Ref
    requires up { heap.now.down ≡ false }
    requires whole { IsConsistent heap.now.now }
    requires below { k < length heap.now.now.packages }
    ensures place { result ≡ slice_index heap.now.now.packages k }
    ensures there { 0 < length (record_of heap.now.now result) }
{
    heap.package_address(k)
}
