//! The end of a load: the package comes in.
ghost use Rattle.std.specs.Prelude.{◌≡◌, ◌<◌, false, length, None};
ghost use Rattle.jc_memory.specs.Programs.{Executes, Either};
ghost use Rattle.jc_linker.specs.declared.fault.LinkFault.TheVariants.{NoMemory};
ghost use Rattle.jc_packages.specs.declared.load_refusal.LoadRefusal.TheVariants.{LinkFailed};
ghost use Rattle.jc_words.specs.Layout.{most_packages};
ghost use Rattle.jc_heap.specs.Package.{AreArrays, AreComponents, array_inits, image_size, parts};
ghost use Rattle.jc_packages.specs.PendingPackages.{linked_as};
ghost use Rattle.jc_packages.specs.LoadEnd.{package_entry, record_entry, after_end, assembly_result, texts_result, with_dropped_load, end_of_load};

use crate::linking::link_package;
use crate::load::OpenLoad;
use crate::load_refusal::LoadRefusal;
use crate::record_contents::{RecordContents, record_contents_of};
use crate::refusals::{note_full_heap, note_missing, note_refusal, note_sizes};
use jc_cap::assembling::Package;
use jc_cap::texts::LoadedComponents;
use jc_heap::HeapRefusal;
use jc_linker::fault::LinkFault;
use jc_linker::linked::Linked;
use jc_linker::package::LinkedPackage;
use jc_memory::Memory;
use jc_words::layout::MOST_PACKAGES;
use jc_words::{StoreDown, WordStore};
use std::alloc::{AllocError, Global};

/// Ends a load: its components are put together and linked, and the package is written. A refusal drops the load,
/// but where no load is open or a component still is. The error is a write that the store refused.
pub fn end_package<S: WordStore>(
    alloc: Global,
    memory: &mut Memory<S>,
    linked: &mut Linked,
    load: &mut Option<OpenLoad>,
) -> Result<Result<(), LoadRefusal>, StoreDown>
    requires up { memory.old.heap.down ≡ false }
    ensures { Executes (end_of_load linked.old memory.old load.old) memory.old
        (after_end result linked.new load.new memory.new) }
{
    match load.take() {
        None => Ok(Err(LoadRefusal::OutOfSequence)),
        Some(open) => {
            if open.coming.is_some() {
                *load = Some(open);
                return Ok(Err(LoadRefusal::OutOfSequence));
            }
            assemble_and_add(alloc, memory, linked, open.texts)
        }
    }
}

// Brings the package of the components that came in.
#[tactic(auto, unfolding(crate::specs::LoadEnd::assembly_result))]
fn assemble_and_add<S: WordStore>(
    alloc: Global,
    memory: &mut Memory<S>,
    linked: &mut Linked,
    load: LoadedComponents,
) -> Result<Result<(), LoadRefusal>, StoreDown>
    requires up { memory.old.heap.down ≡ false }
    ensures { Executes (assembly_result linked.old memory.old load) memory.old
        (after_end result linked.new None memory.new) }
{
    if memory.notes().are_kept() {
        note_sizes(&load, memory.notes());
    }
    match Package::of(load) {
        Ok(whole) => link_and_add(alloc, memory, linked, &whole),
        Err(fault) => {
            note_missing(fault, memory.notes());
            Ok(Err(LoadRefusal::BadComponents(fault)))
        }
    }
}

// Brings a package in.
fn link_and_add<S: WordStore>(
    alloc: Global,
    memory: &mut Memory<S>,
    linked: &mut Linked,
    whole: &Package,
) -> Result<Result<(), LoadRefusal>, StoreDown>
    requires up { memory.old.heap.down ≡ false }
    ensures { Executes (texts_result linked.old memory.old whole.now) memory.old
        (after_end result linked.new None memory.new) }
{
    match link_package(alloc, linked, whole) {
        Ok(addition) => add(alloc, memory, linked, whole, addition),
        Err(refusal) => {
            if memory.notes().are_kept() {
                note_refusal(refusal, whole, linked, memory.notes());
            }
            Ok(Err(refusal))
        }
    }
}

// Writes a package that is linked, and adds it to the others.
fn add<S: WordStore>(
    alloc: Global,
    memory: &mut Memory<S>,
    linked: &mut Linked,
    whole: &Package,
    addition: LinkedPackage,
) -> Result<Result<(), LoadRefusal>, StoreDown>
    requires up { memory.old.heap.down ≡ false }
    requires room { length linked.old.loaded < 32 }
    ensures { Executes (Either (package_entry linked.old (linked_as whole.now addition)
        memory.old)
        (with_dropped_load linked.old (LinkFailed NoMemory))) memory.old
        (after_end result linked.new None memory.new) }
{
    if memory.heap().packages() >= MOST_PACKAGES {
        return Ok(Err(LoadRefusal::Full));
    }
    match record_contents_of(alloc, whole) {
        Ok(contents) => write_record(memory, linked, &contents, addition),
        Err(AllocError) => Ok(Err(LoadRefusal::LinkFailed(LinkFault::NoMemory))),
    }
}

// Writes a package's record of these contents, and adds the package to those that are linked. No memory is asked for.
fn write_record<S: WordStore>(
    memory: &mut Memory<S>,
    linked: &mut Linked,
    contents: &RecordContents,
    addition: LinkedPackage,
) -> Result<Result<(), LoadRefusal>, StoreDown>
    requires up { memory.old.heap.down ≡ false }
    requires few { memory.old.heap.now.counts.0 < most_packages }
    requires room { length linked.old.loaded < 32 }
    requires components { AreComponents (parts contents.now.components.items) }
    requires arrays { AreArrays (array_inits contents.now.arrays.items) }
    requires small { image_size (array_inits contents.now.arrays.items) contents.now.image.items
        < 65536 }
    ensures { Executes (record_entry linked.old addition
        (parts contents.now.components.items) (array_inits contents.now.arrays.items)
        contents.now.image.items memory.old) memory.old
        (after_end result linked.new None memory.new) }
{
    match memory.add_package(&contents.components, &contents.arrays, &contents.image) {
        Ok(_) => {
            linked.add(addition);
            Ok(Ok(()))
        }
        Err(HeapRefusal::StoreDown) => Err(StoreDown),
        Err(_) => {
            note_full_heap(contents, memory);
            Ok(Err(LoadRefusal::HeapFull))
        }
    }
}
