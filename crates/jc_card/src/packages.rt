//! The packages of a card, which copies of it may share.
ghost use Rattle.std.specs.Prelude.{◌≡◌, false, IfOk, IfSome, Ok, Err};
ghost use Rattle.jc_linker.specs.Values.{Packages};
ghost use Rattle.jc_memory.specs.Programs.{Executes};
ghost use Rattle.jc_memory.specs.State.{MemoryState};
ghost use Rattle.jc_packages.specs.LoadEnd.{after_end, end_of_load};

use jc_linker::fault::LinkFault;
use jc_linker::linked::Linked;
use jc_memory::Memory;
use jc_packages::{LoadRefusal, OpenLoad, end_package};
use jc_words::{StoreDown, WordStore};
use std::alloc::{AllocError, Global};
use std::marker::Model;
use std::rc::Rc;

/// Who has them.
#[derive(Drop)]
pub(crate) enum Held {
    /// One card alone.
    Own(Linked),
    /// A card and its copies.
    Shared(Rc<Linked>),
}

/// The packages of a card.
#[derive(Drop)]
pub(crate) struct CardPackages {
    pub(crate) held: Held,
}

impl Model for CardPackages {
    ghost use Rattle.jc_linker.specs.Values.{Packages};
    ghost use Rattle.jc_card.specs.Packages.{held_packages};

    ghost Value = { Packages };

    ghost view = { λ p. held_packages p.held };
}

impl CardPackages {
    /// The packages of one card.
    pub(crate) fn own(linked: Linked) -> CardPackages
        ensures { result ≡ linked }
    {
        CardPackages {
            held: Held::Own(linked),
        }
    }

    /// Packages that others share.
    pub(crate) fn of_shared(linked: Rc<Linked>) -> CardPackages
        ensures { result ≡ linked.value }
    {
        CardPackages {
            held: Held::Shared(linked),
        }
    }

    /// The packages.
    #[inline(always)]
    pub(crate) fn get(&self) -> &Linked
        ensures { result.now ≡ self.now }
    {
        match &self.held {
            Held::Own(linked) => linked,
            Held::Shared(linked) => Rc::as_ref(linked),
        }
    }

    /// The same packages for another card: those that are shared are not copied. Without memory for them, it answers the error.
    pub(crate) fn copy(&self, alloc: Global) -> Result<CardPackages, AllocError>
        ensures { IfOk result (λ copy. copy ≡ self.now) }
    {
        match &self.held {
            Held::Own(linked) => Ok(CardPackages::own(linked.copy(alloc)?)),
            Held::Shared(linked) => Ok(CardPackages {
                held: Held::Shared(linked.clone()?),
            }),
        }
    }

    /// The same packages, to be shared with copies from now on, if there is memory for that.
    pub(crate) fn shared(self, alloc: Global) -> CardPackages
        ensures { result ≡ self }
    {
        match self.held {
            Held::Own(linked) => match Rc::new(alloc, linked) {
                Ok(shared) => CardPackages {
                    held: Held::Shared(shared),
                },
                Err(failed) => CardPackages::own(failed.value),
            },
            Held::Shared(linked) => CardPackages {
                held: Held::Shared(linked),
            },
        }
    }

    /// The same packages, to be shared. Nothing where memory for that is refused.
    pub(crate) fn into_shared(self, alloc: Global) -> Option<Rc<Linked>>
        ensures { IfSome result (λ shared. shared.value ≡ self) }
    {
        match self.held {
            Held::Own(linked) => Rc::new(alloc, linked).ok(),
            Held::Shared(linked) => Some(linked),
        }
    }

    // Has them alone from now on, if there is memory for a copy.
    fn unshare(&mut self, alloc: Global)
        ensures { self.new ≡ self.old }
    {
        if let Some(copy) = self.copied(alloc) {
            self.held = Held::Own(copy);
        }
    }

    // A copy of those that are shared.
    fn copied(&self, alloc: Global) -> Option<Linked>
        ensures { IfSome result (λ copy. copy ≡ self.now) }
    {
        match &self.held {
            Held::Own(_) => None,
            Held::Shared(linked) => linked.copy(alloc).ok(),
        }
    }
}

/// Ends a load, as `end_package` does. Where the packages are shared and there is no memory for a copy of them, the load is dropped.
pub(crate) fn end_load_of<S: WordStore>(
    alloc: Global,
    memory: &mut Memory<S>,
    packages: &mut CardPackages,
    load: &mut Option<OpenLoad>,
) -> Result<Result<(), LoadRefusal>, StoreDown>
    requires up { memory.old.heap.down ≡ false }
    ensures { Executes (end_of_load packages.old memory.old load.old) memory.old
        (after_end result packages.new load.new memory.new) }
{
    packages.unshare(alloc);
    match &mut packages.held {
        Held::Own(linked) => end_package(alloc, memory, linked, load),
        Held::Shared(_) => Ok(Err(refused_for_memory(load))),
    }
}

// Why a load does not end for which there is no memory.
#[tactic(auto, unfolding(jc_packages::specs::LoadEnd::assembly_result))]
fn refused_for_memory(load: &mut Option<OpenLoad>) -> LoadRefusal
    ensures { (p : Packages) (s : MemoryState) → Executes (end_of_load p s load.old) s
        (after_end (Ok (Err result)) p load.new s) }
{
    match load.take() {
        None => LoadRefusal::OutOfSequence,
        Some(open) => {
            if open.coming.is_some() {
                *load = Some(open);
                return LoadRefusal::OutOfSequence;
            }
            LoadRefusal::LinkFailed(LinkFault::NoMemory)
        }
    }
}
