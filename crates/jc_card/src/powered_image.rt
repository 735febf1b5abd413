//! An image over which a card powered up: cards begin over it, and over images that differ from it in cells of objects, without a walk over its
//! objects.
ghost use Rattle.std.specs.Prelude.{ℕ, ◌≡◌, ◌<◌, ◌+◌, IsTrue, IfSome, false, length, slice_index, vec_len};
ghost use Rattle.jc_words.specs.Layout.{version, version_address};
ghost use Rattle.jc_words.specs.Refusals.{no_refusals};
ghost use Rattle.jc_commit.specs.Image.{IsGoodLog, count_of, recovered_of};
ghost use Rattle.jc_commit.specs.Migration.{migrated};
ghost use Rattle.jc_heap.specs.Heap.{IsObject, heap_of, set_cell};
ghost use Rattle.jc_heap.specs.Heap.Store.{IsAtRest};
ghost use Rattle.jc_memory.specs.Marks.{mark_count};
ghost use Rattle.jc_packages.specs.Objects.{MarksObjects};
ghost use Rattle.jc_packages.specs.Tables.{HasTable};
ghost use Rattle.jc_platform.specs.Tokens.{Tokens};
ghost use Rattle.jc_card.specs.PoweredImage.{HasCellsSet, MayHold, heap_in};
ghost use Rattle.jc_card.specs.PowerUp.{HasHeap};
ghost use Rattle.jc_card.specs.PowerUp.Outcome.{IsPoweredOver};
ghost use Rattle.jc_card.specs.PowerUp.Reset.{ArePartsOf};

use crate::card::Card;
use crate::lent::LentStore;
use crate::packages::CardPackages;
use crate::power_up::{CardParts, card_over, read_parts};
use arrayvec::ArrayVec;
use jc_heap::{Heap, Kind};
use jc_image::OpenImage;
use jc_linker::linked::Linked;
use jc_memory::{MOST_FIXED, Marks, Rooms, unset_flags};
use jc_packages::known::KnownPackages;
use jc_packages::sound::is_sound_at;
use jc_platform::names::PlatformClass;
use jc_transient::{Ram, RamSizes, Ref};
use jc_words::{FuseStore, MemStore, WordStore, check_image};
use std::alloc::Global;
use std::marker::Model;
use std::rc::Rc;

/// How many words an object's header has.
const HEADER: u16 = 4;

/// The words of an image, and what powering up found in them.
#[derive(Drop)]
pub struct PoweredImage {
    words: Vec<u16>,
    // The addresses of its objects.
    marks: Vec<bool>,
    linked: Rc<Linked>,
    fixed: ArrayVec<u16, MOST_FIXED>,
    sizes: RamSizes,
}

impl Model for PoweredImage {
    ghost use Rattle.std.specs.Prelude.{ℕ, List};
    ghost use Rattle.jc_card.specs.PoweredImage.{IsPoweredImage};

    ghost Value = { List ℕ };

    ghost view = { λ p. p.words.items };

    ghost invariant = { λ p. IsPoweredImage p.words.items p.marks.items p.linked.value p.fixed.items p.sizes };
}

impl PoweredImage {
    /// What a power up finds in words, once they are recovered; packages that are known are not read again. Nothing where no card powers up over
    /// them.
    pub fn read(
        alloc: Global,
        words: Vec<u16>,
        known: &Option<KnownPackages>,
    ) -> Option<PoweredImage>
        requires { vec_len words < 65536 }
        ensures { IfSome result (λ image. heap_in image ≡ heap_of (migrated 3 (recovered_of words.items))) }
    {
        match OpenImage::open(MemStore::of(words)) {
            Ok(image) => PoweredImage::of_store(alloc, image.into_store(), known),
            Err(_) => None,
        }
    }

    // The image of a store that was recovered.
    fn of_store(
        alloc: Global,
        store: MemStore,
        known: &Option<KnownPackages>,
    ) -> Option<PoweredImage>
        requires good { IsGoodLog store.words }
        requires current { slice_index store.words version_address ≡ version }
        requires closed { count_of store.words ≡ 0 }
        ensures { IfSome result (λ image. image ≡ store.words) }
    {
        let Ok(()) = check_image(&store) else {
            return None;
        };
        let image = OpenImage::resume(LentStore::of(&store));
        let (parts, marks) = marked_parts(alloc, image, known)?;
        let CardParts {
            linked,
            ram: _,
            fixed,
            rooms: _,
        } = parts;
        let linked = linked.into_shared(alloc)?;
        let sizes = Heap::resume(LentStore::of(&store)).area_sizes();
        let _size = store.size();
        Some(PoweredImage {
            words: store.into_words(),
            marks,
            linked,
            fixed,
            sizes,
        })
    }

    /// The words.
    pub fn words(&self) -> &[u16]
        ensures words { result.now ≡ self.now }
        ensures rests { IsAtRest self.now false }
        ensures small { length self.now < 65536 }
    {
        self.words.as_slice()
    }

    /// A card that has just powered up over the image, with a budget of instructions a command. Nothing where memory for it is refused.
    pub fn begin(&self, alloc: Global, budget: u32) -> Option<Card<FuseStore<MemStore>>>
        ensures { IfSome result (λ card. IsPoweredOver self.now false 0 no_refusals budget card) }
    {
        let Ok(words) = Vec::from_slice(alloc, &self.words) else {
            return None;
        };
        let Ok(marks) = Vec::from_slice(alloc, &self.marks) else {
            return None;
        };
        let Ok(linked) = self.linked.clone() else {
            return None;
        };
        let Ok(fixed) = ArrayVec::try_from(self.fixed.as_slice()) else {
            return None;
        };
        let Ok(ram) = Ram::new(alloc, self.sizes) else {
            return None;
        };
        let Ok(rooms) = Rooms::new(alloc) else {
            return None;
        };
        let parts = CardParts {
            linked: CardPackages::of_shared(linked),
            ram,
            fixed,
            rooms,
        };
        let store = FuseStore::new(MemStore::of(words));
        Some(card_over(alloc, store, parts, Marks::of_flags(marks), budget))
    }

    /// The image whose cells that stand in the word at an address have the values of this word. Nothing where no cell stands there, where an AID's
    /// does, or where no card powers up over that image.
    pub fn with_word(self, address: u16, word: u16) -> Option<PoweredImage>
        ensures { IfSome result (λ next. (r : ℕ) × (r < address) × HasCellsSet (heap_in self) r (heap_in next)) }
    {
        let object = self.object_below(address)?;
        let place = address - object.address();
        if place < HEADER {
            return None;
        }
        let place = place - HEADER;
        let (length, packed) = self.cells_of(object);
        if !packed {
            return self.with_cell(object, place, word);
        }
        if place >= 32_768 {
            return None;
        }
        let next = self.with_cell(object, 2 * place, word / 256)?;
        if 2 * place + 1 < length {
            return next.with_cell(object, 2 * place + 1, word % 256);
        }
        Some(next)
    }

    // The last object that begins below an address.
    fn object_below(&self, address: u16) -> Option<Ref>
        ensures below { IfSome result (λ object. object < address) }
        ensures there { IfSome result (λ object. IsObject (heap_in self.now) object) }
    {
        for back in 0..address {
            let at = address - 1 - back;
            if self.marks[usize::from(at)] {
                return Some(Ref::at(at));
            }
        }
        None
    }

    // How many cells an object has, and whether two of them stand in a word.
    fn cells_of(&self, object: Ref) -> (u16, bool)
        requires { IsObject (heap_in self.now) object }
    {
        let address = usize::from(object.address());
        if address + 3 >= self.words.len() {
            return (0, false);
        }
        let first = self.words[address];
        (self.words[address + 3], first == 6 || first == 7)
    }

    // The image where a cell of an object has this value. Nothing where it may not have it.
    fn with_cell(self, object: Ref, i: u16, v: u16) -> Option<PoweredImage>
        requires { IsObject (heap_in self) object }
        ensures { IfSome result (λ next. heap_in next ≡ set_cell (heap_in self) object i v) }
    {
        let PoweredImage {
            words,
            marks,
            linked,
            fixed,
            sizes,
        } = self;
        let mut heap = Heap::resume(MemStore::of(words));
        if !may_hold(&heap, &marks, Rc::as_ref(&linked), object, i, v) {
            return None;
        }
        let Ok(()) = heap.set(object, i, v) else {
            return None;
        };
        if !is_sound_at(&heap, &marks, Rc::as_ref(&linked), object) {
            return None;
        }
        let store = heap.into_store();
        let _size = store.size();
        Some(PoweredImage {
            words: store.into_words(),
            marks,
            linked,
            fixed,
            sizes,
        })
    }
}

// What a recovered image says of a card, and flags at the addresses of its objects. Nothing where no card powers up over it.
fn marked_parts<S: WordStore + Drop>(
    alloc: Global,
    image: OpenImage<S>,
    known: &Option<KnownPackages>,
) -> Option<(CardParts, Vec<bool>)>
    requires { image.down ≡ false }
    ensures long { IfSome result (λ found. vec_len found.1 ≡ mark_count) }
    ensures marked { IfSome result (λ found. MarksObjects found.1.items (heap_of image.plain)) }
    ensures ok { IfSome result (λ _. (t : Tokens) × HasTable image.plain t × HasHeap t image.plain) }
    ensures parts { IfSome result (λ found. ArePartsOf (heap_of image.plain) found.0) }
{
    let Ok(mut marks) = unset_flags(alloc) else {
        return None;
    };
    match read_parts(alloc, image, marks.as_mut_slice(), known) {
        Ok(parts) => Some((parts, marks)),
        Err(_) => None,
    }
}

// Whether a cell of an object that is no AID may hold a value.
fn may_hold<S: WordStore>(
    heap: &Heap<S>,
    marks: &[bool],
    linked: &Linked,
    object: Ref,
    i: u16,
    v: u16,
) -> bool
    requires up { heap.now.down ≡ false }
    requires long { length marks.now ≡ mark_count }
    requires marked { MarksObjects marks.now heap.now.now }
    requires there { IsObject heap.now.now object }
    ensures { IsTrue result → MayHold linked.now heap.now.now object i v }
{
    let facts = heap.facts(object);
    if facts.event.is_some() || i >= facts.length {
        return false;
    }
    if facts.class() == linked.platform().class_word(PlatformClass::Aid) {
        return false;
    }
    match facts.kind {
        Kind::BooleanArray | Kind::ByteArray => v < 256,
        Kind::ReferenceArray => v == 0 || marks[usize::from(v)],
        Kind::Instance | Kind::ShortArray => true,
    }
}
