//! An image as it is listed, and the objects in it.
ghost use Rattle.std.specs.Prelude.{ℕ, ◌≡◌, ◌<◌, ◌≤◌, ◌++◌, length, slice_index, IfOk, IfSome, OnOk};
ghost use Rattle.jc_words.specs.Image.{HasSize};
ghost use Rattle.jc_words.specs.Layout.{text_start};
ghost use Rattle.jc_commit.specs.Image.{top_of};
ghost use Rattle.jc_objects.specs.ClassTexts.{kind_text};
ghost use Rattle.jc_objects.specs.Bounds.{IsBounded, first_record};
ghost use Rattle.jc_objects.specs.Places.{IsPlaceFor, IsStanding, standing_at};
ghost use Rattle.jc_objects.specs.Records.{IsRecord, item_at, whole_size};
ghost use Rattle.jcard_dump.specs.Image.{IsObjectIn, cells_in, hiding, image_of, is_hidden, is_listed, keys_in, object_here};

use jc_heap::{Facts, Kind};
use jc_objects::bounds::first_record;
use jc_objects::class_texts::push_kind;
use jc_objects::keys::key_arrays;
use jc_objects::legend::Legend;
use jc_objects::places::{Standing, first_place, standing_from};
use jc_objects::records::{cell_of, object_at, whole_size};
use jc_words::WordStore;
use jc_words::layout::TOP;
use std::alloc::{AllocError, Global};
use std::marker::Model;

/// An object, and where its record begins.
#[derive(Clone, Copy, Drop)]
pub(crate) struct PlacedObject {
    pub(crate) at: u16,
    pub(crate) facts: Facts,
}

/// An image as it is listed. Its heap lies within its bounds.
#[derive(Drop)]
pub(crate) struct Image<'a, S: WordStore> {
    /// What the cells of its objects are read by.
    legend: &'a Legend,
    store: &'a S,
    /// The arrays whose bytes are not shown.
    hidden: &'a [u16],
    /// Whether the objects of the runtime environment are listed.
    all: bool,
}

impl<'a, S: WordStore> Model for Image<'a, S> {
    ghost use Rattle.jcard_dump.specs.Image.{IsWithinBounds, ListedImage};

    ghost Value = { ListedImage };

    ghost view = { λ i. record {
      legend = i.legend.now;
      words = S.words i.store.now;
      hidden = i.hidden.now;
      all = i.all;
    } };

    ghost invariant = { λ i. IsWithinBounds (S.words i.store.now) };
}

impl<'a, S: WordStore> Image<'a, S> {
    /// The image of these words, all of whose bytes are shown.
    pub(crate) fn new(legend: &'a Legend, store: &'a S, all: bool) -> Image<'a, S>
        requires size { HasSize (S.words store.now) }
        requires bounds { IsBounded (S.words store.now) }
        ensures { result ≡ image_of legend.now (S.words store.now) all }
    {
        Image {
            legend,
            store,
            hidden: &[],
            all,
        }
    }

    /// The same, without the bytes of these arrays.
    pub(crate) fn hiding<'b>(&'b self, hidden: &'b [u16]) -> Image<'b, S>
        ensures { result ≡ hiding self.now hidden.now }
    {
        Image {
            legend: self.legend,
            store: self.store,
            hidden,
            all: self.all,
        }
    }

    /// What the cells of its objects are read by.
    pub(crate) fn legend(&self) -> &'a Legend
        ensures { result.now ≡ self.now.legend }
    {
        self.legend
    }

    /// Its words.
    pub(crate) fn store(&self) -> &'a S
        ensures words { S.words result.now ≡ self.now.words }
        ensures size { HasSize (S.words result.now) }
        ensures bounds { IsBounded (S.words result.now) }
    {
        self.store
    }

    /// Whether the objects of the runtime environment are listed.
    pub(crate) fn all(&self) -> bool
        ensures { result ≡ self.now.all }
    {
        self.all
    }

    /// The arrays whose bytes are not to be shown: those that hold keys, unless secrets are shown.
    pub(crate) fn keys(&self, alloc: Global, secrets: bool) -> Result<Vec<u16>, AllocError>
        ensures { IfOk result (λ arrays. arrays.items ≡ keys_in self.now secrets) }
    {
        if secrets {
            return Ok(Vec::new(alloc));
        }
        key_arrays(alloc, &self.legend.platform, self.store)
    }

    /// The address of the first record of its heap.
    pub(crate) fn first_record(&self) -> u16
        ensures { result ≡ first_record self.now.words }
    {
        let _ = self.store.size(); // so that the proof knows that there are fewer than 65,536 words
        first_record(self.store) as u16
    }

    /// The first address after its heap.
    pub(crate) fn top(&self) -> u16
        ensures top { result ≡ top_of self.now.words }
        ensures bounds { IsBounded self.now.words }
    {
        self.store.read(TOP)
    }

    /// How many words the record at an address has, where they lie below the top.
    pub(crate) fn record_size(&self, at: u16) -> Option<u16>
        requires low { text_start ≤ at }
        requires inside { at < top_of self.now.words }
        ensures { result ≡ whole_size self.now.words at }
    {
        whole_size(self.store, at, self.store.read(TOP))
    }

    /// The object whose record begins at an address; none, where a package's does.
    pub(crate) fn object_at(&self, at: u16) -> Option<PlacedObject>
        requires { IsRecord self.now.words at }
        ensures found { result ≡ object_here at (item_at self.now.words at) }
        ensures place { IfSome result (λ object. object.at ≡ at) }
        ensures object { IfSome result (λ object. IsObjectIn self.now.words object) }
    {
        match object_at(self.store, at) {
            Some(facts) => Some(PlacedObject { at, facts }),
            None => None,
        }
    }

    /// The place from which a walk of its heap finds what begins at any address.
    pub(crate) fn first_place(&self) -> u16
        ensures { (address : ℕ) → IsPlaceFor self.now.words result address }
    {
        first_place(self.store)
    }

    /// What begins at an address of its heap, by a walk from a place on, which is left as one for this address and those after it.
    pub(crate) fn standing_from(&self, place: &mut u16, address: u16) -> Standing
        requires { IsPlaceFor self.now.words place.old address }
        ensures standing { result ≡ standing_at self.now.words address }
        ensures object { IsStanding self.now.words address result }
        ensures place { IsPlaceFor self.now.words place.new address }
    {
        standing_from(self.store, place, address)
    }

    /// A cell of a persistent object.
    pub(crate) fn cell(&self, object: PlacedObject, number: u16) -> u16
        requires object { IsObjectIn self.now.words object }
        requires cell { number < length (cells_in self.now.words object) }
        ensures { result ≡ slice_index (cells_in self.now.words object) number }
    {
        cell_of(self.store, object.at, object.facts, number)
    }

    /// Whether an object is listed.
    pub(crate) fn is_listed(&self, object: PlacedObject) -> bool
        ensures { result ≡ is_listed self.now object }
    {
        self.all || object.facts.owner().0 != 0
    }

    /// Whether an object is an array whose bytes are not shown.
    pub(crate) fn is_hidden(&self, object: PlacedObject) -> bool
        ensures { result ≡ is_hidden self.now object }
    {
        matches!(object.facts.kind, Kind::ByteArray) && self.hidden.contains(&object.at)
    }

    /// Writes what an object is: its class, or the type of its elements.
    pub(crate) fn push_kind(
        &self,
        text: &mut Vec<u8>,
        object: PlacedObject,
    ) -> Result<(), AllocError>
        ensures { OnOk result (text.new.items ≡ text.old.items ++ kind_text self.now.legend.platform
            self.now.words object.facts.kind object.facts.class) }
    {
        push_kind(
            *text.allocator(),
            text,
            &self.legend.platform,
            self.store,
            object.facts.kind,
            object.facts.class(),
        )
    }
}
