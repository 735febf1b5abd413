//! Words that a change names: cells, the words of static images and of the registry.
ghost use Rattle.std.specs.Prelude.{ℕ, ◌≡◌, ◌≢◌, ◌<◌, ◌≤◌, ◌+◌, ◌^◌, ◌++◌, false, [], ◌∷◌, length, slice_index};
ghost use Rattle.jc_words.specs.Layout.{registry_length, most_applets};
ghost use Rattle.jc_heap.specs.Moves.{Write, SetPlaces, WriteNonAtomic, PerformsMoves, PerformsMovesUnless, refusal_of_places, refusal_of_applet, applet_move};
ghost use Rattle.jc_heap.specs.Completions.{after_change, after_step};
ghost use Rattle.jc_heap.specs.Object.{IsElement};
ghost use Rattle.jc_heap.specs.Heap.{cells, facts};
ghost use Rattle.jc_heap.specs.Elements.{elements_of};
ghost use Rattle.jc_heap.specs.Place.{HasPlace, MayHold, AreThere, AreApart, ArePlain, place_at, places_of, words_of, cell_changes, run_changes};

use crate::changes::{Both, ByteRun, Elements, PlaceWords};
use crate::elements::{byte_run_for, cell_word, run_for, word_for};
use crate::heap::Heap;
use crate::refusal::ChangeRefusal;
use crate::registry_layout::{ENTRY_INSTANCE, ENTRY_PACKAGE, entry_start};
use jc_transient::Ref;
use jc_words::layout::{APPLETS, REGISTRY};
use jc_words::{StoreDown, WordStore};

/// A word that a change may name.
#[derive(Clone, Copy)]
pub enum Place {
    /// A cell of a persistent object, by its index.
    Cell(Ref, u16),
    /// A word of a package's static image, by its offset in the package's record.
    Static(Ref, u16),
    /// A word of the registry, 0 to 191.
    Registry(u16),
    /// The number of applets in the registry.
    AppletCount,
}

/// What the registry keeps of an applet.
#[derive(Clone, Copy)]
pub struct AppletEntry {
    /// The applet's AID object.
    pub aid: Ref,
    /// The number of its package.
    pub package: u16,
    /// The applet's instance.
    pub instance: Ref,
}

impl<S: WordStore> Heap<S> {
    // The word of a place.
    #[inline(always)]
    pub(crate) fn place_word(&self, place: Place) -> u16
        requires up { self.now.down ≡ false }
        requires there { HasPlace self.now.now place }
        ensures { result ≡ place_at self.now.now place }
    {
        match place {
            Place::Cell(object, i) => cell_word(&self.journal, object, i),
            Place::Static(package, j) => self.static_word(package, j),
            Place::Registry(i) => REGISTRY + i,
            Place::AppletCount => APPLETS,
        }
    }

    // The words of places that have words of their own.
    fn words_of_places<'a>(&self, changes: &'a [(Place, u16)]) -> PlaceWords<'a>
        requires up { self.now.down ≡ false }
        requires there { AreThere self.now.now changes.now }
        requires plain { ArePlain self.now.now (places_of changes.now) }
        ensures exact { result ≡ words_of changes.now }
        ensures few { length result < 2 ^ 63 }
    {
        let _ = &self.journal; // so that the proof knows what holds of every heap
        let words = PlaceWords::new(changes);
        let _ = words.length(); // and how many words there may be
        words
    }

    /// A word of the registry, 0 to 191.
    pub fn registry(&self, i: u16) -> u16
        requires up { self.now.down ≡ false }
        requires there { i < registry_length }
        ensures { result ≡ slice_index self.now.now.applets i }
    {
        self.journal.read(REGISTRY + i)
    }

    /// How many applets there are.
    pub fn applets(&self) -> u16
        requires { self.now.down ≡ false }
        ensures { result ≡ self.now.now.counts.1 }
    {
        self.journal.read(APPLETS)
    }

    /// Writes a place as one change, which an open transaction takes back unless it commits.
    #[inline(always)]
    pub fn write(&mut self, place: Place, v: u16) -> Result<(), ChangeRefusal>
        requires up { self.old.down ≡ false }
        requires there { HasPlace self.old.now place }
        requires value { MayHold self.old.now place v }
        ensures { PerformsMovesUnless (refusal_of_places self.old (place ∷ [])) self.old
            (after_change result self.new) (Write place v ∷ []) tt }
    {
        let word = self.place_word(place);
        let value = word_for(&self.journal, &place, v);
        self.journal.write(word, value)?;
        Ok(())
    }

    /// Writes several places, of which none stands twice, as one change. Each has a word of its own.
    pub fn set_all(&mut self, changes: &[(Place, u16)]) -> Result<(), ChangeRefusal>
        requires up { self.old.down ≡ false }
        requires there { AreThere self.old.now changes.now }
        requires plain { ArePlain self.old.now (places_of changes.now) }
        requires apart { AreApart (places_of changes.now) }
        ensures { PerformsMovesUnless (refusal_of_places self.old (places_of changes.now)) self.old
            (after_change result self.new) (SetPlaces changes.now ∷ []) tt }
    {
        let words = self.words_of_places(changes);
        self.journal.write_all(&words)?;
        Ok(())
    }

    /// Sets the cells of a persistent object from an index on, and after them other places that have words of their
    /// own, as one change.
    pub fn set_run_and_places(
        &mut self,
        object: Ref,
        i: u16,
        values: Elements,
        places: &[(Place, u16)],
    ) -> Result<(), ChangeRefusal>
        requires up { self.old.down ≡ false }
        requires cells { i + length (elements_of values) ≤ length (cells self.old.now object) }
        requires values { (k : ℕ) → k < length (elements_of values)
            → IsElement (facts self.old.now object).kind (slice_index (elements_of values) k) }
        requires there { AreThere self.old.now places.now }
        requires plain { ArePlain self.old.now (places_of places.now) }
        requires apart { AreApart (places_of
            (cell_changes object i (elements_of values) ++ places.now)) }
        ensures { let changes = cell_changes object i (elements_of values.entry) ++ places.now in
            PerformsMovesUnless (refusal_of_places self.old (places_of changes)) self.old
            (after_change result self.new) (SetPlaces changes ∷ []) tt }
    {
        let run = run_for(&self.journal, object, i, values);
        let both = Both {
            first: run,
            second: self.words_of_places(places),
        };
        self.journal.write_all(&both)?;
        Ok(())
    }

    /// Sets bytes in the cells of one persistent object and in those of another, and after them other places that have
    /// words of their own, as one change.
    pub fn set_two_runs(
        &mut self,
        first: ByteRun<'_>,
        second: ByteRun<'_>,
        places: &[(Place, u16)],
    ) -> Result<(), ChangeRefusal>
        requires up { self.old.down ≡ false }
        requires first_cells { first.start + length first.bytes.now
            ≤ length (cells self.old.now first.object) }
        requires second_cells { second.start + length second.bytes.now
            ≤ length (cells self.old.now second.object) }
        requires two_objects { first.object ≢ second.object }
        requires there { AreThere self.old.now places.now }
        requires plain { ArePlain self.old.now (places_of places.now) }
        requires apart { AreApart (places_of
            (run_changes first ++ (run_changes second ++ places.now))) }
        ensures { let changes = run_changes first.entry
            ++ (run_changes second.entry ++ places.now) in
            PerformsMovesUnless (refusal_of_places self.old (places_of changes)) self.old
            (after_change result self.new) (SetPlaces changes ∷ []) tt }
    {
        let run = byte_run_for(&self.journal, first.object, first.start, first.bytes);
        let next = byte_run_for(&self.journal, second.object, second.start, second.bytes);
        let after = Both {
            first: next,
            second: self.words_of_places(places),
        };
        let both = Both {
            first: run,
            second: after,
        };
        self.journal.write_all(&both)?;
        Ok(())
    }

    /// Adds an applet to the registry: its three words and the number of applets, as one change. The
    /// applet's number is answered, the first at 0.
    pub fn add_applet(&mut self, entry: AppletEntry) -> Result<u16, ChangeRefusal>
        requires up { self.old.down ≡ false }
        requires few { self.old.now.counts.1 < most_applets }
        ensures { PerformsMovesUnless (refusal_of_applet self.old entry) self.old
            (after_change result self.new) (applet_move self.old.now entry ∷ [])
            self.old.now.counts.1 }
    {
        let number = self.applets();
        let first = entry_start(number);
        self.set_all(&[
            (Place::Registry(first), entry.aid.address()),
            (Place::Registry(first + ENTRY_PACKAGE), entry.package),
            (
                Place::Registry(first + ENTRY_INSTANCE),
                entry.instance.address(),
            ),
            (Place::AppletCount, number + 1),
        ])?;
        Ok(number)
    }

    /// Writes a place for good, by one word write: no abort takes it back, unless an earlier change of the transaction
    /// has touched its word, or that was born in the transaction. Another element in the word stays.
    pub fn write_both(&mut self, place: Place, v: u16) -> Result<(), StoreDown>
        requires up { self.old.down ≡ false }
        requires there { HasPlace self.old.now place }
        requires value { MayHold self.old.now place v }
        ensures { PerformsMoves self.old (after_step result self.new)
            (WriteNonAtomic place v ∷ []) tt }
    {
        let word = self.place_word(place);
        let value = word_for(&self.journal, &place, v);
        self.journal.write_both(word, value)?;
        Ok(())
    }
}
