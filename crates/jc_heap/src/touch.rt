//! Words that changes touch: how many old values they have to keep, and whether there is room for them.
ghost use Rattle.std.specs.Prelude.{◌≡◌, ◌<◌, false, All, filter, not, length};
ghost use Rattle.jc_heap.specs.Heap.{has_room_for, goes_back, unlogged_places, cell_address, limit};
ghost use Rattle.jc_heap.specs.Touch.{CanTouch, touch_word, touch_words};

use crate::heap::Heap;
use crate::layout::HEADER;
use crate::place::Place;
use jc_words::WordStore;
use jc_words::layout::TOP;

/// A word that a change touches.
#[derive(Clone, Copy)]
pub enum Touch {
    /// The word of a place.
    Place(Place),
    /// A cell of the object that the heap makes next, by its index.
    NewCell(u16),
    /// The word with the heap's end.
    HeapEnd,
}

impl<S: WordStore> Heap<S> {
    // The word of a cell of the object that the heap makes next.
    #[tactic(auto, unfolding(crate::specs::Heap::cell_address))]
    fn new_cell_word(&self, i: u16) -> u16
        requires up { self.now.down ≡ false }
        requires space { cell_address self.now.now.top i < limit self.now }
        ensures { result ≡ cell_address self.now.now.top i }
    {
        let _ = &self.journal; // so that the proof knows what holds of every heap: how many words it may have
        self.top() + (HEADER + i)
    }

    // The word that is touched.
    #[tactic(auto, unfolding(crate::specs::Heap::end_address))]
    fn touch_word(&self, touch: Touch) -> u16
        requires up { self.now.down ≡ false }
        requires there { CanTouch self.now touch }
        ensures { result ≡ touch_word self.now.now touch }
    {
        match touch {
            Touch::Place(place) => self.place_word(place),
            Touch::NewCell(i) => self.new_cell_word(i),
            Touch::HeapEnd => TOP,
        }
    }

    // How many of these words an abort does not take back yet.
    fn count_unlogged(&self, touches: &[Touch]) -> usize
        requires up { self.now.down ≡ false }
        requires there { All (λ touch. CanTouch self.now touch) touches.now }
        ensures { result ≡ length (filter (λ word. not (goes_back self.now word))
            (touch_words self.now.now touches.now)) }
    {
        let mut count = 0;
        for touch in touches {
            if !self.journal.goes_back(self.touch_word(*touch)) {
                count += 1;
            }
        }
        count
    }

    /// How many of these words' old values changes of them have to keep.
    pub fn cost(&self, touches: &[Touch]) -> usize
        requires up { self.now.down ≡ false }
        requires there { All (λ touch. CanTouch self.now touch) touches.now }
        ensures { result
            ≡ length (unlogged_places self.now (touch_words self.now.now touches.now)) }
    {
        if !self.is_open() {
            return 0;
        }
        self.count_unlogged(touches)
    }

    /// Whether there is room for changes of these distinct words in the open transaction, or for one
    /// change of them in a transaction of its own.
    pub fn fits(&self, touches: &[Touch]) -> bool
        requires up { self.now.down ≡ false }
        requires there { All (λ touch. CanTouch self.now touch) touches.now }
        ensures { result ≡ has_room_for self.now (touch_words self.now.now touches.now) }
    {
        if self.is_open() {
            return self.cost(touches) <= self.room() as usize;
        }
        touches.len() <= self.commit_capacity() as usize
    }
}
