//! A heap with marks where its objects stand, so that a reference is known at once.
ghost use Rattle.std.specs.Prelude.{◌≡◌, length};
ghost use Rattle.jc_memory.specs.Marks.{mark_count};
ghost use Rattle.jc_packages.specs.Objects.{MarksObjects, is_object_address};

use jc_heap::Heap;
use jc_words::WordStore;
use std::marker::Model;

/// A heap that is lent, with a mark for each address: those of objects are set.
#[derive(Drop)]
pub(crate) struct MarkedHeap<'a, S: WordStore> {
    heap: &'a Heap<S>,
    marks: &'a [bool],
}

impl<'a, S: WordStore> Model for MarkedHeap<'a, S> {
    ghost use Rattle.std.specs.Prelude.{◌≡◌, length};
    ghost use Rattle.jc_heap.specs.Heap.{HeapView};
    ghost use Rattle.jc_memory.specs.Marks.{mark_count};
    ghost use Rattle.jc_packages.specs.Objects.{MarksObjects};

    ghost Value = { HeapView };

    ghost view = { λ m. m.heap.now };

    ghost invariant = { λ m. (length m.marks.now ≡ mark_count) × MarksObjects m.marks.now m.heap.now.now };
}

impl<'a, S: WordStore> MarkedHeap<'a, S> {
    /// A heap and its marks.
    pub(crate) fn new(heap: &'a Heap<S>, marks: &'a [bool]) -> MarkedHeap<'a, S>
        requires long { length marks.now ≡ mark_count }
        requires marked { MarksObjects marks.now heap.now.now }
        ensures { result ≡ heap.now }
    {
        MarkedHeap { heap, marks }
    }

    /// The heap.
    pub(crate) fn heap(&self) -> &Heap<S>
        ensures { result.now ≡ self.now }
    {
        self.heap
    }

    /// An object stands at this address.
    pub(crate) fn is_object(&self, word: u16) -> bool
        ensures { result ≡ is_object_address self.now.now word }
    {
        self.marks[usize::from(word)]
    }
}
