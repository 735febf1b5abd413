//! Whether a heap fits the packages that are linked of it.
ghost use Rattle.std.specs.Prelude.{ℕ, List, ◌≡◌, ◌↔◌, IsTrue, false, length};
ghost use Rattle.jc_heap.specs.Heap.{heap_of, IsObject};
ghost use Rattle.jc_heap.specs.WholeHeap.{IsConsistent};
ghost use Rattle.jc_memory.specs.Marks.{mark_count};
ghost use Rattle.jc_packages.specs.Objects.{IsSoundObject, MarksObjects};
ghost use Rattle.jc_packages.specs.Sound.{IsSound};

use crate::entries::{are_distinct, are_registered};
use crate::marked_heap::MarkedHeap;
use crate::objects::{are_sound, is_sound_object};
use crate::statics::hold_statics;
use jc_heap::Heap;
use jc_linker::linked::Linked;
use jc_transient::Ref;
use jc_words::WordStore;

/// Whether each object after the last one of the runtime environment's own, each static image and each
/// applet's entry fits the packages, which are those of the heap's records, and no two applets have one AID.
/// The marks say where the heap's objects stand. Its time grows with the words of the heap.
pub fn is_sound<S: WordStore>(heap: &Heap<S>, marks: &[bool], linked: &Linked, own: Ref) -> bool
    requires up { heap.now.down ≡ false }
    requires words { (w : List ℕ) × (heap.now.now ≡ heap_of w) }
    requires whole { IsConsistent heap.now.now }
    requires long { length marks.now ≡ mark_count }
    requires marked { MarksObjects marks.now heap.now.now }
    requires linked { length linked.now.loaded ≡ length heap.now.now.packages }
    requires own { (own ≡ 0 → ⊥) → IsObject heap.now.now own }
    ensures { IsTrue result ↔ IsSound linked.now heap.now.now own }
{
    let marked = MarkedHeap::new(heap, marks);
    are_sound(&marked, linked, own)
        && hold_statics(&marked, linked)
        && are_registered(&marked, linked)
        && are_distinct(&marked, linked)
}

/// Whether the class, the owner and the cells of an object are there. The marks say where the heap's objects stand.
pub fn is_sound_at<S: WordStore>(
    heap: &Heap<S>,
    marks: &[bool],
    linked: &Linked,
    object: Ref,
) -> bool
    requires up { heap.now.down ≡ false }
    requires long { length marks.now ≡ mark_count }
    requires marked { MarksObjects marks.now heap.now.now }
    requires there { IsObject heap.now.now object }
    ensures { IsTrue result ↔ IsSoundObject linked.now heap.now.now object }
{
    let marked = MarkedHeap::new(heap, marks);
    is_sound_object(&marked, linked, object)
}
