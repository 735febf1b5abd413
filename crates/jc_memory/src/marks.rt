//! Marks: addresses at which objects are known to stand, so that a reference is known at once.
ghost use Rattle.std.specs.Prelude.{◌≡◌, ◌<◌, ◌≤◌, ◌⊎◌, ℕ, false, true, length, slice_set, vec_len, IfOk};
ghost use Rattle.jc_memory.specs.Marks.{AreNone, AreObjects, is_marked, mark_count};

use jc_heap::Heap;
use jc_transient::Ref;
use jc_words::WordStore;
use std::alloc::{AllocError, Global};
use std::marker::Model;

/// How many marks there are: one for each address.
const MARK_COUNT: usize = 65536;

/// A mark for each address.
#[derive(Drop)]
pub struct Marks {
    marks: Vec<bool>,
}

impl Model for Marks {
    ghost use Rattle.std.specs.Prelude.{List, Bool, ◌≡◌, length};
    ghost use Rattle.jc_memory.specs.Marks.{mark_count};

    ghost Value = { List Bool };

    ghost view = { λ m. m.marks.items };

    ghost invariant = { λ m. length m.marks.items ≡ mark_count };
}

// `count` flags, none of which is set.
fn unset(alloc: Global, count: usize) -> Result<Vec<bool>, AllocError>
    ensures len { IfOk result (λ flags. vec_len flags ≡ count) }
    ensures unset { IfOk result (λ flags. AreNone flags.items) }
{
    let flags = vec![in alloc; false; count]?;
    Ok(flags)
}

/// A flag for each address, none of which is set.
pub fn unset_flags(alloc: Global) -> Result<Vec<bool>, AllocError>
    ensures long { IfOk result (λ flags. vec_len flags ≡ mark_count) }
    ensures unset { IfOk result (λ flags. AreNone flags.items) }
{
    unset(alloc, MARK_COUNT)
}

// Takes all these marks away.
fn unmark(marks: &mut [bool])
    ensures len { length marks.new ≡ length marks.old }
    ensures unset { AreNone marks.new }
{
    for place in 0..marks.len() {
        marks[place] = false;
    }
}

// Takes the marks of the addresses from one on and below another away.
fn unmark_between(marks: &mut [bool], from: usize, to: usize)
    requires { to ≤ length marks.old }
    ensures len { length marks.new ≡ length marks.old }
    ensures left { (r : ℕ) → is_marked marks.new r ≡ true
        → (is_marked marks.old r ≡ true) × ((r < from) ⊎ (to ≤ r)) }
{
    for place in from..to {
        marks[place] = false;
    }
}

impl Marks {
    /// The marks that these flags say, one for each address.
    pub fn of_flags(flags: Vec<bool>) -> Marks
        requires { vec_len flags ≡ mark_count }
        ensures { result ≡ flags.items }
    {
        Marks { marks: flags }
    }

    // The same marks.
    pub(crate) fn copy(&self, alloc: Global) -> Result<Marks, AllocError>
        ensures { IfOk result (λ copy. copy ≡ self.now) }
    {
        let marks = Vec::from_slice(alloc, &self.marks)?;
        Ok(Marks { marks })
    }

    // Whether an address is marked.
    #[inline(always)]
    pub(crate) fn has(&self, address: Ref) -> bool
        ensures { result ≡ is_marked self.now address }
    {
        self.marks[usize::from(address.address())]
    }

    // Marks an address.
    pub(crate) fn mark(&mut self, address: Ref)
        ensures { self.new ≡ slice_set self.old address true }
    {
        self.marks[usize::from(address.address())] = true;
    }

    // Takes the marks of the addresses from one on and below another away.
    pub(crate) fn forget(&mut self, from: u16, to: u16)
        ensures { (r : ℕ) → is_marked self.new r ≡ true
            → (is_marked self.old r ≡ true) × ((r < from) ⊎ (to ≤ r)) }
    {
        unmark_between(&mut self.marks, usize::from(from), usize::from(to));
    }

    // Takes all marks away.
    pub(crate) fn clear(&mut self)
        ensures { AreNone self.new }
    {
        unmark(&mut self.marks);
    }

    // Marks the objects of a heap, where nothing is marked yet.
    pub(crate) fn scan<S: WordStore>(&mut self, heap: &Heap<S>)
        requires up { heap.now.down ≡ false }
        requires unset { AreNone self.old }
        ensures { AreObjects self.new heap.now }
    {
        let mut last = Ref::null();
        for _turn in 0..MARK_COUNT {
            let Some(next) = heap.next(last) else {
                return;
            };
            self.mark(next);
            last = next;
        }
    }
}
