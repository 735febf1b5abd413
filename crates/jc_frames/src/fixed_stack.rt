//! A stack in a room of a fixed size.
ghost use Rattle.std.specs.Prelude.{◌≡◌, ◌+◌, ◌-◌, ◌<◌, ◌≤◌, ◌↔◌, [], ◌∷◌, ◌++◌, length, take, slice_get, slice_set, IsSome, IfNone, OnSome};
ghost use Rattle.std.specs.Option.{option_to_list};

use std::marker::Model;

/// At most `MOST` values. A place above the top keeps its value until another one is pushed there, so that values are taken off
/// without a write.
#[derive(Drop)]
pub(crate) struct FixedStack<T, const MOST: usize> {
    places: [T; MOST],
    count: usize,
}

impl<T, const MOST: usize> Model for FixedStack<T, MOST> {
    ghost use Rattle.std.specs.Prelude.{◌≤◌, ◌≡◌, length, take};
    ghost use Rattle.arrayvec.specs.ArrayVec.{ArrayVec as Items, array_vec_code};

    ghost Value = { Items T };

    ghost coded = { array_vec_code T.code };

    ghost view = { λ s. record { items = take s.count s.places } };

    ghost invariant = { λ s. (s.count ≤ MOST) × (length s.places ≡ MOST) };
}

impl<T: Copy + Default, const MOST: usize> FixedStack<T, MOST> {
    /// A stack without values.
    pub(crate) fn new() -> Self
        ensures { result.items ≡ [] }
    {
        FixedStack {
            places: Default::default(),
            count: 0,
        }
    }
}

impl<T: Copy, const MOST: usize> FixedStack<T, MOST> {
    /// How many values there are.
    #[inline(always)]
    pub(crate) fn len(&self) -> usize
        ensures value { result ≡ length self.now.items }
        ensures fits { result ≤ MOST }
    {
        self.count
    }

    /// The values, the top one last.
    #[inline(always)]
    pub(crate) fn as_slice(&self) -> &[T]
        ensures value { result.now ≡ self.now.items }
        ensures fits { length result.now ≤ MOST }
    {
        &self.places[..self.count]
    }

    /// Writes over the value at a place, counted from the lowest one.
    #[inline(always)]
    pub(crate) fn set(&mut self, place: usize, value: T)
        requires { place < length self.old.items }
        ensures { self.new.items ≡ slice_set self.old.items place value }
    {
        let _ = self.len(); // so that the proof knows that there is such a place
        self.places[place] = value;
    }

    /// Puts a value on top.
    #[inline(always)]
    pub(crate) fn push(&mut self, value: T)
        requires { length self.old.items < MOST }
        ensures { self.new.items ≡ self.old.items ++ value ∷ [] }
    {
        let count = self.count;
        self.places[count] = value;
        self.count = count + 1;
    }

    /// Takes the top value, if there is one.
    #[inline(always)]
    pub(crate) fn pop(&mut self) -> Option<T>
        ensures items { self.old.items ≡ self.new.items ++ option_to_list result }
        ensures variant { IsSome result ↔ (0 < length self.old.items) }
        ensures len { OnSome result (length self.new.items + 1 ≡ length self.old.items) }
        ensures value { result ≡ slice_get self.old.items (length self.old.items - 1) }
        ensures rest { self.new.items ≡ take (length self.old.items - 1) self.old.items }
        ensures empty { IfNone result (self.new ≡ self.old) }
    {
        if self.count == 0 {
            return None;
        }
        self.count -= 1;
        Some(self.places[self.count])
    }

    /// Takes values off the top until this many are left.
    #[inline(always)]
    pub(crate) fn truncate(&mut self, kept: usize)
        requires { kept ≤ length self.old.items }
        ensures { self.new.items ≡ take kept self.old.items }
    {
        self.count = kept;
    }

    /// Takes all values off.
    #[inline(always)]
    pub(crate) fn clear(&mut self)
        ensures { self.new.items ≡ [] }
    {
        self.count = 0;
    }
}
