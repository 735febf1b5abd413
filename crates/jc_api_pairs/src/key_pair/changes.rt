//! What a call sets that makes new keys of a pair.
ghost use Rattle.std.specs.Prelude.{◌≡◌, ◌≤◌, ◌≢◌, false, true, length, map, Ok, IfOk};
ghost use Rattle.jc_transient.specs.Cell.{number_of};
ghost use Rattle.jc_heap.specs.Heap.{IsObject, cells, facts};
ghost use Rattle.jc_memory.specs.Programs.{Executes};
ghost use Rattle.jc_memory.specs.State.{SetTransient, apply_effect};
ghost use Rattle.jc_world.specs.Arrays.{IsInArray};
ghost use Rattle.jc_world.specs.NativeCalls.{after_call};
ghost use Rattle.jc_api.specs.Exits.{plainly};
ghost use Rattle.jc_api_pairs.specs.KeyPair.Changes.{HasElements, HasPersistentElements, IsTransient, are_two, change_of, elements_of_output};
ghost use Rattle.jc_api_pairs.specs.KeyPair.Changes.{generating_call, next_times, output_of, sets_both, sets_keys, sets_one_by_one};
ghost use Rattle.jc_api_pairs.specs.KeyPair.Keys.{IsPair};

use crate::key_agreement::keys::check;
use crate::key_pair::keys::{TIMES_CELL, own_pair};
use jc_api::{MOST_ELEMENTS, elements_at};
use jc_frames::{Cell, FrameExit};
use jc_heap::{ByteRun, Place};
use jc_linker::linked::Linked;
use jc_memory::Memory;
use jc_transient::Ref;
use jc_words::WordStore;
use jc_world::{NativeResult, StepExit, Stretch, put};

/// Bytes for elements of an array, from one on.
#[derive(Clone, Copy)]
pub struct NewElements<'a> {
    pub array: Ref,
    pub start: u16,
    pub bytes: &'a [u8],
}

/// Elements that were asked for, and their bytes.
#[derive(Clone, Copy)]
pub struct ElementsChange<'a> {
    pub to: Stretch,
    pub bytes: &'a [u8],
}

// The elements that are to be set, which are asked for.
fn elements_of<S: WordStore>(
    new: &NewElements,
    memory: &Memory<S>,
    linked: &Linked,
) -> Result<Stretch, FrameExit>
    requires up { memory.now.heap.down ≡ false }
    requires starts { new.now.start ≤ 32767 }
    requires few { length new.now.bytes.now ≤ MOST_ELEMENTS }
    ensures elements { result ≡ elements_of_output linked.now memory.now (output_of new.now) }
    ensures there { IfOk result (IsInArray memory.now) }
    ensures all { IfOk result (λ e. length new.now.bytes.now ≡ e.count) }
    ensures plain { plainly result ≡ result }
{
    elements_at(
        new.array,
        new.start as i16,
        new.bytes.len() as i16,
        memory,
        linked,
    )
}

// They are two arrays, of which the first one is persistent.
fn are_two<S: WordStore>(first: Ref, second: Ref, memory: &Memory<S>) -> bool
    requires up { memory.now.heap.down ≡ false }
    requires there { IsObject memory.now.heap.now first }
    ensures two { result ≡ are_two memory.now first second }
    ensures cells { result ≡ true → length (cells memory.now.heap.now first)
        ≡ (facts memory.now.heap.now first).length }
{
    first.address() != second.address() && memory.facts(first).event.is_none()
}

// How many times keys of the pair will have been made.
fn next_times<S: WordStore>(own: Ref, memory: &Memory<S>) -> u16
    requires up { memory.now.heap.down ≡ false }
    requires pair { IsPair memory.now own }
    ensures { result ≡ next_times memory.now own }
{
    memory.reference(own, TIMES_CELL).address().wrapping_add(1)
}

// Sets elements of a transient array.
fn set_transient<S: WordStore>(change: &ElementsChange, memory: &mut Memory<S>)
    requires up { memory.old.heap.down ≡ false }
    requires change { HasElements memory.old change.now.to change.now.bytes.now }
    requires transient { IsTransient memory.old change.now.to.array }
    ensures { memory.new ≡ apply_effect (SetTransient change.now.to.array change.now.to.start
        (map number_of change.now.bytes.now)) memory.old }
{
    // They need no room.
    let _ = put(memory, change.to, change.bytes);
}

// Sets the elements of both keys, and counts, as one change.
fn set_both<S: WordStore>(
    own: Ref,
    public: &ElementsChange,
    private: &ElementsChange,
    memory: &mut Memory<S>,
) -> Result<NativeResult, StepExit>
    requires up { memory.old.heap.down ≡ false }
    requires pair { IsPair memory.old own }
    requires public { HasPersistentElements memory.old public.now.to public.now.bytes.now }
    requires private { HasPersistentElements memory.old private.now.to private.now.bytes.now }
    requires two { public.now.to.array ≢ private.now.to.array }
    ensures { Executes (sets_both memory.old own public.now.to public.now.bytes.now
        private.now.to private.now.bytes.now) memory.old (after_call result memory.new) }
{
    let times = next_times(own, memory);
    let first = ByteRun {
        object: public.to.array,
        start: public.to.start,
        bytes: public.bytes,
    };
    let second = ByteRun {
        object: private.to.array,
        start: private.to.start,
        bytes: private.bytes,
    };
    memory.write_two_runs(first, second, &[(Place::Cell(own, TIMES_CELL), times)])?;
    Ok(NativeResult::ReturnVoid)
}

// Sets the elements of the public key, and counts, as one change; then those of a transient private key.
fn set_one_by_one<S: WordStore>(
    own: Ref,
    public: &ElementsChange,
    private: &ElementsChange,
    memory: &mut Memory<S>,
) -> Result<NativeResult, StepExit>
    requires up { memory.old.heap.down ≡ false }
    requires pair { IsPair memory.old own }
    requires public { HasPersistentElements memory.old public.now.to public.now.bytes.now }
    requires private { HasElements memory.old private.now.to private.now.bytes.now }
    requires transient { IsTransient memory.old private.now.to.array }
    ensures { Executes (sets_one_by_one memory.old own public.now.to public.now.bytes.now
        private.now.to private.now.bytes.now) memory.old (after_call result memory.new) }
{
    let times = next_times(own, memory);
    memory.write_bytes_and_places(
        public.to.array,
        public.to.start,
        public.bytes,
        &[(Place::Cell(own, TIMES_CELL), times)],
    )?;
    set_transient(private, memory);
    Ok(NativeResult::ReturnVoid)
}

// Sets the elements of both keys, and counts.
fn set_keys<S: WordStore>(
    own: Ref,
    public: &ElementsChange,
    private: &ElementsChange,
    memory: &mut Memory<S>,
) -> Result<NativeResult, StepExit>
    requires up { memory.old.heap.down ≡ false }
    requires pair { IsPair memory.old own }
    requires public { HasPersistentElements memory.old public.now.to public.now.bytes.now }
    requires private { HasElements memory.old private.now.to private.now.bytes.now }
    requires two { public.now.to.array ≢ private.now.to.array }
    ensures { Executes (sets_keys memory.old own public.now.to public.now.bytes.now
        private.now.to private.now.bytes.now) memory.old (after_call result memory.new) }
{
    let facts = memory.facts(private.to.array);
    match facts.event {
        None => set_both(own, public, private, memory),
        Some(_) => set_one_by_one(own, public, private, memory),
    }
}

/// Sets elements of both keys of the pair that is called, and counts, as one change; those of a transient private key are set by themselves
/// after it. The pair and all elements are asked for before, then room.
pub(crate) fn change_pair<S: WordStore>(
    public: &NewElements,
    private: &NewElements,
    args: &[Cell],
    memory: &mut Memory<S>,
    linked: &Linked,
) -> Result<NativeResult, StepExit>
    requires up { memory.old.heap.down ≡ false }
    requires public { (public.now.start ≤ 32767) × (length public.now.bytes.now ≤ MOST_ELEMENTS) }
    requires private { (private.now.start ≤ 32767) × (length private.now.bytes.now ≤ MOST_ELEMENTS) }
    ensures { Executes (generating_call (Ok (change_of public.now private.now)) args.now linked.now
        memory.old) memory.old (after_call result memory.new) }
{
    let own = own_pair(args, memory, linked)?;
    let first = elements_of(public, memory, linked)?;
    let second = elements_of(private, memory, linked)?;
    let two = are_two(first.array, second.array, memory);
    check(two)?;
    let public = ElementsChange {
        to: first,
        bytes: public.bytes,
    };
    let private = ElementsChange {
        to: second,
        bytes: private.bytes,
    };
    set_keys(own, &public, &private, memory)
}
