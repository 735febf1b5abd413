//! Where the journal of an image stands.
ghost use Rattle.std.specs.Prelude.{◌≡◌, ◌<◌, ◌≤◌, ◌+◌, ◌*◌, ◌^◌, ◌↔◌, IsTrue, length};
ghost use Rattle.jc_words.specs.Image.{log_of, journal_start, heap_end, IsCapacity, IsLogAmong};
ghost use Rattle.jc_words.specs.Layout.{front_length, least_size, version};

use crate::WordStore;
use crate::layout::{
    CAPACITY_WORD, FIRST_VERSION, FRONT_CAPACITY, JOURNAL_WORD, LEAST_CAPACITY, LEAST_SIZE,
    LOG_START, MOST_CAPACITY, VERSION, VERSION_WORD,
};

/// What an image's words say of its journal: where the entries stand, two words each, and how many there
/// can be.
#[derive(Clone, Copy, Drop)]
pub struct Log {
    /// The version of the image.
    pub version: u16,
    /// The address of the first entry.
    pub start: u16,
    /// How many entries there can be.
    pub capacity: u16,
}

/// Whether a journal may have `capacity` entries: 16 to 1024.
pub fn is_capacity(capacity: u16) -> bool
    ensures { IsTrue result ↔ IsCapacity capacity }
{
    LEAST_CAPACITY <= capacity && capacity <= MOST_CAPACITY
}

impl Log {
    /// The journal of this capacity among n words. It stands after the first words, or at the end
    /// where there are more than have room there.
    pub fn among(n: u16, capacity: u16) -> Log
        requires size { least_size ≤ n }
        requires capacity { IsCapacity capacity }
        ensures place { result ≡ record { version = version; start = journal_start n capacity; capacity = capacity } }
    {
        let start = if capacity <= FRONT_CAPACITY {
            LOG_START
        } else {
            n - 2 * capacity
        };
        Log {
            version: VERSION,
            start,
            capacity,
        }
    }

    /// The journal of an image, as its words describe it. Version 1 does not look at the words that describe it.
    #[tactic(auto, unfolding(crate::specs::Image::log_of))]
    pub fn of<S: WordStore>(store: &S) -> Log
        requires { front_length ≤ length (S.words store.now) }
        ensures { result ≡ log_of (S.words store.now) }
    {
        let version = store.read(VERSION_WORD);
        if version == FIRST_VERSION {
            return Log {
                version,
                start: LOG_START,
                capacity: FRONT_CAPACITY,
            };
        }
        Log {
            version,
            start: store.read(JOURNAL_WORD),
            capacity: store.read(CAPACITY_WORD),
        }
    }

    /// Whether an image of n words may have this journal.
    pub fn fits(self, n: u16) -> bool
        requires { least_size ≤ n }
        ensures { IsTrue result ↔ IsLogAmong n self }
    {
        is_capacity(self.capacity) && self.start == Log::among(n, self.capacity).start
    }

    /// Where the heap ends among n words.
    pub fn heap_end(self, n: u16) -> u16
        requires size { least_size ≤ n }
        requires capacity { IsCapacity self.capacity }
        ensures { result ≡ heap_end n self.capacity }
    {
        if self.capacity <= FRONT_CAPACITY {
            n
        } else {
            n - 2 * self.capacity
        }
    }

    /// The word with the address in entry k. Its old value is in the next one.
    pub fn address_word(self, k: u16) -> u16
        requires entry { k < self.capacity }
        requires small { self.start + 2 * self.capacity < 2 ^ 16 }
        ensures { result ≡ self.start + 2 * k }
    {
        self.start + 2 * k
    }
}
