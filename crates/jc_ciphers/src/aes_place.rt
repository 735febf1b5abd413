//! Places of words in the schedule, counted without dividing.

ghost use Rattle.std.specs.Prelude.{◌≤◌, ◌<◌, ◌+◌, ◌^◌};
ghost use Rattle.jc_ciphers.specs.AesPlace.{IsPlace};

/// Where a word stands: `turn` times as many words as the key has come before it, and `rest` more.
#[derive(Drop)]
pub(crate) struct Place {
    pub(crate) turn: usize,
    pub(crate) rest: usize,
}

/// Where word `i + 1` stands, from where word `i` does.
#[tactic(auto, using(crate::proofs::AesPlaces::turn_ends, crate::proofs::AesPlaces::turn_goes_on))]
#[inline(always)]
pub(crate) fn next_place(place: Place, i: usize, key_words: usize) -> Place
    requires words { 1 ≤ key_words }
    requires place { IsPlace key_words i place }
    requires fits { i < 2 ^ 32 }
    ensures { IsPlace key_words (i + 1) result }
{
    if place.rest + 1 == key_words {
        return Place {
            turn: place.turn + 1,
            rest: 0,
        };
    }
    Place {
        turn: place.turn,
        rest: place.rest + 1,
    }
}
