//! The words of an image, read one at a time.
ghost use Rattle.std.specs.Prelude.{ℕ, List, ◌≡◌, length, slice_index};
ghost use Rattle.jc_commit.specs.Image.{IsReadable};

use jc_words::WordStore;

/// The words of an image, but for the journal's own: as they stand, or as a completed recovery leaves them.
pub trait ImageWords {
    /// The words.
    ghost words: { Self → List ℕ };

    /// How many there are.
    fn word_count(&self) -> u16
        ensures { result ≡ length (words self.now) };

    /// The word at an address.
    fn word(&self, address: u16) -> u16
        requires { IsReadable (length (words self.now)) address }
        ensures { result ≡ slice_index (words self.now) address };
}

// A store has them as they stand.
impl<S: WordStore> ImageWords for S {
    ghost words = { λ s. S.words s };

    fn word_count(&self) -> u16 {
        self.size()
    }

    fn word(&self, address: u16) -> u16 {
        self.read(address)
    }
}
