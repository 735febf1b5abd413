//! Bytes as words, two a word.
ghost use Rattle.std.specs.Prelude.{◌≡◌, ◌<◌, ◌+◌, ◌*◌, length, slice_index};
ghost use Rattle.jc_heap.specs.Packed.{packed_words};

// How many words hold n bytes.
pub(crate) fn packed_size(bytes: &[u8]) -> usize
    ensures { result ≡ length (packed_words bytes.now) }
{
    bytes.len() / 2 + bytes.len() % 2
}

// A byte, 0 after the last one.
fn byte_or_zero(bytes: &[u8], i: usize) -> u16
    ensures byte { result ≡ slice_index bytes.now i }
    ensures small { result < 256 }
{
    if i < bytes.len() {
        return u16::from(bytes[i]);
    }
    0
}

/// A word of packed bytes, 0 after the last one.
pub fn packed_word(bytes: &[u8], k: u16) -> u16
    ensures word { result ≡ slice_index (packed_words bytes.now) k }
    ensures high { slice_index bytes.now (2 * k) < 256 }
    ensures low { slice_index bytes.now (2 * k + 1) < 256 }
{
    let i = 2 * k as usize;
    256 * byte_or_zero(bytes, i) + byte_or_zero(bytes, i + 1)
}
