//! Paddings of a message to whole blocks.

ghost use Rattle.std.specs.Prelude.{◌≡◌, ◌≤◌, ◌<◌, ◌-◌, ◌∷◌, ◌↔◌, ℕ, length, replicate, take, IfNone, IfSome, IsTrue};
ghost use Rattle.jc_ciphers.specs.Padding.{EndsByPadding, padding_of, space};

/// How a message becomes whole blocks.
#[derive(Clone, Copy)]
pub enum Padding {
    /// The message is whole blocks.
    NoPadding,
    /// Zeros, as few as fill a block, and a block of them for an empty message (ISO 9797-1, method 1).
    Method1,
    /// The byte 80 and zeros (ISO 9797-1, method 2).
    Method2,
    /// From one byte to a block of them, each with their count as its value (PKCS 5).
    Pkcs5,
}

fn space(size: usize, used: usize) -> usize
    requires { used ≤ size }
    ensures { result ≡ space size used }
{
    if used == size { size } else { size - used }
}

fn fill(to: &mut [u8], count: usize, byte: u8)
    requires { count ≤ length to.old }
    ensures { take count to.new ≡ replicate count byte }
{
    'bytes: for i in 0..count {
        to[i] = byte;
    }
}

// The byte 80, and then zeros.
fn fill_bit(to: &mut [u8; 16], count: usize)
    requires some { 1 ≤ count }
    requires fits { count ≤ 16 }
    ensures { take count to.new ≡ 0x80 ∷ replicate (count - 1) 0 }
{
    *to = [0x80, 0, 0, 0, 0, 0, 0, 0, 0, 0, 0, 0, 0, 0, 0, 0];
}

// Writes the padding after `used` bytes of a block, and returns its length.
pub(crate) fn pad(padding: Padding, size: usize, used: usize, to: &mut [u8; 16]) -> usize
    requires some { 1 ≤ size }
    requires size { size ≤ 16 }
    requires used { used ≤ size }
    ensures padded { take result to.new ≡ padding_of padding size used }
    ensures within { result ≤ size }
    ensures room { result ≤ space size used }
{
    let room = space(size, used);
    match padding {
        Padding::NoPadding => 0,
        Padding::Method1 => {
            fill(to, size - used, 0);
            size - used
        }
        Padding::Method2 => {
            fill_bit(to, room);
            room
        }
        Padding::Pkcs5 => {
            fill(to, room, room as u8);
            room
        }
    }
}

fn ends_by_padding(padding: Padding, block: &[u8], at: usize) -> bool
    requires some { 1 ≤ length block.now }
    requires fits { length block.now ≤ 16 }
    requires at { at ≤ length block.now }
    ensures { IsTrue result ↔ EndsByPadding padding block.now at }
{
    let mut bytes = [0; 16];
    let count = pad(padding, block.len(), at, &mut bytes);
    block[at..] == bytes[..count]
}

/// How many bytes of the last block are the message's, before the padding: the fewest that fit. It is nothing where the block does not end
/// by a padding.
pub fn unpadded(padding: Padding, block: &[u8]) -> Option<usize>
    requires some { 1 ≤ length block.now }
    requires fits { length block.now ≤ 16 }
    ensures found { IfSome result (EndsByPadding padding block.now) }
    ensures within { IfSome result (λ n. n ≤ length block.now) }
    ensures least { IfSome result (λ n. (k : ℕ) → k < n → ¬ (EndsByPadding padding block.now k)) }
    ensures none { IfNone result ((k : ℕ) → k ≤ length block.now → ¬ (EndsByPadding padding block.now k)) }
{
    'places: for n in 0..block.len() + 1 {
        if ends_by_padding(padding, block, n) {
            return Some(n);
        }
    }
    None
}
