//! Pieces of a message through any compression function.

ghost use Rattle.std.specs.Prelude.{◌≡◌, ◌≤◌, ◌<◌, ◌+◌, ◌-◌, ◌*◌, ◌/◌, ◌%◌, ◌^◌, ◌++◌, ◌∷◌, ℕ, List, drop, length, replicate, take};
ghost use Rattle.std.specs.Int.{w32, w64, to_be_bytes, to_le_bytes};
ghost use Rattle.jc_digests.specs.Pieces.{HasAbsorbed, Holds, bytes_of_words, closed, filling, hash_after};

/// A hash value with its compression function.
pub trait Compression {
    // The words of the hash value.
    ghost words: { Self → List ℕ };

    // The hash value with a block taken in.
    ghost compressed: { List ℕ → List ℕ → List ℕ };

    // How many bytes a block has.
    ghost size: { ℕ };

    /// Takes in a block.
    fn compress(&mut self, block: &[u8])
        requires { length block.now ≡ size }
        ensures { words self.new ≡ compressed (words self.old) block.now };
}

pub(crate) fn put(block: &mut [u8], at: usize, part: &[u8])
    requires { at + length part.now ≤ length block.old }
    ensures { take (at + length part.now) block.new ≡ take at block.old ++ part.now }
{
    block[at..at + part.len()].copy_from_slice(part);
}

// Takes in a part that fits the open block, of which `used` bytes are filled, and gives how many are filled then.
fn absorb_part<H: Compression>(hash: &mut H, block: &mut [u8], used: usize, part: &[u8]) -> usize
    requires block { length block.old ≡ H.size }
    requires used { used < H.size }
    requires fits { used + length part.now ≤ H.size }
    ensures absorbed { (i m : List ℕ)
        → HasAbsorbed H.compressed H.size i m (H.words hash.old) block.old used
        → HasAbsorbed H.compressed H.size i (m ++ part.now) (H.words hash.new) block.new result }
    ensures within { result < H.size }
{
    let end = used + part.len();
    put(block, used, part);
    if end < block.len() {
        return end;
    }
    hash.compress(block);
    0
}

// Takes in a piece of any length.
fn absorb<H: Compression>(hash: &mut H, block: &mut [u8], used: usize, piece: &[u8]) -> usize
    requires block { length block.old ≡ H.size }
    requires used { used < H.size }
    ensures absorbed { (i m : List ℕ)
        → HasAbsorbed H.compressed H.size i m (H.words hash.old) block.old used
        → HasAbsorbed H.compressed H.size i (m ++ piece.now) (H.words hash.new) block.new result }
    ensures within { result < H.size }
{
    let mut filled = used;
    let mut done = 0;
    'parts: while done < piece.len() {
        let count = (piece.len() - done).min(block.len() - filled);
        filled = absorb_part(hash, block, filled, &piece[done..done + count]);
        done += count;
    }
    filled
}

// ---- blocks of 64 bytes, and a length of 8 bytes

pub(crate) fn update_64<H: Compression>(
    hash: &mut H,
    block: &mut [u8; 64],
    count: &mut u64,
    piece: &[u8],
)
    requires { H.size ≡ 64 }
    ensures { (i m : List ℕ)
        → Holds H.compressed 64 (2 ^ 64) i (H.words hash.old) block.old count.old m
        → Holds H.compressed 64 (2 ^ 64) i (H.words hash.new) block.new count.new (m ++ piece.now) }
{
    let used = (*count % 64) as usize;
    absorb(hash, block, used, piece);
    *count = count.wrapping_add(piece.len() as u64);
}

const FILLING: [u8; 128] = [
    0x80, 0, 0, 0, 0, 0, 0, 0, 0, 0, 0, 0, 0, 0, 0, 0, 0, 0, 0, 0, 0, 0, 0, 0, 0, 0, 0, 0, 0, 0, 0,
    0, 0, 0, 0, 0, 0, 0, 0, 0, 0, 0, 0, 0, 0, 0, 0, 0, 0, 0, 0, 0, 0, 0, 0, 0, 0, 0, 0, 0, 0, 0, 0,
    0, 0, 0, 0, 0, 0, 0, 0, 0, 0, 0, 0, 0, 0, 0, 0, 0, 0, 0, 0, 0, 0, 0, 0, 0, 0, 0, 0, 0, 0, 0, 0,
    0, 0, 0, 0, 0, 0, 0, 0, 0, 0, 0, 0, 0, 0, 0, 0, 0, 0, 0, 0, 0, 0, 0, 0, 0, 0, 0, 0, 0, 0, 0, 0,
    0,
];

// The byte 1000 0000 and zeros.
fn filling(zeros: usize) -> &'static [u8]
    requires { zeros < 128 }
    ensures { result.now ≡ 0x80 ∷ replicate zeros 0 }
{
    &FILLING[..zeros + 1]
}

pub(crate) fn close_64<H: Compression>(
    hash: &mut H,
    block: &mut [u8; 64],
    count: u64,
    field: &[u8; 8],
)
    requires { H.size ≡ 64 }
    ensures { (i m : List ℕ)
        → Holds H.compressed 64 (2 ^ 64) i (H.words hash.old) block.old count m
        → H.words hash.new ≡ closed H.compressed 64 i m field.now }
{
    let mut count = count;
    let zeros = (119 - (count % 64) as usize) % 64;
    update_64(hash, block, &mut count, filling(zeros));
    update_64(hash, block, &mut count, field);
}

// ---- blocks of 128 bytes, and a length of 16 bytes

pub(crate) fn update_128<H: Compression>(
    hash: &mut H,
    block: &mut [u8; 128],
    count: &mut u128,
    piece: &[u8],
)
    requires { H.size ≡ 128 }
    ensures { (i m : List ℕ)
        → Holds H.compressed 128 (2 ^ 128) i (H.words hash.old) block.old count.old m
        → Holds H.compressed 128 (2 ^ 128) i (H.words hash.new) block.new count.new (m ++ piece.now) }
{
    let used = (*count % 128) as usize;
    absorb(hash, block, used, piece);
    *count = count.wrapping_add(piece.len() as u128);
}

pub(crate) fn close_128<H: Compression>(
    hash: &mut H,
    block: &mut [u8; 128],
    count: u128,
    field: &[u8; 16],
)
    requires { H.size ≡ 128 }
    ensures { (i m : List ℕ)
        → Holds H.compressed 128 (2 ^ 128) i (H.words hash.old) block.old count m
        → H.words hash.new ≡ closed H.compressed 128 i m field.now }
{
    let mut count = count;
    let zeros = (239 - (count % 128) as usize) % 128;
    update_128(hash, block, &mut count, filling(zeros));
    update_128(hash, block, &mut count, field);
}

// ---- words as bytes

// The first words of 32 bits, high byte first.
pub(crate) fn put_words_32(words: &[u32], count: usize, to: &mut [u8])
    requires words { count ≤ length words.now }
    requires room { length to.old ≡ 4 * count }
    ensures { to.new ≡ bytes_of_words (to_be_bytes w32) words.now count }
{
    'words: for i in 0..count {
        put(to, 4 * i, &words[i].to_be_bytes());
    }
}

// The same, low byte first.
pub(crate) fn put_words_32_low_first(words: &[u32], count: usize, to: &mut [u8])
    requires words { count ≤ length words.now }
    requires room { length to.old ≡ 4 * count }
    ensures { to.new ≡ bytes_of_words (to_le_bytes w32) words.now count }
{
    'words: for i in 0..count {
        put(to, 4 * i, &words[i].to_le_bytes());
    }
}

// Words of 64 bits, high byte first.
pub(crate) fn put_words_64(words: &[u64], count: usize, to: &mut [u8])
    requires words { count ≤ length words.now }
    requires room { length to.old ≡ 8 * count }
    ensures { to.new ≡ bytes_of_words (to_be_bytes w64) words.now count }
{
    'words: for i in 0..count {
        put(to, 8 * i, &words[i].to_be_bytes());
    }
}

// ---- from any hash value, and any bytes of an open block, on

/// Takes in a piece after the first bytes of the open block, of which there are `used`; gives how many there are then.
pub(crate) fn take_in<H: Compression>(
    hash: &mut H,
    block: &mut [u8],
    used: usize,
    piece: &[u8],
) -> usize
    requires block { length block.old ≡ H.size }
    requires used { used < H.size }
    ensures hash { let m = take used block.old ++ piece.now in
        H.words hash.new ≡ hash_after H.compressed H.size (H.words hash.old) m (length m / H.size) }
    ensures rest { let m = take used block.old ++ piece.now in
        take result block.new ≡ drop (length m / H.size * H.size) m }
    ensures within { result < H.size }
{
    absorb(hash, block, used, piece)
}

/// Takes in the padding of the message of which the first bytes of the open block are the last.
pub(crate) fn close<H: Compression>(hash: &mut H, block: &mut [u8], used: usize, field: &[u8])
    requires block { length block.old ≡ H.size }
    requires used { used < H.size }
    requires few { H.size ≤ 128 }
    ensures { H.words hash.new ≡ closed H.compressed H.size (H.words hash.old)
        (take used block.old) field.now }
{
    let size = block.len();
    let zeros = (size + size - size / 8 - 1 - used) % size;
    let filled = absorb(hash, block, used, filling(zeros));
    absorb(hash, block, filled, field);
}
