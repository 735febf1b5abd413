//! Loops over bytes.

ghost use Rattle.std.specs.Prelude.{◌≡◌, ◌≤◌, ◌<◌, ◌+◌, ◌-◌, ◌∷◌, ◌++◌, length, replicate, take};
ghost use Rattle.jc_ciphers.specs.Modes.{xor_first};

// Exclusive-or of two blocks.
pub(crate) fn add(to: &mut [u8], block: &[u8])
    requires { length to.old ≡ length block.now }
    ensures { to.new ≡ xor_first to.old block.now (length block.now) }
{
    'bytes: for i in 0..block.len() {
        to[i] ^= block[i];
    }
}

// Writes a part from a place on.
pub(crate) fn put(to: &mut [u8], at: usize, part: &[u8])
    requires { at + length part.now ≤ length to.old }
    ensures { take (at + length part.now) to.new ≡ take at to.old ++ part.now }
{
    to[at..at + part.len()].copy_from_slice(part);
}

// Zeros from a place on.
pub(crate) fn clear_from(to: &mut [u8], at: usize)
    requires { at ≤ length to.old }
    ensures { to.new ≡ take at to.old ++ replicate (length to.old - at) 0 }
{
    'bytes: for i in at..to.len() {
        to[i] = 0;
    }
}

// The byte 80 at a place, and zeros after it.
pub(crate) fn end_by_bit(to: &mut [u8], at: usize)
    requires { at < length to.old }
    ensures { to.new ≡ take at to.old ++ 0x80 ∷ replicate (length to.old - (at + 1)) 0 }
{
    to[at] = 0x80;
    clear_from(to, at + 1);
}
