//! Writes and comparisons of bytes.

ghost use Rattle.std.specs.Prelude.{◌≡◌, ◌≤◌, ◌+◌, ◌++◌, ◌↔◌, IsTrue, MatchOption, length, replicate, take};
ghost use Rattle.jc_rsa.specs.Bytes.{HasNone, IsFirst, IsOther, IsZero, xor};

/// How many bytes the longest encoding has: that of a modulus of 4,096 bits.
pub const MOST_ENCODING: usize = 512;

// Writes a part from a place on, and returns the place after it.
pub(crate) fn put(to: &mut [u8], at: usize, part: &[u8]) -> usize
    requires { at + length part.now ≤ length to.old }
    ensures end { result ≡ at + length part.now }
    ensures written { take result to.new ≡ take at to.old ++ part.now }
{
    let end = at + part.len();
    to[at..end].copy_from_slice(part);
    end
}

// Writes a byte a number of times from a place on, and returns the place after it.
pub(crate) fn put_repeated(to: &mut [u8], at: usize, count: usize, byte: u8) -> usize
    requires { at + count ≤ length to.old }
    ensures end { result ≡ at + count }
    ensures written { take result to.new ≡ take at to.old ++ replicate count byte }
{
    let end = at + count;
    to[at..end].fill(byte);
    end
}

pub(crate) fn same(left: &[u8], right: &[u8]) -> bool
    ensures { IsTrue result ↔ (left.now ≡ right.now) }
{
    left == right
}

// The first place of a zero from a place on.
pub(crate) fn first_zero(bytes: &[u8], start: usize) -> Option<usize>
    ensures { MatchOption result (HasNone IsZero start bytes.now) (IsFirst IsZero start bytes.now) }
{
    'places: for i in start..bytes.len() {
        if bytes[i] == 0 {
            return Some(i);
        }
    }
    None
}

// The first place from a place on of another byte than this.
pub(crate) fn first_other(bytes: &[u8], start: usize, byte: u8) -> Option<usize>
    ensures { MatchOption result (HasNone (IsOther byte) start bytes.now)
        (IsFirst (IsOther byte) start bytes.now) }
{
    'places: for i in start..bytes.len() {
        if bytes[i] != byte {
            return Some(i);
        }
    }
    None
}

// Exclusive-or with a mask.
pub(crate) fn xor(to: &mut [u8], mask: &[u8])
    requires { length to.old ≡ length mask.now }
    ensures { to.new ≡ xor to.old mask.now }
{
    'bytes: for i in 0..mask.len() {
        to[i] ^= mask[i];
    }
}
