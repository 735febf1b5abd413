//! Bytes that stand in shorts, two in each, the first one high.
ghost use Rattle.std.specs.Prelude.{◌≡◌, ◌≤◌, ◌+◌, ◌*◌, ◌++◌, length, take};
ghost use Rattle.jc_api_keys.specs.Shorts.{bytes_of_shorts, first_shorts};

/// Writes bytes from a place on.
pub fn put(bytes: &mut [u8], at: usize, part: &[u8])
    requires { at + length part.now ≤ length bytes.old }
    ensures { take (at + length part.now) bytes.new ≡ take at bytes.old ++ part.now }
{
    bytes[at..at + part.len()].copy_from_slice(part);
}

/// Writes the bytes of shorts.
pub fn put_bytes_of(words: &[u16], to: &mut [u8])
    requires { length to.old ≡ 2 * length words.now }
    ensures { to.new ≡ bytes_of_shorts words.now }
{
    'words: for i in 0..words.len() {
        put(to, 2 * i, &words[i].to_be_bytes());
    }
}

/// Writes the shorts of bytes.
pub fn put_shorts_of(bytes: &[u8], to: &mut [u16])
    requires { length bytes.now ≡ 2 * length to.old }
    ensures { to.new ≡ first_shorts bytes.now (length to.old) }
{
    'words: for i in 0..to.len() {
        to[i] = u16::from(bytes[2 * i]) * 256 + u16::from(bytes[2 * i + 1]);
    }
}
