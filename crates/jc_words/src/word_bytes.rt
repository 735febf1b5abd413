//! Words as bytes: each is two of them, the high one first.
ghost use Rattle.std.specs.Prelude.{◌≡◌, ◌*◌, ◌%◌, length, IfOk, flat_map};
ghost use Rattle.byteorder.specs.Endian.{big_bytes};
ghost use Rattle.jc_words.specs.File.{AreWordsOf};

use byteorder::{BigEndian, ByteOrder};
use std::alloc::{AllocError, Global};

/// The words that these bytes are.
pub fn words_of_bytes(alloc: Global, bytes: &[u8]) -> Result<Vec<u16>, AllocError>
    requires { length bytes.now % 2 ≡ 0 }
    ensures { IfOk result (λ words. AreWordsOf bytes.now words.items) }
{
    let mut words = vec![in alloc; 0u16; bytes.len() / 2]?;
    BigEndian::read_u16_into(bytes, &mut words);
    Ok(words)
}

/// Puts words in the place of as many pairs of bytes.
pub fn put_words(words: &[u16], bytes: &mut [u8])
    requires { length bytes.old ≡ 2 * length words.now }
    ensures { bytes.new ≡ flat_map (big_bytes 2) words.now }
{
    BigEndian::write_u16_into(words, bytes);
}
