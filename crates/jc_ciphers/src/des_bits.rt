//! Lists of bits, a bit a byte.

ghost use Rattle.std.specs.Prelude.{◌≡◌, ◌≤◌, length, IsTrue};
ghost use Rattle.std.specs.List.{list_all};
ghost use Rattle.jc_ciphers.specs.Des.{bits_of, is_place, select};

// The bits that a table names, of `count`.
pub(crate) fn select(table: &[u8], from: &[u8], count: u8, to: &mut [u8])
    requires places { IsTrue (list_all (is_place count) table.now) }
    requires bits { count ≤ length from.now }
    requires room { length to.old ≡ length table.now }
    ensures { to.new ≡ select table.now from.now }
{
    'bits: for i in 0..table.len() {
        to[i] = from[usize::from(table[i]) - 1];
    }
}

/// The bits of eight bytes.
pub(crate) fn bits_of(bytes: &[u8; 8]) -> [u8; 64]
    ensures { result ≡ bits_of bytes.now }
{
    let mut bits = [0; 64];
    'bits: for i in 0..64 {
        bits[i] = (bytes[i / 8] >> (7 - i % 8)) % 2;
    }
    bits
}
