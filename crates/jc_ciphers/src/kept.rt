//! Messages under block ciphers, whose state stands as bytes between two pieces: whether anything came, how many bytes of the open block
//! are filled, the chaining block, and the open block. Zeros are the state of no message.

pub mod conversion;
pub mod hmac;
pub mod macs;

ghost use Rattle.std.specs.Prelude.{◌≡◌, ◌≤◌};
ghost use Rattle.jc_ciphers.specs.Kept.{block_size, state_size};

/// The block ciphers. The length of a key says which: 16, 24 or 32 bytes of AES, 8 of DES, 16 or 24 of triple DES.
#[derive(Clone, Copy)]
pub enum BlockAlgorithm {
    Aes,
    Des,
}

/// How many bytes the longest block has.
pub const MOST_BLOCK: usize = 16;

/// How many bytes the longest state has.
pub const MOST_STATE: usize = 34;

impl BlockAlgorithm {
    /// How many bytes a block has.
    pub fn block_size(self) -> usize
        ensures size { result ≡ block_size self }
        ensures some { 1 ≤ result }
        ensures few { result ≤ MOST_BLOCK }
    {
        match self {
            BlockAlgorithm::Aes => 16,
            BlockAlgorithm::Des => 8,
        }
    }

    /// How many bytes a state has.
    pub fn state_size(self) -> usize
        ensures size { result ≡ state_size self }
        ensures few { result ≤ MOST_STATE }
    {
        match self {
            BlockAlgorithm::Aes => 34,
            BlockAlgorithm::Des => 18,
        }
    }
}
