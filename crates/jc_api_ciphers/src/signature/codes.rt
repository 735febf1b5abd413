//! What becomes of the state of a message that is to be signed, by the bytes of its key and vector.
ghost use Rattle.std.specs.Prelude.{◌≡◌, length, take, if◌then◌else◌, Some, None};
ghost use Rattle.std.specs.Option.{option_map};
ghost use Rattle.jc_ciphers.specs.Kept.{block_size, state_size};
ghost use Rattle.jc_ciphers.specs.Kept.Macs.{IsMacKeyLength, cipher_of, mac_of_state};
ghost use Rattle.jc_api_ciphers.specs.Signature.Codes.{FitsKey, signature_of_state, state_after, state_bytes, vector_size};
ghost use Rattle.jc_api_ciphers.specs.Signature.Algorithms.{code_size, signature_size};

use crate::signature::algorithms::{CodeLength, SignatureAlgorithm};
use jc_ciphers::kept::MOST_BLOCK;
use jc_ciphers::kept::hmac::{put_hmac_of, update_hmac};
use jc_ciphers::kept::macs::{MacAlgorithm, put_mac_of, update_mac};

/// Takes a piece into a state.
pub(crate) fn take_in(
    algorithm: SignatureAlgorithm,
    key: &[u8],
    vector: &[u8],
    state: &mut [u8],
    piece: &[u8],
)
    requires key { FitsKey algorithm (length key.now) }
    requires vector { length vector.now ≡ vector_size algorithm }
    requires state { length state.old ≡ state_bytes algorithm }
    ensures { state.new ≡ state_after algorithm key.now vector.now state.old piece.now }
{
    match algorithm {
        SignatureAlgorithm::Mac(algorithm, _) => update_mac(algorithm, key, vector, state, piece),
        SignatureAlgorithm::Hmac(algorithm) => update_hmac(algorithm, key, state, piece),
    }
}

// Writes the first bytes of the code of a message that ends by a piece, if it may end so.
fn put_first_of_mac(
    algorithm: MacAlgorithm,
    size: CodeLength,
    key: &[u8],
    vector: &[u8],
    state: &[u8],
    piece: &[u8],
    to: &mut [u8],
) -> bool
    requires key { IsMacKeyLength algorithm (length key.now) }
    requires vector { length vector.now ≡ block_size (cipher_of algorithm) }
    requires state { length state.now ≡ state_size (cipher_of algorithm) }
    requires code { length to.old ≡ code_size algorithm size }
    ensures { (if result then Some to.new else None) ≡ option_map (take (code_size algorithm size))
        (mac_of_state algorithm key.now vector.now state.now piece.now) }
{
    let mut buffer = [0; MOST_BLOCK];
    let code = &mut buffer[..algorithm.cipher().block_size()];
    if put_mac_of(algorithm, key, vector, state, piece, code) {
        to.copy_from_slice(&code[..to.len()]);
        return true;
    }
    false
}

/// Writes the signature of a message that a state has taken in and that ends by a piece. It returns false where the message cannot end so.
pub(crate) fn put_signature_of(
    algorithm: SignatureAlgorithm,
    key: &[u8],
    vector: &[u8],
    state: &[u8],
    piece: &[u8],
    to: &mut [u8],
) -> bool
    requires key { FitsKey algorithm (length key.now) }
    requires vector { length vector.now ≡ vector_size algorithm }
    requires state { length state.now ≡ state_bytes algorithm }
    requires code { length to.old ≡ signature_size algorithm }
    ensures { (if result then Some to.new else None)
        ≡ signature_of_state algorithm key.now vector.now state.now piece.now }
{
    match algorithm {
        SignatureAlgorithm::Mac(algorithm, size) => {
            put_first_of_mac(algorithm, size, key, vector, state, piece, to)
        }
        SignatureAlgorithm::Hmac(algorithm) => {
            put_hmac_of(algorithm, key, state, piece, to);
            true
        }
    }
}
