//! Triple DES with two and with three keys.

ghost use Rattle.std.specs.Prelude.{◌≡◌, ◌≤◌, ◌+◌, length, take, drop};
ghost use Rattle.jc_ciphers.specs.TripleDes.{IsTripleLength, parts_of, third_place, triple_decrypted, triple_encrypted};

use crate::des::Des;

/// Three keys with their schedules.
#[derive(Drop)]
pub struct TripleDes {
    first: Des,
    second: Des,
    third: Des,
}

fn part(key: &[u8], at: usize) -> [u8; 8]
    requires { at + 8 ≤ length key.now }
    ensures { result ≡ take 8 (drop at key.now) }
{
    let mut part = [0; 8];
    part.copy_from_slice(&key[at..at + 8]);
    part
}

fn third_place(length: usize) -> usize
    ensures { result ≡ third_place length }
{
    if length == 16 { 0 } else { 16 }
}

impl TripleDes {
    ghost use Rattle.jc_ciphers.specs.DesKeys.{keys_of};

    /// Makes the schedules of a key of 16 bytes, which are two keys, or 24. The first of two is the third again.
    pub fn new(key: &[u8]) -> TripleDes
        requires { IsTripleLength (length key.now) }
        ensures { keys_of result ≡ parts_of key.now }
    {
        TripleDes {
            first: Des::new(&part(key, 0)),
            second: Des::new(&part(key, 8)),
            third: Des::new(&part(key, third_place(key.len()))),
        }
    }

    /// Enciphers a block.
    #[tactic(auto, unfolding(crate::specs::TripleDes::triple_encrypted))]
    pub fn encrypt(&self, block: &[u8; 8]) -> [u8; 8]
        ensures { result ≡ triple_encrypted (keys_of self.now) block.now }
    {
        let once = self.first.encrypt(block);
        let twice = self.second.decrypt(&once);
        self.third.encrypt(&twice)
    }

    /// Deciphers a block.
    #[tactic(auto, unfolding(crate::specs::TripleDes::triple_decrypted))]
    pub fn decrypt(&self, block: &[u8; 8]) -> [u8; 8]
        ensures { result ≡ triple_decrypted (keys_of self.now) block.now }
    {
        let once = self.third.decrypt(block);
        let twice = self.second.encrypt(&once);
        self.first.decrypt(&twice)
    }
}
