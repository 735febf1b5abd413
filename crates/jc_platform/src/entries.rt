//! The entries of a packed table.

ghost use Rattle.std.specs.Prelude.{◌≡◌, ◌<◌, [], ◌∷◌, length, MatchOption, IfSome};
ghost use Rattle.jc_platform.specs.PackedEntry.{entries};

/// How many bytes an entry has: its kind, and three more by the kind.
const ENTRY_SIZE: usize = 4;

/// The first entry and the bytes after it.
#[tactic(auto, using(crate::proofs::Lists::entries_uncut, crate::proofs::Lists::entries_cut))]
pub(crate) fn split_entry(bytes: &[u8]) -> Option<(&[u8], &[u8])>
    ensures parts { MatchOption result (entries bytes.now ≡ bytes.now ∷ [])
        (λ r. entries bytes.now ≡ r.0.now ∷ entries r.1.now) }
    ensures shorter { IfSome result (λ r. length r.1.now < length bytes.now) }
{
    if bytes.len() < ENTRY_SIZE {
        return None;
    }
    Some(bytes.split_at(ENTRY_SIZE))
}
