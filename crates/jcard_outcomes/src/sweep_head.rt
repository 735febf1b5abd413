//! The head of a part's text, which says of which sweep it is.
ghost use Rattle.std.specs.Prelude.{◌≡◌, ◌++◌, ◌∷◌, ◌<◌, [], ℕ, List, map, false, length, IfErr, MatchOption, MatchResult, OnOk};
ghost use Rattle.std.specs.Borrow.{Bor};
ghost use Rattle.std.specs.List.{slice_index_or};
ghost use Rattle.jcard_outcomes.specs.SweepHead.{AreBehindHeads, AreOfOthers, IsBehindHead};
ghost use Rattle.jcard_outcomes.specs.Part.{has, head_text};
ghost use Rattle.jcard_outcomes.specs.declared.sweep_head.HeadFault.TheVariants.{NoMemory};

use crate::line::{after, cut_once};
use crate::rows::is_same;
use std::alloc::{AllocError, Global};

/// Why texts are not those of one sweep.
#[derive(Clone, Copy, Drop)]
pub enum HeadFault {
    NoMemory,
    /// The text at this place names another sweep than the first text, or none.
    OtherSweep(usize),
}

impl From<AllocError> for HeadFault {
    ghost from_gives = { λ _ fault. fault ≡ NoMemory };

    fn from(_: AllocError) -> Self {
        HeadFault::NoMemory
    }
}

/// The name of a sweep, and what the texts of its parts say after their heads.
#[derive(Drop)]
pub struct Bodies<'a> {
    pub name: &'a [u8],
    pub texts: Vec<&'a [u8]>,
}

/// What the texts of parts say after their heads, which have to name the same sweep.
pub fn bodies_of<'a>(alloc: Global, texts: &'a [Vec<u8>]) -> Result<Bodies<'a>, HeadFault>
    requires { 0 < length texts.now }
    ensures { MatchResult result (λ bodies. AreBehindHeads bodies.name.now
        (map (λ t. t.items) texts.now) (map (λ (t : Bor (List ℕ)). t.now) bodies.texts.items))
        (λ fault. AreOfOthers (map (λ t. t.items) texts.now) fault) }
{
    let Some((name, _body)) = cut_head(&texts[0]) else {
        return Err(HeadFault::OtherSweep(0));
    };
    let texts = bodies_behind(alloc, texts, name)?;
    Ok(Bodies { name, texts })
}

// What the texts say after heads with this name.
fn bodies_behind<'a>(
    alloc: Global,
    texts: &'a [Vec<u8>],
    name: &[u8],
) -> Result<Vec<&'a [u8]>, HeadFault>
    requires some { 0 < length texts.now }
    requires plain { has 10 name.now ≡ false }
    requires first { (body : List ℕ) × ((slice_index_or (map (λ t. t.items) texts.now) 0 [])
        ≡ head_text name.now ++ body) }
    ensures { MatchResult result (λ bodies. AreBehindHeads name.now
        (map (λ t. t.items) texts.now) (map (λ (t : Bor (List ℕ)). t.now) bodies.items))
        (λ fault. AreOfOthers (map (λ t. t.items) texts.now) fault) }
{
    let mut bodies = Vec::new(alloc);
    for (place, text) in texts.iter().enumerate() {
        match body_behind(text, name) {
            Some(body) => push_body(&mut bodies, body)?,
            None => return Err(HeadFault::OtherSweep(place)),
        }
    }
    Ok(bodies)
}

fn push_body<'a>(bodies: &mut Vec<&'a [u8]>, body: &'a [u8]) -> Result<(), HeadFault>
    ensures pushed { OnOk result (map (λ (t : Bor (List ℕ)). t.now) bodies.new.items
        ≡ map (λ (t : Bor (List ℕ)). t.now) bodies.old.items ++ body.entry.now ∷ []) }
    ensures refused { IfErr result (λ fault. fault ≡ HeadFault.NoMemory) }
{
    match bodies.push(body) {
        Ok(()) => Ok(()),
        Err(_) => Err(HeadFault::NoMemory),
    }
}

// What a text says after its head, if that has this name.
fn body_behind<'a>(text: &'a [u8], name: &[u8]) -> Option<&'a [u8]>
    requires { has 10 name.now ≡ false }
    ensures { MatchOption result ((body : List ℕ) → text.now ≡ head_text name.now ++ body → ⊥)
        (λ body. text.now ≡ head_text name.now ++ body.now) }
{
    let Some((named, body)) = cut_head(text) else {
        return None;
    };
    if is_same(named, name) {
        return Some(body);
    }
    None
}

// The name that the head of a text says, and what follows.
fn cut_head(text: &[u8]) -> Option<(&[u8], &[u8])>
    ensures { MatchOption result ((name body : List ℕ) → IsBehindHead name text.now body → ⊥)
        (λ r. IsBehindHead r.0.now text.now r.1.now) }
{
    let Some(rest) = after(text, b"sweep ") else {
        return None;
    };
    cut_once(rest, b'\n')
}
