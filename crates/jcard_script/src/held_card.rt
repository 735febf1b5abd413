//! What a session of lines does with the card, or the store, that it holds.
ghost use Rattle.std.specs.Prelude.{◌≡◌, ℕ, List, false, OnOk, IfErr};
ghost use Rattle.std.specs.Bool.{OnTrue};
ghost use Rattle.jc_words.specs.Store.{FuseStoreValue};
ghost use Rattle.jc_card.specs.State.Power.{Off, budget_of};
ghost use Rattle.jc_card.specs.Session.Requests.{Down, Response as Responds};
ghost use Rattle.jc_card.specs.Session.Serving.{AnswersCommandOver};
ghost use Rattle.jc_card.specs.State.{IsUp, answer_of_power_up, power_of};
ghost use Rattle.jcard_script.specs.ScriptStates.{IsSessionStore, PowersUp, FailsUp, fuse_kind, selected_in};
ghost use Rattle.jcard_script.specs.Reply.{text_for_line};
ghost use Rattle.jcard_script.specs.Script.{text_of_reply};

use crate::explainer::Explainer;
use crate::reply::Reply;
use crate::static_image::StaticImage;
use jc_card::card::Card;
use jc_card::power_up::PowerFault;
use jc_card::response::Response;
use jc_card::state::SessionState;
use jc_environment::Aid;
use jc_memory::{Note, Notes};
use jc_words::{FuseStore, WordStore};
use jcard_why::cuts::told_of_cut;
use jcard_why::explanation::{Asked, told};
use std::alloc::{AllocError, Global};

/// Brings the power back and powers up, with a budget of instructions a command. A refused write leaves the store; any other fault is
/// shown too.
pub(crate) fn power_up<S: WordStore>(
    alloc: Global,
    mut store: FuseStore<S>,
    budget: u32,
) -> (SessionState<FuseStore<S>>, Result<(), PowerFault>)
    ensures up { IsUp (power_of result.0) }
    ensures powered { OnOk result.1 (PowersUp budget store (power_of result.0)) }
    ensures fault { IfErr result.1 (λ fault. (after : FuseStoreValue)
        × FailsUp store fault after × (power_of result.0 ≡ Off budget after)) }
{
    store.power_on();
    SessionState::power_up(alloc, store, budget)
}

/// The store of the card, without power.
pub(crate) fn into_store<S: WordStore>(held: SessionState<FuseStore<S>>) -> FuseStore<S>
    ensures { IsSessionStore (power_of held) result }
{
    held.into_store()
}

/// Carries a command out: whether the card's response was written. It was not where there is no card, or where its store
/// refuses a write, which then is all that is left of it.
#[inline(always)]
pub(crate) fn exchange<S: WordStore>(
    held: &mut SessionState<FuseStore<S>>,
    command: &[u8],
    response: &mut Response,
) -> bool
    requires up { IsUp (power_of held.old) }
    ensures up { OnTrue result (IsUp (power_of held.new)) }
    ensures answer { OnTrue result (AnswersCommandOver fuse_kind (power_of held.old)
        command.now (Responds response.new) (power_of held.new)) }
    ensures down { result ≡ false → (store : FuseStoreValue)
        → IsSessionStore (power_of held.new) store
        → AnswersCommandOver fuse_kind (power_of held.old) command.now Down
        (Off (budget_of (power_of held.old)) store) }
{
    held.exchange(command, response)
}

/// What is reported after a power up.
pub(crate) fn power_up_reply<S: WordStore>(held: &SessionState<FuseStore<S>>) -> Reply
    ensures { (response : List ℕ) → text_for_line result response
        ≡ text_of_reply (answer_of_power_up (power_of held.now)) }
{
    match held {
        SessionState::Card(_) => Reply::Ready,
        SessionState::Store(_, _) => Reply::Down,
    }
}

/// From now on it is noted what keeps the card's code from going on.
pub(crate) fn explain<S: WordStore>(held: &mut SessionState<FuseStore<S>>, notes: &Notes)
    requires up { IsUp (power_of held.old) }
    ensures up { IsUp (power_of held.new) }
    ensures same { power_of held.new ≡ power_of held.old }
{
    match held {
        SessionState::Card(card) => card.explain(notes.share()),
        SessionState::Store(_, _) => {}
    }
}

/// The AID of the applet that is selected; nothing where none is, or where there is no card.
pub(crate) fn selected_aid<S: WordStore>(held: &SessionState<FuseStore<S>>) -> Option<Aid>
    requires up { IsUp (power_of held.now) }
    ensures { result ≡ selected_in (power_of held.now) }
{
    match held {
        SessionState::Card(card) => card.selected_aid(),
        SessionState::Store(_, _) => None,
    }
}

/// How many word writes its store has let pass.
pub(crate) fn passed_writes<S: WordStore>(held: &SessionState<FuseStore<S>>) -> u64 {
    match held {
        SessionState::Card(card) => card.passed_writes(),
        SessionState::Store(store, _) => store.passed_writes(),
    }
}

/// Tells an explainer what it wants to know of a command that was carried out.
pub(crate) fn tell<S: WordStore, E: Explainer>(
    alloc: Global,
    held: &SessionState<FuseStore<S>>,
    told: &ToldOf<'_>,
    explainer: &mut E,
)
    requires up { IsUp (power_of held.now) }
{
    let SessionState::Card(card) = held else {
        return;
    };
    if let Some(text) = text_about(alloc, card, told, explainer) {
        explainer.tell(&text);
    }
    if let Some(cover) = explainer.cover() {
        cover.add(told.note, card.linked());
    }
}

/// What an explainer wants to know of a command within which the power was cut.
pub(crate) fn cut_told<S: WordStore, E: Explainer>(
    alloc: Global,
    held: &SessionState<FuseStore<S>>,
    told: &ToldOf<'_>,
    explainer: &E,
) -> Option<Vec<u8>> {
    let SessionState::Card(card) = held else {
        return None;
    };
    let wanted = explainer.wanted()?;
    let asked = asked_about(alloc, card, told, explainer, 0, 0);
    let cut = if wanted.why {
        told_of_cut(&asked).ok()?
    } else {
        None
    };
    let arrivals = explainer.arrivals(&asked, told.statics);
    joined(arrivals.unwrap_or(Vec::new(alloc)), cut)
}

// A text with another after it, if there is one. Nothing where memory for it is refused.
fn joined(mut text: Vec<u8>, more: Option<Vec<u8>>) -> Option<Vec<u8>> {
    if let Some(more) = &more {
        text.extend_from_slice(more).ok()?;
    }
    Some(text)
}

/// The static images of the packages, where a card is there.
pub(crate) fn statics<S: WordStore>(
    alloc: Global,
    held: &SessionState<FuseStore<S>>,
) -> Result<Vec<StaticImage>, AllocError>
    requires up { IsUp (power_of held.now) }
{
    match held {
        SessionState::Card(card) => statics_of(alloc, card),
        SessionState::Store(_, _) => Ok(Vec::new(alloc)),
    }
}

/// A command that an explainer may be shown.
#[derive(Clone, Copy, Drop)]
pub(crate) struct ToldOf<'a> {
    pub(crate) note: &'a Note,
    /// Its line in the script.
    pub(crate) line: u32,
    /// The status word of its answer.
    pub(crate) status: u16,
    /// How many word writes had passed before it.
    pub(crate) passed_before: u64,
    /// The code that came with it.
    pub(crate) lent_code: &'a [u8],
    /// The static images before it, where they are kept.
    pub(crate) statics: &'a [StaticImage],
}

// The text that an explainer wants to know of a command of a card. Its watch is notified that the command has ended.
fn text_about<S: WordStore, E: Explainer>(
    alloc: Global,
    card: &Card<FuseStore<S>>,
    told_of: &ToldOf<'_>,
    explainer: &E,
) -> Option<Vec<u8>>
    requires up { card.now.memory.heap.down ≡ false }
{
    let wanted = explainer.wanted()?;
    let word_writes = card.passed_writes().saturating_sub(told_of.passed_before);
    let asked = asked_about(
        alloc,
        card,
        told_of,
        explainer,
        word_writes,
        card.free_words(),
    );
    if let Some(watch) = explainer.watch() {
        watch.end(&asked);
    }
    let told = told(&asked, wanted).ok()?;
    let arrivals = explainer.arrivals(&asked, told_of.statics);
    joined(arrivals.unwrap_or(Vec::new(alloc)), Some(told))
}

fn asked_about<'a, S: WordStore, E: Explainer>(
    alloc: Global,
    card: &'a Card<FuseStore<S>>,
    told_of: &ToldOf<'a>,
    explainer: &'a E,
    word_writes: u64,
    free_words: u16,
) -> Asked<'a> {
    Asked {
        alloc,
        note: told_of.note,
        line: told_of.line,
        status: told_of.status,
        budget: card.budget(),
        linked: card.linked(),
        word_writes,
        free_words,
        map: explainer.map(),
        lent_code: told_of.lent_code,
    }
}

// The static images of the packages of a card.
fn statics_of<S: WordStore>(
    alloc: Global,
    card: &Card<FuseStore<S>>,
) -> Result<Vec<StaticImage>, AllocError>
    requires up { card.now.memory.heap.down ≡ false }
{
    let mut images = Vec::new(alloc);
    for package_number in 1..=card.linked().last() {
        let bytes = image_of(alloc, card, package_number)?;
        images.push(StaticImage {
            package_number,
            bytes,
        })?;
    }
    Ok(images)
}

// The static image of a package.
fn image_of<S: WordStore>(
    alloc: Global,
    card: &Card<FuseStore<S>>,
    package_number: u8,
) -> Result<Vec<u8>, AllocError>
    requires up { card.now.memory.heap.down ≡ false }
{
    let (size, _) = card.linked().statics_at(package_number);
    let mut bytes = Vec::new(alloc);
    for number in 0..size.div_ceil(2) {
        let word = card.static_word(package_number, number).unwrap_or(0);
        bytes.extend_from_slice(&word.to_be_bytes())?;
    }
    Ok(bytes)
}
