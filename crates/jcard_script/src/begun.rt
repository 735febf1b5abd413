//! A card that has carried out the first lines of a script, from which copies of it go on.
ghost use Rattle.std.specs.Prelude.{◌≡◌, ◌+◌, ◌^◌, ◌<◌, ℕ, List, [], length, false, None, Ok, IfSome, IsTrue};
ghost use Rattle.jc_commit.specs.Image.{IsGoodLog};
ghost use Rattle.jcard_script.specs.Begun.{AnswersGlitched, AnswersLeaving, AnswersLines, AnswersWith, ForEachAlike, HasBegun, IsCommandLine, IsGlitchLine, IsStopLine, LeavesCut};
ghost use Rattle.std.specs.Io.KnownBytes.{Appends, Consumes};
ghost use Rattle.jc_words.specs.Refusals.{no_refusals};
ghost use Rattle.jc_card.specs.PowerUp.Outcome.{IsPoweredOver};
ghost use Rattle.jc_card.specs.State.Power.{Up};
ghost use Rattle.jcard_script.specs.HeldCard.{IsState, state_of_held};
ghost use Rattle.jcard_script.specs.Script.{AreCarriedOut, IsWholeScript, ended_lines};
ghost use Rattle.jcard_script.specs.ScriptStates.{IsSessionStore};
ghost use Rattle.jcard_script.specs.Session.{IsUnbroken, StandsAt, unfinished_line};

use crate::explainer::Unasked;
use crate::line::{Line, LineRequest};
use crate::script::BOUND;
use crate::session::Session;
use crate::word::word_asked;
use arrayvec::ArrayVec;
use jc_card::card::Card;
use jc_card::planned_fault::PlannedFault;
use jc_card::power_up::PowerFault;
use jc_card::powered_image::PoweredImage;
use jc_card::response::Response;
use jc_memory::Notes;
use jc_words::{CopyStore, FuseStore, MemStore, StoreDown, WordStore};
use jcard_texts::streams::{TextIn, TextOut, WriteFailed};
use memchr::memchr;
use std::alloc::Global;
use std::marker::Model;

/// A card that has carried out the first lines of a script. It is up, and no load is open.
#[derive(Drop)]
pub struct BegunScript<S: WordStore> {
    card: Card<FuseStore<S>>,
}

impl<S: WordStore> Model for BegunScript<S> {
    ghost use Rattle.std.specs.Prelude.{◌≡◌, false, None};
    ghost use Rattle.jc_card.specs.Card.{CardState};

    ghost Value = { CardState };

    ghost view = { λ b. b.card };

    ghost invariant = { λ b. (b.card.memory.heap.down ≡ false) × (b.card.load ≡ None) };
}

/// Powers a card up over a store with a fuse, with a budget of instructions a command, and carries out the lines of a script, the last of
/// which a line feed has to end. Nothing where that is not done, or leaves a card that is down or has an open load. No answer is written.
pub fn begin_script<S: WordStore + Drop>(
    alloc: Global,
    fuse: FuseStore<S>,
    budget: u32,
    script: &[u8],
) -> Option<BegunScript<S>>
    ensures { IfSome result (λ begun. HasBegun budget fuse script.now begun) }
{
    if script.len() > BOUND || !ends_a_line(script) {
        return None;
    }
    let (mut session, started) = Session::start(alloc, fuse, budget, Notes::nowhere());
    let fed = is_fed(&mut session, started, script);
    let card = session.into_card()?;
    if !fed || card.has_open_load() {
        let _store = card.into_store();
        return None;
    }
    Some(BegunScript {
        card: card.sharing(),
    })
}

// Whether a session that has powered up, if it has, carries out the lines of a script.
fn is_fed<S: WordStore + Drop>(
    session: &mut Session<S>,
    started: Result<(), PowerFault>,
    script: &[u8],
) -> bool
    requires number { session.old.number + length script.now < 2 ^ 32 }
    requires held { IsState session.old.held }
    requires stands { StandsAt session.old (state_of_held session.old.held) [] [] }
    ensures held { IsState session.new.held }
    ensures fed { IsTrue result → (started ≡ Ok tt) × ((text : List ℕ) × AreCarriedOut (ended_lines script.now)
        (state_of_held session.old.held) (state_of_held session.new.held) text) }
{
    let Ok(()) = started else {
        return false;
    };
    let Ok(()) = session.feed(script, &mut Unwritten, &mut Unasked) else {
        return false;
    };
    true
}

/// The card that has just powered up over an image, with a budget of instructions a command. Nothing where memory for it is refused.
pub fn begin_over(alloc: Global, image: &PoweredImage, budget: u32) -> Option<BegunScript<MemStore>>
    ensures { IfSome result (λ begun. IsPoweredOver image.now false 0 no_refusals budget begun) }
{
    let card = image.begin(alloc, budget)?;
    Some(BegunScript { card })
}

impl<S: CopyStore> BegunScript<S> {
    /// Carries out, on a copy of the card, a line `stop K`, which is given without what ends it, and then a command, of which 65545 bytes at
    /// most are given; and gives the copy's store. Nothing where memory for the copy is refused, or the line is another.
    pub fn cut(&self, stop: &[u8], command: &[u8]) -> Option<FuseStore<S>>
        ensures leaves { IfSome result (λ store. LeavesCut self.now stop.now command.now store) }
        ensures good { IfSome result (λ store. IsGoodLog store.words) }
    {
        cut_copy(&self.card, stop, command)
    }
}

impl<S: CopyStore + Drop> BegunScript<S> {
    /// Carries out, on a copy of the card, a line `glitch ..`, which is given without what ends it, then a command, of which 65545 bytes at most are
    /// given, and then `glitch none`: the copy, and its response to the command. Nothing where memory for the copy is refused, the line is another, the
    /// store refuses a write, or the command opens a load.
    pub fn after(
        &self,
        glitch: &[u8],
        command: &[u8],
        response: &mut Response,
    ) -> Option<BegunScript<S>>
        ensures { IfSome result (λ next. AnswersGlitched self.now glitch.now command.now response.new next) }
    {
        let fault = planned_by(glitch)?;
        let Ok(copy) = self.card.copy() else {
            return None;
        };
        glitched(copy, fault, command, response)
    }

    /// The store of a copy of the card, without power. Nothing where memory for the copy is refused.
    pub fn copied_store(&self) -> Option<FuseStore<S>>
        ensures { IfSome result (λ store. IsSessionStore (Up self.now) store) }
    {
        match self.card.copy() {
            Ok(copy) => Some(copy.into_store()),
            Err(_) => None,
        }
    }
}

impl<S: WordStore + Drop> BegunScript<S> {
    /// The store of the card, without power.
    pub fn into_store(self) -> FuseStore<S>
        ensures { IsSessionStore (Up self) result }
    {
        self.card.into_store()
    }

    /// Carries out the lines of a script on the card, and writes their answers: the store that they leave. Nothing where it does not come to
    /// its end.
    pub fn answers<R: TextIn, W: TextOut>(
        self,
        alloc: Global,
        reader: &mut R,
        writer: &mut W,
    ) -> Option<FuseStore<S>>
        ensures { IfSome result (λ store. (script text : List ℕ)
            × Consumes (R.remaining reader.old) (R.remaining reader.new) script
            × Appends (W.contents writer.old) (W.contents writer.new) text
            × IsWholeScript (R.remaining reader.new) script × AnswersLines self script text store) }
    {
        answered(alloc, self.card, reader, writer)
    }
}

// The same of a card that is up.
fn answered<S: WordStore + Drop, R: TextIn, W: TextOut>(
    alloc: Global,
    card: Card<FuseStore<S>>,
    reader: &mut R,
    writer: &mut W,
) -> Option<FuseStore<S>>
    requires { card.memory.heap.down ≡ false }
    ensures { IfSome result (λ store. (script text : List ℕ)
        × Consumes (R.remaining reader.old) (R.remaining reader.new) script
        × Appends (W.contents writer.old) (W.contents writer.new) text
        × IsWholeScript (R.remaining reader.new) script × AnswersLines card script text store) }
{
    let mut session = Session::of_card(alloc, card);
    let ended = session.run(reader, writer, &mut Unasked);
    let store = session.into_store();
    match ended {
        Ok(()) => Some(store),
        Err(_fault) => None,
    }
}

// The same of a card that is up, with no open load.
fn cut_copy<S: CopyStore>(
    card: &Card<FuseStore<S>>,
    stop: &[u8],
    command: &[u8],
) -> Option<FuseStore<S>>
    requires up { card.now.memory.heap.down ≡ false }
    requires closed { card.now.load ≡ None }
    ensures leaves { IfSome result (λ store. LeavesCut card.now stop.now command.now store) }
    ensures good { IfSome result (λ store. IsGoodLog store.words) }
{
    let k = stop_number(stop)?;
    let Ok(mut copy) = card.copy() else {
        return None;
    };
    copy.arm(u64::from(k));
    Some(store_after(copy, command))
}

// The store of a card that has carried out a command, or was cut within it.
fn store_after<S: WordStore>(mut card: Card<FuseStore<S>>, command: &[u8]) -> FuseStore<S>
    requires { card.memory.heap.down ≡ false }
    ensures leaves { ForEachAlike (AnswersLeaving card command.now) result }
    ensures good { IsGoodLog result.words }
{
    let mut response = Response::empty();
    let _ = card.exchange(command, &mut response);
    card.into_store()
}

// A card that has carried out a command in which this fault came, or none; from then on none comes. Nothing where the store refuses a write, or the
// command opens a load.
fn glitched<S: WordStore + Drop>(
    mut card: Card<FuseStore<S>>,
    fault: Option<PlannedFault>,
    command: &[u8],
    response: &mut Response,
) -> Option<BegunScript<S>>
    requires { card.memory.heap.down ≡ false }
    ensures { IfSome result (λ next. AnswersWith fault card command.now response.new next) }
{
    card.plan_fault(fault);
    let Ok(()) = card.exchange(command, response) else {
        let _store = card.into_store();
        return None;
    };
    card.plan_fault(None);
    if card.has_open_load() {
        let _store = card.into_store();
        return None;
    }
    Some(BegunScript { card })
}

/// The command that a line is, with its line feed: its bytes, of which 65545 at most are kept. Nothing where it is none, or no line feed ends
/// it.
pub fn command_of_line(line: &[u8]) -> Option<ArrayVec<u8, 65545>>
    ensures { IfSome result (λ command. IsCommandLine command.items line.now) }
{
    let (last, bytes) = line.split_last()?;
    if *last != b'\n' || !is_unbroken(bytes) {
        return None;
    }
    let mut room = ArrayVec::new();
    match Line::empty().ended_by(bytes, &mut room) {
        LineRequest::Exchange(command) => kept(command),
        _ => None,
    }
}

// The same bytes, unless they are more than are kept of a command.
fn kept(command: &[u8]) -> Option<ArrayVec<u8, 65545>>
    ensures { IfSome result (λ kept. kept.items ≡ command.now) }
{
    ArrayVec::try_from(command).ok()
}

// The number of a line `stop K`.
fn stop_number(line: &[u8]) -> Option<u16>
    ensures { IfSome result (λ k. IsStopLine k line.now) }
{
    if !is_unbroken(line) {
        return None;
    }
    match word_asked(line) {
        Some(LineRequest::ArmFuse(k)) => Some(k),
        _ => None,
    }
}

// The fault that a line `glitch ..` plans, or that it plans none.
fn planned_by(line: &[u8]) -> Option<Option<PlannedFault>>
    ensures { IfSome result (λ fault. IsGlitchLine fault line.now) }
{
    if !is_unbroken(line) {
        return None;
    }
    match word_asked(line) {
        Some(LineRequest::PlanFault(fault)) => Some(fault),
        _ => None,
    }
}

// Whether no byte is a line feed.
fn is_unbroken(line: &[u8]) -> bool
    ensures { IsTrue result → IsUnbroken line.now }
{
    memchr(b'\n', line).is_none()
}

// Whether there is no byte after the last line feed.
fn ends_a_line(script: &[u8]) -> bool
    ensures { IsTrue result → unfinished_line script.now ≡ [] }
{
    match script.split_last() {
        Some((last, _)) => *last == b'\n',
        None => true,
    }
}

// Answers that nobody reads.
#[derive(Drop)]
struct Unwritten;

impl TextOut for Unwritten {
    ghost contents = { λ _. None };

    ghost failures = { λ _. 0 };

    fn write(&mut self, bytes: &[u8]) -> Result<usize, WriteFailed> {
        Ok(bytes.len())
    }
}
