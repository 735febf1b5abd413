//! A script that is being carried out.
ghost use Rattle.std.specs.Prelude.{◌≡◌, ◌+◌, ◌-◌, ◌^◌, ◌<◌, ℕ, List, [], ◌++◌, Bool, length, IfOk, IfErr, IfSome, OnOk, MatchResult, IsSome, Err, Some, false};
ghost use Rattle.std.specs.Bool.{OnTrue};
ghost use Rattle.std.specs.Io.KnownBytes.{Appends, Consumes};
ghost use Rattle.std.specs.Str.Lines.{lines};
ghost use Rattle.jc_words.specs.Store.{FuseStoreValue};
ghost use Rattle.jc_words.specs.Count.{failures_after};
ghost use Rattle.jc_words.specs.Refusals.{IsWithinFuse};
ghost use Rattle.jcard_script.specs.HeldCard.{IsState, state_of_held};
ghost use Rattle.jcard_script.specs.Line.{AsksFor, IsCommandOf};
ghost use Rattle.jcard_script.specs.Reply.{text_for_line};
ghost use Rattle.jcard_script.specs.Script.{EndsFrom, IsAnswered, IsWholeScript, IsWrittenFor, armed_text, down_text, form_of, is_read_failed, planned_text};
ghost use Rattle.jcard_script.specs.Script.{is_write_failed, ended_lines};
ghost use Rattle.jc_card.specs.State.Power.{Off, Up, budget_of, planned};
ghost use Rattle.jc_card.specs.Session.Requests.{Command, Reset};
ghost use Rattle.jc_card.specs.State.{with_fuse};
ghost use Rattle.jcard_script.specs.ScriptStates.{ScriptState, IsSessionStore, PowersUp, FailsUp, FailsReset, selected_in};
ghost use Rattle.jcard_script.specs.Session.{EndsLine, StandsAt, IsUnbroken, IsWrittenOut, LineEnds, LineFails, LinesEnd};

use crate::expectations::Expectations;
use crate::explainer::Explainer;
use crate::held_card::{
    ToldOf, cut_told, exchange, explain, into_store, passed_writes, power_up, power_up_reply,
    selected_aid, statics, tell,
};
use crate::line::{Line, LineRequest};
use crate::refused_line::remark_of;
use crate::reply::{MOST_TEXT, Reply, reply_text, status_of, write_reply};
use crate::script::{BOUND, ScriptFault};
use crate::static_image::StaticImage;
use arrayvec::ArrayVec;
use jc_card::card::Card;
use jc_card::planned_fault::PlannedFault;
use jc_card::power_up::PowerFault;
use jc_card::response::Response;
use jc_card::state::SessionState;
use jc_environment::Aid;
use jc_memory::Notes;
use jc_words::{FuseStore, WordStore};
use jcard_texts::streams::{TextIn, TextOut, WriteFailed};
use memchr::memchr;
use std::alloc::Global;

/// How many bytes a command in the short form has at most.
const SHORT: usize = 261;

/// How many bytes of a script are asked for at once.
const PIECE: usize = 16_384;

/// A script that is being carried out.
#[derive(Drop)]
pub(crate) struct Session<S: WordStore> {
    alloc: Global,
    // Nothing only while a reset is carried out or the fuse is armed.
    held: Option<SessionState<FuseStore<S>>>,
    line: Line,
    number: u32,
    notes: Notes,
    // How many word writes had passed before the last command.
    passed_before: u64,
    // The card's last response.
    response: Response,
    // The first bytes of the last command, where notes are kept.
    command: ArrayVec<u8, 261>,
    // The static images before it, where somebody wants to know of arrivals.
    statics: Vec<StaticImage>,
    // What is to be reported of the last command within which the power was cut, and the number of its line.
    cut: Option<Vec<u8>>,
    cut_number: u32,
}

impl<S: WordStore + Drop> Session<S> {
    /// Before the first line: brings the power back and powers up, with a budget of instructions a command.
    pub(crate) fn start(
        alloc: Global,
        fuse: FuseStore<S>,
        budget: u32,
        notes: Notes,
    ) -> (Session<S>, Result<(), PowerFault>)
        ensures held { IsState result.0.held }
        ensures stands { StandsAt result.0 (state_of_held result.0.held) [] [] }
        ensures powered { OnOk result.1 (PowersUp budget fuse (state_of_held result.0.held)) }
        ensures fault { IfErr result.1 (λ fault. (after : FuseStoreValue) × FailsUp fuse fault after
            × (state_of_held result.0.held ≡ Off budget after)) }
    {
        let (mut held, started) = power_up(alloc, fuse, budget);
        explain(&mut held, &notes);
        let session = Session {
            alloc,
            held: Some(held),
            line: Line::empty(),
            number: 0,
            notes,
            passed_before: 0,
            response: Response::empty(),
            command: ArrayVec::new(),
            statics: Vec::new(alloc),
            cut: None,
            cut_number: 0,
        };
        (session, started)
    }

    /// Before the first line of a script for a card that is up.
    pub(crate) fn of_card(alloc: Global, card: Card<FuseStore<S>>) -> Session<S>
        requires { card.memory.heap.down ≡ false }
        ensures held { IsState result.held }
        ensures card { state_of_held result.held ≡ Up card }
        ensures stands { StandsAt result (state_of_held result.held) [] [] }
    {
        Session {
            alloc,
            held: Some(SessionState::Card(card)),
            line: Line::empty(),
            number: 0,
            notes: Notes::nowhere(),
            passed_before: 0,
            response: Response::empty(),
            command: ArrayVec::new(),
            statics: Vec::new(alloc),
            cut: None,
            cut_number: 0,
        }
    }

    /// The AID of the applet that is selected; nothing where none is, or the card is down.
    pub(crate) fn selected_aid(&self) -> Option<Aid>
        requires { IsState self.now.held }
        ensures { result ≡ selected_in (state_of_held self.now.held) }
    {
        match &self.held {
            Some(held) => selected_aid(held),
            None => None,
        }
    }

    /// The store of the card, without power. Its fuse let no more writes pass than it was set to.
    pub(crate) fn into_store(self) -> FuseStore<S>
        requires { IsState self.held }
        ensures store { IsSessionStore (state_of_held self.held) result }
        ensures within { IsWithinFuse result.passed result.refusals.fuse }
    {
        let Session {
            alloc: _,
            held,
            line: _,
            number: _,
            notes: _,
            passed_before: _,
            response: _,
            command: _,
            statics: _,
            cut: _,
            cut_number: _,
        } = self;
        let store = into_store(held.unwrap());
        let _within = store.passed_writes();
        store
    }

    /// The card; nothing where it is down.
    pub(crate) fn into_card(self) -> Option<Card<FuseStore<S>>>
        requires { IsState self.held }
        ensures { IfSome result (λ card. (state_of_held self.held ≡ Up card)
            × (card.memory.heap.down ≡ false)) }
    {
        let Session {
            alloc: _,
            held,
            line: _,
            number: _,
            notes: _,
            passed_before: _,
            response: _,
            command: _,
            statics: _,
            cut: _,
            cut_number: _,
        } = self;
        match held {
            Some(SessionState::Card(card)) => Some(card),
            _ => None,
        }
    }

    /// Carries out the lines of a script.
    pub(crate) fn run<R: TextIn, W: TextOut, E: Explainer>(
        &mut self,
        reader: &mut R,
        writer: &mut W,
        explainer: &mut E,
    ) -> Result<(), ScriptFault>
        requires held { IsState self.old.held }
        requires stands { StandsAt self.old (state_of_held self.old.held) [] [] }
        ensures held { IsState self.new.held }
        ensures script { (script text : List ℕ) × (at_end : Bool)
            × Consumes (R.remaining reader.old) (R.remaining reader.new) script
            × Appends (W.contents writer.old) (W.contents writer.new) text
            × OnTrue at_end (IsWholeScript (R.remaining reader.new) script)
            × EndsFrom result at_end script (state_of_held self.old.held)
            (state_of_held self.new.held) text }
        ensures reads { R.failures reader.new ≡ failures_after (R.failures reader.old)
            (is_read_failed result) }
        ensures writes { W.failures writer.new ≡ failures_after (W.failures writer.old)
            (is_write_failed result) }
    {
        let mut piece = [0u8; PIECE];
        let mut left = BOUND;
        loop {
            let Ok(count) = reader.read(&mut piece) else {
                return Err(ScriptFault::ReadFailed);
            };
            if count == 0 {
                return self.finish(writer, explainer);
            }
            if count > left {
                self.feed(&piece[..left], writer, explainer)?;
                return Err(ScriptFault::TooLong);
            }
            self.feed(&piece[..count], writer, explainer)?;
            left -= count;
        }
    }

    /// The next bytes of the script.
    pub(crate) fn feed<W: TextOut, E: Explainer>(
        &mut self,
        piece: &[u8],
        writer: &mut W,
        explainer: &mut E,
    ) -> Result<(), ScriptFault>
        requires number { self.old.number + length piece.now < 2 ^ 32 }
        requires held { IsState self.old.held }
        ensures held { IsState self.new.held }
        ensures goes { (script text : List ℕ) → (first : ScriptState)
            → StandsAt self.old first script text
            → (more : List ℕ) × Appends (W.contents writer.old) (W.contents writer.new) more
            × OnOk result (StandsAt self.new first (script ++ piece.now) (text ++ more))
            × LinesEnd result (ended_lines (script ++ piece.now)) first
            (state_of_held self.new.held) (text ++ more) }
        ensures writes { W.failures writer.new ≡ failures_after (W.failures writer.old)
            (is_write_failed result) }
    {
        let mut rest = piece;
        let mut room = ArrayVec::new();
        while let Some(end) = memchr(b'\n', rest) {
            self.end_line(&rest[..end], &mut room, writer, explainer)?;
            rest = &rest[end + 1..];
        }
        self.line.push_all(rest);
        Ok(())
    }

    // Carries out the line that these bytes and a line feed end, and begins the next. There is room for the bytes of its command.
    fn end_line<W: TextOut, E: Explainer>(
        &mut self,
        bytes: &[u8],
        room: &mut ArrayVec<u8, 65545>,
        writer: &mut W,
        explainer: &mut E,
    ) -> Result<(), ScriptFault>
        requires unbroken { IsUnbroken bytes.now }
        requires number { self.old.number < 2 ^ 32 - 1 }
        requires held { IsState self.old.held }
        ensures held { IsState self.new.held }
        ensures number { OnOk result (self.new.number ≡ self.old.number + 1) }
        ensures goes { EndsLine result self.old self.new (W.contents writer.old)
            (W.contents writer.new) bytes.now }
        ensures writes { W.failures writer.new ≡ failures_after (W.failures writer.old)
            (is_write_failed result) }
    {
        if self.line.whole_command(bytes, room) {
            self.number += 1;
            self.answer_command(room.as_slice(), writer, explainer)
        } else {
            self.end_other_line(bytes, room, writer, explainer)
        }
    }

    // The same for a line that these bytes alone do not spell as a command.
    #[inline(never)]
    fn end_other_line<W: TextOut, E: Explainer>(
        &mut self,
        bytes: &[u8],
        room: &mut ArrayVec<u8, 65545>,
        writer: &mut W,
        explainer: &mut E,
    ) -> Result<(), ScriptFault>
        requires unbroken { IsUnbroken bytes.now }
        requires number { self.old.number < 2 ^ 32 - 1 }
        requires held { IsState self.old.held }
        ensures held { IsState self.new.held }
        ensures number { OnOk result (self.new.number ≡ self.old.number + 1) }
        ensures goes { EndsLine result self.old self.new (W.contents writer.old)
            (W.contents writer.new) bytes.now }
        ensures writes { W.failures writer.new ≡ failures_after (W.failures writer.old)
            (is_write_failed result) }
    {
        let asked = self.line.ended_by(bytes, room);
        self.number += 1;
        let result = self.answer_line(asked, writer, explainer);
        self.line.clear();
        result
    }

    // Carries out the last line, which no line feed ends.
    fn finish<W: TextOut, E: Explainer>(
        &mut self,
        writer: &mut W,
        explainer: &mut E,
    ) -> Result<(), ScriptFault>
        requires number { self.old.number < 2 ^ 32 - 1 }
        requires held { IsState self.old.held }
        ensures held { IsState self.new.held }
        ensures goes { (script text : List ℕ) → (first : ScriptState)
            → StandsAt self.old first script text
            → (more : List ℕ) × Appends (W.contents writer.old) (W.contents writer.new) more
            × LinesEnd result (lines script) first (state_of_held self.new.held) (text ++ more) }
        ensures writes { W.failures writer.new ≡ failures_after (W.failures writer.old)
            (is_write_failed result) }
    {
        let mut room = ArrayVec::new();
        let asked = self.line.last(&mut room);
        self.number += 1;
        self.answer_line(asked, writer, explainer)
    }

    // Answers the line with the session's number.
    fn answer_line<W: TextOut, E: Explainer>(
        &mut self,
        asked: LineRequest,
        writer: &mut W,
        explainer: &mut E,
    ) -> Result<(), ScriptFault>
        requires held { IsState self.old.held }
        ensures held { IsState self.new.held }
        ensures number { self.new.number ≡ self.old.number }
        ensures goes { (line : List ℕ) → AsksFor asked.entry line
            → (more : List ℕ) × Appends (W.contents writer.old) (W.contents writer.new) more
            × LineEnds result self.old.number (form_of line) (state_of_held self.old.held)
            (state_of_held self.new.held) more }
        ensures writes { W.failures writer.new ≡ failures_after (W.failures writer.old)
            (is_write_failed result) }
    {
        match self.reply(asked, explainer) {
            Ok(reply) => self.write(reply, writer, explainer),
            Err(fault) => {
                self.remark_on(fault, explainer);
                Err(fault)
            }
        }
    }

    // Says why the line has no form, where that is the fault.
    fn remark_on<E: Explainer>(&self, fault: ScriptFault, explainer: &mut E) {
        let ScriptFault::BadLine(number) = fault else {
            return;
        };
        if let Ok(text) = remark_of(self.alloc, number, self.line.text().fault()) {
            explainer.remark(&text);
        }
    }

    // Answers a command.
    fn answer_command<W: TextOut, E: Explainer>(
        &mut self,
        command: &[u8],
        writer: &mut W,
        explainer: &mut E,
    ) -> Result<(), ScriptFault>
        requires held { IsState self.old.held }
        ensures held { IsState self.new.held }
        ensures number { self.new.number ≡ self.old.number }
        ensures line { self.new.line ≡ self.old.line }
        ensures goes { (line : List ℕ) → IsCommandOf command.now (form_of line)
            → (more : List ℕ) × Appends (W.contents writer.old) (W.contents writer.new) more
            × LineEnds result self.old.number (form_of line) (state_of_held self.old.held)
            (state_of_held self.new.held) more }
        ensures writes { W.failures writer.new ≡ failures_after (W.failures writer.old)
            (is_write_failed result) }
    {
        let reply = self.exchange(command, explainer);
        self.write(reply, writer, explainer)
    }

    // Writes a reply, and tells who asks what the command did that was answered so, if one was.
    #[inline(always)]
    fn write<W: TextOut, E: Explainer>(
        &self,
        reply: Reply,
        writer: &mut W,
        explainer: &mut E,
    ) -> Result<(), ScriptFault>
        requires held { IsState self.now.held }
        ensures text { IsWrittenOut result (W.contents writer.old) (W.contents writer.new)
            (text_for_line reply self.now.response) }
        ensures writes { W.failures writer.new ≡ failures_after (W.failures writer.old)
            (is_write_failed result) }
    {
        match write_reply(reply, &self.response, writer) {
            Ok(()) => {
                self.tell_about(reply, explainer);
                Ok(())
            }
            Err(WriteFailed) => Err(ScriptFault::WriteFailed),
        }
    }

    // Tells who asks what the command did that was answered so, if one was, and what was answered.
    #[inline(always)]
    fn tell_about<E: Explainer>(&self, reply: Reply, explainer: &mut E)
        requires held { IsState self.now.held }
    {
        if let Some(expectations) = explainer.expectations() {
            self.compare(reply, expectations);
        }
        let Reply::Answer = reply else {
            self.tell_of_cut(reply, explainer);
            return;
        };
        let Some(note) = self.notes.take() else {
            return;
        };
        let Some(status) = status_of(&self.response) else {
            return;
        };
        if let Some(held) = &self.held {
            let told = ToldOf {
                note: &note,
                line: self.number,
                status,
                passed_before: self.passed_before,
                lent_code: code_of(&self.command),
                statics: &self.statics,
            };
            tell(self.alloc, held, &told, explainer);
        }
    }

    // Tells who asks that the power was cut within a command, or came back.
    fn tell_of_cut<E: Explainer>(&self, reply: Reply, explainer: &mut E) {
        if let Some(watch) = explainer.watch() {
            watch.forget();
        }
        let Reply::Down = reply else {
            return;
        };
        if self.cut_number != self.number {
            return;
        }
        if let Some(text) = &self.cut {
            explainer.tell(text);
        }
    }

    // Compares an answer with what the next comment expects, and this with a comment.
    fn compare(&self, reply: Reply, expectations: &mut Expectations) {
        match reply {
            Reply::Silent => expectations.comment(self.number, self.line.text().beginning()),
            _ => {
                let mut room = [0u8; MOST_TEXT];
                expectations.answer(reply_text(reply, &self.response, &mut room));
            }
        }
    }

    // What is to be written for the line with the session's number.
    fn reply<E: Explainer>(
        &mut self,
        asked: LineRequest,
        explainer: &E,
    ) -> Result<Reply, ScriptFault>
        requires held { IsState self.old.held }
        ensures held { IsState self.new.held }
        ensures number { self.new.number ≡ self.old.number }
        ensures goes { (line : List ℕ) → AsksFor asked.entry line → MatchResult result
            (λ reply. IsWrittenFor (form_of line) (state_of_held self.old.held)
            (state_of_held self.new.held) (text_for_line reply self.new.response))
            (λ fault. LineFails fault self.old.number (form_of line) (state_of_held self.old.held)
            (state_of_held self.new.held)) }
        ensures unwritten { IfErr result (λ fault. is_write_failed (Err fault) ≡ false) }
    {
        match asked {
            LineRequest::Nothing => Ok(Reply::Silent),
            LineRequest::Refused => Err(ScriptFault::BadLine(self.number)),
            LineRequest::Exchange(command) => Ok(self.exchange(command, explainer)),
            LineRequest::Reset => match self.reset() {
                Ok(reply) => Ok(reply),
                Err(fault) => Err(ScriptFault::PowerFault(fault)),
            },
            LineRequest::ArmFuse(k) => Ok(self.arm_fuse(k)),
            LineRequest::PlanFault(fault) => Ok(self.plan_fault(fault)),
        }
    }

    // What is to be written for a command: the card's response; `down` where the card is down, or goes down at it.
    #[inline(always)]
    fn exchange<E: Explainer>(&mut self, command: &[u8], explainer: &E) -> Reply
        requires held { IsState self.old.held }
        ensures held { IsState self.new.held }
        ensures number { self.new.number ≡ self.old.number }
        ensures line { self.new.line ≡ self.old.line }
        ensures answer { IsAnswered (Command command.now) (state_of_held self.old.held)
            (state_of_held self.new.held) (text_for_line result self.new.response) }
    {
        self.notes.begin(self.number);
        self.keep_command(command);
        self.keep_statics(explainer);
        let budget = self.budget();
        if let Some(held) = &mut self.held {
            self.passed_before = passed_writes(held);
            if exchange(held, command, &mut self.response) {
                return Reply::Answer;
            }
        }
        self.go_down(budget, explainer)
    }

    // Keeps a command, where notes are kept.
    #[inline(always)]
    fn keep_command(&mut self, command: &[u8])
        ensures held { self.new.held ≡ self.old.held }
        ensures number { self.new.number ≡ self.old.number }
        ensures line { self.new.line ≡ self.old.line }
    {
        if self.notes.are_kept() {
            self.command = first_bytes(command);
        }
    }

    // Keeps the static images before a command, where somebody wants to know of arrivals and there is memory for them.
    #[inline(always)]
    fn keep_statics<E: Explainer>(&mut self, explainer: &E)
        requires { IsState self.old.held }
        ensures held { self.new.held ≡ self.old.held }
        ensures number { self.new.number ≡ self.old.number }
        ensures line { self.new.line ≡ self.old.line }
    {
        if explainer.looks_for_arrivals() {
            self.statics = statics_of(self.alloc, &self.held);
        }
    }

    // The store is all that is left of the card, which has this budget when it is up again.
    #[cold]
    #[inline(never)]
    fn go_down<E: Explainer>(&mut self, budget: u32, explainer: &E) -> Reply
        requires some { IsSome self.old.held }
        ensures held { IsState self.new.held }
        ensures number { self.new.number ≡ self.old.number }
        ensures line { self.new.line ≡ self.old.line }
        ensures text { text_for_line result self.new.response ≡ down_text }
        ensures down { (store : FuseStoreValue) × IsSessionStore (state_of_held self.old.held) store
            × (state_of_held self.new.held ≡ Off budget store) }
    {
        let held = self.held.take().unwrap();
        self.cut = cut_text(
            self.alloc,
            &held,
            &self.notes,
            self.number,
            &self.statics,
            explainer,
        );
        self.cut_number = self.number;
        let left = into_store(held);
        self.hold(SessionState::Store(left, budget));
        Reply::Down
    }

    // From now on the session has this card or store; what it had has no power any more.
    fn hold(&mut self, held: SessionState<FuseStore<S>>)
        ensures { self.new ≡ record self.old { held = Some held } }
    {
        if let Some(before) = self.held.replace(held) {
            let _store = into_store(before);
        }
    }

    // The budget that the card has, or has when it is up again.
    fn budget(&self) -> u32
        requires held { IsState self.now.held }
        ensures { result ≡ budget_of (state_of_held self.now.held) }
    {
        match &self.held {
            Some(held) => held.budget(),
            None => 0,
        }
    }

    // Takes the power from the card and powers it up again over its store.
    fn reset(&mut self) -> Result<Reply, PowerFault>
        requires held { IsState self.old.held }
        ensures held { IsState self.new.held }
        ensures number { self.new.number ≡ self.old.number }
        ensures powered { IfOk result (λ reply. IsAnswered Reset (state_of_held self.old.held)
            (state_of_held self.new.held) (text_for_line reply self.new.response)) }
        ensures fault { IfErr result (λ fault. FailsReset fault (state_of_held self.old.held)
            (state_of_held self.new.held)) }
    {
        let budget = self.budget();
        let store = into_store(self.held.take().unwrap());
        let (mut held, result) = power_up(self.alloc, store, budget);
        explain(&mut held, &self.notes);
        let reply = power_up_reply(&held);
        self.hold(held);
        result?;
        Ok(reply)
    }

    // Script line `stop K`: lets K writes pass and refuses the next.
    fn arm_fuse(&mut self, k: u16) -> Reply
        requires held { IsState self.old.held }
        ensures held { IsState self.new.held }
        ensures number { self.new.number ≡ self.old.number }
        ensures armed { text_for_line result self.new.response ≡ armed_text k }
        ensures standing { state_of_held self.new.held ≡ with_fuse k (state_of_held self.old.held) }
    {
        if let Some(held) = &mut self.held {
            held.arm(u64::from(k));
        }
        Reply::Armed(k)
    }

    // Script lines `glitch K MODEL` and `glitch none`: this fault comes in each command up to a reset, or none.
    fn plan_fault(&mut self, fault: Option<PlannedFault>) -> Reply
        requires held { IsState self.old.held }
        ensures held { IsState self.new.held }
        ensures number { self.new.number ≡ self.old.number }
        ensures planned { text_for_line result self.new.response ≡ planned_text fault }
        ensures standing { state_of_held self.new.held ≡ planned fault (state_of_held self.old.held) }
    {
        if let Some(held) = &mut self.held {
            held.plan(fault);
        }
        Reply::Planned(fault)
    }
}

// What is to be reported of the command in a line within which the power was cut.
fn cut_text<S: WordStore, E: Explainer>(
    alloc: Global,
    held: &SessionState<FuseStore<S>>,
    notes: &Notes,
    line: u32,
    statics: &[StaticImage],
    explainer: &E,
) -> Option<Vec<u8>> {
    let note = notes.take()?;
    let told = ToldOf {
        note: &note,
        line,
        status: 0,
        passed_before: 0,
        lent_code: b"",
        statics,
    };
    cut_told(alloc, held, &told, explainer)
}

// The static images of a card that is up, where there is memory for them.
fn statics_of<S: WordStore>(
    alloc: Global,
    held: &Option<SessionState<FuseStore<S>>>,
) -> Vec<StaticImage>
    requires { IsState held.now }
{
    match held {
        Some(held) => statics(alloc, held).unwrap_or(Vec::new(alloc)),
        None => Vec::new(alloc),
    }
}

// The first bytes of a command: those of a whole one in the short form.
fn first_bytes(command: &[u8]) -> ArrayVec<u8, 261> {
    let mut kept = ArrayVec::new();
    let _ = kept.try_extend_from_slice(&command[..command.len().min(SHORT)]);
    kept
}

// The code that comes with a command: its data.
fn code_of(command: &ArrayVec<u8, 261>) -> &[u8] {
    let bytes = command.as_slice();
    match bytes.get(4) {
        None => b"",
        Some(length) => {
            let end = bytes.len().min(5 + usize::from(*length));
            if end < 5 { b"" } else { &bytes[5..end] }
        }
    }
}
