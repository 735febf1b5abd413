//! Commands that applets answer, and "create applet".
ghost use Rattle.std.specs.Prelude.{◌≡◌, ◌<◌, ◌≤◌, ◌++◌, Some, false, length, OnErr, OnOk};
ghost use Rattle.jc_memory.specs.Commands.{has_extended_length, most_command};
ghost use Rattle.jc_memory.specs.Programs.{Executes};
ghost use Rattle.jc_heap.specs.Completions.{after_step};
ghost use Rattle.jc_card.specs.Answers.{after_exchange, answered};
ghost use Rattle.jc_card.specs.Command.{Apdu, apdu_value};
ghost use Rattle.jc_card.specs.StatusWord.{status_bytes};
ghost use Rattle.jc_card.specs.Dispatching.{answering, create_applet, dispatch, expected_by, expected_by_extended, expected_by_short, is_select, named_or_selected, route, status_of_ending, takes_extended, to_selected};

use crate::card::Card;
use crate::command::Command;
use crate::response::{Response, StatusResponse};
use crate::status_word::StatusWord;
use jc_dispatch::applet_result::AppletResult;
use jc_dispatch::create::create;
use jc_dispatch::extended_length::implements_extended_length;
use jc_dispatch::process::{AppletCommand, process, process_apart};
use jc_dispatch::select::{select, select_manager};
use jc_environment::applet_with_aid;
use jc_frames::Frames;
use jc_interp::attacks::Budget;
use jc_linker::linked::Linked;
use jc_memory::{Memory, has_extended_length, two_bytes};
use jc_transient::AppletNumber;
use jc_words::{StoreDown, WordStore};

/// The AID by which the manager is selected.
const MANAGER_AID: [u8; 6] = [0xF0, 0x4A, 0x43, 0x4D, 0x47, 0x52];

/// SELECT by an AID (ISO/IEC 7816-4): 00 A4 04 00.
const SELECT: u8 = 0xA4;

const BY_AID: u8 = 4;

// Whether a command is SELECT by an AID.
pub(crate) fn is_select(command: Command<'_>) -> bool
    ensures { result ≡ is_select (apdu_value command.entry) }
{
    command.class == 0
        && command.instruction == SELECT
        && command.p1 == BY_AID
        && command.p2 == 0
        && !command.data.is_empty()
}

// How many bytes a command in the short form expects.
fn expected_by_short(bytes: &[u8]) -> u16
    ensures { result ≡ expected_by_short bytes.now }
{
    let count = bytes.len();
    if count == 5 {
        return u16::from(bytes[4]);
    }
    if count > 5 && count == 6 + usize::from(bytes[4]) {
        return u16::from(bytes[count - 1]);
    }
    0
}

// How many bytes a command in the extended form expects.
fn expected_by_extended(bytes: &[u8]) -> u16
    requires { 5 < length bytes.now }
    ensures { result ≡ expected_by_extended bytes.now }
{
    let count = bytes.len();
    if count < 7 {
        return 0;
    }
    let number = two_bytes(bytes, 5);
    if count == 7 {
        return number;
    }
    if count == 9 + usize::from(number) {
        return two_bytes(bytes, count - 2);
    }
    0
}

// How many bytes a command expects; 0 where it says 0 or nothing.
fn expected_by(bytes: &[u8]) -> u16
    ensures { result ≡ expected_by bytes.now }
{
    if has_extended_length(bytes) {
        return expected_by_extended(bytes);
    }
    expected_by_short(bytes)
}

// The applet with an AID, or the selected one where no applet has it; none for that of the manager.
fn named_or_selected<S: WordStore>(aid: &[u8], memory: &Memory<S>) -> Option<AppletNumber>
    requires up { memory.now.heap.down ≡ false }
    ensures { result ≡ named_or_selected memory.now aid.now }
{
    if aid == MANAGER_AID.as_slice() {
        return None;
    }
    match applet_with_aid(memory, aid) {
        Some(applet) => Some(applet),
        None => memory.registers().selected,
    }
}

// The applet that answers a command; none where the manager does.
fn answering<S: WordStore>(command: Command<'_>, memory: &Memory<S>) -> Option<AppletNumber>
    requires up { memory.now.heap.down ≡ false }
    ensures { result ≡ answering (apdu_value command.entry) memory.now }
{
    if is_select(command) {
        return named_or_selected(command.data, memory);
    }
    memory.registers().selected
}

// Whether the image takes commands in the extended form, and so does the applet that answers this one.
#[tactic(auto, unfolding(crate::specs::Dispatching::takes_extended))]
pub(crate) fn takes_extended<S: WordStore>(
    command: Command<'_>,
    memory: &Memory<S>,
    linked: &Linked,
) -> bool
    requires up { memory.now.heap.down ≡ false }
    ensures { result ≡ takes_extended (apdu_value command.entry) linked.now memory.now }
{
    if !memory.takes_extended_length() {
        return false;
    }
    implements_extended_length(answering(command, memory), memory, linked)
}

// The status word of a command that an applet answered, or by which one was made.
fn status_of(ending: AppletResult) -> StatusWord
    ensures { result.0 ≡ status_of_ending ending }
{
    match ending {
        AppletResult::Done => StatusWord::NO_ERROR,
        AppletResult::Reason(reason) => StatusWord(reason.cast_unsigned()),
        AppletResult::Unknown => StatusWord::UNKNOWN,
        AppletResult::NotSelected => StatusWord::NOT_SELECTED,
        AppletResult::NotRegistered => StatusWord::CONDITIONS_NOT_SATISFIED,
        AppletResult::Malformed => StatusWord::WRONG_DATA,
        AppletResult::NoApplet => StatusWord::NO_APPLET,
        AppletResult::RegistryFull => StatusWord::FULL,
    }
}

// The selected applet answers the command.
#[inline(always)]
fn to_selected<S: WordStore>(
    budget: &Budget,
    expected: u16,
    frames: &mut Frames,
    memory: &mut Memory<S>,
    linked: &Linked,
) -> Result<AppletResult, StoreDown>
    requires up { memory.old.heap.down ≡ false }
    requires outside { memory.old.heap.begun ≡ false }
    ensures does { Executes (to_selected budget.now memory.old.registers.selected expected linked.now
        memory.old) memory.old (after_step result memory.new) }
    ensures outside { OnOk result (memory.new.heap.begun ≡ false) }
{
    match memory.registers().selected {
        Some(applet) => {
            let command = AppletCommand {
                applet,
                selecting: false,
                expected,
            };
            process_apart(budget, command, frames, memory, linked)
        }
        None => Ok(AppletResult::NotSelected),
    }
}

// SELECT (00 A4 04 00) of the manager or of an applet; another command goes to the selected applet.
#[tactic(auto, unfolding(crate::specs::Dispatching::route))]
fn route<S: WordStore>(
    budget: Budget,
    command: Command<'_>,
    expected: u16,
    frames: &mut Frames,
    memory: &mut Memory<S>,
    linked: &Linked,
) -> Result<AppletResult, StoreDown>
    requires up { memory.old.heap.down ≡ false }
    requires outside { memory.old.heap.begun ≡ false }
    ensures does { Executes (route budget (apdu_value command.entry) expected linked.now
        memory.old) memory.old (after_step result memory.new) }
    ensures outside { OnOk result (memory.new.heap.begun ≡ false) }
{
    if is_select(command) {
        if command.data == MANAGER_AID.as_slice() {
            return select_manager(budget, frames, memory, linked);
        }
        if let Some(applet) = applet_with_aid(memory, command.data) {
            return select(budget, applet, expected, frames, memory, linked);
        }
    }
    to_selected(&budget, expected, frames, memory, linked)
}

impl<S: WordStore> Card<S> {
    // Writes the response of an applet whose command ended so: the data that were sent, and the status word.
    #[inline(always)]
    fn respond(&self, ending: AppletResult, response: &mut Response)
        ensures { response.new ≡ self.now.memory.sent ++ status_bytes (status_of_ending ending) }
    {
        response.set(self.memory.sent(), status_of(ending));
    }

    // Writes the response of this applet, which is the selected one, to a command in the short form that is no SELECT.
    #[tactic(auto, unfolding(crate::specs::Dispatching::dispatch, crate::specs::Dispatching::route), using(jc_memory::proofs::ProgramLemmas::in_two_steps))]
    #[inline(always)]
    pub(crate) fn answer_by(
        &mut self,
        applet: AppletNumber,
        bytes: &[u8],
        response: &mut Response,
    ) -> Result<(), StoreDown>
        requires up { self.old.memory.heap.down ≡ false }
        requires selected { self.old.memory.registers.selected ≡ Some applet }
        requires long { length bytes.now ≤ most_command }
        requires short { has_extended_length bytes.now ≡ false }
        ensures executes { (c : Apdu) → is_select c ≡ false
            → Executes (dispatch bytes.now c self.old) self.old.memory
            (after_exchange (answered result response.new) self.new) }
        ensures unanswered { OnErr result (response.new ≡ response.old) }
    {
        self.memory.start(bytes);
        let command = AppletCommand {
            applet,
            selecting: false,
            expected: expected_by_short(bytes),
        };
        let ending = process(
            &self.budget,
            command,
            &mut self.frames,
            &mut self.memory,
            self.linked.get(),
        )?;
        self.respond(ending, response);
        Ok(())
    }

    // Writes the response of an applet, or to the command that selects one or the manager, out of line.
    #[tactic(auto, unfolding(crate::specs::Dispatching::dispatch), using(jc_memory::proofs::ProgramLemmas::in_two_steps))]
    #[inline(never)]
    pub(crate) fn dispatch(
        &mut self,
        bytes: &[u8],
        command: Command<'_>,
        response: &mut Response,
    ) -> Result<(), StoreDown>
        requires up { self.old.memory.heap.down ≡ false }
        requires long { length bytes.now ≤ most_command }
        ensures executes { Executes (dispatch bytes.now (apdu_value command.entry) self.old)
            self.old.memory (after_exchange (answered result response.new) self.new) }
        ensures unanswered { OnErr result (response.new ≡ response.old) }
    {
        self.memory.start(bytes);
        let expected = expected_by(bytes);
        let ending = route(
            self.budget,
            command,
            expected,
            &mut self.frames,
            &mut self.memory,
            self.linked.get(),
        )?;
        self.respond(ending, response);
        Ok(())
    }

    /// Command 80 B8 create applet: installs an applet.
    #[tactic(auto, unfolding(crate::specs::Dispatching::create_applet), using(jc_memory::proofs::ProgramLemmas::in_two_steps))]
    pub(crate) fn create(&mut self, bytes: &[u8]) -> Result<StatusResponse, StoreDown>
        requires up { self.old.memory.heap.down ≡ false }
        ensures { Executes (create_applet bytes.now self.old) self.old.memory
            (after_exchange result self.new) }
    {
        if bytes.is_empty() {
            return Ok(StatusResponse::of_status(StatusWord::WRONG_LENGTH));
        }
        self.memory.start(&[]);
        let ending = create(self.budget, bytes, &mut self.memory, self.linked.get())?;
        Ok(StatusResponse::of_status(status_of(ending)))
    }
}
