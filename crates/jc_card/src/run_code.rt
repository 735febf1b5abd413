//! The manager's command "run code" (80 10): P1 is the stack's limit, P2 the number of locals, and the
//! data are the code of a method without arguments.
ghost use Rattle.std.specs.Prelude.{◌≡◌, ◌<◌, false, length};
ghost use Rattle.jc_memory.specs.Programs.{Executes};
ghost use Rattle.jc_card.specs.Answers.{after_exchange, answer_of, run_code};

use crate::card::Card;
use crate::response::StatusResponse;
use crate::status_word::StatusWord;
use jc_dispatch::ad_hoc_code;
use jc_frames::Outcome;
use jc_words::{StoreDown, WordStore};

// How code answers that ended so.
fn answer_of(outcome: Outcome) -> StatusResponse
    ensures { result ≡ answer_of outcome }
{
    match outcome {
        Outcome::Short(value) => StatusResponse::new(&value.to_be_bytes(), StatusWord::NO_ERROR),
        Outcome::Void => StatusResponse::of_status(StatusWord::NO_ERROR),
        _ => StatusResponse::of_status(StatusWord::UNKNOWN),
    }
}

impl<S: WordStore> Card<S> {
    /// Command 80 10 run code: runs the data as code, with P1 cells of stack and P2 locals.
    #[tactic(auto, unfolding(crate::specs::Answers::run_code), using(jc_memory::proofs::ProgramLemmas::in_two_steps))]
    pub(crate) fn run_code(
        &mut self,
        max_stack: u8,
        locals: u8,
        code: &[u8],
    ) -> Result<StatusResponse, StoreDown>
        requires up { self.old.memory.heap.down ≡ false }
        requires short { length code.now < 256 }
        ensures { Executes (run_code max_stack locals code.now self.old) self.old.memory
            (after_exchange result self.new) }
    {
        if code.is_empty() {
            return Ok(StatusResponse::of_status(StatusWord::WRONG_LENGTH));
        }
        let outcome = ad_hoc_code::run_command_code(
            self.budget,
            max_stack,
            locals,
            code,
            &mut self.memory,
            self.linked.get(),
        )?;
        Ok(answer_of(outcome))
    }
}
