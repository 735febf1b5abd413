//! Code that belongs to no package and comes with a command.
ghost use Rattle.std.specs.Prelude.{OnOk, ◌≡◌, ◌<◌, ◌^◌, false, length};
ghost use Rattle.jc_memory.specs.Programs.{Executes};
ghost use Rattle.jc_heap.specs.Completions.{after_step};
ghost use Rattle.jc_dispatch.specs.AdHocCode.{ad_hoc_run};

use crate::closing::close;
use jc_frames::Outcome;
use jc_interp::attacks::Budget;
use jc_interp::run;
use jc_linker::linked::Linked;
use jc_memory::{Memory, Phase};
use jc_words::{StoreDown, WordStore};

/// Runs such code, with a stack of at most `max_stack` cells and this many locals, and ends what it leaves
/// open: how it ended.
#[tactic(auto, unfolding(crate::specs::AdHocCode::ad_hoc_run), using(jc_memory::proofs::ProgramLemmas::in_two_steps))]
pub fn run_command_code<S: WordStore>(
    budget: Budget,
    max_stack: u8,
    locals: u8,
    code: &[u8],
    memory: &mut Memory<S>,
    linked: &Linked,
) -> Result<Outcome, StoreDown>
    requires up { memory.old.heap.down ≡ false }
    requires short { length code.now < 2 ^ 16 }
    ensures does { Executes (ad_hoc_run budget max_stack locals code.now linked.now memory.old)
        memory.old (after_step result memory.new) }
    ensures outside { OnOk result (memory.new.heap.begun ≡ false) }
{
    memory.notes().phase(Phase::RunCode);
    let (_, outcome) = run::run_ad_hoc(max_stack, locals, code, budget, memory, linked)?;
    close(memory)?;
    Ok(outcome)
}
