//! Runs: this many steps at most, among which an attack may come.
ghost use Rattle.std.specs.Prelude.{◌≡◌, ◌<◌, ◌≤◌, ◌+◌, ◌^◌, Option, Some, None, false, length};
ghost use Rattle.jc_memory.specs.Programs.{Executes};
ghost use Rattle.jc_heap.specs.Completions.{after_step};
ghost use Rattle.jc_interp.specs.declared.attacks.Attack.{Attack};
ghost use Rattle.jc_interp.specs.Attacks.{IsAway, later_attack};
ghost use Rattle.jc_interp.specs.Run.{IsPartOfRun, run_methods, run_of, run_ad_hoc};

use crate::attacks::{Attack, Budget, strike};
use crate::explain::{note_budget, note_cut, note_end, note_step};
use crate::frames_only::run_in_frames;
use crate::step::{code_of, finish};
use jc_frames::{CodeFault, Frames, Origin, Outcome};
use jc_linker::linked::Linked;
use jc_memory::Memory;
use jc_words::{StoreDown, WordStore};
use jc_world::StepExit;

// Carries out this many instructions of a run, after which this many more may follow: how many are left of all, and how the
// run ended; `None` where it has not ended. No attack comes among them.
#[inline(never)]
fn run_part<S: WordStore>(
    lent: &[u8],
    budget: u32,
    frames: &mut Frames,
    memory: &mut Memory<S>,
    linked: &Linked,
    later: u32,
) -> Result<Option<(u32, Outcome)>, StoreDown>
    requires up { memory.old.heap.down ≡ false }
    requires short { length lent.now < 2 ^ 16 }
    requires counted { budget + later < 2 ^ 32 }
    ensures { (attack : Option Attack) → IsAway attack (budget + later) later
        → IsPartOfRun result attack (budget + later) attack later lent.now linked.now frames.old
        memory.old frames.new memory.new }
{
    let mut left = budget;
    let mut number = frames.origin().package_number;
    let mut code = code_of(lent, number, linked);
    while let Some((rest, pause)) = run_in_frames::<S, S>(code, left, frames, memory, linked) {
        left = rest;
        match finish(&pause, code, frames, memory, linked) {
            Ok(()) => {}
            Err(StepExit::End(outcome)) => {
                let left = left + later;
                if memory.notes().are_kept() {
                    note_end(&outcome, left, code, pause.place, frames, memory, linked);
                }
                return Ok(Some((left, outcome)));
            }
            Err(StepExit::Throw(_)) => return Ok(Some((left + later, Outcome::Fault))),
            Err(StepExit::Down) => {
                note_cut(pause.place, frames, memory);
                return Err(StoreDown);
            }
        }
        if frames.origin().package_number != number {
            number = frames.origin().package_number;
            code = code_of(lent, number, linked);
        }
    }
    Ok(None)
}

// The same, where each instruction is noted before it is carried out.
#[cold]
#[inline(never)]
fn run_noted<S: WordStore>(
    lent: &[u8],
    budget: u32,
    frames: &mut Frames,
    memory: &mut Memory<S>,
    linked: &Linked,
    later: u32,
) -> Result<Option<(u32, Outcome)>, StoreDown>
    requires up { memory.old.heap.down ≡ false }
    requires short { length lent.now < 2 ^ 16 }
    requires counted { budget + later < 2 ^ 32 }
    ensures { (attack : Option Attack) → IsAway attack (budget + later) later
        → IsPartOfRun result attack (budget + later) attack later lent.now linked.now frames.old
        memory.old frames.new memory.new }
{
    for turns in 0..budget {
        note_step(frames, memory.notes());
        let after = budget - (turns + 1) + later;
        if let Some(end) = run_part(lent, 1, frames, memory, linked, after)? {
            return Ok(Some(end));
        }
    }
    Ok(None)
}

// The same, where each instruction is noted before where somebody asks for it.
#[inline(always)]
fn run_whole<S: WordStore>(
    lent: &[u8],
    budget: u32,
    frames: &mut Frames,
    memory: &mut Memory<S>,
    linked: &Linked,
    later: u32,
) -> Result<Option<(u32, Outcome)>, StoreDown>
    requires up { memory.old.heap.down ≡ false }
    requires short { length lent.now < 2 ^ 16 }
    requires counted { budget + later < 2 ^ 32 }
    ensures { (attack : Option Attack) → IsAway attack (budget + later) later
        → IsPartOfRun result attack (budget + later) attack later lent.now linked.now frames.old
        memory.old frames.new memory.new }
{
    if memory.notes().keep_steps() {
        return run_noted(lent, budget, frames, memory, linked, later);
    }
    run_part(lent, budget, frames, memory, linked, later)
}

// Carries out a run of this many instructions up to the first fault of an attack, and the fault: how many are left and how the run
// ended; `None` where it has not ended, and goes on with the later fault alone.
fn run_to_fault<S: WordStore>(
    lent: &[u8],
    budget: u32,
    attack: Attack,
    frames: &mut Frames,
    memory: &mut Memory<S>,
    linked: &Linked,
) -> Result<Option<(u32, Outcome)>, StoreDown>
    requires up { memory.old.heap.down ≡ false }
    requires short { length lent.now < 2 ^ 16 }
    requires comes { 0 < attack.left }
    requires within { attack.left ≤ budget }
    ensures { IsPartOfRun result (Some attack) budget (later_attack attack) attack.left lent.now
        linked.now frames.old memory.old frames.new memory.new }
{
    let before = budget - attack.left;
    if let Some(end) = run_whole(lent, before, frames, memory, linked, attack.left)? {
        return Ok(Some(end));
    }
    let place = frames.place();
    let code = code_of(lent, frames.origin().package_number, linked);
    match strike(attack.model, code, frames) {
        Ok(()) => Ok(None),
        Err(CodeFault) => {
            let left = attack.left - 1;
            if memory.notes().are_kept() {
                note_end(&Outcome::Fault, left, code, place, frames, memory, linked);
            }
            Ok(Some((left, Outcome::Fault)))
        }
    }
}

// Carries out a run within a budget, from each fault of its attack to the next; `None` where it has not ended then.
#[cold]
#[inline(never)]
fn run_attacked<S: WordStore>(
    lent: &[u8],
    budget: Budget,
    frames: &mut Frames,
    memory: &mut Memory<S>,
    linked: &Linked,
) -> Result<Option<(u32, Outcome)>, StoreDown>
    requires up { memory.old.heap.down ≡ false }
    requires short { length lent.now < 2 ^ 16 }
    ensures { IsPartOfRun result budget.attack budget.left None 0 lent.now linked.now frames.old
        memory.old frames.new memory.new }
{
    let mut left = budget.left;
    let mut faults = budget.attack;
    while let Some(attack) = faults {
        if 0 < attack.left && attack.left <= left {
            if let Some(end) = run_to_fault(lent, left, attack, frames, memory, linked)? {
                return Ok(Some(end));
            }
            left = attack.left;
        }
        faults = attack.later_attack();
    }
    run_whole(lent, left, frames, memory, linked, 0)
}

// Carries out a run within a budget; `None` where it has not ended then.
#[inline(always)]
fn run_budget<S: WordStore>(
    lent: &[u8],
    budget: &Budget,
    frames: &mut Frames,
    memory: &mut Memory<S>,
    linked: &Linked,
) -> Result<Option<(u32, Outcome)>, StoreDown>
    requires up { memory.old.heap.down ≡ false }
    requires short { length lent.now < 2 ^ 16 }
    ensures { IsPartOfRun result budget.now.attack budget.now.left None 0 lent.now linked.now
        frames.old memory.old frames.new memory.new }
{
    match budget.attack {
        None => run_whole(lent, budget.left, frames, memory, linked, 0),
        Some(_) => run_attacked(lent, *budget, frames, memory, linked),
    }
}

/// Carries out at most this many instructions, with each fault of an attack before one of them, if one is planned: how many are left, and how
/// the run ended. One that has not ended then is a code fault. Code of no package, in frames with the package number 0, is the one that is
/// lent: it has no fields, arrays, objects and methods.
#[inline(always)]
pub fn run_of<S: WordStore>(
    lent: &[u8],
    budget: &Budget,
    frames: &mut Frames,
    memory: &mut Memory<S>,
    linked: &Linked,
) -> Result<(u32, Outcome), StoreDown>
    requires up { memory.old.heap.down ≡ false }
    requires short { length lent.now < 2 ^ 16 }
    ensures { Executes (run_of budget.now.attack budget.now.left lent.now linked.now frames.old memory.old)
        memory.old (after_step result memory.new) }
{
    memory.notes().forget();
    match run_budget(lent, budget, frames, memory, linked)? {
        Some(end) => Ok(end),
        None => {
            note_budget(frames, memory);
            Ok((0, Outcome::Fault))
        }
    }
}

/// The same for methods of packages.
#[inline(always)]
pub fn run_methods<S: WordStore>(
    budget: &Budget,
    frames: &mut Frames,
    memory: &mut Memory<S>,
    linked: &Linked,
) -> Result<(u32, Outcome), StoreDown>
    requires up { memory.old.heap.down ≡ false }
    ensures { Executes (run_methods budget.now linked.now frames.old memory.old) memory.old
        (after_step result memory.new) }
{
    run_of(&[], budget, frames, memory, linked)
}

/// Runs code that was lent from its first byte on, with a stack of at most `max_stack` cells, which is
/// empty, and this many locals, which are short 0: how many instructions are left, and how the run ended.
pub fn run_ad_hoc<S: WordStore>(
    max_stack: u8,
    locals: u8,
    code: &[u8],
    budget: Budget,
    memory: &mut Memory<S>,
    linked: &Linked,
) -> Result<(u32, Outcome), StoreDown>
    requires up { memory.old.heap.down ≡ false }
    requires short { length code.now < 2 ^ 16 }
    ensures { Executes (run_ad_hoc max_stack locals code.now budget linked.now memory.old)
        memory.old (after_step result memory.new) }
{
    let no_package = Origin {
        package_number: 0,
        method: 0,
    };
    let mut frames = Frames::empty();
    frames.begin(&[], locals, max_stack, 0, no_package);
    run_of(code, &budget, &mut frames, memory, linked)
}
