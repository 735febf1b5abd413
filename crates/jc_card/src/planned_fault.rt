//! Faults that are planned for the commands of a session.
ghost use Rattle.std.specs.Prelude.{◌≡◌, ◌+◌, ◌-◌};
ghost use Rattle.jc_card.specs.PlannedFault.{attack_of, instructions_before, later_of};
ghost use Rattle.jc_card.specs.State.Power.{planned_card};

use crate::card::Card;
use jc_interp::attacks::{Attack, FaultModel, LaterFault};
use jc_words::WordStore;

/// A fault at an instruction of a command, which is counted from 0 over all code that the command carries out: it is skipped, it is a
/// conditional branch that goes the other way, or the value that it leaves on top of the stack becomes 0, a reference null. A second fault may
/// come after it.
#[derive(Clone, Copy)]
pub struct PlannedFault {
    pub instruction: u32,
    pub model: FaultModel,
    pub second: Option<SecondFault>,
}

/// A second fault of a command, at an instruction that comes after the first fault: 1 is the next one, and 0 is taken as 1.
#[derive(Clone, Copy)]
pub struct SecondFault {
    pub number: u32,
    pub model: FaultModel,
}

impl PlannedFault {
    /// The attack of a command that may carry out this many instructions. One whose instruction lies past them never comes.
    pub const fn attack(self, budget: u32) -> Attack
        ensures { result ≡ attack_of budget self }
    {
        Attack {
            left: left_after(budget, self.model, self.instruction),
            model: self.model,
            later: match self.second {
                None => None,
                Some(second) => Some(second.later_fault()),
            },
        }
    }
}

impl SecondFault {
    // The fault, after how many instructions it comes.
    const fn later_fault(self) -> LaterFault
        ensures { result ≡ later_of self }
    {
        let before = self.number.saturating_sub(1);
        LaterFault {
            after: match self.model {
                FaultModel::Skip | FaultModel::Turn => before,
                FaultModel::Zero => before + 1,
            },
            model: self.model,
        }
    }
}

impl<S: WordStore> Card<S> {
    /// From now on this fault comes in each command, or none.
    pub fn plan_fault(&mut self, fault: Option<PlannedFault>)
        ensures { self.new ≡ planned_card fault self.old }
    {
        match fault {
            None => self.plan(None),
            Some(fault) => {
                let attack = fault.attack(self.budget());
                self.plan(Some(attack));
            }
        }
    }
}

// How many of a command's instructions are left as the fault at the one with this number comes.
const fn left_after(budget: u32, model: FaultModel, instruction: u32) -> u32
    ensures { result ≡ budget - instructions_before model instruction }
{
    match model {
        FaultModel::Skip | FaultModel::Turn => budget.saturating_sub(instruction),
        FaultModel::Zero => budget.saturating_sub(instruction).saturating_sub(1),
    }
}
