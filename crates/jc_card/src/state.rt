//! A card that is up, or the store of a card that is down: the machine of each session.
ghost use Rattle.std.specs.Prelude.{◌≡◌, IfErr, OnOk};
ghost use Rattle.std.specs.Bool.{OnTrue};
ghost use Rattle.jc_card.specs.PowerUp.Outcome.{PowerUpFails};
ghost use Rattle.jc_card.specs.State.Power.{Off, budget_of, planned};
ghost use Rattle.jc_card.specs.State.{AnswersInPlace, IsHeldIn, IsUp, PowersUpTo, power_of, with_fuse};

use crate::card::Card;
use crate::planned_fault::PlannedFault;
use crate::power_up::PowerFault;
use crate::response::Response;
use jc_words::{FuseStore, StoreDown, WordStore};
use std::alloc::Global;

/// What a session holds.
#[derive(Drop)]
pub enum SessionState<S: WordStore> {
    /// A card that is powered up.
    Card(Card<S>),
    /// The store of a card that is down, and the budget that the card has when it is up again.
    Store(S, u32),
}

impl<S: WordStore> SessionState<S> {
    /// Powers up over a store, with a budget of instructions a command. A refused write leaves the store; any other fault is
    /// shown too.
    pub fn power_up(
        alloc: Global,
        store: S,
        budget: u32,
    ) -> (SessionState<S>, Result<(), PowerFault>)
        ensures up { IsUp (power_of result.0) }
        ensures powered { OnOk result.1 (PowersUpTo S.words S.down S.passed S.refusals store budget
            (power_of result.0)) }
        ensures fault { IfErr result.1 (λ fault. (fault ≡ PowerFault.StoreDown → ⊥) × (after : S)
            × PowerUpFails S.words S.down S.passed S.refusals store fault after
            × (power_of result.0 ≡ Off budget after)) }
    {
        match Card::power_up(alloc, store, budget) {
            Ok(card) => (SessionState::Card(card), Ok(())),
            Err((PowerFault::StoreDown, store)) => (SessionState::Store(store, budget), Ok(())),
            Err((fault, store)) => (SessionState::Store(store, budget), Err(fault)),
        }
    }

    /// The budget that the card has, or has when it is up again.
    pub fn budget(&self) -> u32
        ensures { result ≡ budget_of (power_of self.now) }
    {
        match self {
            SessionState::Card(card) => card.budget(),
            SessionState::Store(_, budget) => *budget,
        }
    }

    /// The store of the card, without power.
    pub fn into_store(self) -> S
        ensures { IsHeldIn S.words S.down S.passed S.refusals (power_of self) result }
    {
        match self {
            SessionState::Card(card) => card.into_store(),
            SessionState::Store(store, _) => store,
        }
    }

    /// Carries a command out: whether the card's response was written. It was not where there is no card, or where its store
    /// refuses a write, which then is all that is left of it.
    pub fn exchange(&mut self, command: &[u8], response: &mut Response) -> bool
        requires up { IsUp (power_of self.old) }
        ensures up { OnTrue result (IsUp (power_of self.new)) }
        ensures answer { AnswersInPlace result (power_of self.old) command.now response.new
            (power_of self.new) }
    {
        match self {
            SessionState::Card(card) => match card.exchange(command, response) {
                Ok(()) => true,
                Err(StoreDown) => false,
            },
            SessionState::Store(_, _) => false,
        }
    }

    /// From now on this fault comes in each command of a card that is up, or none.
    pub fn plan(&mut self, fault: Option<PlannedFault>)
        requires up { IsUp (power_of self.old) }
        ensures up { IsUp (power_of self.new) }
        ensures planned { power_of self.new ≡ planned fault (power_of self.old) }
    {
        match self {
            SessionState::Card(card) => card.plan_fault(fault),
            SessionState::Store(_, _) => {}
        }
    }
}

impl<S: WordStore> SessionState<FuseStore<S>> {
    /// Arms the store's fuse: `k` further writes pass, and the next is refused.
    pub fn arm(&mut self, k: u64)
        requires up { IsUp (power_of self.old) }
        ensures up { IsUp (power_of self.new) }
        ensures armed { power_of self.new ≡ with_fuse k (power_of self.old) }
    {
        match self {
            SessionState::Card(card) => card.arm(k),
            SessionState::Store(store, _) => store.arm(k),
        }
    }
}
