//! Sessions.
ghost use Rattle.std.specs.Prelude.{◌≡◌, ◌<◌, length, Err, IfErr, IfOk};
ghost use Rattle.jc_words.specs.Refusals.{IsWithinFuse};
ghost use Rattle.jc_card.specs.Dispatching.{usual_budget};
ghost use Rattle.jc_card.specs.Session.Requests.{Reset, reply_of, request_of};
ghost use Rattle.jc_card.specs.Session.Starting.{FailsToReset, FailsToStart, Starts};
ghost use Rattle.jc_card.specs.Session.Serving.{AnswersCommand, AnswersReset, Serves};
ghost use Rattle.jc_card.specs.Session.{SessionEnds, replies_of, requests_of, IsWholeSession, RefusesNone};
ghost use Rattle.jc_card.specs.State.{IsGood, answer_of_power_up, kept_power, power_of};

use crate::card::USUAL_BUDGET;
use crate::event::{Answer, Event};
use crate::power_up::PowerFault;
use crate::response::Response;
use crate::state::SessionState;
use jc_words::WordStore;
use std::alloc::Global;
use thiserror::Error;

/// Why a session was not carried out to its end.
#[derive(Clone, Copy, Debug, Error, Drop)]
pub enum SessionFault {
    /// There is no memory for the answers, of which there is one at least. Nothing was done.
    #[error("there is no memory for the answers")]
    NoMemory,
    /// The card does not power up, at the beginning or at a reset, and not because the store refused a write.
    #[error("the card does not power up")]
    PowerFault(PowerFault),
}

/// Powers a card up over a store, serves these events, and gives the store back, with an answer to each event.
/// Where the store refuses a write, the card is down until a reset.
pub fn session<S: WordStore>(
    alloc: Global,
    store: S,
    events: &[Event],
) -> (S, Result<Vec<Answer>, SessionFault>)
    ensures session { SessionEnds usual_budget (replies_of result.1)
        (record { words = S.words store; down = S.down store; passed = S.passed store; refusals = S.refusals store })
        (requests_of events.now)
        (record {
          words = S.words result.0;
          down = S.down result.0;
          passed = S.passed result.0;
          refusals = S.refusals result.0;
        }) }
    ensures memory { result.1 ≡ Err SessionFault.NoMemory → 0 < length events.now }
    // Its fuse let no more writes pass than it was set to.
    ensures within { IsWithinFuse (S.passed result.0) (S.refusals result.0).fuse }
    // While the store refuses no write, the answers and the heap are those of a card that keeps whole copies of its heap.
    ensures whole { RefusesNone (S.refusals store).count (S.refusals result.0).count
        → IfOk (replies_of result.1) (λ replies.
        IsWholeSession usual_budget (record {
          words = S.words store;
          down = S.down store;
          passed = S.passed store;
          refusals = S.refusals store;
        }) (requests_of events.now) replies
        (record {
          words = S.words result.0;
          down = S.down result.0;
          passed = S.passed result.0;
          refusals = S.refusals result.0;
        })) }
{
    let Ok(room) = Vec::with_capacity(alloc, events.len()) else {
        let _within = store.passed_writes();
        return (store, Err(SessionFault::NoMemory));
    };
    let mut answers = room;
    let mut held = match start(alloc, store, USUAL_BUDGET) {
        Ok(held) => held,
        Err((fault, store)) => {
            let _within = store.passed_writes();
            return (store, Err(SessionFault::PowerFault(fault)));
        }
    };
    for event in events {
        match serve(alloc, held, event) {
            Ok((next, answer)) => {
                held = next;
                let Ok(()) = answers.push(answer) else {
                    let store = held.into_store();
                    let _within = store.passed_writes();
                    return (store, Err(SessionFault::NoMemory));
                };
            }
            Err((fault, store)) => {
                let _within = store.passed_writes();
                return (store, Err(SessionFault::PowerFault(fault)));
            }
        }
    }
    let store = held.into_store();
    let _within = store.passed_writes();
    (store, Ok(answers))
}

// Brings the power to a store and powers up, with a budget of instructions a command. A refused write leaves the card down;
// at any other fault the store comes back.
fn start<S: WordStore>(
    alloc: Global,
    mut store: S,
    budget: u32,
) -> Result<SessionState<S>, (PowerFault, S)>
    ensures good { IfOk result (λ held. IsGood S.words (power_of held)) }
    ensures powered { IfOk result (λ held. Starts budget
        (record { words = S.words store; down = S.down store; passed = S.passed store; refusals = S.refusals store })
        (kept_power S.words S.down S.passed S.refusals (power_of held))) }
    ensures fault { IfErr result (λ e. FailsToStart e.0
        (record { words = S.words store; down = S.down store; passed = S.passed store; refusals = S.refusals store })
        (record { words = S.words e.1; down = S.down e.1; passed = S.passed e.1; refusals = S.refusals e.1 })) }
{
    store.power_on();
    let (held, started) = SessionState::power_up(alloc, store, budget);
    match started {
        Ok(()) => Ok(held),
        Err(fault) => Err((fault, held.into_store())),
    }
}

// Serves an event. At a fault, which comes at a reset, the store comes back.
fn serve<S: WordStore>(
    alloc: Global,
    held: SessionState<S>,
    event: &Event,
) -> Result<(SessionState<S>, Answer), (PowerFault, S)>
    requires good { IsGood S.words (power_of held) }
    ensures good { IfOk result (λ r. IsGood S.words (power_of r.0)) }
    ensures served { IfOk result (λ r. Serves (kept_power S.words S.down S.passed S.refusals (power_of held))
        (request_of event.now) (reply_of r.1)
        (kept_power S.words S.down S.passed S.refusals (power_of r.0))) }
    ensures fault { IfErr result (λ e. (request_of event.now ≡ Reset)
        × FailsToReset e.0 (kept_power S.words S.down S.passed S.refusals (power_of held))
        (record { words = S.words e.1; down = S.down e.1; passed = S.passed e.1; refusals = S.refusals e.1 })) }
{
    match event {
        Event::Command(bytes) => Ok(carry_out(held, bytes)),
        Event::Reset => reset(alloc, held),
    }
}

// Carries a command out, where there is power. Where the store refuses a write, it is all that is left.
fn carry_out<S: WordStore>(mut held: SessionState<S>, command: &[u8]) -> (SessionState<S>, Answer)
    requires good { IsGood S.words (power_of held) }
    ensures good { IsGood S.words (power_of result.0) }
    ensures answer { AnswersCommand (kept_power S.words S.down S.passed S.refusals (power_of held))
        command.now (reply_of result.1)
        (kept_power S.words S.down S.passed S.refusals (power_of result.0)) }
{
    let budget = held.budget();
    let mut response = Response::empty();
    if held.exchange(command, &mut response) {
        return (held, Answer::Response(response));
    }
    let store = held.into_store();
    (SessionState::Store(store, budget), Answer::Down)
}

// Takes the power away, brings it back and powers up. At a fault the store comes back, with its power on.
fn reset<S: WordStore>(
    alloc: Global,
    held: SessionState<S>,
) -> Result<(SessionState<S>, Answer), (PowerFault, S)>
    requires good { IsGood S.words (power_of held) }
    ensures good { IfOk result (λ r. IsGood S.words (power_of r.0)) }
    ensures reset { IfOk result (λ r. AnswersReset (kept_power S.words S.down S.passed S.refusals (power_of held))
        (reply_of r.1) (kept_power S.words S.down S.passed S.refusals (power_of r.0))) }
    ensures fault { IfErr result (λ e. FailsToReset e.0
        (kept_power S.words S.down S.passed S.refusals (power_of held))
        (record { words = S.words e.1; down = S.down e.1; passed = S.passed e.1; refusals = S.refusals e.1 })) }
{
    let budget = held.budget();
    let store = held.into_store();
    let held = start(alloc, store, budget)?;
    let answer = power_up_answer(&held);
    Ok((held, answer))
}

// Ready where the card is up, else down.
fn power_up_answer<S: WordStore>(held: &SessionState<S>) -> Answer
    ensures { reply_of result ≡ answer_of_power_up (power_of held.now) }
{
    match held {
        SessionState::Card(_) => Answer::Ready,
        SessionState::Store(_, _) => Answer::Down,
    }
}
