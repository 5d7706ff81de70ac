// Searches: start, step, cancel, on a store that is lent or given. Document 01, "What each step does".
// They alter nothing of a store but its slots.
#![tactic(auto)]

ghost use Rattle.steps.specs.Promises.{Starts, Steps, Cancels};

use store::{Answer, Outcome, Store};

// Start a search for a key in a lent store: its slot. BADSTORE, or SLOTS where all run.
pub fn start_in(store: &mut Store, key: u32) -> Answer
    ensures { Starts store.old key (record { answer = result; store = store.new }) }
{
    slots::start(store, key).unwrap_or_else(Answer::from)
}

// One step of the search in a slot: its end, or GOING. BADSTORE, SLOT, or IDLE where none runs.
pub fn step_in(store: &mut Store, slot: u32) -> Answer
    ensures { Steps store.old slot (record { answer = result; store = store.new }) }
{
    slots::step(store, slot).unwrap_or_else(Answer::from)
}

// End the search in a slot without a result. BADSTORE, SLOT, or IDLE where none runs.
pub fn cancel_in(store: &mut Store, slot: u32) -> Answer
    ensures { Cancels store.old slot (record { answer = result; store = store.new }) }
{
    slots::cancel(store, slot).unwrap_or_else(Answer::from)
}

// The same of a store by value (public calls beside the others; docs/PROMISES.md names both): start,
pub fn start(mut store: Store, key: u32) -> Outcome
    ensures { Starts store key result }
{
    let answer = start_in(&mut store, key);
    Outcome { answer, store }
}

// step
pub fn step(mut store: Store, slot: u32) -> Outcome
    ensures { Steps store slot result }
{
    let answer = step_in(&mut store, slot);
    Outcome { answer, store }
}

// and cancel.
pub fn cancel(mut store: Store, slot: u32) -> Outcome
    ensures { Cancels store slot result }
{
    let answer = cancel_in(&mut store, slot);
    Outcome { answer, store }
}
