// Enter and withdraw. Document 01, "What each step does": "an entry either way".
#![tactic(auto)]

ghost use Rattle.std.specs.Prelude.{◌≡◌, OnErr};
ghost use Rattle.steps.specs.Promises.{entry_numbered, Enters, Withdraws};
ghost use Rattle.entries.specs.Decisions.{answered};

use decision::decide;
use store::refusal::Refusal;
use store::{Answer, Copy, Outcome, Store, columns};

mod decision; // decision.rt: whether an entry is accepted, and where its copy stands

// An entry of any kind, by the number that its column gets, where the store lies: decided first, then each column is written there. BADSTORE, then CLOCK before FULL, and none of
// them writes anything.
fn entry_in(store: &mut Store, kind: u32, key: u32, value: u32) -> Result<Answer, Refusal>
    ensures outcome { record { answer = answered result; store = store.new } ≡ entry_numbered kind store.old key value }
    ensures as_it_was { OnErr result (store.new ≡ store.old) }
{
    rules::check(store)?;
    if Store::LAST_CLOCK <= store.clock {
        return Err(Refusal::Clock);
    }
    let capacity = plan_table::rows_of(store.plan).capacity(0);
    let place = decide(store, capacity, key).ok_or(Refusal::Full)?;
    let stamp = store.clock;
    // The four columns are fields of the C interface's struct.
    columns::open(&mut store.keys, place.at, place.end, key);
    columns::open(&mut store.kinds, place.at, place.end, kind);
    columns::open(&mut store.values, place.at, place.end, value);
    columns::open(&mut store.stamps, place.at, place.end, stamp);
    store.counts[0] = place.count;
    store.clock = stamp + 1;
    Ok(Answer::of(Answer::DONE, stamp as u64, 0, 0, 0))
}

// Enter where the store lies: the line gets a result. A refusal leaves the store as it was.
pub fn enter_in(store: &mut Store, key: u32, value: u32) -> Answer
    ensures { Enters store.old key value (record { answer = result; store = store.new }) }
{
    entry_in(store, Copy::RESULT, key, value).unwrap_or_else(Answer::from)
}

// Withdraw where the store lies: the line gets a withdrawn copy, which holds 0. A refusal leaves the store as it was.
pub fn withdraw_in(store: &mut Store, key: u32) -> Answer
    ensures { Withdraws store.old key (record { answer = result; store = store.new }) }
{
    entry_in(store, Copy::WITHDRAWN, key, 0).unwrap_or_else(Answer::from)
}

// Enter: the line gets a result. (A public call beside the other; docs/PROMISES.md names both.)
pub fn enter(mut store: Store, key: u32, value: u32) -> Outcome
    ensures { Enters store key value result }
{
    let answer = enter_in(&mut store, key, value);
    Outcome { answer, store }
}

// Withdraw: the line gets a withdrawn copy, which holds 0. (A public call beside the other; docs/PROMISES.md names both.)
pub fn withdraw(mut store: Store, key: u32) -> Outcome
    ensures { Withdraws store key result }
{
    let answer = withdraw_in(&mut store, key);
    Outcome { answer, store }
}
