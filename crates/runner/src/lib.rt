// The runner: it does the record at a place of a lent list. Document 01, "Bytes": "The schedule is lent as a list of step records".
#![tactic(auto)]

ghost use Rattle.std.specs.Prelude.{◌≡◌};
ghost use Rattle.schedule.specs.Running.{unknown_outcome, record_outcome};
ghost use Rattle.schedule.specs.Promises.{Runs};

use schedule::Step;
use store::refusal::Refusal;
use store::{Answer, Outcome, Store};

// An unknown step: OP with its place, after BADSTORE.
#[tactic(auto, using(crate::proofs::RunWays::unknown_laws))]
fn unknown(store: &Store, place: usize) -> Answer
    ensures { record { answer = result; store = store.now } ≡ unknown_outcome store.now place }
{
    if rules::is_good(store) {
        Refusal::Op.with(place as u64)
    } else {
        Answer::from(Refusal::BadStore)
    }
}

// The step of a record, done in a lent store: each has its call, which ignores what it does not use. (A match on the numbers that C passes.)
#[tactic(auto, unfolding(schedule::specs::Running::record_outcome))]
pub fn do_in(store: &mut Store, step: Step, place: usize) -> Answer
    ensures { record { answer = result; store = store.new } ≡ record_outcome store.old step place }
{
    match step.number {
        Step::ENTER => entries::enter_in(store, step.x, step.y),
        Step::WITHDRAW => entries::withdraw_in(store, step.x),
        Step::CARRY => carries::carry_in(store, step.x, step.y),
        Step::START => searches::start_in(store, step.x),
        Step::STEP => searches::step_in(store, step.x),
        Step::CANCEL => searches::cancel_in(store, step.x),
        _ => unknown(store, place),
    }
}

// Does the record at a place; outside the list that is the record of zeros, whose step number is unknown.
#[tactic(auto, unfolding(schedule::specs::Running::run_outcome))]
pub fn run(mut store: Store, list: &[Step], place: usize) -> Outcome
    ensures { Runs store list.now place result }
{
    let step = list.get(place).copied().unwrap_or_default();
    let answer = do_in(&mut store, step, place);
    Outcome { answer, store }
}

// The same for whoever has the list by value. (A public call beside the other; docs/PROMISES.md names both.)
pub fn run_list(store: Store, list: [Step; Step::MOST], place: usize) -> Outcome
    ensures { Runs store list place result }
{
    run(store, &list, place)
}
