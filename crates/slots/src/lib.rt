// Start, step and cancel: what each does with one search slot of a store, or why it is refused. Document 01, "What each step does".
// A refusal leaves the store as it was. A slot's mark and an answer's number are numbers, not enums: the C interface has them in its structs.
#![tactic(auto)]

ghost use Rattle.std.specs.Prelude.{◌≡◌, ◌<◌, ◌≤◌, length, MatchOption, MatchResult};
ghost use Rattle.store.specs.State.{slot_count};
ghost use Rattle.steps.specs.Promises.{Starts, Steps, Cancels};
ghost use Rattle.steps.specs.Searches.{running, lowest_idle, start_step, cancel_step};
ghost use Rattle.slots.specs.Workers.{RunsAt, RestsAt, ChangesBy, Steppable, StepsBy, outcome_of};

use plan::rows::Rows;
use store::refusal::Refusal;
use store::{Answer, Slot, Store};

// A running search: its key, the node that it stands at, and the nodes visited.
fn search_at(key: u32, node: u32, visits: u32) -> Slot
    ensures { result ≡ running key node visits }
{
    Slot {
        running: Slot::RUNNING,
        key,
        node,
        visits,
    }
}

// The lowest idle slot, if not all run.
fn lowest_idle(slots: &[Slot; Store::SLOTS]) -> Option<usize>
    ensures { MatchOption result (slot_count ≤ lowest_idle slots.now) (λ i. (i ≡ lowest_idle slots.now) × (i < slot_count)) }
{
    slots.iter().position(|slot| slot.running == Slot::IDLE)
}

// The place of a slot in which a search runs. "SLOT: slot above 7"; "IDLE: slot not running".
fn running(slots: &[Slot; Store::SLOTS], slot: u32) -> Result<usize, Refusal>
    ensures long { length slots.now ≡ slot_count }
    ensures place { MatchResult result (RunsAt slots.now slot) (RestsAt slots.now slot) }
{
    let i = slot as usize;
    if Store::SLOTS <= i {
        Err(Refusal::Slot)
    } else if slots[i].running == Slot::IDLE {
        Err(Refusal::Idle)
    } else {
        Ok(i)
    }
}

// "The lowest idle slot takes the key, at the root, 0 visits." SLOTS where all run. Whatever else the store holds.
pub fn started(slots: &mut [Slot; Store::SLOTS], key: u32) -> Result<Answer, Refusal>
    ensures { ChangesBy (start_step key) slots.old result slots.new }
{
    let slot = lowest_idle(slots).ok_or(Refusal::Slots)?;
    slots[slot] = search_at(key, 0, 0);
    Ok(Answer::of(Answer::DONE, slot as u64, 0, 0, 0))
}

// "One node is visited" by the search in a slot. Found ends it; nothing sends it to the key's next node, or ends it as never entered.
// "Ending makes the slot idle." SLOT, or IDLE where none runs. By each plan that has the rows, whatever the clock.
pub fn stepped(store: &mut Store, rows: &Rows, slot: u32) -> Result<Answer, Refusal>
    requires { Steppable store.old }
    ensures { StepsBy rows.now store.old slot result store.new }
{
    let i = running(&store.slots, slot)?;
    let search = store.slots[i];
    let visits = search.visits + 1;
    let Some(copy) = store.look_in(search.node, search.key) else {
        let Some(to) = rows.next(search.node, search.key) else {
            store.slots[i] = Slot::idle();
            return Ok(looks::ended(None, visits));
        };
        store.slots[i] = search_at(search.key, to, visits);
        return Ok(Answer::of(Answer::GOING, to as u64, visits as u64, 0, 0));
    };
    store.slots[i] = Slot::idle();
    Ok(looks::ended(Some(copy), visits))
}

// "The slot becomes idle." SLOT, or IDLE where none runs. Whatever else the store holds.
pub fn cancelled(slots: &mut [Slot; Store::SLOTS], slot: u32) -> Result<Answer, Refusal>
    ensures { ChangesBy (cancel_step slot) slots.old result slots.new }
{
    let at = running(slots, slot)?;
    slots[at] = Slot::idle();
    Ok(Answer::bare(Answer::DONE))
}

// Of a store that is checked first: start. BADSTORE, or SLOTS where all run. (Start and cancel stay two: each has its own worker, and one over a closure
// would be no shorter.)
pub fn start(store: &mut Store, key: u32) -> Result<Answer, Refusal>
    ensures { Starts store.old key (outcome_of result store.new) }
{
    rules::check(store)?;
    started(&mut store.slots, key)
}

// Step. BADSTORE, SLOT, or IDLE where none runs.
pub fn step(store: &mut Store, slot: u32) -> Result<Answer, Refusal>
    ensures { Steps store.old slot (outcome_of result store.new) }
{
    rules::check(store)?;
    let rows = plan_table::rows_of(store.plan);
    stepped(store, rows, slot)
}

// Cancel. BADSTORE, SLOT, or IDLE where none runs.
pub fn cancel(store: &mut Store, slot: u32) -> Result<Answer, Refusal>
    ensures { Cancels store.old slot (outcome_of result store.new) }
{
    rules::check(store)?;
    cancelled(&mut store.slots, slot)
}
