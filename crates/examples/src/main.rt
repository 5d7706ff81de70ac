// Further examples over the public calls on stores: each line is the call's number and its answer. Document 01, "What the promises must pin".
#![tactic(auto)]

use std::io;
use std::io::Write;
use store::{Answer, Outcome, Store};

// The calls' numbers; the others are examples_bytes'.
#[derive(Clone, Copy)]
enum Call {
    Fresh = 1,
    Enter,
    Withdraw,
    Carry,
    Start,
    Step,
    Cancel,
    Look,
}

// The last clock, which is the highest key too; and the lowest key of plan 2's edge 0 to 2.
const LAST: u32 = Store::LAST_CLOCK;

const HIGH: u32 = 1 << 31;

// One line.
fn print(out: &mut impl Write, call: Call, answer: Answer) -> io::Result<()> {
    lines::print(out, call as u32, answer)
}

// One line, and the store after the call.
fn show(out: &mut impl Write, call: Call, outcome: Outcome) -> io::Result<Store> {
    print(out, call, outcome.answer)?;
    Ok(outcome.store)
}

// The stores that the examples begin with. Those that examples_bytes has too are made anew there: a library of them would owe each a contract of its own.

// A store of a plan, nothing held.
fn fresh(plan: u32) -> Store {
    Store::fresh(plan).store
}

// The store at another clock.
fn at_clock(mut store: Store, clock: u32) -> Store {
    store.clock = clock;
    store
}

// A store that breaks a store rule: clock 0.
fn broken() -> Store {
    at_clock(fresh(1), 0)
}

// The store after a result was entered.
fn with_result(store: Store, key: u32, value: u32) -> Store {
    entries::enter(store, key, value).store
}

// The store after the root's copies were carried down its first edge.
fn carried_down(store: Store) -> Store {
    carries::carry(store, 0, 0).store
}

// The store after a search was started.
fn searching(store: Store, key: u32) -> Store {
    searches::start(store, key).store
}

// The store after eight entries: the keys that differ from the first in the last three bits alone. A root of plan 1 that was empty is full.
fn with_eight(mut store: Store, first: u32) -> Store {
    for bits in 0..8 {
        store = with_result(store, first ^ bits, 0);
    }
    store
}

// Plan 1 with its root full.
fn full() -> Store {
    with_eight(fresh(1), 0)
}

// Plan 1 with keys 0 to 15 at node 1, which has no free place.
fn two_carries() -> Store {
    carried_down(with_eight(carried_down(full()), 8))
}

// Plan 1 with keys 8 to 23 at node 1, and key 0 at the root.
fn one_early() -> Store {
    let eight = carried_down(with_eight(fresh(1), 8));
    with_result(carried_down(with_eight(eight, 16)), 0, 1)
}

// Plan 1 with a result of key 33 at node 1.
fn one_below() -> Store {
    carried_down(with_result(fresh(1), 33, 180))
}

// The store of document 01's schedule: key 33 holds 210 at node 1.
fn worked() -> Store {
    carried_down(with_result(one_below(), 33, 210))
}

// A result at node 1, and above it the line withdrawn.
fn withdrawn_above() -> Store {
    entries::withdraw(one_below(), 33).store
}

// Plan 1 with a search in each slot, all of one key.
fn busy() -> Store {
    let mut store = fresh(1);
    for _ in 0..Store::SLOTS {
        store = searching(store, 33);
    }
    store
}

// Fresh: each plan, and the numbers beside them.
fn fresh_stores(out: &mut impl Write) -> io::Result<()> {
    for plan in 0..=4 {
        print(out, Call::Fresh, Store::fresh(plan).answer)?;
    }
    Ok(())
}

// Enter: DONE twice, BADSTORE, DONE at the last clock but one, CLOCK, FULL, DONE in a full root that has the key, CLOCK before FULL.
fn entered(out: &mut impl Write) -> io::Result<()> {
    let mut enter = |store, key, value| show(out, Call::Enter, entries::enter(store, key, value));
    let first = enter(fresh(1), 33, 180)?;
    enter(first, 33, 0)?;
    enter(broken(), 33, 180)?;
    let last = enter(at_clock(fresh(1), LAST - 1), 33, 180)?;
    enter(last, 33, 180)?;
    enter(full(), 8, 1)?;
    enter(full(), 7, 1)?;
    enter(at_clock(full(), LAST), 8, 1)?;
    Ok(())
}

// Withdraw: DONE twice, BADSTORE, CLOCK, FULL, DONE in a full root that has the key.
fn withdrawn(out: &mut impl Write) -> io::Result<()> {
    let mut withdraw = |store, key| show(out, Call::Withdraw, entries::withdraw(store, key));
    let first = withdraw(fresh(1), 33)?;
    withdraw(first, LAST)?;
    withdraw(broken(), 33)?;
    withdraw(at_clock(fresh(1), LAST), 33)?;
    withdraw(full(), 8)?;
    withdraw(full(), 7)?;
    Ok(())
}

// Carry: nothing to move; eight carried; one over another, in a target with room and in a full one; a new key left there.
fn carried(out: &mut impl Write) -> io::Result<()> {
    let mut carry = |store| show(out, Call::Carry, carries::carry(store, 0, 0));
    carry(fresh(1))?;
    let eight = carry(full())?;
    carry(with_result(eight, 7, 1))?;
    let replacing = with_result(two_carries(), 15, 1);
    carry(replacing)?;
    carry(with_result(replacing, LAST, 1))?;
    Ok(())
}

// Carry: nothing moved, one left; a later copy that replaces one though an earlier had no room; plan 2's edges by key.
fn carried_by_key(out: &mut impl Write) -> io::Result<()> {
    let early = one_early();
    let high = with_result(fresh(2), HIGH, 1);
    for (store, edge) in [
        (early, 0),
        (with_result(early, 16, 1), 0),
        (high, 0),
        (high, 1),
    ] {
        show(out, Call::Carry, carries::carry(store, 0, edge))?;
    }
    Ok(())
}

// Carry: BADSTORE, NODE, EDGE, NODE before EDGE.
fn not_carried(out: &mut impl Write) -> io::Result<()> {
    for (store, node, edge) in [
        (broken(), 8, 4),
        (fresh(1), 4, 0),
        (fresh(1), 0, 1),
        (fresh(1), 3, 0),
        (fresh(2), 3, 4),
    ] {
        show(out, Call::Carry, carries::carry(store, node, edge))?;
    }
    Ok(())
}

// Start: the lowest idle slot, SLOTS, BADSTORE.
fn started(out: &mut impl Write) -> io::Result<()> {
    let mut start = |store| show(out, Call::Start, searches::start(store, 33));
    let first = start(fresh(1))?;
    start(first)?;
    start(busy())?;
    start(searches::cancel(busy(), 5).store)?;
    start(broken())?;
    Ok(())
}

// Step: GOING, never, IDLE, SLOT, BADSTORE; plan 2's other way.
fn stepped(out: &mut impl Write) -> io::Result<()> {
    let mut step = |store, slot| show(out, Call::Step, searches::step(store, slot));
    let first = step(searching(fresh(2), 33), 0)?;
    let second = step(first, 0)?;
    step(second, 0)?;
    step(second, 8)?;
    step(broken(), 8)?;
    step(searching(fresh(2), HIGH), 0)?;
    Ok(())
}

// Step: a withdrawn copy ends the search though a result lies below it; 0 is a real result.
fn stepped_to_a_copy(out: &mut impl Write) -> io::Result<()> {
    for store in [withdrawn_above(), with_result(fresh(1), 33, 0)] {
        show(out, Call::Step, searches::step(searching(store, 33), 0))?;
    }
    Ok(())
}

// Cancel: DONE, IDLE, SLOT, BADSTORE.
fn cancelled(out: &mut impl Write) -> io::Result<()> {
    let mut cancel = |store, slot| show(out, Call::Cancel, searches::cancel(store, slot));
    let first = cancel(searching(fresh(1), 33), 0)?;
    cancel(first, 0)?;
    cancel(first, 7)?;
    cancel(first, 8)?;
    cancel(broken(), 8)?;
    Ok(())
}

// Look: never by each plan's path, withdrawn, a result, the result 0, BADSTORE.
fn looked(out: &mut impl Write) -> io::Result<()> {
    for store in [
        fresh(1),
        fresh(2),
        fresh(3),
        withdrawn_above(),
        worked(),
        with_result(fresh(1), 33, 0),
        broken(),
    ] {
        print(out, Call::Look, looks::look(store, 33))?;
    }
    Ok(())
}

// The examples, in the order of the calls' numbers.
fn main(rt: HostRuntime) -> io::Result<()> {
    let mut out = rt.stdout();
    fresh_stores(&mut out)?;
    entered(&mut out)?;
    withdrawn(&mut out)?;
    carried(&mut out)?;
    carried_by_key(&mut out)?;
    not_carried(&mut out)?;
    started(&mut out)?;
    stepped(&mut out)?;
    stepped_to_a_copy(&mut out)?;
    cancelled(&mut out)?;
    looked(&mut out)
}
