// Further examples over the public calls on bytes: each line is the call's number and its answer. Document 01, "What the promises must pin".
#![tactic(auto)]

use schedule::Step;
use std::io;
use std::io::Write;
use store::{Answer, Store};

// The calls' numbers, of serve with an answer of 0 and the length of what came back; the others are examples'.
#[derive(Clone, Copy)]
enum Call {
    Save = 9,
    Load,
    Page,
    Serve,
    Decode,
    Run,
}

// The first number above "sample 0 to 134,217,727".
const NO_SAMPLE: u32 = 134217728;

// One line.
fn print(out: &mut impl Write, call: Call, answer: Answer) -> io::Result<()> {
    lines::print(out, call as u32, answer)
}

// The stores that the examples begin with. Those that examples has too are made anew there: a library of them would owe each a contract of its own.

// A store of a plan, nothing held.
fn fresh(plan: u32) -> Store {
    Store::fresh(plan).store
}

// The store at another clock.
fn at_clock(mut store: Store, clock: u32) -> Store {
    store.clock = clock;
    store
}

// A store that breaks a store rule: clock 0.
fn broken() -> Store {
    at_clock(fresh(1), 0)
}

// The store after a result was entered.
fn with_result(store: Store, key: u32, value: u32) -> Store {
    entries::enter(store, key, value).store
}

// Plan 1 with a result of key 33 at node 1.
fn one_below() -> Store {
    carries::carry(with_result(fresh(1), 33, 180), 0, 0).store
}

// The store of document 01's schedule: key 33 holds 210 at node 1.
fn worked() -> Store {
    carries::carry(with_result(one_below(), 33, 210), 0, 0).store
}

// A result at node 1, and above it the line withdrawn.
fn withdrawn_above() -> Store {
    entries::withdraw(one_below(), 33).store
}

// Plan 1 with its root full.
fn full() -> Store {
    let mut store = fresh(1);
    for key in 0..8 {
        store = with_result(store, key, 0);
    }
    store
}

// Plan 1 with a search in each slot.
fn busy() -> Store {
    let mut store = fresh(1);
    for _ in 0..Store::SLOTS {
        store = searches::start(store, 33).store;
    }
    store
}

// One line of load.
fn load(out: &mut impl Write, bytes: &[u8]) -> io::Result<()> {
    print(out, Call::Load, image::load(bytes).answer)
}

// Save: DONE, and loaded again; SMALL; BADSTORE.
fn saved(out: &mut impl Write) -> io::Result<()> {
    let mut image = [0; 12];
    print(out, Call::Save, image::save(worked(), &mut image))?;
    load(out, &image)?;
    let mut short = [0; 11];
    for store in [worked(), fresh(1), broken()] {
        print(out, Call::Save, image::save(store, &mut short))?;
    }
    Ok(())
}

// Load: CUT, NUMBER, FORMAT, PLAN.
fn not_read(out: &mut impl Write) -> io::Result<()> {
    let cut = [1, 1, 128];
    let longer = [1, 1, 180, 129, 0];
    let above = [255, 255, 255, 255, 16];
    let format = [2];
    let plan = [1, 4];
    for image in [&cut[..], &longer, &above, &format, &plan] {
        load(out, image)?;
    }
    Ok(())
}

// Load: RULE for clock 0, a count above capacity, a kind above 1.
fn not_by_the_rules(out: &mut impl Write) -> io::Result<()> {
    let clock = [1, 1, 0];
    let count = [1, 1, 1, 9];
    let kind = [1, 1, 2, 1, 33, 2];
    for image in [&clock[..], &count, &kind] {
        load(out, image)?;
    }
    Ok(())
}

// Load: DONE, RULE at the end for a stamp that is not below the clock, TRAIL, TRAIL before that RULE.
fn loaded(out: &mut impl Write) -> io::Result<()> {
    let good = [1, 1, 2, 1, 33, 1, 180, 1, 1, 0, 0, 0];
    let stamp = [1, 1, 1, 1, 33, 1, 180, 1, 1, 0, 0, 0];
    let trail = [1, 1, 1, 0, 0, 0, 0, 0];
    let both = [1, 1, 1, 1, 33, 1, 180, 1, 1, 0, 0, 0, 0];
    for image in [&good[..], &stamp, &trail, &both] {
        load(out, image)?;
    }
    Ok(())
}

// Page: DONE with a line, with none, with the result 0; SMALL; SAMPLE before it; BADSTORE.
fn paged(out: &mut impl Write) -> io::Result<()> {
    let mut room = [0; 6];
    for store in [worked(), withdrawn_above(), with_result(fresh(1), 33, 0)] {
        print(out, Call::Page, page::page(store, 1, &mut room))?;
    }
    let mut short = [0; 4];
    for (store, sample) in [
        (worked(), 1),
        (fresh(1), NO_SAMPLE - 1),
        (fresh(1), NO_SAMPLE),
        (broken(), NO_SAMPLE),
    ] {
        print(out, Call::Page, page::page(store, sample, &mut short))?;
    }
    Ok(())
}

// Serve: the page's own six bytes; the notice's nine for a page that was, for a beginning, for a bad sample and a bad store.
fn served(out: &mut impl Write) -> io::Result<()> {
    let kept = [1, 1, 1, 210, 1, 2, 0];
    let was = [1, 1, 1, 180, 1, 1];
    let beginning = [1, 1, 1, 210, 1];
    let notice = [0; 9];
    for (store, sample, bytes) in [
        (worked(), 1, &kept[..]),
        (worked(), 1, &was),
        (worked(), 1, &beginning),
        (worked(), NO_SAMPLE, &kept),
        (broken(), 1, &kept),
    ] {
        let back = page::serve(store, sample, bytes, &notice);
        print(
            out,
            Call::Serve,
            Answer::of(Answer::DONE, back.len() as u64, 0, 0, 0),
        )?;
    }
    Ok(())
}

// One line of decode, into a list of 256 records.
fn decode(out: &mut impl Write, bytes: &[u8]) -> io::Result<()> {
    let decoded = records::decode_list(bytes, [Step::default(); Step::MOST]);
    print(out, Call::Decode, decoded.answer)
}

// Decode: CUT, NUMBER, PLAN, OP.
fn not_decoded(out: &mut impl Write) -> io::Result<()> {
    let cut = [1, 1, 33, 180];
    let longer = [1, 1, 33, 180, 129, 0];
    let plan = [4];
    let op = [1, 7];
    for bytes in [&cut[..], &longer, &plan, &op] {
        decode(out, bytes)?;
    }
    Ok(())
}

// Decode: 256 steps, MANY; SMALL before a byte is read.
fn decoded(out: &mut impl Write) -> io::Result<()> {
    decode(out, &[2; 513])?;
    let many = [2; 514];
    decode(out, &many)?;
    let mut short = [Step::default(); 255];
    print(out, Call::Decode, records::decode(&many, &mut short))
}

// Run: the steps of a schedule, OP for the record of zeros after them and for a place outside the list, BADSTORE before OP.
fn ran(out: &mut impl Write) -> io::Result<()> {
    let bytes = [1, 1, 33, 180, 1, 3, 0, 0];
    let decoded = records::decode_list(&bytes, [Step::default(); Step::MOST]);
    print(out, Call::Decode, decoded.answer)?;
    let steps = decoded.list;
    let first = runner::run_list(fresh(1), steps, 0);
    print(out, Call::Run, first.answer)?;
    for (store, place) in [
        (first.store, 1),
        (first.store, 2),
        (first.store, 256),
        (broken(), 256),
    ] {
        print(out, Call::Run, runner::run_list(store, steps, place).answer)?;
    }
    Ok(())
}

// One line of run: a schedule's first step.
fn run(out: &mut impl Write, store: Store, bytes: &[u8]) -> io::Result<()> {
    let steps = records::decode_list(bytes, [Step::default(); Step::MOST]).list;
    print(out, Call::Run, runner::run_list(store, steps, 0).answer)
}

// Run: DONE, CLOCK, FULL for a withdrawal; NODE, EDGE.
fn ran_entries(out: &mut impl Write) -> io::Result<()> {
    for store in [fresh(1), at_clock(fresh(1), Store::LAST_CLOCK), full()] {
        run(out, store, &[1, 2, 8])?;
    }
    run(out, fresh(1), &[1, 3, 4, 0])?;
    run(out, fresh(1), &[1, 3, 0, 1])
}

// Run: DONE, SLOTS for a start; GOING; DONE, IDLE, SLOT for a cancel.
fn ran_searches(out: &mut impl Write) -> io::Result<()> {
    let start = [1, 4, 33];
    let step = [1, 5, 0];
    let cancel = [1, 6, 7];
    let slot = [1, 6, 8];
    for (store, bytes) in [
        (fresh(1), &start),
        (busy(), &start),
        (busy(), &step),
        (busy(), &cancel),
        (fresh(1), &cancel),
        (fresh(1), &slot),
    ] {
        run(out, store, bytes)?;
    }
    Ok(())
}

// The examples, in the order of the calls' numbers.
fn main(rt: HostRuntime) -> io::Result<()> {
    let mut out = rt.stdout();
    saved(&mut out)?;
    not_read(&mut out)?;
    not_by_the_rules(&mut out)?;
    loaded(&mut out)?;
    paged(&mut out)?;
    served(&mut out)?;
    not_decoded(&mut out)?;
    decoded(&mut out)?;
    ran(&mut out)?;
    ran_entries(&mut out)?;
    ran_searches(&mut out)
}
