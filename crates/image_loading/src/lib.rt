// Loading an image into a store: its head, its nodes, and the end, which is DONE or the first fault.
#![tactic(auto)]

ghost use Rattle.std.specs.Prelude.{◌≡◌, ◌≤◌, true, length};
ghost use Rattle.plan.specs.Sizes.{most_nodes};
ghost use Rattle.store.specs.Refusals.{refusal_number};
ghost use Rattle.store.specs.StoreRules.{plan_number_test};
ghost use Rattle.image_reading.specs.ImageReading.{nodes_from};
ghost use Rattle.image_loading.specs.Loading.{refused_load, copies_held, finished, load_told, LoadsInto};

use image_reading::Head;
use store::refusal::Refusal;
use store::{Answer, Store};
use wire::Fault;

// The copies held: the sum of the counts.
#[tactic(auto, using(crate::proofs::LoadEnds::held_sum))]
fn copies_held(counts: &[u32; Store::NODES]) -> u64
    requires { length counts.now ≤ most_nodes }
    ensures { result ≡ copies_held counts.now }
{
    counts.iter().map(|&count| u64::from(count)).sum()
}

// Reads the nodes after an image's head into a store, whatever stood there, and gives the copies held. At the end TRAIL, then RULE with the image's length as offset.
fn loaded(into: &mut Store, bytes: &[u8], head: Head, at: usize) -> Result<u64, Fault>
    requires { plan_number_test head.plan ≡ true }
    ensures { load_told into.new result ≡ finished bytes.now (nodes_from bytes.now head.plan head.clock at) }
{
    let fresh = Store::fresh(head.plan);
    *into = Store {
        clock: head.clock,
        ..fresh.store
    };
    let rows = plan_table::rows_of(head.plan);
    let end = image_reading::read_nodes(bytes, at, rows, into)?;
    if end < bytes.len() {
        return Err(Fault {
            why: Refusal::Trail,
            at: end,
        });
    }
    if !rules::is_good(into) {
        return Err(Fault {
            why: Refusal::Rule,
            at: bytes.len(),
        });
    }
    Ok(copies_held(&into.counts))
}

// A refused load: its number and offset, and a fresh store of plan 1 in place of what was read.
pub fn refuse(into: &mut Store, fault: Fault) -> Answer
    ensures { record { answer = result; store = into.new } ≡ refused_load (refusal_number fault.why) fault.at }
{
    *into = Store::refused();
    Answer::from(fault)
}

// Loads the nodes after an image's head into a store, whatever stood there: DONE with the copies held; or the first fault, and a fresh store of plan 1.
pub fn load_nodes(into: &mut Store, bytes: &[u8], head: Head, at: usize) -> Answer
    requires { plan_number_test head.plan ≡ true }
    ensures { record { answer = result; store = into.new } ≡ finished bytes.now (nodes_from bytes.now head.plan head.clock at) }
{
    match loaded(into, bytes, head, at) {
        Ok(held) => Answer::of(Answer::DONE, held, 0, 0, 0),
        Err(fault) => refuse(into, fault),
    }
}

// Loads an image into a store, whatever stood there: DONE with the copies held; or the first fault, and a fresh store of plan 1.
pub fn load_in(into: &mut Store, bytes: &[u8]) -> Answer
    ensures { LoadsInto bytes.now result into.new }
{
    match image_reading::read_head(bytes) {
        Ok(head) => load_nodes(into, bytes, head.value, head.next),
        Err(fault) => refuse(into, fault),
    }
}
