// Reading an image from the left: its head, and its nodes into a store. The first fault wins.
#![tactic(auto)]

ghost use Rattle.std.specs.Prelude.{◌≡◌, ◌-◌, ◌≤◌, ◌<◌, []};
ghost use Rattle.plan.specs.Sizes.{most_nodes};
ghost use Rattle.plan.specs.Plan.{Plan, size};
ghost use Rattle.plan.specs.PlanArrays.{capacities_row};
ghost use Rattle.store.specs.Layout.{width, places};
ghost use Rattle.store.specs.Workers.{WithinPlaces};
ghost use Rattle.wire.specs.Reading.{got_of};
ghost use Rattle.image_reading.specs.ImageReading.{read_copies, read_node, read_nodes};
ghost use Rattle.image_reading.specs.Workers.{head_at, with_copies, with_node, with_nodes, LaysInto};

use image_writing::FORMAT;
use number::Read;
use plan::rows::Rows;
use store::Store;
use store::refusal::Refusal;
use wire::Fault;

// (No part of Store: what an image says before its nodes.)
// What an image's head says of its store.
#[derive(Clone, Copy, Debug, PartialEq, Eq)]
pub struct Head {
    pub plan: u32,
    pub clock: u32,
}

// (Four columns are fields of the C interface; from..end as in store/columns.rt.)
// The copies of the places from..end. Gives the offset after them.
fn read_copies(
    bytes: &[u8],
    at: usize,
    from: usize,
    end: usize,
    store: &mut Store,
) -> Result<usize, Fault>
    requires { (from ≤ end) × (end ≤ places) }
    ensures laid { LaysInto (read_copies bytes.now (end - from) at) (with_copies store.old from) result store.new }
    ensures kept { (store.new.plan ≡ store.old.plan) × (store.new.clock ≡ store.old.clock) × (store.new.slots ≡ store.old.slots) }
{
    let mut next = at;
    for i in from..end {
        let copy = copies::read_copy(bytes, next)?;
        store.keys[i] = copy.value.key;
        store.kinds[i] = copy.value.kind;
        store.values[i] = copy.value.value;
        store.stamps[i] = copy.value.stamp;
        next = copy.next;
    }
    Ok(next)
}

// A node: its count (RULE above the capacity), then its copies.
#[tactic(auto, unfolding(crate::specs::ImageReading::read_node, wire::specs::Reading::bind))]
fn read_node(
    bytes: &[u8],
    at: usize,
    capacity: u32,
    node: usize,
    store: &mut Store,
) -> Result<usize, Fault>
    requires { (node < most_nodes) × (capacity ≤ width) }
    ensures laid { LaysInto (read_node bytes.now capacity at) (with_node store.old node) result store.new }
    ensures kept { (store.new.plan ≡ store.old.plan) × (store.new.clock ≡ store.old.clock) × (store.new.slots ≡ store.old.slots) }
{
    let count = wire::read_number(bytes, at)?;
    if capacity < count.value {
        return Err(Fault::at(Refusal::Rule, at));
    }
    store.counts[node] = count.value;
    let from = Store::WIDTH * node;
    read_copies(bytes, count.next, from, from + count.value as usize, store)
}

// The nodes of a plan, into a store that holds nothing. Plan, clock and slots stay as they were, after a fault too.
pub fn read_nodes(bytes: &[u8], at: usize, rows: &Rows, store: &mut Store) -> Result<usize, Fault>
    requires { (rows.now.nodes ≤ most_nodes) × WithinPlaces rows.now.capacities × (store.old ≡ with_nodes store.old []) }
    ensures laid { (p : Plan) → rows.now.nodes ≡ size p → rows.now.capacities ≡ capacities_row p → LaysInto (read_nodes bytes.now p at) (with_nodes store.old) result store.new }
    ensures kept { (store.new.plan ≡ store.old.plan) × (store.new.clock ≡ store.old.clock) × (store.new.slots ≡ store.old.slots) }
{
    let mut next = at;
    for node in 0..rows.nodes {
        next = read_node(bytes, next, rows.capacity(node), node as usize, store)?;
    }
    Ok(next)
}

// Format, plan and clock, each with its check: FORMAT, PLAN, RULE for clock 0.
#[tactic(auto, unfolding(crate::specs::Workers::head_at, wire::specs::Reading::bind))]
pub fn read_head(bytes: &[u8]) -> Result<Read<Head>, Fault>
    ensures { got_of result ≡ head_at bytes.now }
{
    let format = wire::read_number(bytes, 0)?;
    if format.value != FORMAT {
        return Err(Fault::at(Refusal::Format, 0));
    }
    let plan = wire::read_number(bytes, format.next)?;
    if !Store::is_plan(plan.value) {
        return Err(Fault::at(Refusal::Plan, format.next));
    }
    let clock = wire::read_number(bytes, plan.next)?;
    if clock.value < 1 {
        return Err(Fault::at(Refusal::Rule, plan.next));
    }
    let head = Head {
        plan: plan.value,
        clock: clock.value,
    };
    Ok(Read {
        value: head,
        next: clock.next,
    })
}
