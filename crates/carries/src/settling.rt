// What a carry is to write, settled before anything is written: its answer, the two nodes, and the two lists of places.
ghost use Rattle.std.specs.Prelude.{◌≡◌, ◌-◌, ◌≤◌, ◌<◌, length};
ghost use Rattle.plan.specs.Sizes.{most_nodes};
ghost use Rattle.store.specs.Answers.{DONE, answer};
ghost use Rattle.store.specs.Layout.{count_of, width};
ghost use Rattle.carries.specs.Settlings.{copies_at, OfGood, SettlesIn, SettlesOr};

use merges::{Lists, count_held, decide};
use moves::Span;
use plan::Edge;
use store::refusal::Refusal;
use store::{Answer, Store};

// The answer; the node, and the places of the copies that it has; the target, and its first place.
#[derive(Clone, Copy)]
pub struct Settled {
    pub answer: Answer,
    pub node: usize,
    pub copies: Span,
    pub target: usize,
    pub start: usize,
}

// The places of a node's copies.
fn copies_at(store: &Store, node: u32) -> Span
    requires { (node < most_nodes) × (count_of store.now node ≤ width) }
    ensures { result ≡ copies_at store.now node }
{
    let n = node as usize;
    Span {
        from: Store::WIDTH * n,
        count: store.counts[n] as usize,
    }
}

// "Carried is the fall in the node's count; discarded is carried less the rise in the target's"; and left.
fn tally(had: usize, kept: usize, held: usize, got: usize, left: usize) -> Answer
    requires { (kept ≤ had) × (held ≤ got) × (got - held ≤ had - kept) }
    ensures { result ≡ answer DONE (had - kept) ((had - kept) - (got - held)) left 0 }
{
    let carried = had - kept;
    let rise = got - held;
    Answer::of(
        Answer::DONE,
        carried as u64,
        (carried - rise) as u64,
        left as u64,
        0,
    )
}

// Along an edge of a node of a good store, to a target of this capacity: what stays and what the target gets. By the counts and the keys alone: it is
// right for every good store that has these, and this edge.
fn along(store: &Store, node: u32, edge: Edge, capacity: u32, lists: &mut Lists) -> Settled
    requires { OfGood store.now node edge capacity }
    ensures { SettlesIn store.now node edge capacity lists.new result }
{
    let copies = copies_at(store, node);
    let held = copies_at(store, edge.target);
    decide(&store.keys, lists, copies, held, edge, capacity as usize);
    let kept = lists.stay.len();
    let got = lists.target.len();
    let left = count_held(&store.keys, lists.stay.as_slice(), edge);
    Settled {
        answer: tally(copies.count, kept, held.count, got, left),
        node: node as usize,
        copies,
        target: edge.target as usize,
        start: held.from,
    }
}

// BADSTORE, then NODE, then EDGE.
pub fn settle(store: &Store, node: u32, edge: u32, lists: &mut Lists) -> Result<Settled, Refusal>
    ensures { SettlesOr store.now node edge lists.new result }
{
    rules::check(store)?;
    let rows = plan_table::rows_of(store.plan);
    if rows.nodes <= node {
        return Err(Refusal::Node);
    }
    let e = rows.edge(node, edge).ok_or(Refusal::Edge)?;
    Ok(along(store, node, e, rows.capacity(e.target), lists))
}
