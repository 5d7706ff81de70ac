// Which copies a carry moves, by the keys alone: the places whose copies stay in the node, and those whose copies the target then has.
// The two nodes are walked through once, side by side, by rising key.
#![tactic(auto)]

ghost use Rattle.std.specs.Prelude.{◌≡◌, ◌+◌, ◌-◌, ◌∷◌, ◌++◌, [], ◌<◌, ◌≤◌, length};
ghost use Rattle.store.specs.Layout.{width, places};
ghost use Rattle.store.specs.Workers.{Within, number_in};
ghost use Rattle.steps.specs.Carries.{count_held};
ghost use Rattle.merges.specs.Decisions.{places_in, places_merged, passed, standing, Going, Turned, Ready, Decided};

use arrayvec::ArrayVec;
use moves::Span;
use plan::Edge;
use store::Store;

// As many places as a node has.
const WIDTH: usize = Store::WIDTH;

// A node's places, some or all of them. (Places are numbers, since the columns are those of the C interface.)
pub type Places = ArrayVec<usize, WIDTH>;

// The places whose copies stay in the node, and those whose copies the target then has.
#[derive(Default, Drop)]
pub struct Lists {
    pub stay: Places,
    pub target: Places,
}

// A walk through two nodes: the node's places and the target's own that are still to come.
#[derive(Clone, Copy)]
pub struct Walk {
    pub node: Span,
    pub own: Span,
}

// The first of the places to come is passed by.
fn skip(span: &mut Span)
    requires { (0 < span.old.count) × (span.old.from < places) }
    ensures { span.new ≡ passed span.old }
{
    span.from += 1;
    span.count -= 1;
}

// The first of the places to come goes to the end of a list.
fn pass(span: &mut Span, list: &mut Places)
    requires { (0 < span.old.count) × (span.old.from < places) × (length list.old.items < width) }
    ensures { (span.new ≡ passed span.old) × (list.new.items ≡ list.old.items ++ span.old.from ∷ []) }
{
    list.push(span.from);
    skip(span);
}

// The node's next copy replaces the target's next: its place goes to the list, and the target's own is passed by.
fn replace(list: &mut Places, node: &mut Span, own: &mut Span)
    requires { (0 < node.old.count) × (node.old.from < places) × (0 < own.old.count) × (own.old.from < places) × (length list.old.items < width) }
    ensures { (node.new ≡ passed node.old) × (own.new ≡ passed own.old) × (list.new.items ≡ list.old.items ++ node.old.from ∷ []) }
{
    pass(node, list);
    skip(own);
}

// One turn: the target's own copy if its key is smaller. Else the node's copy, if the edge holds its key: it replaces the target's
// copy of that key, or is added if the target has a free place. Else it stays.
fn turn(
    keys: &[u32; Store::PLACES],
    lists: &mut Lists,
    walk: &mut Walk,
    edge: Edge,
    capacity: usize,
)
    requires { Going keys.now capacity lists.old walk.old × (0 < walk.old.node.count) }
    ensures { Turned keys.now capacity edge lists.old walk.old lists.new walk.new }
{
    let key = keys[walk.node.from];
    let held = edge.holds(key);
    let own = 0 < walk.own.count;
    if own && keys[walk.own.from] < key {
        pass(&mut walk.own, &mut lists.target);
        return;
    }
    if held && own && keys[walk.own.from] == key {
        replace(&mut lists.target, &mut walk.node, &mut walk.own);
        return;
    }
    if held && lists.target.len() + walk.own.count < capacity {
        pass(&mut walk.node, &mut lists.target);
        return;
    }
    pass(&mut walk.node, &mut lists.stay);
}

// After the node's last copy the rest of the target's own.
fn rest(target: &mut Places, own: Span)
    requires { (own.from + own.count ≤ places) × (length target.old.items + own.count ≤ width) }
    ensures { target.new.items ≡ target.old.items ++ places_in own }
{
    for place in own.from..own.from + own.count {
        target.push(place);
    }
}

// The places that stay, and those whose copies the target then has: of a node and a target whose copies have these places.
pub fn decide(
    keys: &[u32; Store::PLACES],
    lists: &mut Lists,
    node: Span,
    target: Span,
    edge: Edge,
    capacity: usize,
)
    requires { Ready keys.now capacity node target }
    ensures { Decided (places_merged keys.now capacity edge node target) lists.new }
{
    lists.stay.clear();
    lists.target.clear();
    let mut walk = Walk { node, own: target };
    // No `for` over the node's places: a turn may take the target's own copy, and leave the node's for the next.
    while 0 < walk.node.count {
        turn(keys, lists, &mut walk, edge, capacity);
    }
    rest(&mut lists.target, walk.own);
}

// How many of a list's places have a key that the edge holds. (Places are numbers, since the columns are those of the C interface.)
#[tactic(auto, using(crate::proofs::Deciding::held_count))]
pub fn count_held(keys: &[u32; Store::PLACES], list: &[usize], edge: Edge) -> usize
    requires { Within list.now places }
    ensures { result ≡ count_held (number_in keys.now) edge list.now }
{
    list.iter()
        .filter(|place| edge.holds(keys[**place]))
        .count()
}
