// The rules of paths. A key's path is walked down by its next steps, at most as many nodes as the plan has. (Each promise is of every plan that has
// these rows. Rows that carried their plan could not be those of a number that no plan has, of which `plan_table::rows_of` speaks too.)
ghost use Rattle.std.specs.Prelude.{◌≡◌, ◌<◌};
ghost use Rattle.lists.specs.Indexed.{all_below};
ghost use Rattle.plan.specs.Sizes.{most_nodes};
ghost use Rattle.plan.specs.Plan.{path};
ghost use Rattle.plan.specs.PlanArrays.{OfEachPlan};
ghost use Rattle.store.specs.Layout.{places};
ghost use Rattle.rules_paths.specs.Workers.{Walkable, nodes_above, stamp_below, placed_test, paths_test};

use plan::rows::Rows;
use store::Store;

// How many nodes of the key's path stand above the node, if it stands on the path. (The root stands on each path, and is asked first: the compiler
// then reads its edges once for all copies.)
pub fn nodes_above(rows: &Rows, key: u32, node: u32) -> Option<u32>
    ensures { OfEachPlan rows.now (λ p. result ≡ nodes_above node (path p key)) }
{
    if node == 0 {
        return Some(0);
    }
    let mut at = rows.next(0, key)?;
    for above in 1..rows.nodes {
        if node == at {
            return Some(above);
        }
        at = rows.next(at, key)?;
    }
    None
}

// The stamp of the key's first copy below a node, down its path; 0 where there is none: "'Never' counts as older than every copy."
fn stamp_below(store: &Store, rows: &Rows, node: u32, key: u32) -> u32
    requires { Walkable rows.now store.now }
    ensures { OfEachPlan rows.now (λ p. result ≡ stamp_below p store.now node key) }
{
    let mut next = rows.next(node, key);
    for _ in 0..rows.nodes {
        let Some(at) = next else {
            return 0;
        };
        if let Some(copy) = store.look_in(at, key) {
            return copy.stamp;
        }
        next = rows.next(at, key);
    }
    0
}

// "each copy in a node of its key's path"; "down a path, a key's stamps strictly fall".
fn copy_placed(store: &Store, rows: &Rows, node: u32, i: usize) -> bool
    requires { (i < places) × Walkable rows.now store.now }
    ensures { OfEachPlan rows.now (λ p. result ≡ placed_test p store.now node i) }
{
    let key = store.keys[i];
    nodes_above(rows, key, node).is_some() && stamp_below(store, rows, node, key) < store.stamps[i]
}

// The copies of a node.
fn node_placed(store: &Store, rows: &Rows, node: u32) -> bool
    requires { (node < most_nodes) × Walkable rows.now store.now }
    ensures { OfEachPlan rows.now (λ p. result ≡ paths_test p store.now node) }
{
    let n = node as usize;
    let from = Store::WIDTH * n;
    let end = from + store.counts[n] as usize;
    // Not by `all`, as in nodes_placed: the check of a full store then takes an eighth longer.
    for i in from..end {
        if !copy_placed(store, rows, node, i) {
            return false;
        }
    }
    true
}

// The copies of all nodes. (Like nodes_tidy in its skeleton alone.)
pub fn nodes_placed(store: &Store, rows: &Rows) -> bool
    requires { Walkable rows.now store.now }
    ensures { OfEachPlan rows.now (λ p. result ≡ all_below most_nodes (paths_test p store.now)) }
{
    (0..Store::NODES as u32).all(|node| node_placed(store, rows, node))
}
