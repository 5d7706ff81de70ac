// The rules of a node's own numbers: its count, its used places and the others. (That counts or capacities are within a node's places is asked of
// them alone, and is no fact of a type: the check is of stores that may break any rule.)
#![tactic(auto)]

ghost use Rattle.std.specs.Prelude.{◌≡◌, ◌-◌, ◌<◌, ◌≤◌};
ghost use Rattle.lists.specs.Indexed.{all_from};
ghost use Rattle.plan.specs.Sizes.{most_nodes};
ghost use Rattle.store.specs.Layout.{places};
ghost use Rattle.store.specs.StoreRules.{kind_test};
ghost use Rattle.store.specs.Workers.{WithinPlaces};
ghost use Rattle.rules_nodes.specs.Workers.{mark_test, key_rises, used_test, unused_in, tidy_test, all_tidy};

use plan::rows::Rows;
use store::{Copy, Store, columns};

// A kind that there is, and a value, or 0 where the kind has none. (A rule in its own words, no equality or order by hand.)
#[tactic(auto, unfolding(store::specs::StoreRules::kind_test))]
fn kind_good(copy: Copy) -> bool
    ensures { result ≡ kind_test copy }
{
    copy.kind <= Copy::LAST_KIND && (Copy::has_value(copy.kind) || copy.value == 0)
}

// A copy's kind and value, and "stamps from 1 to clock − 1".
#[tactic(auto, unfolding(crate::specs::Workers::mark_test))]
fn mark_good(clock: u32, copy: Copy) -> bool
    ensures { result ≡ mark_test clock copy }
{
    kind_good(copy) && (1..clock).contains(&copy.stamp)
}

// "keys strictly rising in a node": the key at a used place is below the next one's, if there is one. (A rule in its
// own words, no equality or order by hand.)
fn key_rises(keys: &[u32; Store::PLACES], end: usize, i: usize) -> bool
    requires { (i < end) × (end ≤ places) }
    ensures { result ≡ key_rises keys.now end i }
{
    end <= i + 1 || keys[i] < keys[i + 1]
}

// The used places of a node, from..end.
fn used_good(store: &Store, from: usize, end: usize) -> bool
    requires { end ≤ places }
    ensures { result ≡ all_from from (end - from) (used_test store.now end) }
{
    (from..end).all(|i| key_rises(&store.keys, end, i) && mark_good(store.clock, store.copy_at(i)))
}

// "unused places .. all zero": those from..end. (Four columns: the C interface.)
#[tactic(auto, unfolding(store::specs::StoreRules::unused_test))]
fn unused_good(store: &Store, from: usize, end: usize) -> bool
    requires { (from ≤ end) × (end ≤ places) }
    ensures { result ≡ unused_in store.now from end }
{
    columns::all_zero(&store.keys, from, end)
        && columns::all_zero(&store.kinds, from, end)
        && columns::all_zero(&store.values, from, end)
        && columns::all_zero(&store.stamps, from, end)
}

// A node: "counts within capacity", its used places, and the others.
#[tactic(auto, using(store::proofs::Widths::at_fits, crate::proofs::Tidying::node_over, crate::proofs::Tidying::node_used, crate::proofs::Tidying::node_unused))]
fn node_tidy(store: &Store, rows: &Rows, node: u32) -> bool
    requires { (node < most_nodes) × WithinPlaces rows.now.capacities }
    ensures { result ≡ tidy_test rows.now store.now node }
{
    let n = node as usize;
    let count = store.counts[n];
    if rows.capacity(node) < count {
        return false;
    }
    let from = Store::WIDTH * n;
    let end = from + count as usize;
    used_good(store, from, end) && unused_good(store, end, from + Store::WIDTH)
}

// All nodes, by what each may hold.
pub fn nodes_tidy(store: &Store, rows: &Rows) -> bool
    requires { WithinPlaces rows.now.capacities }
    ensures { result ≡ all_tidy rows.now store.now }
{
    (0..Store::NODES as u32).all(|node| node_tidy(store, rows, node))
}
