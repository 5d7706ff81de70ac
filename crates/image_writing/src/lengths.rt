// How many bytes an image takes.
ghost use Rattle.std.specs.Prelude.{◌≡◌, ◌≤◌, ◌<◌, ◌-◌, length};
ghost use Rattle.lists.specs.Indexed.{tabulate};
ghost use Rattle.plan.specs.Sizes.{most_nodes};
ghost use Rattle.store.specs.Layout.{places, copy_of, node_of};
ghost use Rattle.store.specs.Workers.{HasPlaces, WithinPlaces};
ghost use Rattle.image_writing.specs.Image.{copies_bytes, node_bytes, nodes_bytes, nodes_in, image_by};

use crate::FORMAT;
use store::Store;

// The copies of the places from..end. (from..end as in store/columns.rt; counts within places are asked, since a store may break any rule.)
fn copies_length(store: &Store, from: usize, end: usize) -> usize
    requires { (from ≤ end) × (end ≤ places) }
    ensures { result ≡ length (copies_bytes (tabulate from (end - from) (copy_of store.now))) }
{
    (from..end)
        .map(|i| copies::copy_length(store.copy_at(i)))
        .sum()
}

// A node: its count and its copies.
fn node_length(store: &Store, node: usize) -> usize
    requires { (node < most_nodes) × HasPlaces store.now.counts node }
    ensures { result ≡ length (node_bytes (node_of store.now node)) }
{
    let count = store.counts[node];
    let from = Store::WIDTH * node;
    number::length_of(count) + copies_length(store, from, from + count as usize)
}

// The first nodes, so many of them.
fn nodes_length(store: &Store, nodes: usize) -> usize
    requires { (nodes ≤ most_nodes) × WithinPlaces store.now.counts }
    ensures { result ≡ length (nodes_bytes (nodes_in store.now nodes)) }
{
    (0..nodes).map(|node| node_length(store, node)).sum()
}

// The image of a store: its plan's number, its clock, and so many nodes.
pub fn image_length(store: &Store, nodes: usize) -> usize
    requires { (nodes ≤ most_nodes) × WithinPlaces store.now.counts }
    ensures { result ≡ length (image_by nodes store.now) }
{
    let of_nodes = nodes_length(store, nodes);
    number::length_of(FORMAT)
        + number::length_of(store.plan)
        + number::length_of(store.clock)
        + of_nodes
}
