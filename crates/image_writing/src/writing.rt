// Writing an image into a lent buffer where it fits.
// The walk is that of lengths.rt once more, since a buffer that is too short keeps its bytes. One walk over a sink that counts or writes would
// need a trait with laws on what fits, and be no plainer.
ghost use Rattle.std.specs.Prelude.{◌≤◌, ◌<◌, ◌-◌};
ghost use Rattle.lists.specs.Indexed.{tabulate};
ghost use Rattle.plan.specs.Sizes.{most_nodes};
ghost use Rattle.store.specs.Layout.{places, copy_of, node_of};
ghost use Rattle.store.specs.Workers.{HasPlaces, WithinPlaces};
ghost use Rattle.wire.specs.Writing.{HasRoom, Puts};
ghost use Rattle.image_writing.specs.Image.{copies_bytes, node_bytes, nodes_bytes, nodes_in, image_by};

use crate::FORMAT;
use store::Store;

// The copies of the places from..end. (from..end as in store/columns.rt; counts within places are asked, since a store may break any rule.)
fn write_copies(buffer: &mut [u8], at: usize, store: &Store, from: usize, end: usize) -> usize
    requires { (from ≤ end) × (end ≤ places) × HasRoom buffer at (copies_bytes (tabulate from (end - from) (copy_of store.now))) }
    ensures { Puts buffer at (copies_bytes (tabulate from (end - from) (copy_of store.now))) result }
{
    let mut next = at;
    for i in from..end {
        next = copies::write_copy(buffer, next, store.copy_at(i));
    }
    next
}

// A node: its count and its copies.
fn write_node(buffer: &mut [u8], at: usize, store: &Store, node: usize) -> usize
    requires { (node < most_nodes) × HasPlaces store.now.counts node × HasRoom buffer at (node_bytes (node_of store.now node)) }
    ensures { Puts buffer at (node_bytes (node_of store.now node)) result }
{
    let count = store.counts[node];
    let next = number::write_at(buffer, at, count);
    let from = Store::WIDTH * node;
    write_copies(buffer, next, store, from, from + count as usize)
}

// The first nodes, so many of them.
fn write_nodes(buffer: &mut [u8], at: usize, store: &Store, nodes: usize) -> usize
    requires { (nodes ≤ most_nodes) × WithinPlaces store.now.counts × HasRoom buffer at (nodes_bytes (nodes_in store.now nodes)) }
    ensures { Puts buffer at (nodes_bytes (nodes_in store.now nodes)) result }
{
    let mut next = at;
    for node in 0..nodes {
        next = write_node(buffer, next, store, node);
    }
    next
}

// The image of a store, from the buffer's beginning on: its plan's number, its clock, and so many nodes.
pub fn write_image(buffer: &mut [u8], store: &Store, nodes: usize) -> usize
    requires { (nodes ≤ most_nodes) × WithinPlaces store.now.counts × HasRoom buffer 0 (image_by nodes store.now) }
    ensures { Puts buffer 0 (image_by nodes store.now) result }
{
    let after_format = number::write_at(buffer, 0, FORMAT);
    let after_plan = number::write_at(buffer, after_format, store.plan);
    let after_clock = number::write_at(buffer, after_plan, store.clock);
    write_nodes(buffer, after_clock, store, nodes)
}
