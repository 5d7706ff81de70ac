// The lines of a sample's page, node by node: in a node the copies of a sample's lines stand side by side.
#![tactic(auto)]

ghost use Rattle.std.specs.Prelude.{◌≡◌, ◌<◌, ◌≤◌};
ghost use Rattle.plan.specs.Sizes.{most_nodes};
ghost use Rattle.store.specs.Workers.{Ordered};
ghost use Rattle.page_lines.specs.Workers.{Pageable, laid_over, FindsCurrent, Gathers};

use arrayvec::ArrayVec;
use sample::Sample;
use store::{Copy, Store, columns};

pub mod sample; // sample.rt: a sample's number

// "analyte 0 to 31"
const ANALYTES: u32 = 32;

// A page has at most a line for each.
pub const MOST_LINES: usize = ANALYTES as usize;

// A page's line: "analyte, value, stamp".
#[derive(Clone, Copy, Debug, Default, PartialEq, Eq)]
pub struct PageLine {
    pub analyte: u32,
    pub value: u32,
    pub stamp: u32,
}

// A node's copies of the sample's lines: each copy's place is written over what stood for its analyte.
fn lay_node(current: &mut [Option<usize>; MOST_LINES], store: &Store, node: usize, sample: Sample)
    requires { (node < most_nodes) × Ordered store.now.counts store.now.keys node }
    ensures { current.new ≡ laid_over store.now node sample.number current.old }
{
    let from = Store::WIDTH * node;
    let end = from + store.counts[node] as usize;
    let first = sample.number * ANALYTES;
    let last = first + (ANALYTES - 1);
    let start = columns::seek(&store.keys, from, end, first);
    for at in start..end {
        let key = store.keys[at];
        if last < key {
            break;
        }
        current[(key - first) as usize] = Some(at);
    }
}

// The place of each line's current copy, if it has one. Node numbers rise down a path, so a line's current copy is the one in the lowest
// node: nodes are laid over one another from the last to the root.
fn current_places(store: &Store, nodes: u32, sample: Sample) -> [Option<usize>; MOST_LINES]
    requires { Pageable nodes store.now }
    ensures { FindsCurrent nodes store.now sample.number result }
{
    let mut current = [None; MOST_LINES];
    for node in (0..nodes as usize).rev() {
        lay_node(&mut current, store, node, sample);
    }
    current
}

// "for each analyte, rising, whose look gives a result": "Withdrawn and never-entered lines are left out." Of a store's first so many nodes.
pub fn gather(store: &Store, nodes: u32, sample: Sample) -> ArrayVec<PageLine, MOST_LINES>
    requires { Pageable nodes store.now }
    ensures { Gathers nodes store.now sample.number result.items }
{
    let current = current_places(store, nodes, sample);
    let mut lines = ArrayVec::new();
    for analyte in 0..ANALYTES {
        let Some(place) = current[analyte as usize] else {
            continue; // never entered
        };
        let copy = store.copy_at(place);
        if Copy::has_value(copy.kind) {
            lines.push(PageLine {
                analyte,
                value: copy.value,
                stamp: copy.stamp,
            });
        }
    }
    lines
}
