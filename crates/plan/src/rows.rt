// A plan's rows: capacities and edge counts by node; lowest keys, highest keys and targets by node and then by edge.
// Any arrays and any numbers will do, not only those of the table.
ghost use Rattle.std.specs.Prelude.{◌≡◌, ◌<◌};
ghost use Rattle.plan.specs.Plan.{first_edge};
ghost use Rattle.plan.specs.PlanArrays.{at_node, edge_count_in, edge_in, row_edges, edge_numbered};
ghost use Rattle.plan.specs.Sizes.{most_nodes, most_edges};

use super::{Edge, MOST_EDGES, MOST_NODES};

// How many nodes a plan has, and what it says of each node and each edge: "edge bounds and targets as arrays of arrays".
#[derive(Clone, Copy)]
pub struct Rows {
    pub nodes: u32,
    pub capacities: [u32; MOST_NODES],
    pub counts: [u32; MOST_NODES],
    pub lows: [[u32; MOST_EDGES]; MOST_NODES],
    pub highs: [[u32; MOST_EDGES]; MOST_NODES],
    pub targets: [[u32; MOST_EDGES]; MOST_NODES],
}

// What a row by node has for the node; 0 past the last, and no Option: that is what a row says of any number (`at_node`).
fn at_node(row: &[u32; MOST_NODES], node: u32) -> u32
    ensures { result ≡ at_node row.now node }
{
    let n = node as usize;
    if n < MOST_NODES { row[n] } else { 0 }
}

impl Rows {
    // The node's capacity; 0 past the last node.
    pub fn capacity(&self, node: u32) -> u32
        ensures { result ≡ at_node self.now.capacities node }
    {
        at_node(&self.capacities, node)
    }

    // How many edges the node has: as many as are counted, and no more than there are places for. Past the last node there is none.
    pub fn edge_count(&self, node: u32) -> u32
        ensures { result ≡ edge_count_in self.now.counts node }
    {
        at_node(&self.counts, node).min(MOST_EDGES as u32)
    }

    // The edge that stands at a place of the rows.
    fn edge_at(&self, n: usize, e: usize) -> Edge
        requires { (n < most_nodes) × (e < most_edges) }
        ensures { result ≡ edge_in self.now.lows self.now.highs self.now.targets n e }
    {
        Edge {
            lowest: self.lows[n][e],
            highest: self.highs[n][e],
            target: self.targets[n][e],
        }
    }

    // The node's edge by its number, from 0, if it has such an edge.
    pub fn edge(&self, node: u32, edge: u32) -> Option<Edge>
        ensures { result ≡ edge_numbered (row_edges self.now node) edge }
    {
        if self.edge_count(node) <= edge {
            return None;
        }
        Some(self.edge_at(node as usize, edge as usize))
    }

    // The key's next step: "the first edge, in edge order, whose range holds the key" gives its target. (A loop that yields the target by break is
    // document 01's form.)
    pub fn next(&self, node: u32, key: u32) -> Option<u32>
        ensures { result ≡ first_edge (row_edges self.now node) key }
    {
        let n = node as usize;
        let count = self.edge_count(node) as usize;
        let mut e: usize = 0;
        let target = loop {
            if count <= e {
                return None;
            }
            let edge = self.edge_at(n, e);
            if edge.holds(key) {
                break edge.target;
            }
            e += 1;
        };
        Some(target)
    }
}
