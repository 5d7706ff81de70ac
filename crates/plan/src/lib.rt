// Plans: their edges, next steps and sizes, and the readers of a plan's rows. Document 01, "Lines, copies, plans".
#![tactic(auto)]

ghost use Rattle.std.specs.Prelude.{◌≡◌};
ghost use Rattle.plan.specs.Plan.{holds};

pub mod rows; // rows.rt: a plan's rows

// "2 to 8 nodes", "capacity 1 to 64", "up to four edges".
pub const MOST_NODES: usize = 8;

pub const MOST_CAPACITY: usize = 64;

pub const MOST_EDGES: usize = 4;

// "An edge has a lowest key, a highest key (both included) and a target."
#[derive(Clone, Copy)]
pub struct Edge {
    pub lowest: u32,
    pub highest: u32,
    pub target: u32,
}

impl Edge {
    // The edge's range holds the key: "both included". (A rule in its own words, no order by hand.)
    pub fn holds(self, key: u32) -> bool
        ensures { result ≡ holds self key }
    {
        self.lowest <= key && key <= self.highest
    }
}
