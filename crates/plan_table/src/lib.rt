// The fixed table of plans, and what it says of a plan by its number. Document 01, "Lines, copies, plans".
#![tactic(auto)]

ghost use Rattle.std.specs.Prelude.{◌≡◌};
ghost use Rattle.plan.specs.PlanArrays.{rows_of};
ghost use Rattle.plan_table.specs.PlanTable.{plan_numbered};

use plan::rows::Rows;
use plan::{MOST_EDGES, MOST_NODES};

// The number of plans.
pub const PLANS: usize = 3;

// One node's bounds, by edge. (Lows and highs side by side: document 01's constant table.) No edge:
const NONE: [u32; MOST_EDGES] = [0, 0, 0, 0];

// one edge, all keys:
const ALL_LOW: [u32; MOST_EDGES] = [0, 0, 0, 0];

const ALL_HIGH: [u32; MOST_EDGES] = [4294967295, 0, 0, 0];

// two edges, keys 0..2147483647 and keys 2147483648..4294967295.
const TWO_LOW: [u32; MOST_EDGES] = [0, 2147483648, 0, 0];

const TWO_HIGH: [u32; MOST_EDGES] = [2147483647, 4294967295, 0, 0];

// "The three plans are a fixed table": the rows of each, and 0 where a plan has no such node or edge.
static TABLE: [Rows; PLANS] = [
    Rows {
        nodes: 4,
        capacities: [8, 16, 32, 64, 0, 0, 0, 0],
        counts: [1, 1, 1, 0, 0, 0, 0, 0],
        lows: [ALL_LOW, ALL_LOW, ALL_LOW, NONE, NONE, NONE, NONE, NONE],
        highs: [ALL_HIGH, ALL_HIGH, ALL_HIGH, NONE, NONE, NONE, NONE, NONE],
        targets: [
            [1, 0, 0, 0],
            [2, 0, 0, 0],
            [3, 0, 0, 0],
            NONE,
            NONE,
            NONE,
            NONE,
            NONE,
        ],
    },
    Rows {
        nodes: 3,
        capacities: [8, 32, 32, 0, 0, 0, 0, 0],
        counts: [2, 0, 0, 0, 0, 0, 0, 0],
        lows: [TWO_LOW, NONE, NONE, NONE, NONE, NONE, NONE, NONE],
        highs: [TWO_HIGH, NONE, NONE, NONE, NONE, NONE, NONE, NONE],
        targets: [[1, 2, 0, 0], NONE, NONE, NONE, NONE, NONE, NONE, NONE],
    },
    Rows {
        nodes: 4,
        capacities: [8, 16, 16, 64, 0, 0, 0, 0],
        counts: [2, 1, 1, 0, 0, 0, 0, 0],
        lows: [TWO_LOW, ALL_LOW, ALL_LOW, NONE, NONE, NONE, NONE, NONE],
        highs: [TWO_HIGH, ALL_HIGH, ALL_HIGH, NONE, NONE, NONE, NONE, NONE],
        targets: [
            [1, 2, 0, 0],
            [3, 0, 0, 0],
            [3, 0, 0, 0],
            NONE,
            NONE,
            NONE,
            NONE,
            NONE,
        ],
    },
];

// No plan: no node.
static NO_ROWS: Rows = Rows {
    nodes: 0,
    capacities: [0; MOST_NODES],
    counts: [0; MOST_NODES],
    lows: [NONE; MOST_NODES],
    highs: [NONE; MOST_NODES],
    targets: [NONE; MOST_NODES],
};

// What the table says of a plan by its number; zeros for a number that no plan has, and no Option: the promise speaks of every number.
pub fn rows_of(plan: u32) -> &'static Rows
    ensures { result.now ≡ rows_of (plan_numbered plan) }
{
    let row = plan as usize;
    if row < 1 || PLANS < row {
        return &NO_ROWS;
    }
    &TABLE[row - 1]
}
