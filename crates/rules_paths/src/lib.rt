// The rules of paths: of the search slots and of the copies. Document 01, "Store rules".
#![tactic(auto)]

ghost use Rattle.std.specs.Prelude.{◌≡◌};
ghost use Rattle.plan.specs.PlanArrays.{OfEachPlan};
ghost use Rattle.rules_paths.specs.Workers.{Walkable, on_paths_test};

use plan::rows::Rows;
use store::Store;

mod paths; // paths.rt: the paths of copies
mod slot_rules; // slot_rules.rt: the search slots

// The searches and the copies stand on their keys' paths.
pub fn on_their_paths(store: &Store, rows: &Rows) -> bool
    requires { Walkable rows.now store.now }
    ensures { OfEachPlan rows.now (λ p. result ≡ on_paths_test p store.now) }
{
    slot_rules::slots_good(rows, &store.slots) && paths::nodes_placed(store, rows)
}
