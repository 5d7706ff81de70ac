// The rules of the search slots.
ghost use Rattle.std.specs.Prelude.{◌≡◌, eqb};
ghost use Rattle.plan.specs.PlanArrays.{OfEachPlan};
ghost use Rattle.store.specs.State.{running_mark};
ghost use Rattle.store.specs.StoreRules.{slot_test};
ghost use Rattle.rules_paths.specs.Workers.{slots_test};

use crate::paths;
use plan::rows::Rows;
use store::{Slot, Store};

// A search runs in the slot. (A rule in its own words: the mark is a number of the C interface.)
fn runs(slot: Slot) -> bool
    ensures { result ≡ eqb slot.running running_mark }
{
    slot.running == Slot::RUNNING
}

// One slot: idle and "all zero", or "a running search stands on its key's path, its visits equal to the path nodes above it".
fn slot_good(rows: &Rows, slot: Slot) -> bool
    ensures { OfEachPlan rows.now (λ p. result ≡ slot_test p slot) }
{
    slot == Slot::idle()
        || runs(slot) && paths::nodes_above(rows, slot.key, slot.node) == Some(slot.visits)
}

// All slots.
pub fn slots_good(rows: &Rows, slots: &[Slot; Store::SLOTS]) -> bool
    ensures { OfEachPlan rows.now (λ p. result ≡ slots_test p slots.now) }
{
    slots.iter().all(|slot| slot_good(rows, *slot))
}
