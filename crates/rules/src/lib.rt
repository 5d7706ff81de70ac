// The check of all store rules. Document 01, "Store rules". Its three parts are crates of their own.
#![tactic(auto)]

ghost use Rattle.std.specs.Prelude.{◌≡◌, ◌&&◌, true, false, MatchResult};
ghost use Rattle.store.specs.StoreRules.{plan_number_test, clock_test, good_store};
ghost use Rattle.store.specs.declared.refusal.Refusal.TheVariants.{BadStore};

use store::Store;
use store::refusal::Refusal;

// "plan 1 to 3", "clock 1 to 4294967295". (A rule in its own words, no order by hand.)
#[tactic(auto, unfolding(store::specs::StoreRules::clock_test))]
fn numbers_good(store: &Store) -> bool
    ensures { result ≡ (plan_number_test store.now.plan && clock_test store.now.clock) }
{
    Store::is_plan(store.plan) && 1 <= store.clock
}

// Every store rule holds. The plan's rows are taken once and lent.
pub fn is_good(store: &Store) -> bool
    ensures { result ≡ good_store store.now }
{
    if !numbers_good(store) {
        return false;
    }
    let rows = plan_table::rows_of(store.plan);
    rules_nodes::nodes_tidy(store, rows)
        && rules_paths::on_their_paths(store, rows)
        && rules_stamps::stamps_differ(store)
}

// All store rules hold; else BADSTORE. The first line of each call that may find a bad store.
pub fn check(store: &Store) -> Result<(), Refusal>
    ensures { MatchResult result (λ _. good_store store.now ≡ true) (λ refusal. (refusal ≡ BadStore) × (good_store store.now ≡ false)) }
{
    if is_good(store) {
        Ok(())
    } else {
        Err(Refusal::BadStore)
    }
}
