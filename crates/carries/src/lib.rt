// Carry: a node's copies move to a child. Document 01, "What each step does".
#![tactic(auto)]

ghost use Rattle.std.specs.Prelude.{MatchResult};
ghost use Rattle.store.specs.Answers.{bare};
ghost use Rattle.store.specs.Refusals.{refusal_number};
ghost use Rattle.steps.specs.Promises.{Carries};

use merges::Lists;
use moves::carry_column;
use settling::settle;
use store::refusal::Refusal;
use store::{Answer, Outcome, Store};

mod settling; // settling.rt: what a carry is to write, and its answer

// What is to be written is settled first; then each column is written where the store lies, and two counts. BADSTORE, NODE or EDGE, and none of
// them writes anything.
fn carried(store: &mut Store, node: u32, edge: u32) -> Result<Answer, Refusal>
    ensures { MatchResult result (λ a. Carries store.old node edge (record { answer = a; store = store.new })) (λ why. Carries store.old node edge (record { answer = bare (refusal_number why); store = store.new })) }
{
    let mut lists = Lists::default();
    let s = settle(store, node, edge, &mut lists)?;
    let stay = lists.stay.as_slice();
    let target = lists.target.as_slice();
    // The four columns are fields of the C interface's struct.
    carry_column(&mut store.keys, stay, target, s.copies, s.start);
    carry_column(&mut store.kinds, stay, target, s.copies, s.start);
    carry_column(&mut store.values, stay, target, s.copies, s.start);
    carry_column(&mut store.stamps, stay, target, s.copies, s.start);
    store.counts[s.node] = stay.len() as u32;
    store.counts[s.target] = target.len() as u32;
    Ok(s.answer)
}

// Carry (node, edge) where the store lies. A refusal leaves the store as it was.
pub fn carry_in(store: &mut Store, node: u32, edge: u32) -> Answer
    ensures { Carries store.old node edge (record { answer = result; store = store.new }) }
{
    carried(store, node, edge).unwrap_or_else(Answer::from)
}

// Carry (node, edge). (A public call beside the other; docs/PROMISES.md names both.)
pub fn carry(mut store: Store, node: u32, edge: u32) -> Outcome
    ensures { Carries store node edge result }
{
    let answer = carry_in(&mut store, node, edge);
    Outcome { answer, store }
}
