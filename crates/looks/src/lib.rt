// Look: a whole search at once, down one line's path. Document 01, "What each step does".
#![tactic(auto)]

ghost use Rattle.std.specs.Prelude.{◌≡◌, MatchResult};
ghost use Rattle.store.specs.Answers.{bare};
ghost use Rattle.store.specs.Refusals.{refusal_number};
ghost use Rattle.steps.specs.Promises.{Looks};
ghost use Rattle.steps.specs.Searches.{ended};
ghost use Rattle.looks.specs.Workers.{copy_found, Lookable, LooksDown};

use plan::rows::Rows;
use store::refusal::Refusal;
use store::{Answer, Copy, Store};

// The answer of a search or look that ended: "0 never, 1 withdrawn or 2 result, then value, stamp, visits".
// Kinds and answer numbers are numbers, not enums: the C interface has them in its structs.
pub fn ended(found: Option<Copy>, visits: u32) -> Answer
    ensures { result ≡ ended (copy_found found) visits }
{
    let Some(copy) = found else {
        return Answer::of(Answer::DONE, 0, 0, 0, visits as u64);
    };
    Answer::of(
        Answer::DONE,
        copy.kind as u64 + 1,
        copy.value as u64,
        copy.stamp as u64,
        visits as u64,
    )
}

// "A whole search at once": node by node, until one has a copy of the key, a withdrawn one included, or the path ends.
// A node's answer is taken apart by `let .. else`, as document 01 asks; the loop counts no index. By each plan that has the rows.
fn look_down(store: &Store, rows: &Rows, key: u32) -> Answer
    requires { Lookable rows.now store.now }
    ensures { LooksDown rows.now store.now key result }
{
    let mut node = 0;
    let mut visits = 0;
    let copy = loop {
        visits += 1;
        let Some(copy) = store.look_in(node, key) else {
            let Some(to) = rows.next(node, key) else {
                return ended(None, visits);
            };
            node = to;
            continue;
        };
        break copy;
    };
    ended(Some(copy), visits)
}

// A look in a store that is checked first.
fn looked(store: &Store, key: u32) -> Result<Answer, Refusal>
    ensures { MatchResult result (Looks store.now key) (λ why. Looks store.now key (bare (refusal_number why))) }
{
    rules::check(store)?;
    Ok(look_down(store, plan_table::rows_of(store.plan), key))
}

// A look in a lent store: its end, or BADSTORE. No slot is used.
pub fn look_in(store: &Store, key: u32) -> Answer
    ensures { Looks store.now key result }
{
    looked(store, key).unwrap_or_else(Answer::from)
}

// The same of a store by value.
pub fn look(store: Store, key: u32) -> Answer
    ensures { Looks store key result }
{
    look_in(&store, key)
}
