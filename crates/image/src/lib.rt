// The evening's bytes: save and load. Document 01, "Bytes".
#![tactic(auto)]

ghost use Rattle.std.specs.Prelude.{MatchResult};
ghost use Rattle.store.specs.Answers.{bare};
ghost use Rattle.store.specs.Refusals.{refusal_number};
ghost use Rattle.image.specs.Promises.{Saves, Loads};

use image_writing::{lengths, writing};
use store::refusal::Refusal;
use store::{Answer, Outcome, Store};

// The image of a store that is checked first, into a buffer that may be too short.
fn saved(store: &Store, buffer: &mut [u8]) -> Result<Answer, Refusal>
    ensures { MatchResult result (λ answer. Saves store.now buffer.old answer buffer.new) (λ why. Saves store.now buffer.old (bare (refusal_number why)) buffer.new) }
{
    rules::check(store)?;
    let nodes = plan_table::rows_of(store.plan).nodes as usize;
    let needed = lengths::image_length(store, nodes);
    if buffer.len() < needed {
        return Ok(Refusal::Small.with(needed as u64));
    }
    let written = writing::write_image(buffer, store, nodes);
    Ok(Answer::of(Answer::DONE, written as u64, 0, 0, 0))
}

// Saves a store where it lies into the buffer: DONE with the bytes written, BADSTORE, or SMALL with the bytes needed.
pub fn save_in(store: &Store, buffer: &mut [u8]) -> Answer
    ensures { Saves store.now buffer.old result buffer.new }
{
    saved(store, buffer).unwrap_or_else(Answer::from)
}

// The same of a store by value.
pub fn save(store: Store, buffer: &mut [u8]) -> Answer
    ensures { Saves store buffer.old result buffer.new }
{
    save_in(&store, buffer)
}

// Loads an image into a store where it lies, whatever stood there: DONE with the copies held; or the first fault, and a fresh store of plan 1.
pub fn load_in(into: &mut Store, bytes: &[u8]) -> Answer
    ensures { Loads bytes.now (record { answer = result; store = into.new }) }
{
    image_loading::load_in(into, bytes)
}

// The same into a store of its own, which is handed back with all slots idle.
pub fn load(bytes: &[u8]) -> Outcome
    ensures { Loads bytes.now result }
{
    let mut store = Store::refused();
    let answer = load_in(&mut store, bytes);
    Outcome { answer, store }
}
