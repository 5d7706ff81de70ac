// What stands behind the C interface (include/olipranj.h): the public calls over a store behind a reference. A call reads it where it lies; a
// fresh store, a step and a load are written there. The functions for C are export_c's.
#![tactic(auto)]

ghost use Rattle.std.specs.Prelude.{◌≡◌};
ghost use Rattle.store.specs.Promises.{Checks};
ghost use Rattle.steps.specs.Promises.{Looks};
ghost use Rattle.image.specs.Promises.{Saves};
ghost use Rattle.page.specs.Promises.{Pages, ServesLength};
ghost use Rattle.export.specs.Promises.{layout_number, FreshensBehind, StepsBehind, LoadsBehind};

use schedule::Step;
use store::refusal::Refusal;
use store::{Answer, Store};

// The number of the layout in which a store and an answer lie for C.
pub const LAYOUT: u32 = 1;

// The library's own layout number.
pub fn olipranj_layout() -> u32
    ensures { result ≡ layout_number }
{
    LAYOUT
}

// A fresh store of the plan, or PLAN and a fresh store of plan 1, over what stood there.
pub fn olipranj_fresh(into: &mut Store, plan: u32) -> Answer
    ensures { FreshensBehind plan result into.new }
{
    let outcome = Store::fresh(plan);
    *into = outcome.store;
    outcome.answer
}

// One step by its number, done where the store lies. An unknown number is OP with a 0, after BADSTORE.
pub fn olipranj_step(store: &mut Store, number: u32, x: u32, y: u32) -> Answer
    ensures { StepsBehind store.old number x y result store.new }
{
    runner::do_in(store, Step { number, x, y }, 0)
}

// The check of all store rules alone.
#[tactic(auto, unfolding(store::specs::Calls::of_store))]
pub fn olipranj_good(store: &Store) -> Answer
    ensures { Checks store.now result }
{
    if rules::is_good(store) {
        Answer::bare(Answer::DONE)
    } else {
        Answer::from(Refusal::BadStore)
    }
}

// A whole search at once.
pub fn olipranj_look(store: &Store, key: u32) -> Answer
    ensures { Looks store.now key result }
{
    looks::look_in(store, key)
}

// The store's image into the buffer.
pub fn olipranj_save(store: &Store, buffer: &mut [u8]) -> Answer
    ensures { Saves store.now buffer.old result buffer.new }
{
    image::save_in(store, buffer)
}

// The store of an image, or the first fault and a fresh store of plan 1, over what stood there.
pub fn olipranj_load(into: &mut Store, bytes: &[u8]) -> Answer
    ensures { LoadsBehind bytes.now result into.new }
{
    image::load_in(into, bytes)
}

// The page of a sample into the buffer.
pub fn olipranj_page(store: &Store, sample: u32, buffer: &mut [u8]) -> Answer
    ensures { Pages store.now sample buffer.old result buffer.new }
{
    page::page_in(store, sample, buffer)
}

// How many bytes of the kept page to show; none: the notice is due.
pub fn olipranj_serve(store: &Store, sample: u32, kept: &[u8]) -> usize
    ensures { ServesLength store.now sample kept.now result }
{
    page::served_length_in(store, sample, kept)
}
