// The C interface (include/olipranj.h) as a static library: each function of the header, over the one of export that has its name and its promise.
#![tactic(auto)]

ghost use Rattle.std.specs.Prelude.{◌≡◌};
ghost use Rattle.store.specs.Promises.{Checks};
ghost use Rattle.steps.specs.Promises.{Looks};
ghost use Rattle.image.specs.Promises.{Saves};
ghost use Rattle.page.specs.Promises.{Pages, ServesLength};
ghost use Rattle.export.specs.Promises.{layout_number, FreshensBehind, StepsBehind, LoadsBehind};

use store::{Answer, Store};

// The library's own layout number.
#[unsafe(no_mangle)]
pub extern "C" fn olipranj_layout() -> u32
    ensures { result ≡ layout_number }
{
    export::olipranj_layout()
}

// A fresh store of the plan, or PLAN and a fresh store of plan 1, over what stood there.
#[unsafe(no_mangle)]
pub extern "C" fn olipranj_fresh(into: &mut Store, plan: u32) -> Answer
    ensures { FreshensBehind plan result into.new }
{
    export::olipranj_fresh(into, plan)
}

// One step by its number, done where the store lies. An unknown number is OP with a 0, after BADSTORE.
#[unsafe(no_mangle)]
pub extern "C" fn olipranj_step(store: &mut Store, number: u32, x: u32, y: u32) -> Answer
    ensures { StepsBehind store.old number x y result store.new }
{
    export::olipranj_step(store, number, x, y)
}

// The check of all store rules alone.
#[unsafe(no_mangle)]
pub extern "C" fn olipranj_good(store: &Store) -> Answer
    ensures { Checks store.now result }
{
    export::olipranj_good(store)
}

// A whole search at once.
#[unsafe(no_mangle)]
pub extern "C" fn olipranj_look(store: &Store, key: u32) -> Answer
    ensures { Looks store.now key result }
{
    export::olipranj_look(store, key)
}

// The store's image into the buffer.
#[unsafe(no_mangle)]
pub extern "C" fn olipranj_save(store: &Store, buffer: &mut [u8]) -> Answer
    ensures { Saves store.now buffer.old result buffer.new }
{
    export::olipranj_save(store, buffer)
}

// The store of an image, or the first fault and a fresh store of plan 1, over what stood there.
#[unsafe(no_mangle)]
pub extern "C" fn olipranj_load(into: &mut Store, bytes: &[u8]) -> Answer
    ensures { LoadsBehind bytes.now result into.new }
{
    export::olipranj_load(into, bytes)
}

// The page of a sample into the buffer.
#[unsafe(no_mangle)]
pub extern "C" fn olipranj_page(store: &Store, sample: u32, buffer: &mut [u8]) -> Answer
    ensures { Pages store.now sample buffer.old result buffer.new }
{
    export::olipranj_page(store, sample, buffer)
}

// How many bytes of the kept page to show; none: the notice is due.
#[unsafe(no_mangle)]
pub extern "C" fn olipranj_serve(store: &Store, sample: u32, kept: &[u8]) -> usize
    ensures { ServesLength store.now sample kept.now result }
{
    export::olipranj_serve(store, sample, kept)
}
