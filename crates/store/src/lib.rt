// The store: its data, its sizes, the answers, and the making of a fresh store. Document 01, "Lines, copies, plans".
#![tactic(auto)]

ghost use Rattle.std.specs.Prelude.{◌≡◌, replicate};
ghost use Rattle.store.specs.Answers.{answer, bare};
ghost use Rattle.store.specs.Copies.{has_value};
ghost use Rattle.store.specs.Layout.{fresh_store, refused_store};
ghost use Rattle.store.specs.State.{slot_count, idle};
ghost use Rattle.store.specs.StoreRules.{plan_number_test};
ghost use Rattle.store.specs.Promises.{Freshens};

use refusal::Refusal;

pub mod columns; // columns.rt: what is done with the columns
pub mod refusal; // refusal.rt: why a call is refused

// "A copy has a key, a kind (0 withdrawn, 1 result), a value .. and a stamp." The kind stays a number, as in the store's column of kinds: a field of
// the C interface, in which a store that breaks a rule may have any.
#[repr(C)]
#[derive(Clone, Copy, Debug, PartialEq, Eq)]
pub struct Copy {
    pub key: u32,
    pub kind: u32,
    pub value: u32,
    pub stamp: u32,
}

// A search slot: whether a search runs in it, its key, the node that it stands at, and the nodes visited. An idle slot is all zero. Its mark stays a
// number: a field of the C interface, in which a store that breaks a rule may have any.
#[repr(C)]
#[derive(Clone, Copy, Debug, PartialEq, Eq)]
pub struct Slot {
    pub running: u32,
    pub key: u32,
    pub node: u32,
    pub visits: u32,
}

// The places in four columns; node n has those from WIDTH n on, and uses the first, as many as its count says, by rising key. Counts beside columns,
// and four columns side by side, are the struct of the C interface.
#[repr(C)]
#[derive(Clone, Copy)]
pub struct Store {
    pub plan: u32,
    pub clock: u32,
    pub counts: [u32; Store::NODES],
    pub keys: [u32; Store::PLACES],
    pub kinds: [u32; Store::PLACES],
    pub values: [u32; Store::PLACES],
    pub stamps: [u32; Store::PLACES],
    pub slots: [Slot; Store::SLOTS],
}

// "Each answer has a number and four numbers a, b, c, d, zero unless named." A number, since C reads it; refusals have names (refusal.rt).
#[repr(C)]
#[derive(Clone, Copy, Debug, PartialEq, Eq)]
pub struct Answer {
    pub number: u32,
    pub a: u64,
    pub b: u64,
    pub c: u64,
    pub d: u64,
}

// What a call that may alter the store gives back.
#[repr(C)]
#[derive(Clone, Copy)]
pub struct Outcome {
    pub answer: Answer,
    pub store: Store,
}

// A slot's running mark, and the idle slot.
impl Slot {
    pub const IDLE: u32 = 0;

    pub const RUNNING: u32 = 1;

    // "all slots idle": an idle slot is all zero. (Written out, since the mark has a name.)
    pub fn idle() -> Slot
        ensures { result ≡ idle }
    {
        Slot {
            running: Slot::IDLE,
            key: 0,
            node: 0,
            visits: 0,
        }
    }
}

// The kinds of copies, the largest of them, and which have a value.
impl Copy {
    pub const WITHDRAWN: u32 = 0;

    pub const RESULT: u32 = 1;

    pub const LAST_KIND: u32 = Copy::RESULT;

    // A copy of this kind has a value; of any other kind it holds 0. (A rule in its own words, no equality by hand.)
    pub fn has_value(kind: u32) -> bool
        ensures { result ≡ has_value kind }
    {
        kind == Copy::RESULT
    }
}

// The answer numbers of a call that is done, and of a search that goes on; the others are of refusals (refusal.rt).
impl Answer {
    pub const DONE: u32 = 0;

    pub const GOING: u32 = 1;

    // An answer of which nothing but the number is named.
    pub fn bare(number: u32) -> Answer
        ensures { result ≡ bare number }
    {
        Answer {
            number,
            a: 0,
            b: 0,
            c: 0,
            d: 0,
        }
    }

    // An answer in full.
    pub fn of(number: u32, a: u64, b: u64, c: u64, d: u64) -> Answer
        ensures { result ≡ answer number a b c d }
    {
        Answer { number, a, b, c, d }
    }
}

// The clock's last value, the slot count, the nodes, the places to each and in all.
impl Store {
    pub const LAST_CLOCK: u32 = 4294967295;

    pub const SLOTS: usize = 8;

    pub const NODES: usize = plan::MOST_NODES;

    pub const WIDTH: usize = plan::MOST_CAPACITY;

    pub const PLACES: usize = Store::NODES * Store::WIDTH;

    // All slots idle.
    pub fn idle_slots() -> [Slot; Store::SLOTS]
        ensures { result ≡ replicate slot_count idle }
    {
        [Slot::idle(); Store::SLOTS]
    }

    // "Fresh: clock 1, nothing held, all slots idle."
    fn empty(plan: u32) -> Store
        ensures { result ≡ fresh_store plan }
    {
        Store {
            plan,
            clock: 1,
            counts: [0; Store::NODES],
            keys: [0; Store::PLACES],
            kinds: [0; Store::PLACES],
            values: [0; Store::PLACES],
            stamps: [0; Store::PLACES],
            slots: Store::idle_slots(),
        }
    }

    // "A refused fresh or load returns a fresh store of plan 1".
    pub fn refused() -> Store
        ensures { result ≡ refused_store }
    {
        Store::empty(1)
    }

    // "plan 1 to 3". (A rule in its own words, no order by hand.)
    pub fn is_plan(plan: u32) -> bool
        ensures { result ≡ plan_number_test plan }
    {
        1 <= plan && plan as usize <= plan_table::PLANS
    }

    // A fresh store of the plan; "plan not 1 to 3": PLAN, and a fresh store of plan 1.
    pub fn fresh(plan: u32) -> Outcome
        ensures { Freshens plan result }
    {
        if Store::is_plan(plan) {
            Outcome {
                answer: Answer::bare(Answer::DONE),
                store: Store::empty(plan),
            }
        } else {
            Outcome {
                answer: Answer::from(Refusal::Plan),
                store: Store::refused(),
            }
        }
    }
}
