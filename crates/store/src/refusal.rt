// Why a call is refused, or bytes are: each has its answer number.
ghost use Rattle.std.specs.Prelude.{◌≡◌};
ghost use Rattle.store.specs.Answers.{answer, bare};
ghost use Rattle.store.specs.Refusals.{refusal_number};

use crate::Answer;

// The refusals, in the order of the answer numbers.
#[derive(Clone, Copy, Debug, PartialEq, Eq)]
pub enum Refusal {
    BadStore = 2,
    Plan = 3,
    Clock = 4,
    Full = 5,
    Node = 6,
    Edge = 7,
    Slots = 8,
    Slot = 9,
    Idle = 10,
    Small = 11,
    Sample = 12,
    Cut = 13,
    Number = 14,
    Format = 15,
    Rule = 16,
    Trail = 17,
    Op = 18,
    Many = 19,
}

impl Refusal {
    // Its answer number. (The one cast of the enum.)
    pub fn number(self) -> u32
        ensures { result ≡ refusal_number self }
    {
        self as u32
    }

    // The answer that names a number beside it: the bytes needed, a place, or an offset.
    pub fn with(self, a: u64) -> Answer
        ensures { result ≡ answer (refusal_number self) a 0 0 0 }
    {
        Answer::of(self.number(), a, 0, 0, 0)
    }
}

// A refusal of which nothing but the number is named.
impl From<Refusal> for Answer {
    ghost from_gives = { λ refusal reply. reply ≡ bare (refusal_number refusal) };

    fn from(refusal: Refusal) -> Answer {
        Answer::bare(refusal.number())
    }
}
