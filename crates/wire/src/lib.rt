// Numbers read one after another, where the first fault wins. What a lent buffer holds after a call is defined in specs/Writing.antt.
#![tactic(auto)]

ghost use Rattle.std.specs.Prelude.{◌≡◌, cond};
ghost use Rattle.number.specs.Number.{narrow};
ghost use Rattle.store.specs.Answers.{answer};
ghost use Rattle.store.specs.Refusals.{refusal_number};
ghost use Rattle.wire.specs.Reading.{got, got_of, number_at};

use number::{NumberError, Read};
use store::Answer;
use store::refusal::Refusal;

// A fault in bytes: why, and the offset.
#[derive(Clone, Copy, Debug, PartialEq, Eq)]
pub struct Fault {
    pub why: Refusal,
    pub at: usize,
}

impl Fault {
    // The fault at an offset.
    pub fn at(why: Refusal, at: usize) -> Fault
        ensures { result ≡ record { why = why; at = at } }
    {
        Fault { why, at }
    }
}

// "the first fault wins": its answer has the offset.
impl From<Fault> for Answer {
    ghost from_gives = { λ fault reply. reply ≡ answer (refusal_number fault.why) fault.at 0 0 0 };

    fn from(fault: Fault) -> Answer {
        fault.why.with(fault.at as u64)
    }
}

// The 32-bit number at an offset, or CUT or NUMBER with that offset.
#[tactic(auto, unfolding(crate::specs::Reading::number_at, crate::specs::Reading::numbered))]
pub fn read_number(bytes: &[u8], at: usize) -> Result<Read<u32>, Fault>
    ensures { got_of result ≡ number_at narrow bytes.now at }
{
    number::read_at(bytes, at).map_err(|error| {
        let why = match error {
            NumberError::Cut => Refusal::Cut,
            NumberError::Malformed => Refusal::Number,
        };
        Fault::at(why, at)
    })
}

// The same where a number is there; else 0, and the same offset.
pub fn read_where(there: bool, bytes: &[u8], at: usize) -> Result<Read<u32>, Fault>
    ensures { got_of result ≡ cond there (number_at narrow bytes.now at) (got 0 at) }
{
    if there {
        read_number(bytes, at)
    } else {
        Ok(Read { value: 0, next: at })
    }
}
