// Decoding into a lent list of step records.
#![tactic(auto)]

ghost use Rattle.schedule.specs.Promises.{Decodes};

use schedule::{Step, decoding};
use store::Answer;

// Decoding into a lent list: a refusal leaves every record, an accepted schedule writes exactly its own.
#[tactic(auto, using(crate::proofs::Laying::laying_laws))]
pub fn decode(bytes: &[u8], list: &mut [Step]) -> Answer
    ensures { Decodes bytes.now list.old result list.new }
{
    match decoding::decode_into(bytes, list.len()) {
        Ok(read) => {
            let steps = read.value.records();
            list[..steps.len()].copy_from_slice(steps);
            Answer::of(
                Answer::DONE,
                steps.len() as u64,
                u64::from(read.value.plan),
                0,
                0,
            )
        }
        Err(fault) => Answer::from(fault),
    }
}

// A list of records by value, and decode's answer over it.
#[derive(Clone, Copy)]
pub struct Listed {
    pub answer: Answer,
    pub list: [Step; Step::MOST],
}

// The same for whoever has the list by value: it is lent, and comes back. (A public call beside the other; docs/PROMISES.md names both.)
pub fn decode_list(bytes: &[u8], mut list: [Step; Step::MOST]) -> Listed
    ensures { Decodes bytes.now list result.answer result.list }
{
    let answer = decode(bytes, &mut list);
    Listed { answer, list }
}
