// The text of a schedule: its bytes are decoded, its steps are run, and their printed lines are written. Document 01, "A schedule in full".
#![tactic(auto)]

ghost use Rattle.std.specs.Prelude.{◌+◌, ◌*◌, ◌≤◌, length};
ghost use Rattle.store.specs.Promises.{fresh_outcome};
ghost use Rattle.wire.specs.Writing.{Puts};
ghost use Rattle.lines.specs.Text.{most_text};
ghost use Rattle.schedule.specs.Schedule.{most_steps};
ghost use Rattle.transcript.specs.Transcript.{steps_text};
ghost use Rattle.transcript.specs.Promises.{Transcribes};

use schedule::{Step, decoding};
use store::{Answer, Store};

// The first line and one line a step: room for any text.
pub const ROOM: usize = lines::ROOM * (1 + Step::MOST);

// One line a step, on a fresh store of the plan.
fn write_steps(out: &mut [u8], from: usize, plan: u32, steps: &[Step]) -> usize
    requires { (length steps.now ≤ most_steps) × (from + most_text * length steps.now ≤ length out.old) }
    ensures { Puts out from (steps_text steps.now (fresh_outcome plan).store 0 (length steps.now)) result
        × (result ≤ from + most_text * length steps.now) }
{
    let mut store = Store::fresh(plan).store;
    let mut at = from;
    for (place, step) in steps.iter().enumerate() {
        let answer = runner::do_in(&mut store, *step, place);
        at = lines::print_into(out, at, step.number, answer);
    }
    at
}

// Writes the text of a schedule's bytes from the buffer's beginning on, and gives its length. "A refused schedule stops" after the first line.
pub fn transcribe(bytes: &[u8], out: &mut [u8; ROOM]) -> usize
    ensures { Transcribes bytes.now out.old result out.new }
{
    match decoding::decode_into(bytes, Step::MOST) {
        Ok(read) => {
            let steps = read.value.records();
            let count = Answer::of(Answer::DONE, steps.len() as u64, 0, 0, 0);
            let from = lines::print_into(out, 0, 0, count);
            write_steps(out, from, read.value.plan, steps)
        }
        Err(fault) => lines::print_into(out, 0, 0, Answer::from(fault)),
    }
}
