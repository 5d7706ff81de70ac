// Decoding: a schedule is read from the left, and the first fault wins.
ghost use Rattle.std.specs.Prelude.{◌≡◌, ◌≤◌, length, take, IfOk};
ghost use Rattle.wire.specs.Reading.{got_of};
ghost use Rattle.schedule.specs.Schedule.{known_step, has_two, second_at, step_at, steps_at, most_steps, schedule_at};
ghost use Rattle.schedule.specs.Workers.{steps_of, decoded_of, laid_down, decoded_into};

use crate::Step;
use arrayvec::ArrayVec;
use number::Read;
use store::Store;
use store::refusal::Refusal;
use wire::Fault;

// A decoded schedule: its plan, and its steps, so many records at the beginning of a list of zeros. (It may be copied, so its list is no ArrayVec.)
#[derive(Clone, Copy)]
pub struct Decoded {
    pub plan: u32,
    pub count: usize,
    pub steps: [Step; Step::MOST],
}

impl Decoded {
    // Its steps, without the zeros behind them.
    pub fn records(&self) -> &[Step]
        requires { self.now.count ≤ most_steps }
        ensures { result.now ≡ take self.now.count self.now.steps }
    {
        &self.steps[..self.count]
    }
}

// A step number from the list.
#[tactic(auto, unfolding(crate::specs::Schedule::known_step))]
fn is_known(number: u32) -> bool
    ensures { result ≡ known_step number }
{
    matches!(number, Step::ENTER..=Step::CANCEL)
}

// Steps that have two numbers; the others have one.
#[tactic(auto, unfolding(crate::specs::Schedule::has_two))]
fn has_two(number: u32) -> bool
    ensures { result ≡ has_two number }
{
    matches!(number, Step::ENTER | Step::CARRY)
}

// A step's second number, where it has one; else 0.
#[tactic(auto, unfolding(crate::specs::Schedule::second_at))]
fn read_second(bytes: &[u8], number: u32, at: usize) -> Result<Read<u32>, Fault>
    ensures { got_of result ≡ second_at bytes.now number at }
{
    wire::read_where(has_two(number), bytes, at)
}

// A step: its number (OP if unknown), then its own numbers.
#[tactic(auto, unfolding(crate::specs::Schedule::step_at, wire::specs::Reading::bind))]
fn read_step(bytes: &[u8], at: usize) -> Result<Read<Step>, Fault>
    ensures { got_of result ≡ step_at bytes.now at }
{
    let number = wire::read_number(bytes, at)?;
    if !is_known(number.value) {
        return Err(Fault::at(Refusal::Op, at));
    }
    let x = wire::read_number(bytes, number.next)?;
    let y = read_second(bytes, number.value, x.next)?;
    let step = Step {
        number: number.value,
        x: x.value,
        y: y.value,
    };
    Ok(Read {
        value: step,
        next: y.next,
    })
}

// The steps from an offset on. "At a step's start the bytes may end, and MANY is tested first."
#[tactic(auto, using(crate::proofs::StepsRead::sofar_laws))]
fn read_steps(bytes: &[u8], from: usize) -> Result<Read<ArrayVec<Step, { Step::MOST }>>, Fault>
    ensures { steps_of result ≡ steps_at bytes.now most_steps from }
{
    let mut steps = ArrayVec::new();
    let mut at = from;
    // Each step tells where the next begins, so no index is counted.
    while at < bytes.len() {
        if steps.is_full() {
            return Err(Fault::at(Refusal::Many, at));
        }
        let read = read_step(bytes, at)?;
        steps.push(read.value);
        at = read.next;
    }
    Ok(Read {
        value: steps,
        next: at,
    })
}

// A schedule's steps laid down at the beginning of a list of zeros.
#[tactic(auto, unfolding(crate::specs::Workers::decoded_of))]
fn laid(plan: u32, steps: &[Step]) -> Decoded
    requires { length steps.now ≤ most_steps }
    ensures whole { result ≡ decoded_of (record { plan = plan; steps = steps.now }) }
    ensures few { result.count ≤ most_steps }
{
    let mut list = [Step::default(); Step::MOST];
    list[..steps.len()].copy_from_slice(steps);
    Decoded {
        plan,
        count: steps.len(),
        steps: list,
    }
}

// A schedule: its plan, then its steps.
#[tactic(auto, unfolding(crate::specs::Schedule::schedule_at, crate::specs::Workers::laid_down, wire::specs::Reading::bind))]
fn read_schedule(bytes: &[u8]) -> Result<Read<Decoded>, Fault>
    ensures whole { got_of result ≡ laid_down (schedule_at bytes.now) }
    ensures few { IfOk result (λ read. read.value.count ≤ most_steps) }
{
    let plan = wire::read_number(bytes, 0)?;
    if !Store::is_plan(plan.value) {
        return Err(Fault::at(Refusal::Plan, 0));
    }
    let steps = read_steps(bytes, plan.next)?;
    Ok(Read {
        value: laid(plan.value, steps.value.as_slice()),
        next: steps.next,
    })
}

// The same for a list of so many records: "fewer than 256 records answers SMALL, a 256, before a byte is read."
#[tactic(auto, unfolding(crate::specs::Workers::decoded_into, crate::specs::Workers::laid_down))]
pub fn decode_into(bytes: &[u8], room: usize) -> Result<Read<Decoded>, Fault>
    ensures whole { got_of result ≡ laid_down (decoded_into bytes.now room) }
    ensures few { IfOk result (λ read. read.value.count ≤ most_steps) }
{
    if room < Step::MOST {
        return Err(Fault::at(Refusal::Small, Step::MOST));
    }
    read_schedule(bytes)
}
