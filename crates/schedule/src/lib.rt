// Schedules: step records and their decoding. What running one means is in specs/Running.antt.
#![tactic(auto)]

pub mod decoding; // decoding.rt: a schedule's bytes into a list of records by value

// "step number and two more, 0 where unused"; by default all zero. The number stays one, since run promises OP for each that no step has
// (`record_outcome`), and C passes it to olipranj_step.
#[derive(Clone, Copy, Default)]
pub struct Step {
    pub number: u32,
    pub x: u32,
    pub y: u32,
}

// The step numbers, and the most steps of a schedule.
impl Step {
    pub const ENTER: u32 = 1;

    pub const WITHDRAW: u32 = 2;

    pub const CARRY: u32 = 3;

    pub const START: u32 = 4;

    pub const STEP: u32 = 5;

    pub const CANCEL: u32 = 6;

    pub const MOST: usize = 256;
}
