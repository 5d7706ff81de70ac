// A sample by its number.
ghost use Rattle.std.specs.Prelude.{◌≡◌, ◌<◌, ◌≤◌, MatchOption};
ghost use Rattle.page_lines.specs.PageLine.{last_sample};

// "sample 0 to 134,217,727"
const LAST_SAMPLE: u32 = 134217727;

// A sample's number, which is not too large.
#[derive(Clone, Copy)]
pub struct Sample {
    pub number: u32,
    ghost in_range: { number ≤ last_sample },
}

impl Sample {
    // The sample of this number, or nothing where it is too large.
    pub fn numbered(number: u32) -> Option<Sample>
        ensures { MatchOption result (last_sample < number) (λ s. s.number ≡ number) }
    {
        if LAST_SAMPLE < number {
            None
        } else {
            Some(Sample { number })
        }
    }
}
