// The household's bytes: page and serve. Document 01, "Bytes".
#![tactic(auto)]

ghost use Rattle.std.specs.Prelude.{MatchResult};
ghost use Rattle.store.specs.Answers.{bare};
ghost use Rattle.store.specs.Refusals.{refusal_number};
ghost use Rattle.page.specs.Promises.{Pages, ServesLength, Serves};
ghost use Rattle.page.specs.Workers.{WritesNow};

use page_lines::sample::Sample;
use store::refusal::Refusal;
use store::{Answer, Store};

mod writing; // writing.rt: the bytes of a page

// "At most 357 bytes."
const LONGEST: usize = 357;

// The sample's page as it is now, into a scratch that has room for the longest. Gives its length; or BADSTORE, SAMPLE.
// (Scratch and length stay apart: an ArrayVec of bytes blanks what lies past its end, and short pages took a tenth longer than before.)
fn write_now(store: &Store, sample: u32, scratch: &mut [u8; LONGEST]) -> Result<usize, Refusal>
    ensures { WritesNow store.now sample scratch.new result }
{
    rules::check(store)?;
    let sample = Sample::numbered(sample).ok_or(Refusal::Sample)?;
    let nodes = plan_table::rows_of(store.plan).nodes;
    let lines = page_lines::gather(store, nodes, sample);
    Ok(writing::write_page(scratch, sample.number, lines.as_slice()))
}

// The sample's page as it is now, into a buffer that may be too short; or BADSTORE, SAMPLE.
fn paged(store: &Store, sample: u32, buffer: &mut [u8]) -> Result<Answer, Refusal>
    ensures { MatchResult result (λ answer. Pages store.now sample buffer.old answer buffer.new) (λ why. Pages store.now sample buffer.old (bare (refusal_number why)) buffer.new) }
{
    let mut scratch = [0; LONGEST];
    let n = write_now(store, sample, &mut scratch)?;
    if buffer.len() < n {
        return Ok(Refusal::Small.with(n as u64));
    }
    buffer[..n].copy_from_slice(&scratch[..n]);
    Ok(Answer::of(Answer::DONE, n as u64, 0, 0, 0))
}

// The page of a sample into the buffer: BADSTORE, SAMPLE, SMALL with the bytes needed, or DONE with the bytes written.
pub fn page_in(store: &Store, sample: u32, buffer: &mut [u8]) -> Answer
    ensures { Pages store.now sample buffer.old result buffer.new }
{
    paged(store, sample, buffer).unwrap_or_else(Answer::from)
}

// The same of a store by value.
pub fn page(store: Store, sample: u32, buffer: &mut [u8]) -> Answer
    ensures { Pages store sample buffer.old result buffer.new }
{
    page_in(&store, sample, buffer)
}

// How many of the kept bytes are the sample's page as it is now: its length if they begin with it; else, and for a bad store or sample, 0
// (the C interface hands back this length, and no page is empty).
pub fn served_length_in(store: &Store, sample: u32, kept: &[u8]) -> usize
    ensures { ServesLength store.now sample kept.now result }
{
    let mut scratch = [0; LONGEST];
    let Ok(n) = write_now(store, sample, &mut scratch) else {
        return 0;
    };
    if kept.starts_with(&scratch[..n]) {
        n
    } else {
        0
    }
}

// "If the kept bytes begin with the sample's page as it is now, exactly that beginning is returned; otherwise, and for a bad store or
// sample, the whole notice." No page is empty.
pub fn serve<'a>(store: Store, sample: u32, kept: &'a [u8], notice: &'a [u8]) -> &'a [u8]
    ensures { Serves store sample kept.entry notice.entry result }
{
    let n = served_length_in(&store, sample, kept);
    if n == 0 {
        return notice;
    }
    &kept[..n]
}
