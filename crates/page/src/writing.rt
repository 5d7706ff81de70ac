// The bytes of a page.
ghost use Rattle.wire.specs.Writing.{HasRoom, Puts};
ghost use Rattle.page.specs.PageBytes.{page_line_bytes, page_lines_bytes, page_bytes};
ghost use Rattle.page.specs.Workers.{RoomForPage};

use page_lines::PageLine;
use store::Copy;

// A page's line: "analyte, value, stamp". A line that is shown is a result.
#[tactic(auto, using(crate::proofs::PageWriting::line_long))]
fn write_line(buffer: &mut [u8], at: usize, line: PageLine) -> usize
    requires { HasRoom buffer at (page_line_bytes line) }
    ensures { Puts buffer at (page_line_bytes line) result }
{
    let after_analyte = number::write_at(buffer, at, line.analyte);
    let after_value = copies::write_value(buffer, after_analyte, Copy::RESULT, line.value);
    number::write_at(buffer, after_value, line.stamp)
}

// A page's lines, one after another.
fn write_lines(buffer: &mut [u8], at: usize, lines: &[PageLine]) -> usize
    requires { HasRoom buffer at (page_lines_bytes lines.now) }
    ensures { Puts buffer at (page_lines_bytes lines.now) result }
{
    let mut next = at;
    for line in lines {
        next = write_line(buffer, next, *line);
    }
    next
}

// A page: "sample, line count", then the lines.
#[tactic(auto, using(crate::proofs::PageWriting::page_long))]
pub fn write_page(buffer: &mut [u8], sample: u32, lines: &[PageLine]) -> usize
    requires { RoomForPage buffer sample lines.now }
    ensures { Puts buffer 0 (page_bytes sample lines.now) result }
{
    let after_sample = number::write_at(buffer, 0, sample);
    let after_count = number::write_at(buffer, after_sample, lines.len() as u32);
    write_lines(buffer, after_count, lines)
}
