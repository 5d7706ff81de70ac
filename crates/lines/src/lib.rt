// Printed lines: six numbers in decimal with single spaces, and a line feed. Document 01, "A schedule in full".
#![tactic(auto)]

ghost use Rattle.std.specs.Prelude.{◌+◌, ◌≤◌, length, OnOk};
ghost use Rattle.std.specs.Io.KnownBytes.{Appends};
ghost use Rattle.lists.specs.Stands.{Wrote};
ghost use Rattle.lines.specs.Text.{decimal, answer_text, most_digits, most_text};
ghost use Rattle.lines.specs.Promises.{Prints};

use std::io;
use std::io::Write;
use store::Answer;

// Six numbers of at most 20 digits, each with one byte after it.
pub const ROOM: usize = 126;

// Writes a number in decimal at an offset with room for any number, and gives the offset after it.
fn write_number(buffer: &mut [u8], at: usize, number: u64) -> usize
    requires { at + most_digits ≤ length buffer.old }
    ensures { Wrote buffer.old at (decimal number) result buffer.new × (result ≤ at + most_digits) }
{
    let mut digits = itoa::Buffer::new();
    let text = digits.format(number).as_bytes();
    let end = at + text.len();
    buffer[at..end].copy_from_slice(text);
    end
}

// Writes the line of a first number and an answer at an offset with room for any line, and gives the offset after it. (Its numbers are told one after
// another; `Prints` names the offset.)
pub fn print_into(buffer: &mut [u8], at: usize, first: u32, answer: Answer) -> usize
    requires { at + most_text ≤ length buffer.old }
    ensures { Prints buffer.old at first answer result buffer.new }
{
    let mut end = write_number(buffer, at, first as u64);
    for number in [answer.number as u64, answer.a, answer.b, answer.c, answer.d] {
        buffer[end] = b' ';
        end = write_number(buffer, end + 1, number);
    }
    buffer[end] = b'\n';
    end + 1
}

// Writes that line to a writer. (From an array that is cut to what was written: no heap.)
pub fn print<W: Write>(out: &mut W, first: u32, answer: Answer) -> io::Result<()>
    ensures { OnOk result (Appends (W.contents out.old) (W.contents out.new) (answer_text first answer)) }
{
    let mut line = [0; ROOM];
    let end = print_into(&mut line, 0, first, answer);
    out.write_all(&line[..end])
}
