// Prints the text of the schedule on standard input. Document 01, "A schedule in full".
#![tactic(auto)]

ghost use Rattle.std.specs.Prelude.{◌≡◌, ◌<◌, ℕ, length, take, IfOk, OnOk, OnErr, IfErr};
ghost use Rattle.std.specs.Io.KnownBytes.{Consumes, IsAtEnd, Keeps};
ghost use Rattle.olipranj.specs.Printing.{PrintsFirst};
ghost use Rattle.io.specs.Counts.{IsPrefixLen};

use std::io::{Read, Write};
use std::process::ExitCode;

// "The program reads a schedule on standard input, its first 65,536 bytes".
const MOST: usize = 65536;

// Why a run ended before the whole text was written.
#[derive(Clone, Copy, Debug, PartialEq, Eq)]
enum Fault {
    Unread,
    Unwritten,
}

// Reads the input into the buffer, and gives how many bytes were read. A read of no bytes is the end of the input; a read that fails is not.
fn read_input<R: Read>(input: &mut R, buffer: &mut [u8]) -> Result<usize, Fault>
    ensures within { IfOk result (λ n. IsPrefixLen n buffer.new) }
    ensures bytes { IfOk result (λ n. Consumes (R.remaining input.old) (R.remaining input.new) (take n buffer.new)) }
    ensures whole { IfOk result (λ n. n < length buffer.new → IsAtEnd (R.remaining input.new)) }
    ensures unread { IfErr result (λ fault. fault ≡ Fault.Unread) }
    ensures begun { OnErr result ((n : ℕ) × IsPrefixLen n buffer.new × Consumes (R.remaining input.old) (R.remaining input.new) (take n buffer.new)) }
{
    let mut n = 0;
    // By hand: `read_to_end` fills a Vec, and `read_exact` does not tell how many bytes an input shorter than the buffer had.
    while n < buffer.len() {
        match input.read(&mut buffer[n..]) {
            Ok(0) => break,
            Ok(more) => n += more,
            Err(_) => return Err(Fault::Unread),
        }
    }
    Ok(n)
}

// Writes the text of the input's first bytes; of an input that cannot be read, nothing. (Arrays cut to what was read and written: no heap.)
fn print_text<R: Read, W: Write>(input: &mut R, out: &mut W) -> Result<(), Fault>
    ensures text { OnOk result (PrintsFirst (R.remaining input.old) (W.contents out.old) (W.contents out.new)) }
    ensures unread { IfErr result (λ fault. fault ≡ Fault.Unread → Keeps (W.contents out.old) (W.contents out.new)) }
{
    let mut bytes = [0; MOST];
    let length = read_input(input, &mut bytes)?;
    let mut text = [0; transcript::ROOM];
    let written = transcript::transcribe(&bytes[..length], &mut text);
    out.write_all(&text[..written])
        .map_err(|_| Fault::Unwritten)
}

// Status 1: the input could not be read, which standard error says too, or the text could not be written.
fn main(rt: HostRuntime) -> ExitCode {
    match print_text(&mut rt.stdin(), &mut rt.stdout()) {
        Ok(()) => ExitCode::SUCCESS,
        Err(Fault::Unread) => {
            let _ = eprintln!(rt; "olipranj: standard input could not be read");
            ExitCode::FAILURE
        }
        Err(Fault::Unwritten) => ExitCode::FAILURE,
    }
}
