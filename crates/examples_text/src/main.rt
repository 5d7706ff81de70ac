// Further examples of a schedule's text: refused schedules, no bytes at all, more bytes than a program reads, and 256 steps.
#![tactic(auto)]

use std::io;
use std::io::Write;

// Prints the text of some bytes. (An array cut to what was written: no heap.)
fn print(out: &mut impl Write, bytes: &[u8]) -> io::Result<()> {
    let mut text = [0; transcript::ROOM];
    let length = transcript::transcribe(bytes, &mut text);
    out.write_all(&text[..length])
}

// CUT of no bytes and inside a step, NUMBER of a longer form and of more than 32 bits.
fn not_read(out: &mut impl Write) -> io::Result<()> {
    let cut = [1, 1, 33, 180];
    let longer = [1, 1, 33, 180, 129, 0];
    let above = [1, 2, 255, 255, 255, 255, 16];
    for bytes in [&[][..], &cut, &longer, &above] {
        print(out, bytes)?;
    }
    Ok(())
}

// PLAN, OP after a step that is not done, MANY after 256 steps and for more than 65,536 bytes.
fn not_decoded(out: &mut impl Write) -> io::Result<()> {
    let plan = [0];
    let op = [1, 2, 33, 7];
    let many = [2; 514];
    let beyond = [2; 65537];
    for bytes in [&plan[..], &op, &many, &beyond] {
        print(out, bytes)?;
    }
    Ok(())
}

// No step; 256 of them.
fn decoded(out: &mut impl Write) -> io::Result<()> {
    print(out, &[3])?;
    print(out, &[2; 513])
}

fn main(rt: HostRuntime) -> io::Result<()> {
    let mut out = rt.stdout();
    not_read(&mut out)?;
    not_decoded(&mut out)?;
    decoded(&mut out)
}
