// Numbers as bytes: groups of seven bits, lowest first, one per byte, the top bit set while more follow.
#![tactic(auto)]

ghost use Rattle.std.specs.Prelude.{◌≡◌, ◌+◌, ◌≤◌, ◌<◌, length};
ghost use Rattle.lists.specs.Stands.{Wrote};
ghost use Rattle.number.specs.Number.{narrow, form, read_at, reading_of};

// A 32-bit number has at most four bytes with the top bit set.
const MORE: u32 = 4;

// After four others its last byte is at most 0F.
const LAST: u32 = 15;

// What was read, and the offset after it.
#[derive(Clone, Copy)]
pub struct Read<T> {
    pub value: T,
    pub next: usize,
}

// Why no number is read: the bytes end inside or before it (CUT), or it is not the shortest form of a 32-bit number (NUMBER).
#[derive(Clone, Copy, Debug, PartialEq, Eq)]
pub enum NumberError {
    Cut,
    Malformed,
}

// The number at an offset, which may lie past the end. A number of one byte is given at once; of a longer one each further byte adds its
// group, `scale` times, and at most `more` further bytes may have the top bit.
#[tactic(auto, using(crate::proofs::Reader::reader_laws))]
pub fn read_at(bytes: &[u8], at: usize) -> Result<Read<u32>, NumberError>
    ensures { reading_of result ≡ read_at narrow bytes.now at }
{
    if bytes.len() <= at {
        return Err(NumberError::Cut);
    }
    let low = u32::from(bytes[at]);
    if low < 128 {
        return Ok(Read {
            value: low,
            next: at + 1,
        });
    }
    let mut value = low - 128;
    let mut scale: u32 = 128;
    let mut more = MORE - 1;
    for next in at + 1..bytes.len() {
        let byte = u32::from(bytes[next]);
        if byte == 0 {
            return Err(NumberError::Malformed);
        }
        if more == 0 && LAST < byte {
            return Err(NumberError::Malformed);
        }
        if byte < 128 {
            return Ok(Read {
                value: value + scale * byte,
                next: next + 1,
            });
        }
        value += scale * (byte - 128);
        scale *= 128;
        more -= 1;
    }
    Err(NumberError::Cut)
}

// (Its length, its writing and its reading are three functions: each walks another way.)
// How many bytes the form of a number has.
pub fn length_of(value: u32) -> usize
    ensures { result ≡ length (form value) }
{
    let mut rest = value;
    let mut count: usize = 1;
    // The rest ends the loop, so no index is counted.
    while 128 <= rest {
        rest /= 128;
        count += 1;
    }
    count
}

// Writes the form of a number at an offset where it fits, and gives the offset after it.
pub fn write_at(buffer: &mut [u8], at: usize, value: u32) -> usize
    requires { at + length (form value) ≤ length buffer.old }
    ensures { Wrote buffer.old at (form value) result buffer.new }
{
    let mut rest = value;
    let mut i = at;
    // The rest ends the loop, and `i` goes along: over a range it would need a break besides, and be no plainer.
    while 128 <= rest {
        buffer[i] = (128 + rest % 128) as u8;
        rest /= 128;
        i += 1;
    }
    buffer[i] = rest as u8;
    i + 1
}
