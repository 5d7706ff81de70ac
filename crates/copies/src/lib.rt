// A copy's bytes: how many they are, writing them and reading them. Document 01, "Bytes".
#![tactic(auto)]

ghost use Rattle.std.specs.Prelude.{◌≡◌, length};
ghost use Rattle.wire.specs.Reading.{got_of};
ghost use Rattle.wire.specs.Writing.{HasRoom, Puts};
ghost use Rattle.copies.specs.CopyBytes.{value_bytes, copy_bytes, read_value, read_copy};

use number::Read;
use store::Copy;
use store::refusal::Refusal;
use wire::Fault;

// (A writer is lent the buffer and an offset, and asks for room: `HasRoom`, `Puts`. A cursor's promise would name its start, its place and the buffer
// before and after, and be no shorter. Length, writing and reading are three functions: each walks another way, and a trait over them would say the form no shorter. A kind is a number
// here, as it is in a copy and in its bytes.)
// How many bytes the value of a copy takes: none where its kind has no value.
#[tactic(auto, unfolding(crate::specs::CopyBytes::value_bytes))]
pub fn value_length(kind: u32, value: u32) -> usize
    ensures { result ≡ length (value_bytes kind value) }
{
    if Copy::has_value(kind) {
        number::length_of(value)
    } else {
        0
    }
}

// (Its numbers are told one after another.)
// How many bytes a copy takes.
pub fn copy_length(copy: Copy) -> usize
    ensures { result ≡ length (copy_bytes copy) }
{
    number::length_of(copy.key)
        + number::length_of(copy.kind)
        + value_length(copy.kind, copy.value)
        + number::length_of(copy.stamp)
}

// Writes the value of a copy, where its kind has one.
#[tactic(auto, using(lists::proofs::Standing::wrote_nil), unfolding(crate::specs::CopyBytes::value_bytes))]
pub fn write_value(buffer: &mut [u8], at: usize, kind: u32, value: u32) -> usize
    requires { HasRoom buffer at (value_bytes kind value) }
    ensures { Puts buffer at (value_bytes kind value) result }
{
    if Copy::has_value(kind) {
        number::write_at(buffer, at, value)
    } else {
        at
    }
}

// (Its numbers are told one after another.)
// Writes a copy: key, kind, value, stamp.
pub fn write_copy(buffer: &mut [u8], at: usize, copy: Copy) -> usize
    requires { HasRoom buffer at (copy_bytes copy) }
    ensures { Puts buffer at (copy_bytes copy) result }
{
    let after_key = number::write_at(buffer, at, copy.key);
    let after_kind = number::write_at(buffer, after_key, copy.kind);
    let after_value = write_value(buffer, after_kind, copy.kind, copy.value);
    number::write_at(buffer, after_value, copy.stamp)
}

// The value of a copy; where its kind has none, the copy holds 0.
#[tactic(auto, unfolding(crate::specs::CopyBytes::read_value))]
pub fn read_value(bytes: &[u8], kind: u32, at: usize) -> Result<Read<u32>, Fault>
    ensures { got_of result ≡ read_value bytes.now kind at }
{
    wire::read_where(Copy::has_value(kind), bytes, at)
}

// A copy: key, kind (RULE above the last), value, stamp.
#[tactic(auto, unfolding(crate::specs::CopyBytes::read_copy, wire::specs::Reading::bind))]
pub fn read_copy(bytes: &[u8], at: usize) -> Result<Read<Copy>, Fault>
    ensures { got_of result ≡ read_copy bytes.now at }
{
    let key = wire::read_number(bytes, at)?;
    let kind = wire::read_number(bytes, key.next)?;
    if Copy::LAST_KIND < kind.value {
        return Err(Fault::at(Refusal::Rule, key.next));
    }
    let held = read_value(bytes, kind.value, kind.next)?;
    let stamp = wire::read_number(bytes, held.next)?;
    let copy = Copy {
        key: key.value,
        kind: kind.value,
        value: held.value,
        stamp: stamp.value,
    };
    Ok(Read {
        value: copy,
        next: stamp.next,
    })
}
