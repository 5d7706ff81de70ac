// How many bytes an image takes, and writing it into a lent buffer. Document 01, "Bytes".
#![tactic(auto)]

pub mod lengths; // lengths.rt: how many bytes an image takes
pub mod writing; // writing.rt: an image written into a lent buffer

// "format 1"
pub const FORMAT: u32 = 1;
