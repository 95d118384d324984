//! What a decoder is asked, and what it answers.

use nv_value::Value;

/// How far a value may go.
#[derive(Clone, Copy, Debug, PartialEq, Eq)]
pub struct Bounds {
    /// The greatest number of lists and maps one in another. An empty one counts.
    pub depth: u32,
    /// The greatest number of bytes of one value, at least 1.
    pub bytes: u64,
}

/// What stands at the front of a text. A place counts bytes from 0.
#[derive(Drop)]
pub enum Decoded {
    /// A value, and how many bytes spell it.
    Whole(Value, usize),
    /// Fewer bytes than a value has.
    NeedsMore,
    /// The byte c1, which begins no value, at this place.
    Bad(usize),
    /// A list or map in too many others, whose first byte is at this place.
    TooDeep(usize),
    /// A value that can't end within the greatest number of bytes: the value begun last, whose
    /// first byte is at this place. A length byte that hasn't come counts 0, and each value that is
    /// owed counts one byte.
    TooLong(usize),
}
