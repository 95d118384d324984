//! Lines of text from bytes.

use nv_lines::{Line, is_line};
use std::alloc::{AllocError, Global};

// The line of these bytes, and an empty one where they are none.
pub fn line_of(alloc: Global, bytes: &[u8]) -> Result<Line, AllocError> {
    let bytes = Vec::from_slice(alloc, bytes)?;
    if !is_line(bytes.as_slice()) {
        return Line::new(alloc);
    }
    Line::from_vec(bytes)
}
