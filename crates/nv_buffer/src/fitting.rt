// Tests of what the calls that change a text require.
ghost use Rattle.std.specs.Prelude.{◌↔◌, All, IsTrue};
ghost use Rattle.nv_buffer.specs.Splices.{IsInLine, IsNarrowLine};

use nv_lines::{LineList, Lines};
use nv_places::Pos;

/// Whether a place lies in a line of the text: in one of its rows, up to the end of the line.
pub fn is_in_line(text: &Lines, place: Pos) -> bool
    ensures { IsTrue result ↔ IsInLine text.now place }
{
    match text.get(place.row as usize) {
        Some(line) => place.col as usize <= line.len(),
        None => false,
    }
}

/// Whether each of the lines has fewer than 2^32 bytes, so that its columns are numbers of 32 bits.
pub fn is_narrow(lines: &LineList) -> bool
    ensures { IsTrue result ↔ All IsNarrowLine lines.now }
{
    for place in 0..lines.len() {
        let Some(line) = lines.get(place) else {
            return true;
        };
        if line.len() > u32::MAX as usize {
            return false;
        }
    }
    true
}
