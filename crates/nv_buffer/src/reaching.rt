// How far rows and lines reach, in places and in bytes.
ghost use Rattle.std.specs.Prelude.{◌≡◌, ◌-◌, ◌^◌, ◌<◌, false, length, All};
ghost use Rattle.std.specs.List.{join_with_byte};
ghost use Rattle.nv_places.specs.Flat.{flat, line_at};
ghost use Rattle.nv_places.specs.Places.{extent_of, further, is_before};
ghost use Rattle.nv_buffer.specs.Splices.{IsNarrowLine};

use nv_lines::LineList;
use nv_places::{Extent, Pos};

/// How far whole rows reach.
pub fn rows_reached(count: usize) -> Extent
    requires { count < 2 ^ 32 }
    ensures { result ≡ record { rows = count; cols = 0 } }
{
    Extent {
        rows: count as u32,
        cols: 0,
    }
}

/// How far it is from a place to one that isn't before it.
pub fn extent_between(start: Pos, stop: Pos) -> Extent
    requires { is_before stop start ≡ false }
    ensures { further start result ≡ stop }
{
    if start.row == stop.row {
        Extent {
            rows: 0,
            cols: stop.col - start.col,
        }
    } else {
        Extent {
            rows: stop.row - start.row,
            cols: stop.col,
        }
    }
}

// How many bytes the last line has.
fn last_len(lines: &LineList) -> u32
    requires some { 0 < length lines.now }
    requires columns { All IsNarrowLine lines.now }
    ensures { result ≡ length (line_at lines.now (length lines.now - 1)) }
{
    match lines.get(lines.len() - 1) {
        Some(line) => line.len() as u32,
        None => 0,
    }
}

/// How far lines reach once they are joined by line ends.
pub fn joined_reach(lines: &LineList) -> Extent
    requires some { 0 < length lines.now }
    requires count { length lines.now < 2 ^ 32 }
    requires columns { All IsNarrowLine lines.now }
    ensures { result ≡ extent_of (join_with_byte 10 lines.now) }
{
    let cols = last_len(lines);
    Extent {
        rows: lines.len() as u32 - 1,
        cols,
    }
}

/// How many bytes lines have, each with its line end.
pub fn flat_len_of(lines: &LineList) -> u64
    requires count { length lines.now < 2 ^ 32 }
    requires columns { All IsNarrowLine lines.now }
    ensures { result ≡ length (flat lines.now) }
{
    lines.flat_len().unwrap_or(0)
}
