// The length of flat text, and the rows in it.
ghost use Rattle.std.specs.Prelude.{◌≡◌, ◌+◌, ◌^◌, ◌<◌, ◌≤◌, length, SomeIff, MatchOption};
ghost use Rattle.nv_places.specs.Flat.{flat, row_start};
ghost use Rattle.nv_lines.specs.Text.{IsRowAt};

use crate::single::Line;

/// The number of bytes of the flat text of these lines.
pub fn flat_len(lines: &[Line]) -> u64
    requires { length (flat lines.now) < 2 ^ 64 }
    ensures { result ≡ length (flat lines.now) }
{
    let mut bytes = 0;
    for line in lines {
        bytes += line.len() as u64 + 1;
    }
    bytes
}

/// The number of bytes of the flat text of the lines from `from` up to before `to`. `None` exactly
/// where `to` is past the last.
pub fn flat_len_within(lines: &[Line], from: usize, to: usize) -> Option<u64>
    requires order { from ≤ to }
    requires small { length (flat lines.now) < 2 ^ 64 }
    ensures { MatchOption result (length lines.now < to) (λ n. (to ≤ length lines.now)
        × (row_start lines.now from + n ≡ row_start lines.now to)) }
{
    let count = lines.len();
    if to > count {
        return None;
    }
    Some(flat_len(&lines[from..to]))
}

// So many bytes, and those of one more line with its end. `None` exactly where they don't fit.
fn with_line(bytes: u64, line: &Line) -> Option<u64>
    ensures { SomeIff result (bytes + (length line.now + 1) < 2 ^ 64)
        (bytes + (length line.now + 1)) }
{
    bytes.checked_add(line.len() as u64)?.checked_add(1)
}

/// The number of bytes of the flat text of these lines. `None` exactly where it doesn't fit.
pub fn checked_flat_len(lines: &[Line]) -> Option<u64>
    ensures { MatchOption result (2 ^ 64 ≤ length (flat lines.now))
        (λ n. n ≡ length (flat lines.now)) }
{
    let mut bytes = 0;
    for line in lines {
        let Some(sum) = with_line(bytes, line) else {
            return None;
        };
        bytes = sum;
    }
    Some(bytes)
}

/// The row in which an offset lies. The end of the flat text gives the number of lines.
pub fn row_at(lines: &[Line], offset: u64) -> usize
    requires small { length (flat lines.now) < 2 ^ 64 }
    requires within { offset ≤ length (flat lines.now) }
    ensures { IsRowAt lines.now offset result }
{
    let mut start = 0;
    for (row, line) in lines.iter().enumerate() {
        let end = start + line.len() as u64 + 1;
        if offset < end {
            return row;
        }
        start = end;
    }
    lines.len()
}
