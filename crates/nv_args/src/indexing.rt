//! Rows and columns that numbers name, of those of a text.
ghost use Rattle.std.specs.Prelude.{◌≡◌};
ghost use Rattle.nv_args.specs.Arguments.{is_outside, row_of_index, leaves_text, text_row, text_col};

/// Whether an index lies outside 0 to the number of lines. A negative one counts from behind the
/// last line, -1 being the number of lines (Neovim help `api-indexing`).
pub fn is_outside(index: i64, lines: usize) -> bool
    ensures { result ≡ is_outside index lines }
{
    let distance = if index >= 0 {
        index as u64
    } else {
        (-(index + 1)) as u64
    };
    distance > lines as u64
}

/// The row that an index names, the nearest one where it lies outside.
pub fn row_of_index(index: i64, lines: usize) -> usize
    ensures { result ≡ row_of_index index lines }
{
    if index >= 0 {
        (index as usize).min(lines)
    } else {
        lines.saturating_sub((-(index + 1)) as usize)
    }
}

/// Whether a range leaves a text of so many lines: where it is strict, and one of its indices lies
/// outside.
pub fn leaves_text(strict: bool, start: i64, end: i64, lines: usize) -> bool
    ensures { result ≡ leaves_text strict start end lines }
{
    strict && (is_outside(start, lines) || is_outside(end, lines))
}

/// The row, from 0, that a number names in a text of so many lines, if any. A negative one counts
/// from behind the last row, -1 being the last (Neovim help `nvim_buf_get_text()`).
pub fn text_row(row: i64, lines: usize) -> Option<usize>
    ensures { result ≡ text_row row lines }
{
    if row >= 0 {
        let row = row as usize;
        if row < lines { Some(row) } else { None }
    } else {
        let back = (-(row + 1)) as usize;
        if back < lines {
            Some(lines - 1 - back)
        } else {
            None
        }
    }
}

/// The column, from 0, that a number names in a line of so many bytes, if any. A negative one
/// counts from behind the line's end, -1 being its length (Neovim help `nvim_buf_get_text()`).
pub fn text_col(col: i64, bytes: usize) -> Option<usize>
    ensures { result ≡ text_col col bytes }
{
    if col >= 0 {
        let col = col as usize;
        if bytes < col { None } else { Some(col) }
    } else {
        let back = (-(col + 1)) as usize;
        if bytes < back {
            None
        } else {
            Some(bytes - back)
        }
    }
}
