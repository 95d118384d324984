//! The places of a text that numbers name (help: api-indexing, nvim_buf_set_extmark(),
//! nvim_buf_get_extmarks()).
ghost use Rattle.std.specs.Prelude.{◌≡◌, ◌≤◌, ℕ, List, IfSome, length};
ghost use Rattle.nv_places.specs.Flat.{line_at};
ghost use Rattle.nv_places.specs.Places.{IsPlaceIn};
ghost use Rattle.nv_buffer.specs.Splices.{IsNarrowText};
ghost use Rattle.nv_model.specs.Standing.{seen_buffer_now};
ghost use Rattle.nv_api_mark.specs.Listing.{place_at, row_or_last};
ghost use Rattle.nv_api_mark.specs.MarkRows.{mark_numbered};
ghost use Rattle.nv_api_mark.specs.Setting.{col_by_number, place_by_numbers, row_by_number};

use nv_buffer::{Buffer, Lines, Mark, Pos};

// The row of a text of so many lines that a number names.
fn row_by_number(strict: bool, lines: usize, row: i64) -> Option<usize>
    ensures row { result ≡ row_by_number strict lines row }
    ensures within { IfSome result (λ row. row ≤ lines) }
{
    if row < 0 {
        return None;
    }
    let row = row as usize;
    if row <= lines {
        Some(row)
    } else if strict {
        None
    } else {
        Some(lines)
    }
}

// The column of a line of so many bytes that a number names.
fn col_by_number(strict: bool, bytes: usize, col: i64) -> Option<usize>
    ensures col { result ≡ col_by_number strict bytes col }
    ensures within { IfSome result (λ col. col ≤ bytes) }
{
    if col == -1 {
        return Some(bytes);
    }
    if col < 0 {
        return None;
    }
    let col = col as usize;
    if col <= bytes {
        Some(col)
    } else if strict {
        None
    } else {
        Some(bytes)
    }
}

// How many bytes the line of a row has, and none behind the last row.
fn bytes_of_row(text: &Lines, row: usize) -> usize
    ensures { result ≡ length (line_at text.now row) }
{
    match text.get(row) {
        Some(line) => line.len(),
        None => 0,
    }
}

// The column of a row that a number names. Column 0 is one of any line, which isn't looked up.
fn col_of_row(strict: bool, text: &Lines, row: usize, col: i64) -> Option<usize>
    ensures col { result ≡ col_by_number strict (length (line_at text.now row)) col }
    ensures within { IfSome result (λ col. col ≤ length (line_at text.now row)) }
{
    if col == 0 {
        return Some(0);
    }
    col_by_number(strict, bytes_of_row(text, row), col)
}

/// The place of a text that two numbers name.
pub fn place_by_numbers(strict: bool, text: &Lines, row: i64, col: i64) -> Option<Pos>
    requires narrow { IsNarrowText text.now }
    ensures place { result ≡ place_by_numbers strict text.now row col }
    ensures within { IfSome result (IsPlaceIn text.now) }
{
    let Some(row) = row_by_number(strict, text.count(), row) else {
        return None;
    };
    let Some(col) = col_of_row(strict, text, row, col) else {
        return None;
    };
    Some(Pos {
        row: row as u32,
        col: col as u32,
    })
}

// The row that a number names: -1 the one behind the last.
fn row_or_last(lines: usize, row: i64) -> Option<usize>
    ensures { (text : List (List ℕ)) → length text ≡ lines → result ≡ row_or_last text row }
{
    if row >= 0 {
        Some(row as usize)
    } else if row == -1 {
        Some(lines)
    } else {
        None
    }
}

/// The place of a text that two numbers name: row -1, and a row behind the last, are the last
/// place, and a column behind the end of its line is that end.
pub fn place_or_last(text: &Lines, row: i64, col: i64) -> Option<Pos>
    requires narrow { IsNarrowText text.now }
    ensures { result ≡ place_at text.now row col }
{
    let count = text.count();
    let Some(row) = row_or_last(count, row) else {
        return None;
    };
    let Some(col) = col_of_row(false, text, row, col) else {
        return None;
    };
    if row < count {
        Some(Pos {
            row: row as u32,
            col: col as u32,
        })
    } else {
        Some(Pos {
            row: count as u32,
            col: 0,
        })
    }
}

/// The mark of a namespace and a number.
pub fn mark_numbered(buffer: &Buffer, ns: u32, number: i64) -> Option<Mark>
    ensures { result ≡ mark_numbered (seen_buffer_now buffer.now) ns number }
{
    if number < 0 {
        return None;
    }
    let marks = buffer.marks();
    // (no mark's id is above the greatest of its namespace, and that is one of 32 bits)
    let _ = (marks.len(), marks.next_id(ns));
    if number > i64::from(u32::MAX) {
        return None;
    }
    marks.find(ns, number as u32)
}
