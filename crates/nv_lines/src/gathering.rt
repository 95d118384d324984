// Lines that are gathered in a vector.
ghost use Rattle.std.specs.Prelude.{◌≡◌, ◌+◌, ◌-◌, ◌<◌, ◌≤◌, ◌⊎◌, ◌++◌, length, MatchBool, OnOk, vec_len, vec_capacity, slice_range};
ghost use Rattle.nv_lines.specs.Chunks.{chunk_lines};
ghost use Rattle.nv_lines.specs.inside.Tables.{table_lines};

use crate::chunk::Chunk;
use crate::excerpt::Excerpt;
use crate::single::Line;
use std::alloc::AllocError;

/// Adds lines at the end, shared.
pub fn add_shared(list: &mut Vec<Line>, lines: &[Line]) -> Result<(), AllocError>
    ensures { OnOk result (list.new.items ≡ list.old.items ++ lines.now) }
{
    for line in lines {
        list.push(line.share()?)?;
    }
    Ok(())
}

/// Those of the rows from `from` up to before `to` that there are.
pub fn rows_within(lines: &[Line], from: usize, to: usize) -> &[Line]
    ensures { result.now ≡ slice_range lines.now from to }
{
    let to = to.min(lines.len());
    if to <= from {
        return &[];
    }
    &lines[from..to]
}

/// Adds the rows from `from` up to before `to` of chunks at the end, shared.
pub fn add_rows(
    list: &mut Vec<Line>,
    chunks: &[Chunk],
    from: usize,
    to: usize,
) -> Result<(), AllocError>
    ensures { OnOk result (list.new.items ≡ list.old.items
        ++ slice_range (chunk_lines chunks.now) from to) }
{
    let mut start = from;
    let mut end = to;
    for chunk in chunks {
        if end == 0 {
            return Ok(());
        }
        let lines = chunk.lines.as_slice();
        add_shared(list, rows_within(lines, start, end))?;
        start = start.saturating_sub(lines.len());
        end = end.saturating_sub(lines.len());
    }
    Ok(())
}

/// Adds the rows from `from` up to before `to` of chunks at the end, in lists that share their
/// tables.
pub fn add_lists(
    excerpt: &mut Excerpt,
    chunks: &[Chunk],
    from: usize,
    to: usize,
) -> Result<(), AllocError>
    ensures { OnOk result (excerpt.new ≡ excerpt.old
        ++ slice_range (chunk_lines chunks.now) from to) }
{
    let mut start = from;
    let mut end = to;
    for chunk in chunks {
        if end == 0 {
            return Ok(());
        }
        let list = chunk.lines.share_part(start, end)?;
        excerpt.push(list)?;
        let len = chunk.lines.len();
        start = start.saturating_sub(len);
        end = end.saturating_sub(len);
    }
    Ok(())
}

// Whether the first row is one of those from `start` up to before `end`.
fn begins_inside(start: usize, end: usize) -> bool
    ensures { MatchBool result ((start ≡ 0) × (0 < end)) ((0 < start) ⊎ (end ≡ 0)) }
{
    if start > 0 {
        return false;
    }
    end > 0
}

// Moves the rows from `from` up to before `to` of a table to the end of another with room for them.
fn move_many(into: &mut Vec<Line>, mut lines: Vec<Line>, from: usize, to: usize)
    requires room { vec_len into.old + length (slice_range lines.items from to)
        ≤ vec_capacity into.old }
    ensures items { into.new.items ≡ into.old.items ++ slice_range lines.items from to }
    ensures capacity { vec_capacity into.old ≤ vec_capacity into.new }
{
    if from == 0 && lines.len() <= to {
        let _ = into.append(&mut lines);
        return;
    }
    let mut start = from;
    let mut end = to;
    for line in lines {
        let inside = begins_inside(start, end);
        start = start.saturating_sub(1);
        end = end.saturating_sub(1);
        if !inside {
            continue;
        }
        into.push_reserved(line);
    }
}

/// The rows from `from` up to before `to` of tables one after another, moved into a list with room
/// for them.
pub fn rows_taken(mut taken: Vec<Line>, tables: Vec<Vec<Line>>, from: usize, to: usize) -> Vec<Line>
    requires room { vec_len taken + (to - from) ≤ vec_capacity taken }
    ensures { result.items ≡ taken.items ++ slice_range (table_lines tables.items) from to }
{
    let mut start = from;
    let mut end = to;
    for table in tables {
        let len = table.len();
        move_many(&mut taken, table, start, end);
        start = start.saturating_sub(len);
        end = end.saturating_sub(len);
    }
    taken
}
