// Lines that are put within a line: what stands before them joins the first, what stands behind
// them the last.
ghost use Rattle.std.specs.Prelude.{◌≡◌, ◌<◌, ◌≤◌, ◌↔◌, [], ◌∷◌, ◌++◌, length, take, drop, IsTrue, IfOk, OnOk};
ghost use Rattle.nv_places.specs.Flat.{IsLine, line_at};
ghost use Rattle.nv_buffer.specs.Splices.{IsInLine, with_front, with_back};

use nv_lines::{Line, LineList, Lines};
use nv_places::Pos;
use std::alloc::{AllocError, Global};

// How many bytes a line has at least whose memory is to go back to the system when it is let go.
const GREAT: usize = 2_097_152;

// The least room that the C library always takes from the system and gives back at once
// (mallopt(3), M_MMAP_THRESHOLD). Of smaller blocks that are let go its heap keeps holes.
const MAPPED: usize = 33_554_432;

/// Whether these lines are one empty line: no byte and no line end is put with them.
pub fn is_one_empty(lines: &LineList) -> bool
    ensures { IsTrue result ↔ (lines.now ≡ [] ∷ []) }
{
    let Some(line) = lines.get(0) else {
        return false;
    };
    lines.len() == 1 && line.is_empty()
}

/// The bytes of a row of a text.
pub fn row_of(text: &Lines, row: u32) -> &[u8]
    requires { row < length text.now }
    ensures value { result.now ≡ line_at text.now row }
    ensures line { IsLine result.now }
{
    match text.get(row as usize) {
        Some(line) => line,
        None => &[],
    }
}

/// The bytes before a place in its row, and those from another place on in its row. A row that both
/// stand in is looked up once.
pub fn around(text: &Lines, start: Pos, stop: Pos) -> (&[u8], &[u8])
    requires start_in { IsInLine text.now start }
    requires stop_in { IsInLine text.now stop }
    ensures front { result.0.now ≡ take start.col (line_at text.now start.row) }
    ensures front_line { IsLine result.0.now }
    ensures back { result.1.now ≡ drop stop.col (line_at text.now stop.row) }
    ensures back_line { IsLine result.1.now }
{
    let first = row_of(text, start.row);
    let front = &first[..start.col as usize];
    if start.row == stop.row {
        return (front, &first[stop.col as usize..]);
    }
    (front, &row_of(text, stop.row)[stop.col as usize..])
}

/// The line of these bytes.
pub fn line_of(alloc: Global, bytes: &[u8]) -> Result<Line, AllocError>
    requires { IsLine bytes.now }
    ensures { IfOk result (λ line. line ≡ bytes.now) }
{
    Line::from_vec(Vec::from_slice(alloc, bytes)?)
}

// The room that a line of so many bytes gets. What isn't written of it takes no memory.
fn room_for(len: usize) -> usize
    ensures { len ≤ result }
{
    if len < GREAT {
        return len;
    }
    len.max(MAPPED)
}

/// A line with bytes before and behind it.
pub fn line_between(
    alloc: Global,
    front: &[u8],
    line: &[u8],
    back: &[u8],
) -> Result<Line, AllocError>
    requires front { IsLine front.now }
    requires line { IsLine line.now }
    requires back { IsLine back.now }
    ensures { IfOk result (λ whole. whole ≡ (front.now ++ line.now) ++ back.now) }
{
    let len = (front.len() + line.len()).saturating_add(back.len());
    let mut bytes = Vec::with_capacity(alloc, room_for(len))?;
    bytes.extend_from_slice(front)?;
    bytes.extend_from_slice(line)?;
    bytes.extend_from_slice(back)?;
    Line::from_vec(bytes)
}

// Puts bytes before the first line.
fn put_front(alloc: Global, front: &[u8], lines: &mut Vec<Line>) -> Result<(), AllocError>
    requires some { 0 < length lines.old.items }
    requires line { IsLine front.now }
    ensures { OnOk result (lines.new.items ≡ with_front front.now lines.old.items) }
{
    lines[0] = line_between(alloc, front, lines[0].as_slice(), &[])?;
    Ok(())
}

// Puts bytes behind the last line.
fn put_back(alloc: Global, lines: &mut Vec<Line>, back: &[u8]) -> Result<(), AllocError>
    requires some { 0 < length lines.old.items }
    requires line { IsLine back.now }
    ensures { OnOk result (lines.new.items ≡ with_back lines.old.items back.now) }
{
    if let Some(last) = lines.pop() {
        lines.push(line_between(alloc, &[], last.as_slice(), back)?)?;
    }
    Ok(())
}

/// Lines with bytes put before the first and behind the last.
pub fn joined(
    alloc: Global,
    front: &[u8],
    lines: LineList,
    back: &[u8],
) -> Result<LineList, AllocError>
    requires some { 0 < length lines }
    requires front_line { IsLine front.now }
    requires back_line { IsLine back.now }
    ensures { IfOk result (λ list. list ≡ with_back (with_front front.now lines) back.now) }
{
    if let [line] = lines.as_slice() {
        let whole = line_between(alloc, front, line.as_slice(), back)?;
        return Ok(LineList::one(alloc, whole));
    }
    let mut lines = lines.into_vec()?;
    put_front(alloc, front, &mut lines)?;
    put_back(alloc, &mut lines, back)?;
    Ok(LineList::from_vec(lines))
}
