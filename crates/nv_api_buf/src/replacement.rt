//! Lines that are put in place of rows, and whether they may be.
ghost use Rattle.std.specs.Prelude.{◌≡◌, ◌≤◌, ◌<◌, ◌^◌, ◌+◌, ◌<ℤ◌, ◌↔◌, [], ◌∷◌, true, false, All, length, map, IfOk, IfSome, IfNone, IsTrue};
ghost use Rattle.std.specs.List.{list_any};
ghost use Rattle.nv_value.specs.View.{content};
ghost use Rattle.nv_places.specs.Flat.{flat, lines_of};
ghost use Rattle.nv_buffer.specs.Content.{next_part};
ghost use Rattle.nv_buffer.specs.Splices.{IsNarrowLine};
ghost use Rattle.nv_args.specs.Texts.{has_newline, lines_put};
ghost use Rattle.nv_model.specs.Answers.{Answer};
ghost use Rattle.nv_model.specs.Answering.{event_of_splice};
ghost use Rattle.nv_model.specs.Buffers.{rows_splice, text_after};
ghost use Rattle.nv_model.specs.Standing.{seen_buffer_now};
ghost use Rattle.nv_api_buf.specs.Texts.{event_passes};
ghost use Rattle.nv_api_buf.specs.inside.Parts.{is_longer, text_of_value, texts_of};
ghost use Rattle.nv_api_buf.specs.inside.Deciding.{Leaves, unless_barred, unless_newline};

use crate::limits::{any_of, tick_passes, too_many};
use nv_args::{Fail, bytes_of, limit_reached, newline_inside, not_modifiable};
use nv_buffer::{Buffer, Line, LineList, Lines};
use nv_lines::is_line;
use nv_model::Limits;
use nv_value::Value;
use std::alloc::{AllocError, Global};

// The strings as lines, or nothing where one of them holds a line feed. Whoever shares them, as
// what is told of an edit and what undo keeps do, shares their table.
fn lines_from(alloc: Global, strings: &[Value]) -> Result<Option<LineList>, AllocError>
    ensures some { IfOk result (λ found. IfSome found
        (λ lines. (lines ≡ texts_of (map content strings.now))
        × (list_any has_newline (texts_of (map content strings.now)) ≡ false))) }
    ensures none { IfOk result (λ found. IfNone found
        (list_any has_newline (texts_of (map content strings.now)) ≡ true)) }
{
    let mut lines = Vec::with_capacity(alloc, strings.len())?;
    for value in strings {
        let string = bytes_of(alloc, value)?;
        if !is_line(string.as_slice()) {
            return Ok(None);
        }
        lines.push(Line::from_bytes(string))?;
    }
    let lines = LineList::from_vec(lines).in_common()?;
    Ok(Some(lines))
}

// The string of a value as a line.
fn one_line(alloc: Global, value: &Value) -> Result<LineList, Fail>
    ensures row { (answer : Answer) → Leaves
        (unless_newline (text_of_value (content value.now) ∷ []) answer) (λ _. answer) result }
    ensures lines { IfOk result (λ lines. lines ≡ text_of_value (content value.now) ∷ []) }
{
    let string = bytes_of(alloc, value)?;
    if !is_line(string.as_slice()) {
        return Err(newline_inside(alloc));
    }
    Ok(LineList::one(alloc, Line::from_bytes(string)))
}

/// The strings as lines. One that holds a line feed is refused.
pub fn new_lines(alloc: Global, strings: &[Value]) -> Result<LineList, Fail>
    ensures row { (answer : Answer) → Leaves
        (unless_newline (texts_of (map content strings.now)) answer) (λ _. answer) result }
    ensures lines { IfOk result (λ lines. lines ≡ texts_of (map content strings.now)) }
{
    if let [value] = strings {
        return one_line(alloc, value);
    }
    match lines_from(alloc, strings)? {
        Some(lines) => Ok(lines),
        None => Err(newline_inside(alloc)),
    }
}

/// The lines to put in place of the rows from `from` to before `to`: one empty line where none
/// would be left.
pub fn left_with(
    alloc: Global,
    text: &Lines,
    from: usize,
    to: usize,
    lines: LineList,
) -> Result<LineList, AllocError>
    requires order { from ≤ to }
    requires within { to ≤ length text.now }
    ensures same { IfOk result (λ new. new ≡ lines_put from to lines text.now) }
    ensures left { IfOk result (λ new. to < from + length new + length text.now) }
{
    let rest = text.count() - (to - from);
    if rest > 0 {
        return Ok(lines);
    }
    if lines.len() > 0 {
        return Ok(lines);
    }
    Ok(LineList::one(alloc, Line::new(alloc)?))
}

// Whether one of the lines has more bytes than this.
fn any_too_long(most: u32, lines: &LineList) -> bool
    ensures { result ≡ list_any (is_longer most) lines.now }
{
    for place in 0..lines.len() {
        let Some(line) = lines.get(place) else {
            return false;
        };
        if line.len() > most as usize {
            return true;
        }
    }
    false
}

// Whether lines in place of the rows from `from` to before `to` would pass a limit.
fn passes(limits: Limits, buffer: &Buffer, from: usize, to: usize, lines: &LineList) -> bool
    requires order { from ≤ to }
    requires within { to ≤ length buffer.now.text }
    ensures row { result ≡ event_passes limits
        (length (lines_of (text_after (flat buffer.now.text)
        (rows_splice (next_part buffer.now) buffer.now.text from to lines.now))))
        (event_of_splice (seen_buffer_now buffer.now)
        (rows_splice (next_part buffer.now) buffer.now.text from to lines.now)) }
    ensures count { result ≡ false → from + length lines.now + length buffer.now.text
        < to + 2 ^ 32 }
    ensures columns { result ≡ false → All IsNarrowLine lines.now }
    ensures tick { result ≡ false → buffer.now.tick <ℤ i64.MAX }
{
    buffer.known();
    let kept = buffer.text().count() - (to - from);
    let many = lines.len();
    any_of(
        too_many(limits, kept, many),
        any_too_long(limits.line_bytes, lines),
        tick_passes(limits, buffer, 1),
    )
}

// Whether no row is removed and no line put.
fn is_nothing(from: usize, to: usize, new: &LineList) -> bool
    ensures { IsTrue result ↔ ((from ≡ to) × (new.now ≡ [])) }
{
    from == to && new.is_empty()
}

/// Refuses lines in place of the rows from `from` to before `to` where the buffer isn't modifiable,
/// and where they would pass a limit. No row and no line are never refused.
pub fn may_put_rows(
    alloc: Global,
    limits: Limits,
    buffer: &Buffer,
    from: usize,
    to: usize,
    lines: &LineList,
) -> Result<(), Fail>
    requires order { from ≤ to }
    requires within { to ≤ length buffer.now.text }
    ensures row { (answer : Answer) → Leaves (unless_barred limits (seen_buffer_now buffer.now)
        (rows_splice (next_part buffer.now) buffer.now.text from to lines.now) answer)
        (λ _. answer) result }
    ensures count { IfOk result (λ _. from + length lines.now + length buffer.now.text
        < to + 2 ^ 32) }
    ensures columns { IfOk result (λ _. All IsNarrowLine lines.now) }
    ensures tick { IfOk result (λ _. ¬ ((from ≡ to) × (lines.now ≡ []))
        → buffer.now.tick <ℤ i64.MAX) }
{
    let _narrow = buffer.text();
    if is_nothing(from, to, lines) {
        return Ok(());
    }
    if !buffer.modifiable() {
        return Err(not_modifiable(alloc));
    }
    if passes(limits, buffer, from, to, lines) {
        return Err(limit_reached(alloc));
    }
    Ok(())
}
