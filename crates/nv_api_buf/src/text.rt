//! The methods on text between two places.
ghost use Rattle.std.specs.Prelude.{◌≡◌, ◌+◌, ◌^◌, ◌≤◌, ◌<◌, ◌<ℤ◌, ◌∷◌, [], ℕ, All, Some, false, length, option_map, IfOk, IfSome};
ghost use Rattle.nv_value.specs.Content.{list};
ghost use Rattle.nv_value.specs.View.{content};
ghost use Rattle.nv_msgpack.specs.Shortest.{HasSpelling};
ghost use Rattle.nv_places.specs.Flat.{line_at};
ghost use Rattle.nv_places.specs.Places.{is_before};
ghost use Rattle.nv_places.specs.declared.place.Pos.{Pos};
ghost use Rattle.nv_buffer.specs.Content.{next_part};
ghost use Rattle.nv_buffer.specs.Splices.{IsInLine, IsNarrowLine, IsNarrowText, lines_between};
ghost use Rattle.nv_args.specs.Args.{typed_arguments};
ghost use Rattle.nv_args.specs.Arguments.{text_row};
ghost use Rattle.nv_args.specs.Reading.{number_at};
ghost use Rattle.nv_args.specs.Texts.{or_empty, strings, text_between};
ghost use Rattle.nv_model.specs.Answers.{Answer};
ghost use Rattle.nv_model.specs.Buffers.{text_splice};
ghost use Rattle.nv_model.specs.Standing.{seen_now, seen_buffer_now};
ghost use Rattle.nv_editor.specs.Doing.{GivesAnswer};
ghost use Rattle.nv_api_buf.specs.Excerpts.{ReadsLines};
ghost use Rattle.nv_api_buf.specs.Texts.{place_in_row};
ghost use Rattle.nv_api_buf.specs.TextRows.{nvim_buf_get_text, nvim_buf_set_text, on_places};
ghost use Rattle.nv_api_buf.specs.inside.Deciding.{Leaves, unless_barred, text_answer};
ghost use Rattle.nv_api_buf.specs.inside.Parts.{IsRowOf, part_of};

use crate::finding::found_given;
use crate::joining::may_put_text;
use crate::replacement::new_lines;
use nv_args::{Args, Fail, map_fault, out_of_bounds, start_after_end, text_col, text_row};
use nv_buffer::{Buffer, Line, LineList, Lines, Pos};
use nv_editor::{Editor, Happened};
use nv_lines::Excerpt;
use nv_model::Limits;
use nv_value::{Bytes, Value};
use std::alloc::{AllocError, Global};

// Two places of a text, the first not behind the second.
#[derive(Clone, Copy)]
struct Span {
    start: Pos,
    stop: Pos,
}

// A row of a text, and how many bytes its line has.
#[derive(Clone, Copy)]
struct TextRow {
    row: u32,
    bytes: u32,
}

// The row of the text that a number names, if any.
fn row_of(buffer: &Buffer, row: i64) -> Option<TextRow>
    ensures row { option_map (λ r. r.row) result ≡ text_row row (length buffer.now.text) }
    ensures within { IfSome result (IsRowOf buffer.now.text) }
{
    let text = buffer.text();
    let Some(row) = text_row(row, text.count()) else {
        return None;
    };
    let Some(line) = text.get(row) else {
        unreachable!();
    };
    Some(TextRow {
        row: row as u32,
        bytes: line.len() as u32,
    })
}

// The row that the fourth argument names, if any. That of the second, where both are the same
// number, isn't looked up again.
fn stop_row(buffer: &Buffer, args: &Args, first: TextRow) -> Option<TextRow>
    requires first { Some first.row
        ≡ text_row (number_at (typed_arguments args.now) 1) (length buffer.now.text) }
    requires within { IsRowOf buffer.now.text first }
    ensures row { option_map (λ r. r.row) result
        ≡ text_row (number_at (typed_arguments args.now) 3) (length buffer.now.text) }
    ensures within { IfSome result (IsRowOf buffer.now.text) }
{
    if args.number(3) == args.number(1) {
        return Some(first);
    }
    row_of(buffer, args.number(3))
}

// The place of a row that a number names, if any.
fn place_in_row(buffer: &Buffer, row: TextRow, col: i64) -> Option<Pos>
    requires within { IsRowOf buffer.now.text row }
    ensures place { result ≡ place_in_row buffer.now.text col row.row }
    ensures within { IfSome result (IsInLine buffer.now.text) }
{
    let Some(col) = text_col(col, row.bytes as usize) else {
        return None;
    };
    Some(Pos {
        row: row.row,
        col: col as u32,
    })
}

// The places of a text that the second to the fifth argument name.
fn span_of(alloc: Global, buffer: &Buffer, args: &Args) -> Result<Span, Fail>
    ensures row { (next : Pos → Pos → Answer) → Leaves
        (on_places (seen_buffer_now buffer.now) (typed_arguments args.now) next)
        (λ span. next span.start span.stop) result }
    ensures start { IfOk result (λ span. IsInLine buffer.now.text span.start) }
    ensures stop { IfOk result (λ span. IsInLine buffer.now.text span.stop) }
    ensures order { IfOk result (λ span. is_before span.stop span.start ≡ false) }
{
    let Some(first) = row_of(buffer, args.number(1)) else {
        return Err(out_of_bounds(alloc));
    };
    let Some(start) = place_in_row(buffer, first, args.number(2)) else {
        return Err(out_of_bounds(alloc));
    };
    let Some(last) = stop_row(buffer, args, first) else {
        return Err(out_of_bounds(alloc));
    };
    let Some(stop) = place_in_row(buffer, last, args.number(4)) else {
        return Err(out_of_bounds(alloc));
    };
    if stop.is_before(start) {
        return Err(start_after_end(alloc));
    }
    Ok(Span { start, stop })
}

// What of a line stands between two places, by its row.
fn part(line: &[u8], row: usize, start: Pos, stop: Pos) -> &[u8]
    requires start { row ≡ start.row → start.col ≤ length line.now }
    requires stop { row ≡ stop.row → stop.col ≤ length line.now }
    ensures { result.now ≡ part_of line.now row start stop }
{
    let from = if row == start.row as usize {
        start.col as usize
    } else {
        0
    };
    let to = if row == stop.row as usize {
        stop.col as usize
    } else {
        line.len()
    };
    if from > to { &[] } else { &line[from..to] }
}

// What of a row of a text stands between two places, as a list of one line.
fn part_line(
    alloc: Global,
    text: &Lines,
    row: usize,
    start: Pos,
    stop: Pos,
) -> Result<LineList, AllocError>
    requires within { row < length text.now }
    requires start { IsInLine text.now start }
    requires stop { IsInLine text.now stop }
    ensures { IfOk result (λ list. list ≡ part_of (line_at text.now row) row start stop ∷ []) }
{
    let Some(line) = text.get(row) else {
        unreachable!();
    };
    let bytes = Bytes::from_slice(alloc, part(line, row, start, stop))?;
    Ok(LineList::one(alloc, Line::from_bytes(bytes)))
}

// The text between two places. The lines that lie between them whole share the tables of the text.
fn excerpt_between(
    alloc: Global,
    text: &Lines,
    start: Pos,
    stop: Pos,
) -> Result<Excerpt, AllocError>
    requires start_in { IsInLine text.now start }
    requires stop_in { IsInLine text.now stop }
    requires order { is_before stop start ≡ false }
    requires narrow { IsNarrowText text.now }
    ensures lines { IfOk result (λ lines. lines ≡ text_between text.now start stop) }
    ensures spelled { IfOk result (λ lines. HasSpelling (list (strings lines))) }
{
    let first = start.row as usize;
    let last = stop.row as usize;
    let mut lines = Excerpt::with_room(alloc, (last - first) / 48 + 2)?;
    let front = part_line(alloc, text, first, start, stop)?;
    lines.push(front)?;
    if first == last {
        return Ok(lines);
    }
    text.add_rows(&mut lines, first + 1, last)?;
    let back = part_line(alloc, text, last, start, stop)?;
    lines.push(back)?;
    Ok(lines)
}

// One empty line where there is none.
fn or_empty(alloc: Global, lines: LineList) -> Result<LineList, AllocError>
    ensures lines { IfOk result (λ new. new ≡ or_empty lines) }
    ensures some { IfOk result (λ new. 0 < length new) }
{
    if lines.is_empty() {
        return Ok(LineList::one(alloc, Line::new(alloc)?));
    }
    Ok(lines)
}

// The text of a buffer between the places that the arguments name.
fn text_answer(alloc: Global, buffer: &Buffer, args: &Args) -> Result<Excerpt, Fail>
    ensures row { ReadsLines (text_answer (seen_buffer_now buffer.now) (typed_arguments args.now))
        result }
    ensures spelled { IfOk result (λ lines. HasSpelling (list (strings lines))) }
{
    let span = span_of(alloc, buffer, args)?;
    let lines = excerpt_between(alloc, buffer.text(), span.start, span.stop)?;
    Ok(lines)
}

/// `nvim_buf_get_text`: the lines between two places, the end column exclusive. It takes no keys.
pub fn nvim_buf_get_text(editor: &Editor, args: &Args) -> Result<Excerpt, Fail>
    ensures row { (session : ℕ) → ReadsLines (nvim_buf_get_text (seen_now editor.now) session
        (typed_arguments args.now)) result }
    ensures spelled { IfOk result (λ lines. HasSpelling (list (strings lines))) }
{
    let found = found_given(editor, args)?;
    map_fault(editor.alloc(), &[], args.pairs(5))?;
    text_answer(editor.alloc(), found.buffer, args)
}

// The lines that come between two places: those that are given, or an empty one where there is
// none. They are refused where they may not be put.
fn text_to_put(
    alloc: Global,
    limits: Limits,
    buffer: &Buffer,
    span: Span,
    given: LineList,
) -> Result<LineList, Fail>
    requires start { IsInLine buffer.now.text span.start }
    requires stop { IsInLine buffer.now.text span.stop }
    requires order { is_before span.stop span.start ≡ false }
    ensures row { (answer : Answer) → Leaves (unless_barred limits (seen_buffer_now buffer.now)
        (text_splice (next_part buffer.now) buffer.now.text span.start span.stop (or_empty given))
        answer) (λ _. answer) result }
    ensures same { IfOk result (λ new. new ≡ or_empty given) }
    ensures some { IfOk result (λ new. 0 < length new) }
    ensures count { IfOk result (λ new. span.start.row + length new + length buffer.now.text
        < span.stop.row + 1 + 2 ^ 32) }
    ensures columns { IfOk result (λ new. All IsNarrowLine
        (lines_between buffer.now.text span.start span.stop new)) }
    ensures tick { IfOk result (λ new. ¬ ((span.start ≡ span.stop) × (new ≡ [] ∷ []))
        → buffer.now.tick <ℤ i64.MAX) }
{
    let new = or_empty(alloc, given)?;
    may_put_text(alloc, limits, buffer, span.start, span.stop, &new)?;
    Ok(new)
}

/// `nvim_buf_set_text`: puts lines between two places, the end column exclusive.
pub fn nvim_buf_set_text(
    editor: &mut Editor,
    args: &Args,
    happened: &mut Happened,
) -> Result<Value, Fail>
    ensures row { (session : ℕ) → GivesAnswer (nvim_buf_set_text (seen_now editor.old) session
        (typed_arguments args.now)) result editor.old editor.new happened.old happened.new }
    ensures spelled { IfOk result (λ value. HasSpelling (content value)) }
{
    let alloc = editor.alloc();
    let found = found_given(editor, args)?;
    let handle = found.live.handle;
    let span = span_of(alloc, found.buffer, args)?;
    let strings = args.lines(5);
    let given = new_lines(alloc, strings)?;
    let new = text_to_put(alloc, editor.limits(), found.buffer, span, given)?;
    editor.put_text(handle, span.start, span.stop, new, happened)?;
    Ok(Value::Nil)
}
