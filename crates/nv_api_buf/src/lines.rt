//! The methods on whole lines.
ghost use Rattle.std.specs.Prelude.{◌≡◌, ◌+◌, ◌^◌, ◌<◌, ◌≤◌, ◌<ℤ◌, ℕ, List, [], All, length, slice_range, IfOk};
ghost use Rattle.nv_value.specs.Content.{list};
ghost use Rattle.nv_value.specs.View.{content};
ghost use Rattle.nv_msgpack.specs.Shortest.{HasSpelling};
ghost use Rattle.nv_rpc.specs.Outcomes.{outcome_content};
ghost use Rattle.nv_buffer.specs.Content.{next_part};
ghost use Rattle.nv_buffer.specs.Splices.{IsNarrowLine, IsNarrowText};
ghost use Rattle.nv_args.specs.Args.{typed_arguments};
ghost use Rattle.nv_args.specs.Texts.{lines_put, strings};
ghost use Rattle.nv_model.specs.Answers.{Answer, Fact};
ghost use Rattle.nv_model.specs.Buffers.{rows_splice};
ghost use Rattle.nv_model.specs.Standing.{PresentEditor, seen_now, seen_buffer_now};
ghost use Rattle.nv_editor.specs.Doing.{GivesAnswer, GivesResult};
ghost use Rattle.nv_api_buf.specs.Excerpts.{ReadsLines};
ghost use Rattle.nv_api_buf.specs.TextRows.{nvim_buf_get_lines, nvim_buf_set_lines};
ghost use Rattle.nv_api_buf.specs.inside.Deciding.{Leaves, unless_barred, unless_outside, lines_answer};
ghost use Rattle.nv_api_buf.specs.inside.Ranges.{range_rows, ordered_rows};
ghost use Rattle.nv_api_buf.specs.declared.lines.Rows.{Rows};

use crate::finding::found_given;
use crate::replacement::{left_with, may_put_rows, new_lines};
use nv_args::{Args, Fail, leaves_text, out_of_bounds, row_of_index, start_after_end};
use nv_buffer::{Buffer, LineList, Lines};
use nv_editor::{Editor, Happened};
use nv_lines::Excerpt;
use nv_model::Limits;
use nv_rpc::{CallResult, Outcome};
use nv_value::Value;
use std::alloc::{AllocError, Global};

// Rows of a text: from the first to before the second.
#[derive(Clone, Copy)]
struct Rows {
    from: usize,
    to: usize,
}

// The rows of a text that the range of the second to the fourth argument names.
fn rows_of(alloc: Global, buffer: &Buffer, args: &Args) -> Result<Rows, Fail>
    ensures row { (answer : Rows → Answer) → Leaves
        (unless_outside (typed_arguments args.now) (length buffer.now.text)
        (answer (range_rows (typed_arguments args.now) (length buffer.now.text)))) answer result }
    ensures from { IfOk result (λ rows. rows.from ≤ length buffer.now.text) }
    ensures to { IfOk result (λ rows. rows.to ≤ length buffer.now.text) }
{
    let count = buffer.text().count();
    let (start, end) = (args.number(1), args.number(2));
    if leaves_text(args.flag(3), start, end, count) {
        return Err(out_of_bounds(alloc));
    }
    Ok(Rows {
        from: row_of_index(start, count),
        to: row_of_index(end, count),
    })
}

// The lines from the row `from` to before the row `to`.
fn excerpt_of(alloc: Global, text: &Lines, from: usize, to: usize) -> Result<Excerpt, AllocError>
    requires within { to ≤ length text.now }
    requires narrow { IsNarrowText text.now }
    ensures lines { IfOk result (λ lines. lines ≡ slice_range text.now from to) }
    ensures spelled { IfOk result (λ lines. HasSpelling (list (strings lines))) }
{
    if to <= from {
        return Ok(Excerpt::new(alloc));
    }
    let lines = text.excerpt(from, to)?;
    Ok(lines)
}

// The lines of a range of a buffer.
fn lines_answer(alloc: Global, buffer: &Buffer, args: &Args) -> Result<Excerpt, Fail>
    ensures row { ReadsLines (lines_answer (seen_buffer_now buffer.now) (typed_arguments args.now))
        result }
    ensures spelled { IfOk result (λ lines. HasSpelling (list (strings lines))) }
{
    let rows = rows_of(alloc, buffer, args)?;
    let lines = excerpt_of(alloc, buffer.text(), rows.from, rows.to)?;
    Ok(lines)
}

/// `nvim_buf_get_lines`: the lines of a range, and none where its start isn't before its end. They
/// share the tables of the text.
pub fn nvim_buf_get_lines(editor: &Editor, args: &Args) -> Result<Excerpt, Fail>
    ensures row { (session : ℕ) → ReadsLines (nvim_buf_get_lines (seen_now editor.now) session
        (typed_arguments args.now)) result }
    ensures spelled { IfOk result (λ lines. HasSpelling (list (strings lines))) }
{
    let found = found_given(editor, args)?;
    lines_answer(editor.alloc(), found.buffer, args)
}

/// Lines that were read, as the result of a call.
pub(crate) fn as_lines(given: Result<Excerpt, Fail>) -> Result<Outcome, Fail>
    requires { IfOk given (λ lines. HasSpelling (list (strings lines))) }
    ensures answer { (answer : Answer) (e : PresentEditor) (told : List Fact)
        → ReadsLines answer given → GivesResult answer result e e told told }
    ensures spelled { IfOk result (λ outcome. HasSpelling (outcome_content outcome)) }
{
    match given {
        Ok(lines) => Ok(Outcome::One(CallResult::Lines(lines))),
        Err(fail) => Err(fail),
    }
}

// The lines that come in the place of rows: those that are given, or one empty line where the text
// would have none. They are refused where they may not be put.
fn rows_to_put(
    alloc: Global,
    limits: Limits,
    buffer: &Buffer,
    rows: Rows,
    given: LineList,
) -> Result<LineList, Fail>
    requires order { rows.from ≤ rows.to }
    requires within { rows.to ≤ length buffer.now.text }
    ensures row { (answer : Answer) → Leaves (unless_barred limits (seen_buffer_now buffer.now)
        (rows_splice (next_part buffer.now) buffer.now.text rows.from rows.to
        (lines_put rows.from rows.to given buffer.now.text)) answer) (λ _. answer) result }
    ensures same { IfOk result (λ new. new ≡ lines_put rows.from rows.to given buffer.now.text) }
    ensures left { IfOk result (λ new. rows.to < rows.from + length new
        + length buffer.now.text) }
    ensures count { IfOk result (λ new. rows.from + length new + length buffer.now.text
        < rows.to + 2 ^ 32) }
    ensures columns { IfOk result (λ new. All IsNarrowLine new) }
    ensures tick { IfOk result (λ new. ¬ ((rows.from ≡ rows.to) × (new ≡ []))
        → buffer.now.tick <ℤ i64.MAX) }
{
    let (from, to) = (rows.from, rows.to);
    let new = left_with(alloc, buffer.text(), from, to, given)?;
    may_put_rows(alloc, limits, buffer, from, to, &new)?;
    Ok(new)
}

// The rows of a range of a buffer. An end before the start is refused.
fn rows_in_order(alloc: Global, buffer: &Buffer, args: &Args) -> Result<Rows, Fail>
    ensures row { (answer : Rows → Answer) → Leaves
        (ordered_rows (typed_arguments args.now) (length buffer.now.text) answer) answer result }
    ensures order { IfOk result (λ rows. rows.from ≤ rows.to) }
    ensures within { IfOk result (λ rows. rows.to ≤ length buffer.now.text) }
{
    let rows = rows_of(alloc, buffer, args)?;
    if rows.to < rows.from {
        return Err(start_after_end(alloc));
    }
    Ok(rows)
}

/// `nvim_buf_set_lines`: puts lines in place of those of a range.
pub fn nvim_buf_set_lines(
    editor: &mut Editor,
    args: &Args,
    happened: &mut Happened,
) -> Result<Value, Fail>
    ensures row { (session : ℕ) → GivesAnswer (nvim_buf_set_lines (seen_now editor.old) session
        (typed_arguments args.now)) result editor.old editor.new happened.old happened.new }
    ensures spelled { IfOk result (λ value. HasSpelling (content value)) }
{
    let found = found_given(editor, args)?;
    let handle = found.live.handle;
    let alloc = editor.alloc();
    let rows = rows_in_order(alloc, found.buffer, args)?;
    let strings = args.lines(4);
    let given = new_lines(alloc, strings)?;
    let new = rows_to_put(alloc, editor.limits(), found.buffer, rows, given)?;
    editor.put_lines(handle, rows.from, rows.to, new, happened)?;
    Ok(Value::Nil)
}
