//! The methods that count: lines, the changedtick, and bytes before a row.
ghost use Rattle.std.specs.Prelude.{◌≡◌, ◌≤◌, ℕ, pos, length, IfOk, IfSome, MatchOption, true, false};
ghost use Rattle.nv_value.specs.Content.{integer};
ghost use Rattle.nv_value.specs.View.{content};
ghost use Rattle.nv_msgpack.specs.Shortest.{HasSpelling};
ghost use Rattle.nv_msgpack.specs.Spelling.{unsigned_number};
ghost use Rattle.nv_args.specs.Args.{typed_arguments};
ghost use Rattle.nv_args.specs.Arguments.{row_of_index};
ghost use Rattle.nv_model.specs.Standing.{seen_now, seen_buffer_now};
ghost use Rattle.nv_editor.specs.Doing.{ReadsAnswer};
ghost use Rattle.nv_api_buf.specs.Texts.{is_no_index};
ghost use Rattle.nv_api_buf.specs.inside.Deciding.{offset_answer};
ghost use Rattle.nv_api_buf.specs.TextRows.{nvim_buf_line_count, nvim_buf_get_changedtick, nvim_buf_get_offset};

use crate::finding::found_given;
use nv_args::{Args, Fail, out_of_bounds};
use nv_buffer::Buffer;
use nv_editor::Editor;
use nv_value::Value;
use std::alloc::Global;

/// A number of at least 0 as a value.
pub fn unsigned_value(n: u64) -> Value
    ensures value { content result ≡ unsigned_number n }
    ensures spelled { HasSpelling (content result) }
{
    if n <= i64::MAX as u64 {
        Value::Int(n as i64)
    } else {
        Value::Big(n)
    }
}

// The number of lines as a value.
fn count_value(buffer: &Buffer) -> Value
    ensures value { content result ≡ integer (pos (length (seen_buffer_now buffer.now).lines)) }
    ensures spelled { HasSpelling (content result) }
{
    Value::Int(buffer.text().count() as i64)
}

/// `nvim_buf_line_count`: the number of lines.
pub fn nvim_buf_line_count(editor: &Editor, args: &Args) -> Result<Value, Fail>
    ensures row { (session : ℕ) → ReadsAnswer (nvim_buf_line_count (seen_now editor.now) session
        (typed_arguments args.now)) result }
    ensures spelled { IfOk result (λ value. HasSpelling (content value)) }
{
    let found = found_given(editor, args)?;
    Ok(count_value(found.buffer))
}

// The changedtick as a value.
fn tick_value(buffer: &Buffer) -> Value
    ensures value { content result ≡ integer (pos (seen_buffer_now buffer.now).tick) }
    ensures spelled { HasSpelling (content result) }
{
    buffer.known();
    Value::Int(buffer.tick())
}

/// `nvim_buf_get_changedtick`: the changedtick.
pub fn nvim_buf_get_changedtick(editor: &Editor, args: &Args) -> Result<Value, Fail>
    ensures row { (session : ℕ) → ReadsAnswer (nvim_buf_get_changedtick (seen_now editor.now)
        session
        (typed_arguments args.now)) result }
    ensures spelled { IfOk result (λ value. HasSpelling (content value)) }
{
    let found = found_given(editor, args)?;
    Ok(tick_value(found.buffer))
}

// The row that an index names, from 0 to the number of lines, if any.
fn row_in(index: i64, lines: usize) -> Option<usize>
    ensures row { MatchOption result (is_no_index index lines ≡ true)
        (λ row. (is_no_index index lines ≡ false) × (row ≡ row_of_index index lines)) }
    ensures within { IfSome result (λ row. row ≤ lines) }
{
    if index < 0 {
        return None;
    }
    let row = index as usize;
    if row > lines { None } else { Some(row) }
}

// The offset at which the row begins that an index names.
fn offset_answer(alloc: Global, buffer: &Buffer, args: &Args) -> Result<Value, Fail>
    ensures row { ReadsAnswer (offset_answer (seen_buffer_now buffer.now) (typed_arguments
        args.now))
        result }
    ensures spelled { IfOk result (λ value. HasSpelling (content value)) }
{
    let text = buffer.text();
    match row_in(args.number(1), text.count()) {
        Some(row) => Ok(unsigned_value(text.offset(row))),
        None => Err(out_of_bounds(alloc)),
    }
}

/// `nvim_buf_get_offset`: how many bytes stand before a row, line ends counted; at the number of
/// lines all of them.
pub fn nvim_buf_get_offset(editor: &Editor, args: &Args) -> Result<Value, Fail>
    ensures row { (session : ℕ) → ReadsAnswer (nvim_buf_get_offset (seen_now editor.now) session
        (typed_arguments args.now)) result }
    ensures spelled { IfOk result (λ value. HasSpelling (content value)) }
{
    let found = found_given(editor, args)?;
    offset_answer(editor.alloc(), found.buffer, args)
}
