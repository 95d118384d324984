//! Removing the marks of rows (help: nvim_buf_clear_namespace()).
ghost use Rattle.std.specs.Prelude.{◌≡◌, ℕ, All, List, filter, true, IfOk, OnOk};
ghost use Rattle.nv_places.specs.Places.{IsNarrow};
ghost use Rattle.nv_value.specs.View.{content};
ghost use Rattle.nv_msgpack.specs.Shortest.{HasSpelling};
ghost use Rattle.nv_args.specs.Args.{typed_arguments};
ghost use Rattle.nv_model.specs.Answers.{Answer, Fact};
ghost use Rattle.nv_model.specs.Standing.{seen_now};
ghost use Rattle.nv_editor.specs.Doing.{Does, GivesAnswer};
ghost use Rattle.nv_editor.specs.Sound.{content_at, is_live_buffer};
ghost use Rattle.nv_model.specs.Answering.{removal_operations};
ghost use Rattle.nv_api_mark.specs.Listing.{first_row, last_row, nvim_buf_clear_namespace};
ghost use Rattle.nv_api_mark.specs.inside.Steps.{Decides};
ghost use Rattle.nv_api_mark.specs.inside.Picking.{CoversRows, EndsRows, clearing_answer, is_in_rows};

use crate::naming::meant_namespace;
use nv_args::{Args, Fail, no_buffer, out_of_bounds};
use nv_buffer::{Buffer, Pos};
use nv_editor::Editor;
use nv_value::Value;
use std::alloc::AllocError;

/// Rows from a first one on, and before a last one where there is one, and the namespaces that are
/// meant: one, or all.
#[derive(Clone, Copy)]
pub struct Rows {
    pub meant: Option<u32>,
    pub first: u64,
    pub last: Option<u64>,
}

// The first row that a number names.
fn first_row(number: i64) -> Option<u64>
    ensures { result ≡ first_row number }
{
    if number < 0 {
        None
    } else {
        Some(number as u64)
    }
}

// The row that a number names, and none for -1, which is past the last place.
fn last_row(number: i64) -> Option<Option<u64>>
    ensures { result ≡ last_row number }
{
    if number == -1 {
        return Some(None);
    }
    if number < 0 {
        None
    } else {
        Some(Some(number as u64))
    }
}

// The rows that the second to the fourth argument mean.
fn rows_given(editor: &Editor, args: &Args) -> Result<Rows, Fail>
    ensures row { (next : Rows → Answer) → Decides
        (clearing_answer (seen_now editor.now) (typed_arguments args.now) next) next result }
{
    let Some(meant) = meant_namespace(editor, args.number(1)) else {
        return Err(out_of_bounds(editor.alloc()));
    };
    let Some(first) = first_row(args.number(2)) else {
        return Err(out_of_bounds(editor.alloc()));
    };
    let Some(last) = last_row(args.number(3)) else {
        return Err(out_of_bounds(editor.alloc()));
    };
    Ok(Rows { meant, first, last })
}

// The greatest row, or column, of a place.
const GREATEST: u64 = 4_294_967_295;

// The last place of a row.
fn row_end(row: u32) -> Pos
    ensures { result ≡ record { row = row; col = 4294967295 } }
{
    Pos { row, col: u32::MAX }
}

// The last of the places that marks in rows may start at; none where there is no such row.
fn last_place(last: Option<u64>) -> Option<Pos>
    ensures { EndsRows last result }
{
    let Some(last) = last else {
        return Some(row_end(u32::MAX));
    };
    if last == 0 {
        return None;
    }
    let row = (last - 1).min(GREATEST);
    Some(row_end(row as u32))
}

// The places that marks in rows lie between, both included; none where there is none such.
fn places_of(rows: Rows) -> Option<(Pos, Pos)>
    ensures { CoversRows rows result }
{
    let to = last_place(rows.last)?;
    let first = rows.first;
    if first > GREATEST {
        return None;
    }
    let from = Pos {
        row: first as u32,
        col: 0,
    };
    Some((from, to))
}

// What is known of the marks of each buffer. It does nothing.
fn known_places(buffer: &Buffer)
    ensures { All (λ m. IsNarrow m.start) buffer.now.marks.marks }
{
    buffer.known();
    let _ = buffer.marks();
}

// Removes the marks of rows of a live buffer.
fn clear_rows(editor: &mut Editor, handle: i64, rows: Rows) -> Result<(), AllocError>
    requires live { is_live_buffer editor.old handle ≡ true }
    requires narrow { All (λ m. IsNarrow m.start) (content_at editor.old handle).marks.marks }
    ensures { OnOk result (Does (removal_operations handle
        (filter (is_in_rows rows) (content_at editor.old handle).marks.marks))
        editor.old editor.new) }
{
    match places_of(rows) {
        Some((from, to)) => editor.clear_marks(handle, rows.meant, from, to),
        None => Ok(()),
    }
}

/// `nvim_buf_clear_namespace`: the marks of rows are removed.
pub fn nvim_buf_clear_namespace(editor: &mut Editor, args: &Args) -> Result<Value, Fail>
    ensures row { (session : ℕ) (told : List Fact)
        → GivesAnswer (nvim_buf_clear_namespace (seen_now editor.old) session
        (typed_arguments args.now)) result editor.old editor.new told told }
    ensures spelled { IfOk result (λ value. HasSpelling (content value)) }
{
    let given = args.number(0);
    let handle = editor.named_buffer(given);
    let Some(buffer) = editor.buffer(handle) else {
        return Err(no_buffer(editor.alloc(), given));
    };
    known_places(buffer);
    let rows = rows_given(editor, args)?;
    clear_rows(editor, handle, rows)?;
    Ok(Value::Nil)
}
