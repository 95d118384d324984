//! The methods by which a session follows a buffer (help: api-buffer-updates).
ghost use Rattle.std.specs.Prelude.{◌≡◌, ℕ, length, slice_range, IfOk, if◌then◌else◌, Option, Some, None};
ghost use Rattle.nv_value.specs.View.{content};
ghost use Rattle.nv_msgpack.specs.Shortest.{HasSpelling};
ghost use Rattle.nv_args.specs.Args.{typed_arguments};
ghost use Rattle.nv_model.specs.Standing.{seen_now, seen_buffer_now};
ghost use Rattle.nv_editor.specs.Doing.{GivesAnswer};
ghost use Rattle.nv_api_buf.specs.BufferRows.{nvim_buf_attach, nvim_buf_detach};

use crate::finding::found_given;
use nv_args::{Args, Fail, map_fault};
use nv_buffer::Buffer;
use nv_editor::{Editor, Fact, Happened};
use nv_lines::Excerpt;
use nv_value::Value;
use std::alloc::AllocError;

// The lines of a buffer, where they are wanted. They share the tables of its text.
fn whole_of(buffer: &Buffer, wanted: bool) -> Result<Option<Excerpt>, AllocError>
    ensures { IfOk result (λ whole. whole
        ≡ (if wanted then Some (seen_buffer_now buffer.now).lines else None)) }
{
    if !wanted {
        return Ok(None);
    }
    let lines = buffer.text().excerpt(0, buffer.text().count())?;
    Ok(Some(lines))
}

/// `nvim_buf_attach`: the session is told of the buffer's splices, and first its lines where the
/// second argument is true, else its changedtick. It takes no keys.
pub fn nvim_buf_attach(editor: &Editor, args: &Args, happened: &mut Happened) -> Result<Value, Fail>
    ensures row { (session : ℕ) → GivesAnswer (nvim_buf_attach (seen_now editor.now) session
        (typed_arguments args.now)) result editor.now editor.now happened.old happened.new }
    ensures spelled { IfOk result (λ value. HasSpelling (content value)) }
{
    let found = found_given(editor, args)?;
    map_fault(editor.alloc(), &[], args.pairs(2))?;
    let whole = whole_of(found.buffer, args.flag(1))?;
    happened.push(Fact::Attached {
        buffer: found.live.handle,
        tick: found.buffer.tick(),
        whole,
    })?;
    Ok(Value::Truth(true))
}

/// `nvim_buf_detach`: the session is no longer told of the buffer.
pub fn nvim_buf_detach(editor: &Editor, args: &Args, happened: &mut Happened) -> Result<Value, Fail>
    ensures row { (session : ℕ) → GivesAnswer (nvim_buf_detach (seen_now editor.now) session
        (typed_arguments args.now)) result editor.now editor.now happened.old happened.new }
    ensures spelled { IfOk result (λ value. HasSpelling (content value)) }
{
    let found = found_given(editor, args)?;
    let live = found.live;
    happened.push(Fact::Detached {
        buffer: live.handle,
    })?;
    Ok(Value::Truth(true))
}
