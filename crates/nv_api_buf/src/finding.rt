//! The live buffer that a call names.
ghost use Rattle.std.specs.Prelude.{◌≡◌, ℤ, true, IfOk};
ghost use Rattle.nv_args.specs.Args.{typed_arguments};
ghost use Rattle.nv_args.specs.Reading.{number_at};
ghost use Rattle.nv_model.specs.Answers.{Answer, on_buffer};
ghost use Rattle.nv_model.specs.Seen.{SeenBuffer};
ghost use Rattle.nv_model.specs.Standing.{seen_now, seen_buffer_now};
ghost use Rattle.nv_editor.specs.Sound.{content_at, is_live_buffer};
ghost use Rattle.nv_api_buf.specs.inside.Deciding.{Leaves};

use nv_args::{Args, Fail, no_buffer};
use nv_buffer::Buffer;
use nv_editor::Editor;

/// The handle of a live buffer.
#[derive(Clone, Copy)]
pub struct Live {
    pub handle: i64,
}

/// The live buffer that a call names, with its handle.
#[derive(Clone, Copy)]
pub struct Found<'a> {
    pub live: Live,
    pub buffer: &'a Buffer,
}

/// The live buffer of a handle, lent, 0 being the current one. Without it the call is refused
/// (help: api-types).
pub fn found_of(editor: &Editor, n: i64) -> Result<Found<'_>, Fail>
    ensures row { (next : ℤ → SeenBuffer → Answer) → Leaves (on_buffer (seen_now editor.now) n next)
        (λ found. next found.live.handle
        (seen_buffer_now (content_at editor.now found.live.handle))) result }
    ensures live { IfOk result (λ found. is_live_buffer editor.now found.live.handle ≡ true) }
    ensures buffer { IfOk result
        (λ found. found.buffer.now ≡ content_at editor.now found.live.handle) }
{
    let handle = editor.named_buffer(n);
    match editor.buffer(handle) {
        Some(buffer) => Ok(Found {
            live: Live { handle },
            buffer,
        }),
        None => Err(no_buffer(editor.alloc(), n)),
    }
}

/// The live buffer that the first argument names, lent.
pub fn found_given<'a>(editor: &'a Editor, args: &Args) -> Result<Found<'a>, Fail>
    ensures row { (next : ℤ → SeenBuffer → Answer)
        → Leaves (on_buffer (seen_now editor.now) (number_at (typed_arguments args.now) 0) next)
        (λ found. next found.live.handle
        (seen_buffer_now (content_at editor.now found.live.handle))) result }
    ensures live { IfOk result (λ found. is_live_buffer editor.now found.live.handle ≡ true) }
    ensures buffer { IfOk result
        (λ found. found.buffer.now ≡ content_at editor.now found.live.handle) }
{
    found_of(editor, args.number(0))
}
