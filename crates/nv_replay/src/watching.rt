//! Watchers that follow a history.
ghost use Rattle.std.specs.Prelude.{◌≡◌, ℕ, true, false, length, slice_get, Some, OnOk};
ghost use Rattle.nv_rpc.specs.Frames.{call_of_frame};
ghost use Rattle.nv_core.specs.Contents.{plain_event};
ghost use Rattle.nv_watch.specs.Verdicts.{sight};
ghost use Rattle.nv_replay.specs.inside.Quiet.{is_of_buffers, is_of_texts, may_splice, may_splice_by, method_called};
ghost use Rattle.nv_replay.specs.inside.Watching.{HasLookedOn, IsPrepared};

use nv_core::Event;
use nv_rpc::Frame;
use nv_value::Bytes;
use nv_watch::{Watcher, catch_up, drive, glance};
use nv_world::{Step, World};
use std::alloc::AllocError;

// Whether a method may change a text.
fn is_of_texts(name: &[u8]) -> bool
    ensures { result ≡ is_of_texts name.now }
{
    name == b"nvim_buf_set_lines".as_slice()
        || name == b"nvim_buf_set_text".as_slice()
        || name == b"nvim_command".as_slice()
        || name == b"nvim_call_atomic".as_slice()
}

// Whether a method makes or deletes buffers, or changes who follows one.
fn is_of_buffers(name: &[u8]) -> bool
    ensures { result ≡ is_of_buffers name.now }
{
    name == b"nvim_create_buf".as_slice()
        || name == b"nvim_buf_delete".as_slice()
        || name == b"nvim_buf_attach".as_slice()
        || name == b"nvim_buf_detach".as_slice()
}

// The name of the method that a frame calls.
fn method_of(frame: &Frame) -> &Bytes
    ensures { result.now ≡ method_called (call_of_frame frame.now) }
{
    match frame {
        Frame::Request { method, .. } => method,
        Frame::Notice { method, .. } => method,
    }
}

// Whether a frame calls a method that may splice a text.
fn may_splice_by(frame: &Frame) -> bool
    ensures { result ≡ may_splice_by (method_called (call_of_frame frame.now)) }
{
    let name = method_of(frame).as_slice();
    is_of_texts(name) || is_of_buffers(name)
}

// Whether an event may splice a text: calls alone do.
fn may_splice(event: &Event) -> bool
    ensures { result ≡ may_splice (plain_event event.now) }
{
    match event {
        Event::Request { frame, .. } => may_splice_by(frame),
        Event::Open => false,
        Event::Take { .. } => false,
        Event::Close { .. } => false,
    }
}

/// Before an entry that may splice the watchers look at what they put off.
pub fn prepare<W: Watcher>(
    watchers: &mut Vec<W>,
    world: &World,
    event: &Event,
) -> Result<(), AllocError>
    ensures count { OnOk result (length watchers.new.items ≡ length watchers.old.items) }
    ensures prepared { OnOk result ((i : ℕ) (old new : W)
        → slice_get watchers.old.items i ≡ Some old → slice_get watchers.new.items i ≡ Some new
        → IsPrepared (may_splice (plain_event event.now)) world.now (W.HasSeen old)
        (W.IsBehind old) (W.HasSeen new) (W.IsBehind new) (W.Breaks old) (W.Breaks new)) }
{
    if !may_splice(event) {
        return Ok(());
    }
    catch_up(watchers, world)?;
    Ok(())
}

// The watchers are shown a first step.
fn watch_first<W: Watcher>(
    watchers: &mut Vec<W>,
    world: &World,
    step: &Step,
) -> Result<(), AllocError>
    ensures count { OnOk result (length watchers.new.items ≡ length watchers.old.items) }
    ensures watches { OnOk result ((i : ℕ) (old new : W)
        → slice_get watchers.old.items i ≡ Some old → slice_get watchers.new.items i ≡ Some new
        → HasLookedOn false (sight world.now step.now) (W.HasSeen old) (W.IsBehind old)
        (W.HasSeen new) (W.IsBehind new) (W.Breaks old) (W.Breaks new)) }
{
    drive(watchers, world, step)?;
    Ok(())
}

// The watchers glance at a step that follows those before.
fn watch_next<W: Watcher>(
    watchers: &mut Vec<W>,
    world: &World,
    step: &Step,
) -> Result<(), AllocError>
    ensures count { OnOk result (length watchers.new.items ≡ length watchers.old.items) }
    ensures watches { OnOk result ((i : ℕ) (old new : W)
        → slice_get watchers.old.items i ≡ Some old → slice_get watchers.new.items i ≡ Some new
        → HasLookedOn true (sight world.now step.now) (W.HasSeen old) (W.IsBehind old)
        (W.HasSeen new) (W.IsBehind new) (W.Breaks old) (W.Breaks new)) }
{
    glance(watchers, world, step)?;
    Ok(())
}

/// The watchers look at a step: they glance at one that follows those before in the next world of
/// a history.
pub fn watch<W: Watcher>(
    watchers: &mut Vec<W>,
    world: &World,
    step: &Step,
    follows: bool,
) -> Result<(), AllocError>
    ensures count { OnOk result (length watchers.new.items ≡ length watchers.old.items) }
    ensures watches { OnOk result ((i : ℕ) (old new : W)
        → slice_get watchers.old.items i ≡ Some old → slice_get watchers.new.items i ≡ Some new
        → HasLookedOn follows (sight world.now step.now) (W.HasSeen old) (W.IsBehind old)
        (W.HasSeen new) (W.IsBehind new) (W.Breaks old) (W.Breaks new)) }
{
    if follows {
        watch_next(watchers, world, step)
    } else {
        watch_first(watchers, world, step)
    }
}
