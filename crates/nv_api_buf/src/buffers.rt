//! The methods on buffers as a whole: listing, making, deleting and naming them.
ghost use Rattle.std.specs.Prelude.{◌≡◌, ℕ, ◌==◌, ◌&&◌, ◌<◌, true, false, length, map, IfOk, is_some};
ghost use Rattle.std.specs.List.{list_any};
ghost use Rattle.nv_value.specs.Content.{text};
ghost use Rattle.nv_value.specs.View.{content, contents};
ghost use Rattle.nv_msgpack.specs.Shortest.{HasSpelling, HaveSpellings};
ghost use Rattle.nv_rpc.specs.Messages.{buffer_handle};
ghost use Rattle.nv_places.specs.Flat.{IsLine};
ghost use Rattle.nv_windows.specs.Workspace.{current_window};
ghost use Rattle.nv_args.specs.Args.{typed_arguments};
ghost use Rattle.nv_args.specs.Dicts.{flag_or};
ghost use Rattle.nv_model.specs.Answers.{Answer};
ghost use Rattle.nv_model.specs.Answering.{reply_of};
ghost use Rattle.nv_model.specs.Deleting.{no_buffer_left, other_handles};
ghost use Rattle.nv_model.specs.Editors.{handles_of};
ghost use Rattle.nv_model.specs.Seen.{is_name_of};
ghost use Rattle.nv_model.specs.Standing.{seen_now, seen_buffer_now};
ghost use Rattle.nv_editor.specs.Doing.{GivesAnswer, ReadsAnswer};
ghost use Rattle.nv_editor.specs.Sound.{is_live_buffer};
ghost use Rattle.nv_api_buf.specs.BufferRows.{nvim_list_bufs, nvim_get_current_buf, nvim_set_current_buf, nvim_create_buf, nvim_buf_delete, nvim_buf_is_valid, nvim_buf_get_name, nvim_buf_set_name, buffers_are_full};
ghost use Rattle.nv_api_buf.specs.inside.Deciding.{Leaves, delete_answer, unless_unnamed, unless_kept, unless_full};

use crate::finding::{Live, found_given};
use nv_args::{
    Args, Fail, Rule, flag_or, limit_reached, map_fault, name_in_use, newline_inside, no_id_left,
    unsaved_changes,
};
use nv_buffer::{Buffer, Line};
use nv_editor::{Editor, Fact, Happened};
use nv_lines::is_line;
use nv_msgpack::handle;
use nv_value::{Items, Value, spelled_length};
use std::alloc::{AllocError, Global};

/// The type of a buffer's handle as an extension value (Neovim help `api-types`).
const BUFFER: i8 = 0;

// The handle of a buffer as a value.
fn handle_value(alloc: Global, n: i64) -> Result<Value, AllocError>
    ensures value { IfOk result (λ value. content value ≡ buffer_handle n) }
    ensures spelled { IfOk result (λ value. HasSpelling (content value)) }
{
    handle(alloc, BUFFER, n)
}

// The handles of the live buffers as values.
fn handle_values(editor: &Editor) -> Result<Items, AllocError>
    ensures values { IfOk result (λ items. map content items.items
        ≡ map buffer_handle (handles_of editor.now.buffers)) }
    ensures spelled { IfOk result (λ items. HaveSpellings (contents items.items)) }
{
    let alloc = editor.alloc();
    let mut items = Vec::new(alloc);
    for handle in editor.handles() {
        items.push(handle_value(alloc, *handle)?)?;
    }
    Ok(items)
}

/// `nvim_list_bufs`: the live buffers, rising.
pub fn nvim_list_bufs(editor: &Editor, args: &Args) -> Result<Value, Fail>
    ensures row { (session : ℕ) → ReadsAnswer (nvim_list_bufs (seen_now editor.now) session
        (typed_arguments args.now)) result }
    ensures spelled { IfOk result (λ value. HasSpelling (content value)) }
{
    let _ = args;
    let _ = spelled_length(editor.buffer_count())?;
    let items = handle_values(editor)?;
    Ok(Value::List(items))
}

/// `nvim_get_current_buf`: the buffer of the current window.
pub fn nvim_get_current_buf(editor: &Editor, args: &Args) -> Result<Value, Fail>
    ensures row { (session : ℕ) → ReadsAnswer (nvim_get_current_buf (seen_now editor.now) session
        (typed_arguments args.now)) result }
    ensures spelled { IfOk result (λ value. HasSpelling (content value)) }
{
    let _ = args;
    let value = handle_value(editor.alloc(), editor.named_buffer(0))?;
    Ok(value)
}

/// `nvim_set_current_buf`: the current window shows a buffer, at row 0.
pub fn nvim_set_current_buf(
    editor: &mut Editor,
    args: &Args,
    happened: &mut Happened,
) -> Result<Value, Fail>
    ensures row { (session : ℕ) → GivesAnswer (nvim_set_current_buf (seen_now editor.old) session
        (typed_arguments args.now)) result editor.old editor.new happened.old happened.new }
    ensures spelled { IfOk result (λ value. HasSpelling (content value)) }
{
    let _ = happened.len();
    let found = found_given(editor, args)?;
    let live = found.live;
    let window = editor.windows().current_window();
    editor.known();
    editor.show(window, live.handle);
    Ok(Value::Nil)
}

// Refuses a further buffer where no handle is left for it, or where there are as many as may be.
fn may_make_buffer(editor: &Editor) -> Result<(), Fail>
    ensures row { (answer : Answer) → Leaves (unless_full (seen_now editor.now) answer)
        (λ _. answer) result }
    ensures room { IfOk result (λ _. no_buffer_left editor.now.stage ≡ false) }
{
    if !editor.handle_left() {
        return Err(no_id_left(editor.alloc()));
    }
    if are_full(editor) {
        return Err(limit_reached(editor.alloc()));
    }
    Ok(())
}

/// Whether a further buffer would pass the limit.
pub fn are_full(editor: &Editor) -> bool
    ensures { result ≡ buffers_are_full (seen_now editor.now) }
{
    editor.buffer_count() >= editor.limits().buffers as usize
}

/// `nvim_create_buf`: a new empty buffer. The second argument has no effect.
pub fn nvim_create_buf(
    editor: &mut Editor,
    args: &Args,
    happened: &mut Happened,
) -> Result<Value, Fail>
    ensures row { (session : ℕ) → GivesAnswer (nvim_create_buf (seen_now editor.old) session
        (typed_arguments args.now)) result editor.old editor.new happened.old happened.new }
    ensures spelled { IfOk result (λ value. HasSpelling (content value)) }
{
    let _ = happened.len();
    may_make_buffer(editor)?;
    let n = editor.make_buffer(args.flag(0))?;
    let value = handle_value(editor.alloc(), n)?;
    Ok(value)
}

// Refuses to delete a buffer where another one would have to be made and no handle is left, and a
// modified one that isn't forced.
fn may_delete(editor: &Editor, buffer: &Buffer, forced: bool) -> Result<(), Fail>
    ensures row { (answer : Answer) → Leaves
        (unless_kept (seen_now editor.now) (seen_buffer_now buffer.now) forced answer)
        (λ _. answer) result }
    ensures room { IfOk result (λ _. (length (handles_of editor.now.buffers) == 1
        && no_buffer_left editor.now.stage) ≡ false) }
{
    if editor.buffer_count() == 1 && !editor.handle_left() {
        return Err(no_id_left(editor.alloc()));
    }
    if buffer.modified() && !forced {
        return Err(unsaved_changes(editor.alloc()));
    }
    Ok(())
}

/// `nvim_buf_delete`: deletes a buffer whole. A modified one needs the key `force`.
pub fn nvim_buf_delete(
    editor: &mut Editor,
    args: &Args,
    happened: &mut Happened,
) -> Result<Value, Fail>
    ensures row { (session : ℕ) → GivesAnswer (nvim_buf_delete (seen_now editor.old) session
        (typed_arguments args.now)) result editor.old editor.new happened.old happened.new }
    ensures spelled { IfOk result (λ value. HasSpelling (content value)) }
{
    let found = found_given(editor, args)?;
    let live = found.live;
    let pairs = args.pairs(1);
    map_fault(editor.alloc(), &[Rule::flag("force")], pairs)?;
    may_delete(editor, found.buffer, flag_or(pairs, "force", false))?;
    delete(editor, live, happened)
}

// Deletes a buffer.
fn delete(editor: &mut Editor, live: Live, happened: &mut Happened) -> Result<Value, Fail>
    requires live { is_live_buffer editor.old live.handle ≡ true }
    requires room { (length (handles_of editor.old.buffers) == 1
        && no_buffer_left editor.old.stage) ≡ false }
    ensures row { GivesAnswer (delete_answer (seen_now editor.old) live.handle) result
        editor.old editor.new happened.old happened.new }
    ensures spelled { IfOk result (λ value. HasSpelling (content value)) }
{
    editor.drop_buffer(live.handle)?;
    happened.push(Fact::Deleted {
        buffer: live.handle,
    })?;
    Ok(Value::Nil)
}

/// `nvim_buf_is_valid`: whether a buffer of a handle is live.
pub fn nvim_buf_is_valid(editor: &Editor, args: &Args) -> Result<Value, Fail>
    ensures row { (session : ℕ) → ReadsAnswer (nvim_buf_is_valid (seen_now editor.now) session
        (typed_arguments args.now)) result }
    ensures spelled { IfOk result (λ value. HasSpelling (content value)) }
{
    let named = editor.named_buffer(args.number(0));
    Ok(Value::Truth(editor.buffer(named).is_some()))
}

// The name of a buffer as a value.
fn name_value(buffer: &Buffer) -> Result<Value, Fail>
    ensures row { ReadsAnswer (reply_of (text (seen_buffer_now buffer.now).name)) result }
    ensures spelled { IfOk result (λ value. HasSpelling (content value)) }
{
    let name = buffer.name().share()?;
    Ok(Value::Text(name.into_bytes()))
}

/// `nvim_buf_get_name`: the name as it was given.
pub fn nvim_buf_get_name(editor: &Editor, args: &Args) -> Result<Value, Fail>
    ensures row { (session : ℕ) → ReadsAnswer (nvim_buf_get_name (seen_now editor.now) session
        (typed_arguments args.now)) result }
    ensures spelled { IfOk result (λ value. HasSpelling (content value)) }
{
    let found = found_given(editor, args)?;
    name_value(found.buffer)
}

// Whether a buffer but this one has the name.
fn has_other(editor: &Editor, live: Live, name: &[u8]) -> bool
    ensures { result ≡ list_any (λ k. is_name_of name.now ((seen_now editor.now).buffer k))
        (other_handles live.handle (handles_of editor.now.buffers)) }
{
    editor.is_named_other(live.handle, name)
}

// Refuses a name that holds a line feed, and one that another buffer has.
fn may_name(editor: &Editor, live: Live, name: &[u8]) -> Result<(), Fail>
    ensures row { (answer : Answer) → Leaves
        (unless_unnamed (seen_now editor.now) live.handle name.now answer) (λ _. answer) result }
    ensures line { IfOk result (λ _. IsLine name.now) }
{
    if !is_line(name) {
        return Err(newline_inside(editor.alloc()));
    }
    if name.is_empty() {
        return Ok(());
    }
    if has_other(editor, live, name) {
        return Err(name_in_use(editor.alloc()));
    }
    Ok(())
}

/// `nvim_buf_set_name`: the name, which no other buffer has unless it is empty.
pub fn nvim_buf_set_name(
    editor: &mut Editor,
    args: &Args,
    happened: &mut Happened,
) -> Result<Value, Fail>
    ensures row { (session : ℕ) → GivesAnswer (nvim_buf_set_name (seen_now editor.old) session
        (typed_arguments args.now)) result editor.old editor.new happened.old happened.new }
    ensures spelled { IfOk result (λ value. HasSpelling (content value)) }
{
    let _ = happened.len();
    let found = found_given(editor, args)?;
    let live = found.live;
    let name = args.bytes(editor.alloc(), 1)?;
    may_name(editor, live, name.as_slice())?;
    editor.put_name(live.handle, Line::from_bytes(name));
    Ok(Value::Nil)
}
