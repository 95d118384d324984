//! The commands, and the method that runs one (help: nvim_command()).
ghost use Rattle.std.specs.Prelude.{◌≡◌, ◌≤ℤ◌, ◌+ℤ◌, ℕ, pos, false, option_map, IfOk};
ghost use Rattle.nv_value.specs.View.{content};
ghost use Rattle.nv_msgpack.specs.Shortest.{HasSpelling};
ghost use Rattle.nv_args.specs.Args.{typed_arguments};
ghost use Rattle.nv_args.specs.Texts.{decimal_number};
ghost use Rattle.nv_model.specs.Answers.{Answer};
ghost use Rattle.nv_model.specs.Standing.{seen_now, seen_buffer_now};
ghost use Rattle.nv_editor.specs.Doing.{GivesAnswer};
ghost use Rattle.nv_api_buf.specs.Commands.{command_of, undo_number, undo, redo, undo_to, tabnew, tabclose, quit_all};
ghost use Rattle.nv_api_buf.specs.CommandRows.{command_answer, nvim_command, no_tab_left};
ghost use Rattle.nv_api_buf.specs.inside.Deciding.{Leaves};
ghost use Rattle.nv_api_buf.specs.inside.Orders.{command_told, unless_moved, unless_tabs_full};

use crate::buffers::are_full;
use crate::finding::found_of;
use crate::limits::tick_passes;
use nv_args::{
    Args, Fail, last_one, limit_reached, no_id_left, not_modifiable, out_of_bounds, unknown_name,
};
use nv_buffer::Buffer;
use nv_editor::{Editor, Fact, Happened};
use nv_value::Value;

/// A command (help: undo-commands, :tabnew, :tabclose, :qall).
#[derive(Clone, Copy)]
pub enum Order {
    /// Back to the parent of the current change.
    Undo,
    /// Ahead to the child last entered of the current change.
    Redo,
    /// To the change of this number; 0 is the text at first.
    UndoTo(u64),
    Tabnew,
    Tabclose,
    /// The editor ends for all sessions.
    QuitAll,
}

// The number that 1 to 18 decimal digits write.
fn number_of(digits: &[u8]) -> Option<u64>
    ensures { result ≡ decimal_number digits.now }
{
    if digits.is_empty() || digits.len() > 18 {
        return None;
    }
    let mut number = 0u64;
    for byte in digits {
        if !byte.is_ascii_digit() {
            return None;
        }
        number = number * 10 + (*byte - b'0') as u64;
    }
    Some(number)
}

// The command of `undo N`.
fn undo_order(words: &[u8]) -> Option<Order>
    ensures { option_map command_told result ≡ undo_number words.now }
{
    match words.strip_prefix(b"undo ".as_slice()) {
        Some(digits) => match number_of(digits) {
            Some(number) => Some(Order::UndoTo(number)),
            None => None,
        },
        None => None,
    }
}

// The command that a text is.
pub(crate) fn order_of(words: &[u8]) -> Option<Order>
    ensures { option_map command_told result ≡ command_of words.now }
{
    if words == b"undo".as_slice() {
        return Some(Order::Undo);
    }
    if words == b"redo".as_slice() {
        return Some(Order::Redo);
    }
    if words == b"tabnew".as_slice() {
        return Some(Order::Tabnew);
    }
    if words == b"tabclose".as_slice() {
        return Some(Order::Tabclose);
    }
    if words == b"qall!".as_slice() || words == b"qa!".as_slice() {
        return Some(Order::QuitAll);
    }
    undo_order(words)
}

// Refuses so many splices of undo commands where the buffer isn't modifiable, and where they would
// pass the greatest changedtick. No splice is never refused.
fn may_move(editor: &Editor, buffer: &Buffer, splices: u64) -> Result<(), Fail>
    ensures row { (answer : Answer) → Leaves (unless_moved editor.now.stage.limits
        (seen_buffer_now buffer.now) splices answer) (λ _. answer) result }
    ensures tick { IfOk result (λ _. (buffer.now.tick +ℤ pos splices) ≤ℤ i64.MAX) }
{
    let _tick = buffer.tick();
    if splices == 0 {
        return Ok(());
    }
    if !buffer.modifiable() {
        return Err(not_modifiable(editor.alloc()));
    }
    if tick_passes(editor.limits(), buffer, splices) {
        return Err(limit_reached(editor.alloc()));
    }
    Ok(())
}

// Refuses a further tabpage where a handle is wanting, and where it would pass a limit.
fn may_make_tab(editor: &Editor) -> Result<(), Fail>
    ensures row { (answer : Answer) → Leaves (unless_tabs_full (seen_now editor.now) answer)
        (λ _. answer) result }
    ensures room { IfOk result (λ _. no_tab_left editor.now.stage ≡ false) }
{
    let windows = editor.windows();
    if !editor.handle_left() || !windows.window_left() || !windows.tabpage_left() {
        return Err(no_id_left(editor.alloc()));
    }
    if are_full(editor) || windows.windows().len() >= editor.limits().windows as usize {
        return Err(limit_reached(editor.alloc()));
    }
    Ok(())
}

// Makes a tabpage with a new buffer.
fn make_tab(editor: &mut Editor, happened: &mut Happened) -> Result<Value, Fail>
    ensures row { GivesAnswer (command_answer (seen_now editor.old) tabnew) result
        editor.old editor.new happened.old happened.new }
    ensures spelled { IfOk result (λ value. HasSpelling (content value)) }
{
    let _ = happened.len();
    may_make_tab(editor)?;
    let buffer = editor.make_buffer(true)?;
    editor.make_tab(buffer)?;
    Ok(Value::Nil)
}

// Closes the current tabpage.
fn close_tab(editor: &mut Editor, happened: &mut Happened) -> Result<Value, Fail>
    ensures row { GivesAnswer (command_answer (seen_now editor.old) tabclose) result
        editor.old editor.new happened.old happened.new }
    ensures spelled { IfOk result (λ value. HasSpelling (content value)) }
{
    let _ = happened.len();
    if editor.close_tab() {
        Ok(Value::Nil)
    } else {
        Err(last_one(editor.alloc()))
    }
}

// Ends the editor: all sessions are told to quit.
fn quit(editor: &Editor, happened: &mut Happened) -> Result<Value, Fail>
    ensures row { GivesAnswer (command_answer (seen_now editor.now) quit_all) result
        editor.now editor.now happened.old happened.new }
    ensures spelled { IfOk result (λ value. HasSpelling (content value)) }
{
    let _limits = editor.limits();
    happened.push(Fact::Quit)?;
    Ok(Value::Nil)
}

// The three undo commands, for the current buffer.
fn undo_current(editor: &mut Editor, happened: &mut Happened) -> Result<Value, Fail>
    ensures row { GivesAnswer (command_answer (seen_now editor.old) undo) result
        editor.old editor.new happened.old happened.new }
    ensures spelled { IfOk result (λ value. HasSpelling (content value)) }
{
    let found = found_of(editor, 0)?;
    let handle = found.live.handle;
    may_move(editor, found.buffer, editor.cost_back(handle))?;
    editor.undo(handle, happened)?;
    Ok(Value::Nil)
}

fn redo_current(editor: &mut Editor, happened: &mut Happened) -> Result<Value, Fail>
    ensures row { GivesAnswer (command_answer (seen_now editor.old) redo) result
        editor.old editor.new happened.old happened.new }
    ensures spelled { IfOk result (λ value. HasSpelling (content value)) }
{
    let found = found_of(editor, 0)?;
    let handle = found.live.handle;
    may_move(editor, found.buffer, editor.cost_ahead(handle))?;
    editor.redo(handle, happened)?;
    Ok(Value::Nil)
}

fn undo_current_to(editor: &mut Editor, number: u64, happened: &mut Happened) -> Result<Value, Fail>
    ensures row { GivesAnswer (command_answer (seen_now editor.old) (undo_to number)) result
        editor.old editor.new happened.old happened.new }
    ensures spelled { IfOk result (λ value. HasSpelling (content value)) }
{
    let found = found_of(editor, 0)?;
    let handle = found.live.handle;
    if number > editor.changes(handle) {
        return Err(out_of_bounds(editor.alloc()));
    }
    may_move(editor, found.buffer, editor.cost_to(handle, number))?;
    editor.undo_to(handle, number, happened)?;
    Ok(Value::Nil)
}

// Runs a command.
pub(crate) fn obey(
    editor: &mut Editor,
    order: Order,
    happened: &mut Happened,
) -> Result<Value, Fail>
    ensures row { GivesAnswer (command_answer (seen_now editor.old) (command_told order)) result
        editor.old editor.new happened.old happened.new }
    ensures spelled { IfOk result (λ value. HasSpelling (content value)) }
{
    match order {
        Order::Undo => undo_current(editor, happened),
        Order::Redo => redo_current(editor, happened),
        Order::UndoTo(number) => undo_current_to(editor, number, happened),
        Order::Tabnew => make_tab(editor, happened),
        Order::Tabclose => close_tab(editor, happened),
        Order::QuitAll => quit(editor, happened),
    }
}

/// `nvim_command`: runs one of the known commands. Any other text is refused.
pub fn nvim_command(
    editor: &mut Editor,
    args: &Args,
    happened: &mut Happened,
) -> Result<Value, Fail>
    ensures row { (session : ℕ) → GivesAnswer (nvim_command (seen_now editor.old) session
        (typed_arguments args.now)) result editor.old editor.new happened.old happened.new }
    ensures spelled { IfOk result (λ value. HasSpelling (content value)) }
{
    let _ = happened.len();
    let words = args.string(0);
    match order_of(words) {
        Some(order) => obey(editor, order, happened),
        None => Err(unknown_name(editor.alloc(), words)),
    }
}
