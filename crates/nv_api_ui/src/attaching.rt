//! The methods that change UIs.
ghost use Rattle.std.specs.Prelude.{◌≡◌, List, IfOk};
ghost use Rattle.nv_value.specs.Content.{nil};
ghost use Rattle.nv_value.specs.View.{content};
ghost use Rattle.nv_msgpack.specs.Shortest.{HasSpelling};
ghost use Rattle.nv_args.specs.Args.{typed_arguments};
ghost use Rattle.nv_args.specs.Reading.{Arg, object_at};
ghost use Rattle.nv_model.specs.Answers.{Fact};
ghost use Rattle.nv_model.specs.Standing.{seen_now};
ghost use Rattle.nv_editor.specs.Doing.{GivesAnswer, GivesQuietly};
ghost use Rattle.nv_api_ui.specs.UiRows.{nvim_ui_attach, nvim_ui_detach, nvim_ui_set_option, nvim_ui_try_resize, setting_answer};

use crate::options::{attached_ui, check_option, check_options, with_ui_option};
use crate::putting::{attach, put_again, resize, sized_ui, ui_of, ui_or_new};
use nv_args::{Args, Fail, not_attached, out_of_bounds};
use nv_editor::Editor;
use nv_value::Value;

/// `nvim_ui_attach`: a session gets a UI. The screen has the least size of all UIs.
pub fn nvim_ui_attach(editor: &mut Editor, session: u64, args: &Args) -> Result<Value, Fail>
    ensures row { GivesQuietly
        (nvim_ui_attach (seen_now editor.old) session (typed_arguments args.now))
        result editor.old editor.new }
    ensures spelled { IfOk result (λ value. HasSpelling (content value)) }
{
    let pairs = args.pairs(2);
    check_options(editor.alloc(), pairs)?;
    let Some(ui) = sized_ui(attached_ui(session, pairs), args) else {
        return Err(out_of_bounds(editor.alloc()));
    };
    attach(editor, ui)
}

/// `nvim_ui_detach`: a session has no UI any more. Where none is left the screen keeps its size.
pub fn nvim_ui_detach(editor: &mut Editor, session: u64) -> Result<Value, Fail>
    ensures row { (args : List Arg) (told : List Fact)
        → GivesAnswer (nvim_ui_detach (seen_now editor.old) session args)
        result editor.old editor.new told told }
    ensures spelled { IfOk result (λ value. HasSpelling (content value)) }
{
    if editor.drop_ui(session) {
        Ok(Value::Nil)
    } else {
        Err(not_attached(editor.alloc()))
    }
}

/// `nvim_ui_try_resize`: a session's UI gets another size.
pub fn nvim_ui_try_resize(editor: &mut Editor, session: u64, args: &Args) -> Result<Value, Fail>
    ensures row { GivesQuietly
        (nvim_ui_try_resize (seen_now editor.old) session (typed_arguments args.now))
        result editor.old editor.new }
    ensures spelled { IfOk result (λ value. HasSpelling (content value)) }
{
    let Some(ui) = sized_ui(ui_or_new(editor.uis(), session), args) else {
        return Err(out_of_bounds(editor.alloc()));
    };
    resize(editor, ui)
}

// The Object in the second argument, and nil where there is none.
fn object_given<'a>(args: &'a Args, none: &'a Value) -> &'a Value
    requires { content none.now ≡ nil }
    ensures { content result.now ≡ object_at (typed_arguments args.now) 1 }
{
    match args.object(1) {
        Some(value) => value,
        None => none,
    }
}

// Puts a value given for an option of a session's UI.
fn put_option(editor: &mut Editor, session: u64, name: &[u8], value: &Value) -> Result<Value, Fail>
    ensures row { (told : List Fact)
        → GivesAnswer (setting_answer editor.old.stage session name.now (content value.now))
        result editor.old editor.new told told }
    ensures spelled { IfOk result (λ value. HasSpelling (content value)) }
{
    let Some(ui) = ui_of(editor.uis(), session) else {
        return Err(not_attached(editor.alloc()));
    };
    put_again(editor, ui, with_ui_option(ui, name, value))
}

/// `nvim_ui_set_option`: an option of a session's UI is put. `rgb` is kept; others have no effect.
pub fn nvim_ui_set_option(editor: &mut Editor, session: u64, args: &Args) -> Result<Value, Fail>
    ensures row { GivesQuietly
        (nvim_ui_set_option (seen_now editor.old) session (typed_arguments args.now))
        result editor.old editor.new }
    ensures spelled { IfOk result (λ value. HasSpelling (content value)) }
{
    let name = args.string(0);
    let none = Value::Nil;
    let value = object_given(args, &none);
    check_option(editor.alloc(), name, value)?;
    put_option(editor, session, name, value)
}
