//! The UIs that sessions have, and how one is put.
ghost use Rattle.std.specs.Prelude.{◌≡◌, ◌<◌, ◌≤◌, ◌^◌, true, List, Some, IfOk, IfSome};
ghost use Rattle.nv_value.specs.View.{content};
ghost use Rattle.nv_msgpack.specs.Shortest.{HasSpelling};
ghost use Rattle.nv_args.specs.Args.{typed_arguments};
ghost use Rattle.nv_args.specs.KeyValues.{number_between};
ghost use Rattle.nv_args.specs.Reading.{number_at};
ghost use Rattle.nv_model.specs.Answers.{Fact};
ghost use Rattle.nv_editor.specs.Doing.{GivesAnswer};
ghost use Rattle.nv_editor.specs.Uis.{has_ui, ui_fits};
ghost use Rattle.nv_api_ui.specs.UiRows.{attaching_answer, resizing_answer, sized_ui, ui_of, ui_or_new, uis_are_full};
ghost use Rattle.nv_api_ui.specs.inside.Putting.{HasSizeOf, ui_put_answer};

use crate::options::attached_ui;
use nv_args::{Args, Fail, already_attached, limit_reached, no_room, not_attached};
use nv_editor::Editor;
use nv_model::Ui;
use nv_value::Value;

/// The UI of a session.
pub fn ui_of(uis: &[Ui], session: u64) -> Option<Ui>
    ensures ui { result ≡ ui_of session uis.now }
    ensures owner { IfSome result (λ ui. ui.session ≡ session) }
{
    for ui in uis {
        if ui.session == session {
            return Some(*ui);
        }
    }
    None
}

/// The UI of a session, and one attached without options where it has none.
pub fn ui_or_new(uis: &[Ui], session: u64) -> Ui
    ensures { result ≡ ui_or_new session uis.now }
{
    match ui_of(uis, session) {
        Some(ui) => ui,
        None => attached_ui(session, &[]),
    }
}

// A size from 1 to a greatest one that an argument gives.
fn asked_size(args: &Args, place: usize, most: u32) -> Option<u32>
    ensures size { result ≡ number_between 1 most (number_at (typed_arguments args.now) place) }
    ensures within { IfSome result (λ size. size ≤ most) }
{
    let size = args.number(place);
    if 1 <= size && size <= i64::from(most) {
        Some(size as u32)
    } else {
        None
    }
}

/// A UI with the width and the height, in cells, of the first two arguments: 1 to 2000 by 1 to
/// 1000.
pub fn sized_ui(ui: Ui, args: &Args) -> Option<Ui>
    ensures ui { result ≡ sized_ui (typed_arguments args.now) ui }
    ensures width { IfSome result (λ sized. sized.width < 2 ^ 16) }
    ensures height { IfSome result (λ sized. sized.height < 2 ^ 16) }
{
    let width = asked_size(args, 0, 2000)?;
    let height = asked_size(args, 1, 1000)?;
    Some(Ui {
        width,
        height,
        ..ui
    })
}

// Whether a session has a UI.
fn has_ui(uis: &[Ui], session: u64) -> bool
    ensures { result ≡ has_ui session uis.now }
{
    uis.iter().any(|ui| ui.session == session)
}

// Whether the UI of a further session would pass the limit.
fn uis_are_full(editor: &Editor, session: u64) -> bool
    ensures { result ≡ uis_are_full session editor.now.stage }
{
    let uis = editor.uis();
    !has_ui(uis, session) && uis.len() >= editor.limits().uis as usize
}

// Puts a UI that fits.
fn put_fitting(editor: &mut Editor, ui: Ui) -> Result<Value, Fail>
    requires width { ui.width < 2 ^ 16 }
    requires height { ui.height < 2 ^ 16 }
    requires fits { ui_fits ui editor.old.stage ≡ true }
    ensures row { (told : List Fact)
        → GivesAnswer (ui_put_answer ui) result editor.old editor.new told told }
    ensures spelled { IfOk result (λ value. HasSpelling (content value)) }
{
    editor.put_ui(ui)?;
    Ok(Value::Nil)
}

/// Attaches a UI of this size.
pub fn attach(editor: &mut Editor, ui: Ui) -> Result<Value, Fail>
    requires width { ui.width < 2 ^ 16 }
    requires height { ui.height < 2 ^ 16 }
    ensures row { (told : List Fact)
        → GivesAnswer (attaching_answer editor.old.stage ui)
        result editor.old editor.new told told }
    ensures spelled { IfOk result (λ value. HasSpelling (content value)) }
{
    if !editor.ui_fits(ui) {
        return Err(no_room(editor.alloc()));
    }
    if uis_are_full(editor, ui.session) {
        return Err(limit_reached(editor.alloc()));
    }
    if has_ui(editor.uis(), ui.session) {
        return Err(already_attached(editor.alloc()));
    }
    put_fitting(editor, ui)
}

/// Puts the UI of a session with this size.
pub fn resize(editor: &mut Editor, ui: Ui) -> Result<Value, Fail>
    requires width { ui.width < 2 ^ 16 }
    requires height { ui.height < 2 ^ 16 }
    ensures row { (told : List Fact)
        → GivesAnswer (resizing_answer editor.old.stage ui)
        result editor.old editor.new told told }
    ensures spelled { IfOk result (λ value. HasSpelling (content value)) }
{
    if !editor.ui_fits(ui) {
        return Err(no_room(editor.alloc()));
    }
    if !has_ui(editor.uis(), ui.session) {
        return Err(not_attached(editor.alloc()));
    }
    put_fitting(editor, ui)
}

/// Puts the UI of a session anew, with the size that it has.
pub fn put_again(editor: &mut Editor, there: Ui, ui: Ui) -> Result<Value, Fail>
    requires there { ui_of ui.session editor.old.stage.uis ≡ Some there }
    requires same { HasSizeOf ui there }
    ensures row { (told : List Fact)
        → GivesAnswer (ui_put_answer ui) result editor.old editor.new told told }
    ensures spelled { IfOk result (λ value. HasSpelling (content value)) }
{
    editor.known();
    put_fitting(editor, ui)
}
