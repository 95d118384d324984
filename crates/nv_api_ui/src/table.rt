//! The methods of this crate by their names.
ghost use Rattle.std.specs.Prelude.{List, IfOk};
ghost use Rattle.nv_value.specs.View.{content};
ghost use Rattle.nv_msgpack.specs.Shortest.{HasSpelling};
ghost use Rattle.nv_rpc.specs.Outcomes.{outcome_content};
ghost use Rattle.nv_args.specs.Args.{typed_arguments};
ghost use Rattle.nv_model.specs.Answers.{Fact};
ghost use Rattle.nv_model.specs.Standing.{seen_now};
ghost use Rattle.nv_editor.specs.Doing.{GivesQuietly, GivesResult};
ghost use Rattle.nv_api_ui.specs.UiRows.{ui_row};

use crate::attaching::{nvim_ui_attach, nvim_ui_detach, nvim_ui_set_option, nvim_ui_try_resize};
use crate::telling::{nvim_list_uis, nvim_strwidth};
use nv_args::{Args, Fail, UiMethod};
use nv_editor::{Editor, as_outcome};
use nv_rpc::Outcome;
use nv_value::Value;

// What a method of UIs, or `nvim_strwidth`, gives for a session, as a value.
fn value_given(
    method: UiMethod,
    editor: &mut Editor,
    session: u64,
    args: &Args,
) -> Result<Value, Fail>
    ensures row { GivesQuietly
        (ui_row method (seen_now editor.old) session (typed_arguments args.now))
        result editor.old editor.new }
    ensures spelled { IfOk result (λ value. HasSpelling (content value)) }
{
    match method {
        UiMethod::Strwidth => nvim_strwidth(args),
        UiMethod::UiAttach => nvim_ui_attach(editor, session, args),
        UiMethod::UiDetach => nvim_ui_detach(editor, session),
        UiMethod::UiTryResize => nvim_ui_try_resize(editor, session, args),
        UiMethod::UiSetOption => nvim_ui_set_option(editor, session, args),
        UiMethod::ListUis => nvim_list_uis(editor),
    }
}

/// Calls a method of UIs, or `nvim_strwidth`, for a session.
pub fn call(
    method: UiMethod,
    editor: &mut Editor,
    session: u64,
    args: &Args,
) -> Result<Outcome, Fail>
    ensures row { (told : List Fact) → GivesResult
        (ui_row method (seen_now editor.old) session (typed_arguments args.now))
        result editor.old editor.new told told }
    ensures spelled { IfOk result (λ outcome. HasSpelling (outcome_content outcome)) }
{
    as_outcome(value_given(method, editor, session, args))
}
