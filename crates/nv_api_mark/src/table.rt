//! The methods of this crate by their names.
ghost use Rattle.std.specs.Prelude.{ℕ, List, IfOk};
ghost use Rattle.nv_msgpack.specs.Shortest.{HasSpelling};
ghost use Rattle.nv_rpc.specs.Outcomes.{outcome_content};
ghost use Rattle.nv_args.specs.Args.{typed_arguments};
ghost use Rattle.nv_model.specs.Answers.{Fact};
ghost use Rattle.nv_model.specs.Standing.{seen_now};
ghost use Rattle.nv_editor.specs.Doing.{GivesResult};
ghost use Rattle.nv_api_mark.specs.Rows.{mark_row};

use crate::clearing::nvim_buf_clear_namespace;
use crate::grouping::{nvim_get_hl_id_by_name, nvim_set_hl};
use crate::listing::nvim_buf_get_extmarks;
use crate::marks::{nvim_buf_del_extmark, nvim_buf_get_extmark_by_id, nvim_buf_set_extmark};
use crate::naming::{nvim_create_namespace, nvim_get_namespaces};
use crate::telling::nvim_get_hl;
use nv_args::{Args, Fail, MarkMethod};
use nv_editor::{Editor, as_outcome};
use nv_rpc::Outcome;

/// Calls a method on namespaces, marks or highlight groups.
pub fn call(method: MarkMethod, editor: &mut Editor, args: &Args) -> Result<Outcome, Fail>
    ensures row { (session : ℕ) (told : List Fact) → GivesResult
        (mark_row method (seen_now editor.old) session (typed_arguments args.now))
        result editor.old editor.new told told }
    ensures spelled { IfOk result (λ outcome. HasSpelling (outcome_content outcome)) }
{
    match method {
        MarkMethod::CreateNamespace => as_outcome(nvim_create_namespace(editor, args)),
        MarkMethod::GetNamespaces => as_outcome(nvim_get_namespaces(editor)),
        MarkMethod::BufSetExtmark => as_outcome(nvim_buf_set_extmark(editor, args)),
        MarkMethod::BufDelExtmark => as_outcome(nvim_buf_del_extmark(editor, args)),
        MarkMethod::BufGetExtmarkById => as_outcome(nvim_buf_get_extmark_by_id(editor, args)),
        MarkMethod::BufGetExtmarks => nvim_buf_get_extmarks(editor, args),
        MarkMethod::BufClearNamespace => as_outcome(nvim_buf_clear_namespace(editor, args)),
        MarkMethod::SetHl => as_outcome(nvim_set_hl(editor, args)),
        MarkMethod::GetHl => as_outcome(nvim_get_hl(editor, args)),
        MarkMethod::GetHlIdByName => as_outcome(nvim_get_hl_id_by_name(editor, args)),
    }
}
