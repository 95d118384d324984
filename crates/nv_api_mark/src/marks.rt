//! The methods on single marks (help: api-extended-marks).
ghost use Rattle.std.specs.Prelude.{◌≡◌, ℕ, ℤ, ◌∷◌, [], codes, map, All, true, OnOk, IfOk, IfSome, Option, List};
ghost use Rattle.nv_value.specs.View.{content, pair_content};
ghost use Rattle.nv_msgpack.specs.Shortest.{HasSpelling};
ghost use Rattle.nv_args.specs.Args.{typed_arguments};
ghost use Rattle.nv_args.specs.Arguments.{last_pairs};
ghost use Rattle.nv_args.specs.Dicts.{flag_key};
ghost use Rattle.nv_args.specs.Rules.{key_of};
ghost use Rattle.nv_marks.specs.declared.extmark.Mark.{Mark};
ghost use Rattle.nv_model.specs.Answers.{Answer, Fact};
ghost use Rattle.nv_model.specs.Standing.{seen_now, seen_buffer_now};
ghost use Rattle.nv_editor.specs.Doing.{GivesAnswer, ReadsAnswer};
ghost use Rattle.nv_editor.specs.Sound.{IsOfGroups};
ghost use Rattle.nv_api_mark.specs.MarkRows.{nvim_buf_del_extmark, nvim_buf_get_extmark_by_id, nvim_buf_set_extmark};
ghost use Rattle.nv_api_mark.specs.inside.Steps.{Decides};
ghost use Rattle.nv_api_mark.specs.inside.Telling.{by_id_answer, numbered_answer};

use crate::details::{Live, place_value};
use crate::naming::namespace_of_id;
use crate::painting::put_draft;
use crate::places::mark_numbered;
use crate::setting::draft_given;
use nv_args::{Args, Fail, Rule, flag_or, map_fault, no_buffer, out_of_bounds};
use nv_buffer::{Buffer, Mark};
use nv_editor::Editor;
use nv_value::Value;

// The mark that the second and the third argument name.
fn mark_given(editor: &Editor, buffer: &Buffer, args: &Args) -> Result<Option<Mark>, Fail>
    ensures row { (next : Option Mark → Answer) → Decides
        (numbered_answer (seen_now editor.now) (seen_buffer_now buffer.now)
        (typed_arguments args.now) next) next result }
    ensures painted { All (IsOfGroups editor.now.stage.groups) buffer.now.marks.marks
        → IfOk result (λ found. IfSome found (IsOfGroups editor.now.stage.groups)) }
{
    match namespace_of_id(editor, args.number(1)) {
        Some(ns) => Ok(mark_numbered(buffer, ns, args.number(2))),
        None => Err(out_of_bounds(editor.alloc())),
    }
}

// The key that asks for the details.
fn detail_rules() -> [Rule; 1]
    ensures { map key_of result ≡ flag_key (codes "details") ∷ [] }
{
    [Rule::flag("details")]
}

// The place of one mark of a buffer.
fn place_told(editor: &Editor, live: Live, buffer: &Buffer, args: &Args) -> Result<Value, Fail>
    requires painted { All (IsOfGroups editor.now.stage.groups) buffer.now.marks.marks }
    ensures row { ReadsAnswer (by_id_answer (seen_now editor.now) live.handle
        (seen_buffer_now buffer.now) (typed_arguments args.now)) result }
    ensures spelled { IfOk result (λ value. HasSpelling (content value)) }
{
    let pairs = args.pairs(3);
    map_fault(editor.alloc(), &detail_rules(), pairs)?;
    let found = mark_given(editor, buffer, args)?;
    let details = flag_or(pairs, "details", false);
    Ok(place_value(editor, live, details, found)?)
}

/// `nvim_buf_get_extmark_by_id`: row and column of a mark, and its details where they are wanted;
/// an empty Array where it isn't there.
pub fn nvim_buf_get_extmark_by_id(editor: &Editor, args: &Args) -> Result<Value, Fail>
    ensures row { (session : ℕ)
        → ReadsAnswer (nvim_buf_get_extmark_by_id (seen_now editor.now) session
        (typed_arguments args.now)) result }
    ensures spelled { IfOk result (λ value. HasSpelling (content value)) }
{
    editor.known();
    let given = args.number(0);
    let handle = editor.named_buffer(given);
    match editor.buffer(handle) {
        Some(buffer) => place_told(editor, Live { handle }, buffer, args),
        None => Err(no_buffer(editor.alloc(), given)),
    }
}

/// `nvim_buf_del_extmark`: a mark is removed; whether it was there.
pub fn nvim_buf_del_extmark(editor: &mut Editor, args: &Args) -> Result<Value, Fail>
    ensures row { (session : ℕ) (told : List Fact)
        → GivesAnswer (nvim_buf_del_extmark (seen_now editor.old) session
        (typed_arguments args.now)) result editor.old editor.new told told }
    ensures spelled { IfOk result (λ value. HasSpelling (content value)) }
{
    let given = args.number(0);
    let handle = editor.named_buffer(given);
    let Some(buffer) = editor.buffer(handle) else {
        return Err(no_buffer(editor.alloc(), given));
    };
    let Some(mark) = mark_given(editor, buffer, args)? else {
        return Ok(Value::Truth(false));
    };
    let _ = editor.remove_mark(handle, mark.ns, mark.id);
    Ok(Value::Truth(true))
}

/// `nvim_buf_set_extmark`: a mark is set, anew as a whole where its id is there; its id.
pub fn nvim_buf_set_extmark(editor: &mut Editor, args: &Args) -> Result<Value, Fail>
    ensures row { (session : ℕ) (told : List Fact)
        → GivesAnswer (nvim_buf_set_extmark (seen_now editor.old) session
        (typed_arguments args.now)) result editor.old editor.new told told }
    ensures spelled { IfOk result (λ value. HasSpelling (content value)) }
{
    let given = args.number(0);
    let handle = editor.named_buffer(given);
    let Some(buffer) = editor.buffer(handle) else {
        return Err(no_buffer(editor.alloc(), given));
    };
    let pairs = args.pairs(4);
    let draft = draft_given(editor, buffer, args, pairs)?;
    put_draft(editor, handle, draft, pairs)
}
