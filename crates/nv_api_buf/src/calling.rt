//! The methods by the table of their names.
ghost use Rattle.std.specs.Prelude.{IfOk};
ghost use Rattle.nv_msgpack.specs.Shortest.{HasSpelling};
ghost use Rattle.nv_rpc.specs.Outcomes.{outcome_content};
ghost use Rattle.nv_args.specs.Args.{typed_arguments};
ghost use Rattle.nv_model.specs.Standing.{seen_now};
ghost use Rattle.nv_editor.specs.Doing.{GivesResult};
ghost use Rattle.nv_api_buf.specs.Rows.{buffer_row};

use crate::buffers::{
    nvim_buf_delete, nvim_buf_get_name, nvim_buf_is_valid, nvim_buf_set_name, nvim_create_buf,
    nvim_get_current_buf, nvim_list_bufs, nvim_set_current_buf,
};
use crate::commands::nvim_command;
use crate::counts::{nvim_buf_get_changedtick, nvim_buf_get_offset, nvim_buf_line_count};
use crate::following::{nvim_buf_attach, nvim_buf_detach};
use crate::information::{nvim_get_api_info, nvim_set_client_info};
use crate::lines::{as_lines, nvim_buf_get_lines, nvim_buf_set_lines};
use crate::options::{nvim_get_option_value, nvim_set_option_value};
use crate::text::{nvim_buf_get_text, nvim_buf_set_text};
use nv_args::{Args, BufferMethod, Fail};
use nv_editor::{Editor, Happened, as_outcome};
use nv_rpc::Outcome;

/// Calls a method on buffers, options, commands or the API itself for a session.
pub fn call(
    method: BufferMethod,
    editor: &mut Editor,
    session: u64,
    args: &Args,
    happened: &mut Happened,
) -> Result<Outcome, Fail>
    ensures row { GivesResult (buffer_row method (seen_now editor.old) session
        (typed_arguments args.now)) result editor.old editor.new happened.old happened.new }
    ensures spelled { IfOk result (λ outcome. HasSpelling (outcome_content outcome)) }
{
    match method {
        BufferMethod::GetApiInfo => as_outcome(nvim_get_api_info(editor, session, args)),
        BufferMethod::SetClientInfo => as_outcome(nvim_set_client_info(editor, args)),
        BufferMethod::Command => as_outcome(nvim_command(editor, args, happened)),
        BufferMethod::GetOptionValue => as_outcome(nvim_get_option_value(editor, args)),
        BufferMethod::SetOptionValue => as_outcome(nvim_set_option_value(editor, args, happened)),
        BufferMethod::ListBufs => as_outcome(nvim_list_bufs(editor, args)),
        BufferMethod::GetCurrentBuf => as_outcome(nvim_get_current_buf(editor, args)),
        BufferMethod::SetCurrentBuf => as_outcome(nvim_set_current_buf(editor, args, happened)),
        BufferMethod::CreateBuf => as_outcome(nvim_create_buf(editor, args, happened)),
        BufferMethod::BufDelete => as_outcome(nvim_buf_delete(editor, args, happened)),
        BufferMethod::BufIsValid => as_outcome(nvim_buf_is_valid(editor, args)),
        BufferMethod::BufGetName => as_outcome(nvim_buf_get_name(editor, args)),
        BufferMethod::BufSetName => as_outcome(nvim_buf_set_name(editor, args, happened)),
        BufferMethod::BufLineCount => as_outcome(nvim_buf_line_count(editor, args)),
        BufferMethod::BufGetChangedtick => as_outcome(nvim_buf_get_changedtick(editor, args)),
        BufferMethod::BufGetOffset => as_outcome(nvim_buf_get_offset(editor, args)),
        BufferMethod::BufGetLines => as_lines(nvim_buf_get_lines(editor, args)),
        BufferMethod::BufSetLines => as_outcome(nvim_buf_set_lines(editor, args, happened)),
        BufferMethod::BufGetText => as_lines(nvim_buf_get_text(editor, args)),
        BufferMethod::BufSetText => as_outcome(nvim_buf_set_text(editor, args, happened)),
        BufferMethod::BufAttach => as_outcome(nvim_buf_attach(editor, args, happened)),
        BufferMethod::BufDetach => as_outcome(nvim_buf_detach(editor, args, happened)),
    }
}
