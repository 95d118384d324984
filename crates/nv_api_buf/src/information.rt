//! The methods that tell of the API and of a client.
ghost use Rattle.std.specs.Prelude.{◌≡◌, ◌∷◌, [], ℕ, IfOk};
ghost use Rattle.nv_value.specs.View.{content};
ghost use Rattle.nv_msgpack.specs.Shortest.{HasSpelling};
ghost use Rattle.nv_msgpack.specs.Spelling.{unsigned_number};
ghost use Rattle.nv_args.specs.Args.{typed_arguments};
ghost use Rattle.nv_model.specs.Answering.{array_of};
ghost use Rattle.nv_model.specs.Standing.{seen_now};
ghost use Rattle.nv_editor.specs.Doing.{ReadsAnswer};
ghost use Rattle.nv_api_buf.specs.Metadata.{metadata, nvim_get_api_info, nvim_set_client_info};

use crate::counts::unsigned_value;
use crate::metadata::metadata_value;
use nv_args::{Args, Fail};
use nv_editor::Editor;
use nv_value::Value;
use std::alloc::{AllocError, Global};

// The session's number and the metadata.
fn information(alloc: Global, session: u64) -> Result<Value, AllocError>
    ensures value { IfOk result (λ value. content value
        ≡ array_of (unsigned_number session ∷ metadata ∷ [])) }
    ensures spelled { IfOk result (λ value. HasSpelling (content value)) }
{
    let told = metadata_value(alloc)?;
    Ok(Value::List(vec![in alloc; unsigned_value(session), told]?))
}

/// `nvim_get_api_info`: the session's number and the metadata.
pub fn nvim_get_api_info(editor: &Editor, session: u64, args: &Args) -> Result<Value, Fail>
    ensures row { ReadsAnswer (nvim_get_api_info (seen_now editor.now) session
        (typed_arguments args.now)) result }
    ensures spelled { IfOk result (λ value. HasSpelling (content value)) }
{
    let _ = args;
    let value = information(editor.alloc(), session)?;
    Ok(value)
}

/// `nvim_set_client_info`: nothing is kept.
pub fn nvim_set_client_info(editor: &Editor, args: &Args) -> Result<Value, Fail>
    ensures row { (session : ℕ) → ReadsAnswer (nvim_set_client_info (seen_now editor.now) session
        (typed_arguments args.now)) result }
    ensures spelled { IfOk result (λ value. HasSpelling (content value)) }
{
    let _ = editor.alloc();
    let _ = args;
    Ok(Value::Nil)
}
