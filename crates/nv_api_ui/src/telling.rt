//! The methods that tell of UIs and of texts.
ghost use Rattle.std.specs.Prelude.{ℕ, List, IfOk};
ghost use Rattle.nv_value.specs.View.{content};
ghost use Rattle.nv_msgpack.specs.Shortest.{HasSpelling};
ghost use Rattle.nv_args.specs.Args.{typed_arguments};
ghost use Rattle.nv_args.specs.Reading.{Arg};
ghost use Rattle.nv_model.specs.Seen.{Seen};
ghost use Rattle.nv_model.specs.Standing.{seen_now};
ghost use Rattle.nv_editor.specs.Doing.{ReadsAnswer};
ghost use Rattle.nv_api_ui.specs.UiRows.{nvim_list_uis, nvim_strwidth};

use crate::values::{ui_list, unsigned_value};
use nv_args::{Args, Fail};
use nv_editor::Editor;
use nv_text::strwidth;
use nv_value::Value;

/// `nvim_list_uis`: the UIs by rising sessions, each with the size that it asked for.
pub fn nvim_list_uis(editor: &Editor) -> Result<Value, Fail>
    ensures row { (session : ℕ) (args : List Arg)
        → ReadsAnswer (nvim_list_uis (seen_now editor.now) session args) result }
    ensures spelled { IfOk result (λ value. HasSpelling (content value)) }
{
    Ok(ui_list(editor.alloc(), editor.uis())?)
}

/// `nvim_strwidth`: the cells that a text takes on a line by itself.
pub fn nvim_strwidth(args: &Args) -> Result<Value, Fail>
    ensures row { (s : Seen) (session : ℕ)
        → ReadsAnswer (nvim_strwidth s session (typed_arguments args.now)) result }
    ensures spelled { IfOk result (λ value. HasSpelling (content value)) }
{
    Ok(unsigned_value(strwidth(args.string(0))))
}
