//! The methods on namespaces, and the namespaces that numbers name.
ghost use Rattle.std.specs.Prelude.{◌≡◌, ◌^◌, ◌<◌, ℕ, List, length, map, IfOk};
ghost use Rattle.nv_value.specs.Content.{text};
ghost use Rattle.nv_value.specs.View.{content, pair_content};
ghost use Rattle.nv_msgpack.specs.Shortest.{HasSpelling};
ghost use Rattle.nv_args.specs.Args.{typed_arguments};
ghost use Rattle.nv_args.specs.Reading.{Arg};
ghost use Rattle.nv_model.specs.Answers.{Fact};
ghost use Rattle.nv_model.specs.Answering.{dict_of, natural};
ghost use Rattle.nv_model.specs.Standing.{seen_now};
ghost use Rattle.nv_editor.specs.Doing.{GivesAnswer, ReadsAnswer};
ghost use Rattle.nv_api_mark.specs.Listing.{meant_namespace};
ghost use Rattle.nv_api_mark.specs.Namespaces.{namespace_of_id, nvim_create_namespace, nvim_get_namespaces};

use crate::values::{natural_value, text_value};
use nv_args::{Args, Fail, limit_reached};
use nv_editor::Editor;
use nv_value::{Pair, Value};
use std::alloc::{AllocError, Global};

/// The namespace that was given a number.
pub fn namespace_of_id(editor: &Editor, number: i64) -> Option<u32>
    ensures { result ≡ namespace_of_id editor.now.stage number }
{
    if number < 1 {
        return None;
    }
    let number = number as usize;
    if number <= editor.namespaces().len() {
        Some(number as u32)
    } else {
        None
    }
}

/// Which namespaces' marks a number means: those of one, or all.
pub fn meant_namespace(editor: &Editor, number: i64) -> Option<Option<u32>>
    ensures { result ≡ meant_namespace editor.now.stage number }
{
    if number == -1 {
        return Some(None);
    }
    match namespace_of_id(editor, number) {
        Some(ns) => Some(Some(ns)),
        None => None,
    }
}

/// `nvim_create_namespace`: the id of a namespace's name, a new one where it isn't known.
pub fn nvim_create_namespace(editor: &mut Editor, args: &Args) -> Result<Value, Fail>
    ensures row { (session : ℕ) (told : List Fact)
        → GivesAnswer (nvim_create_namespace (seen_now editor.old) session
        (typed_arguments args.now)) result editor.old editor.new told told }
    ensures spelled { IfOk result (λ value. HasSpelling (content value)) }
{
    let name = args.string(0);
    if let Some(ns) = editor.namespaces().id_of(name) {
        return Ok(natural_value(ns));
    }
    if editor.namespaces().len() >= editor.limits().namespaces as usize {
        return Err(limit_reached(editor.alloc()));
    }
    let ns = editor.make_namespace(name)?;
    Ok(natural_value(ns))
}

// A name with its id.
fn entry(alloc: Global, name: &[u8], ns: u32) -> Result<Pair, AllocError>
    ensures value { IfOk result (λ pair. pair_content pair ≡ (text name.now, natural ns)) }
    ensures spelled { IfOk result (λ pair. HasSpelling (pair_content pair).0
        × HasSpelling (pair_content pair).1) }
{
    let key = text_value(alloc, name)?;
    let value = natural_value(ns);
    Ok(Pair { key, value })
}

// Names with their ids.
fn entries(alloc: Global, names: &[(&[u8], u32)]) -> Result<Value, AllocError>
    requires { length names.now < 2 ^ 32 }
    ensures value { IfOk result (λ value. content value
        ≡ dict_of (map (λ e. (text e.0.now, natural e.1)) names.now)) }
    ensures spelled { IfOk result (λ value. HasSpelling (content value)) }
{
    let mut fields = Vec::with_capacity(alloc, names.len())?;
    for (name, ns) in names {
        fields.push(entry(alloc, name, *ns)?)?;
    }
    Ok(Value::Pairs(fields))
}

/// `nvim_get_namespaces`: the ids of the namespaces that have a name, by their names.
pub fn nvim_get_namespaces(editor: &Editor) -> Result<Value, Fail>
    ensures row { (session : ℕ) (args : List Arg)
        → ReadsAnswer (nvim_get_namespaces (seen_now editor.now) session args) result }
    ensures spelled { IfOk result (λ value. HasSpelling (content value)) }
{
    let names = editor.namespaces().by_name()?;
    Ok(entries(editor.alloc(), names.as_slice())?)
}
