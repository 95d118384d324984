//! What the server tells of its API (help: api-metadata, nvim_get_api_info()).
ghost use Rattle.std.specs.Prelude.{◌≡◌, ◌∷◌, ◌++◌, [], bytes_eq, length, map, take, IfOk, OnOk};
ghost use Rattle.nv_value.specs.Content.{text};
ghost use Rattle.nv_value.specs.View.{content, pair_content};
ghost use Rattle.nv_msgpack.specs.Shortest.{HasSpelling};
ghost use Rattle.nv_model.specs.Answering.{array_of, dict_of, key_value, natural, word};
ghost use Rattle.nv_api_buf.specs.Metadata.{version, is_method, parameter, ui_events, metadata, handle_types, error_type, error_types, ui_options, function};
ghost use Rattle.nv_args.specs.Methods.{parameter_of, signature_of};
ghost use Rattle.nv_args.specs.Table.{table};
ghost use Rattle.nv_api_buf.specs.inside.Shapes.{form_of_row, parameter_shaped, event_shaped};

use crate::limits::any_of;
use crate::told::{Told, events};
use nv_args::{Parameter, Signature, told_signatures};
use nv_value::{Bytes, Items, Pair, Value};
use std::alloc::{AllocError, Global};

/// What the server tells of its API: its version, its functions, the events and options of a UI,
/// the types of handles and of errors.
pub fn metadata_value(alloc: Global) -> Result<Value, AllocError>
    ensures value { IfOk result (λ value. content value ≡ metadata) }
    ensures spelled { HasSpelling metadata }
{
    let mut fields = Vec::with_capacity(alloc, 6)?;
    put_pair(alloc, &mut fields, "version", version(alloc)?)?;
    put_pair(alloc, &mut fields, "functions", functions_value(alloc)?)?;
    put_pair(alloc, &mut fields, "ui_events", events_value(alloc)?)?;
    put_pair(alloc, &mut fields, "ui_options", ui_options(alloc)?)?;
    put_pair(alloc, &mut fields, "types", handle_types(alloc)?)?;
    put_pair(alloc, &mut fields, "error_types", error_types(alloc)?)?;
    Ok(Value::Pairs(fields))
}

fn word(alloc: Global, words: &str) -> Result<Value, AllocError>
    ensures { IfOk result (λ value. content value ≡ text words.now) }
{
    Ok(Value::Text(Bytes::from_slice(alloc, words.as_bytes())?))
}

fn pair(alloc: Global, key: &str, value: Value) -> Result<Pair, AllocError>
    ensures { IfOk result (λ pair. pair_content pair ≡ (text key.now, content value)) }
{
    let key = word(alloc, key)?;
    Ok(Pair { key, value })
}

// Puts a pair behind others.
fn put_pair(
    alloc: Global,
    fields: &mut Vec<Pair>,
    key: &str,
    value: Value,
) -> Result<(), AllocError>
    ensures { OnOk result (map pair_content fields.new.items
        ≡ map pair_content fields.old.items ++ (text key.now, content value) ∷ []) }
{
    let pair = pair(alloc, key, value)?;
    fields.push(pair)?;
    Ok(())
}

fn version(alloc: Global) -> Result<Value, AllocError>
    ensures { IfOk result (λ value. content value ≡ version) }
{
    Ok(Value::Pairs(vec![in alloc;
        pair(alloc, "major", Value::Int(0))?,
        pair(alloc, "minor", Value::Int(11))?,
        pair(alloc, "patch", Value::Int(0))?,
        pair(alloc, "api_level", Value::Int(13))?,
        pair(alloc, "api_compatible", Value::Int(0))?,
        pair(alloc, "api_prerelease", Value::Truth(false))?,
    ]?))
}

// A parameter: the words of its type, and its name.
fn parameter(alloc: Global, kind: &str, name: &str) -> Result<Value, AllocError>
    ensures { IfOk result (λ value. content value ≡ parameter_shaped (kind.now, name.now)) }
{
    let kind = word(alloc, kind)?;
    let name = word(alloc, name)?;
    Ok(Value::List(vec![in alloc; kind, name]?))
}

fn parameters(alloc: Global, list: &[(&'static str, &'static str)]) -> Result<Items, AllocError>
    ensures { IfOk result (λ items. map content items.items
        ≡ map (λ p. parameter_shaped (p.0.now, p.1.now)) list.now) }
{
    let mut items = Vec::new(alloc);
    for typed in list {
        items.push(parameter(alloc, typed.0, typed.1)?)?;
    }
    Ok(items)
}

// A parameter of a method.
fn parameter_taken(alloc: Global, taken: &Parameter) -> Result<Value, AllocError>
    ensures { IfOk result (λ value. content value ≡ parameter (parameter_of taken.now)) }
{
    parameter(alloc, taken.0.type_name(), taken.1)
}

fn parameters_taken(alloc: Global, list: &[Parameter]) -> Result<Items, AllocError>
    ensures { IfOk result (λ items. map content items.items
        ≡ map (λ p. parameter (parameter_of p)) list.now) }
{
    let mut items = Vec::new(alloc);
    for taken in list {
        items.push(parameter_taken(alloc, taken)?)?;
    }
    Ok(items)
}

// The parameters of a method.
fn parameters_of(alloc: Global, signature: &Signature) -> Result<Value, AllocError>
    ensures { IfOk result (λ value. content value
        ≡ array_of (map parameter (signature_of signature.now).parameters)) }
{
    let items = parameters_taken(alloc, signature.parameters)?;
    Ok(Value::List(items))
}

fn parameters_value(alloc: Global, told: &Told) -> Result<Value, AllocError>
    ensures { IfOk result (λ value. content value
        ≡ array_of (map parameter_shaped (form_of_row told.now).parameters)) }
{
    let items = parameters(alloc, told.parameters)?;
    Ok(Value::List(items))
}

fn begins_with(name: &str, front: &str) -> bool
    ensures { result ≡ bytes_eq (take (length front.now) name.now) front.now }
{
    name.as_bytes().starts_with(front.as_bytes())
}

// Whether a method is one of a buffer, a window or a tabpage, by its name.
fn is_method(name: &str) -> bool
    ensures { result ≡ is_method name.now }
{
    any_of(
        begins_with(name, "nvim_buf_"),
        begins_with(name, "nvim_win_"),
        begins_with(name, "nvim_tabpage_"),
    )
}

fn function(alloc: Global, signature: &Signature) -> Result<Value, AllocError>
    ensures { IfOk result (λ value. content value ≡ function (signature_of signature.now)) }
{
    let mut fields = Vec::with_capacity(alloc, 5)?;
    put_pair(alloc, &mut fields, "name", word(alloc, signature.name)?)?;
    put_pair(alloc, &mut fields, "since", Value::Int(1))?;
    put_pair(
        alloc,
        &mut fields,
        "method",
        Value::Truth(is_method(signature.name)),
    )?;
    put_pair(
        alloc,
        &mut fields,
        "parameters",
        parameters_of(alloc, signature)?,
    )?;
    put_pair(
        alloc,
        &mut fields,
        "return_type",
        word(alloc, signature.result_name())?,
    )?;
    Ok(Value::Pairs(fields))
}

fn event(alloc: Global, told: &Told) -> Result<Value, AllocError>
    ensures { IfOk result (λ value. content value ≡ event_shaped (form_of_row told.now)) }
{
    let mut fields = Vec::with_capacity(alloc, 3)?;
    put_pair(alloc, &mut fields, "name", word(alloc, told.name)?)?;
    put_pair(alloc, &mut fields, "since", Value::Int(1))?;
    put_pair(
        alloc,
        &mut fields,
        "parameters",
        parameters_value(alloc, told)?,
    )?;
    Ok(Value::Pairs(fields))
}

// The functions of a table.
fn functions_of(alloc: Global, table: &[Signature]) -> Result<Items, AllocError>
    ensures { IfOk result (λ items. map content items.items
        ≡ map (λ s. function (signature_of s)) table.now) }
{
    let mut items = Vec::new(alloc);
    for signature in table {
        items.push(function(alloc, signature)?)?;
    }
    Ok(items)
}

fn functions_value(alloc: Global) -> Result<Value, AllocError>
    ensures { IfOk result (λ value. content value ≡ array_of (map function table)) }
{
    let items = functions_of(alloc, told_signatures())?;
    Ok(Value::List(items))
}

fn events_value(alloc: Global) -> Result<Value, AllocError>
    ensures { IfOk result (λ value. content value ≡ array_of ui_events) }
{
    let items = events_shaped(alloc, events())?;
    Ok(Value::List(items))
}

fn events_shaped(alloc: Global, table: &[Told]) -> Result<Items, AllocError>
    ensures { IfOk result (λ items. map content items.items
        ≡ map (λ t. event_shaped (form_of_row t)) table.now) }
{
    let mut items = Vec::new(alloc);
    for told in table {
        items.push(event(alloc, told)?)?;
    }
    Ok(items)
}

fn ui_options(alloc: Global) -> Result<Value, AllocError>
    ensures { IfOk result (λ value. content value ≡ ui_options) }
{
    let mut items = Vec::with_capacity(alloc, 2)?;
    items.push(word(alloc, "rgb")?)?;
    items.push(word(alloc, "ext_linegrid")?)?;
    Ok(Value::List(items))
}

fn handle_type(alloc: Global, number: u8, prefix: &str) -> Result<Value, AllocError>
    ensures { IfOk result (λ value. content value
        ≡ dict_of (key_value "id" (natural number) ∷ (word "prefix", text prefix.now) ∷ [])) }
{
    let mut fields = Vec::with_capacity(alloc, 2)?;
    put_pair(alloc, &mut fields, "id", Value::Int(number as i64))?;
    put_pair(alloc, &mut fields, "prefix", word(alloc, prefix)?)?;
    Ok(Value::Pairs(fields))
}

fn handle_types(alloc: Global) -> Result<Value, AllocError>
    ensures { IfOk result (λ value. content value ≡ handle_types) }
{
    let mut fields = Vec::with_capacity(alloc, 3)?;
    put_pair(
        alloc,
        &mut fields,
        "Buffer",
        handle_type(alloc, 0, "nvim_buf_")?,
    )?;
    put_pair(
        alloc,
        &mut fields,
        "Window",
        handle_type(alloc, 1, "nvim_win_")?,
    )?;
    put_pair(
        alloc,
        &mut fields,
        "Tabpage",
        handle_type(alloc, 2, "nvim_tabpage_")?,
    )?;
    Ok(Value::Pairs(fields))
}

fn error_type(alloc: Global, number: u8) -> Result<Value, AllocError>
    ensures { IfOk result (λ value. content value ≡ error_type number) }
{
    Ok(Value::Pairs(vec![in alloc; pair(alloc, "id", Value::Int(number as i64))?]?))
}

fn error_types(alloc: Global) -> Result<Value, AllocError>
    ensures { IfOk result (λ value. content value ≡ error_types) }
{
    let mut fields = Vec::with_capacity(alloc, 2)?;
    put_pair(alloc, &mut fields, "Exception", error_type(alloc, 0)?)?;
    put_pair(alloc, &mut fields, "Validation", error_type(alloc, 1)?)?;
    Ok(Value::Pairs(fields))
}
