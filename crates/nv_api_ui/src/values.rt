//! What calls of UIs answer, as values.
ghost use Rattle.std.specs.Prelude.{◌≡◌, map, IfOk};
ghost use Rattle.nv_value.specs.Content.{text};
ghost use Rattle.nv_value.specs.View.{content, pair_content};
ghost use Rattle.nv_msgpack.specs.Shortest.{HasSpelling};
ghost use Rattle.nv_msgpack.specs.Spelling.{unsigned_number};
ghost use Rattle.nv_model.specs.Answering.{array_of};
ghost use Rattle.nv_api_ui.specs.UiRows.{ui_dict};

use nv_model::Ui;
use nv_value::{Bytes, Pair, Value, spelled_length};
use std::alloc::{AllocError, Global};

/// A number of at least 0.
pub fn unsigned_value(number: u64) -> Value
    ensures value { content result ≡ unsigned_number number }
    ensures spelled { HasSpelling (content result) }
{
    if number <= i64::MAX as u64 {
        Value::Int(number as i64)
    } else {
        Value::Big(number)
    }
}

// A key with its value.
fn pair(alloc: Global, key: &str, value: Value) -> Result<Pair, AllocError>
    ensures { IfOk result (λ pair. pair_content pair ≡ (text key.now, content value)) }
{
    let key = Value::Text(Bytes::from_slice(alloc, key.as_bytes())?);
    Ok(Pair { key, value })
}

// What is told of a UI.
fn ui_value(alloc: Global, ui: Ui) -> Result<Value, AllocError>
    ensures value { IfOk result (λ value. content value ≡ ui_dict ui) }
    ensures spelled { IfOk result (λ value. HasSpelling (content value)) }
{
    let session = unsigned_value(ui.session);
    Ok(Value::Pairs(vec![in alloc;
        pair(alloc, "chan", session)?,
        pair(alloc, "width", Value::Int(i64::from(ui.width)))?,
        pair(alloc, "height", Value::Int(i64::from(ui.height)))?,
        pair(alloc, "rgb", Value::Truth(ui.rgb))?,
    ]?))
}

/// What is told of UIs, in their order.
pub fn ui_list(alloc: Global, uis: &[Ui]) -> Result<Value, AllocError>
    ensures value { IfOk result (λ value. content value ≡ array_of (map ui_dict uis.now)) }
    ensures spelled { IfOk result (λ value. HasSpelling (content value)) }
{
    let _ = spelled_length(uis.len())?;
    let mut items = Vec::with_capacity(alloc, uis.len())?;
    for ui in uis {
        items.push(ui_value(alloc, *ui)?)?;
    }
    Ok(Value::List(items))
}
