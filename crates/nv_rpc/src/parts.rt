//! The parts of calls and messages: what a value is, and what it holds.
ghost use Rattle.std.specs.Prelude.{◌≡◌, ◌↔◌, IsTrue, Some, is_some, IsSome};
ghost use Rattle.nv_value.specs.Content.{nil};
ghost use Rattle.nv_value.specs.View.{content, contents};
ghost use Rattle.nv_msgpack.specs.Handle.{integer_of};
ghost use Rattle.nv_rpc.specs.Calls.{is_number, msgid_in, name_in, params_in};
ghost use Rattle.nv_rpc.specs.Received.{is_false, kind_in, text_in};
ghost use Rattle.nv_rpc.specs.inside.Outlines.{item_at, argument_at};

use nv_value::{Bytes, Items, Value};

pub fn is_number(value: &Value, number: i64) -> bool
    ensures { result ≡ is_number number (content value.now) }
{
    match value {
        Value::Int(n) => *n == number,
        _ => false,
    }
}

pub fn msgid_of(value: &Value) -> Option<u32>
    ensures { result ≡ msgid_in (content value.now) }
{
    match value {
        Value::Int(n) => u32::try_from(*n).ok(),
        _ => None,
    }
}

pub fn is_name(value: &Value) -> bool
    ensures { result ≡ is_some (name_in (content value.now)) }
{
    matches!(value, Value::Text(_) | Value::Bin(_))
}

pub fn is_list(value: &Value) -> bool
    ensures { result ≡ is_some (params_in (content value.now)) }
{
    matches!(value, Value::List(_))
}

pub fn name_of(name: Value) -> Bytes
    requires { IsSome (name_in (content name)) }
    ensures { name_in (content name) ≡ Some result }
{
    match name {
        Value::Text(bytes) | Value::Bin(bytes) => bytes,
        _ => unreachable!(),
    }
}

pub fn params_of(params: Value) -> Items
    requires { IsSome (params_in (content params)) }
    ensures { params_in (content params) ≡ Some (contents result.items) }
{
    match params {
        Value::List(items) => items,
        _ => unreachable!(),
    }
}

pub fn integer_of(value: &Value) -> Option<i64>
    ensures { result ≡ integer_of (content value.now) }
{
    match value {
        Value::Int(n) => Some(*n),
        _ => None,
    }
}

pub fn kind_of(value: &Value) -> Option<u8>
    ensures { result ≡ kind_in (content value.now) }
{
    match value {
        Value::Int(n) => u8::try_from(*n).ok(),
        _ => None,
    }
}

pub fn is_nil(value: &Value) -> bool
    ensures { IsTrue result ↔ (content value.now ≡ nil) }
{
    matches!(value, Value::Nil)
}

pub fn is_false(value: &Value) -> bool
    ensures { result ≡ is_false (content value.now) }
{
    matches!(value, Value::Truth(false))
}

pub fn is_text(value: &Value) -> bool
    ensures { result ≡ is_some (text_in (content value.now)) }
{
    matches!(value, Value::Text(_))
}

pub fn words_of(words: Value) -> Bytes
    requires { IsSome (text_in (content words)) }
    ensures { text_in (content words) ≡ Some result }
{
    match words {
        Value::Text(bytes) => bytes,
        _ => unreachable!(),
    }
}

// The item of a list at a place, counted from 0.
pub fn item_of(value: Value, place: usize) -> Value
    requires { IsSome (item_at (content value) place) }
    ensures { item_at (content value) place ≡ Some (content result) }
{
    match value {
        Value::List(mut items) => items.swap_remove(place),
        _ => unreachable!(),
    }
}

// The item at a place, counted from 0, of the third item of a list.
pub fn argument_of(value: Value, place: usize) -> Value
    requires { IsSome (argument_at (content value) place) }
    ensures { argument_at (content value) place ≡ Some (content result) }
{
    let arguments = item_of(value, 2);
    item_of(arguments, place)
}
