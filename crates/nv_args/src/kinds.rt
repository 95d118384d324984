//! What parameters take, and which values are of which kind.
ghost use Rattle.std.specs.Prelude.{◌≡◌, is_some, map};
ghost use Rattle.std.specs.List.{list_all};
ghost use Rattle.nv_value.specs.View.{content, contents};
ghost use Rattle.nv_msgpack.specs.Handle.{integer_of, handle_in};
ghost use Rattle.nv_args.specs.Arguments.{truth_in, string_in, pairs_in};
ghost use Rattle.nv_args.specs.Table.{type_name};
ghost use Rattle.nv_args.specs.Reading.{arg_of, array_in, are_two_integers, are_call_parts, is_call, is_mark_place};
ghost use Rattle.nv_args.specs.Kinds.{kind_of};

use nv_msgpack::handle_of;
use nv_value::Value;

/// What a parameter takes (Neovim help `api-types`). A handle may be its number alone.
#[derive(Clone, Copy)]
pub enum Kind {
    Integer,
    Boolean,
    String,
    Array,
    Dict,
    Object,
    Buffer,
    Window,
    Tabpage,
    /// An Integer, or the handle of a buffer.
    BufferId,
    /// An Integer, or the handle of a window.
    WindowId,
    /// An Integer, or the handle of a tabpage.
    TabpageId,
    /// An Array of Strings.
    Lines,
    /// An Array of two Integers.
    Cursor,
    /// An Array of calls, each a name and its arguments (`nvim_call_atomic()`).
    Calls,
    /// An Integer, or an Array of two (`nvim_buf_get_extmarks()`).
    MarkPlace,
}

impl Kind {
    /// The name of the type, as a client is told.
    pub fn type_name(self) -> &'static str
        ensures { result.now ≡ type_name (kind_of self) }
    {
        match self {
            Kind::Integer | Kind::BufferId | Kind::WindowId | Kind::TabpageId => "Integer",
            Kind::Boolean => "Boolean",
            Kind::String => "String",
            Kind::Array | Kind::Lines | Kind::Cursor | Kind::Calls => "Array",
            Kind::Dict => "Dict",
            Kind::Object | Kind::MarkPlace => "Object",
            Kind::Buffer => "Buffer",
            Kind::Window => "Window",
            Kind::Tabpage => "Tabpage",
        }
    }

    /// Whether a value is of this kind.
    pub fn takes(self, value: &Value) -> bool
        ensures { result ≡ is_some (arg_of (kind_of self) (content value.now)) }
    {
        match self {
            Kind::Integer => is_integer(value),
            Kind::Boolean => is_truth(value),
            Kind::String => is_string(value),
            Kind::Array => is_array(value),
            Kind::Dict => is_dict(value),
            Kind::Object => true,
            Kind::Buffer | Kind::BufferId => handle_number(value, BUFFER).is_some(),
            Kind::Window | Kind::WindowId => handle_number(value, WINDOW).is_some(),
            Kind::Tabpage | Kind::TabpageId => handle_number(value, TABPAGE).is_some(),
            Kind::Lines => is_lines(value),
            Kind::Cursor => is_cursor(value),
            Kind::Calls => is_calls(value),
            Kind::MarkPlace => is_mark_place(value),
        }
    }
}

/// The types of handles as extension values (Neovim help `api-types`).
pub const BUFFER: i8 = 0;

pub const WINDOW: i8 = 1;

pub const TABPAGE: i8 = 2;

/// The number of a handle of this type, which an integer gives as well.
pub fn handle_number(value: &Value, handle_type: i8) -> Option<i64>
    ensures { result ≡ handle_in handle_type (content value.now) }
{
    handle_of(value, handle_type)
}

fn is_integer(value: &Value) -> bool
    ensures { result ≡ is_some (integer_of (content value.now)) }
{
    matches!(value, Value::Int(_))
}

fn is_truth(value: &Value) -> bool
    ensures { result ≡ is_some (truth_in (content value.now)) }
{
    matches!(value, Value::Truth(_) | Value::Int(_))
}

fn is_string(value: &Value) -> bool
    ensures { result ≡ is_some (string_in (content value.now)) }
{
    matches!(value, Value::Text(_) | Value::Bin(_))
}

fn is_array(value: &Value) -> bool
    ensures { result ≡ is_some (array_in (content value.now)) }
{
    matches!(value, Value::List(_))
}

fn is_dict(value: &Value) -> bool
    ensures { result ≡ is_some (pairs_in (content value.now)) }
{
    match value {
        Value::Pairs(_) => true,
        Value::List(items) => items.is_empty(),
        _ => false,
    }
}

// Whether a value is a list of strings.
fn is_lines(value: &Value) -> bool
    ensures { result ≡ is_some (arg_of (kind_of Kind.Lines) (content value.now)) }
{
    match value {
        Value::List(items) => are_strings(items.as_slice()),
        _ => false,
    }
}

/// Whether all values are strings.
pub fn are_strings(items: &[Value]) -> bool
    ensures { result ≡ list_all (λ item. is_some (string_in item)) (map content items.now) }
{
    for item in items {
        if !is_string(item) {
            return false;
        }
    }
    true
}

// Whether a value is a list of two integers.
fn is_cursor(value: &Value) -> bool
    ensures { result ≡ is_some (arg_of (kind_of Kind.Cursor) (content value.now)) }
{
    match value {
        Value::List(items) => are_two_integers(items.as_slice()),
        _ => false,
    }
}

fn are_two_integers(items: &[Value]) -> bool
    ensures { result ≡ are_two_integers (map content items.now) }
{
    match items {
        [first, second] => is_integer(first) && is_integer(second),
        _ => false,
    }
}

// Whether a value is a list of calls.
fn is_calls(value: &Value) -> bool
    ensures { result ≡ is_some (arg_of (kind_of Kind.Calls) (content value.now)) }
{
    match value {
        Value::List(items) => are_calls(items.as_slice()),
        _ => false,
    }
}

fn are_calls(items: &[Value]) -> bool
    ensures { result ≡ list_all is_call (map content items.now) }
{
    for item in items {
        if !is_call(item) {
            return false;
        }
    }
    true
}

fn is_call(value: &Value) -> bool
    ensures { result ≡ is_call (content value.now) }
{
    match value {
        Value::List(parts) => are_call_parts(parts.as_slice()),
        _ => false,
    }
}

fn are_call_parts(parts: &[Value]) -> bool
    ensures { result ≡ are_call_parts (map content parts.now) }
{
    match parts {
        [name, arguments] => is_string(name) && is_array(arguments),
        _ => false,
    }
}

fn is_mark_place(value: &Value) -> bool
    ensures { result ≡ is_mark_place (content value.now) }
{
    match value {
        Value::List(items) => are_two_integers(items.as_slice()),
        _ => is_integer(value),
    }
}
