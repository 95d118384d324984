//! The number of a handle.
ghost use Rattle.std.specs.Prelude.{◌≡◌, ℤ, IfSome};
ghost use Rattle.std.specs.Option.{IfNone};
ghost use Rattle.nv_value.specs.View.{content};
ghost use Rattle.nv_msgpack.specs.Spelling.{unsigned_number};
ghost use Rattle.nv_msgpack.specs.Handle.{IsHandle, handle_in, integer_in, integer_of};
ghost use Rattle.nv_msgpack.specs.inside.Integers.{integer_by};
ghost use Rattle.nv_msgpack.specs.FirstByte.{form_seen};

use crate::first_bytes::{FirstByte, first_byte};
use crate::numbers::{signed_of, unsigned_of};
use nv_value::Value;

/// The integer that a first byte and the bytes behind it spell, if it is an `i64`.
fn integer_by(first: FirstByte, rest: &[u8]) -> Option<i64>
    ensures { result ≡ integer_by (form_seen first) rest.now }
{
    match first {
        FirstByte::Small(number) => {
            if rest.is_empty() {
                Some(i64::from(number))
            } else {
                None
            }
        }
        FirstByte::Unsigned(width) => {
            if rest.len() == width.bytes() as usize {
                small(unsigned_of(rest, width))
            } else {
                None
            }
        }
        FirstByte::Signed(width) => {
            if rest.len() == width.bytes() as usize {
                Some(signed_of(rest, width))
            } else {
                None
            }
        }
        _ => None,
    }
}

/// The integer that all the bytes spell, if it is an `i64`.
fn whole_integer(bytes: &[u8]) -> Option<i64>
    ensures { result ≡ integer_in bytes.now }
{
    if bytes.is_empty() {
        return None;
    }
    integer_by(first_byte(bytes[0]), &bytes[1..])
}

/// The number as an `i64`, if it is one.
fn small(number: u64) -> Option<i64>
    ensures { result ≡ integer_of (unsigned_number number) }
{
    if number <= i64::MAX as u64 {
        Some(number as i64)
    } else {
        None
    }
}

/// What handle_of answers.
fn number_of(value: &Value, kind: i8) -> Option<i64>
    ensures { result ≡ handle_in kind (content value.now) }
{
    match value {
        Value::Int(number) => Some(*number),
        Value::Ext(of, data) => if *of == kind {
            whole_integer(data.as_slice())
        } else {
            None
        },
        Value::Nil => None,
        Value::Truth(_) => None,
        Value::Big(_) => None,
        Value::Text(_) => None,
        Value::Bin(_) => None,
        Value::List(_) => None,
        Value::Pairs(_) => None,
        Value::Opaque(_) => None,
    }
}

/// The number of the handle of this kind that the value stands for (Neovim help `api-types`): that
/// of an integer, or of an ext value of this kind whose data is one whole integer. It takes no
/// memory.
pub fn handle_of(value: &Value, kind: i8) -> Option<i64>
    ensures some { IfSome result (IsHandle kind (content value.now)) }
    ensures none { IfNone result ((n : ℤ) → IsHandle kind (content value.now) n → ⊥) }
{
    number_of(value, kind)
}
