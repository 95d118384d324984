//! What a Dict gives by its keys, of pairs with one key the last.
ghost use Rattle.std.specs.Prelude.{◌≡◌, pos, map, option_map, option_and_then};
ghost use Rattle.nv_value.specs.View.{pair_content};
ghost use Rattle.nv_msgpack.specs.Handle.{handle_in, integer_of};
ghost use Rattle.nv_args.specs.Arguments.{string_in, last_pairs};
ghost use Rattle.nv_args.specs.Dicts.{flag_or, integer_or, colour_at, terminal_colour_at};
ghost use Rattle.nv_args.specs.KeyValues.{integer_between, integer_from};
ghost use Rattle.nv_args.specs.Maps.{value_of};

use crate::dicts::value_of;
use crate::kinds::{BUFFER, TABPAGE, WINDOW, handle_number};
use crate::reading::{self, colour_of, integer_of, name_in, truth_of};
use nv_value::Pair;

/// A Boolean, and another where it isn't there.
pub fn flag_or(pairs: &[Pair], name: &str, other: bool) -> bool
    ensures { result ≡ flag_or other name.now (last_pairs (map pair_content pairs.now)) }
{
    match value_of(pairs, name) {
        Some(value) => truth_of(value).unwrap_or(other),
        None => other,
    }
}

/// An Integer, and another where it isn't there.
pub fn integer_or(pairs: &[Pair], name: &str, other: i64) -> i64
    ensures { result ≡ integer_or other name.now (last_pairs (map pair_content pairs.now)) }
{
    match value_of(pairs, name) {
        Some(value) => integer_of(value).unwrap_or(other),
        None => other,
    }
}

/// An Integer, where it is there.
pub fn integer_at(pairs: &[Pair], name: &str) -> Option<i64>
    ensures { result ≡ option_and_then integer_of
        (value_of name.now (last_pairs (map pair_content pairs.now))) }
{
    match value_of(pairs, name) {
        Some(value) => integer_of(value),
        None => None,
    }
}

/// An Integer from a least to a greatest one, where it is there.
pub fn integer_between(pairs: &[Pair], name: &str, low: u32, high: u32) -> Option<u32>
    ensures { result ≡ option_and_then (integer_between low high)
        (value_of name.now (last_pairs (map pair_content pairs.now))) }
{
    match value_of(pairs, name) {
        Some(value) => reading::integer_between(value, low, high),
        None => None,
    }
}

/// An Integer from a least one on, where it is there.
pub fn integer_from(pairs: &[Pair], name: &str, low: u32) -> Option<u64>
    ensures { result ≡ option_and_then (integer_from low)
        (value_of name.now (last_pairs (map pair_content pairs.now))) }
{
    match value_of(pairs, name) {
        Some(value) => reading::integer_from(value, low),
        None => None,
    }
}

/// The bytes of a String, lent, where it is there.
pub fn bytes_at<'a>(pairs: &'a [Pair], name: &str) -> Option<&'a [u8]>
    ensures { option_map (λ bytes. bytes.now) result ≡ option_and_then string_in
        (value_of name.now (last_pairs (map pair_content pairs.now))) }
{
    match value_of(pairs, name) {
        Some(value) => name_in(value),
        None => None,
    }
}

/// The number of a buffer's handle, where it is there.
pub fn buffer_at(pairs: &[Pair], name: &str) -> Option<i64>
    ensures { result ≡ option_and_then (handle_in (pos 0))
        (value_of name.now (last_pairs (map pair_content pairs.now))) }
{
    match value_of(pairs, name) {
        Some(value) => handle_number(value, BUFFER),
        None => None,
    }
}

/// The number of a window's handle, where it is there.
pub fn window_at(pairs: &[Pair], name: &str) -> Option<i64>
    ensures { result ≡ option_and_then (handle_in (pos 1))
        (value_of name.now (last_pairs (map pair_content pairs.now))) }
{
    match value_of(pairs, name) {
        Some(value) => handle_number(value, WINDOW),
        None => None,
    }
}

/// The number of a tabpage's handle, where it is there.
pub fn tabpage_at(pairs: &[Pair], name: &str) -> Option<i64>
    ensures { result ≡ option_and_then (handle_in (pos 2))
        (value_of name.now (last_pairs (map pair_content pairs.now))) }
{
    match value_of(pairs, name) {
        Some(value) => handle_number(value, TABPAGE),
        None => None,
    }
}

/// A colour, where it is there and isn't `NONE`.
pub fn colour_at(pairs: &[Pair], name: &str) -> Option<u32>
    ensures { result ≡ colour_at name.now (last_pairs (map pair_content pairs.now)) }
{
    match value_of(pairs, name) {
        Some(value) => colour_of(value).unwrap_or(None),
        None => None,
    }
}

/// A terminal's colour, 0 to 255, where it is there.
pub fn terminal_colour_at(pairs: &[Pair], name: &str) -> Option<u32>
    ensures { result ≡ terminal_colour_at name.now (last_pairs (map pair_content pairs.now)) }
{
    integer_between(pairs, name, 0, 255)
}
