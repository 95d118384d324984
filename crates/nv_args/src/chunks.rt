//! The parts of a virtual text, as values.
ghost use Rattle.std.specs.Prelude.{◌≡◌, map, option_map, is_some};
ghost use Rattle.std.specs.List.{list_all};
ghost use Rattle.nv_value.specs.View.{content};
ghost use Rattle.nv_args.specs.Arguments.{string_in};
ghost use Rattle.nv_args.specs.Chunks.{chunk_alone, chunk_among, chunk_in, chunk_of_group, is_text_place, takes_chunks, takes_text_place};
ghost use Rattle.nv_args.specs.inside.Parts.{names_group_of, part_lent};

use crate::dicts::is_group_name;
use crate::reading::name_in;
use nv_value::Value;

/// A part of a virtual text: its bytes, and the name of its highlight group, if it has one.
#[derive(Clone, Copy)]
pub struct GivenChunk<'a> {
    pub text: &'a [u8],
    pub group: Option<&'a [u8]>,
}

fn chunk_alone(text: &Value) -> Option<GivenChunk<'_>>
    ensures { option_map part_lent result ≡ chunk_alone (string_in (content text.now)) }
{
    match name_in(text) {
        Some(text) => Some(GivenChunk { text, group: None }),
        None => None,
    }
}

fn chunk_of_group<'a>(text: &'a Value, group: &'a Value) -> Option<GivenChunk<'a>>
    ensures { option_map part_lent result ≡ chunk_of_group (string_in (content text.now))
        (string_in (content group.now)) }
{
    let Some(text) = name_in(text) else {
        return None;
    };
    match name_in(group) {
        Some(name) => Some(GivenChunk {
            text,
            group: Some(name),
        }),
        None => None,
    }
}

fn chunk_among(items: &[Value]) -> Option<GivenChunk<'_>>
    ensures { option_map part_lent result ≡ chunk_among (map content items.now) }
{
    match items {
        [text] => chunk_alone(text),
        [text, group] => chunk_of_group(text, group),
        _ => None,
    }
}

/// A part of a virtual text, where a value is one: an Array of a String, or of two.
pub fn chunk_in(value: &Value) -> Option<GivenChunk<'_>>
    ensures { option_map part_lent result ≡ chunk_in (content value.now) }
{
    match value {
        Value::List(items) => chunk_among(items.as_slice()),
        _ => None,
    }
}

fn is_chunk(value: &Value) -> bool
    ensures { result ≡ is_some (chunk_in (content value.now)) }
{
    chunk_in(value).is_some()
}

// Whether all values are parts.
fn all_are_chunks(items: &[Value]) -> bool
    ensures { result ≡ list_all (λ t. is_some (chunk_in t)) (map content items.now) }
{
    for item in items {
        if !is_chunk(item) {
            return false;
        }
    }
    true
}

/// Whether a value is an Array of parts.
pub fn are_chunks(value: &Value) -> bool
    ensures { result ≡ takes_chunks (content value.now) }
{
    match value {
        Value::List(items) => all_are_chunks(items.as_slice()),
        _ => false,
    }
}

// Whether a value is no part with a group, or names one by a name that a group may have.
fn names_group_of(value: &Value) -> bool
    ensures { result ≡ names_group_of (content value.now) }
{
    let Some(chunk) = chunk_in(value) else {
        return true;
    };
    match chunk.group {
        Some(name) => is_group_name(name),
        None => true,
    }
}

/// Whether the parts among values name groups by names that these may have.
pub fn all_name_groups(items: &[Value]) -> bool
    ensures { result ≡ list_all names_group_of (map content items.now) }
{
    for item in items {
        if !names_group_of(item) {
            return false;
        }
    }
    true
}

fn is_place_word(word: &[u8]) -> bool
    ensures { result ≡ is_text_place word.now }
{
    word == b"eol".as_slice() || word == b"overlay".as_slice() || word == b"right_align".as_slice()
}

/// Whether a value says where a virtual text is.
pub fn is_text_place(value: &Value) -> bool
    ensures { result ≡ takes_text_place (content value.now) }
{
    match name_in(value) {
        Some(word) => is_place_word(word),
        None => false,
    }
}
