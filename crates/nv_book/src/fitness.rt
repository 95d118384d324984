//! Which values can be written in a book.
ghost use Rattle.std.specs.Prelude.{◌≡◌, ◌==◌, ◌||◌, length};
ghost use Rattle.nv_value.specs.Content.{list, pairs};
ghost use Rattle.nv_value.specs.View.{content, contents, pair_contents};
ghost use Rattle.nv_book.specs.inside.Fitness.{are_tellable, is_tellable};

use nv_value::{Bytes, Fields, Items, Value};

// Whether these are as many bytes as a float has.
fn is_float(bytes: &Bytes) -> bool
    ensures { result ≡ ((length bytes.now == 4) || (length bytes.now == 8)) }
{
    bytes.len() == 4 || bytes.len() == 8
}

/// Whether a value can be told, with at most so many lists and maps one in another.
#[cycle(tellable)]
pub fn is_tellable(value: &Value, depth: u32) -> bool
    ensures { result ≡ is_tellable depth (content value.now) }
{
    match value {
        Value::Nil | Value::Truth(_) | Value::Int(_) => true,
        Value::Big(number) => *number >= 1 << 63,
        Value::Text(bytes) | Value::Bin(bytes) | Value::Ext(_, bytes) => {
            bytes.len() <= u32::MAX as usize
        }
        Value::Opaque(bytes) => is_float(bytes),
        Value::List(items) => is_tellable_list(items, depth),
        Value::Pairs(fields) => is_tellable_map(fields, depth),
    }
}

// Whether a list of values can be told.
#[cycle(tellable)]
fn is_tellable_list(items: &Items, depth: u32) -> bool
    ensures { result ≡ is_tellable depth (list (contents items.now.items)) }
{
    if depth == 0 {
        return false;
    }
    if items.len() > u32::MAX as usize {
        return false;
    }
    are_tellable(items, depth - 1)
}

// Whether a map can be told.
#[cycle(tellable)]
fn is_tellable_map(fields: &Fields, depth: u32) -> bool
    ensures { result ≡ is_tellable depth (pairs (pair_contents fields.now.items)) }
{
    if depth == 0 {
        return false;
    }
    if fields.len() > u32::MAX as usize {
        return false;
    }
    have_tellable(fields, depth - 1)
}

// Whether values can be told.
#[cycle(tellable)]
fn are_tellable(items: &Items, depth: u32) -> bool
    ensures { result ≡ are_tellable depth (contents items.now.items) }
{
    for item in items {
        if !is_tellable(item, depth) {
            return false;
        }
    }
    true
}

// Whether the keys and values of a map can be told.
#[cycle(tellable)]
fn have_tellable(fields: &Fields, depth: u32) -> bool
    ensures { result ≡ are_tellable depth (pair_contents fields.now.items) }
{
    for pair in fields {
        if !is_tellable(&pair.key, depth) || !is_tellable(&pair.value, depth) {
            return false;
        }
    }
    true
}
