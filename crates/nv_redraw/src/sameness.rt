//! Whether two values are the same.
ghost use Rattle.std.specs.Prelude.{◌≡◌, ◌&&◌};
ghost use Rattle.nv_value.specs.Content.{nil, truth, integer, big, text, bin, ext, opaque};
ghost use Rattle.nv_value.specs.View.{content, contents, pair_contents};
ghost use Rattle.nv_redraw.specs.inside.SameTrees.{same_tree, same_trees};

use nv_value::{Fields, Items, Pair, Value};

fn is_truth(flag: bool, value: &Value) -> bool
    ensures { result ≡ same_tree (truth flag) (content value.now) }
{
    match value {
        Value::Truth(other) => flag == *other,
        _ => false,
    }
}

fn is_integer(number: i64, value: &Value) -> bool
    ensures { result ≡ same_tree (integer number) (content value.now) }
{
    match value {
        Value::Int(other) => number == *other,
        _ => false,
    }
}

fn is_big(number: u64, value: &Value) -> bool
    ensures { result ≡ same_tree (big number) (content value.now) }
{
    match value {
        Value::Big(other) => number == *other,
        _ => false,
    }
}

fn is_text(bytes: &[u8], value: &Value) -> bool
    ensures { result ≡ same_tree (text bytes.now) (content value.now) }
{
    match value {
        Value::Text(other) => bytes == other.as_slice(),
        _ => false,
    }
}

fn is_bin(bytes: &[u8], value: &Value) -> bool
    ensures { result ≡ same_tree (bin bytes.now) (content value.now) }
{
    match value {
        Value::Bin(other) => bytes == other.as_slice(),
        _ => false,
    }
}

fn is_ext(kind: i8, bytes: &[u8], value: &Value) -> bool
    ensures { result ≡ same_tree (ext kind bytes.now) (content value.now) }
{
    match value {
        Value::Ext(other, data) => kind == *other && bytes == data.as_slice(),
        _ => false,
    }
}

fn is_float(bytes: &[u8], value: &Value) -> bool
    ensures { result ≡ same_tree (opaque bytes.now) (content value.now) }
{
    match value {
        Value::Opaque(other) => bytes == other.as_slice(),
        _ => false,
    }
}

fn is_nil(value: &Value) -> bool
    ensures { result ≡ same_tree nil (content value.now) }
{
    matches!(value, Value::Nil)
}

/// Whether two values are the same.
#[cycle(same)]
pub fn same_value(a: &Value, b: &Value) -> bool
    ensures { result ≡ same_tree (content a.now) (content b.now) }
{
    match a {
        Value::Nil => is_nil(b),
        Value::Truth(truth) => is_truth(*truth, b),
        Value::Int(number) => is_integer(*number, b),
        Value::Big(number) => is_big(*number, b),
        Value::Text(bytes) => is_text(bytes.as_slice(), b),
        Value::Bin(bytes) => is_bin(bytes.as_slice(), b),
        Value::List(items) => match b {
            Value::List(others) => same_items(items, others),
            _ => false,
        },
        Value::Pairs(fields) => match b {
            Value::Pairs(others) => same_fields(fields, others),
            _ => false,
        },
        Value::Ext(kind, data) => is_ext(*kind, data.as_slice(), b),
        Value::Opaque(bytes) => is_float(bytes.as_slice(), b),
    }
}

#[cycle(same)]
fn same_items(items: &Items, others: &Items) -> bool
    ensures { result ≡ same_trees (contents items.now.items) (contents others.now.items) }
{
    if items.len() != others.len() {
        return false;
    }
    let mut at = 0;
    for item in items {
        if !same_value(item, &others[at]) {
            return false;
        }
        at += 1;
    }
    true
}

#[cycle(same)]
fn same_fields(fields: &Fields, others: &Fields) -> bool
    ensures { result ≡ same_trees (pair_contents fields.now.items)
        (pair_contents others.now.items) }
{
    if fields.len() != others.len() {
        return false;
    }
    let mut at = 0;
    for pair in fields {
        if !same_pair(pair, &others[at]) {
            return false;
        }
        at += 1;
    }
    true
}

#[cycle(same)]
fn same_pair(pair: &Pair, other: &Pair) -> bool
    ensures { result ≡ (same_tree (content pair.now.key) (content other.now.key)
        && same_tree (content pair.now.value) (content other.now.value)) }
{
    same_value(&pair.key, &other.key) && same_value(&pair.value, &other.value)
}
