//! What calls on marks and groups answer, as values.
ghost use Rattle.std.specs.Prelude.{◌≡◌, ◌^◌, ◌<◌, ◌++◌, ◌∷◌, List, map, length, IfOk, OnOk};
ghost use Rattle.nv_value.specs.Content.{Tree, text, truth};
ghost use Rattle.nv_value.specs.View.{content, pair_content};
ghost use Rattle.nv_msgpack.specs.Shortest.{HasSpelling};
ghost use Rattle.nv_model.specs.Answering.{natural};

use nv_value::{Bytes, Fields, Pair, Value};
use std::alloc::{AllocError, Global};

/// A number of at least 0.
pub fn natural_value(number: u32) -> Value
    ensures value { content result ≡ natural number }
    ensures spelled { HasSpelling (content result) }
{
    Value::Int(i64::from(number))
}

/// A string.
pub fn text_value(alloc: Global, bytes: &[u8]) -> Result<Value, AllocError>
    ensures value { IfOk result (λ value. content value ≡ text bytes.now) }
    ensures spelled { IfOk result (λ value. HasSpelling (content value)) }
    ensures short { OnOk result (length bytes.now < 2 ^ 32) }
{
    Ok(Value::Text(Bytes::from_slice(alloc, bytes)?))
}

// A key with its value.
fn pair(alloc: Global, key: &str, value: Value) -> Result<Pair, AllocError>
    ensures { IfOk result (λ pair. pair_content pair ≡ (text key.now, content value)) }
{
    let key = Value::Text(Bytes::from_slice(alloc, key.as_bytes())?);
    Ok(Pair { key, value })
}

/// Puts a key with its value behind the others.
pub fn put(alloc: Global, fields: &mut Fields, key: &str, value: Value) -> Result<(), AllocError>
    ensures { OnOk result ((rest : List (Tree × Tree))
        → map pair_content fields.new.items ++ rest
        ≡ map pair_content fields.old.items ++ (text key.now, content value) ∷ rest) }
{
    let entry = pair(alloc, key, value)?;
    fields.push(entry)?;
    Ok(())
}

/// Puts a key with a number behind the others.
pub fn put_natural(
    alloc: Global,
    fields: &mut Fields,
    key: &str,
    number: u32,
) -> Result<(), AllocError>
    ensures { OnOk result ((rest : List (Tree × Tree))
        → map pair_content fields.new.items ++ rest
        ≡ map pair_content fields.old.items ++ (text key.now, natural number) ∷ rest) }
{
    let value = natural_value(number);
    put(alloc, fields, key, value)
}

/// Puts a key with a Boolean behind the others.
pub fn put_truth(
    alloc: Global,
    fields: &mut Fields,
    key: &str,
    is_set: bool,
) -> Result<(), AllocError>
    ensures { OnOk result ((rest : List (Tree × Tree))
        → map pair_content fields.new.items ++ rest
        ≡ map pair_content fields.old.items ++ (text key.now, truth is_set) ∷ rest) }
{
    let value = Value::Truth(is_set);
    put(alloc, fields, key, value)
}

/// Puts a key with a string behind the others.
pub fn put_text(
    alloc: Global,
    fields: &mut Fields,
    key: &str,
    bytes: &[u8],
) -> Result<(), AllocError>
    ensures told { OnOk result ((rest : List (Tree × Tree))
        → map pair_content fields.new.items ++ rest
        ≡ map pair_content fields.old.items ++ (text key.now, text bytes.now) ∷ rest) }
    ensures short { OnOk result (length bytes.now < 2 ^ 32) }
{
    let value = text_value(alloc, bytes)?;
    put(alloc, fields, key, value)
}
