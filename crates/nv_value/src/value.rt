//! The values of MessagePack.
ghost use Rattle.std.specs.Prelude.{◌≡◌, IfOk, map};
ghost use Rattle.nv_value.specs.View.{content, contents, pair_contents};

use crate::bytes::Bytes;
use std::alloc::{AllocError, Global};

/// Values in order.
pub type Items = Vec<Value>;

/// Keys and their values in order.
pub type Fields = Vec<Pair>;

/// A key of a map, and its value.
#[cycle(value)]
#[derive(Drop)]
pub struct Pair {
    pub key: Value,
    pub value: Value,
}

/// A value of MessagePack (MessagePack specification, "Type system").
#[cycle(value)]
#[derive(Drop)]
pub enum Value {
    Nil,
    Truth(bool),
    /// An integer from the least to the greatest `i64`.
    Int(i64),
    /// An integer above the greatest `i64`.
    Big(u64),
    /// A string. Its bytes need not be UTF-8.
    Text(Bytes),
    Bin(Bytes),
    List(Items),
    /// The pairs of a map, in order, with its repeats.
    Pairs(Fields),
    /// The type of an extension value, and its data.
    Ext(i8, Bytes),
    /// A float: its 4 or 8 bytes, as they are spelled.
    Opaque(Bytes),
}

impl Value {
    /// The same value: its strings are shared, its lists and maps are made anew.
    #[cycle(copy)]
    pub fn copy(&self, alloc: Global) -> Result<Value, AllocError>
        ensures { IfOk result (λ v. content v ≡ content self.now) }
    {
        match self {
            Value::Nil => Ok(Value::Nil),
            Value::Truth(truth) => Ok(Value::Truth(*truth)),
            Value::Int(number) => Ok(Value::Int(*number)),
            Value::Big(number) => Ok(Value::Big(*number)),
            Value::Text(bytes) => Ok(Value::Text(bytes.share()?)),
            Value::Bin(bytes) => Ok(Value::Bin(bytes.share()?)),
            Value::List(items) => Ok(Value::List(copy_items(alloc, items)?)),
            Value::Pairs(fields) => Ok(Value::Pairs(copy_fields(alloc, fields)?)),
            Value::Ext(kind, data) => Ok(Value::Ext(*kind, data.share()?)),
            Value::Opaque(bytes) => Ok(Value::Opaque(bytes.share()?)),
        }
    }
}

#[cycle(copy)]
fn copy_items(alloc: Global, items: &Items) -> Result<Items, AllocError>
    ensures { IfOk result (λ copies. contents copies.items ≡ contents items.now.items) }
{
    let mut copies = Vec::with_capacity(alloc, items.len())?;
    for item in items {
        copies.push(item.copy(alloc)?)?;
    }
    Ok(copies)
}

#[cycle(copy)]
fn copy_fields(alloc: Global, fields: &Fields) -> Result<Fields, AllocError>
    ensures { IfOk result (λ copies. pair_contents copies.items ≡ pair_contents fields.now.items) }
{
    let mut copies = Vec::with_capacity(alloc, fields.len())?;
    for pair in fields {
        let key = pair.key.copy(alloc)?;
        let value = pair.value.copy(alloc)?;
        copies.push(Pair { key, value })?;
    }
    Ok(copies)
}
