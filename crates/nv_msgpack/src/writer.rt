//! The shortest spelling of a value, written at the end of a vector.
ghost use Rattle.std.specs.Prelude.{◌≡◌, ◌++◌, ◌<◌, ◌^◌, ◌∷◌, [], length, OnOk, OnErr, IfOk};
ghost use Rattle.std.specs.Int.{w8, cast_unsigned};
ghost use Rattle.nv_value.specs.Content.{integer, ext};
ghost use Rattle.nv_value.specs.View.{content, contents, pair_content, pair_contents};
ghost use Rattle.nv_msgpack.specs.Spelling.{SpellsIn};
ghost use Rattle.nv_msgpack.specs.Shortest.{shortest, all_shortest, depth, text_head, bin_head, ext_head, float_head, HasSpelling, HaveSpellings, IsInRange, AreInRange, BeginsAs};

use crate::heads::{
    put_bin_head, put_ext_head, put_list_head, put_map_head, put_text_head, put_unsigned,
};
use crate::integer::put_integer;
use nv_value::{Bytes, Pair, Value};
use std::alloc::{AllocError, Global};

/// Adds the shortest spelling of the value at the end of `into` (MessagePack specification,
/// "Formats"). An integer of at least 0 is spelled in an unsigned form. After an error `into` is as
/// it was.
pub fn encode(value: &Value, into: &mut Vec<u8>) -> Result<(), AllocError>
    requires { HasSpelling (content value.now) }
    ensures ok { OnOk result (into.new.items ≡ into.old.items ++ shortest (content value.now)) }
    ensures err { OnErr result (into.new.items ≡ into.old.items) }
    ensures spelled { OnOk result
        (SpellsIn (depth (content value.now)) (content value.now) (shortest (content value.now))) }
{
    let length = into.len();
    match put_value(value, into) {
        Ok(()) => Ok(()),
        Err(error) => {
            into.truncate(length);
            Err(error)
        }
    }
}

/// A string.
fn put_text(text: &[u8], into: &mut Vec<u8>) -> Result<(), AllocError>
    requires { length text.now < 2 ^ 32 }
    ensures ok { OnOk result (into.new.items ≡ into.old.items
        ++ (text_head (length text.now) ++ text.now)) }
    ensures err { OnErr result (BeginsAs into.old.items into.new.items) }
{
    put_text_head(text.len() as u32, into)?;
    into.extend_from_slice(text)
}

/// Binary bytes.
fn put_bin(bin: &[u8], into: &mut Vec<u8>) -> Result<(), AllocError>
    requires { length bin.now < 2 ^ 32 }
    ensures ok { OnOk result (into.new.items ≡ into.old.items
        ++ (bin_head (length bin.now) ++ bin.now)) }
    ensures err { OnErr result (BeginsAs into.old.items into.new.items) }
{
    put_bin_head(bin.len() as u32, into)?;
    into.extend_from_slice(bin)
}

/// An extension value.
fn put_ext(kind: i8, bytes: &[u8], into: &mut Vec<u8>) -> Result<(), AllocError>
    requires { length bytes.now < 2 ^ 32 }
    ensures ok { OnOk result (into.new.items ≡ into.old.items
        ++ (ext_head (length bytes.now) ++ cast_unsigned w8 kind ∷ bytes.now)) }
    ensures err { OnErr result (BeginsAs into.old.items into.new.items) }
{
    put_ext_head(bytes.len() as u32, into)?;
    into.extend_from_slice(&[kind.cast_unsigned()])?;
    into.extend_from_slice(bytes)
}

/// A float.
#[tactic(auto, unfolding(crate::specs::Shortest::float_head))]
fn put_float(bytes: &[u8], into: &mut Vec<u8>) -> Result<(), AllocError>
    ensures ok { OnOk result (into.new.items ≡ into.old.items
        ++ (float_head (length bytes.now) ++ bytes.now)) }
    ensures err { OnErr result (BeginsAs into.old.items into.new.items) }
{
    if bytes.len() == 4 {
        into.extend_from_slice(&[0xca])?;
    } else {
        into.extend_from_slice(&[0xcb])?;
    }
    into.extend_from_slice(bytes)
}

/// Nil, false or true.
fn put_one(first: u8, into: &mut Vec<u8>) -> Result<(), AllocError>
    ensures ok { OnOk result (into.new.items ≡ into.old.items ++ first ∷ []) }
    ensures err { OnErr result (into.new.items ≡ into.old.items) }
{
    into.extend_from_slice(&[first])
}

#[cycle(encode)]
fn put_value(value: &Value, into: &mut Vec<u8>) -> Result<(), AllocError>
    requires { HasSpelling (content value.now) }
    ensures ok { OnOk result (into.new.items ≡ into.old.items ++ shortest (content value.now)) }
    ensures err { OnErr result (BeginsAs into.old.items into.new.items) }
    ensures in_range { OnOk result (IsInRange (content value.now)) }
{
    match value {
        Value::Nil => put_one(0xc0, into),
        Value::Truth(false) => put_one(0xc2, into),
        Value::Truth(true) => put_one(0xc3, into),
        Value::Int(number) => put_integer(*number, into),
        Value::Big(number) => put_unsigned(*number, into),
        Value::Text(text) => put_text(text.as_slice(), into),
        Value::Bin(bin) => put_bin(bin.as_slice(), into),
        Value::List(items) => {
            put_list_head(items.len() as u32, into)?;
            put_items(items, into)
        }
        Value::Pairs(fields) => {
            put_map_head(fields.len() as u32, into)?;
            put_fields(fields, into)
        }
        Value::Ext(kind, data) => put_ext(*kind, data.as_slice(), into),
        Value::Opaque(bytes) => put_float(bytes.as_slice(), into),
    }
}

#[cycle(encode)]
fn put_items(items: &Vec<Value>, into: &mut Vec<u8>) -> Result<(), AllocError>
    requires { HaveSpellings (contents items.now.items) }
    ensures ok { OnOk result (into.new.items ≡ into.old.items
        ++ all_shortest (contents items.now.items)) }
    ensures err { OnErr result (BeginsAs into.old.items into.new.items) }
    ensures in_range { OnOk result (AreInRange (contents items.now.items)) }
{
    for item in items {
        put_item(item, into)?;
    }
    Ok(())
}

/// A value of a list. Most are integers.
#[cycle(encode)]
fn put_item(item: &Value, into: &mut Vec<u8>) -> Result<(), AllocError>
    requires { HasSpelling (content item.now) }
    ensures ok { OnOk result (into.new.items ≡ into.old.items ++ shortest (content item.now)) }
    ensures err { OnErr result (BeginsAs into.old.items into.new.items) }
    ensures in_range { OnOk result (IsInRange (content item.now)) }
{
    match item {
        Value::Int(number) => put_integer(*number, into),
        _ => put_value(item, into),
    }
}

#[cycle(encode)]
fn put_fields(fields: &Vec<Pair>, into: &mut Vec<u8>) -> Result<(), AllocError>
    requires { HaveSpellings (pair_contents fields.now.items) }
    ensures ok { OnOk result (into.new.items ≡ into.old.items
        ++ all_shortest (pair_contents fields.now.items)) }
    ensures err { OnErr result (BeginsAs into.old.items into.new.items) }
    ensures in_range { OnOk result (AreInRange (pair_contents fields.now.items)) }
{
    for pair in fields {
        put_pair(pair, into)?;
    }
    Ok(())
}

#[cycle(encode)]
fn put_pair(pair: &Pair, into: &mut Vec<u8>) -> Result<(), AllocError>
    requires key { HasSpelling (content pair.now.key) }
    requires value { HasSpelling (content pair.now.value) }
    ensures ok { OnOk result (into.new.items ≡ into.old.items
        ++ (shortest (content pair.now.key) ++ shortest (content pair.now.value))) }
    ensures err { OnErr result (BeginsAs into.old.items into.new.items) }
    ensures key_in_range { OnOk result (IsInRange (content pair.now.key)) }
    ensures value_in_range { OnOk result (IsInRange (content pair.now.value)) }
{
    put_value(&pair.key, into)?;
    put_value(&pair.value, into)
}
