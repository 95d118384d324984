//! The first bytes of spellings: a first byte and the length or the number behind it, each written
//! at once.
ghost use Rattle.std.specs.Prelude.{◌≡◌, ◌+◌, ◌<◌, ◌^◌, [], ◌∷◌, ◌++◌, OnOk, OnErr};
ghost use Rattle.std.specs.Int.{w16, w32, w64, to_be_bytes};
ghost use Rattle.nv_msgpack.specs.Shortest.{unsigned_spelling, integer_spelling, text_head, bin_head, ext_head, list_head, map_head};

use std::alloc::AllocError;

/// A first byte, and a number of two bytes.
pub fn put_two(first: u8, number: u16, into: &mut Vec<u8>) -> Result<(), AllocError>
    ensures ok { OnOk result (into.new.items ≡ into.old.items ++ first ∷ to_be_bytes w16 number) }
    ensures err { OnErr result (into.new.items ≡ into.old.items) }
{
    let [a, b] = number.to_be_bytes();
    into.extend_from_slice(&[first, a, b])
}

/// A first byte, and a number of four bytes.
pub fn put_four(first: u8, number: u32, into: &mut Vec<u8>) -> Result<(), AllocError>
    ensures ok { OnOk result (into.new.items ≡ into.old.items ++ first ∷ to_be_bytes w32 number) }
    ensures err { OnErr result (into.new.items ≡ into.old.items) }
{
    let [a, b, c, d] = number.to_be_bytes();
    into.extend_from_slice(&[first, a, b, c, d])
}

/// A first byte, and a number of eight bytes.
pub fn put_eight(first: u8, number: u64, into: &mut Vec<u8>) -> Result<(), AllocError>
    ensures ok { OnOk result (into.new.items ≡ into.old.items ++ first ∷ to_be_bytes w64 number) }
    ensures err { OnErr result (into.new.items ≡ into.old.items) }
{
    let [a, b, c, d, e, f, g, h] = number.to_be_bytes();
    into.extend_from_slice(&[first, a, b, c, d, e, f, g, h])
}

/// A number of at least 0.
#[tactic(auto, unfolding(crate::specs::Shortest::unsigned_spelling))]
pub fn put_unsigned(number: u64, into: &mut Vec<u8>) -> Result<(), AllocError>
    ensures ok { OnOk result (into.new.items ≡ into.old.items ++ unsigned_spelling number) }
    ensures err { OnErr result (into.new.items ≡ into.old.items) }
{
    if number < 0x80 {
        into.extend_from_slice(&[number as u8])
    } else if number < 0x100 {
        into.extend_from_slice(&[0xcc, number as u8])
    } else if number < 0x1_0000 {
        put_two(0xcd, number as u16, into)
    } else if number < 0x1_0000_0000 {
        put_four(0xce, number as u32, into)
    } else {
        put_eight(0xcf, number, into)
    }
}

/// What goes before the bytes of a string.
#[tactic(auto, unfolding(crate::specs::Shortest::text_head))]
pub fn put_text_head(length: u32, into: &mut Vec<u8>) -> Result<(), AllocError>
    ensures ok { OnOk result (into.new.items ≡ into.old.items ++ text_head length) }
    ensures err { OnErr result (into.new.items ≡ into.old.items) }
{
    if length < 0x20 {
        into.extend_from_slice(&[0xa0 + length as u8])
    } else if length < 0x100 {
        into.extend_from_slice(&[0xd9, length as u8])
    } else if length < 0x1_0000 {
        put_two(0xda, length as u16, into)
    } else {
        put_four(0xdb, length, into)
    }
}

/// What goes before binary bytes.
#[tactic(auto, unfolding(crate::specs::Shortest::bin_head))]
pub fn put_bin_head(length: u32, into: &mut Vec<u8>) -> Result<(), AllocError>
    ensures ok { OnOk result (into.new.items ≡ into.old.items ++ bin_head length) }
    ensures err { OnErr result (into.new.items ≡ into.old.items) }
{
    if length < 0x100 {
        into.extend_from_slice(&[0xc4, length as u8])
    } else if length < 0x1_0000 {
        put_two(0xc5, length as u16, into)
    } else {
        put_four(0xc6, length, into)
    }
}

/// What goes before the type of an extension value, by the length of its data.
#[tactic(auto, unfolding(crate::specs::Shortest::ext_head))]
pub fn put_ext_head(length: u32, into: &mut Vec<u8>) -> Result<(), AllocError>
    ensures ok { OnOk result (into.new.items ≡ into.old.items ++ ext_head length) }
    ensures err { OnErr result (into.new.items ≡ into.old.items) }
{
    match length {
        1 => into.extend_from_slice(&[0xd4]),
        2 => into.extend_from_slice(&[0xd5]),
        4 => into.extend_from_slice(&[0xd6]),
        8 => into.extend_from_slice(&[0xd7]),
        16 => into.extend_from_slice(&[0xd8]),
        0..0x100 => into.extend_from_slice(&[0xc7, length as u8]),
        0x100..0x1_0000 => put_two(0xc8, length as u16, into),
        _ => put_four(0xc9, length, into),
    }
}

/// What goes before the values of an array, by their number.
#[tactic(auto, unfolding(crate::specs::Shortest::list_head))]
pub fn put_list_head(count: u32, into: &mut Vec<u8>) -> Result<(), AllocError>
    ensures ok { OnOk result (into.new.items ≡ into.old.items ++ list_head count) }
    ensures err { OnErr result (into.new.items ≡ into.old.items) }
{
    if count < 0x10 {
        into.extend_from_slice(&[0x90 + count as u8])
    } else if count < 0x1_0000 {
        put_two(0xdc, count as u16, into)
    } else {
        put_four(0xdd, count, into)
    }
}

/// What goes before the keys and values of a map, by the number of its pairs.
#[tactic(auto, unfolding(crate::specs::Shortest::map_head))]
pub fn put_map_head(count: u32, into: &mut Vec<u8>) -> Result<(), AllocError>
    ensures ok { OnOk result (into.new.items ≡ into.old.items ++ map_head count) }
    ensures err { OnErr result (into.new.items ≡ into.old.items) }
{
    if count < 0x10 {
        into.extend_from_slice(&[0x80 + count as u8])
    } else if count < 0x1_0000 {
        put_two(0xde, count as u16, into)
    } else {
        put_four(0xdf, count, into)
    }
}
