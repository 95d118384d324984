//! Numbers in bytes, most significant first. A byte that is missing counts 0.
ghost use Rattle.std.specs.Prelude.{◌≡◌, ◌+◌, ◌<◌, ◌≤◌, ◌^◌, length, drop, slice_index};
ghost use Rattle.nv_msgpack.specs.Spelling.{big_endian, two's_complement, width, number_in};
ghost use Rattle.nv_msgpack.specs.FirstByte.{bytes_of, size_of};

use crate::first_bytes::{Length, Width};

/// The byte at `at`, or 0 where there is none.
fn byte_at(bytes: &[u8], at: usize) -> u8
    ensures { result ≡ slice_index bytes.now at }
{
    if at < bytes.len() { bytes[at] } else { 0 }
}

/// The number of one byte at `at`.
#[tactic(auto, using(crate::proofs::Places::big_endian_one))]
pub fn one_at(bytes: &[u8], at: usize) -> u8
    ensures { result ≡ big_endian 1 (drop at bytes.now) }
{
    byte_at(bytes, at)
}

/// The number of two bytes at `at`.
#[tactic(auto, using(crate::proofs::Places::big_endian_two))]
pub fn two_at(bytes: &[u8], at: usize) -> u16
    requires { at ≤ length bytes.now }
    ensures { result ≡ big_endian 2 (drop at bytes.now) }
{
    u16::from_be_bytes([byte_at(bytes, at), byte_at(bytes, at + 1)])
}

/// The number of four bytes at `at`.
#[tactic(auto, using(crate::proofs::Places::big_endian_four))]
pub fn four_at(bytes: &[u8], at: usize) -> u32
    requires { at ≤ length bytes.now }
    ensures { result ≡ big_endian 4 (drop at bytes.now) }
{
    if bytes.len() - at >= 4 {
        return u32::from_be_bytes([bytes[at], bytes[at + 1], bytes[at + 2], bytes[at + 3]]);
    }
    u32::from_be_bytes([
        byte_at(bytes, at),
        byte_at(bytes, at + 1),
        byte_at(bytes, at + 2),
        byte_at(bytes, at + 3),
    ])
}

/// The number of eight bytes.
#[tactic(auto, using(crate::proofs::Places::eight_bytes))]
fn eight(bytes: &[u8]) -> u64
    requires { length bytes.now ≡ 8 }
    ensures { result ≡ big_endian 8 bytes.now }
{
    u64::from_be_bytes([
        bytes[0], bytes[1], bytes[2], bytes[3], bytes[4], bytes[5], bytes[6], bytes[7],
    ])
}

/// The unsigned number of all the bytes.
pub fn unsigned_of(bytes: &[u8], width: Width) -> u64
    requires { length bytes.now ≡ bytes_of width }
    ensures { result ≡ big_endian (bytes_of width) bytes.now }
{
    match width {
        Width::One => u64::from(one_at(bytes, 0)),
        Width::Two => u64::from(two_at(bytes, 0)),
        Width::Four => u64::from(four_at(bytes, 0)),
        Width::Eight => eight(bytes),
    }
}

/// The number of all the bytes in two's complement.
#[tactic(auto, using(crate::proofs::Places::signed_one, crate::proofs::Places::signed_two, crate::proofs::Places::signed_four, crate::proofs::Places::signed_eight))]
pub fn signed_of(bytes: &[u8], width: Width) -> i64
    requires { length bytes.now ≡ bytes_of width }
    ensures { result ≡ two's_complement (bytes_of width) (big_endian (bytes_of width) bytes.now) }
{
    match width {
        Width::One => i64::from(one_at(bytes, 0).cast_signed()),
        Width::Two => i64::from(two_at(bytes, 0).cast_signed()),
        Width::Four => i64::from(four_at(bytes, 0).cast_signed()),
        Width::Eight => eight(bytes).cast_signed(),
    }
}

impl Length {
    /// How many bytes of length stand behind the first byte.
    pub fn width(self) -> u8
        ensures value { result ≡ width (size_of self) }
        ensures few { result ≤ 4 }
    {
        match self {
            Length::Fixed(_) => 0,
            Length::One => 1,
            Length::Two => 2,
            Length::Four => 4,
        }
    }

    /// The length, told or in the bytes from `at` on.
    pub fn number(self, bytes: &[u8], at: usize) -> u32
        requires { at ≤ length bytes.now }
        ensures { result ≡ number_in (size_of self) (drop at bytes.now) }
    {
        match self {
            Length::Fixed(number) => u32::from(number),
            Length::One => u32::from(one_at(bytes, at)),
            Length::Two => u32::from(two_at(bytes, at)),
            Length::Four => four_at(bytes, at),
        }
    }
}
