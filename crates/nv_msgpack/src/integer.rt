//! The spellings of integers.
ghost use Rattle.std.specs.Prelude.{◌≡◌, pos, ◌<ℤ◌, ◌++◌, OnOk, OnErr};
ghost use Rattle.nv_msgpack.specs.Shortest.{integer_spelling};

use crate::heads::{put_eight, put_four, put_two, put_unsigned};
use std::alloc::AllocError;

/// A number below 0.
#[tactic(auto, unfolding(crate::specs::Shortest::negative_spelling))]
fn put_negative(number: i64, into: &mut Vec<u8>) -> Result<(), AllocError>
    requires { number <ℤ pos 0 }
    ensures ok { OnOk result (into.new.items ≡ into.old.items ++ integer_spelling number) }
    ensures err { OnErr result (into.new.items ≡ into.old.items) }
{
    if number >= -0x20 {
        into.extend_from_slice(&[(number as i8).cast_unsigned()])
    } else if number >= -0x80 {
        into.extend_from_slice(&[0xd0, (number as i8).cast_unsigned()])
    } else if number >= -0x8000 {
        put_two(0xd1, (number as i16).cast_unsigned(), into)
    } else if number >= -0x8000_0000 {
        put_four(0xd2, (number as i32).cast_unsigned(), into)
    } else {
        put_eight(0xd3, number.cast_unsigned(), into)
    }
}

/// Any integer.
#[inline(always)]
#[tactic(auto, unfolding(crate::specs::Shortest::unsigned_spelling))]
pub fn put_integer(number: i64, into: &mut Vec<u8>) -> Result<(), AllocError>
    ensures ok { OnOk result (into.new.items ≡ into.old.items ++ integer_spelling number) }
    ensures err { OnErr result (into.new.items ≡ into.old.items) }
{
    if number < 0 {
        put_negative(number, into)
    } else if number < 0x80 {
        into.extend_from_slice(&[number as u8])
    } else {
        put_unsigned(number as u64, into)
    }
}
