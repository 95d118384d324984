//! What goes before the bytes of a string and the values of an array, by any number of them.
ghost use Rattle.std.specs.Prelude.{◌≡◌, ◌<◌, ◌++◌, OnOk, OnErr};
ghost use Rattle.nv_msgpack.specs.Shortest.{text_head, list_head};

use nv_value::spelled_length;
use std::alloc::AllocError;

/// What goes before the bytes of a string. `AllocError` also where they are 2^32 or more.
pub fn put_text_head(length: usize, into: &mut Vec<u8>) -> Result<(), AllocError>
    ensures ok { OnOk result (into.new.items ≡ into.old.items ++ text_head length) }
    ensures err { OnErr result (into.new.items ≡ into.old.items) }
    ensures few { OnOk result (length < 0x100000000) }
{
    let few = spelled_length(length)?;
    nv_msgpack::put_text_head(few, into)
}

/// What goes before the values of an array, by their number. `AllocError` also where they are 2^32
/// or more.
pub fn put_list_head(count: usize, into: &mut Vec<u8>) -> Result<(), AllocError>
    ensures ok { OnOk result (into.new.items ≡ into.old.items ++ list_head count) }
    ensures err { OnErr result (into.new.items ≡ into.old.items) }
    ensures few { OnOk result (count < 0x100000000) }
{
    let few = spelled_length(count)?;
    nv_msgpack::put_list_head(few, into)
}
