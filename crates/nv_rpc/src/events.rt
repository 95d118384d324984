//! The bytes that tell lines of a buffer, with no tree of values.
ghost use Rattle.std.specs.Prelude.{◌≡◌, ◌++◌, map, OnOk};
ghost use Rattle.nv_value.specs.Content.{text, trees_of};
ghost use Rattle.nv_msgpack.specs.Shortest.{shortest};
ghost use Rattle.nv_rpc.specs.Messages.{IsSendable, buffer_handle, lines_event, message_tree};
ghost use Rattle.nv_rpc.specs.inside.Fronts.{lines_front};

use crate::message::BUFFER;
use crate::outcome::put_lines;
use nv_lines::Excerpt;
use nv_msgpack::{encode, handle, put_integer};
use std::alloc::{AllocError, Global};

// The handle of a buffer.
fn put_handle(alloc: Global, buffer: i64, into: &mut Vec<u8>) -> Result<(), AllocError>
    ensures { OnOk result (into.new.items ≡ into.old.items ++ shortest (buffer_handle buffer)) }
{
    let value = handle(alloc, BUFFER, buffer)?;
    encode(&value, into)
}

// `[2, name, [buffer, tick, first, last, lines, false]]` up to its lines.
fn put_lines_front(
    alloc: Global,
    buffer: i64,
    tick: i64,
    first: i64,
    last: i64,
    into: &mut Vec<u8>,
) -> Result<(), AllocError>
    ensures { OnOk result (into.new.items
        ≡ into.old.items ++ lines_front buffer tick first last) }
{
    into.extend_from_slice(b"\x93\x02\xb4nvim_buf_lines_event\x96")?;
    put_handle(alloc, buffer, into)?;
    put_integer(tick, into)?;
    put_integer(first, into)?;
    put_integer(last, into)?;
    Ok(())
}

/// Adds the shortest spelling of an event at the end of `into`: these lines of a buffer stand in
/// place of those from `first` to before `last`, both counted from 0 (Neovim help
/// `nvim_buf_lines_event`). The lines are written from where they stand.
pub fn put_lines_event(
    alloc: Global,
    buffer: i64,
    tick: i64,
    first: i64,
    last: i64,
    lines: &Excerpt,
    into: &mut Vec<u8>,
) -> Result<(), AllocError>
    requires { IsSendable (lines_event buffer tick first last (trees_of (map text lines.now))) }
    ensures { OnOk result (into.new.items ≡ into.old.items ++ shortest (message_tree
        (lines_event buffer tick first last (trees_of (map text lines.now))))) }
{
    put_lines_front(alloc, buffer, tick, first, last, into)?;
    put_lines(lines, into)?;
    into.extend_from_slice(&[0xc2])?;
    Ok(())
}
