//! The request of a client.
ghost use Rattle.std.specs.Prelude.{◌≡◌, IfOk};
ghost use Rattle.nv_mirror.specs.Asking.{request_bytes};

use nv_msgpack::put_integer;
use std::alloc::{AllocError, Global};

/// The bytes of the request that attaches to a buffer and asks for its lines: its msgid is 1.
#[tactic(auto, unfolding(nv_msgpack::specs::Shortest::list_head, nv_msgpack::specs::Shortest::map_head, nv_msgpack::specs::Shortest::text_head, nv_msgpack::specs::Shortest::unsigned_spelling,))]
pub fn request_bytes(alloc: Global, buffer: i64) -> Result<Vec<u8>, AllocError>
    ensures { IfOk result (λ bytes. bytes.items ≡ request_bytes buffer) }
{
    let mut bytes = Vec::with_capacity(alloc, 32)?;
    bytes.extend_from_slice(&[0x94, 0x00, 0x01, 0xaf])?;
    bytes.extend_from_slice(b"nvim_buf_attach")?;
    bytes.extend_from_slice(&[0x93])?;
    put_integer(buffer, &mut bytes)?;
    bytes.extend_from_slice(&[0xc3, 0x80])?;
    Ok(bytes)
}
