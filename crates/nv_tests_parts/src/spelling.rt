//! The spelling of a value.
ghost use Rattle.nv_value.specs.View.{content};
ghost use Rattle.nv_msgpack.specs.Shortest.{HasSpelling};

use nv_msgpack::encode;
use nv_value::Value;
use std::alloc::{AllocError, Global};

pub fn spelled(alloc: Global, value: &Value) -> Result<Vec<u8>, AllocError>
    requires { HasSpelling (content value.now) }
{
    let mut bytes = Vec::new(alloc);
    encode(value, &mut bytes)?;
    Ok(bytes)
}
