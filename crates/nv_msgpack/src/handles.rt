//! Handles of Neovim's API as extension values.
ghost use Rattle.std.specs.Prelude.{◌≡◌, IfOk};
ghost use Rattle.nv_value.specs.Content.{integer, ext};
ghost use Rattle.nv_value.specs.View.{content};
ghost use Rattle.nv_msgpack.specs.Spelling.{Spells};
ghost use Rattle.nv_msgpack.specs.Shortest.{shortest, HasSpelling};

use crate::integer::put_integer;
use nv_value::{Bytes, Value};
use std::alloc::{AllocError, Global};

/// The handle with the number `number` (Neovim help `api-types`): an extension value whose data is
/// the number's shortest spelling. The kinds are 0 for Buffer, 1 for Window and 2 for Tabpage.
pub fn handle(alloc: Global, kind: i8, number: i64) -> Result<Value, AllocError>
    ensures value { IfOk result (λ v. content v ≡ ext kind (shortest (integer number))) }
    ensures spelled { Spells (integer number) (shortest (integer number)) }
    ensures has_spelling { IfOk result (λ v. HasSpelling (content v)) }
{
    let mut data = Vec::new(alloc);
    put_integer(number, &mut data)?;
    let data = Bytes::from_vec(data)?;
    Ok(Value::Ext(kind, data))
}
