//! What is asked, and the values that it is made of.
ghost use Rattle.std.specs.Prelude.{◌≡◌, IfOk};
ghost use Rattle.nv_value.specs.Content.{text, trees_of, list};
ghost use Rattle.nv_value.specs.View.{content, contents, pair_content};
ghost use Rattle.nv_model.specs.Answering.{natural};
ghost use Rattle.nv_gen.specs.inside.Views.{question_seen};

use nv_value::{Bytes, Items, Pair, Value};
use std::alloc::{AllocError, Global};

/// What a session asks: a method, with its arguments.
#[derive(Drop)]
pub struct Asked {
    pub session: u32,
    pub method: Bytes,
    pub params: Items,
}

/// A session asks a method.
pub fn ask(alloc: Global, session: u32, method: &[u8], params: Items) -> Result<Asked, AllocError>
    ensures { IfOk result (λ asked. question_seen asked
        ≡ record { session = session; method = method.now; arguments = contents params.items }) }
{
    let method = Bytes::from_slice(alloc, method)?;
    Ok(Asked {
        session,
        method,
        params,
    })
}

/// A number as an argument.
pub fn number(n: u32) -> Value
    ensures { content result ≡ natural n }
{
    Value::Int(i64::from(n))
}

/// A string as an argument.
pub fn string(alloc: Global, bytes: &[u8]) -> Result<Value, AllocError>
    ensures { IfOk result (λ value. content value ≡ text bytes.now) }
{
    Ok(Value::Text(Bytes::from_slice(alloc, bytes)?))
}

/// A key of a map with its value.
pub fn pair(alloc: Global, key: &[u8], value: Value) -> Result<Pair, AllocError>
    ensures { IfOk result (λ pair. pair_content pair ≡ (text key.now, content value)) }
{
    let key = string(alloc, key)?;
    Ok(Pair { key, value })
}
