//! Lengths of strings, lists and maps.
ghost use Rattle.std.specs.Prelude.{◌≡◌, ◌^◌, ◌<◌, IfOk, OnOk};

use std::alloc::AllocError;

/// A number of bytes, of values or of pairs as a spelling tells it (MessagePack specification,
/// "Limitation"). `AllocError` where it is 2^32 or more.
pub fn spelled_length(length: usize) -> Result<u32, AllocError>
    ensures value { IfOk result (λ few. few ≡ length) }
    ensures few { OnOk result (length < 2 ^ 32) }
{
    let Ok(few) = u32::try_from(length) else {
        return Err(AllocError);
    };
    Ok(few)
}
