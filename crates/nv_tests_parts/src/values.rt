//! Bytes that are shared, and what stands past their end.

use nv_value::Bytes;
use std::alloc::{AllocError, Global};
use std::test::Fail;

// These bytes, shared with an owner that is gone.
fn shared(alloc: Global, items: &[u8]) -> Result<Bytes, AllocError> {
    let bytes = Bytes::from_slice(alloc, items)?;
    bytes.share()
}

// The bytes at two places: the last of these two, and past their end.
fn items(bytes: &Bytes) -> [Option<u8>; 2] {
    [bytes.get(1).copied(), bytes.get(2).copied()]
}

#[test]
fn bytes_outlive_an_owner_and_end(rt: HostRuntime) -> Result<(), Fail> {
    let same = shared(rt.alloc(), &[7, 8])?;
    assert_eq!(rt; items(&same), [Some(8), None]);
    Ok(())
}
