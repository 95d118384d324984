//! A stream that is fed after its flaw.

use nv_io::Flaw;
use nv_msgpack::Bounds;
use nv_stream::{Next, Stream};
use std::alloc::{AllocError, Global};
use std::test::Fail;

const BOUNDS: Bounds = Bounds {
    depth: 64,
    bytes: 67_108_864,
};

// Whether the stream was fed.
fn feed(stream: &mut Stream, piece: &[u8]) -> Result<bool, AllocError> {
    if stream.start() > 1 << 32 || stream.held_len() > 1 << 32 || piece.len() > 1 << 32 {
        return Ok(false);
    }
    stream.feed(piece)?;
    Ok(true)
}

// Whether the next value is the byte at place 1 that begins nothing.
fn is_flawed(stream: &mut Stream) -> Result<bool, AllocError> {
    Ok(matches!(stream.next()?, Next::Flaw(Flaw::Bad(1))))
}

// Whether the stream gives a value and then its flaw, three times, and has its flaw after each
// further piece.
fn flaw_stays(stream: &mut Stream) -> Result<bool, AllocError> {
    let mut stays = feed(stream, b"\x01\xc1")? && matches!(stream.next()?, Next::Value(_));
    for _ in 0..3 {
        stays = is_flawed(stream)? && feed(stream, b"\x01")? && stays;
        stays = stays && stream.end() == Some(Flaw::Bad(1));
    }
    Ok(stays)
}

#[test]
fn a_flaw_stays(rt: HostRuntime) -> Result<(), Fail> {
    let mut stream = Stream::new(rt.alloc(), BOUNDS)?;
    let stays = flaw_stays(&mut stream)?;
    assert_eq!(rt; (stays, stream.held_len()), (true, 4));
    Ok(())
}
