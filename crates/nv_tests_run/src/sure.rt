//! A session over devices that never fail.
use nv_run::answer_all;
use std::alloc::{AllocError, Global};
use std::fs::File;
use std::net::{Net, TcpListener, TcpStream};
use std::rt::Files;
use std::sync::Wait;
use std::test::Fail;
use std::thread::Threads;

// What all is answered with over sure devices: the status, whether the reply went out, and the
// length of the history.
fn answered<
    R: Files<File = File> + Net<Listener = TcpListener, Stream = TcpStream> + Threads + Wait + Sync,
>(rt: &R, alloc: Global) -> Result<(u8, bool, usize), AllocError> {
    let cuts = vec![in alloc; 7]?;
    let request = b"\x94\x00\x01\xb3nvim_buf_line_count\x91\x00";
    let bytes = Vec::from_slice(alloc, request)?;
    let (status, output, kept) = answer_all(rt, alloc, bytes, cuts);
    Ok((
        status,
        output.bytes() == b"\x94\x01\x01\xc0\x01".as_slice(),
        kept.len(),
    ))
}

#[test]
fn all_is_answered_over_sure_devices(rt: HostRuntime) -> Result<(), Fail> {
    assert!(rt; answered(&rt, rt.alloc())? == (0, true, 4));
    Ok(())
}
