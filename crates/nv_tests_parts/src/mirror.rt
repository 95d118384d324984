//! A client that follows a buffer, over devices in memory, against listings written by hand.

use nv_io::{Flaw, MemSink, MemSource};
use nv_mirror::{Followed, follow};
use std::alloc::AllocError;
use std::test::Fail;

/// What following came to, and what the server and the output took.
#[derive(Drop)]
struct Told {
    end: Followed,
    server: MemSink,
    output: MemSink,
}

// Follows a buffer of a server that sends these bytes, in pieces of three.
fn follow_bytes(rt: &HostRuntime, bytes: &[u8], buffer: i64) -> Result<Told, AllocError> {
    let alloc = rt.alloc();
    let bytes = Vec::from_slice(alloc, bytes)?;
    let mut input = MemSource::new(bytes, vec![in alloc; 3usize]?, Vec::new(alloc));
    let mut server = MemSink::new(alloc, 5, Vec::new(alloc));
    let mut output = MemSink::new(alloc, 4, Vec::new(alloc));
    let end = follow(rt, alloc, &mut input, &mut server, &mut output, buffer);
    Ok(Told {
        end,
        server,
        output,
    })
}

// All lines, the reply, and one line in place of the first.
#[test]
fn a_client_lists_each_text(rt: HostRuntime) -> Result<(), Fail> {
    let bytes = b"\x93\x02\xb4nvim_buf_lines_event\x96\xd4\x00\x01\x02\x00\xff\x91\xa0\xc2\
        \x94\x01\x01\xc0\xc3\
        \x93\x02\xb4nvim_buf_lines_event\x96\xd4\x00\x01\x03\x00\x01\x91\xa1a\xc2";
    let told = follow_bytes(&rt, bytes.as_slice(), 1)?;
    assert!(rt; matches!(told.end, Followed::Ended));
    let request = b"\x94\x00\x01\xafnvim_buf_attach\x93\x01\xc3\x80";
    assert!(rt; told.server.bytes() == request.as_slice());
    assert!(rt; told.output.bytes() == b"tick 2 lines 1\n\ntick 3 lines 1\na\n".as_slice());
    Ok(())
}

#[test]
fn a_client_tells_why_it_was_refused(rt: HostRuntime) -> Result<(), Fail> {
    let refusal = b"\x94\x01\x01\x92\x01\xb4Invalid buffer id: 7\xc0";
    let told = follow_bytes(&rt, refusal.as_slice(), 7)?;
    let Told {
        end,
        server,
        output,
    } = told;
    let request = b"\x94\x00\x01\xafnvim_buf_attach\x93\x07\xc3\x80";
    assert!(rt; server.bytes() == request.as_slice());
    assert!(rt; output.bytes().is_empty());
    let Followed::Refused(words) = end else {
        panic!(rt; "it was refused")
    };
    assert!(rt; words.as_slice() == b"Invalid buffer id: 7".as_slice());
    Ok(())
}

// A line in place of one that isn't there, behind a notification of another name; a value that is
// neither a message nor a notification; and a value that is cut.
#[test]
fn a_client_tells_what_it_stopped_at(rt: HostRuntime) -> Result<(), Fail> {
    let bytes = b"\x93\x02\xa1x\x90\x93\x02\xb4nvim_buf_lines_event\x96\xd4\x00\x01\x03\x00\x01\x91\
        \xa1a\xc2";
    let told_misfit = follow_bytes(&rt, bytes.as_slice(), 1)?;
    assert!(rt; matches!(told_misfit.end, Followed::Unfit(1)));
    let told_number = follow_bytes(&rt, b"\x93\x02\xa1x\x90\x07".as_slice(), 1)?;
    assert!(rt; matches!(told_number.end, Followed::Malformed(Flaw::NoCall(1))));
    let told_cut = follow_bytes(&rt, b"\x93\x02\xa1x\x90\x93\x02".as_slice(), 1)?;
    assert!(rt; matches!(told_cut.end, Followed::Malformed(Flaw::Inside(5))));
    Ok(())
}
