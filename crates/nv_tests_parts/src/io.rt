//! The devices in memory, and whole writes over them, against tables written by hand.

mod shelf;

use nv_io::{Got, MemSink, MemSource, Put, Sink, Source, SureSink, SureSource, put_all};
use std::test::Fail;

// "hello" in pieces of 2 and 1 bytes, over and over, where the second read fails.
#[test]
fn a_source_gives_its_pieces_and_its_faults(rt: HostRuntime) -> Result<(), Fail> {
    let bytes = Vec::from_slice(rt.alloc(), b"hello")?;
    let cuts = vec![in rt.alloc(); 2usize, 1]?;
    let fails = vec![in rt.alloc(); 1u64]?;
    let mut source = MemSource::new(bytes, cuts, fails);
    let answers = [
        (Got::Bytes(2), b"he".as_slice()),
        (Got::Failed, b"".as_slice()),
        (Got::Bytes(1), b"l".as_slice()),
        (Got::Bytes(2), b"lo".as_slice()),
        (Got::End, b"".as_slice()),
        (Got::End, b"".as_slice()),
    ];
    for (answer, given) in answers {
        let mut buffer = [0u8; 4];
        assert!(rt; source.read(&rt, &mut buffer) == answer);
        assert!(rt; buffer.starts_with(given));
    }
    Ok(())
}

// A buffer that is shorter than the piece gets as much as fits.
#[test]
fn a_sure_source_fills_a_short_buffer(rt: HostRuntime) -> Result<(), Fail> {
    let bytes = Vec::from_slice(rt.alloc(), b"abc")?;
    let cuts = vec![in rt.alloc(); 8usize]?;
    let mut source = SureSource::new(bytes, cuts);
    for (answer, given) in [
        (Got::Bytes(2), b"ab".as_slice()),
        (Got::Bytes(1), b"c".as_slice()),
        (Got::End, b"".as_slice()),
    ] {
        let mut buffer = [0u8; 2];
        assert!(rt; source.read(&rt, &mut buffer) == answer);
        assert!(rt; buffer.starts_with(given));
    }
    Ok(())
}

// At most 3 bytes a write, where the second write fails.
#[test]
fn a_sink_takes_its_pieces_and_fails(rt: HostRuntime) -> Result<(), Fail> {
    let fails = vec![in rt.alloc(); 1u64]?;
    let mut sink = MemSink::new(rt.alloc(), 3, fails);
    for answer in [Put::Took(3), Put::Failed, Put::Took(3)] {
        assert!(rt; sink.write(&rt, b"abcd") == answer);
    }
    sink.finish(&rt);
    assert_eq!(rt; sink.bytes(), b"abcabc".as_slice());
    let mut sure = SureSink::new(3);
    assert!(rt; sure.write(&rt, b"abcd") == Put::Took(3));
    sure.finish(&rt);
    Ok(())
}

// Over a sink of one byte a write: all of it, or what came before the third write, which fails.
#[test]
fn a_whole_write_goes_on_until_all_was_taken(rt: HostRuntime) -> Result<(), Fail> {
    for (failing, written, taken) in [
        (9u64, true, b"line\n".as_slice()),
        (2, false, b"li".as_slice()),
    ] {
        let fails = vec![in rt.alloc(); failing]?;
        let mut sink = MemSink::new(rt.alloc(), 1, fails);
        assert!(rt; put_all(&rt, &mut sink, b"line\n") == written);
        assert_eq!(rt; sink.bytes(), taken);
        assert!(rt; put_all(&rt, &mut sink, b""));
    }
    assert!(rt; put_all(&rt, &mut SureSink::new(1), b"line\n"));
    Ok(())
}
