//! The devices in memory that give others and take them back, against tables written by hand.
ghost use Rattle.std.specs.Prelude.{◌≡◌, [], IfOk, Some};

use nv_io::{
    Accepted, Dial, Ended, Files, Got, Lane, MemDial, MemFiles, MemLane, MemPort, MemSink,
    MemSource, Port, Put, Sink, Source,
};
use std::alloc::AllocError;
use std::test::Fail;

fn source_of(rt: &HostRuntime, bytes: &[u8]) -> Result<MemSource, AllocError>
    ensures { IfOk result (λ s. (s.pieces.taken ≡ []) × (s.reads ≡ Some [])
        × (s.failures.faults ≡ 0)) }
{
    let bytes = Vec::from_slice(rt.alloc(), bytes)?;
    let cuts = vec![in rt.alloc(); 8usize]?;
    Ok(MemSource::new(bytes, cuts, Vec::new(rt.alloc())))
}

fn new_sink(rt: &HostRuntime) -> MemSink
    ensures { (result.taken ≡ []) × (result.failures.faults ≡ 0) }
{
    MemSink::new(rt.alloc(), 8, Vec::new(rt.alloc()))
}

// The first byte that a source gives.
fn first_byte(rt: &HostRuntime, source: &mut MemSource) -> Option<u8> {
    let mut buffer = [0u8; 1];
    match source.read(rt, &mut buffer) {
        Got::Bytes(_) => Some(buffer[0]),
        Got::End | Got::Failed => None,
    }
}

// Two connections, where the second call fails.
#[test]
fn a_lane_gives_its_connections_and_keeps_how_they_ended(rt: HostRuntime) -> Result<(), Fail> {
    let one = (source_of(&rt, b"a")?, new_sink(&rt));
    let other = (source_of(&rt, b"b")?, new_sink(&rt));
    let conns = vec![in rt.alloc(); one, other]?;
    let fails = vec![in rt.alloc(); 1u64]?;
    let mut lane = MemLane::new(rt.alloc(), conns, fails)?;
    for (session, byte) in [(7u64, Some(b'a')), (8, None), (9, Some(b'b'))] {
        match lane.accept(&rt) {
            Accepted::Conn(mut input, output) => {
                assert!(rt; first_byte(&rt, &mut input) == byte);
                lane.ended(input, output, session, Ended::Quit(session));
            }
            Accepted::Failed => assert!(rt; byte.is_none()),
            Accepted::Done => panic!(rt; "no connection is to come"),
        }
    }
    lane.wake(&rt);
    assert!(rt; matches!(lane.accept(&rt), Accepted::Done));
    let [one, other] = lane.over() else {
        panic!(rt; "two connections ended")
    };
    assert!(rt; one.session == 7 && one.how == Ended::Quit(7));
    assert!(rt; other.session == 9 && other.how == Ended::Quit(9));
    Ok(())
}

// One lane, where the second call, of `listen`, fails.
#[test]
fn a_port_gives_its_lanes_and_takes_them_back(rt: HostRuntime) -> Result<(), Fail> {
    let conns = vec![in rt.alloc(); (source_of(&rt, b"a")?, new_sink(&rt))]?;
    let lane = MemLane::new(rt.alloc(), conns, Vec::new(rt.alloc()))?;
    let lanes = vec![in rt.alloc(); lane]?;
    let fails = vec![in rt.alloc(); 1u64]?;
    let mut port = MemPort::new(rt.alloc(), lanes, fails)?;
    assert!(rt; port.listen(&rt, "/one") && !port.listen(&rt, "/two"));
    let Some(mut lane) = port.lane(&rt) else {
        panic!(rt; "a lane is left")
    };
    assert!(rt; port.lane(&rt).is_none());
    assert!(rt; matches!(lane.accept(&rt), Accepted::Conn(_, _)));
    port.back(lane);
    assert_eq!(rt; port.returned().len(), 1);
    Ok(())
}

// A source and a sink, where the third call fails.
fn files_of_one(rt: &HostRuntime) -> Result<MemFiles, AllocError> {
    let sources = vec![in rt.alloc(); source_of(rt, b"a")?]?;
    let sinks = vec![in rt.alloc(); new_sink(rt)]?;
    MemFiles::new(rt.alloc(), sources, sinks, vec![in rt.alloc(); 2u64]?)
}

// What comes of what they give: whether nothing more is given, the first byte of the source, and
// what a write to the sink took. Both are taken back.
fn use_of(rt: &HostRuntime, files: &mut MemFiles) -> Option<(bool, Option<u8>, Put)> {
    let mut source = files.source(rt, "one")?;
    let mut sink = files.sink(rt, "other")?;
    let none = files.source(rt, "one").is_none() && files.sink(rt, "other").is_none();
    let byte = first_byte(rt, &mut source);
    let put = sink.write(rt, b"xy");
    files.back(sink);
    files.back_source(source);
    Some((none, byte, put))
}

// The third call fails, and nothing is left for the fourth.
#[test]
fn files_give_what_they_have_and_take_it_back(rt: HostRuntime) -> Result<(), Fail> {
    let mut files = files_of_one(&rt)?;
    let Some((none, byte, put)) = use_of(&rt, &mut files) else {
        panic!(rt; "a source and a sink are left")
    };
    assert!(rt; none);
    assert!(rt; byte == Some(b'a'));
    assert!(rt; put == Put::Took(2));
    let ([_], [sink]) = (files.sources(), files.sinks()) else {
        panic!(rt; "both came back")
    };
    assert_eq!(rt; sink.bytes(), b"xy".as_slice());
    Ok(())
}

// One connection, where the second call fails.
#[test]
fn a_dial_gives_its_connections_and_takes_them_back(rt: HostRuntime) -> Result<(), Fail> {
    let conns = vec![in rt.alloc(); (source_of(&rt, b"a")?, new_sink(&rt))]?;
    let fails = vec![in rt.alloc(); 1u64]?;
    let mut dial = MemDial::new(rt.alloc(), conns, fails)?;
    let Some((mut input, output)) = dial.dial(&rt, "/one") else {
        panic!(rt; "a connection is left")
    };
    assert!(rt; first_byte(&rt, &mut input) == Some(b'a'));
    assert!(rt; dial.dial(&rt, "/two").is_none());
    dial.back(input, output);
    assert_eq!(rt; dial.returned().len(), 1);
    Ok(())
}
