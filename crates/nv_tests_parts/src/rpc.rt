//! Replies that are told as values and as bytes, and requests that are read as they arrive.
ghost use Rattle.std.specs.Prelude.{IfOk};
ghost use Rattle.nv_rpc.specs.Messages.{IsSendable};
ghost use Rattle.nv_rpc.specs.MessageView.{sent_of};

use crate::spelling::spelled;
use nv_msgpack::Bounds;
use nv_rpc::{CallResult, Message, Names, Outcome, Triple, decode_call, put_message, value_of};
use nv_value::{ApiFault, Bytes, Value};
use std::alloc::{AllocError, Global};
use std::process::Abort;
use std::test::Fail;

// What each is told by (MessagePack-RPC specification).
const FAILURE: &[u8] = b"\x94\x01\x02\x92\x01\xb3Index out of bounds\xc0";

const LISTING: &[u8] =
    b"\x94\x01\x01\xc0\x92\x93\x00\x7f\xcc\x80\x93\xcc\xff\xcd\x01\x00\xce\x00\x01\x00\x00";

// The bytes of the message's value, and of the message.
fn told(alloc: Global, message: Message) -> Result<(Vec<u8>, Vec<u8>), AllocError>
    requires { IsSendable (sent_of message) }
{
    let copied = spelled(alloc, &value_of(alloc, &message)?)?;
    let mut put = Vec::new(alloc);
    put_message(alloc, message, &mut put)?;
    Ok((copied, put))
}

fn assert_told(
    rt: &impl Abort,
    alloc: Global,
    message: Message,
    bytes: &[u8],
) -> Result<(), AllocError>
    requires { IsSendable (sent_of message) }
{
    let (copied, put) = told(alloc, message)?;
    assert_eq!(rt; copied.as_slice(), bytes, "copied");
    assert_eq!(rt; put.as_slice(), bytes, "put");
    Ok(())
}

// A reply with a fault, and a result beside it that isn't sent.
fn failure(alloc: Global) -> Result<Message, AllocError>
    ensures { IfOk result (λ message. IsSendable (sent_of message)) }
{
    let fault = ApiFault {
        kind: 1,
        code: 9,
        words: Bytes::from_slice(alloc, b"Index out of bounds")?,
    };
    Ok(Message::Reply {
        msgid: 2,
        fault: Some(fault),
        result: Outcome::One(CallResult::Value(Value::Truth(true))),
    })
}

// A reply whose result is two lists of three integers.
fn listing(alloc: Global) -> Result<Message, AllocError>
    ensures { IfOk result (λ message. IsSendable (sent_of message)) }
{
    let small = Triple {
        first: 0,
        second: 127,
        third: 128,
    };
    let large = Triple {
        first: 255,
        second: 256,
        third: 65536,
    };
    Ok(Message::Reply {
        msgid: 1,
        fault: None,
        result: Outcome::One(CallResult::Triples(vec![in alloc; small, large]?)),
    })
}

#[test]
fn replies_are_told(rt: HostRuntime) -> Result<(), Fail> {
    let alloc = rt.alloc();
    assert_told(&rt, alloc, failure(alloc)?, FAILURE)?;
    assert_told(&rt, alloc, listing(alloc)?, LISTING)?;
    Ok(())
}

// Room for 16 bytes and a depth of 3.
const SMALL: Bounds = Bounds {
    depth: 3,
    bytes: 16,
};

// Bytes, and how many of them are a request that is read at once, 0 where none is.
const ARRIVALS: [(&[u8], usize); 20] = [
    (b"\x94\x00\x01\xa1a\x90", 6),
    (b"\x94\x00\x01\xa1a\x90\x94\x00", 6),
    (b"\x94\x00\x7f\xa0\x91\x90", 6),
    (b"\x94\x00\xcc\x80\xd9\x01a\x91\xc0", 9),
    (b"\x94\x00\xcd\x01\x00\xa1a\xdc\x00\x00", 10),
    (b"\x94\x00\xce\xff\xff\xff\xff\xa1a\x90", 10),
    (
        b"\x94\x00\xcf\x00\x00\x00\x00\x00\x00\x00\x05\xa2ab\x90",
        15,
    ),
    (b"\x94\x00\x01\xaaabcdefghij\x91\xc0", 16),
    (b"\x94\x00\x01\xaaabcdefghij\x92\xc0\xc0", 0),
    (b"\x94\x00\x01\xababcdefghijk\x92\xc0\xc0", 0),
    (b"\x94\x00\x01\xa1a\x91\x91\x90", 0),
    (b"\x94\x00\x01\xa1a\x91\xc1", 0),
    (b"\x94\x00\x01\xa1a\x91", 0),
    (b"\x94\x00\x01\xa1", 0),
    (b"\x94\x00", 0),
    (b"\x94\x00\xff\xa1a\x90", 0),
    (b"\x94\x00\x01\xc4\x01a\x90", 0),
    (b"\x94\x00\x01\xa1a\x80", 0),
    (b"\x94\x02\x01\xa1a\x90", 0),
    (b"\x93\x02\xa1a\x90", 0),
];

fn arrived(alloc: Global, bytes: &[u8], names: &mut Names) -> Result<usize, AllocError> {
    match decode_call(alloc, bytes, SMALL, names)? {
        Some((_, length)) => Ok(length),
        None => Ok(0),
    }
}

// The first row that isn't so.
fn wrong_arrival(alloc: Global, names: &mut Names) -> Result<Option<&'static [u8]>, AllocError> {
    for (bytes, length) in ARRIVALS.iter() {
        if arrived(alloc, bytes, names)? != *length {
            return Ok(Some(*bytes));
        }
    }
    Ok(None)
}

#[test]
fn calls_are_read_as_they_arrive(rt: HostRuntime) -> Result<(), Fail> {
    let mut names = Names::new(rt.alloc())?;
    assert_eq!(rt; wrong_arrival(rt.alloc(), &mut names)?, None);
    Ok(())
}
