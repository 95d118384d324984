//! Calls as values, and arguments that are asked for by another type than theirs.

use nv_args::{call_in, method_of, read, text_col, text_row};
use nv_msgpack::{Bounds, Decoded, decode};
use nv_value::{Items, Value};
use std::alloc::{AllocError, Global};
use std::test::Fail;

const BOUNDS: Bounds = Bounds {
    depth: 64,
    bytes: 1_024,
};

// The values of the list that these bytes spell.
fn params(alloc: Global, bytes: &[u8]) -> Result<Items, AllocError> {
    match decode(alloc, bytes, BOUNDS)? {
        Decoded::Whole(Value::List(items), _) => Ok(items),
        _ => Ok(Vec::new(alloc)),
    }
}

// The number of the name's bytes of a call as a value, and of its arguments.
fn parts_of(call: Option<&Value>) -> (usize, usize) {
    match call {
        Some(call) => {
            let named = call_in(call);
            (named.name.len(), named.params.len())
        }
        None => (9, 9),
    }
}

fn parts_of_three(calls: &[Value]) -> [(usize, usize); 3] {
    [
        parts_of(calls.get(0)),
        parts_of(calls.get(1)),
        parts_of(calls.get(2)),
    ]
}

// The calls `["abc", [1, 2]]`, `["ab"]` and `5`.
#[test]
fn calls_in_one_have_names_and_arguments(rt: HostRuntime) -> Result<(), Fail> {
    let calls = params(
        rt.alloc(),
        b"\x93\x92\xa3abc\x92\x01\x02\x91\xa2ab\x05".as_slice(),
    )?;
    assert_eq!(rt; parts_of_three(calls.as_slice()), [(3, 2), (2, 0), (0, 0)]);
    Ok(())
}

// Of the arguments `["x", {"a": nil}, "y", {}, []]`: how many bytes the last Dict has as a string,
// how many lines the first string has, and which number the first Dict is.
fn nothing_given(alloc: Global, params: &[Value]) -> Result<(usize, usize, i64), AllocError> {
    let Some(signature) = method_of(b"nvim_set_client_info".as_slice()) else {
        return Ok((9, 9, 9));
    };
    match read(alloc, signature, params) {
        Ok(args) => Ok((
            args.bytes(alloc, 3)?.len(),
            args.lines(0).len(),
            args.number(1),
        )),
        Err(_) => Ok((9, 9, 9)),
    }
}

#[test]
fn an_argument_of_another_type_is_nothing(rt: HostRuntime) -> Result<(), Fail> {
    let params = params(
        rt.alloc(),
        b"\x95\xa1x\x81\xa1a\xc0\xa1y\x80\x90".as_slice(),
    )?;
    assert_eq!(rt; nothing_given(rt.alloc(), params.as_slice())?, (0, 0, 0));
    Ok(())
}

// A text has at least one line, but a place is found without any.
#[test]
fn no_row_is_named_where_there_are_no_lines(rt: HostRuntime) -> Result<(), Fail> {
    assert_eq!(rt; (text_row(-1, 0), text_col(-1, 0)), (None, Some(0)));
    Ok(())
}
