//! Requests and notifications: what a client sends.
ghost use Rattle.std.specs.Prelude.{◌≡◌, if◌then◌else◌, Some, None, pos, IfOk, IfErr, OnErr, IsSome, option_map};
ghost use Rattle.nv_value.specs.Content.{list};
ghost use Rattle.nv_value.specs.View.{content, contents};
ghost use Rattle.nv_rpc.specs.Calls.{notice, call_in, is_number, request_in, notice_in};
ghost use Rattle.nv_rpc.specs.Frames.{call_of_frame};
ghost use Rattle.nv_rpc.specs.inside.Heads.{head_of_call, without_msgid};

use crate::parts::{is_list, is_name, is_number, msgid_of, name_of, params_of};
use nv_value::{Bytes, Items, Value};

/// A call that a client sends (MessagePack-RPC specification).
#[derive(Drop)]
pub enum Frame {
    /// `[0, msgid, method, params]`: a call that is answered under its msgid.
    Request {
        msgid: u32,
        method: Bytes,
        params: Items,
    },
    /// `[2, method, params]`: a call that isn't answered.
    Notice {
        method: Bytes,
        params: Items,
    },
}

// What kind of call it is.
#[derive(Drop)]
enum Head {
    Answered(u32),
    Unanswered,
}

/// The call that a value is. A value that is none comes back.
#[tactic(auto, unfolding(crate::specs::Calls::call_in))]
pub fn call_of(value: Value) -> Result<Frame, Value>
    ensures ok { IfOk result (λ frame. call_in (content value) ≡ Some (call_of_frame frame)) }
    ensures value_back { IfErr result (λ back. content back ≡ content value) }
    ensures no_call { OnErr result (call_in (content value) ≡ None) }
{
    match value {
        Value::List(items) => match frame_of(items) {
            Ok(frame) => Ok(frame),
            Err(items) => Err(Value::List(items)),
        },
        other => Err(other),
    }
}

fn frame_of(items: Items) -> Result<Frame, Items>
    ensures ok { IfOk result (λ frame. call_in (list (contents items.items))
        ≡ Some (call_of_frame frame)) }
    ensures items_back { IfErr result (λ back. back ≡ items) }
    ensures no_call { OnErr result (call_in (list (contents items.items)) ≡ None) }
{
    match head_of(items.as_slice()) {
        Some(Head::Answered(msgid)) => Ok(request(msgid, items)),
        Some(Head::Unanswered) => Ok(notice(items)),
        None => Err(items),
    }
}

#[tactic(auto, unfolding(crate::specs::Calls::call_in))]
fn head_of(items: &[Value]) -> Option<Head>
    ensures { result ≡ option_map head_of_call (call_in (list (contents items.now))) }
{
    match items {
        [kind, msgid, name, params] => request_head(kind, msgid, name, params),
        [kind, name, params] => notice_head(kind, name, params),
        _ => None,
    }
}

fn request_head(kind: &Value, msgid: &Value, name: &Value, params: &Value) -> Option<Head>
    ensures { result ≡ option_map head_of_call (if is_number (pos 0) (content kind.now)
        then request_in (content msgid.now) (content name.now) (content params.now) else None) }
{
    if !is_number(kind, 0) || !is_name(name) || !is_list(params) {
        return None;
    }
    let msgid = msgid_of(msgid)?;
    Some(Head::Answered(msgid))
}

fn notice_head(kind: &Value, name: &Value, params: &Value) -> Option<Head>
    ensures { result ≡ option_map head_of_call (if is_number (pos 2) (content kind.now)
        then notice_in (content name.now) (content params.now) else None) }
{
    (is_number(kind, 2) && is_name(name) && is_list(params)).then_some(Head::Unanswered)
}

fn request(msgid: u32, items: Items) -> Frame
    requires { option_map head_of_call (call_in (list (contents items.items)))
        ≡ Some (Head.Answered msgid) }
    ensures { call_in (list (contents items.items)) ≡ Some (call_of_frame result) }
{
    let (method, params) = method_and_params(items);
    Frame::Request {
        msgid,
        method,
        params,
    }
}

fn notice(items: Items) -> Frame
    requires { option_map head_of_call (call_in (list (contents items.items)))
        ≡ Some Head.Unanswered }
    ensures { call_in (list (contents items.items)) ≡ Some (call_of_frame result) }
{
    let (method, params) = method_and_params(items);
    Frame::Notice { method, params }
}

// The last two values of a call.
#[tactic(auto, unfolding(crate::specs::Calls::call_in))]
fn method_and_params(mut items: Items) -> (Bytes, Items)
    requires { IsSome (call_in (list (contents items.items))) }
    ensures { option_map without_msgid (call_in (list (contents items.items)))
        ≡ Some (notice result.0 (contents result.1.items)) }
{
    match (items.pop(), items.pop()) {
        (Some(params), Some(name)) => (name_of(name), params_of(params)),
        _ => unreachable!(),
    }
}
