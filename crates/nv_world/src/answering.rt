//! The call of a request: what it does to the editor, what it tells, and what answers it.
ghost use Rattle.std.specs.Prelude.{◌≡◌, IfOk, IfSome, OnOk, option_map};
ghost use Rattle.nv_value.specs.View.{contents};
ghost use Rattle.nv_rpc.specs.Frames.{call_of_frame};
ghost use Rattle.nv_rpc.specs.Messages.{IsSendable};
ghost use Rattle.nv_rpc.specs.MessageView.{sent_of};
ghost use Rattle.nv_args.specs.Weight.{AreLight};
ghost use Rattle.nv_editor.specs.Facts.{facts_of};
ghost use Rattle.nv_editor.specs.Sound.{AllSealed};
ghost use Rattle.nv_history.specs.Sessions.{reply_message};
ghost use Rattle.nv_core.specs.Bounds.{IsLightCall};
ghost use Rattle.nv_world.specs.inside.Answers.{AnswersFrame, CallsMethod, CanBeReplied, result_content};

use nv_args::Fail;
use nv_dispatch::call;
use nv_editor::{Editor, Fact, Happened};
use nv_rpc::{CallResult, Frame, Message, Outcome};
use nv_value::{ApiFault, Value};
use std::alloc::{AllocError, Global};

/// What a call came to: its result or its fault, whether it may have changed what is seen, and what
/// others are told of it.
#[derive(Drop)]
pub struct Called {
    pub result: Result<Outcome, ApiFault>,
    pub is_seen: bool,
    pub facts: Vec<Fact>,
}

/// What a request came to: what answers it, if anything does, whether it may have changed what is
/// seen, and what others are told of it.
#[derive(Drop)]
pub struct Answered {
    pub answer: Option<Message>,
    pub is_seen: bool,
    pub facts: Vec<Fact>,
}

// Calls a method for a session.
fn call_method(
    alloc: Global,
    editor: &mut Editor,
    session: u64,
    name: &[u8],
    params: &[Value],
) -> Result<Called, AllocError>
    requires light { AreLight (contents params.now) }
    requires sealed { AllSealed editor.old }
    ensures called { IfOk result (λ c. CallsMethod session name.now (contents params.now)
        (result_content c.result) c.is_seen (facts_of c.facts.items) editor.old editor.new) }
    ensures sendable { IfOk result (λ c. CanBeReplied c.result) }
    ensures sealed { OnOk result (AllSealed editor.new) }
{
    let mut happened = Happened::new(alloc);
    match call(editor, session, name, params, &mut happened) {
        Ok(done) => Ok(Called {
            result: Ok(done.result),
            is_seen: done.is_seen,
            facts: happened.into_facts(),
        }),
        Err(Fail::Api(fault)) => Ok(Called {
            result: Err(fault),
            is_seen: false,
            facts: happened.into_facts(),
        }),
        Err(Fail::NoMemory) => Err(AllocError),
    }
}

// What answers a call that came to this.
fn answer_of(frame: &Frame, given: Result<Outcome, ApiFault>) -> Option<Message>
    requires sendable { CanBeReplied given }
    ensures answer { option_map sent_of result
        ≡ reply_message (call_of_frame frame.now) (result_content given) }
    ensures sendable { IfSome result (λ message. IsSendable (sent_of message)) }
{
    match (frame, given) {
        (Frame::Request { msgid, .. }, Ok(result)) => Some(Message::Reply {
            msgid: *msgid,
            fault: None,
            result,
        }),
        (Frame::Request { msgid, .. }, Err(fault)) => Some(Message::Reply {
            msgid: *msgid,
            fault: Some(fault),
            result: Outcome::One(CallResult::Value(Value::Nil)),
        }),
        (Frame::Notice { .. }, Ok(_)) => None,
        (Frame::Notice { .. }, Err(fault)) => Some(Message::Fault { fault }),
    }
}

/// Makes the call of a session. Where memory is wanting it may have been made, or a part of it.
pub fn answer(
    alloc: Global,
    editor: &mut Editor,
    session: u64,
    frame: &Frame,
) -> Result<Answered, AllocError>
    requires light { IsLightCall (call_of_frame frame.now) }
    requires sealed { AllSealed editor.old }
    ensures answer { IfOk result (λ a. AnswersFrame session (call_of_frame frame.now)
        (option_map sent_of a.answer) a.is_seen (facts_of a.facts.items) editor.old editor.new) }
    ensures sendable { IfOk result
        (λ a. IfSome a.answer (λ message. IsSendable (sent_of message))) }
    ensures sealed { OnOk result (AllSealed editor.new) }
{
    let called = match frame {
        Frame::Request { method, params, .. } => {
            call_method(alloc, editor, session, method.as_slice(), params.as_slice())?
        }
        Frame::Notice { method, params } => {
            call_method(alloc, editor, session, method.as_slice(), params.as_slice())?
        }
    };
    Ok(Answered {
        answer: answer_of(frame, called.result),
        is_seen: called.is_seen,
        facts: called.facts,
    })
}
