//! The call of a method, and of calls one after another (Neovim help `api`, `nvim_call_atomic()`).
ghost use Rattle.std.specs.Prelude.{◌<◌, map, IfOk, Ok, OnOk};
ghost use Rattle.nv_value.specs.View.{content, contents};
ghost use Rattle.nv_msgpack.specs.Shortest.{HasSpelling};
ghost use Rattle.nv_rpc.specs.Outcomes.{outcome_content};
ghost use Rattle.nv_args.specs.Args.{typed_arguments};
ghost use Rattle.nv_args.specs.Methods.{IsBrief, signature_of};
ghost use Rattle.nv_args.specs.Reading.{read};
ghost use Rattle.nv_args.specs.Refusals.{RefusedKeeps};
ghost use Rattle.nv_args.specs.Weight.{AreLight, weight};
ghost use Rattle.nv_model.specs.Editors.{ModelEditor};
ghost use Rattle.nv_model.specs.Standing.{Stands, seen_now};
ghost use Rattle.nv_editor.specs.Doing.{GivesResult};
ghost use Rattle.nv_editor.specs.Light.{AreLightArgs};
ghost use Rattle.nv_editor.specs.Sound.{AllSealed};
ghost use Rattle.nv_dispatch.specs.Calls.{answer_of_method, atomic_outcome, batch_of_values, outcome_before_seal, outcome_of_call, outcome_of_method, outcome_of_value};
ghost use Rattle.nv_dispatch.specs.Outcomes.{CanBeSent, GivesOutcome, IfAnswered};
ghost use Rattle.nv_dispatch.specs.inside.Batches.{CanBeListed, IsBatch};

use crate::batch::Results;
use crate::done::Done;
use nv_args::{Args, Fail, Method, NamedCall, Signature, call_in, method_of, read, unknown_method};
use nv_editor::{Editor, Happened};
use nv_rpc::{CallResult, Outcome};
use nv_value::Value;
use std::alloc::AllocError;

// What a method of the table gives: the number and the types of the arguments come before all else.
// Calls in one are no such method.
fn result_of(
    editor: &mut Editor,
    session: u64,
    signature: &'static Signature,
    params: &[Value],
    happened: &mut Happened,
) -> Result<Outcome, Fail>
    requires brief { IsBrief signature.now }
    ensures row { GivesResult (answer_of_method (seen_now editor.old) session
        (signature_of signature.now) (map content params.now))
        result editor.old editor.new happened.old happened.new }
    ensures spelled { IfOk result (λ outcome. HasSpelling (outcome_content outcome)) }
{
    let alloc = editor.alloc();
    match signature.method {
        Method::Atomic => Err(unknown_method(alloc, signature.name.as_bytes())),
        Method::PassedOver => Ok(Outcome::One(CallResult::Value(Value::Nil))),
        Method::Buffer(method) => {
            let args = read(alloc, signature, params)?;
            nv_api_buf::call(method, editor, session, &args, happened)
        }
        Method::Mark(method) => {
            let args = read(alloc, signature, params)?;
            nv_api_mark::call(method, editor, &args)
        }
        Method::Window(method) => {
            let args = read(alloc, signature, params)?;
            nv_api_win::call(method, editor, &args)
        }
        Method::Ui(method) => {
            let args = read(alloc, signature, params)?;
            nv_api_ui::call(method, editor, session, &args)
        }
    }
}

// A call of a method of the table.
fn call_method(
    editor: &mut Editor,
    session: u64,
    signature: &'static Signature,
    params: &[Value],
    happened: &mut Happened,
) -> Result<Done, Fail>
    requires brief { IsBrief signature.now }
    ensures outcome { GivesOutcome (λ m. outcome_of_method m session (signature_of signature.now)
        (map content params.now)) result editor.old editor.new happened.old happened.new }
    ensures refused { RefusedKeeps result editor.new editor.old }
    ensures quiet { RefusedKeeps result happened.new happened.old }
    ensures sendable { CanBeSent result }
{
    match result_of(editor, session, signature, params, happened) {
        Ok(result) => Ok(Done {
            result,
            is_seen: signature.is_seen,
        }),
        Err(fail) => Err(fail),
    }
}

// A call that is a value, `[name, arguments]`.
fn call_value(
    editor: &mut Editor,
    session: u64,
    call: &Value,
    happened: &mut Happened,
) -> Result<Done, Fail>
    ensures outcome { GivesOutcome (λ m. outcome_of_value m session (content call.now))
        result editor.old editor.new happened.old happened.new }
    ensures refused { RefusedKeeps result editor.new editor.old }
    ensures quiet { RefusedKeeps result happened.new happened.old }
    ensures named { OnOk result (0 < weight (content call.now)) }
    ensures sendable { CanBeSent result }
{
    let NamedCall { name, params } = call_in(call);
    match method_of(name) {
        Some(signature) => call_method(editor, session, signature, params, happened),
        None => Err(unknown_method(editor.alloc(), name)),
    }
}

// Calls one after another, up to the first that is refused.
fn call_each(
    editor: &mut Editor,
    session: u64,
    calls: &[Value],
    happened: &mut Happened,
) -> Result<Results, AllocError>
    requires light { AreLight (contents calls.now) }
    ensures batch { IfOk result (λ made. (m : ModelEditor) → Stands editor.old m
        → IsBatch (batch_of_values 0 m session (map content calls.now)) m made editor.new
        happened.old happened.new) }
    ensures listed { IfOk result (λ made. CanBeListed made) }
{
    let mut made = Results::new(editor.alloc());
    for call in calls {
        let given = call_value(editor, session, call, happened);
        made = made.with(given)?;
        if made.stopped.is_some() {
            return Ok(made);
        }
    }
    Ok(made)
}

// Calls one after another as one call. What was done before a fault stays.
fn call_atomic(
    editor: &mut Editor,
    session: u64,
    signature: &'static Signature,
    params: &[Value],
    happened: &mut Happened,
) -> Result<Done, Fail>
    requires brief { IsBrief signature.now }
    requires light { AreLight (contents params.now) }
    ensures outcome { GivesOutcome (λ m. atomic_outcome m session
        (read (signature_of signature.now) (map content params.now)))
        result editor.old editor.new happened.old happened.new }
    ensures refused { RefusedKeeps result editor.new editor.old }
    ensures quiet { RefusedKeeps result happened.new happened.old }
    ensures sendable { CanBeSent result }
{
    let alloc = editor.alloc();
    match read(alloc, signature, params) {
        Ok(args) => call_read(editor, session, &args, happened),
        Err(fail) => Err(fail),
    }
}

// The same, once its arguments were read.
fn call_read(
    editor: &mut Editor,
    session: u64,
    args: &Args,
    happened: &mut Happened,
) -> Result<Done, Fail>
    requires light { AreLightArgs (typed_arguments args.now) }
    ensures outcome { GivesOutcome (λ m. atomic_outcome m session (Ok (typed_arguments args.now)))
        result editor.old editor.new happened.old happened.new }
    ensures refused { RefusedKeeps result editor.new editor.old }
    ensures quiet { RefusedKeeps result happened.new happened.old }
    ensures sendable { CanBeSent result }
{
    let made = call_each(editor, session, args.values(0), happened)?;
    let is_seen = made.is_seen;
    let result = made.into_outcome(editor.alloc())?;
    Ok(Done { result, is_seen })
}

// A call of any method, which leaves the open changes open.
fn call_unsealed(
    editor: &mut Editor,
    session: u64,
    name: &[u8],
    params: &[Value],
    happened: &mut Happened,
) -> Result<Done, Fail>
    requires light { AreLight (contents params.now) }
    ensures outcome { GivesOutcome
        (λ m. outcome_before_seal m session name.now (map content params.now))
        result editor.old editor.new happened.old happened.new }
    ensures refused { RefusedKeeps result editor.new editor.old }
    ensures quiet { RefusedKeeps result happened.new happened.old }
    ensures sendable { CanBeSent result }
{
    let Some(signature) = method_of(name) else {
        return Err(unknown_method(editor.alloc(), name));
    };
    match signature.method {
        Method::Atomic => call_atomic(editor, session, signature, params, happened),
        _ => call_method(editor, session, signature, params, happened),
    }
}

/// Calls the method of a name for a session. What the call does is one change of each buffer: a
/// call that succeeds ends by closing their open changes. A refused call leaves the editor as it
/// was and tells nothing. Where memory is wanting the call may have been done, or a part of it.
pub fn call(
    editor: &mut Editor,
    session: u64,
    name: &[u8],
    params: &[Value],
    happened: &mut Happened,
) -> Result<Done, Fail>
    requires light { AreLight (contents params.now) }
    requires sealed { AllSealed editor.old }
    ensures outcome { GivesOutcome
        (λ m. outcome_of_call m session name.now (map content params.now))
        result editor.old editor.new happened.old happened.new }
    ensures refused { RefusedKeeps result editor.new editor.old }
    ensures quiet { RefusedKeeps result happened.new happened.old }
    ensures sealed { IfAnswered result (AllSealed editor.new) }
    ensures sendable { CanBeSent result }
{
    match call_unsealed(editor, session, name, params, happened) {
        Ok(done) => {
            editor.seal_all()?;
            Ok(done)
        }
        Err(fail) => Err(fail),
    }
}
