//! The script of a number.
ghost use Rattle.std.specs.Prelude.{◌≡◌, ◌++◌, ◌≤◌, [], ◌∷◌, IfOk, OnOk};
ghost use Rattle.std.specs.List.{AllByRecursion};
ghost use Rattle.nv_core.specs.Contents.{plain_entries, plain_event};
ghost use Rattle.nv_gen.specs.Questions.{to_follow_buffer, to_show_12_rows, to_name_marks};
ghost use Rattle.nv_gen.specs.Story.{IsLightEntry, entry_by, script_of, three_opens, three_closes, turns_from, questions_in};
ghost use Rattle.nv_gen.specs.inside.Views.{question_seen};

use crate::asking::{Asked, ask, number, pair, string};
use crate::draws::Draws;
use crate::rounds::round;
use nv_core::{Entry, Event};
use nv_rpc::Frame;
use nv_value::{Pair, Value};
use std::alloc::{AllocError, Global};

// How many rounds a script has.
const ROUNDS: u32 = 2000;

// A session, of its caller, does something.
fn push(entries: &mut Vec<Entry>, session: u32, event: Event) -> Result<(), AllocError>
    ensures { OnOk result (plain_entries entries.new.items
        ≡ plain_entries entries.old.items ++ entry_by session (plain_event event) ∷ []) }
{
    let caller = session;
    entries.push(Entry { caller, event })?;
    Ok(())
}

// A request under its msgid, and a take of each session after it.
fn turn(entries: &mut Vec<Entry>, msgid: u32, asked: Asked) -> Result<(), AllocError>
    ensures { OnOk result (plain_entries entries.new.items
        ≡ plain_entries entries.old.items ++ turns_from msgid (question_seen asked ∷ [])) }
{
    let Asked {
        session,
        method,
        params,
    } = asked;
    let frame = Frame::Request {
        msgid,
        method,
        params,
    };
    let event = Event::Request {
        session: u64::from(session),
        frame,
    };
    push(entries, session, event)?;
    push(entries, 1, Event::Take { session: 1 })?;
    push(entries, 2, Event::Take { session: 2 })?;
    push(entries, 3, Event::Take { session: 3 })
}

fn open(entries: &mut Vec<Entry>) -> Result<(), AllocError>
    ensures { OnOk result (plain_entries entries.new.items
        ≡ plain_entries entries.old.items ++ three_opens) }
{
    push(entries, 1, Event::Open)?;
    push(entries, 2, Event::Open)?;
    push(entries, 3, Event::Open)
}

fn close(entries: &mut Vec<Entry>) -> Result<(), AllocError>
    ensures { OnOk result (plain_entries entries.new.items
        ≡ plain_entries entries.old.items ++ three_closes) }
{
    push(entries, 1, Event::Close { session: 1 })?;
    push(entries, 2, Event::Close { session: 2 })?;
    push(entries, 3, Event::Close { session: 3 })
}

// The second session attaches to the buffer.
fn attach(alloc: Global) -> Result<Asked, AllocError>
    ensures { IfOk result (λ a. question_seen a ≡ to_follow_buffer) }
{
    let options = Value::Pairs(Vec::new(alloc));
    let params = vec![in alloc; number(0), Value::Truth(true), options]?;
    ask(alloc, 2, b"nvim_buf_attach", params)
}

// The third attaches a UI.
fn attach_ui(alloc: Global) -> Result<Asked, AllocError>
    ensures { IfOk result (λ a. question_seen a ≡ to_show_12_rows) }
{
    let options = vec![in alloc; pair(alloc, b"ext_linegrid", Value::Truth(true))?]?;
    let params = vec![in alloc; number(40), number(12), Value::Pairs(options)]?;
    ask(alloc, 3, b"nvim_ui_attach", params)
}

// The first makes a namespace.
fn name_marks(alloc: Global) -> Result<Asked, AllocError>
    ensures { IfOk result (λ a. question_seen a ≡ to_name_marks) }
{
    let params = vec![in alloc; string(alloc, b"g")?]?;
    ask(alloc, 1, b"nvim_create_namespace", params)
}

// So many rounds, with msgids from 4 on.
fn push_rounds(
    alloc: Global,
    entries: &mut Vec<Entry>,
    seed: u64,
    rounds: u32,
) -> Result<(), AllocError>
    requires { rounds ≤ 2000 }
    ensures { OnOk result (plain_entries entries.new.items
        ≡ plain_entries entries.old.items ++ turns_from 4 (questions_in rounds seed)) }
{
    let mut draws = Draws { number: seed };
    for done in 0..rounds {
        let asked = round(alloc, &mut draws)?;
        turn(entries, 4 + done, asked)?;
    }
    Ok(())
}

/// The script of a number: what three sessions do, with 2,000 requests that are drawn from it. Each
/// entry is offered to a world in turn; a take that finds nothing leaves no entry there.
pub fn script(alloc: Global, seed: u64) -> Result<Vec<Entry>, AllocError>
    ensures script { IfOk result (λ entries. plain_entries entries.items ≡ script_of seed) }
    ensures light { IfOk result (λ entries.
        AllByRecursion IsLightEntry (plain_entries entries.items)) }
{
    let mut entries = Vec::new(alloc);
    open(&mut entries)?;
    turn(&mut entries, 1, attach(alloc)?)?;
    turn(&mut entries, 2, attach_ui(alloc)?)?;
    turn(&mut entries, 3, name_marks(alloc)?)?;
    push_rounds(alloc, &mut entries, seed, ROUNDS)?;
    close(&mut entries)?;
    Ok(entries)
}
