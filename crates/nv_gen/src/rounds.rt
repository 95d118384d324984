//! What is asked in each round, as it is drawn.
ghost use Rattle.std.specs.Prelude.{◌≡◌, ◌<◌, IfOk, OnOk};
ghost use Rattle.nv_value.specs.View.{contents};
ghost use Rattle.nv_args.specs.Texts.{strings};
ghost use Rattle.nv_gen.specs.Draws.{draw, several};
ghost use Rattle.nv_gen.specs.Questions.{drawn_letter, drawn_line, drawn_edit, drawn_mark, drawn_command, drawn_cursor, drawn_round, question_by, reading};
ghost use Rattle.nv_gen.specs.inside.Views.{question_seen};

use crate::asking::{Asked, ask, number, pair, string};
use crate::draws::Draws;
use nv_value::{Bytes, Items, Value};
use std::alloc::{AllocError, Global};

// A number below `k`, as an argument takes it.
fn small(draws: &mut Draws, k: u32) -> u32
    requires { 0 < k }
    ensures drawn { result ≡ (draw k draws.old.number).0 }
    ensures later { draws.new.number ≡ (draw k draws.old.number).1 }
    ensures below { result < k }
{
    draws.draw(u64::from(k)) as u32
}

// A line of small letters.
fn line(alloc: Global, draws: &mut Draws) -> Result<Bytes, AllocError>
    ensures drawn { IfOk result (λ line. line ≡ (drawn_line draws.old.number).0) }
    ensures later { OnOk result (draws.new.number ≡ (drawn_line draws.old.number).1) }
{
    let len = small(draws, 20);
    let mut letters = Vec::with_capacity(alloc, len as usize)?;
    for _ in 0..len {
        letters.push(b'a' + small(draws, 26) as u8)?;
    }
    Bytes::from_vec(letters)
}

// So many lines.
fn lines(alloc: Global, draws: &mut Draws, count: u32) -> Result<Items, AllocError>
    ensures drawn { IfOk result (λ lines. contents lines.items
        ≡ strings (several count drawn_line draws.old.number).0) }
    ensures later { OnOk result (draws.new.number
        ≡ (several count drawn_line draws.old.number).1) }
{
    let mut lines = Vec::with_capacity(alloc, count as usize)?;
    for _ in 0..count {
        lines.push(Value::Text(line(alloc, draws)?))?;
    }
    Ok(lines)
}

fn edit(alloc: Global, draws: &mut Draws) -> Result<Asked, AllocError>
    ensures drawn { IfOk result (λ a. question_seen a ≡ (drawn_edit draws.old.number).0) }
    ensures later { OnOk result (draws.new.number ≡ (drawn_edit draws.old.number).1) }
{
    let from = small(draws, 12);
    let more = small(draws, 3);
    let count = small(draws, 4);
    let lines = lines(alloc, draws, count)?;
    let params = vec![in alloc;
        number(0),
        number(from),
        number(from + more),
        Value::Truth(false),
        Value::List(lines),
    ]?;
    ask(alloc, 1, b"nvim_buf_set_lines", params)
}

fn mark(alloc: Global, draws: &mut Draws) -> Result<Asked, AllocError>
    ensures drawn { IfOk result (λ a. question_seen a ≡ (drawn_mark draws.old.number).0) }
    ensures later { OnOk result (draws.new.number ≡ (drawn_mark draws.old.number).1) }
{
    let row = small(draws, 6);
    let col = small(draws, 10);
    let id = small(draws, 50);
    let gravity = small(draws, 2);
    let options = vec![in alloc;
        pair(alloc, b"id", number(1 + id))?,
        pair(alloc, b"strict", Value::Truth(false))?,
        pair(alloc, b"right_gravity", Value::Truth(gravity == 1))?,
    ]?;
    let params = vec![in alloc;
        number(0),
        number(1),
        number(row),
        number(col),
        Value::Pairs(options),
    ]?;
    ask(alloc, 1, b"nvim_buf_set_extmark", params)
}

fn command(alloc: Global, draws: &mut Draws) -> Result<Asked, AllocError>
    ensures drawn { IfOk result (λ a. question_seen a ≡ (drawn_command draws.old.number).0) }
    ensures later { OnOk result (draws.new.number ≡ (drawn_command draws.old.number).1) }
{
    let side = small(draws, 2);
    let words = string(alloc, if side == 0 { b"undo" } else { b"redo" })?;
    ask(alloc, 1, b"nvim_command", vec![in alloc; words]?)
}

fn cursor(alloc: Global, draws: &mut Draws) -> Result<Asked, AllocError>
    ensures drawn { IfOk result (λ a. question_seen a ≡ (drawn_cursor draws.old.number).0) }
    ensures later { OnOk result (draws.new.number ≡ (drawn_cursor draws.old.number).1) }
{
    let row = small(draws, 3);
    let col = small(draws, 8);
    let place = vec![in alloc; number(1 + row), number(col)]?;
    let params = vec![in alloc; number(0), Value::List(place)]?;
    ask(alloc, 1, b"nvim_win_set_cursor", params)
}

fn read(alloc: Global) -> Result<Asked, AllocError>
    ensures { IfOk result (λ a. question_seen a ≡ reading) }
{
    let params = vec![in alloc; number(0), number(0), Value::Int(-1), Value::Truth(false)]?;
    ask(alloc, 2, b"nvim_buf_get_lines", params)
}

// What is asked in a round of this kind.
fn by_kind(alloc: Global, draws: &mut Draws, kind: u32) -> Result<Asked, AllocError>
    ensures drawn { IfOk result (λ a. question_seen a ≡ (question_by kind draws.old.number).0) }
    ensures later { OnOk result (draws.new.number ≡ (question_by kind draws.old.number).1) }
{
    match kind {
        0..=4 => edit(alloc, draws),
        5 | 6 => mark(alloc, draws),
        7 => command(alloc, draws),
        8 => cursor(alloc, draws),
        _ => read(alloc),
    }
}

/// What is asked in the next round.
pub fn round(alloc: Global, draws: &mut Draws) -> Result<Asked, AllocError>
    ensures drawn { IfOk result (λ a. question_seen a ≡ (drawn_round draws.old.number).0) }
    ensures later { OnOk result (draws.new.number ≡ (drawn_round draws.old.number).1) }
{
    let kind = small(draws, 10);
    by_kind(alloc, draws, kind)
}
