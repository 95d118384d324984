//! Lines that are put between two places: how long they become where they join what stands before
//! and behind them, and whether they may be put.
ghost use Rattle.std.specs.Prelude.{◌≡◌, ◌≤◌, ◌<◌, ◌^◌, ◌+◌, ◌<ℤ◌, ◌↔◌, [], ◌∷◌, false, All, length, take, drop, IfOk, IsTrue};
ghost use Rattle.std.specs.List.{list_any};
ghost use Rattle.nv_places.specs.Flat.{flat, line_at, lines_of};
ghost use Rattle.nv_places.specs.Places.{is_before};
ghost use Rattle.nv_buffer.specs.Content.{next_part};
ghost use Rattle.nv_buffer.specs.Splices.{IsInLine, IsNarrowLine, with_front, with_back, lines_between};
ghost use Rattle.nv_model.specs.Answers.{Answer};
ghost use Rattle.nv_model.specs.Answering.{event_of_splice};
ghost use Rattle.nv_model.specs.Buffers.{text_splice, text_after};
ghost use Rattle.nv_model.specs.Standing.{seen_buffer_now};
ghost use Rattle.nv_api_buf.specs.Texts.{event_passes};
ghost use Rattle.nv_api_buf.specs.inside.Parts.{is_longer, joined_line};
ghost use Rattle.nv_api_buf.specs.inside.Deciding.{Leaves, unless_barred};

use crate::limits::{any_of, tick_passes, too_many};
use nv_args::{Fail, limit_reached, not_modifiable};
use nv_buffer::{Buffer, Line, LineList, Lines, Pos};
use nv_model::Limits;
use std::alloc::Global;

// Whether these lines are one empty line.
fn is_one_empty(lines: &LineList) -> bool
    ensures { IsTrue result ↔ (lines.now ≡ [] ∷ []) }
{
    let Some(line) = lines.get(0) else {
        return false;
    };
    lines.len() == 1 && line.is_empty()
}

// The bytes of a row before a place.
fn before(text: &Lines, place: Pos) -> &[u8]
    requires { IsInLine text.now place }
    ensures { result.now ≡ take place.col (line_at text.now place.row) }
{
    match text.get(place.row as usize) {
        Some(line) => &line[..place.col as usize],
        None => &[],
    }
}

// The bytes of a row from a place on.
fn behind(text: &Lines, place: Pos) -> &[u8]
    requires { IsInLine text.now place }
    ensures { result.now ≡ drop place.col (line_at text.now place.row) }
{
    match text.get(place.row as usize) {
        Some(line) => &line[place.col as usize..],
        None => &[],
    }
}

// Whether the line of this place, of so many, is too long once the first has joined `front` and the
// last `back`.
fn is_too_long(
    most: u32,
    line: &Line,
    place: usize,
    count: usize,
    front: &[u8],
    back: &[u8],
) -> bool
    requires within { place < count }
    requires front { length front.now < 2 ^ 32 }
    requires back { length back.now < 2 ^ 32 }
    ensures { result ≡ is_longer most (joined_line line.now place count front.now back.now) }
{
    let mut bytes = line.len();
    if bytes > most as usize {
        return true;
    }
    if place == 0 {
        bytes += front.len();
    }
    if place + 1 == count {
        bytes += back.len();
    }
    bytes > most as usize
}

// Whether one of the lines is too long, once the first has joined `front` and the last `back`.
fn any_too_long(most: u32, lines: &LineList, front: &[u8], back: &[u8]) -> bool
    requires some { 0 < length lines.now }
    requires front { length front.now < 2 ^ 32 }
    requires back { length back.now < 2 ^ 32 }
    ensures { result ≡ list_any (is_longer most)
        (with_back (with_front front.now lines.now) back.now) }
{
    let count = lines.len();
    for place in 0..count {
        let Some(line) = lines.get(place) else {
            return false;
        };
        if is_too_long(most, line, place, count, front, back) {
            return true;
        }
    }
    false
}

// Whether lines between two places would pass a limit. The first and the last line count with what
// they join.
fn passes(limits: Limits, buffer: &Buffer, start: Pos, stop: Pos, lines: &LineList) -> bool
    requires start_in { IsInLine buffer.now.text start }
    requires stop_in { IsInLine buffer.now.text stop }
    requires order { is_before stop start ≡ false }
    requires some { 0 < length lines.now }
    ensures row { result ≡ event_passes limits
        (length (lines_of (text_after (flat buffer.now.text)
        (text_splice (next_part buffer.now) buffer.now.text start stop lines.now))))
        (event_of_splice (seen_buffer_now buffer.now)
        (text_splice (next_part buffer.now) buffer.now.text start stop lines.now)) }
    ensures count { result ≡ false → start.row + length lines.now + length buffer.now.text
        < stop.row + 1 + 2 ^ 32 }
    ensures columns { result ≡ false
        → All IsNarrowLine (lines_between buffer.now.text start stop lines.now) }
    ensures tick { result ≡ false → buffer.now.tick <ℤ i64.MAX }
{
    buffer.known();
    let text = buffer.text();
    let kept = text.count() - ((stop.row - start.row) as usize + 1);
    let many = lines.len();
    any_of(
        too_many(limits, kept, many),
        any_too_long(
            limits.line_bytes,
            lines,
            before(text, start),
            behind(text, stop),
        ),
        tick_passes(limits, buffer, 1),
    )
}

// Whether no byte is removed and none put.
fn is_nothing(start: Pos, stop: Pos, new: &LineList) -> bool
    ensures { IsTrue result ↔ ((start ≡ stop) × (new.now ≡ [] ∷ [])) }
{
    start == stop && is_one_empty(new)
}

/// Refuses lines between two places where the buffer isn't modifiable, and where they would pass a
/// limit. One empty line at one place is never refused.
pub fn may_put_text(
    alloc: Global,
    limits: Limits,
    buffer: &Buffer,
    start: Pos,
    stop: Pos,
    lines: &LineList,
) -> Result<(), Fail>
    requires start_in { IsInLine buffer.now.text start }
    requires stop_in { IsInLine buffer.now.text stop }
    requires order { is_before stop start ≡ false }
    requires some { 0 < length lines.now }
    ensures row { (answer : Answer) → Leaves (unless_barred limits (seen_buffer_now buffer.now)
        (text_splice (next_part buffer.now) buffer.now.text start stop lines.now) answer)
        (λ _. answer) result }
    ensures count { IfOk result (λ _. start.row + length lines.now + length buffer.now.text
        < stop.row + 1 + 2 ^ 32) }
    ensures columns { IfOk result
        (λ _. All IsNarrowLine (lines_between buffer.now.text start stop lines.now)) }
    ensures tick { IfOk result (λ _. ¬ ((start ≡ stop) × (lines.now ≡ [] ∷ []))
        → buffer.now.tick <ℤ i64.MAX) }
{
    let _narrow = buffer.text();
    if is_nothing(start, stop, lines) {
        return Ok(());
    }
    if !buffer.modifiable() {
        return Err(not_modifiable(alloc));
    }
    if passes(limits, buffer, start, stop, lines) {
        return Err(limit_reached(alloc));
    }
    Ok(())
}
