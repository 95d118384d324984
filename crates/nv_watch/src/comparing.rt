//! Mirrors beside the buffers that they are of.
ghost use Rattle.std.specs.Prelude.{◌≡◌, ◌≤◌, ℕ, pos, nat_abs, List, length, drop, map, Some, true, slice_get, bytes_eq};
ghost use Rattle.std.specs.List.{list_any};
ghost use Rattle.std.specs.Ordering.{int_eq};
ghost use Rattle.nv_rpc.specs.MessageView.{sent_of};
ghost use Rattle.nv_lines.specs.Chunks.{chunk_lines};
ghost use Rattle.nv_model.specs.Standing.{seen_now, seen_buffer_now};
ghost use Rattle.nv_subs.specs.Mirrors.{holding};
ghost use Rattle.nv_watch.specs.Folds.{are_same_lines, tells_lines};
ghost use Rattle.nv_watch.specs.inside.Sharing.{HasCompared, MirrorShares, ShareEnds, SharesIf, lines_there};

use crate::mirror::{Ends, Followed};
use nv_buffer::Buffer;
use nv_editor::Editor;
use nv_lines::{Chunk, Line, LineList, Lines};
use nv_rpc::Message;
use nv_subs::Follower;

// Whether two lines have the same bytes.
fn is_same_line(line: &Line, other: &Line) -> bool
    ensures { result ≡ bytes_eq line.now other.now }
{
    line.as_slice() == other.as_slice()
}

// Whether two lists of lines are the same.
fn are_same_rows(lines: &[Line], others: &[Line]) -> bool
    ensures { result ≡ are_same_lines lines.now others.now }
{
    if lines.len() != others.len() {
        return false;
    }
    for row in 0..lines.len() {
        if !is_same_line(&lines[row], &others[row]) {
            return false;
        }
    }
    true
}

// Whether chunks, one after another, hold these lines.
fn hold_lines(chunks: &[Chunk], lines: &[Line]) -> bool
    requires { length (chunk_lines chunks.now) ≡ length lines.now }
    ensures { result ≡ are_same_lines (chunk_lines chunks.now) lines.now }
{
    let mut left = lines;
    for chunk in chunks {
        let held = chunk.lines.as_slice();
        let (here, others) = left.split_at(held.len());
        if !are_same_rows(held, here) {
            return false;
        }
        left = others;
    }
    true
}

// Whether a text has a line at a row.
fn is_line_at(text: &Lines, row: usize, line: &Line) -> bool
    ensures { (there : List ℕ) → slice_get text.now row ≡ Some there
        → result ≡ bytes_eq there line.now }
{
    match text.line(row) {
        Some(there) => is_same_line(there, line),
        None => false,
    }
}

// Whether the rows of two texts from one up to before another are the same, and so all from the
// first on, where those behind are.
fn are_same_between(text: &Lines, lines: &[Line], from: usize, to: usize) -> bool
    requires order { from ≤ to }
    requires within { to ≤ length lines.now }
    requires count { length text.now ≡ length lines.now }
    ensures { are_same_lines (drop to text.now) (drop to lines.now) ≡ true
        → result ≡ are_same_lines (drop from text.now) (drop from lines.now) }
{
    for row in from..to {
        if !is_line_at(text, row, &lines[row]) {
            return false;
        }
    }
    true
}

// Whether two texts of so many rows each have the same lines, where these rows of theirs are known
// to be the same.
#[tactic(auto, using(crate::proofs::SameLines::told_between))]
fn are_same_but(text: &Lines, lines: &[Line], ends: Ends) -> bool
    requires { length text.now ≡ length lines.now }
    ensures { ShareEnds ends lines.now text.now → result ≡ are_same_lines text.now lines.now }
{
    let count = lines.len();
    let from = ends.front.min(count);
    let to = count.saturating_sub(ends.back).max(from);
    are_same_between(text, lines, from, to)
}

// Whether two texts have the same lines, where these rows of theirs are known to be the same: each
// chunk is looked at where none are.
fn are_same_lines(text: &Lines, lines: &LineList, ends: Ends) -> bool
    ensures { ShareEnds ends lines.now text.now → result ≡ are_same_lines text.now lines.now }
{
    if text.count() != lines.len() {
        return false;
    }
    if ends.front == 0 && ends.back == 0 {
        return hold_lines(text.chunks(), lines.as_slice());
    }
    are_same_but(text, lines.as_slice(), ends)
}

// Whether a number is the changedtick of a buffer.
fn is_tick_of(buffer: &Buffer, tick: i64) -> bool
    ensures { result ≡ int_eq tick (pos (nat_abs buffer.now.tick)) }
{
    buffer.known();
    tick == buffer.tick()
}

// Whether lines are those of a buffer, where it has this changedtick.
#[tactic(auto, using(crate::proofs::Looking::lines_compared, crate::proofs::Looking::lines_apart))]
fn compare_lines(buffer: &Buffer, lines: &LineList, tick: i64, ends: Ends) -> Option<bool>
    ensures { ShareEnds ends lines.now buffer.now.text
        → HasCompared (holding lines.now tick) (Some (seen_buffer_now buffer.now)) result }
{
    if is_tick_of(buffer, tick) {
        Some(are_same_lines(buffer.text(), lines, ends))
    } else {
        None
    }
}

// The same of the lines of a follower, where it holds any.
#[tactic(auto, using(crate::proofs::Looking::not_holding, crate::proofs::Looking::not_known, crate::proofs::Looking::when_holding))]
fn compare_with(follower: &Follower, buffer: &Buffer, ends: Ends) -> Option<bool>
    ensures { MirrorShares ends follower.now.mirror buffer.now.text
        → HasCompared follower.now.mirror (Some (seen_buffer_now buffer.now)) result }
{
    let Some(lines) = follower.text() else {
        return None;
    };
    let Some(tick) = follower.tick() else {
        return None;
    };
    compare_lines(buffer, lines, tick, ends)
}

/// Whether a session holds the lines of the buffer of its mirror, where that is there and has the
/// mirror's changedtick.
#[tactic(auto, using(crate::proofs::Looking::none_there))]
pub fn compare(followed: &Followed, editor: &Editor) -> Option<bool>
    ensures { SharesIf followed.now (lines_there ((seen_now editor.now).buffer followed.now.buffer))
        → HasCompared followed.now.follower.mirror
        ((seen_now editor.now).buffer followed.now.buffer) result }
{
    match editor.buffer(followed.buffer) {
        Some(there) => compare_with(&followed.follower, there, followed.ends),
        None => None,
    }
}

// Whether a message tells lines of the buffer of a mirror.
fn tells_lines(message: &Message, followed: &Followed) -> bool
    ensures { result ≡ tells_lines followed.now.buffer (sent_of message.now) }
{
    match message {
        Message::Lines { buffer, .. } => *buffer == followed.buffer,
        Message::Reply { .. } => false,
        Message::Tick { .. } => false,
        Message::Detach { .. } => false,
        Message::Fault { .. } => false,
    }
}

/// Whether one of some messages tells lines of the buffer of a mirror.
pub fn do_tell_lines(messages: &[Message], followed: &Followed) -> bool
    ensures { result ≡ list_any (tells_lines followed.now.buffer) (map sent_of messages.now) }
{
    for message in messages {
        if tells_lines(message, followed) {
            return true;
        }
    }
    false
}
