//! Where marks stand, beside where splices left them.
ghost use Rattle.std.specs.Prelude.{◌≡◌, IfOk, Some, option_map};
ghost use Rattle.std.specs.List.{list_any};
ghost use Rattle.nv_places.specs.Places.{offset_of};
ghost use Rattle.nv_model.specs.Standing.{seen_now, seen_buffer_now};
ghost use Rattle.nv_watch.specs.FollowedMarks.{is_elsewhere, is_elsewhere_in, is_mark_elsewhere, is_same_flag, is_same_offset, stands_as};

use crate::followed_mark::FollowedMark;
use nv_buffer::Buffer;
use nv_editor::Editor;
use nv_lines::Lines;
use nv_marks::{Far, Mark};
use nv_places::Pos;
use std::alloc::AllocError;

/// The offset of a place in the flat text of lines. `AllocError` where it passes 64 bits.
pub fn offset_in(text: &Lines, place: Pos) -> Result<u64, AllocError>
    ensures { IfOk result (λ offset. offset ≡ offset_of text.now place) }
{
    let row = (place.row as usize).min(text.count());
    text.offset(row)
        .checked_add(u64::from(place.col))
        .ok_or(AllocError)
}

// Whether an end stands at an offset, or neither is there.
fn stops_at(text: &Lines, stop: Option<Far>, wanted: Option<u64>) -> Result<bool, AllocError>
    ensures { IfOk result (λ answer. answer
        ≡ is_same_offset (option_map (λ far. offset_of text.now far.pos) stop) wanted) }
{
    match (stop, wanted) {
        (Some(far), Some(wanted)) => Ok(offset_in(text, far.pos)? == wanted),
        (None, None) => Ok(true),
        _ => Ok(false),
    }
}

// Whether two flags are the same.
fn is_same_flag(a: bool, b: bool) -> bool
    ensures { result ≡ is_same_flag a b }
{
    if a { b } else { !b }
}

// Whether a mark stands where splices left one that is followed.
fn stands_as(text: &Lines, mark: Mark, followed: &FollowedMark) -> Result<bool, AllocError>
    ensures { IfOk result (λ answer. answer ≡ stands_as text.now mark followed.now.state) }
{
    let start = offset_in(text, mark.start)?;
    let stops = stops_at(text, mark.stop, followed.stop)?;
    let is_same = is_same_flag(mark.hidden, followed.hidden);
    Ok(!followed.gone && start == followed.start && stops && is_same)
}

// Whether a mark under the same setting stands elsewhere than splices left it, or is shown
// otherwise. Nothing is asked of one that is left out.
fn is_mark_elsewhere(text: &Lines, mark: Mark, followed: &FollowedMark) -> Result<bool, AllocError>
    ensures { IfOk result (λ answer. answer
        ≡ is_mark_elsewhere followed.now text.now (Some mark)) }
{
    if mark.set != followed.set || followed.is_left_out {
        return Ok(false);
    }
    let stands = stands_as(text, mark, followed)?;
    Ok(!stands)
}

// The same of the mark of a buffer that has its name, where there is one.
fn is_elsewhere_in(buffer: &Buffer, followed: &FollowedMark) -> Result<bool, AllocError>
    ensures { IfOk result (λ answer. answer
        ≡ is_elsewhere_in followed.now (Some (seen_buffer_now buffer.now))) }
{
    match buffer.marks().find(followed.ns, followed.id) {
        Some(mark) => is_mark_elsewhere(buffer.text(), mark, followed),
        None => Ok(false),
    }
}

// The same of an editor.
fn is_elsewhere(editor: &Editor, followed: &FollowedMark) -> Result<bool, AllocError>
    ensures { IfOk result (λ answer. answer ≡ is_elsewhere (seen_now editor.now) followed.now) }
{
    match editor.buffer(followed.buffer) {
        Some(buffer) => is_elsewhere_in(buffer, followed),
        None => Ok(false),
    }
}

/// Whether one of some marks that are followed stands elsewhere than splices left it, or is shown
/// otherwise.
pub fn any_elsewhere(editor: &Editor, followed: &[FollowedMark]) -> Result<bool, AllocError>
    ensures { IfOk result (λ answer. answer
        ≡ list_any (is_elsewhere (seen_now editor.now)) followed.now) }
{
    for one in followed {
        if is_elsewhere(editor, one)? {
            return Ok(true);
        }
    }
    Ok(false)
}
