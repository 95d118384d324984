//! What splices leave of a text.
ghost use Rattle.std.specs.Prelude.{◌≡◌};
ghost use Rattle.std.specs.Ordering.{int_eq};
ghost use Rattle.nv_watch.specs.inside.Sharing.{AreBeside, AreSpliced, lesser_ends, no_ends, touch_with, touched, touched_by};

use crate::mirror::{Ends, Followed};
use nv_lines::Lines;
use nv_world::Moved;

/// Which of some splices are in a buffer.
#[derive(Clone, Copy)]
pub enum Touch {
    Nowhere,
    Once(Moved),
    Often,
}

// The same with one splice of the buffer more.
fn touched_by(touch: Touch, splice: Moved) -> Touch
    ensures { result ≡ touched_by touch splice }
{
    match touch {
        Touch::Nowhere => Touch::Once(splice),
        Touch::Once(_) => Touch::Often,
        Touch::Often => Touch::Often,
    }
}

/// Whether a splice is in the buffer of a mirror.
pub fn is_splice_of(splice: Moved, followed: &Followed) -> bool
    ensures { result ≡ int_eq splice.buffer followed.now.buffer }
{
    splice.buffer == followed.buffer
}

// The same with one splice more, whichever buffer it is in.
fn touch_with(touch: Touch, splice: Moved, followed: &Followed) -> Touch
    ensures { result ≡ touch_with followed.now.buffer touch splice }
{
    if is_splice_of(splice, followed) {
        touched_by(touch, splice)
    } else {
        touch
    }
}

/// Which of some splices are in the buffer of a mirror.
pub fn touch_of(splices: &[Moved], followed: &Followed) -> Touch
    ensures { result ≡ touched followed.now.buffer splices.now }
{
    let mut touch = Touch::Nowhere;
    for splice in splices {
        touch = touch_with(touch, *splice, followed);
    }
    touch
}

/// No rows at all.
pub fn no_ends() -> Ends
    ensures { result ≡ no_ends }
{
    Ends { front: 0, back: 0 }
}

/// The lesser of each.
pub fn lesser_ends(ends: Ends, others: Ends) -> Ends
    ensures { result ≡ lesser_ends ends others }
{
    Ends {
        front: ends.front.min(others.front),
        back: ends.back.min(others.back),
    }
}

// The rows of a text that surely stand before a splice that made it, and behind that, at most as
// many as these.
#[tactic(auto, using(crate::proofs::SharedRows::none_beside, crate::proofs::SharedRows::some_beside))]
fn beside(ends: Ends, text: &Lines, splice: Moved) -> Ends
    ensures { AreBeside text.now splice ends result }
{
    let Some(until) = splice.at.checked_add(splice.new) else {
        return no_ends();
    };
    if until > text.flat_len() {
        return no_ends();
    }
    let front = text.row_at(splice.at);
    let back = text
        .count()
        .saturating_sub(2)
        .saturating_sub(text.row_at(until));
    lesser_ends(ends, Ends { front, back })
}

/// What splices leave of rows that were the same, in the text that they made.
pub fn spliced(ends: Ends, text: &Lines, touch: Touch) -> Ends
    ensures { AreSpliced text.now touch ends result }
{
    match touch {
        Touch::Nowhere => ends,
        Touch::Once(splice) => beside(ends, text, splice),
        Touch::Often => no_ends(),
    }
}
