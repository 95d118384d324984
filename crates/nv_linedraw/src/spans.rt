//! The spans of a line that reach into a stretch of it.

ghost use Rattle.nv_linedraw.specs.LineCells.{attr_at};
ghost use Rattle.nv_linedraw.specs.inside.Stretches.{HoldsStretch, IsInStretch, MissesStretch, ShowAlike};
ghost use Rattle.std.specs.Prelude.{◌≡◌, ◌++◌, ◌∷◌, [], ℕ, All, IfOk, IsTrue, OnOk};

use crate::looks::Span;
use nv_hl::combine;
use nv_text::Piece;
use std::alloc::{AllocError, Global};

/// The bytes of a line from one up to another, which is in it too.
#[derive(Clone, Copy)]
pub struct Stretch {
    pub first: usize,
    pub last: usize,
}

// A stretch, widened to a byte more.
fn widened(stretch: Stretch, offset: usize) -> Stretch
    ensures more { IsInStretch result offset }
    ensures kept { (other : ℕ) → IsInStretch stretch other → IsInStretch result other }
{
    Stretch {
        first: stretch.first.min(offset),
        last: stretch.last.max(offset),
    }
}

// The stretch of the bytes at which pieces begin.
fn starts_of(pieces: &[Piece]) -> Stretch
    ensures { All (λ p. IsInStretch result p.from) pieces.now }
{
    let mut stretch = Stretch {
        first: usize::MAX,
        last: 0,
    };
    for piece in pieces {
        stretch = widened(stretch, piece.from);
    }
    stretch
}

fn holds_stretch(span: &Span, stretch: Stretch) -> bool
    ensures { IsTrue result → HoldsStretch span.now stretch }
{
    span.from as usize <= stretch.first && stretch.last < span.to as usize
}

fn misses_stretch(span: &Span, stretch: Stretch) -> bool
    ensures { IsTrue result → MissesStretch span.now stretch }
{
    stretch.last < span.from as usize || span.to as usize <= stretch.first
}

// Puts a span that holds all of a stretch behind others; where the last one does too, the two
// become one.
fn push_whole(spans: &mut Vec<Span>, span: &Span, stretch: Stretch) -> Result<(), AllocError>
    requires { HoldsStretch span.now stretch }
    ensures { OnOk result (ShowAlike stretch spans.new.items (spans.old.items ++ span.now ∷ [])) }
{
    let Some(under) = spans.pop() else {
        spans.push(*span)?;
        return Ok(());
    };
    if !holds_stretch(&under, stretch) {
        spans.push(under)?;
        spans.push(*span)?;
        return Ok(());
    }
    let attr = combine(under.attr, span.attr);
    spans.push(Span { attr, ..under })?;
    Ok(())
}

// Puts a span behind others, unless it holds nothing of a stretch.
fn push_among(spans: &mut Vec<Span>, span: &Span, stretch: Stretch) -> Result<(), AllocError>
    ensures { OnOk result (ShowAlike stretch spans.new.items (spans.old.items ++ span.now ∷ [])) }
{
    if misses_stretch(span, stretch) {
        return Ok(());
    }
    if holds_stretch(span, stretch) {
        return push_whole(spans, span, stretch);
    }
    spans.push(*span)?;
    Ok(())
}

/// The spans that show the same on these pieces: without those that hold the start of none, and
/// with neighbours that hold all of them as one.
pub fn spans_among(alloc: Global, spans: &[Span], pieces: &[Piece]) -> Result<Vec<Span>, AllocError>
    ensures { IfOk result (λ among. All (λ p. attr_at among.items p.from
        ≡ attr_at spans.now p.from) pieces.now) }
{
    let stretch = starts_of(pieces);
    let mut among = Vec::new(alloc);
    for span in spans {
        push_among(&mut among, span, stretch)?;
    }
    Ok(among)
}
