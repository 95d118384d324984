//! What two scenes have in common.

ghost use Rattle.nv_screen.specs.inside.Steadiness.{AreSameLines, HaveSameFrame, HaveSameShape};
ghost use Rattle.nv_hl.specs.Attributes.{same_attr};
ghost use Rattle.std.specs.Prelude.{◌≡◌, ◌&&◌, ◌==◌, true};

use crate::scene::{Bars, Pane, Scene, SceneLine};
use nv_hl::is_same_attr;
use nv_layout::Rect;
use nv_linedraw::{Looks, Span};

fn is_same_span(a: &Span, b: &Span) -> bool
    ensures { result ≡ true → a.now ≡ b.now }
{
    if a.from != b.from || a.to != b.to || a.eol != b.eol {
        return false;
    }
    is_same_attr(&a.attr, &b.attr)
}

fn are_same_spans(a: &[Span], b: &[Span]) -> bool
    ensures { result ≡ true → a.now ≡ b.now }
{
    if a.len() != b.len() {
        return false;
    }
    for k in 0..a.len() {
        if !is_same_span(&a[k], &b[k]) {
            return false;
        }
    }
    true
}

/// Whether lines have the same bytes and spans.
pub fn are_same_lines(a: &SceneLine, b: &SceneLine) -> bool
    ensures { result ≡ true → AreSameLines a.now b.now }
{
    if a.bytes.as_slice() != b.bytes.as_slice() {
        return false;
    }
    are_same_spans(a.spans.as_slice(), b.spans.as_slice())
}

fn is_same_rect(a: &Rect, b: &Rect) -> bool
    ensures { result ≡ ((a.now.row == b.now.row) && (a.now.col == b.now.col)
        && (a.now.width == b.now.width) && (a.now.height == b.now.height)) }
{
    a.row == b.row && a.col == b.col && a.width == b.width && a.height == b.height
}

fn are_same_rects(a: &[Rect], b: &[Rect]) -> bool
    ensures { result ≡ true → a.now ≡ b.now }
{
    if a.len() != b.len() {
        return false;
    }
    for k in 0..a.len() {
        if !is_same_rect(&a[k], &b[k]) {
            return false;
        }
    }
    true
}

/// Whether windows have the same place, and Tabs as wide.
pub fn have_same_shape(a: &Pane, b: &Pane) -> bool
    ensures { result ≡ true → HaveSameShape a.now b.now }
{
    if a.tabstop != b.tabstop {
        return false;
    }
    is_same_rect(&a.rect, &b.rect)
}

fn are_same_looks(a: &Looks, b: &Looks) -> bool
    ensures { result ≡ (same_attr a.now.nontext b.now.nontext
        && same_attr a.now.special b.now.special && same_attr a.now.beyond b.now.beyond) }
{
    is_same_attr(&a.nontext, &b.nontext)
        && is_same_attr(&a.special, &b.special)
        && is_same_attr(&a.beyond, &b.beyond)
}

fn are_same_bars(a: &Bars, b: &Bars) -> bool
    ensures { result ≡ (same_attr a.now.current b.now.current
        && same_attr a.now.other b.now.other && same_attr a.now.separator b.now.separator) }
{
    is_same_attr(&a.current, &b.current)
        && is_same_attr(&a.other, &b.other)
        && is_same_attr(&a.separator, &b.separator)
}

/// Whether scenes have no patches, and differ at most in what their windows show.
pub fn have_same_frame(a: &Scene, b: &Scene) -> bool
    ensures { result ≡ true → HaveSameFrame a.now b.now }
{
    if a.width != b.width || a.height != b.height {
        return false;
    }
    if !a.patches.is_empty() || !b.patches.is_empty() {
        return false;
    }
    if a.panes.len() != b.panes.len() {
        return false;
    }
    if !are_same_looks(&a.looks, &b.looks) {
        return false;
    }
    if !are_same_bars(&a.bars, &b.bars) {
        return false;
    }
    are_same_rects(a.separators.as_slice(), b.separators.as_slice())
}
