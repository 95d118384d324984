//! What the cells of a line depend on.

ghost use Rattle.nv_painter.specs.Keys.{key_of_line, same_line_key, same_looks, same_span, same_spans};
ghost use Rattle.nv_painter.specs.inside.SameKeys.{key_decides, keys_equivalent};
ghost use Rattle.nv_painter.specs.inside.Lent.{key_writes, lent_content};
ghost use Rattle.std.specs.Cmp.{on_equiv, partial_equiv_from_equiv};
ghost use Rattle.std.specs.Prelude.{◌≡◌, IfOk};
ghost use mathlib.Core.Path.{ap};

use nv_hl::is_same_attr;
use nv_linedraw::{Looks, Span};
use nv_lines::Line;
use nv_screen::SceneLine;
use std::alloc::{AllocError, Global};
use std::collections::hash_map::Equivalent;
use std::hash::{Hash, Hasher};
use std::marker::Model;

fn is_same_span(a: &Span, b: &Span) -> bool
    ensures { result ≡ same_span a.now b.now }
{
    a.from == b.from && a.to == b.to && a.eol == b.eol && is_same_attr(&a.attr, &b.attr)
}

fn are_same_spans(a: &[Span], b: &[Span]) -> bool
    ensures { result ≡ same_spans a.now b.now }
{
    if a.len() < b.len() {
        return false;
    }
    if b.len() < a.len() {
        return false;
    }
    for k in 0..a.len() {
        if !is_same_span(&a[k], &b[k]) {
            return false;
        }
    }
    true
}

fn are_same_looks(a: &Looks, b: &Looks) -> bool
    ensures { result ≡ same_looks a.now b.now }
{
    is_same_attr(&a.nontext, &b.nontext)
        && is_same_attr(&a.special, &b.special)
        && is_same_attr(&a.beyond, &b.beyond)
}

/// What the cells of a line depend on.
#[derive(Drop)]
pub struct LineKey {
    bytes: Line,
    spans: Vec<Span>,
    width: u32,
    tabstop: u32,
    looks: Looks,
}

impl Model for LineKey {
    ghost use Rattle.nv_painter.specs.Keys.{LineKey as Key};

    ghost Value = { Key };

    ghost view = { λ k. record {
      bytes = k.bytes;
      spans = k.spans.items;
      width = k.width;
      tabstop = k.tabstop;
      looks = k.looks;
    } };
}

impl LineKey {
    /// The key of a line in rows of so many cells.
    pub fn new(
        alloc: Global,
        line: &SceneLine,
        width: u32,
        tabstop: u32,
        looks: Looks,
    ) -> Result<LineKey, AllocError>
        ensures { IfOk result (λ key. key ≡ key_of_line width tabstop looks line.now) }
    {
        let spans = Vec::from_slice(alloc, line.spans.as_slice())?;
        Ok(LineKey {
            bytes: line.bytes.share()?,
            spans,
            width,
            tabstop,
            looks,
        })
    }

    // The same, lent.
    fn lent(&self) -> LentKey<'_>
        ensures { lent_content result ≡ self.now }
    {
        LentKey {
            bytes: self.bytes.as_slice(),
            spans: self.spans.as_slice(),
            width: self.width,
            tabstop: self.tabstop,
            looks: &self.looks,
        }
    }
}

/// The same, lent.
#[derive(Clone, Copy)]
pub struct LentKey<'a> {
    pub bytes: &'a [u8],
    pub spans: &'a [Span],
    pub width: u32,
    pub tabstop: u32,
    pub looks: &'a Looks,
}

impl<'a> PartialEq for LentKey<'a> {
    ghost eq = { λ x y. same_line_key (lent_content x) (lent_content y) };

    ghost laws = { partial_equiv_from_equiv (on_equiv lent_content keys_equivalent) };

    #[tactic(auto, unfolding(crate::specs::Keys::same_line_key))]
    fn eq(&self, other: &LentKey<'a>) -> bool {
        self.width == other.width
            && self.tabstop == other.tabstop
            && self.bytes == other.bytes
            && are_same_spans(self.spans, other.spans)
            && are_same_looks(self.looks, other.looks)
    }
}

impl<'a> Eq for LentKey<'a> {
    ghost laws = { on_equiv lent_content keys_equivalent };
}

impl<'a> Hash for LentKey<'a> {
    ghost hash_input = { λ k. key_writes (lent_content k) };

    ghost respects_eq = { λ x y e. ap key_writes
        ((key_decides (lent_content x) (lent_content y)).0 e) };

    fn hash<H: Hasher>(&self, state: &mut H) {
        state.write(self.bytes);
        state.write_u32(self.width);
    }
}

impl PartialEq for LineKey {
    ghost eq = { same_line_key };

    ghost laws = { partial_equiv_from_equiv keys_equivalent };

    fn eq(&self, other: &LineKey) -> bool {
        self.lent() == other.lent()
    }
}

impl Eq for LineKey {
    ghost laws = { keys_equivalent };
}

impl Hash for LineKey {
    ghost hash_input = { key_writes };

    ghost respects_eq = { λ x y e. ap key_writes ((key_decides x y).0 e) };

    fn hash<H: Hasher>(&self, state: &mut H) {
        self.lent().hash(state)
    }
}

impl<'a> Equivalent<LineKey> for LentKey<'a> {
    ghost equivalent = { λ q k. same_line_key (lent_content q) k };

    ghost respects_hash = { λ q k e. ap key_writes ((key_decides (lent_content q) k).0 e) };

    ghost respects_eq = { λ q x y e. ap (λ k. same_line_key k y)
        ((key_decides (lent_content q) x).0 e) };

    fn equivalent(&self, key: &LineKey) -> bool {
        *self == key.lent()
    }
}
