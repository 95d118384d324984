//! The cells of the lines that were drawn last.

ghost use Rattle.nv_painter.specs.Keys.{cells_of_key, key_of_line, keys_with_line, keys_with_lines, keys_with_panes, most_cells, same_line_key};
ghost use Rattle.nv_painter.specs.Pictures.{rows_in_pane, view_of};
ghost use Rattle.nv_painter.specs.inside.Kept.{AreKept, IsAbsent, IsThere};
ghost use Rattle.nv_painter.specs.inside.Lent.{lent_content};
ghost use Rattle.nv_screen.specs.Drawing.{pane_cells};
ghost use Rattle.nv_screen.specs.Sound.{IsDrawable};
ghost use Rattle.std.specs.List.{list_any};
ghost use Rattle.std.specs.Map.{keys_of};
ghost use Rattle.std.specs.Prelude.{◌≡◌, ◌<◌, ◌≤◌, ◌/◌, false, true, [], All, IfOk, MatchOption, OnOk, length, map, min, take};

use crate::key::{LentKey, LineKey};
use crate::view::{PaneView, view_of};
use lru::LruCache;
use nv_hl::{Cell, Row};
use nv_linedraw::{Looks, first_cells, first_rows};
use nv_screen::{KnownLines, Pane, SceneLine};
use std::alloc::{AllocError, Global};
use std::marker::Model;
use std::num::NonZeroUsize;

/// The greatest number of lines whose cells are kept.
const MOST_KEYS: usize = 1024;

/// The greatest number of cells of a line that is kept.
const MOST_CELLS: usize = 2000;

/// The cells of the lines that were drawn last, by all that they depend on.
#[derive(Drop)]
pub struct KeptLines {
    cache: LruCache<LineKey, Row>,
}

impl Model for KeptLines {
    ghost use Rattle.std.specs.Prelude.{List};
    ghost use Rattle.std.specs.Map.{keys_of};
    ghost use Rattle.nv_painter.specs.Keys.{LineKey as Key};
    ghost use Rattle.nv_painter.specs.inside.Kept.{AreKept};

    ghost Value = { List Key };

    ghost view = { λ k. keys_of k.cache.entries };

    ghost invariant = { λ k. AreKept k.cache };
}

/// The key of a line, lent.
pub fn lent_key<'a>(line: &'a SceneLine, width: u32, tabstop: u32, looks: &'a Looks) -> LentKey<'a>
    ensures { lent_content result ≡ key_of_line width tabstop looks.now line.now }
{
    LentKey {
        bytes: line.bytes.as_slice(),
        spans: line.spans.as_slice(),
        width,
        tabstop,
        looks,
    }
}

// The cells that are kept under a key.
fn kept_cells<'a>(cache: &'a LruCache<LineKey, Row>, key: LentKey) -> Option<&'a [Cell]>
    requires { AreKept cache.now }
    ensures { MatchOption result (IsAbsent (lent_content key.entry) cache.now)
        (λ cells. IsThere (lent_content key.entry) cache.now
        × (cells.now ≡ cells_of_key (lent_content key.entry))) }
{
    match cache.peek(key) {
        Some(row) => Some(row.cells()),
        None => None,
    }
}

// Moves a key that is kept to the front, and gives the number of its cells.
fn promote(cache: &mut LruCache<LineKey, Row>, key: LentKey) -> Option<usize>
    requires { AreKept cache.old }
    ensures kept { AreKept cache.new }
    ensures found { MatchOption result
        ((cache.new ≡ cache.old) × IsAbsent (lent_content key.entry) cache.old)
        (λ n. (n ≡ length (cells_of_key (lent_content key.entry)))
        × (keys_of cache.new.entries
        ≡ keys_with_line (lent_content key.entry) (keys_of cache.old.entries))) }
{
    if !cache.promote(key) {
        return None;
    }
    match cache.peek_mru() {
        Some(entry) => Some(entry.1.cells().len()),
        None => None,
    }
}

// Puts the cells of a line under its key.
fn put(cache: &mut LruCache<LineKey, Row>, key: LineKey, cells: Vec<Cell>) -> Result<(), AllocError>
    requires kept { AreKept cache.old }
    requires absent { IsAbsent key cache.old }
    requires cells { cells.items ≡ cells_of_key key }
    requires count { length cells.items ≤ most_cells }
    ensures kept { AreKept cache.new }
    ensures keys { OnOk result
        (keys_of cache.new.entries ≡ keys_with_line key (keys_of cache.old.entries)) }
{
    let row = Row::new(cells);
    cache.put(key, row)?;
    Ok(())
}

// The rows of so many cells, at most as many as the window has.
fn rows_of(count: usize, pane: &Pane) -> u32
    requires { 0 < pane.now.rect.width }
    ensures { result ≡ min pane.now.rect.height (count / pane.now.rect.width) }
{
    let rows = count / pane.rect.width as usize;
    rows.min(pane.rect.height as usize) as u32
}

// The first cells of a line in a window, one more than may be kept.
fn front_cells(
    alloc: Global,
    line: &SceneLine,
    pane: &Pane,
    looks: &Looks,
) -> Result<Vec<Cell>, AllocError>
    requires { IsDrawable pane.now }
    ensures { IfOk result
        (λ cells. cells.items ≡ take 2001 (pane_cells pane.now looks.now line.now)) }
{
    let bytes = line.bytes.as_slice();
    let spans = line.spans.as_slice();
    let most = MOST_CELLS + 1;
    first_cells(
        alloc,
        bytes,
        spans,
        pane.rect.width,
        pane.tabstop,
        looks,
        most,
    )
}

// The rows of a line in a window, at most as many as the window has.
fn line_rows(alloc: Global, line: &SceneLine, pane: &Pane) -> Result<u32, AllocError>
    requires { IsDrawable pane.now }
    ensures { IfOk result (λ n. n ≡ rows_in_pane pane.now line.now) }
{
    let bytes = line.bytes.as_slice();
    first_rows(
        alloc,
        bytes,
        pane.rect.width,
        pane.tabstop,
        pane.rect.height,
    )
}

// Keeps the cells of a line, unless they are too many, and gives its rows.
fn keep_line(
    cache: &mut LruCache<LineKey, Row>,
    alloc: Global,
    line: &SceneLine,
    pane: &Pane,
    looks: &Looks,
) -> Result<u32, AllocError>
    requires kept { AreKept cache.old }
    requires drawable { IsDrawable pane.now }
    ensures kept { AreKept cache.new }
    ensures keys { OnOk result (keys_of cache.new.entries
        ≡ keys_with_line (key_of_line pane.now.rect.width pane.now.tabstop looks.now line.now)
        (keys_of cache.old.entries)) }
    ensures rows { IfOk result (λ n. n ≡ rows_in_pane pane.now line.now) }
{
    let width = pane.rect.width;
    let key = lent_key(line, width, pane.tabstop, looks);
    if let Some(count) = promote(cache, key) {
        return Ok(rows_of(count, pane));
    }
    let cells = front_cells(alloc, line, pane, looks)?;
    let count = cells.len();
    if count > MOST_CELLS {
        let rows = line_rows(alloc, line, pane)?;
        return Ok(rows);
    }
    let key = LineKey::new(alloc, line, width, pane.tabstop, *looks)?;
    put(cache, key, cells)?;
    Ok(rows_of(count, pane))
}

// Keeps the lines of a window, and gives the rows of each.
fn keep_lines(
    cache: &mut LruCache<LineKey, Row>,
    alloc: Global,
    pane: &Pane,
    looks: &Looks,
) -> Result<Vec<u32>, AllocError>
    requires kept { AreKept cache.old }
    requires drawable { IsDrawable pane.now }
    ensures kept { AreKept cache.new }
    ensures keys { OnOk result (keys_of cache.new.entries
        ≡ keys_with_lines pane.now.rect.width pane.now.tabstop looks.now
        (keys_of cache.old.entries)
        pane.now.lines.items) }
    ensures rows { IfOk result
        (λ rows. rows.items ≡ map (rows_in_pane pane.now) pane.now.lines.items) }
{
    let lines = pane.lines.as_slice();
    let mut rows = Vec::with_capacity(alloc, lines.len())?;
    for line in lines {
        rows.push(keep_line(cache, alloc, line, pane, looks)?)?;
    }
    Ok(rows)
}

// Keeps the lines of windows, and gives what each shows.
fn keep_panes(
    cache: &mut LruCache<LineKey, Row>,
    alloc: Global,
    panes: &[Pane],
    looks: &Looks,
) -> Result<Vec<PaneView>, AllocError>
    requires kept { AreKept cache.old }
    requires drawable { All IsDrawable panes.now }
    ensures kept { AreKept cache.new }
    ensures keys { OnOk result (keys_of cache.new.entries
        ≡ keys_with_panes looks.now (keys_of cache.old.entries) panes.now) }
    ensures views { IfOk result (λ views. views.items ≡ map view_of panes.now) }
{
    let mut views = Vec::with_capacity(alloc, panes.len())?;
    for pane in panes {
        let rows = keep_lines(cache, alloc, pane, looks)?;
        views.push(view_of(pane, rows))?;
    }
    Ok(views)
}

impl KeptLines {
    /// No line is kept.
    pub fn new(alloc: Global) -> Result<KeptLines, AllocError>
        ensures { IfOk result (λ kept. kept ≡ []) }
    {
        let cache = LruCache::new(alloc, NonZeroUsize::new(MOST_KEYS).unwrap())?;
        Ok(KeptLines { cache })
    }

    /// Keeps the lines of windows, those used last in front, and gives what each window shows.
    pub fn keep(
        &mut self,
        alloc: Global,
        panes: &[Pane],
        looks: &Looks,
    ) -> Result<Vec<PaneView>, AllocError>
        requires { All IsDrawable panes.now }
        ensures keys { OnOk result
            (self.new ≡ keys_with_panes looks.now self.old panes.now) }
        ensures views { IfOk result (λ views. views.items ≡ map view_of panes.now) }
    {
        keep_panes(&mut self.cache, alloc, panes, looks)
    }

    /// The cells that are kept under a key.
    pub fn find(&self, key: LentKey) -> Option<&[Cell]>
        ensures { MatchOption result
            (list_any (same_line_key (lent_content key.entry)) self.now ≡ false)
            (λ cells. (list_any (same_line_key (lent_content key.entry)) self.now ≡ true)
            × (cells.now ≡ cells_of_key (lent_content key.entry))) }
    {
        kept_cells(&self.cache, key)
    }
}

impl KnownLines for KeptLines {
    fn cells_of(
        &self,
        line: &SceneLine,
        width: u32,
        tabstop: u32,
        looks: &Looks,
    ) -> Option<&[Cell]> {
        self.find(lent_key(line, width, tabstop, looks))
    }
}
