//! What a client was told.

ghost use Rattle.nv_hl.specs.declared.cell.Cell.{Cell as SpecCell};
ghost use Rattle.nv_linegrid.specs.declared.event.Redraw.TheVariants.{DefaultColors, Flush, Goto};
ghost use Rattle.nv_linegrid.specs.Batch.{batch, event_if, is_place, is_size, same_colours, told_after};
ghost use Rattle.nv_linegrid.specs.Laws.{ShowsWanted};
ghost use Rattle.nv_linegrid.specs.Told.{AreSized, IsDrawn, nothing_told};
ghost use Rattle.nv_linegrid.specs.Scrolls.{shifts_between};
ghost use Rattle.nv_painter.specs.Pictures.{picture_of, views_of};
ghost use Rattle.nv_painter.specs.inside.Due.{AreKnown};
ghost use Rattle.nv_painter.specs.inside.Last.{IsSketchOf};
ghost use Rattle.nv_painter.specs.inside.Lent.{lent_rows};
ghost use Rattle.nv_painter.specs.inside.Moving.{EndsInReach, moves, rows_to_move};
ghost use Rattle.nv_painter.specs.inside.Screens.{IsToldNext, TellsScreen};
ghost use Rattle.nv_painter.specs.inside.Sketch.{IsSketch};
ghost use Rattle.nv_screen.specs.Cursor.{cursor_of_scene};
ghost use Rattle.std.specs.Prelude.{◌≡◌, ◌<◌, ◌^◌, ◌++◌, ◌∷◌, [], true, All, IfOk, IsTrue, List, None, OnOk, if◌then◌else◌, length, not, pos};

use crate::ids::{add_attrs_of_rows, dues_of, push_attrs};
use crate::lent::{LentRow, lend};
use crate::lines::push_rows;
use crate::scrolling::{Shift, push_scrolls, rows_after_shifts, shifts_between};
use crate::shown::{ShownRow, blank_rows};
use crate::view::PaneView;
use nv_hl::{Attr, Colours, Grid};
use nv_linegrid::Redraw;
use nv_screen::Scene;
use std::alloc::{AllocError, Global};
use std::marker::Model;
use std::mem;

/// What a client is to show: a screen, and the windows on it by rising handles.
#[derive(Drop)]
pub struct Picture {
    pub screen: Grid,
    pub colours: Colours,
    /// The row and the column of the cursor.
    pub cursor: (u32, u32),
    pub views: Vec<PaneView>,
}

impl Model for Picture {
    ghost use Rattle.nv_linegrid.specs.Told.{Wanted};

    ghost Value = { Wanted };

    ghost view = { λ p. record {
      screen = p.screen;
      colours = p.colours;
      cursor = p.cursor;
      views = p.views.items;
    } };
}

/// What a client was told, which is what it shows.
#[derive(Drop)]
pub struct ToldScreen {
    /// The width and the height in cells.
    size: Option<(u32, u32)>,
    rows: Vec<ShownRow>,
    /// The attributes of the ids from 1 on.
    attrs: Vec<Attr>,
    colours: Option<Colours>,
    cursor: Option<(u32, u32)>,
    views: Vec<PaneView>,
}

impl Model for ToldScreen {
    ghost use Rattle.nv_linegrid.specs.Told.{IsWhole, Told};

    ghost Value = { Told };

    ghost view = { λ t. record {
      size = t.size;
      rows = t.rows.items;
      attrs = t.attrs.items;
      colours = t.colours;
      cursor = t.cursor;
      views = t.views.items;
    } };

    ghost invariant = { λ t. IsWhole (record {
      size = t.size;
      rows = t.rows.items;
      attrs = t.attrs.items;
      colours = t.colours;
      cursor = t.cursor;
      views = t.views.items;
    }) };
}

/// What a scene shows otherwise than the one before: how the texts of windows moved, a flag for
/// each row that stays as it is, the rows, of which those count that have none, and between which
/// places of a row cells may differ, where that is known.
#[derive(Drop)]
pub struct Sketch<'a> {
    pub shifts: Vec<Shift>,
    pub flags: Vec<bool>,
    pub drawn: Vec<LentRow<'a>>,
    pub known: Vec<Option<(usize, usize)>>,
}

/// The same, lent.
#[derive(Clone, Copy)]
struct LentSketch<'a, 'b> {
    shifts: &'a [Shift],
    flags: &'a [bool],
    known: &'a [Option<(usize, usize)>],
    drawn: &'a [LentRow<'b>],
}

fn is_size(size: Option<(u32, u32)>, width: u32, height: u32) -> bool
    ensures { result ≡ is_size size width height }
{
    match size {
        None => false,
        Some(size) => size.0 == width && size.1 == height,
    }
}

fn is_place(place: Option<(u32, u32)>, cursor: (u32, u32)) -> bool
    ensures { result ≡ is_place place cursor }
{
    match place {
        None => false,
        Some(place) => place.0 == cursor.0 && place.1 == cursor.1,
    }
}

fn are_same_colours(old: Option<Colours>, new: Colours) -> bool
    ensures { result ≡ same_colours old new }
{
    match old {
        None => false,
        Some(old) => {
            old.fg == new.fg
                && old.bg == new.bg
                && old.sp == new.sp
                && old.cterm_fg == new.cterm_fg
                && old.cterm_bg == new.cterm_bg
        }
    }
}

// Tells an event, where it comes.
fn push_if(events: &mut Vec<Redraw>, comes: bool, event: Redraw) -> Result<(), AllocError>
    ensures { OnOk result (events.new.items ≡ events.old.items ++ event_if comes event) }
{
    if comes {
        events.push(event)?;
    }
    Ok(())
}

// The cursor before it is told: a new size makes it unknown.
fn cursor_before(is_resized: bool, cursor: Option<(u32, u32)>) -> Option<(u32, u32)>
    ensures { result ≡ (if is_resized then None else cursor) }
{
    if is_resized { None } else { cursor }
}

// How the texts of windows moved, not at all where the size is new.
fn moves(
    alloc: Global,
    is_resized: bool,
    olds: &[PaneView],
    news: &[PaneView],
) -> Result<Vec<Shift>, AllocError>
    requires { All EndsInReach news.now }
    ensures { IfOk result (λ shifts. shifts.items ≡ moves is_resized olds.now news.now) }
{
    if is_resized {
        return Ok(Vec::new(alloc));
    }
    shifts_between(alloc, olds, news)
}

// The rows before the scrolls: spaces where the size is new.
fn rows_to_move(
    alloc: Global,
    is_resized: bool,
    rows: Vec<ShownRow>,
    screen: &Grid,
) -> Result<Vec<ShownRow>, AllocError>
    ensures { IfOk result
        (λ before. before.items ≡ rows_to_move is_resized rows.items screen.now) }
{
    if is_resized {
        return blank_rows(alloc, screen.width(), screen.height());
    }
    Ok(rows)
}

// Tells a colour where it differs.
fn push_colours(
    events: &mut Vec<Redraw>,
    old: Option<Colours>,
    colours: Colours,
) -> Result<(), AllocError>
    ensures { OnOk result (events.new.items ≡ events.old.items
        ++ event_if (not (same_colours old colours)) (DefaultColors colours)) }
{
    let is_recoloured = !are_same_colours(old, colours);
    push_if(events, is_recoloured, Redraw::DefaultColors { colours })
}

// Tells the new attributes of a screen, how rows moved, and the rows that differ.
fn push_screen(
    alloc: Global,
    events: &mut Vec<Redraw>,
    rows: &mut Vec<ShownRow>,
    attrs: &mut Vec<Attr>,
    is_resized: bool,
    sketch: LentSketch,
) -> Result<(), AllocError>
    requires high { length rows.old.items ≡ length sketch.drawn.now }
    requires known { AreKnown sketch.known.now attrs.old.items (lent_rows sketch.drawn.now)
        rows.old.items }
    requires rows { length sketch.drawn.now < 2 ^ 32 }
    requires cells { All (λ row. length row < 2 ^ 32) (lent_rows sketch.drawn.now) }
    ensures { OnOk result ((screen : List (List SpecCell))
        → IsSketch sketch.entry.flags.now (lent_rows sketch.entry.drawn.now) attrs.old.items
        rows.old.items screen → TellsScreen is_resized sketch.entry.shifts.now screen
        attrs.old.items attrs.new.items rows.old.items rows.new.items events.old.items
        events.new.items) }
{
    let dues = dues_of(
        alloc,
        attrs.as_slice(),
        sketch.flags,
        sketch.known,
        sketch.drawn,
        rows.as_slice(),
    )?;
    let count = attrs.len();
    add_attrs_of_rows(attrs, dues.as_slice(), sketch.drawn)?;
    push_attrs(events, attrs.as_slice(), count)?;
    push_if(events, is_resized, Redraw::Clear { grid: 1 })?;
    push_scrolls(events, sketch.shifts)?;
    push_rows(
        alloc,
        events,
        rows,
        attrs.as_slice(),
        dues.as_slice(),
        sketch.drawn,
    )?;
    Ok(())
}

// Tells the cursor, where it differs, and the flush.
fn push_end(
    events: &mut Vec<Redraw>,
    old: Option<(u32, u32)>,
    cursor: (u32, u32),
) -> Result<(), AllocError>
    ensures { OnOk result (events.new.items ≡ events.old.items
        ++ event_if (not (is_place old cursor)) (Goto (pos 1) cursor.0 cursor.1)
        ++ Flush ∷ []) }
{
    let is_moved = !is_place(old, cursor);
    let place = Redraw::Goto {
        grid: 1,
        row: cursor.0,
        col: cursor.1,
    };
    push_if(events, is_moved, place)?;
    events.push(Redraw::Flush)?;
    Ok(())
}

// Tells what differs, and gives what was told then.
fn told_next(
    alloc: Global,
    old: ToldScreen,
    picture: Picture,
) -> Result<(Vec<Redraw>, ToldScreen), AllocError>
    requires drawn { IsDrawn picture }
    ensures { IfOk result (λ next. IsToldNext old picture next.0.items next.1) }
{
    let views = picture.views;
    told_screen(
        alloc,
        old,
        &picture.screen,
        picture.colours,
        picture.cursor,
        views,
    )
}

// The same by the parts of the picture, of which the screen is lent.
fn told_screen(
    alloc: Global,
    old: ToldScreen,
    screen: &Grid,
    colours: Colours,
    cursor: (u32, u32),
    views: Vec<PaneView>,
) -> Result<(Vec<Redraw>, ToldScreen), AllocError>
    requires { IsDrawn (record {
      screen = screen.now;
      colours = colours;
      cursor = cursor;
      views = views.items;
    }) }
    ensures { IfOk result (λ next. IsToldNext old (record {
      screen = screen.now;
      colours = colours;
      cursor = cursor;
      views = views.items;
    }) next.0.items next.1) }
{
    let width = screen.width();
    let height = screen.height();
    let is_resized = !is_size(old.size, width, height);
    let mut events = Vec::new(alloc);
    let size = Redraw::Resize {
        grid: 1,
        width,
        height,
    };
    push_if(&mut events, is_resized, size)?;
    push_colours(&mut events, old.colours, colours)?;
    let moved = moves(alloc, is_resized, old.views.as_slice(), views.as_slice())?;
    let shifts = moved.as_slice();
    let before = rows_to_move(alloc, is_resized, old.rows, screen)?;
    let mut rows = rows_after_shifts(alloc, before, shifts)?;
    let mut attrs = old.attrs;
    let lent = lend(alloc, screen.rows())?;
    push_screen(
        alloc,
        &mut events,
        &mut rows,
        &mut attrs,
        is_resized,
        LentSketch {
            shifts,
            flags: &[],
            known: &[],
            drawn: lent.as_slice(),
        },
    )?;
    let place = cursor_before(is_resized, old.cursor);
    push_end(&mut events, place, cursor)?;
    let told = ToldScreen {
        size: Some((width, height)),
        rows,
        attrs,
        colours: Some(colours),
        cursor: Some(cursor),
        views,
    };
    Ok((events, told))
}

// Tells what differs of a scene of the same size: only the rows that are drawn are looked at.
fn told_of_sketch(
    alloc: Global,
    old: ToldScreen,
    scene: &Scene,
    cursor: (u32, u32),
    views: Vec<PaneView>,
    sketch: &Sketch,
) -> Result<(Vec<Redraw>, ToldScreen), AllocError>
    requires drawn { IsDrawn (picture_of scene.now) }
    requires cursor { cursor ≡ cursor_of_scene scene.now }
    requires views { views.items ≡ views_of scene.now.panes.items }
    requires sketch { IsSketchOf old sketch.now.shifts.items sketch.now.flags.items
        sketch.now.known.items (lent_rows sketch.now.drawn.items) scene.now }
    ensures { IfOk result (λ next. IsToldNext old (picture_of scene.now) next.0.items next.1) }
{
    let shifts = sketch.shifts.as_slice();
    let mut rows = rows_after_shifts(alloc, old.rows, shifts)?;
    let mut attrs = old.attrs;
    let mut events = Vec::new(alloc);
    push_colours(&mut events, old.colours, scene.colours)?;
    push_screen(
        alloc,
        &mut events,
        &mut rows,
        &mut attrs,
        false,
        LentSketch {
            shifts,
            flags: sketch.flags.as_slice(),
            known: sketch.known.as_slice(),
            drawn: sketch.drawn.as_slice(),
        },
    )?;
    push_end(&mut events, old.cursor, cursor)?;
    let told = ToldScreen {
        size: Some((scene.width, scene.height)),
        rows,
        attrs,
        colours: Some(scene.colours),
        cursor: Some(cursor),
        views,
    };
    Ok((events, told))
}

impl ToldScreen {
    /// Nothing was told.
    pub fn new(alloc: Global) -> ToldScreen
        ensures { result ≡ nothing_told }
    {
        ToldScreen {
            size: None,
            rows: Vec::new(alloc),
            attrs: Vec::new(alloc),
            colours: None,
            cursor: None,
            views: Vec::new(alloc),
        }
    }

    /// Tells what differs from what was told: the events take what is shown to the picture.
    pub fn tell(&mut self, alloc: Global, picture: Picture) -> Result<Vec<Redraw>, AllocError>
        requires drawn { IsDrawn picture }
        ensures events { IfOk result (λ events. events.items ≡ batch self.old picture) }
        ensures told { OnOk result (self.new ≡ told_after self.old picture) }
        ensures shows { IfOk result (λ events. ShowsWanted self.old picture) }
    {
        let old = mem::replace(self, ToldScreen::new(alloc));
        let (events, told) = told_next(alloc, old, picture)?;
        *self = told;
        Ok(events)
    }

    /// Whether this size was told.
    pub fn has_size(&self, width: u32, height: u32) -> bool
        ensures size { result ≡ is_size self.now.size width height }
        ensures sized { IsTrue result → AreSized width height self.now.rows }
    {
        is_size(self.size, width, height)
    }

    /// How the texts of windows moved that were told before.
    pub fn shifts_to(&self, alloc: Global, views: &[PaneView]) -> Result<Vec<Shift>, AllocError>
        requires { All EndsInReach views.now }
        ensures { IfOk result (λ shifts. shifts.items ≡ shifts_between self.now.views views.now) }
    {
        shifts_between(alloc, self.views.as_slice(), views)
    }

    /// Tells what differs of a scene of the same size.
    pub fn tell_sketch(
        &mut self,
        alloc: Global,
        scene: &Scene,
        cursor: (u32, u32),
        views: Vec<PaneView>,
        sketch: &Sketch,
    ) -> Result<Vec<Redraw>, AllocError>
        requires drawn { IsDrawn (picture_of scene.now) }
        requires cursor { cursor ≡ cursor_of_scene scene.now }
        requires views { views.items ≡ views_of scene.now.panes.items }
        requires sketch { IsSketchOf self.old sketch.now.shifts.items
            sketch.now.flags.items sketch.now.known.items (lent_rows sketch.now.drawn.items)
            scene.now }
        ensures events { IfOk result
            (λ events. events.items ≡ batch self.old (picture_of scene.now)) }
        ensures told { OnOk result (self.new ≡ told_after self.old (picture_of scene.now)) }
        ensures shows { IfOk result (λ events. ShowsWanted self.old (picture_of scene.now)) }
    {
        let old = mem::replace(self, ToldScreen::new(alloc));
        let (events, told) = told_of_sketch(alloc, old, scene, cursor, views, sketch)?;
        *self = told;
        Ok(events)
    }
}
