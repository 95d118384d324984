//! Painters.

ghost use Rattle.nv_linegrid.specs.Batch.{batch, told_after};
ghost use Rattle.nv_painter.specs.Keys.{cells_of_key, key_of_line, keys_after, same_line_key};
ghost use Rattle.nv_painter.specs.Painters.{ShowsScene, first_painting};
ghost use Rattle.nv_linegrid.specs.Laws.{ShowsWanted};
ghost use Rattle.nv_painter.specs.Pictures.{picture_of, views_of};
ghost use Rattle.nv_painter.specs.inside.Last.{IsToldOfLast};
ghost use Rattle.nv_screen.specs.Cursor.{cursor_of_scene};
ghost use Rattle.nv_screen.specs.Drawing.{pane_cells};
ghost use Rattle.nv_screen.specs.Sound.{IsDrawable, IsSoundScene};
ghost use Rattle.std.specs.List.{list_any};
ghost use Rattle.std.specs.Prelude.{◌≡◌, false, true, IfOk, MatchOption, OnOk};

use crate::kept::{KeptLines, lent_key};
use crate::sketch::sketch_of;
use crate::told::{Picture, ToldScreen};
use crate::view::{PaneView, sorted_views};
use nv_hl::Cell;
use nv_linedraw::Looks;
use nv_linegrid::Redraw;
use nv_screen::{KnownLines, Pane, Scene, SceneLine, cursor_cell, draw_from};
use std::alloc::{AllocError, Global};
use std::marker::Model;
use std::mem;

/// Paints the scenes of one client, one after another: it keeps what the client was told, and the
/// cells of the lines that were drawn last.
#[derive(Drop)]
pub struct Painter {
    told: ToldScreen,
    kept: KeptLines,
    /// The scene that was painted last, and nothing told since.
    last: Option<Scene>,
}

impl Model for Painter {
    ghost use Rattle.nv_painter.specs.Painters.{Painting};
    ghost use Rattle.nv_painter.specs.inside.Last.{IsToldOfLast};

    ghost Value = { Painting };

    ghost view = { λ p. record { told = p.told; keys = p.kept } };

    ghost invariant = { λ p. IsToldOfLast p.told p.last };
}

// Tells what differs between what was told and a scene.
fn tell_scene(
    alloc: Global,
    told: &mut ToldScreen,
    kept: &KeptLines,
    last: Option<Scene>,
    scene: &Scene,
    cursor: (u32, u32),
    views: Vec<PaneView>,
) -> Result<Vec<Redraw>, AllocError>
    requires sound { IsSoundScene scene.now }
    requires last { IsToldOfLast told.old last }
    requires cursor { cursor ≡ cursor_of_scene scene.now }
    requires views { views.items ≡ views_of scene.now.panes.items }
    ensures events { IfOk result (λ events. events.items ≡ batch told.old (picture_of scene.now)) }
    ensures told { OnOk result (told.new ≡ told_after told.old (picture_of scene.now)) }
    ensures shows { IfOk result (λ events. ShowsWanted told.old (picture_of scene.now)) }
{
    if let Some(sketch) = sketch_of(alloc, told, kept, last, scene, views.as_slice())? {
        return told.tell_sketch(alloc, scene, cursor, views, &sketch);
    }
    let screen = draw_from(alloc, scene, kept)?;
    let picture = Picture {
        screen,
        colours: scene.colours,
        cursor,
        views,
    };
    told.tell(alloc, picture)
}

impl Painter {
    /// Nothing was told, and no line is kept.
    pub fn new(alloc: Global) -> Result<Painter, AllocError>
        ensures { IfOk result (λ painter. painter ≡ first_painting) }
    {
        let kept = KeptLines::new(alloc)?;
        Ok(Painter {
            told: ToldScreen::new(alloc),
            kept,
            last: None,
        })
    }

    /// The events that take what the client shows to the scene: the size, the default colours and
    /// new attributes, scrolled windows, each row from its first due cell to its last, the cursor
    /// and a flush, each where it differs (help: ui-linegrid). Without memory the painter is spent.
    pub fn paint(&mut self, alloc: Global, scene: Scene) -> Result<Vec<Redraw>, AllocError>
        requires { IsSoundScene scene }
        ensures events { IfOk result
            (λ events. events.items ≡ batch self.old.told (picture_of scene)) }
        ensures told { OnOk result (self.new.told ≡ told_after self.old.told (picture_of scene)) }
        ensures shows { IfOk result
            (λ events. ShowsScene self.old.told self.new.told events.items scene) }
        ensures keys { OnOk result (self.new.keys ≡ keys_after self.old.keys scene) }
    {
        let last = mem::replace(&mut self.last, None);
        let views = self.kept.keep(alloc, scene.panes.as_slice(), &scene.looks)?;
        let views = sorted_views(alloc, views)?;
        let cursor = cursor_cell(alloc, &scene)?;
        let events = tell_scene(
            alloc,
            &mut self.told,
            &self.kept,
            last,
            &scene,
            cursor,
            views,
        )?;
        self.last = Some(scene);
        Ok(events)
    }

    /// The cells of a line in a window that are kept, one row behind another. `None` exactly where
    /// none are kept of a line with its bytes, its spans, this width, these Tabs and looks.
    pub fn kept(&self, line: &SceneLine, pane: &Pane, looks: &Looks) -> Option<&[Cell]>
        ensures { MatchOption result
            (list_any (same_line_key (key_of_line pane.now.rect.width pane.now.tabstop
            looks.now line.now)) self.now.keys ≡ false)
            (λ cells. (list_any (same_line_key (key_of_line pane.now.rect.width pane.now.tabstop
            looks.now line.now)) self.now.keys ≡ true)
            × (cells.now ≡ pane_cells pane.now looks.now line.now)) }
    {
        self.kept
            .find(lent_key(line, pane.rect.width, pane.tabstop, looks))
    }
}
