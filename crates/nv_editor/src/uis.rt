//! The UIs of sessions, and the size that they give the screen (help: ui, nvim_ui_attach()).
ghost use Rattle.std.specs.Prelude.{◌≡◌, ◌==◌, ◌<◌, ◌≤◌, ◌^◌, ◌∷◌, [], true, false, length, All, IfOk, OnErr, OnOk, if◌then◌else◌};
ghost use Rattle.std.specs.List.{list_all, list_any};
ghost use Rattle.nv_layout.specs.Content.{shape_of};
ghost use Rattle.nv_layout.specs.Least.{IsMeasurable};
ghost use Rattle.nv_windows.specs.Rooms.{all_fit, fits_screen};
ghost use Rattle.nv_windows.specs.Sound.{IsSoundWorkspace};
ghost use Rattle.nv_model.specs.Operations.{ui_put, uis_dropped};
ghost use Rattle.nv_model.specs.Stage.{other_uis, ui_among, with_uis};
ghost use Rattle.nv_editor.specs.Doing.{Does};
ghost use Rattle.nv_editor.specs.Uis.{AreOfRisingSessions, AreSoundUis, HasScreenSize, has_ui, ui_fits};
ghost use Rattle.nv_editor.specs.inside.Sizes.{least_size};

use crate::editor::Editor;
use crate::stage::Stage;
use nv_layout::{Tree, least};
use nv_model::Ui;
use nv_windows::{Tabpage, Windows};
use std::alloc::AllocError;

// Whether a session is one of some.
fn is_among(sessions: &[u64], session: u64) -> bool
    ensures { result ≡ list_any (λ s. s == session) sessions.now }
{
    sessions.iter().any(|s| *s == session)
}

// Puts a UI in place of its session's, or before the first of a greater session.
fn put_among(uis: &mut Vec<Ui>, ui: Ui) -> Result<(), AllocError>
    ensures put { OnOk result (uis.new.items ≡ ui_among ui uis.old.items) }
    ensures err { OnErr result (uis.new.items ≡ uis.old.items) }
{
    for place in 0..uis.len() {
        let session = uis[place].session;
        if ui.session == session {
            uis[place] = ui;
            return Ok(());
        }
        if ui.session < session {
            uis.insert(place, ui)?;
            return Ok(());
        }
    }
    uis.push(ui)?;
    Ok(())
}

// Drops the UIs of some sessions.
fn drop_sessions(uis: &mut Vec<Ui>, sessions: &[u64])
    ensures { uis.new.items ≡ other_uis sessions.now uis.old.items }
{
    uis.retain(|ui| !is_among(sessions, ui.session));
}

// Whether a session has a UI.
fn has_ui(uis: &[Ui], session: u64) -> bool
    ensures { result ≡ has_ui session uis.now }
{
    uis.iter().any(|ui| ui.session == session)
}

// The least width and height, in cells, of a UI and those of other sessions.
fn least_with(ui: Ui, uis: &[Ui]) -> (u32, u32)
    requires { AreOfRisingSessions 0 uis.now }
    ensures width { result.0 ≡ least_size (λ u. u.width) (ui_among ui uis.now) }
    ensures height { result.1 ≡ least_size (λ u. u.height) (ui_among ui uis.now) }
    ensures narrow { result.0 ≤ ui.width }
    ensures low { result.1 ≤ ui.height }
{
    let mut width = ui.width;
    let mut height = ui.height;
    for other in uis {
        if other.session == ui.session {
            continue;
        }
        width = width.min(other.width);
        height = height.min(other.height);
    }
    (width, height)
}

// Whether a tree has its least size on a screen.
fn tree_fits(tree: &Tree, width: u32, height: u32) -> bool
    requires { IsMeasurable (shape_of tree.now) }
    ensures { result ≡ fits_screen width height (shape_of tree.now) }
{
    let (wide, high) = least(tree);
    wide <= width && high <= height.saturating_sub(1)
}

// Whether each tabpage's tree has its least size on a screen.
fn trees_fit(tabpages: &[Tabpage], width: u32, height: u32) -> bool
    requires { All (λ t. IsMeasurable (shape_of t.tree)) tabpages.now }
    ensures { result
        ≡ list_all (λ t. fits_screen width height (shape_of t.tree)) tabpages.now }
{
    for tabpage in tabpages {
        if !tree_fits(&tabpage.tree, width, height) {
            return false;
        }
    }
    true
}

fn all_fit(windows: &Windows, width: u32, height: u32) -> bool
    ensures { result ≡ all_fit width height windows.now }
{
    let _windows = windows.windows();
    trees_fit(windows.tabpages(), width, height)
}

impl Stage {
    // Whether each tabpage's tree has its least size where a UI stands in place of its session's.
    fn ui_fits(&self, ui: Ui) -> bool
        requires { AreOfRisingSessions 0 self.now.uis }
        ensures { result ≡ ui_fits ui self.now }
    {
        let (width, height) = least_with(ui, self.uis.as_slice());
        all_fit(&self.windows, width, height)
    }

    // Gives the screen the least size of the UIs; where there is none it keeps its own.
    fn take_size(&mut self)
        requires rising { AreOfRisingSessions 0 self.old.uis }
        requires narrow { All HasScreenSize self.old.uis }
        requires fits { 0 < length self.old.uis
            → all_fit (least_size (λ u. u.width) self.old.uis)
            (least_size (λ u. u.height) self.old.uis) self.old.workspace
            ≡ true }
        ensures { self.new ≡ with_uis self.old.uis self.old }
    {
        match self.uis.first() {
            Some(ui) => {
                let (width, height) = least_with(*ui, self.uis.as_slice());
                self.windows.put_size(width, height);
            }
            None => {}
        }
    }

    fn put_ui(&mut self, ui: Ui) -> Result<(), AllocError>
        requires size { HasScreenSize ui }
        requires uis { AreSoundUis self.old.uis self.old.workspace.width
            self.old.workspace.height }
        requires fits { ui_fits ui self.old ≡ true }
        ensures put { OnOk result
            (self.new ≡ with_uis (ui_among ui self.old.uis) self.old) }
        ensures err { OnErr result (self.new ≡ self.old) }
        ensures sound { OnOk result (IsSoundWorkspace self.new.workspace) }
    {
        put_among(&mut self.uis, ui)?;
        self.take_size();
        let _windows = self.windows.windows();
        Ok(())
    }

    fn drop_uis(&mut self, sessions: &[u64])
        requires { AreSoundUis self.old.uis self.old.workspace.width self.old.workspace.height }
        ensures put { self.new ≡ with_uis (other_uis sessions.now self.old.uis) self.old }
        ensures sound { IsSoundWorkspace self.new.workspace }
    {
        let _before = self.windows.windows();
        drop_sessions(&mut self.uis, sessions);
        self.take_size();
        let _windows = self.windows.windows();
    }
}

impl Editor {
    /// The UIs by rising sessions, one of a session at most.
    pub fn uis(&self) -> &[Ui]
        ensures uis { result.now ≡ self.now.stage.uis }
        ensures rising { AreOfRisingSessions 0 result.now }
    {
        self.stage.uis()
    }

    /// Whether each tabpage's tree would have its least size on the screen, where this UI stood in
    /// place of its session's, whether that has one or not. No memory is taken.
    pub fn ui_fits(&self, ui: Ui) -> bool
        ensures { result ≡ ui_fits ui self.now.stage }
    {
        self.stage.ui_fits(ui)
    }

    /// Puts a UI in place of its session's. The screen gets the least width of all UIs by their
    /// least height, in cells (help: nvim_ui_attach(), nvim_ui_try_resize()).
    ///
    /// `false` comes exactly where some tabpage's tree would not have its least size on it; then
    /// nothing changes, nor where memory is wanting.
    pub fn put_ui(&mut self, ui: Ui) -> Result<bool, AllocError>
        requires width { ui.width < 2 ^ 16 }
        requires height { ui.height < 2 ^ 16 }
        ensures told { IfOk result (λ put. put ≡ ui_fits ui self.old.stage) }
        ensures done { OnOk result
            (Does (if ui_fits ui self.old.stage then ui_put ui ∷ [] else [])
            self.old self.new) }
        ensures kept { OnOk result (ui_fits ui self.old.stage ≡ false → self.new ≡ self.old) }
        ensures err { OnErr result (self.new ≡ self.old) }
    {
        if !self.stage.ui_fits(ui) {
            return Ok(false);
        }
        self.stage.put_ui(ui)?;
        Ok(true)
    }

    /// Drops the UIs of some sessions together. The screen gets the least size of those that are
    /// left; where none is, it keeps its own (help: nvim_ui_detach()). No memory is taken.
    pub fn drop_uis(&mut self, sessions: &[u64])
        ensures { Does (uis_dropped sessions.now ∷ []) self.old self.new }
    {
        self.stage.drop_uis(sessions);
    }

    /// Drops the UI of a session. `false` comes exactly where it has none, and then nothing
    /// changes. No memory is taken.
    pub fn drop_ui(&mut self, session: u64) -> bool
        ensures told { result ≡ has_ui session self.old.stage.uis }
        ensures done { Does (uis_dropped (session ∷ []) ∷ []) self.old self.new }
        ensures kept { has_ui session self.old.stage.uis ≡ false → self.new ≡ self.old }
    {
        if !has_ui(self.stage.uis(), session) {
            return false;
        }
        self.drop_uis(&[session]);
        true
    }
}
