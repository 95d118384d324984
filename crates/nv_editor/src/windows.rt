//! Windows and tabpages (help: windows, tabpage).
ghost use Rattle.std.specs.Prelude.{◌≡◌, ◌∷◌, [], ◌^◌, ◌<◌, ◌&&◌, true, false, not, length, IfOk, IfSome, OnErr, OnOk, if◌then◌else◌};
ghost use Rattle.nv_editor.specs.Closing.{closing_operations, tab_closing_operations};
ghost use Rattle.nv_editor.specs.Doing.{Does};
ghost use Rattle.nv_editor.specs.Sound.{IsCursorIn, content_at, is_live_buffer};
ghost use Rattle.nv_layout.specs.declared.nodes.Axis.TheVariants.{Across, Down};
ghost use Rattle.nv_windows.specs.Sound.{IsSoundWorkspace};
ghost use Rattle.nv_windows.specs.Workspace.{is_live_tabpage, is_live_window, window_at};
ghost use Rattle.nv_windows.specs.Rooms.{has_handles_left, has_room_beside, has_window_left};
ghost use Rattle.nv_windows.specs.Operations.{after_close, after_opening, after_tab_close, after_tab_new, at_tabpage, at_window, has_one_tabpage, is_only_window, opening, tabpage_opening, with_buffer_in, with_cursor, with_top, with_wish_of};
ghost use Rattle.nv_model.specs.Operations.{cursor_put, shown, tab_made, top_put, went_to_tab, went_to_window, window_opened, wish_put};
ghost use Rattle.nv_model.specs.Stage.{in_workspace};

use crate::editor::Editor;
use crate::stage::Stage;
use nv_buffer::Pos;
use nv_layout::Side;
use nv_windows::{Opened, Wishes};
use std::alloc::{AllocError, Global};

impl Stage {
    fn go_to_window(&mut self, window: i64)
        requires { is_live_window self.old.workspace window ≡ true }
        ensures put { self.new ≡ in_workspace (at_window window) self.old }
        ensures sound { IsSoundWorkspace self.new.workspace }
    {
        self.windows.go(window);
        let _windows = self.windows.windows();
    }

    fn go_to_tab(&mut self, tabpage: i64)
        requires { is_live_tabpage self.old.workspace tabpage ≡ true }
        ensures put { self.new ≡ in_workspace (at_tabpage tabpage) self.old }
        ensures sound { IsSoundWorkspace self.new.workspace }
    {
        self.windows.go_tab(tabpage);
        let _windows = self.windows.windows();
    }

    fn show(&mut self, window: i64, buffer: i64)
        requires { is_live_window self.old.workspace window ≡ true }
        ensures put { self.new ≡ in_workspace (with_buffer_in window buffer) self.old }
        ensures sound { IsSoundWorkspace self.new.workspace }
    {
        self.windows.show(window, buffer);
        let _windows = self.windows.windows();
    }

    fn put_cursor(&mut self, window: i64, pos: Pos)
        requires { is_live_window self.old.workspace window ≡ true }
        ensures put { self.new ≡ in_workspace (with_cursor window pos) self.old }
        ensures sound { IsSoundWorkspace self.new.workspace }
    {
        self.windows.put_cursor(window, pos);
        let _windows = self.windows.windows();
    }

    fn put_top(&mut self, window: i64, row: u32)
        requires { is_live_window self.old.workspace window ≡ true }
        ensures put { self.new ≡ in_workspace (with_top window row) self.old }
        ensures sound { IsSoundWorkspace self.new.workspace }
    {
        self.windows.put_top(window, row);
        let _windows = self.windows.windows();
    }

    fn put_width(&mut self, window: i64, n: u32)
        requires live { is_live_window self.old.workspace window ≡ true }
        requires width { n < 2 ^ 16 }
        ensures put { self.new ≡ in_workspace (with_wish_of window Across n) self.old }
        ensures sound { IsSoundWorkspace self.new.workspace }
    {
        self.windows.put_width(window, n);
        let _windows = self.windows.windows();
    }

    fn put_height(&mut self, window: i64, n: u32)
        requires live { is_live_window self.old.workspace window ≡ true }
        requires height { n < 2 ^ 16 }
        ensures put { self.new ≡ in_workspace (with_wish_of window Down n) self.old }
        ensures sound { IsSoundWorkspace self.new.workspace }
    {
        self.windows.put_height(window, n);
        let _windows = self.windows.windows();
    }

    fn open_window(
        &mut self,
        alloc: Global,
        beside: i64,
        side: Side,
        buffer: i64,
        wishes: Wishes,
        enter: bool,
    ) -> Result<Opened, AllocError>
        requires beside { is_live_window self.old.workspace beside ≡ true }
        requires width { wishes.width < 2 ^ 16 }
        requires height { wishes.height < 2 ^ 16 }
        ensures told { IfOk result (λ told. told ≡ opening self.old.workspace beside side) }
        ensures put { OnOk result (self.new
            ≡ in_workspace (after_opening beside side buffer wishes.width wishes.height enter)
            self.old) }
        ensures err { OnErr result (self.new ≡ self.old) }
        ensures sound { IsSoundWorkspace self.new.workspace }
    {
        let told = self
            .windows
            .open(alloc, beside, side, buffer, wishes, enter);
        let _windows = self.windows.windows();
        told
    }

    fn close_window(&mut self, alloc: Global, window: i64) -> Result<bool, AllocError>
        requires { is_live_window self.old.workspace window ≡ true }
        ensures told { IfOk result (λ closed. closed
            ≡ not (is_only_window self.old.workspace window)) }
        ensures put { OnOk result (self.new ≡ in_workspace (after_close window) self.old) }
        ensures err { OnErr result (self.new ≡ self.old) }
        ensures sound { IsSoundWorkspace self.new.workspace }
    {
        let closed = self.windows.close(alloc, window);
        let _windows = self.windows.windows();
        closed
    }

    fn make_tab(&mut self, alloc: Global, buffer: i64) -> Result<Option<i64>, AllocError>
        ensures told { IfOk result (λ told. told ≡ tabpage_opening self.old.workspace) }
        ensures put { OnOk result (self.new ≡ in_workspace (after_tab_new buffer) self.old) }
        ensures err { OnErr result (self.new ≡ self.old) }
        ensures sound { IsSoundWorkspace self.new.workspace }
    {
        let told = self.windows.tab_new(alloc, buffer);
        let _windows = self.windows.windows();
        told
    }

    fn close_tab(&mut self) -> bool
        ensures told { result ≡ not (has_one_tabpage self.old.workspace) }
        ensures put { self.new ≡ in_workspace after_tab_close self.old }
        ensures sound { IsSoundWorkspace self.new.workspace }
    {
        let closed = self.windows.tab_close();
        let _windows = self.windows.windows();
        closed
    }
}

impl Editor {
    // What is known of the text of a live buffer.
    fn known_text(&self, buffer: i64)
        requires { is_live_buffer self.now buffer ≡ true }
        ensures { 0 < length (content_at self.now buffer).text }
    {
        match self.buffers.get(buffer) {
            Some(buffer) => buffer.known(),
            None => unreachable!(),
        }
    }

    /// Makes a live window current, and its tabpage too (help: nvim_set_current_win()).
    pub fn go_to_window(&mut self, window: i64)
        requires { is_live_window self.old.stage.workspace window ≡ true }
        ensures { Does (went_to_window window ∷ []) self.old self.new }
    {
        self.stage.go_to_window(window);
    }

    /// Makes a live tabpage current (help: nvim_set_current_tabpage()).
    pub fn go_to_tab(&mut self, tabpage: i64)
        requires { is_live_tabpage self.old.stage.workspace tabpage ≡ true }
        ensures { Does (went_to_tab tabpage ∷ []) self.old self.new }
    {
        self.stage.go_to_tab(tabpage);
    }

    /// Lets a live window show a live buffer, at row 0 (help: nvim_win_set_buf()).
    pub fn show(&mut self, window: i64, buffer: i64)
        requires window { is_live_window self.old.stage.workspace window ≡ true }
        requires live { is_live_buffer self.old buffer ≡ true }
        ensures { Does (shown window buffer ∷ []) self.old self.new }
    {
        self.known_text(buffer);
        self.stage.show(window, buffer);
    }

    /// Puts the cursor of a live window at a place of its text (help: nvim_win_set_cursor()).
    pub fn put_cursor(&mut self, window: i64, pos: Pos)
        requires live { is_live_window self.old.stage.workspace window ≡ true }
        requires within { IfSome (window_at self.old.stage.workspace window)
            (λ w. IsCursorIn (content_at self.old w.buffer).text pos) }
        ensures { Does (cursor_put window pos ∷ []) self.old self.new }
    {
        self.stage.put_cursor(window, pos);
    }

    /// Puts the first row that a live window shows, which is one of its text.
    pub fn put_top(&mut self, window: i64, row: u32)
        requires live { is_live_window self.old.stage.workspace window ≡ true }
        requires within { IfSome (window_at self.old.stage.workspace window)
            (λ w. row < length (content_at self.old w.buffer).text) }
        ensures { Does (top_put window row ∷ []) self.old self.new }
    {
        self.stage.put_top(window, row);
    }

    /// Puts the width that a live window wishes, in cells; 0 is no wish (help:
    /// nvim_win_set_width()).
    pub fn put_width(&mut self, window: i64, n: u32)
        requires live { is_live_window self.old.stage.workspace window ≡ true }
        requires width { n < 2 ^ 16 }
        ensures { Does (wish_put window Across n ∷ []) self.old self.new }
    {
        self.stage.put_width(window, n);
    }

    /// Puts the height that a live window wishes, in cells, with its status line; 0 is no wish
    /// (help: nvim_win_set_height()).
    pub fn put_height(&mut self, window: i64, n: u32)
        requires live { is_live_window self.old.stage.workspace window ≡ true }
        requires height { n < 2 ^ 16 }
        ensures { Does (wish_put window Down n ∷ []) self.old self.new }
    {
        self.stage.put_height(window, n);
    }

    /// Opens the next window on a side of a live one. It shows a live buffer at row 0. With
    /// `enter` it becomes current, and its tabpage too (help: nvim_open_win()).
    ///
    /// `NoId` comes exactly where no handle is left, else `NoRoom` exactly where its tabpage's tree
    /// would not have its least size on the screen; then nothing changes, nor where memory is
    /// wanting.
    pub fn open_window(
        &mut self,
        beside: i64,
        side: Side,
        buffer: i64,
        wishes: Wishes,
        enter: bool,
    ) -> Result<Opened, AllocError>
        requires beside { is_live_window self.old.stage.workspace beside ≡ true }
        requires live { is_live_buffer self.old buffer ≡ true }
        requires width { wishes.width < 2 ^ 16 }
        requires height { wishes.height < 2 ^ 16 }
        ensures told { IfOk result (λ told. told ≡ opening self.old.stage.workspace beside side) }
        ensures done { OnOk result (Does
            (if has_window_left self.old.stage.workspace
            && has_room_beside self.old.stage.workspace beside side
            then window_opened beside side buffer wishes.width wishes.height
            ∷ (if enter then went_to_window self.old.stage.workspace.next_window ∷ [] else [])
            else []) self.old self.new) }
        ensures kept { OnOk result
            ((has_window_left self.old.stage.workspace
            && has_room_beside self.old.stage.workspace beside side) ≡ false
            → self.new ≡ self.old) }
        ensures err { OnErr result (self.new ≡ self.old) }
    {
        self.known_text(buffer);
        let told = self
            .stage
            .open_window(self.alloc, beside, side, buffer, wishes, enter)?;
        Ok(told)
    }

    /// Closes a live window, and its tabpage where it is the only one of it (help:
    /// nvim_win_close()). `false` comes exactly where it is the only window of the only tabpage;
    /// then nothing changes, nor where memory is wanting.
    pub fn close_window(&mut self, window: i64) -> Result<bool, AllocError>
        requires { is_live_window self.old.stage.workspace window ≡ true }
        ensures told { IfOk result (λ closed. closed
            ≡ not (is_only_window self.old.stage.workspace window)) }
        ensures done { OnOk result
            (Does (closing_operations self.old.stage.workspace window) self.old self.new) }
        ensures kept { OnOk result
            (is_only_window self.old.stage.workspace window ≡ true → self.new ≡ self.old) }
        ensures err { OnErr result (self.new ≡ self.old) }
    {
        let closed = self.stage.close_window(self.alloc, window)?;
        Ok(closed)
    }

    /// Makes the next tabpage behind the current one, with the next window on a live buffer; both
    /// become current (help: :tabnew). `None` comes exactly where no handle is left; then nothing
    /// changes, nor where memory is wanting.
    pub fn make_tab(&mut self, buffer: i64) -> Result<Option<i64>, AllocError>
        requires live { is_live_buffer self.old buffer ≡ true }
        ensures told { IfOk result (λ told. told ≡ tabpage_opening self.old.stage.workspace) }
        ensures done { OnOk result (Does
            (if has_handles_left self.old.stage.workspace then tab_made buffer ∷ [] else [])
            self.old self.new) }
        ensures kept { OnOk result
            (has_handles_left self.old.stage.workspace ≡ false → self.new ≡ self.old) }
        ensures err { OnErr result (self.new ≡ self.old) }
    {
        self.known_text(buffer);
        let made = self.stage.make_tab(self.alloc, buffer)?;
        Ok(made)
    }

    /// Closes the current tabpage with its windows (help: :tabclose). `false` comes exactly where
    /// it is the only one, and then nothing changes.
    pub fn close_tab(&mut self) -> bool
        ensures told { result ≡ not (has_one_tabpage self.old.stage.workspace) }
        ensures done { Does (tab_closing_operations self.old.stage.workspace) self.old self.new }
        ensures kept { has_one_tabpage self.old.stage.workspace ≡ true → self.new ≡ self.old }
    {
        self.stage.close_tab()
    }
}
