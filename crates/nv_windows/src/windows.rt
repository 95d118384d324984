//! All windows and tabpages of an editor.

ghost use Rattle.nv_layout.specs.declared.nodes.Axis.TheVariants.{Across, Down};
ghost use Rattle.nv_places.specs.Places.{IsNarrow, further};
ghost use Rattle.nv_windows.specs.Operations.{after_close, after_opening, after_sizing, after_tab_close, after_tab_new, at_tabpage, at_window, has_one_tabpage, is_only_window, opening, tabpage_opening, with_buffer_in, with_buffer_instead, with_cursor, with_top, with_wish_of};
ghost use Rattle.nv_windows.specs.Rooms.{all_fit, all_windows, has_room_beside, has_tabpage_left, has_window_left, text_area};
ghost use Rattle.nv_windows.specs.Views.{MovesNarrowlyIn, after_splice};
ghost use Rattle.nv_windows.specs.Workspace.{current_window, fresh_workspace, handles_of_windows, is_live_window, is_live_tabpage, page_of, showing, tabpage_at, tabpage_of, window_at};
ghost use Rattle.std.specs.Prelude.{◌≡◌, ◌≢◌, ◌<◌, ◌^◌, All, IfOk, MatchOption, None, OnErr, OnOk, Some, map, not, option_copied, option_map, true};

use crate::parts::{Parts, without_status};
use crate::seats::Seats;
use crate::slots::{showing, window_at};
use crate::tabs::{all_windows, tabpage_at};
use crate::window::{Opened, Tabpage, Window, Wishes};
use nv_layout::{Axis, Rect, Side};
use nv_places::{Extent, Pos};
use std::alloc::{AllocError, Global};
use std::marker::Model;

/// All windows in their tabpages, and the size of the screen that they share.
///
/// Each window is in one tabpage, and each tabpage's tree has its least size on the screen. Handles
/// rise, windows from 1000 and tabpages from 1, and none is given twice.
#[derive(Drop)]
pub struct Windows {
    parts: Parts,
    seats: Seats,
}

impl Model for Windows {
    ghost use Rattle.nv_windows.specs.Workspace.{Workspace};

    ghost Value = { Workspace };

    ghost use Rattle.nv_layout.specs.Codes.{shape_code};
    ghost use Rattle.std.specs.Coded.{codes};

    ghost coded = { Prim.hlevel (codes, shape_code) };

    ghost use Rattle.nv_windows.specs.Kept.{workspace_of};

    ghost view = { λ w. workspace_of w.parts };

    ghost use Rattle.nv_windows.specs.inside.Seats.{IsSoundSeating};

    ghost invariant = { λ w. IsSoundSeating (workspace_of w.parts) w.seats.all.items };
}

impl Windows {
    ghost use Rattle.nv_windows.specs.Sound.{IsSoundWorkspace};

    /// Window 1000 on a buffer in tabpage 1, on a screen of 80 by 24. (own rule)
    pub fn new(alloc: Global, buffer: i64) -> Result<Windows, AllocError>
        ensures { IfOk result (λ windows. windows ≡ fresh_workspace buffer) }
    {
        let parts = Parts::new(alloc, buffer)?;
        let mut seats = Seats::new(alloc);
        seats.renew(&parts);
        Ok(Windows { parts, seats })
    }

    /// The window of a handle; `None` exactly where it isn't live.
    pub fn find(&self, window: i64) -> Option<&Window>
        ensures { option_copied result ≡ window_at self.now window }
    {
        window_at(&self.parts.windows, window)
    }

    /// The tabpage of a handle; `None` exactly where it isn't live.
    pub fn tabpage(&self, tabpage: i64) -> Option<&Tabpage>
        ensures { MatchOption result (tabpage_at self.now tabpage ≡ None)
            (λ t. tabpage_at self.now tabpage ≡ Some (page_of t.now)) }
    {
        tabpage_at(&self.parts.tabpages, tabpage)
    }

    /// The text cells of a window on the screen, without its status line; `None` exactly where it
    /// isn't live. Where its tabpage isn't current, they are those that it would have.
    pub fn area(&self, window: i64) -> Option<Rect>
        ensures { result ≡ text_area self.now window }
    {
        match self.seats.spot(window) {
            Some(spot) => Some(without_status(spot.rect)),
            None => self.parts.area(window),
        }
    }

    /// The handle of the tabpage that a window is in; `None` exactly where it isn't live. No memory
    /// is taken.
    pub fn home(&self, window: i64) -> Option<i64>
        ensures { result ≡ option_map (λ t. t.handle) (tabpage_of self.now window) }
    {
        match self.seats.spot(window) {
            Some(spot) => Some(spot.tabpage),
            None => self.parts.home(window),
        }
    }

    /// The handles of all windows by tabpage, then in tree order (help: nvim_list_wins()).
    pub fn all(&self, alloc: Global) -> Result<Vec<i64>, AllocError>
        ensures { IfOk result (λ all. all.items ≡ all_windows self.now) }
    {
        all_windows(alloc, &self.parts.tabpages)
    }

    /// All windows by rising handles. No memory is taken.
    pub fn windows(&self) -> &[Window]
        ensures windows { result.now ≡ self.now.windows }
        ensures sound { IsSoundWorkspace self.now }
    {
        &self.parts.windows
    }

    /// The handles of the windows that show a buffer, rising.
    pub fn showing(&self, alloc: Global, buffer: i64) -> Result<Vec<i64>, AllocError>
        ensures { IfOk result (λ handles. handles.items
            ≡ handles_of_windows (showing buffer self.now.windows)) }
    {
        showing(alloc, &self.parts.windows, buffer)
    }

    /// The tabpages in their order. No memory is taken.
    pub fn tabpages(&self) -> &[Tabpage]
        ensures { map page_of result.now ≡ self.now.tabpages }
    {
        &self.parts.tabpages
    }

    /// The handle of the current tabpage. No memory is taken.
    pub fn current(&self) -> i64
        ensures { result ≡ self.now.tabpage }
    {
        self.parts.tabpage
    }

    /// The handle of the current window, that of the current tabpage. No memory is taken.
    pub fn current_window(&self) -> i64
        ensures { result ≡ current_window self.now }
    {
        match self.tabpage(self.parts.tabpage) {
            Some(tabpage) => tabpage.current,
            None => 0,
        }
    }

    /// The screen's width and height in cells. No memory is taken.
    pub fn size(&self) -> (u32, u32)
        ensures width { result.0 ≡ self.now.width }
        ensures height { result.1 ≡ self.now.height }
    {
        (self.parts.width, self.parts.height)
    }

    /// Whether a window's handle is left. No memory is taken.
    pub fn window_left(&self) -> bool
        ensures { result ≡ has_window_left self.now }
    {
        self.parts.window_left()
    }

    /// Whether a tabpage's handle is left. No memory is taken.
    pub fn tabpage_left(&self) -> bool
        ensures { result ≡ has_tabpage_left self.now }
    {
        self.parts.tabpage_left()
    }

    /// Whether there is room for a further window on a side of a live one.
    pub fn fits(&self, alloc: Global, beside: i64, side: Side) -> Result<bool, AllocError>
        requires { is_live_window self.now beside ≡ true }
        ensures { IfOk result (λ fits. fits ≡ has_room_beside self.now beside side) }
    {
        self.parts.fits(alloc, beside, side)
    }

    /// Opens the next window on a side of a live one. It shows a buffer at row 0. With `enter` it
    /// becomes current, and its tabpage too (help: nvim_open_win()).
    ///
    /// `NoId` comes exactly where no handle is left, else `NoRoom` exactly where its tabpage's tree
    /// would not have its least size on the screen; then nothing changes, nor where memory is
    /// wanting.
    pub fn open(
        &mut self,
        alloc: Global,
        beside: i64,
        side: Side,
        buffer: i64,
        wishes: Wishes,
        enter: bool,
    ) -> Result<Opened, AllocError>
        requires live { is_live_window self.old beside ≡ true }
        requires width { wishes.width < 2 ^ 16 }
        requires height { wishes.height < 2 ^ 16 }
        ensures told { IfOk result (λ told. told ≡ opening self.old beside side) }
        ensures after { OnOk result (self.new
            ≡ after_opening beside side buffer wishes.width wishes.height enter self.old) }
        ensures err { OnErr result (self.new ≡ self.old) }
    {
        let told = self.parts.open(alloc, beside, side, buffer, wishes, enter);
        self.seats.renew(&self.parts);
        told
    }

    /// Closes a live window, and its tabpage where it is the only one of it (help:
    /// nvim_win_close()).
    ///
    /// `false` comes exactly where it is the only window of the only tabpage; then nothing changes,
    /// nor where memory is wanting.
    pub fn close(&mut self, alloc: Global, window: i64) -> Result<bool, AllocError>
        requires live { is_live_window self.old window ≡ true }
        ensures told { IfOk result (λ closed. closed ≡ not (is_only_window self.old window)) }
        ensures after { OnOk result (self.new ≡ after_close window self.old) }
        ensures err { OnErr result (self.new ≡ self.old) }
    {
        let closed = self.parts.close(alloc, window, &self.seats);
        self.seats.renew(&self.parts);
        closed
    }

    /// Closes the current tabpage with its windows (help: :tabclose). `false` comes exactly where
    /// it is the only one, and then nothing changes. No memory is needed.
    pub fn tab_close(&mut self) -> bool
        ensures told { result ≡ not (has_one_tabpage self.old) }
        ensures after { self.new ≡ after_tab_close self.old }
    {
        let closed = self.parts.tab_close(&self.seats);
        self.seats.renew(&self.parts);
        closed
    }

    /// Makes the next tabpage behind the current one, with the next window on a buffer; both become
    /// current (help: :tabnew). `None` comes exactly where no handle is left, and then nothing
    /// changes, nor where memory is wanting.
    pub fn tab_new(&mut self, alloc: Global, buffer: i64) -> Result<Option<i64>, AllocError>
        ensures told { IfOk result (λ told. told ≡ tabpage_opening self.old) }
        ensures after { OnOk result (self.new ≡ after_tab_new buffer self.old) }
        ensures err { OnErr result (self.new ≡ self.old) }
    {
        let tabpage = self.parts.tab_new(alloc, buffer);
        self.seats.renew(&self.parts);
        tabpage
    }

    /// Gives the screen another size in cells, whose last row no window has. `false` comes exactly
    /// where some tabpage's tree would not have its least size on it, and then nothing changes. No
    /// memory is needed.
    pub fn put_size(&mut self, width: u32, height: u32) -> bool
        requires width { width < 2 ^ 16 }
        requires height { height < 2 ^ 16 }
        ensures told { result ≡ all_fit width height self.old }
        ensures after { self.new ≡ after_sizing width height self.old }
    {
        let fits = self.parts.put_size(width, height);
        self.seats.renew(&self.parts);
        fits
    }

    /// Puts the width that a live window wishes, in cells, in place of the one that it had; 0 is
    /// none. No memory is needed (help: nvim_win_set_width()).
    pub fn put_width(&mut self, window: i64, n: u32)
        requires live { is_live_window self.old window ≡ true }
        requires width { n < 2 ^ 16 }
        ensures { self.new ≡ with_wish_of window Across n self.old }
    {
        self.parts.put_wish(window, Axis::Across, n);
        self.seats.renew(&self.parts);
    }

    /// The same for its height, which counts the status line (help: nvim_win_set_height()).
    pub fn put_height(&mut self, window: i64, n: u32)
        requires live { is_live_window self.old window ≡ true }
        requires height { n < 2 ^ 16 }
        ensures { self.new ≡ with_wish_of window Down n self.old }
    {
        self.parts.put_wish(window, Axis::Down, n);
        self.seats.renew(&self.parts);
    }

    /// Puts a live window's cursor. No memory is taken (help: nvim_win_set_cursor()).
    pub fn put_cursor(&mut self, window: i64, pos: Pos)
        requires { is_live_window self.old window ≡ true }
        ensures { self.new ≡ with_cursor window pos self.old }
    {
        self.parts.put_cursor(window, pos);
    }

    /// Puts the first row that a live window shows. No memory is taken.
    pub fn put_top(&mut self, window: i64, row: u32)
        requires { is_live_window self.old window ≡ true }
        ensures { self.new ≡ with_top window row self.old }
    {
        self.parts.put_top(window, row);
    }

    /// Lets a live window show a buffer, at row 0. No memory is taken (help: nvim_win_set_buf()).
    pub fn show(&mut self, window: i64, buffer: i64)
        requires { is_live_window self.old window ≡ true }
        ensures { self.new ≡ with_buffer_in window buffer self.old }
    {
        self.parts.show(window, buffer);
    }

    /// Lets the windows that show a buffer show another one, at row 0. No memory is taken.
    pub fn show_instead(&mut self, old: i64, new: i64)
        ensures { self.new ≡ with_buffer_instead old new self.old }
    {
        self.parts.show_instead(old, new);
    }

    /// Makes a live window the current one, and its tabpage the current one. No memory is taken
    /// (help: nvim_set_current_win()).
    pub fn go(&mut self, window: i64)
        requires { is_live_window self.old window ≡ true }
        ensures { self.new ≡ at_window window self.old }
    {
        self.parts.go(window);
    }

    /// Makes a live tabpage the current one. No memory is taken (help: nvim_set_current_tabpage()).
    pub fn go_tab(&mut self, tabpage: i64)
        requires { is_live_tabpage self.old tabpage ≡ true }
        ensures { self.new ≡ at_tabpage tabpage self.old }
    {
        self.parts.go_tab(tabpage);
    }

    /// Moves what the windows that show a buffer show after a splice of its text: the extent `old`
    /// from `start` on became the extent `new`, and the text has `count` lines afterwards.
    ///
    /// Cursors and the starts of first rows move with left gravity, and their rows stay in the
    /// text. A cursor's column is left to whoever knows its line. No memory is taken. (own rule)
    pub fn splice(&mut self, buffer: i64, start: Pos, old: Extent, new: Extent, count: usize)
        requires some { count ≢ 0 }
        requires old_end { IsNarrow (further start old) }
        requires new_end { IsNarrow (further start new) }
        requires moved { All (MovesNarrowlyIn buffer
            (record { start = start; old = old; new = new; count = count })) self.old.windows }
        ensures { self.new ≡ after_splice buffer
            (record { start = start; old = old; new = new; count = count }) self.old }
    {
        self.parts.splice(buffer, start, old, new, count);
    }
}
