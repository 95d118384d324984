//! The fields of all windows and tabpages, and what each operation does to them.

ghost use Rattle.nv_layout.specs.Changes.{holds, split};
ghost use Rattle.nv_layout.specs.Content.{shape_of};
ghost use Rattle.nv_layout.specs.Least.{IsMeasurable, leaves_of};
ghost use Rattle.nv_places.specs.Places.{IsNarrow, further};
ghost use Rattle.nv_windows.specs.Operations.{with_wishes};
ghost use Rattle.nv_windows.specs.Rooms.{without_status};
ghost use Rattle.nv_windows.specs.Views.{MovesNarrowlyIn, after_splice};
ghost use Rattle.nv_windows.specs.Workspace.{page_of, plain_leaf};
ghost use Rattle.std.specs.Prelude.{◌≡◌, ◌≢◌, ◌<◌, All, IfOk, OnErr, OnOk, length, not, option_map, true};

use crate::seats::Seats;
use crate::slots::{drop_window, move_views, put_cursor, put_top, show, show_instead, window_on};
use crate::tabs::{
    all_fit, close_in, current_after, drop_tabpage, drop_windows_of, fits, home_handle, home_of,
    place_among, put_behind, put_current, put_wish,
};
use crate::window::{Opened, Tabpage, Window, Wishes};
use nv_layout::{Axis, Leaf, Rect, Side, Tree, leaves, rect_of};
use nv_places::{Extent, Pos};
use std::alloc::{AllocError, Global};

/// The greatest handle.
const LAST_HANDLE: i64 = 4_611_686_018_427_387_904;

/// Windows by rising handles, and tabpages in their order.
#[derive(Drop)]
pub(crate) struct Parts {
    pub(crate) windows: Vec<Window>,
    pub(crate) tabpages: Vec<Tabpage>,
    /// The handle of the current tabpage.
    pub(crate) tabpage: i64,
    pub(crate) width: u32,
    pub(crate) height: u32,
    /// The handles that the next window and the next tabpage get.
    pub(crate) next_window: i64,
    pub(crate) next_tabpage: i64,
}

impl Parts {
    ghost use Rattle.nv_windows.specs.Kept.{page_at, with_next_window, with_tree_at, without_window_at, workspace_of};
    ghost use Rattle.nv_windows.specs.Operations.{after_close, after_opening, after_sizing, after_tab_close, after_tab_new, at_tabpage, at_window, entered_where, has_one_tabpage, is_only_window, opening, tabpage_opening, with_buffer_in, with_buffer_instead, with_cursor, with_top, with_wish_of, without_tabpage};
    ghost use Rattle.nv_windows.specs.Rooms.{all_fit, has_room_beside, has_tabpage_left, has_window_left, next_leaf, text_area, windows_area};
    ghost use Rattle.nv_windows.specs.Sound.{IsSoundWorkspace};
    ghost use Rattle.nv_windows.specs.inside.Seats.{IsSoundSeating};
    ghost use Rattle.nv_windows.specs.Workspace.{fresh_workspace, tabpage_of};

    /// Window 1000 on a buffer in tabpage 1, on a screen of 80 by 24.
    pub(crate) fn new(alloc: Global, buffer: i64) -> Result<Parts, AllocError>
        ensures { IfOk result (λ parts. workspace_of parts ≡ fresh_workspace buffer) }
    {
        let mut windows = Vec::with_capacity(alloc, 1)?;
        windows.push(window_on(1000, buffer))?;
        let mut tabpages = Vec::with_capacity(alloc, 1)?;
        tabpages.push(tabpage_on(1, 1000))?;
        Ok(Parts {
            windows,
            tabpages,
            tabpage: 1,
            width: 80,
            height: 24,
            next_window: 1001,
            next_tabpage: 2,
        })
    }

    /// Whether a window's handle is left.
    pub(crate) fn window_left(&self) -> bool
        ensures { result ≡ has_window_left (workspace_of self.now) }
    {
        self.next_window <= LAST_HANDLE
    }

    /// Whether a tabpage's handle is left.
    pub(crate) fn tabpage_left(&self) -> bool
        ensures { result ≡ has_tabpage_left (workspace_of self.now) }
    {
        self.next_tabpage <= LAST_HANDLE
    }

    /// The text cells of a window.
    pub(crate) fn area(&self, window: i64) -> Option<Rect>
        requires { IsSoundWorkspace (workspace_of self.now) }
        ensures { result ≡ text_area (workspace_of self.now) window }
    {
        let home = home_of(&self.tabpages, window)?;
        let screen = self.windows_area();
        let rect = rect_of(&self.tabpages[home].tree, screen, window)?;
        Some(without_status(rect))
    }

    /// The rows and columns that windows have.
    pub(crate) fn windows_area(&self) -> Rect
        ensures { result ≡ windows_area (workspace_of self.now) }
    {
        Rect {
            row: 0,
            col: 0,
            width: self.width,
            height: self.height.saturating_sub(1),
        }
    }

    /// The handle of the tabpage that a window is in.
    pub(crate) fn home(&self, window: i64) -> Option<i64>
        ensures { result ≡ option_map (λ t. t.handle)
            (tabpage_of (workspace_of self.now) window) }
    {
        let home = home_of(&self.tabpages, window)?;
        Some(self.tabpages[home].handle)
    }

    /// The tree that the tabpage at a place gets where the next window is opened in it.
    fn tree_opened(
        &self,
        alloc: Global,
        home: usize,
        beside: i64,
        side: Side,
    ) -> Result<Tree, AllocError>
        requires sound { IsSoundWorkspace (workspace_of self.now) }
        requires place { home < length self.now.tabpages.items }
        requires held { holds beside (page_at (workspace_of self.now) home).tree ≡ true }
        ensures tree { IfOk result (λ tree. shape_of tree
            ≡ split side beside (next_leaf (workspace_of self.now))
            (page_at (workspace_of self.now) home).tree) }
        ensures small { IfOk result (λ tree. IsMeasurable (shape_of tree)) }
    {
        let leaf = Leaf {
            window: self.next_window,
            width: 0,
            height: 0,
        };
        self.tabpages[home].tree.opened(alloc, beside, side, leaf)
    }

    /// Whether there is room for a further window on a side of one.
    pub(crate) fn fits(&self, alloc: Global, beside: i64, side: Side) -> Result<bool, AllocError>
        requires { IsSoundWorkspace (workspace_of self.now) }
        ensures { IfOk result (λ fits. fits ≡ has_room_beside (workspace_of self.now) beside side) }
    {
        let Some(home) = home_of(&self.tabpages, beside) else {
            return Ok(false);
        };
        let tree = self.tree_opened(alloc, home, beside, side)?;
        Ok(fits(&tree, self.width, self.height))
    }

    /// Opens the next window.
    pub(crate) fn open(
        &mut self,
        alloc: Global,
        beside: i64,
        side: Side,
        buffer: i64,
        wishes: Wishes,
        enter: bool,
    ) -> Result<Opened, AllocError>
        requires sound { IsSoundWorkspace (workspace_of self.old) }
        ensures told { IfOk result (λ told. told ≡ opening (workspace_of self.old) beside side) }
        ensures after { OnOk result (workspace_of self.new
            ≡ after_opening beside side buffer wishes.width wishes.height enter
            (workspace_of self.old)) }
        ensures err { OnErr result (workspace_of self.new ≡ workspace_of self.old) }
    {
        if !self.window_left() {
            return Ok(Opened::NoId);
        }
        let Some(home) = home_of(&self.tabpages, beside) else {
            return Ok(Opened::NoRoom);
        };
        let tree = self.tree_opened(alloc, home, beside, side)?;
        if !fits(&tree, self.width, self.height) {
            return Ok(Opened::NoRoom);
        }
        let window = self.next_window;
        let tree = wishing(tree, window, wishes.width, wishes.height);
        self.put_opened(home, tree, buffer)?;
        self.enter_where(enter, window);
        Ok(Opened::Window(window))
    }

    /// Puts the next window on a buffer, and the tree with it in the tabpage at a place.
    fn put_opened(&mut self, home: usize, tree: Tree, buffer: i64) -> Result<(), AllocError>
        requires place { home < length self.old.tabpages.items }
        requires left { has_window_left (workspace_of self.old) ≡ true }
        ensures ok { OnOk result (workspace_of self.new
            ≡ with_next_window buffer (with_tree_at (workspace_of self.old) home (shape_of tree))) }
        ensures err { OnErr result (workspace_of self.new ≡ workspace_of self.old) }
    {
        self.windows.push(window_on(self.next_window, buffer))?;
        self.tabpages[home].tree = tree;
        self.next_window += 1;
        Ok(())
    }

    /// Makes a window the current one, or not.
    fn enter_where(&mut self, enter: bool, window: i64)
        ensures { workspace_of self.new ≡ entered_where enter window (workspace_of self.old) }
    {
        if enter {
            self.go(window);
        }
    }

    /// Makes a window, and its tabpage, the current one.
    pub(crate) fn go(&mut self, window: i64)
        ensures { workspace_of self.new ≡ at_window window (workspace_of self.old) }
    {
        self.tabpage = home_handle(&self.tabpages, window, self.tabpage);
        put_current(&mut self.tabpages, window);
    }

    /// Makes a tabpage the current one.
    pub(crate) fn go_tab(&mut self, tabpage: i64)
        ensures { workspace_of self.new ≡ at_tabpage tabpage (workspace_of self.old) }
    {
        self.tabpage = tabpage;
    }

    /// Puts the wish of a window along an axis.
    pub(crate) fn put_wish(&mut self, window: i64, axis: Axis, wish: u32)
        ensures { workspace_of self.new ≡ with_wish_of window axis wish (workspace_of self.old) }
    {
        put_wish(&mut self.tabpages, window, axis, wish);
    }

    /// Puts a window's cursor.
    pub(crate) fn put_cursor(&mut self, window: i64, pos: Pos)
        requires { IsSoundWorkspace (workspace_of self.old) }
        ensures { workspace_of self.new ≡ with_cursor window pos (workspace_of self.old) }
    {
        put_cursor(&mut self.windows, window, pos);
    }

    /// Puts the first row that a window shows.
    pub(crate) fn put_top(&mut self, window: i64, row: u32)
        requires { IsSoundWorkspace (workspace_of self.old) }
        ensures { workspace_of self.new ≡ with_top window row (workspace_of self.old) }
    {
        put_top(&mut self.windows, window, row);
    }

    /// Lets a window show a buffer, from row 0 on.
    pub(crate) fn show(&mut self, window: i64, buffer: i64)
        requires { IsSoundWorkspace (workspace_of self.old) }
        ensures { workspace_of self.new ≡ with_buffer_in window buffer (workspace_of self.old) }
    {
        show(&mut self.windows, window, buffer);
    }

    /// Lets the windows that show a buffer show another one, from row 0 on.
    pub(crate) fn show_instead(&mut self, old: i64, new: i64)
        ensures { workspace_of self.new ≡ with_buffer_instead old new (workspace_of self.old) }
    {
        show_instead(&mut self.windows, old, new);
    }

    /// Moves the windows that show a buffer after a splice of its text.
    pub(crate) fn splice(&mut self, buffer: i64, start: Pos, old: Extent, new: Extent, count: usize)
        requires some { count ≢ 0 }
        requires old_end { IsNarrow (further start old) }
        requires new_end { IsNarrow (further start new) }
        requires moved { All (MovesNarrowlyIn buffer
            (record {
              start = start;
              old = old;
              new = new;
              count = count;
            })) self.old.windows.items }
        ensures { workspace_of self.new ≡ after_splice buffer
            (record { start = start; old = old; new = new; count = count })
            (workspace_of self.old) }
    {
        move_views(&mut self.windows, buffer, start, old, new, count);
    }

    /// Closes a window, and its tabpage where it is the only one of it.
    pub(crate) fn close(
        &mut self,
        alloc: Global,
        window: i64,
        seats: &Seats,
    ) -> Result<bool, AllocError>
        requires { IsSoundSeating (workspace_of self.old) seats.now.all.items }
        ensures told { IfOk result (λ closed. closed
            ≡ not (is_only_window (workspace_of self.old) window)) }
        ensures after { OnOk result (workspace_of self.new
            ≡ after_close window (workspace_of self.old)) }
        ensures err { OnErr result (workspace_of self.new ≡ workspace_of self.old) }
    {
        let Some(home) = home_of(&self.tabpages, window) else {
            return Ok(false);
        };
        if leaves(&self.tabpages[home].tree) > 1 {
            self.close_one(alloc, home, window)?;
            return Ok(true);
        }
        if self.tabpages.len() == 1 {
            return Ok(false);
        }
        let tabpage = self.tabpages[home].handle;
        self.close_tabpage(tabpage, seats);
        Ok(true)
    }

    /// Closes one of several windows of the tabpage at a place.
    fn close_one(&mut self, alloc: Global, home: usize, window: i64) -> Result<(), AllocError>
        requires place { home < length self.old.tabpages.items }
        requires held { holds window (page_at (workspace_of self.old) home).tree ≡ true }
        requires more { 1 < length (leaves_of (page_at (workspace_of self.old) home).tree) }
        ensures ok { OnOk result (workspace_of self.new
            ≡ without_window_at window home (workspace_of self.old)) }
        ensures err { OnErr result (workspace_of self.new ≡ workspace_of self.old) }
    {
        close_in(alloc, &mut self.tabpages[home], window)?;
        drop_window(&mut self.windows, window);
        Ok(())
    }

    /// Closes a tabpage with all its windows.
    fn close_tabpage(&mut self, tabpage: i64, seats: &Seats)
        requires { IsSoundSeating (workspace_of self.old) seats.now.all.items }
        ensures { workspace_of self.new ≡ without_tabpage tabpage (workspace_of self.old) }
    {
        drop_windows_of(&mut self.windows, &self.tabpages, tabpage, seats);
        let place = place_among(&self.tabpages, tabpage);
        drop_tabpage(&mut self.tabpages, tabpage);
        self.tabpage = current_after(&self.tabpages, place, self.tabpage, tabpage);
    }

    /// Closes the current tabpage, where it isn't the only one.
    pub(crate) fn tab_close(&mut self, seats: &Seats) -> bool
        requires { IsSoundSeating (workspace_of self.old) seats.now.all.items }
        ensures told { result ≡ not (has_one_tabpage (workspace_of self.old)) }
        ensures after { workspace_of self.new ≡ after_tab_close (workspace_of self.old) }
    {
        if self.tabpages.len() == 1 {
            return false;
        }
        self.close_tabpage(self.tabpage, seats);
        true
    }

    /// Makes the next tabpage, with the next window, behind the current one.
    pub(crate) fn tab_new(&mut self, alloc: Global, buffer: i64) -> Result<Option<i64>, AllocError>
        requires sound { IsSoundWorkspace (workspace_of self.old) }
        ensures told { IfOk result (λ told. told ≡ tabpage_opening (workspace_of self.old)) }
        ensures after { OnOk result (workspace_of self.new
            ≡ after_tab_new buffer (workspace_of self.old)) }
        ensures err { OnErr result (workspace_of self.new ≡ workspace_of self.old) }
    {
        if !self.window_left() || !self.tabpage_left() {
            return Ok(None);
        }
        self.windows.reserve(1)?;
        let tabpage = self.next_tabpage;
        let window = self.next_window;
        put_behind(
            &mut self.tabpages,
            self.tabpage,
            tabpage_on(tabpage, window),
        )?;
        let _ = self.windows.push(window_on(window, buffer));
        self.tabpage = tabpage;
        self.next_window += 1;
        self.next_tabpage += 1;
        Ok(Some(tabpage))
    }

    /// Gives the screen another size, where each tree has its least size on it.
    pub(crate) fn put_size(&mut self, width: u32, height: u32) -> bool
        requires { IsSoundWorkspace (workspace_of self.old) }
        ensures told { result ≡ all_fit width height (workspace_of self.old) }
        ensures after { workspace_of self.new ≡ after_sizing width height (workspace_of self.old) }
    {
        if !all_fit(&self.tabpages, width, height) {
            return false;
        }
        self.width = width;
        self.height = height;
        true
    }
}

/// The text cells of a window by its rectangle.
pub(crate) fn without_status(rect: Rect) -> Rect
    ensures { result ≡ without_status rect }
{
    Rect {
        height: rect.height.saturating_sub(1),
        ..rect
    }
}

/// A tree in which a window wishes a width and a height.
fn wishing(mut tree: Tree, window: i64, width: u32, height: u32) -> Tree
    ensures { shape_of result ≡ with_wishes window width height (shape_of tree) }
{
    tree.put_wish(window, Axis::Across, width);
    tree.put_wish(window, Axis::Down, height);
    tree
}

/// A tabpage with one window.
fn tabpage_on(handle: i64, window: i64) -> Tabpage
    ensures { page_of result
        ≡ record { handle = handle; tree = plain_leaf window; current = window } }
{
    Tabpage {
        handle,
        tree: Tree::Leaf(Leaf {
            window,
            width: 0,
            height: 0,
        }),
        current: window,
    }
}
