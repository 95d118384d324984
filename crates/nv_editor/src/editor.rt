//! The editor: what it keeps, and the calls that only read or put a name or an option.
ghost use Rattle.std.specs.Prelude.{◌≡◌, ◌≤◌, ◌∷◌, [], true, not, length, IfOk, MatchOption, None, Some};
ghost use Rattle.nv_windows.specs.Workspace.{current_buffer, current_window};
ghost use Rattle.std.specs.List.{list_any};
ghost use Rattle.nv_model.specs.Deleting.{no_buffer_left, other_handles};
ghost use Rattle.nv_model.specs.Editors.{at_handle, handles_of};
ghost use Rattle.nv_model.specs.Keeping.{fresh_kept};
ghost use Rattle.nv_model.specs.Operations.{name_put, modifiable_put, modified_put, listed_put, tabstop_put};
ghost use Rattle.nv_model.specs.Seen.{is_name_of};
ghost use Rattle.nv_model.specs.Stage.{or_current};
ghost use Rattle.nv_model.specs.Standing.{seen_now};
ghost use Rattle.nv_editor.specs.Doing.{Does};
ghost use Rattle.nv_editor.specs.Sound.{IsSoundEditor, is_live_buffer};

use crate::buffers::Buffers;
use crate::naming::Namespaces;
use crate::stage::Stage;
use nv_buffer::{Buffer, Line};
use nv_hl::Groups;
use nv_model::Limits;
use nv_windows::Windows;
use std::alloc::{AllocError, Global};
use std::collections::btree_map::Keys;
use std::marker::Model;

/// The greatest handle of a buffer.
pub(crate) const LAST_HANDLE: i64 = 4_611_686_018_427_387_904;

/// An editor. Each window shows a live buffer, with its cursor and its first row in the text.
#[derive(Drop)]
pub struct Editor {
    pub(crate) alloc: Global,
    pub(crate) buffers: Buffers,
    pub(crate) stage: Stage,
    // The handles of the buffers that may have an open change.
    pub(crate) edited: Vec<i64>,
}

impl Model for Editor {
    ghost use Rattle.nv_model.specs.Standing.{PresentEditor};

    ghost Value = { PresentEditor };

    ghost use Rattle.nv_layout.specs.Codes.{shape_code};
    ghost use Rattle.std.specs.Coded.{codes};

    ghost coded = { Prim.hlevel (codes, shape_code) };

    ghost use Rattle.nv_editor.specs.Sound.{IsSoundEditor};
    ghost use Rattle.nv_editor.specs.inside.Table.{AreKeptBuffers};

    ghost view = { λ e. record { buffers = e.buffers; stage = e.stage } };

    ghost invariant = { λ e. IsSoundEditor (record { buffers = e.buffers; stage = e.stage })
        × AreKeptBuffers e.edited.items e.buffers };
}

impl Editor {
    /// An editor with buffer 1, which is empty, in window 1000 of tabpage 1, on a screen of 80 by
    /// 24 cells.
    pub fn new(alloc: Global, limits: Limits) -> Result<Editor, AllocError>
        ensures { IfOk result (λ e. e ≡ fresh_kept limits) }
    {
        let buffers = Buffers::new(alloc)?;
        let stage = Stage::new(alloc, limits)?;
        Ok(Editor {
            alloc,
            buffers,
            stage,
            edited: Vec::new(alloc),
        })
    }

    /// What allocates.
    pub fn alloc(&self) -> Global {
        self.alloc
    }

    /// What is known of each editor, for callers whose proofs need it. It does nothing.
    pub fn known(&self)
        ensures { IsSoundEditor self.now }
    {
        let _ = &self.stage;
    }

    /// The buffer of a handle; `None` exactly where it isn't live.
    pub fn buffer(&self, n: i64) -> Option<&Buffer>
        ensures { MatchOption result (at_handle self.now.buffers n ≡ None)
            (λ b. at_handle self.now.buffers n ≡ Some b.now) }
    {
        self.buffers.get(n)
    }

    /// How many live buffers there are.
    pub fn buffer_count(&self) -> usize
        ensures { result ≡ length self.now.buffers }
    {
        self.buffers.count()
    }

    /// The handles of the live buffers, rising.
    pub fn handles(&self) -> Keys<'_, i64, Buffer>
        ensures { result ≡ handles_of self.now.buffers }
    {
        self.buffers.handles()
    }

    /// Whether a live buffer but one has a name (help: nvim_buf_set_name()).
    pub fn is_named_other(&self, n: i64, name: &[u8]) -> bool
        ensures { result ≡ list_any (λ k. is_name_of name.now ((seen_now self.now).buffer k))
            (other_handles n (handles_of self.now.buffers)) }
    {
        self.buffers.is_named_other(n, name)
    }

    /// The handle that a call means: 0 is the current buffer (help: api-types).
    pub fn named_buffer(&self, n: i64) -> i64
        ensures { result ≡ or_current (current_buffer self.now.stage.workspace) n }
    {
        if n == 0 {
            self.stage.current_buffer()
        } else {
            n
        }
    }

    /// The same for a window.
    pub fn named_window(&self, n: i64) -> i64
        ensures { result ≡ or_current (current_window self.now.stage.workspace) n }
    {
        if n == 0 {
            self.windows().current_window()
        } else {
            n
        }
    }

    /// The same for a tabpage.
    pub fn named_tabpage(&self, n: i64) -> i64
        ensures { result ≡ or_current self.now.stage.workspace.tabpage n }
    {
        if n == 0 { self.windows().current() } else { n }
    }

    /// Windows and tabpages.
    pub fn windows(&self) -> &Windows
        ensures { result.now ≡ self.now.stage.workspace }
    {
        self.stage.windows()
    }

    pub fn namespaces(&self) -> &Namespaces
        ensures { result.now ≡ self.now.stage.namespaces }
    {
        self.stage.namespaces()
    }

    /// The highlight groups.
    pub fn groups(&self) -> &Groups
        ensures { result.now ≡ self.now.stage.groups }
    {
        self.stage.groups()
    }

    pub fn limits(&self) -> Limits
        ensures { result ≡ self.now.stage.limits }
    {
        self.stage.limits()
    }

    /// Whether a handle is left for a further buffer.
    pub fn handle_left(&self) -> bool
        ensures { result ≡ not (no_buffer_left self.now.stage) }
    {
        self.stage.next_buffer() <= LAST_HANDLE
    }

    /// Puts the name of a live buffer.
    pub fn put_name(&mut self, buffer: i64, name: Line)
        requires live { is_live_buffer self.old buffer ≡ true }
        ensures { Does (name_put buffer name ∷ []) self.old self.new }
    {
        self.buffers.put_name(buffer, name);
    }

    /// Puts whether the text of a live buffer may be changed by a client (help: 'modifiable').
    pub fn put_modifiable(&mut self, buffer: i64, on: bool)
        requires live { is_live_buffer self.old buffer ≡ true }
        ensures { Does (modifiable_put buffer on ∷ []) self.old self.new }
    {
        self.buffers.put_modifiable(buffer, on);
    }

    /// Puts whether a live buffer counts as changed (help: 'modified').
    pub fn put_modified(&mut self, buffer: i64, on: bool)
        requires live { is_live_buffer self.old buffer ≡ true }
        ensures { Does (modified_put buffer on ∷ []) self.old self.new }
    {
        self.buffers.put_modified(buffer, on);
    }

    /// Puts whether a live buffer is shown in lists of buffers (help: 'buflisted').
    pub fn put_listed(&mut self, buffer: i64, on: bool)
        requires live { is_live_buffer self.old buffer ≡ true }
        ensures { Does (listed_put buffer on ∷ []) self.old self.new }
    {
        self.buffers.put_listed(buffer, on);
    }

    /// Puts how many cells a tab reaches at most in a live buffer (help: 'tabstop').
    pub fn put_tabstop(&mut self, buffer: i64, cells: u32)
        requires live { is_live_buffer self.old buffer ≡ true }
        requires least { 1 ≤ cells }
        requires greatest { cells ≤ 9999 }
        ensures { Does (tabstop_put buffer cells ∷ []) self.old self.new }
    {
        self.buffers.put_tabstop(buffer, cells);
    }
}
