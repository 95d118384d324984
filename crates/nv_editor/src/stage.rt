//! All of an editor but its buffers.
ghost use Rattle.nv_notes.specs.Notes.{AreNotesOf};
ghost use Rattle.std.specs.Prelude.{◌≡◌, ◌+ℤ◌, ◌<ℤ◌, pos, IfOk};
ghost use Rattle.nv_model.specs.Stage.{fresh_stage, in_workspace};
ghost use Rattle.nv_windows.specs.Operations.{with_buffer_instead};
ghost use Rattle.nv_windows.specs.Workspace.{current_buffer};

use crate::naming::Namespaces;
use nv_hl::Groups;
use nv_model::{Limits, Ui};
use nv_notes::Notes;
use nv_windows::Windows;
use std::alloc::{AllocError, Global};
use std::marker::Model;

/// Windows and tabpages, namespaces, groups, virtual texts, UIs by rising sessions, the next
/// buffer's handle and the limits.
#[derive(Drop)]
pub struct Stage {
    pub(crate) windows: Windows,
    pub(crate) namespaces: Namespaces,
    pub(crate) groups: Groups,
    pub(crate) notes: Notes,
    pub(crate) uis: Vec<Ui>,
    pub(crate) next_buffer: i64,
    pub(crate) limits: Limits,
}

impl Model for Stage {
    ghost use Rattle.nv_model.specs.Stage.{Stage};

    ghost Value = { Stage };

    ghost use Rattle.nv_layout.specs.Codes.{shape_code};
    ghost use Rattle.std.specs.Coded.{codes};

    ghost coded = { Prim.hlevel (codes, shape_code) };

    ghost view = { λ s. record {
      workspace = s.windows;
      namespaces = s.namespaces;
      groups = s.groups;
      notes = s.notes;
      uis = s.uis.items;
      next_buffer = s.next_buffer;
      limits = s.limits;
    } };

    ghost use Rattle.nv_notes.specs.Notes.{AreNotesOf};

    ghost invariant = { λ s. AreNotesOf s.groups s.notes };
}

impl Stage {
    /// Buffer 1 in window 1000 of tabpage 1, on a screen of 80 by 24.
    pub fn new(alloc: Global, limits: Limits) -> Result<Stage, AllocError>
        ensures { IfOk result (λ stage. stage ≡ fresh_stage limits) }
    {
        let windows = Windows::new(alloc, 1)?;
        let groups = Groups::new(alloc)?;
        Ok(Stage {
            windows,
            namespaces: Namespaces::new(alloc),
            groups,
            notes: Notes::new(alloc),
            uis: Vec::new(alloc),
            next_buffer: 2,
            limits,
        })
    }

    pub fn windows(&self) -> &Windows
        ensures { result.now ≡ self.now.workspace }
    {
        &self.windows
    }

    pub fn namespaces(&self) -> &Namespaces
        ensures { result.now ≡ self.now.namespaces }
    {
        &self.namespaces
    }

    pub fn groups(&self) -> &Groups
        ensures { result.now ≡ self.now.groups }
    {
        &self.groups
    }

    pub fn notes(&self) -> &Notes
        ensures notes { result.now ≡ self.now.notes }
        ensures groups { AreNotesOf self.now.groups self.now.notes }
    {
        &self.notes
    }

    pub fn uis(&self) -> &[Ui]
        ensures { result.now ≡ self.now.uis }
    {
        self.uis.as_slice()
    }

    pub fn next_buffer(&self) -> i64
        ensures { result ≡ self.now.next_buffer }
    {
        self.next_buffer
    }

    pub fn limits(&self) -> Limits
        ensures { result ≡ self.now.limits }
    {
        self.limits
    }

    /// The handle of the current buffer.
    pub fn current_buffer(&self) -> i64
        ensures { result ≡ current_buffer self.now.workspace }
    {
        match self.windows.find(self.windows.current_window()) {
            Some(window) => window.buffer,
            None => 0,
        }
    }

    /// Counts the next buffer's handle on.
    pub fn count_buffer(&mut self)
        requires { self.old.next_buffer <ℤ i64.MAX }
        ensures { self.new ≡ record self.old {
          next_buffer = self.old.next_buffer +ℤ pos 1;
        } }
    {
        self.next_buffer += 1;
    }

    /// Lets the windows that show a buffer show another one, at row 0.
    pub fn show_instead(&mut self, old: i64, new: i64)
        ensures { self.new ≡ in_workspace (with_buffer_instead old new) self.old }
    {
        self.windows.show_instead(old, new);
    }
}
