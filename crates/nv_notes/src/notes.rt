//! The virtual texts of an editor.

ghost use Rattle.nv_notes.specs.Notes.{note_at, notes_with};
ghost use Rattle.std.specs.Prelude.{◌≡◌, [], OnErr, OnOk, option_map};

use crate::note::Note;
use std::alloc::{AllocError, Global};
use std::collections::BTreeMap;
use std::marker::Model;

/// The virtual texts of an editor: of each buffer by the number of the setting that it came with,
/// in an ordered map.
#[derive(Drop)]
pub struct Notes {
    kept: BTreeMap<(i64, u64), Note>,
}

impl Model for Notes {
    ghost use Rattle.std.specs.Prelude.{List, ℕ, ℤ};
    ghost use Rattle.nv_notes.specs.Notes.{NoteText};

    ghost Value = { List ((ℤ × ℕ) × NoteText) };

    ghost view = { λ n. n.kept.entries };
}

impl Notes {
    /// None.
    pub fn new(alloc: Global) -> Notes
        ensures { result ≡ [] }
    {
        Notes {
            kept: BTreeMap::new(alloc),
        }
    }

    /// The virtual text of a buffer that came with a setting, if one did.
    pub fn get(&self, buffer: i64, set: u64) -> Option<&Note>
        ensures { option_map (λ note. note.now) result ≡ note_at self.now buffer set }
    {
        self.kept.get(&(buffer, set))
    }

    /// Puts the virtual text that comes with a setting of a buffer, in place of one that did.
    /// Without memory nothing changes.
    pub fn put(&mut self, buffer: i64, set: u64, note: Note) -> Result<(), AllocError>
        ensures ok { OnOk result (self.new ≡ notes_with buffer set note self.old) }
        ensures err { OnErr result (self.new ≡ self.old) }
    {
        self.kept.insert((buffer, set), note)?;
        Ok(())
    }
}
