//! Virtual texts.

ghost use Rattle.std.specs.Prelude.{◌≡◌};

use nv_lines::Line;
use std::marker::Model;

/// Where a virtual text is (help: nvim_buf_set_extmark(), virt_text_pos).
#[derive(Clone, Copy, PartialEq, Eq, Debug)]
pub enum At {
    /// Behind the line's end, after a free column.
    Eol,
    /// Over the line, from the mark's place on.
    Overlay,
    /// At the window's right edge.
    RightAlign,
}

/// A part of a virtual text.
#[derive(Drop)]
pub struct Chunk {
    pub text: Line,
    /// The id of its highlight group, if it has one.
    pub group: Option<u32>,
}

/// A virtual text: its parts one behind another, and where it is.
#[derive(Drop)]
pub struct Note {
    chunks: Vec<Chunk>,
    at: At,
}

impl Model for Note {
    ghost use Rattle.nv_notes.specs.Notes.{NoteText};

    ghost Value = { NoteText };

    ghost view = { λ n. record { chunks = n.chunks.items; at = n.at } };
}

impl Note {
    pub fn new(chunks: Vec<Chunk>, at: At) -> Note
        ensures { result ≡ record { chunks = chunks.items; at = at } }
    {
        Note { chunks, at }
    }

    pub fn chunks(&self) -> &[Chunk]
        ensures { result.now ≡ self.now.chunks }
    {
        self.chunks.as_slice()
    }

    pub fn at(&self) -> At
        ensures { result ≡ self.now.at }
    {
        self.at
    }
}
