//! The text of a cell.

ghost use Rattle.nv_hl.specs.inside.Kept.{FitsShort, kept_bytes};
ghost use Rattle.std.specs.Str.{bytes_eq};
ghost use Rattle.std.specs.Prelude.{◌≡◌, ◌≤◌, ◌∷◌, [], ◌==◌, IfOk, length, take};

use std::alloc::{AllocError, Global};
use std::marker::Model;

/// The greatest length of a text that is kept in place.
const ROOM: usize = 14;

/// The bytes of a text: in place, or behind a pointer.
#[derive(Drop)]
enum Kept {
    Short(u8, [u8; 14]),
    Long(Box<Vec<u8>>),
}

/// What a cell shows: the bytes of a cluster. Up to 14 bytes are kept in place.
#[derive(Drop)]
pub struct CellText {
    kept: Kept,
}

impl Model for CellText {
    ghost use Rattle.std.specs.Prelude.{List, ℕ};
    ghost use Rattle.nv_hl.specs.inside.Kept.{FitsShort, kept_bytes};

    ghost Value = { List ℕ };

    ghost view = { λ t. kept_bytes t.kept };

    ghost invariant = { λ t. FitsShort t.kept };
}

impl CellText {
    /// No text: what the right half of a pair of cells has.
    pub fn empty() -> CellText
        ensures { result ≡ [] }
    {
        CellText {
            kept: Kept::Short(0, [0; 14]),
        }
    }

    /// The text of one byte.
    pub fn from_byte(byte: u8) -> CellText
        ensures { result ≡ byte ∷ [] }
    {
        let mut bytes = [0; 14];
        bytes[0] = byte;
        CellText {
            kept: Kept::Short(1, bytes),
        }
    }

    /// A text of these bytes.
    pub fn new(alloc: Global, bytes: &[u8]) -> Result<CellText, AllocError>
        ensures { IfOk result (λ t. t ≡ bytes.now) }
    {
        if bytes.len() <= ROOM {
            return Ok(CellText::short(bytes));
        }
        let bytes = Box::new(alloc, Vec::from_slice(alloc, bytes)?)?;
        Ok(CellText {
            kept: Kept::Long(bytes),
        })
    }

    // A text that is kept in place.
    fn short(bytes: &[u8]) -> CellText
        requires { length bytes.now ≤ 14 }
        ensures { result ≡ bytes.now }
    {
        let mut place = [0; 14];
        place[..bytes.len()].copy_from_slice(bytes);
        CellText {
            kept: Kept::Short(bytes.len() as u8, place),
        }
    }

    /// The bytes of the text.
    pub fn as_slice(&self) -> &[u8]
        ensures { result.now ≡ self.now }
    {
        match &self.kept {
            Kept::Short(len, bytes) => &bytes[..*len as usize],
            Kept::Long(bytes) => bytes.as_slice(),
        }
    }

    /// Whether there is no text.
    pub fn is_empty(&self) -> bool
        ensures { result ≡ (length self.now == 0) }
    {
        self.as_slice().is_empty()
    }

    /// Whether both have the same bytes.
    pub fn is_same(&self, other: &CellText) -> bool
        ensures { result ≡ bytes_eq self.now other.now }
    {
        self.as_slice() == other.as_slice()
    }

    /// A copy.
    pub fn copy(&self, alloc: Global) -> Result<CellText, AllocError>
        ensures { IfOk result (λ t. t ≡ self.now) }
    {
        match &self.kept {
            Kept::Short(len, bytes) => Ok(CellText {
                kept: Kept::Short(*len, *bytes),
            }),
            Kept::Long(bytes) => CellText::new(alloc, bytes.as_slice()),
        }
    }
}
