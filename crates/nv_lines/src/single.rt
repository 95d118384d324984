// One line.
ghost use Rattle.std.specs.Prelude.{◌≡◌, ◌↔◌, ◌^◌, ◌<◌, [], length, IsTrue, IfOk, OnOk, slice_get, option_copied};
ghost use Rattle.nv_places.specs.Flat.{IsLine};

use memchr::memchr;
use nv_value::Bytes;
use std::alloc::{AllocError, Global};
use std::marker::Model;

/// Whether bytes are one line: none of them is 10.
pub fn is_line(bytes: &[u8]) -> bool
    ensures { IsTrue result ↔ IsLine bytes.now }
{
    memchr(10, bytes).is_none()
}

/// A line: bytes, none of which is 10. They may be any others, UTF-8 or not. They never change, and
/// who shares them has the same memory.
#[derive(Drop)]
pub struct Line {
    bytes: Bytes,
}

impl Model for Line {
    ghost use Rattle.std.specs.Prelude.{List, ℕ};
    ghost use Rattle.nv_places.specs.Flat.{IsLine};

    ghost Value = { List ℕ };

    ghost view = { λ line. line.bytes };

    ghost invariant = { λ line. IsLine line.bytes };
}

impl Line {
    /// A line without bytes.
    pub fn new(alloc: Global) -> Result<Line, AllocError>
        ensures { IfOk result (λ line. line ≡ []) }
    {
        let bytes = Bytes::new(alloc)?;
        Ok(Line { bytes })
    }

    /// The line of bytes that are shared. They are moved, and nothing is copied.
    pub fn from_bytes(bytes: Bytes) -> Line
        requires { IsLine bytes }
        ensures { result ≡ bytes }
    {
        Line { bytes }
    }

    /// The line of the bytes of a vector.
    pub fn from_vec(bytes: Vec<u8>) -> Result<Line, AllocError>
        requires { IsLine bytes.items }
        ensures { IfOk result (λ line. line ≡ bytes.items) }
    {
        let bytes = Bytes::from_vec(bytes)?;
        Ok(Line { bytes })
    }

    /// Its bytes, moved out.
    pub fn into_bytes(self) -> Bytes
        ensures value { result ≡ self }
        ensures line { IsLine result }
    {
        self.bytes
    }

    /// The same line, shared: one owner more, and no bytes copied.
    pub fn share(&self) -> Result<Line, AllocError>
        ensures bytes { IfOk result (λ line. line ≡ self.now) }
        ensures few { OnOk result (length self.now < 2 ^ 32) }
    {
        let bytes = self.bytes.share()?;
        Ok(Line { bytes })
    }

    /// The number of bytes.
    pub fn len(&self) -> usize
        ensures value { result ≡ length self.now }
        ensures line { IsLine self.now }
        ensures few { result < 2 ^ 32 }
    {
        self.bytes.len()
    }

    /// Whether there is no byte.
    pub fn is_empty(&self) -> bool
        ensures { IsTrue result ↔ (self.now ≡ []) }
    {
        self.bytes.len() == 0
    }

    /// The byte at a place, from 0. `None` exactly at or past the end.
    pub fn get(&self, place: usize) -> Option<&u8>
        ensures { option_copied result ≡ slice_get self.now place }
    {
        self.bytes.get(place)
    }

    /// All bytes, lent.
    pub fn as_slice(&self) -> &[u8]
        ensures value { result.now ≡ self.now }
        ensures line { IsLine result.now }
    {
        self.bytes.as_slice()
    }

    /// All bytes, lent as they are shared.
    pub fn as_bytes(&self) -> &Bytes
        ensures value { result.now ≡ self.now }
        ensures line { IsLine result.now }
    {
        &self.bytes
    }
}
