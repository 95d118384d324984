//! What a listing puts out.
ghost use Rattle.std.specs.Prelude.{◌≡◌, ◌+◌, ◌≤◌, ◌++◌, ◌∷◌, [], length, IfOk};
ghost use Rattle.std.specs.Bool.{OnTrue, OnFalse};
ghost use Rattle.std.specs.Io.KnownBytes.{append_known};
ghost use Rattle.nv_io.specs.Faults.{Rose};
ghost use Rattle.nv_places.specs.Flat.{flat};
ghost use Rattle.nv_mirror.specs.Listings.{text_heading};
ghost use Rattle.nv_mirror.specs.inside.Pages.{IsBuffered, GoesPartly};

use itoa::Buffer;
use nv_io::{Sink, put_all};
use nv_lines::{Line, LineList};
use std::alloc::{AllocError, Global};
use std::marker::Model;

/// The bytes that wait at most.
const ROOM: usize = 65_536;

/// Bytes that wait to be written, so that short lines go out together. A text is never held whole:
/// what doesn't fit in the page goes out, and a line that is longer isn't copied.
#[derive(Drop)]
pub struct Page {
    waiting: Vec<u8>,
}

impl Model for Page {
    ghost use Rattle.std.specs.Prelude.{◌≤◌, List, ℕ, vec_len, vec_capacity};
    ghost use Rattle.nv_mirror.specs.declared.page.TheConstants.{ROOM};

    ghost Value = { List ℕ };

    ghost view = { λ p. p.waiting.items };

    ghost invariant = { λ p. (vec_len p.waiting ≤ ROOM) × (ROOM ≤ vec_capacity p.waiting) };
}

impl Page {
    /// Nothing waits.
    pub fn new(alloc: Global) -> Result<Page, AllocError>
        ensures { IfOk result (λ page. page ≡ []) }
    {
        let waiting = Vec::with_capacity(alloc, ROOM)?;
        Ok(Page { waiting })
    }

    // Writes what waits. `false` is a fault.
    fn put_out<R, O: Sink>(&mut self, rt: &R, output: &mut O) -> bool
        ensures all { OnTrue result ((O.words output.new).taken
            ≡ append_known (O.words output.old).taken self.old) }
        ensures nothing { OnTrue result (self.new ≡ []) }
        ensures part { GoesPartly self.old (O.words output.old).taken (O.words output.new).taken }
        ensures later { (O.words output.old).faults ≤ (O.words output.new).faults }
        ensures failed { OnFalse result (Rose (O.words output.old).faults
            (O.words output.new).faults) }
    {
        if !put_all(rt, output, self.waiting.as_slice()) {
            return false;
        }
        self.waiting.clear();
        true
    }

    // Adds bytes for which there is room.
    fn keep(&mut self, bytes: &[u8])
        requires { length self.old + length bytes.now ≤ ROOM }
        ensures { self.new ≡ self.old ++ bytes.now }
    {
        let _ = self.waiting.extend_from_slice(bytes);
    }

    // Adds bytes that don't fit in. `false` is a fault.
    fn put_more<R, O: Sink>(&mut self, rt: &R, output: &mut O, bytes: &[u8]) -> bool
        ensures all { OnTrue result (IsBuffered (self.old ++ bytes.now) (O.words output.old).taken
            (O.words output.new).taken self.new) }
        ensures part { OnFalse result (GoesPartly (self.old ++ bytes.now) (O.words output.old).taken
            (O.words output.new).taken) }
        ensures later { (O.words output.old).faults ≤ (O.words output.new).faults }
        ensures failed { OnFalse result (Rose (O.words output.old).faults
            (O.words output.new).faults) }
    {
        if !self.put_out(rt, output) {
            return false;
        }
        if bytes.len() > ROOM {
            return put_all(rt, output, bytes);
        }
        self.keep(bytes);
        true
    }

    // Adds bytes. `false` is a fault.
    fn put<R, O: Sink>(&mut self, rt: &R, output: &mut O, bytes: &[u8]) -> bool
        ensures all { OnTrue result (IsBuffered (self.old ++ bytes.now) (O.words output.old).taken
            (O.words output.new).taken self.new) }
        ensures part { OnFalse result (GoesPartly (self.old ++ bytes.now) (O.words output.old).taken
            (O.words output.new).taken) }
        ensures later { (O.words output.old).faults ≤ (O.words output.new).faults }
        ensures failed { OnFalse result (Rose (O.words output.old).faults
            (O.words output.new).faults) }
    {
        if bytes.len() > ROOM - self.waiting.len() {
            return self.put_more(rt, output, bytes);
        }
        self.keep(bytes);
        true
    }

    // Adds a line and its end. `false` is a fault.
    fn put_line<R, O: Sink>(&mut self, rt: &R, output: &mut O, line: &[u8]) -> bool
        ensures all { OnTrue result (IsBuffered (self.old ++ (line.now ++ 10 ∷ []))
            (O.words output.old).taken (O.words output.new).taken self.new) }
        ensures part { OnFalse result (GoesPartly (self.old ++ (line.now ++ 10 ∷ []))
            (O.words output.old).taken (O.words output.new).taken) }
        ensures later { (O.words output.old).faults ≤ (O.words output.new).faults }
        ensures failed { OnFalse result (Rose (O.words output.old).faults
            (O.words output.new).faults) }
    {
        if !self.put(rt, output, line) {
            return false;
        }
        self.put(rt, output, b"\n")
    }

    // Adds lines. `false` is a fault.
    fn put_lines<R, O: Sink>(&mut self, rt: &R, output: &mut O, lines: &[Line]) -> bool
        ensures all { OnTrue result (IsBuffered (self.old
            ++ flat lines.now) (O.words output.old).taken
            (O.words output.new).taken self.new) }
        ensures part { OnFalse result (GoesPartly (self.old ++ flat lines.now)
            (O.words output.old).taken (O.words output.new).taken) }
        ensures later { (O.words output.old).faults ≤ (O.words output.new).faults }
        ensures failed { OnFalse result (Rose (O.words output.old).faults
            (O.words output.new).faults) }
    {
        for line in lines {
            if !self.put_line(rt, output, line.as_slice()) {
                return false;
            }
        }
        true
    }

    // Adds what goes before the lines of a text, where nothing waits.
    fn keep_heading(&mut self, tick: i64, count: usize)
        requires { self.old ≡ [] }
        ensures { self.new ≡ text_heading tick count }
    {
        let mut digits = Buffer::new();
        self.keep(b"tick ");
        self.keep(digits.format(tick).as_bytes());
        self.keep(b" lines ");
        self.keep(digits.format(count).as_bytes());
        self.keep(b"\n");
    }

    /// Writes a text at a changedtick, where nothing waits. `false` is a fault.
    pub fn put_text<R, O: Sink>(
        &mut self,
        rt: &R,
        output: &mut O,
        tick: i64,
        text: &LineList,
    ) -> bool
        requires { self.old ≡ [] }
        ensures all { OnTrue result ((O.words output.new).taken
            ≡ append_known (O.words output.old).taken
            (text_heading tick (length text.now) ++ flat text.now)) }
        ensures nothing { OnTrue result (self.new ≡ []) }
        ensures part { OnFalse result (GoesPartly
            (text_heading tick (length text.now) ++ flat text.now)
            (O.words output.old).taken (O.words output.new).taken) }
        ensures later { (O.words output.old).faults ≤ (O.words output.new).faults }
        ensures failed { OnFalse result (Rose (O.words output.old).faults
            (O.words output.new).faults) }
    {
        self.keep_heading(tick, text.len());
        if !self.put_lines(rt, output, text.as_slice()) {
            return false;
        }
        self.put_out(rt, output)
    }
}
