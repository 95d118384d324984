// A chunk of lines.
ghost use Rattle.std.specs.Prelude.{◌≡◌, ◌^◌, ◌<◌, ◌≤◌, length, IfOk, OnOk, OnErr, slice_range};
ghost use Rattle.std.specs.List.{splice};
ghost use Rattle.nv_places.specs.Flat.{flat};

use crate::listing::LineList;
use crate::measuring::flat_len;
use std::alloc::AllocError;

/// Lines that stand together, 1 to 64 of them, and the number of bytes of their flat text.
#[derive(Drop)]
pub struct Chunk {
    pub lines: LineList,
    pub bytes: u64,
}

impl Chunk {
    // Puts `new` in place of the lines from `from` up to before `to`, and gives those back.
    pub(crate) fn replace(
        &mut self,
        from: usize,
        to: usize,
        new: LineList,
    ) -> Result<LineList, AllocError>
        requires order { from ≤ to }
        requires within { to ≤ length self.old.lines }
        requires bytes { self.old.bytes ≡ length (flat self.old.lines) }
        requires small { length (flat (splice self.old.lines from to new)) < 2 ^ 64 }
        ensures ok { OnOk result (self.new.lines ≡ splice self.old.lines from to new) }
        ensures bytes { OnOk result (self.new.bytes ≡ length (flat self.new.lines)) }
        ensures taken { IfOk result (λ taken. taken ≡ slice_range self.old.lines from to) }
        ensures lines { OnErr result (self.new.lines ≡ self.old.lines) }
        ensures same { OnErr result (self.new.bytes ≡ self.old.bytes) }
    {
        let bytes = self.bytes;
        let added = flat_len(new.as_slice());
        let taken = self.lines.replace(from, to, new)?;
        self.bytes = bytes - flat_len(taken.as_slice()) + added;
        Ok(taken)
    }
}
