// Where bytes come from, and where they go.
ghost use Rattle.std.specs.Prelude.{◌≤◌, ◌≡◌, ℕ, ◌<◌, List, [], ◌∷◌, length, take};
ghost use Rattle.nv_io.specs.Faults.{Rose};
ghost use Rattle.nv_io.specs.Words.{SinkWords, SourceWords};
ghost use Rattle.std.specs.declared.option.Option.{Option};
ghost use Rattle.std.specs.Io.KnownBytes.{append_known, prepend_known, IsAtEnd};
ghost use Rattle.nv_io.specs.Reading.{bytes_got, IfBytes};
ghost use Rattle.nv_io.specs.Streams.{AddsReads};
ghost use Rattle.nv_io.specs.Writing.{bytes_put, IfTook};
ghost use Rattle.std.specs.Bool.{OnTrue, OnFalse};

/// Counts one fault more.
pub fn count_fault(faults: &mut u64)
    ensures rose { Rose faults.old faults.new }
    ensures later { faults.old ≤ faults.new }
{
    *faults = faults.saturating_add(1);
}

/// What one read gave.
#[derive(Debug, Clone, Copy, PartialEq, Eq)]
pub enum Got {
    /// So many bytes, at the front of the buffer.
    Bytes(usize),
    /// Nothing, since nothing is left.
    End,
    /// Nothing, for a fault.
    Failed,
}

/// Bytes that come in. Its meaning is the bytes that were taken, the bytes that are left and what
/// each read gave, where these are told, and a count of faults, which never falls.
pub trait Source {
    // What it tells of itself.
    ghost words: { Self → SourceWords };

    /// Puts the next bytes at the front of `into`, as many as there are just now and fit.
    fn read<R>(&mut self, rt: &R, into: &mut [u8]) -> Got
        requires { 0 < length into.old }
        ensures count { IfBytes result (λ n. (0 < n) × (n ≤ length into.new)) }
        ensures taken { (words self.new).taken ≡ append_known (words self.old).taken
            (bytes_got result into.new) }
        ensures left { (words self.old).left ≡ prepend_known (bytes_got result into.new)
            (words self.new).left }
        ensures reads { AddsReads (words self.old).reads (words self.new).reads
            (bytes_got result into.new ∷ []) }
        ensures end { result ≡ Got.End → IsAtEnd (words self.new).left }
        ensures later { (words self.old).faults ≤ (words self.new).faults }
        ensures failed { result ≡ Got.Failed → Rose (words self.old).faults
            (words self.new).faults };
}

/// What one write took.
#[derive(Debug, Clone, Copy, PartialEq, Eq)]
pub enum Put {
    /// So many bytes, from the front of the piece.
    Took(usize),
    /// Nothing, for a fault.
    Failed,
}

/// Bytes that go out. Its meaning is the bytes that were taken, where these are told, and a count
/// of faults, which never falls.
pub trait Sink {
    // What it tells of itself.
    ghost words: { Self → SinkWords };

    /// Takes bytes from the front of `piece`, as many as there is room for just now.
    fn write<R>(&mut self, rt: &R, piece: &[u8]) -> Put
        requires { 0 < length piece.now }
        ensures count { IfTook result (λ n. (0 < n) × (n ≤ length piece.now)) }
        ensures taken { (words self.new).taken
            ≡ append_known (words self.old).taken (bytes_put result piece.now) }
        ensures later { (words self.old).faults ≤ (words self.new).faults }
        ensures failed { result ≡ Put.Failed → Rose (words self.old).faults
            (words self.new).faults };

    /// Closes the connection both ways. What was taken stays taken.
    fn finish<R>(&mut self, rt: &R)
        ensures taken { (words self.new).taken ≡ (words self.old).taken }
        ensures later { (words self.old).faults ≤ (words self.new).faults };
}

/// Writes to `sink` until all of `bytes` was taken. `false` says that a write failed: then a part
/// of them from the front was taken, maybe none.
pub fn put_all<R, S: Sink>(rt: &R, sink: &mut S, bytes: &[u8]) -> bool
    ensures all { OnTrue result ((S.words sink.new).taken
        ≡ append_known (S.words sink.old).taken bytes.now) }
    ensures prefix { (n : ℕ) × (n ≤ length bytes.now)
        × ((S.words sink.new).taken ≡ append_known (S.words sink.old).taken (take n bytes.now)) }
    ensures later { (S.words sink.old).faults ≤ (S.words sink.new).faults }
    ensures failed { OnFalse result (Rose (S.words sink.old).faults (S.words sink.new).faults) }
{
    let mut done = 0;
    while done < bytes.len() {
        match sink.write(rt, &bytes[done..]) {
            Put::Took(count) => done += count,
            Put::Failed => return false,
        }
    }
    true
}
