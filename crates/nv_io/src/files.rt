// Where named sources and sinks come from.
ghost use Rattle.std.specs.Prelude.{◌≡◌, ℕ, ◌+◌, ◌≤◌, List, [], ◌∷◌, IfSome, IsNone, option_map};
ghost use Rattle.std.specs.declared.option.Option.{Option};
ghost use Rattle.nv_io.specs.Faults.{Rose};
ghost use Rattle.nv_io.specs.Words.{FilesWords};
ghost use Rattle.nv_io.specs.Known.{append_items, out_after, IsNoItem, IsOut, IsUnused};

use crate::streams::{Sink, Source};
use std::fs::File;
use std::rt::Files as SystemFiles;

/// Sources and sinks by their names. Its meaning is those that came back and how many are out,
/// where these are told, and a count of faults, which never falls.
pub trait Files {
    type From: Source + Drop;

    type To: Sink + Drop;

    // The names that it may be asked for.
    ghost may: { List ℕ → Type 0 };

    // What it tells of itself.
    ghost words: { Self → FilesWords Self.From Self.To };

    /// A source with what stands under a name. `None` is a fault.
    fn source<R: SystemFiles<File = File>>(&mut self, rt: &R, name: &str) -> Option<Self::From>
        requires { may name.now }
        ensures fresh { IfSome result (λ source.
            IsUnused (Self.From.Source.words source).taken (Self.From.Source.words source).faults) }
        ensures unread { IfSome result (λ source. IsNoItem (Self.From.Source.words source).reads) }
        ensures returned_sources { (words self.new).returned_sources
            ≡ (words self.old).returned_sources }
        ensures returned_sinks { (words self.new).returned_sinks ≡ (words self.old).returned_sinks }
        ensures lent_sources { (words self.new).lent_sources
            ≡ out_after result (words self.old).lent_sources }
        ensures lent_sinks { (words self.new).lent_sinks ≡ (words self.old).lent_sinks }
        ensures later { (words self.old).faults ≤ (words self.new).faults }
        ensures failed { IsNone result → Rose (words self.old).faults (words self.new).faults };

    /// A sink under a name, in place of what stood there. `None` is a fault.
    fn sink<R: SystemFiles<File = File>>(&mut self, rt: &R, name: &str) -> Option<Self::To>
        requires { may name.now }
        ensures fresh { IfSome result (λ sink.
            IsUnused (Self.To.Sink.words sink).taken (Self.To.Sink.words sink).faults) }
        ensures returned_sources { (words self.new).returned_sources
            ≡ (words self.old).returned_sources }
        ensures returned_sinks { (words self.new).returned_sinks ≡ (words self.old).returned_sinks }
        ensures lent_sources { (words self.new).lent_sources ≡ (words self.old).lent_sources }
        ensures lent_sinks { (words self.new).lent_sinks
            ≡ out_after result (words self.old).lent_sinks }
        ensures later { (words self.old).faults ≤ (words self.new).faults }
        ensures failed { IsNone result → Rose (words self.old).faults (words self.new).faults };

    /// Takes back a sink.
    fn back(&mut self, file: Self::To)
        requires { IsOut (words self.old).lent_sinks }
        ensures returned_sources { (words self.new).returned_sources
            ≡ (words self.old).returned_sources }
        ensures returned_sinks { (words self.new).returned_sinks
            ≡ append_items (words self.old).returned_sinks (file ∷ []) }
        ensures lent_sources { (words self.new).lent_sources ≡ (words self.old).lent_sources }
        ensures lent_sinks { (words self.old).lent_sinks
            ≡ option_map (λ n. n + 1) (words self.new).lent_sinks }
        ensures later { (words self.old).faults ≤ (words self.new).faults };

    /// Takes back a source.
    fn back_source(&mut self, file: Self::From)
        requires { IsOut (words self.old).lent_sources }
        ensures returned_sources { (words self.new).returned_sources
            ≡ append_items (words self.old).returned_sources (file ∷ []) }
        ensures returned_sinks { (words self.new).returned_sinks ≡ (words self.old).returned_sinks }
        ensures lent_sources { (words self.old).lent_sources
            ≡ option_map (λ n. n + 1) (words self.new).lent_sources }
        ensures lent_sinks { (words self.new).lent_sinks ≡ (words self.old).lent_sinks }
        ensures later { (words self.old).faults ≤ (words self.new).faults };
}
