// Lanes, ports and files in memory.
ghost use Rattle.std.specs.Prelude.{◌≡◌, ◌+◌, ◌<◌, [], ◌∷◌, ◌++◌, IfOk, IsNone, option_to_list, length, ℕ, ◌≤◌, ◌↔◌, IsTrue, Some, ◌⊎◌, IfSome, false, ⊤};
ghost use Rattle.nv_io.specs.Faults.{Rose};
ghost use Rattle.nv_io.specs.Known.{prepend_items, append_items, ForEachItem, IsNoItem, IsUnread, IsUnused, out_after};
ghost use Rattle.nv_io.specs.Lanes.{connections_of, lent_after, IfConnection, IsFreshLane};
ghost use Rattle.nv_io.specs.Memory.{is_failing, after_call};
ghost use Rattle.std.specs.Bool.{OnFalse};

use crate::files::Files;
use crate::lanes::{Accepted, Ended, Lane, Over, Port};
use crate::memory::{Failures, MemSink, MemSource};
use crate::streams::{Sink, Source};
use std::alloc::{AllocError, Global};
use std::collections::VecDeque;
use std::fs::File;
use std::marker::Model;
use std::net::{Net, TcpListener, TcpStream};
use std::rt::Files as SystemFiles;

/// Things that are given out in order, and what comes back for each, with room for it.
#[derive(Drop)]
pub struct Shelf<G, B> {
    coming: VecDeque<G>,
    back: Vec<B>,
    out: usize,
}

impl<G, B> Model for Shelf<G, B> {
    ghost use Rattle.std.specs.Prelude.{◌+◌, ◌≤◌, vec_len, vec_capacity};
    ghost use Rattle.std.specs.VecDeque.{deque_len};
    ghost use Rattle.nv_io.specs.Shelves.{Lending};

    ghost Value = { Lending G B };

    ghost view = { λ s. record { coming = s.coming.items; back = s.back.items; out = s.out } };

    ghost invariant = { λ s. deque_len s.coming + s.out + vec_len s.back ≤ vec_capacity s.back };
}

impl<G: Drop, B: Drop> Shelf<G, B> {
    pub fn new(alloc: Global, coming: Vec<G>) -> Result<Shelf<G, B>, AllocError>
        ensures { IfOk result (λ s. s ≡ record { coming = coming.items; back = []; out = 0 }) }
    {
        let back = Vec::with_capacity(alloc, coming.len())?;
        Ok(Shelf {
            coming: VecDeque::from_vec(coming),
            back,
            out: 0,
        })
    }

    /// The next thing, which is then out. `None` says that none is left.
    pub fn give(&mut self) -> Option<G>
        ensures coming { self.old.coming ≡ option_to_list result ++ self.new.coming }
        ensures none { IsNone result → self.new.coming ≡ [] }
        ensures back { self.new.back ≡ self.old.back }
        ensures out { self.new.out ≡ length (option_to_list result) + self.old.out }
    {
        let next = self.coming.pop_front()?;
        self.out += 1;
        Some(next)
    }

    /// What came back so far, in order.
    pub fn back(&self) -> &[B]
        ensures { result.now ≡ self.now.back }
    {
        &self.back
    }

    /// Takes back what came for a thing that is out.
    pub fn take_back(&mut self, item: B)
        requires { 0 < self.old.out }
        ensures coming { self.new.coming ≡ self.old.coming }
        ensures back { self.new.back ≡ self.old.back ++ item ∷ [] }
        ensures out { self.old.out ≡ self.new.out + 1 }
    {
        self.out -= 1;
        self.back.push_reserved(item);
    }
}

/// A lane of given connections, of which chosen calls of `accept` fail.
#[derive(Drop)]
pub struct MemLane<I: Source + Send + Drop, S: Sink + Send + Drop> {
    shelf: Shelf<(I, S), Over<I, S>>,
    failures: Failures,
}

impl<I: Source + Send + Drop, S: Sink + Send + Drop> Model for MemLane<I, S> {
    ghost use Rattle.nv_io.specs.Known.{ForEachItem, IsUnread, IsUnused};
    ghost use Rattle.nv_io.specs.Shelves.{MemServing};

    ghost Value = { MemServing I S };

    ghost view = { λ l. record { shelf = l.shelf; failures = l.failures } };

    ghost invariant = { λ l. ForEachItem (λ c.
        IsUnread (I.Source.words c.0).taken (I.Source.words c.0).reads (I.Source.words c.0).faults
        × IsUnused (S.Sink.words c.1).taken (S.Sink.words c.1).faults) l.shelf.coming };
}

impl<I: Source + Send + Drop, S: Sink + Send + Drop> MemLane<I, S> {
    /// The numbers in `fails` are those of the calls of `accept` that fail, from 0.
    pub fn new(
        alloc: Global,
        conns: Vec<(I, S)>,
        fails: Vec<u64>,
    ) -> Result<MemLane<I, S>, AllocError>
        requires { ForEachItem (λ c.
            IsUnread (I.Source.words c.0).taken (I.Source.words c.0).reads
            (I.Source.words c.0).faults
            × IsUnused (S.Sink.words c.1).taken (S.Sink.words c.1).faults) conns.items }
        ensures { IfOk result (λ lane. lane ≡ record {
          shelf = record { coming = conns.items; back = []; out = 0 };
          failures = record { fails = fails.items; calls = 0; faults = 0 };
        }) }
    {
        let shelf = Shelf::new(alloc, conns)?;
        Ok(MemLane {
            shelf,
            failures: Failures::new(fails),
        })
    }

    /// The connections that ended, in order.
    pub fn over(&self) -> &[Over<I, S>]
        ensures { result.now ≡ self.now.shelf.back }
    {
        self.shelf.back()
    }
}

impl<I: Source + Send + Drop, S: Sink + Send + Drop> Lane for MemLane<I, S> {
    type In = I;

    type Out = S;

    ghost words = { λ l. record {
      coming = Some l.shelf.coming;
      over = Some l.shelf.back;
      lent = Some l.shelf.out;
      faults = l.failures.faults;
    } };

    fn accept<R>(&mut self, _rt: &R) -> Accepted<I, S>
        ensures coming { Some self.old.shelf.coming
            ≡ prepend_items (connections_of result) (Some self.new.shelf.coming) }
        ensures over { Some self.new.shelf.back ≡ Some self.old.shelf.back }
        ensures lent { Some self.new.shelf.out ≡ lent_after result (Some self.old.shelf.out) }
        ensures fresh { IfConnection result (λ input output.
            IsUnused (I.Source.words input).taken (I.Source.words input).faults
            × IsUnused (S.Sink.words output).taken (S.Sink.words output).faults) }
        ensures unread { IfConnection result (λ input output. IsNoItem
            (I.Source.words input).reads) }
        ensures done { result ≡ Accepted.Done → IsNoItem (Some self.new.shelf.coming) }
        ensures later { self.old.failures.faults ≤ self.new.failures.faults }
        ensures failed { result ≡ Accepted.Failed
            → Rose self.old.failures.faults self.new.failures.faults }

        // Just the chosen calls fail.
        ensures fails { (result ≡ Accepted.Failed) ↔ IsTrue (is_failing self.old.failures) }
        ensures calls { self.new.failures ≡ after_call self.old.failures }
    {
        if self.failures.call() {
            return Accepted::Failed;
        }
        let Some((input, output)) = self.shelf.give() else {
            return Accepted::Done;
        };
        Accepted::Conn(input, output)
    }

    fn ended(&mut self, input: I, output: S, session: u64, how: Ended)
        requires { 0 < self.old.shelf.out }
        ensures coming { Some self.new.shelf.coming ≡ Some self.old.shelf.coming }
        ensures over { Some self.new.shelf.back ≡ append_items (Some self.old.shelf.back)
            (record { input = input; output = output; session = session; how = how } ∷ []) }
        ensures lent { Some self.old.shelf.out ≡ Some (self.new.shelf.out + 1) }
        ensures later { self.old.failures.faults ≤ self.new.failures.faults }

        // It counts as no call.
        ensures calls { self.new.failures ≡ self.old.failures }
    {
        self.shelf.take_back(Over {
            input,
            output,
            session,
            how,
        });
    }

    fn wake<R: Net<Listener = TcpListener, Stream = TcpStream>>(&mut self, _rt: &R)
        ensures same { self.new ≡ self.old }
    {}
}

/// A port of given lanes, of which chosen calls fail. It listens on every address.
#[derive(Drop)]
pub struct MemPort<I: Source + Send + Drop, S: Sink + Send + Drop> {
    shelf: Shelf<MemLane<I, S>, MemLane<I, S>>,
    failures: Failures,
}

impl<I: Source + Send + Drop, S: Sink + Send + Drop> Model for MemPort<I, S> {
    ghost use Rattle.std.specs.Prelude.{Some};
    ghost use Rattle.nv_io.specs.Known.{ForEachItem};
    ghost use Rattle.nv_io.specs.Lanes.{IsFreshLane};
    ghost use Rattle.nv_io.specs.Shelves.{MemListening};

    ghost Value = { MemListening I S };

    ghost view = { λ p. record { shelf = p.shelf; failures = p.failures } };

    ghost invariant = { λ p. ForEachItem (λ lane. IsFreshLane (Some lane.shelf.back)
        (Some lane.shelf.out) lane.failures.faults) p.shelf.coming };
}

impl<I: Source + Send + Drop, S: Sink + Send + Drop> MemPort<I, S> {
    /// The numbers in `fails` are those of the calls of `listen` and `lane` that fail, from 0.
    pub fn new(
        alloc: Global,
        lanes: Vec<MemLane<I, S>>,
        fails: Vec<u64>,
    ) -> Result<MemPort<I, S>, AllocError>
        requires { ForEachItem (λ lane. IsFreshLane (Some lane.shelf.back) (Some lane.shelf.out)
            lane.failures.faults) lanes.items }
        ensures { IfOk result (λ port. port ≡ record {
          shelf = record { coming = lanes.items; back = []; out = 0 };
          failures = record { fails = fails.items; calls = 0; faults = 0 };
        }) }
    {
        Ok(MemPort {
            shelf: Shelf::new(alloc, lanes)?,
            failures: Failures::new(fails),
        })
    }

    /// The lanes that came back, in order.
    pub fn returned(&self) -> &[MemLane<I, S>]
        ensures { result.now ≡ self.now.shelf.back }
    {
        self.shelf.back()
    }
}

impl<I: Source + Send + Drop, S: Sink + Send + Drop> Port for MemPort<I, S> {
    type Line = MemLane<I, S>;

    ghost may = { λ _. ⊤ };

    ghost words = { λ p. record {
      returned = Some p.shelf.back;
      lent = Some p.shelf.out;
      faults = p.failures.faults;
    } };

    fn listen<R: SystemFiles<File = File> + Net<Listener = TcpListener, Stream = TcpStream>>(
        &mut self,
        _rt: &R,
        _address: &str,
    ) -> bool
        ensures returned { Some self.new.shelf.back ≡ Some self.old.shelf.back }
        ensures lent { Some self.new.shelf.out ≡ Some self.old.shelf.out }
        ensures later { self.old.failures.faults ≤ self.new.failures.faults }
        ensures failed { OnFalse result
            (Rose self.old.failures.faults self.new.failures.faults) }

        // Just the chosen calls fail.
        ensures fails { (result ≡ false) ↔ IsTrue (is_failing self.old.failures) }
        ensures calls { self.new.failures ≡ after_call self.old.failures }
        ensures same { self.new.shelf ≡ self.old.shelf }
    {
        !self.failures.call()
    }

    fn lane<R>(&mut self, _rt: &R) -> Option<MemLane<I, S>>
        ensures fresh { IfSome result (λ lane. IsFreshLane (Some lane.shelf.back)
            (Some lane.shelf.out) lane.failures.faults) }
        ensures returned { Some self.new.shelf.back ≡ Some self.old.shelf.back }
        ensures lent { Some self.new.shelf.out ≡ out_after result (Some self.old.shelf.out) }
        ensures later { self.old.failures.faults ≤ self.new.failures.faults }
        ensures failed { IsNone result
            → Rose self.old.failures.faults self.new.failures.faults }

        // Lanes come in order. Just the chosen calls fail, and one for which no lane is left.
        ensures coming { self.old.shelf.coming ≡ option_to_list result ++ self.new.shelf.coming }
        ensures fails { IsNone result
            ↔ (IsTrue (is_failing self.old.failures) ⊎ (self.old.shelf.coming ≡ [])) }
        ensures calls { self.new.failures ≡ record (after_call self.old.failures)
            { faults = self.new.failures.faults } }
    {
        if self.failures.call() {
            return None;
        }
        let next = self.shelf.give();
        if next.is_none() {
            self.failures.fault();
        }
        next
    }

    fn back(&mut self, lane: MemLane<I, S>)
        requires { 0 < self.old.shelf.out }
        ensures returned { Some self.new.shelf.back
            ≡ append_items (Some self.old.shelf.back) (lane ∷ []) }
        ensures lent { Some self.old.shelf.out ≡ Some (self.new.shelf.out + 1) }
        ensures later { self.old.failures.faults ≤ self.new.failures.faults }

        // It counts as no call.
        ensures calls { self.new.failures ≡ self.old.failures }
        ensures coming { self.new.shelf.coming ≡ self.old.shelf.coming }
    {
        self.shelf.take_back(lane);
    }
}

/// Given sources and sinks, one after another whatever the name, where chosen calls fail.
#[derive(Drop)]
pub struct MemFiles {
    sources: Shelf<MemSource, MemSource>,
    sinks: Shelf<MemSink, MemSink>,
    failures: Failures,
}

impl Model for MemFiles {
    ghost use Rattle.std.specs.Prelude.{Some};
    ghost use Rattle.nv_io.specs.Known.{ForEachItem, IsUnread, IsUnused};
    ghost use Rattle.nv_io.specs.Shelves.{MemNaming};

    ghost Value = { MemNaming };

    ghost view = { λ f. record { sources = f.sources; sinks = f.sinks; failures = f.failures } };

    ghost invariant = { λ f.
        ForEachItem (λ s. IsUnread (Some s.pieces.taken) s.reads s.failures.faults)
        f.sources.coming
        × ForEachItem (λ s. IsUnused (Some s.taken) s.failures.faults) f.sinks.coming };
}

impl MemFiles {
    /// The numbers in `fails` are those of the calls of `source` and `sink` that fail, from 0.
    pub fn new(
        alloc: Global,
        sources: Vec<MemSource>,
        sinks: Vec<MemSink>,
        fails: Vec<u64>,
    ) -> Result<MemFiles, AllocError>
        requires sources { ForEachItem (λ s.
            IsUnread (Some s.pieces.taken) s.reads s.failures.faults)
            sources.items }
        requires sinks { ForEachItem (λ s. IsUnused (Some s.taken) s.failures.faults) sinks.items }
        ensures { IfOk result (λ files. files ≡ record {
          sources = record { coming = sources.items; back = []; out = 0 };
          sinks = record { coming = sinks.items; back = []; out = 0 };
          failures = record { fails = fails.items; calls = 0; faults = 0 };
        }) }
    {
        Ok(MemFiles {
            sources: Shelf::new(alloc, sources)?,
            sinks: Shelf::new(alloc, sinks)?,
            failures: Failures::new(fails),
        })
    }

    /// The sources that came back, in order.
    pub fn sources(&self) -> &[MemSource]
        ensures { result.now ≡ self.now.sources.back }
    {
        self.sources.back()
    }

    /// The sinks that came back, in order.
    pub fn sinks(&self) -> &[MemSink]
        ensures { result.now ≡ self.now.sinks.back }
    {
        self.sinks.back()
    }
}

impl Files for MemFiles {
    type From = MemSource;

    type To = MemSink;

    ghost may = { λ _. ⊤ };

    ghost words = { λ f. record {
      returned_sources = Some f.sources.back;
      returned_sinks = Some f.sinks.back;
      lent_sources = Some f.sources.out;
      lent_sinks = Some f.sinks.out;
      faults = f.failures.faults;
    } };

    fn source<R: SystemFiles<File = File>>(&mut self, _rt: &R, _name: &str) -> Option<MemSource>
        ensures fresh { IfSome result (λ s.
            IsUnused (Some s.pieces.taken) s.failures.faults) }
        ensures unread { IfSome result (λ s. IsNoItem s.reads) }
        ensures returned_sources { Some self.new.sources.back ≡ Some self.old.sources.back }
        ensures returned_sinks { Some self.new.sinks.back ≡ Some self.old.sinks.back }
        ensures lent_sources { Some self.new.sources.out
            ≡ out_after result (Some self.old.sources.out) }
        ensures lent_sinks { Some self.new.sinks.out ≡ Some self.old.sinks.out }
        ensures later { self.old.failures.faults ≤ self.new.failures.faults }
        ensures failed { IsNone result
            → Rose self.old.failures.faults self.new.failures.faults }

        // Sources come in order. Just the chosen calls fail, and one for which none is left.
        ensures coming { self.old.sources.coming
            ≡ option_to_list result ++ self.new.sources.coming }
        ensures fails { IsNone result
            ↔ (IsTrue (is_failing self.old.failures) ⊎ (self.old.sources.coming ≡ [])) }
        ensures calls { self.new.failures ≡ record (after_call self.old.failures)
            { faults = self.new.failures.faults } }
        ensures same { self.new.sinks ≡ self.old.sinks }
    {
        if self.failures.call() {
            return None;
        }
        let next = self.sources.give();
        if next.is_none() {
            self.failures.fault();
        }
        next
    }

    fn sink<R: SystemFiles<File = File>>(&mut self, _rt: &R, _name: &str) -> Option<MemSink>
        ensures fresh { IfSome result (λ s. IsUnused (Some s.taken) s.failures.faults) }
        ensures returned_sources { Some self.new.sources.back ≡ Some self.old.sources.back }
        ensures returned_sinks { Some self.new.sinks.back ≡ Some self.old.sinks.back }
        ensures lent_sources { Some self.new.sources.out ≡ Some self.old.sources.out }
        ensures lent_sinks { Some self.new.sinks.out
            ≡ out_after result (Some self.old.sinks.out) }
        ensures later { self.old.failures.faults ≤ self.new.failures.faults }
        ensures failed { IsNone result
            → Rose self.old.failures.faults self.new.failures.faults }

        // Sinks come in order. Just the chosen calls fail, and one for which none is left.
        ensures coming { self.old.sinks.coming
            ≡ option_to_list result ++ self.new.sinks.coming }
        ensures fails { IsNone result
            ↔ (IsTrue (is_failing self.old.failures) ⊎ (self.old.sinks.coming ≡ [])) }
        ensures calls { self.new.failures ≡ record (after_call self.old.failures)
            { faults = self.new.failures.faults } }
        ensures same { self.new.sources ≡ self.old.sources }
    {
        if self.failures.call() {
            return None;
        }
        let next = self.sinks.give();
        if next.is_none() {
            self.failures.fault();
        }
        next
    }

    fn back(&mut self, file: MemSink)
        requires { 0 < self.old.sinks.out }
        ensures returned_sources { Some self.new.sources.back ≡ Some self.old.sources.back }
        ensures returned_sinks { Some self.new.sinks.back
            ≡ append_items (Some self.old.sinks.back) (file ∷ []) }
        ensures lent_sources { Some self.new.sources.out ≡ Some self.old.sources.out }
        ensures lent_sinks { Some self.old.sinks.out ≡ Some (self.new.sinks.out + 1) }
        ensures later { self.old.failures.faults ≤ self.new.failures.faults }

        // It counts as no call.
        ensures calls { self.new.failures ≡ self.old.failures }
        ensures coming { self.new.sinks.coming ≡ self.old.sinks.coming }
        ensures same { self.new.sources ≡ self.old.sources }
    {
        self.sinks.take_back(file);
    }

    fn back_source(&mut self, file: MemSource)
        requires { 0 < self.old.sources.out }
        ensures returned_sources { Some self.new.sources.back
            ≡ append_items (Some self.old.sources.back) (file ∷ []) }
        ensures returned_sinks { Some self.new.sinks.back ≡ Some self.old.sinks.back }
        ensures lent_sources { Some self.old.sources.out ≡ Some (self.new.sources.out + 1) }
        ensures lent_sinks { Some self.new.sinks.out ≡ Some self.old.sinks.out }
        ensures later { self.old.failures.faults ≤ self.new.failures.faults }

        // It counts as no call.
        ensures calls { self.new.failures ≡ self.old.failures }
        ensures coming { self.new.sources.coming ≡ self.old.sources.coming }
        ensures same { self.new.sinks ≡ self.old.sinks }
    {
        self.sources.take_back(file);
    }
}
