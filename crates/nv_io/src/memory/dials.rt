// Connections in memory that are made by any address.
ghost use Rattle.std.specs.Prelude.{◌≡◌, ℕ, ◌+◌, ◌<◌, ◌≤◌, ◌↔◌, ◌⊎◌, [], ◌∷◌, ◌++◌, IfOk, IfSome, IsNone, IsTrue, Some, option_to_list, ⊤};
ghost use Rattle.nv_io.specs.Faults.{Rose};
ghost use Rattle.nv_io.specs.Known.{append_items, out_after, ForEachItem, IsUnread, IsUnused};
ghost use Rattle.nv_io.specs.Memory.{is_failing, after_call};

use crate::dialing::Dial;
use crate::memory::Failures;
use crate::memory::shelves::Shelf;
use crate::streams::{Sink, Source};
use std::alloc::{AllocError, Global};
use std::marker::Model;
use std::net::{Net, TcpListener, TcpStream};

/// Given connections, one after another whatever the address, where chosen calls of `dial` fail.
#[derive(Drop)]
pub struct MemDial<I: Source + Drop, S: Sink + Drop> {
    shelf: Shelf<(I, S), (I, S)>,
    failures: Failures,
}

impl<I: Source + Drop, S: Sink + Drop> Model for MemDial<I, S> {
    ghost use Rattle.nv_io.specs.Known.{ForEachItem, IsUnread, IsUnused};
    ghost use Rattle.nv_io.specs.Shelves.{MemDialing};

    ghost Value = { MemDialing I S };

    ghost view = { λ d. record { shelf = d.shelf; failures = d.failures } };

    ghost invariant = { λ d. ForEachItem (λ c.
        IsUnread (I.Source.words c.0).taken (I.Source.words c.0).reads (I.Source.words c.0).faults
        × IsUnused (S.Sink.words c.1).taken (S.Sink.words c.1).faults) d.shelf.coming };
}

impl<I: Source + Drop, S: Sink + Drop> MemDial<I, S> {
    /// The numbers in `fails` are those of the calls of `dial` that fail, from 0.
    pub fn new(
        alloc: Global,
        conns: Vec<(I, S)>,
        fails: Vec<u64>,
    ) -> Result<MemDial<I, S>, AllocError>
        requires { ForEachItem (λ c.
            IsUnread (I.Source.words c.0).taken (I.Source.words c.0).reads
            (I.Source.words c.0).faults
            × IsUnused (S.Sink.words c.1).taken (S.Sink.words c.1).faults) conns.items }
        ensures { IfOk result (λ dial. dial ≡ record {
          shelf = record { coming = conns.items; back = []; out = 0 };
          failures = record { fails = fails.items; calls = 0; faults = 0 };
        }) }
    {
        let shelf = Shelf::new(alloc, conns)?;
        Ok(MemDial {
            shelf,
            failures: Failures::new(fails),
        })
    }

    /// The connections that came back, in order.
    pub fn returned(&self) -> &[(I, S)]
        ensures { result.now ≡ self.now.shelf.back }
    {
        self.shelf.back()
    }
}

impl<I: Source + Drop, S: Sink + Drop> Dial for MemDial<I, S> {
    type In = I;

    type Out = S;

    ghost may = { λ _. ⊤ };

    ghost words = { λ d. record {
      returned = Some d.shelf.back;
      lent = Some d.shelf.out;
      faults = d.failures.faults;
    } };

    fn dial<R: Net<Listener = TcpListener, Stream = TcpStream>>(
        &mut self,
        _rt: &R,
        _address: &str,
    ) -> Option<(I, S)>
        ensures fresh { IfSome result (λ c.
            IsUnread (I.Source.words c.0).taken (I.Source.words c.0).reads
            (I.Source.words c.0).faults
            × IsUnused (S.Sink.words c.1).taken (S.Sink.words c.1).faults) }
        ensures returned { Some self.new.shelf.back ≡ Some self.old.shelf.back }
        ensures lent { Some self.new.shelf.out ≡ out_after result (Some self.old.shelf.out) }
        ensures later { self.old.failures.faults ≤ self.new.failures.faults }
        ensures failed { IsNone result
            → Rose self.old.failures.faults self.new.failures.faults }

        // Connections come in order. Just the chosen calls fail, and one for which none is left.
        ensures coming { self.old.shelf.coming ≡ option_to_list result ++ self.new.shelf.coming }
        ensures fails { IsNone result
            ↔ (IsTrue (is_failing self.old.failures) ⊎ (self.old.shelf.coming ≡ [])) }
        ensures calls { self.new.failures ≡ record (after_call self.old.failures)
            { faults = self.new.failures.faults } }
    {
        if self.failures.call() {
            return None;
        }
        let next = self.shelf.give();
        if next.is_none() {
            self.failures.fault();
        }
        next
    }

    fn back(&mut self, input: I, output: S)
        requires { 0 < self.old.shelf.out }
        ensures returned { Some self.new.shelf.back
            ≡ append_items (Some self.old.shelf.back) ((input, output) ∷ []) }
        ensures lent { Some self.old.shelf.out ≡ Some (self.new.shelf.out + 1) }
        ensures later { self.old.failures.faults ≤ self.new.failures.faults }

        // It counts as no call.
        ensures calls { self.new.failures ≡ self.old.failures }
        ensures coming { self.new.shelf.coming ≡ self.old.shelf.coming }
    {
        self.shelf.take_back((input, output));
    }
}
