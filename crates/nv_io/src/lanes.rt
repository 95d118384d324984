// Where connections come from, one after another, and how they end.
ghost use Rattle.std.specs.Prelude.{◌≡◌, ℕ, ◌+◌, ◌≤◌, List, [], ◌∷◌, option_map, IfSome, IsNone};
ghost use Rattle.std.specs.declared.option.Option.{Option};
ghost use Rattle.nv_io.specs.Faults.{Rose};
ghost use Rattle.nv_io.specs.Words.{LaneWords, PortWords};
ghost use Rattle.nv_io.specs.Known.{append_items, prepend_items, IsNoItem, IsOut, IsUnused, out_after};
ghost use Rattle.nv_io.specs.Lanes.{connections_of, lent_after, IfConnection, IsFreshLane};
ghost use Rattle.nv_io.specs.declared.lanes.Over.{Over};
ghost use Rattle.std.specs.Bool.{OnFalse};

use crate::streams::{Sink, Source};
use std::fs::File;
use std::net::{Net, TcpListener, TcpStream};
use std::rt::Files;

/// What is wrong with the bytes of a session. Bytes and values of the stream count from 0.
#[derive(Debug, Clone, Copy, PartialEq, Eq)]
pub enum Flaw {
    /// At this byte the bytes stop being MessagePack.
    Bad(u64),
    /// At this byte a list or a map begins that lies too deep.
    TooDeep(u64),
    /// At this byte a value begins that is too long.
    TooLong(u64),
    /// At this byte a value begins that the end of the stream cuts off.
    Inside(u64),
    /// The value of this number is no call.
    NoCall(u64),
}

/// How a session ended.
#[derive(Debug, Clone, Copy, PartialEq, Eq)]
pub enum Ended {
    /// Its bytes came to their end.
    Closed,
    /// Its bytes were malformed.
    Malformed(Flaw),
    /// At this entry of the history more messages were due than its outbox holds.
    Overflowed(u64),
    /// A read failed.
    ReadFault,
    /// A write failed.
    WriteFault,
    /// This entry of the history ended the world.
    Quit(u64),
    /// Memory was wanting.
    NoMemory,
}

/// What one `accept` gave.
#[derive(Drop)]
pub enum Accepted<I, S> {
    /// A connection: what comes in by it, and what goes out.
    Conn(I, S),
    /// Nothing, since no connection is to come.
    Done,
    /// Nothing, for a fault.
    Failed,
}

/// A connection that ended.
#[derive(Drop)]
pub struct Over<I, S> {
    pub input: I,
    pub output: S,
    /// The number of its session, or 0 where it had none.
    pub session: u64,
    pub how: Ended,
}

/// Connections that come one after another. Its meaning is those that are to come, those that
/// ended, and how many are out, where these are told, and a count of faults, which never falls.
pub trait Lane {
    type In: Source + Send + Drop;

    type Out: Sink + Send + Drop;

    // What it tells of itself.
    ghost words: { Self → LaneWords Self.In Self.Out };

    /// Waits for the next connection.
    fn accept<R>(&mut self, rt: &R) -> Accepted<Self::In, Self::Out>
        ensures coming { (words self.old).coming
            ≡ prepend_items (connections_of result) (words self.new).coming }
        ensures over { (words self.new).over ≡ (words self.old).over }
        ensures lent { (words self.new).lent ≡ lent_after result (words self.old).lent }
        ensures fresh { IfConnection result (λ input output.
            IsUnused (Self.In.Source.words input).taken (Self.In.Source.words input).faults
            × IsUnused (Self.Out.Sink.words output).taken (Self.Out.Sink.words output).faults) }
        ensures unread { IfConnection result (λ input output.
            IsNoItem (Self.In.Source.words input).reads) }
        ensures done { result ≡ Accepted.Done → IsNoItem (words self.new).coming }
        ensures later { (words self.old).faults ≤ (words self.new).faults }
        ensures failed { result ≡ Accepted.Failed → Rose (words self.old).faults
            (words self.new).faults };

    /// Takes back a connection that ended, with the number of its session, or 0 where it had none.
    fn ended(&mut self, input: Self::In, output: Self::Out, session: u64, how: Ended)
        requires { IsOut (words self.old).lent }
        ensures coming { (words self.new).coming ≡ (words self.old).coming }
        ensures over { (words self.new).over ≡ append_items (words self.old).over
            (record { input = input; output = output; session = session; how = how } ∷ []) }
        ensures lent { (words self.old).lent ≡ option_map (λ n. n + 1) (words self.new).lent }
        ensures later { (words self.old).faults ≤ (words self.new).faults };

    /// Asks that one other `accept` on the same address return.
    fn wake<R: Net<Listener = TcpListener, Stream = TcpStream>>(&mut self, rt: &R)
        ensures coming { (words self.new).coming ≡ (words self.old).coming }
        ensures over { (words self.new).over ≡ (words self.old).over }
        ensures lent { (words self.new).lent ≡ (words self.old).lent }
        ensures later { (words self.old).faults ≤ (words self.new).faults };
}

/// A place where connections are listened for. Its meaning is the lanes that came back and how many
/// are out, where these are told, and a count of faults, which never falls.
pub trait Port {
    type Line: Lane + Send + Drop;

    // The addresses that it may be asked to listen on.
    ghost may: { List ℕ → Type 0 };

    // What it tells of itself.
    ghost words: { Self → PortWords Self.Line };

    /// Listens on an address. `false` is a fault.
    fn listen<R: Files<File = File> + Net<Listener = TcpListener, Stream = TcpStream>>(
        &mut self,
        rt: &R,
        address: &str,
    ) -> bool
        requires { may address.now }
        ensures returned { (words self.new).returned ≡ (words self.old).returned }
        ensures lent { (words self.new).lent ≡ (words self.old).lent }
        ensures later { (words self.old).faults ≤ (words self.new).faults }
        ensures failed { OnFalse result (Rose (words self.old).faults (words self.new).faults) };

    /// One more lane of this address. `None` is a fault.
    fn lane<R>(&mut self, rt: &R) -> Option<Self::Line>
        ensures fresh { IfSome result (λ lane. IsFreshLane (Self.Line.Lane.words lane).over
            (Self.Line.Lane.words lane).lent (Self.Line.Lane.words lane).faults) }
        ensures returned { (words self.new).returned ≡ (words self.old).returned }
        ensures lent { (words self.new).lent ≡ out_after result (words self.old).lent }
        ensures later { (words self.old).faults ≤ (words self.new).faults }
        ensures failed { IsNone result → Rose (words self.old).faults (words self.new).faults };

    /// Takes back a lane.
    fn back(&mut self, lane: Self::Line)
        requires { IsOut (words self.old).lent }
        ensures returned { (words self.new).returned ≡ append_items (words self.old).returned
            (lane ∷ []) }
        ensures lent { (words self.old).lent ≡ option_map (λ n. n + 1) (words self.new).lent }
        ensures later { (words self.old).faults ≤ (words self.new).faults };
}
