// Where connections that are made by their address come from.
ghost use Rattle.std.specs.Prelude.{◌≡◌, ℕ, ◌+◌, ◌≤◌, List, [], ◌∷◌, IfSome, IsNone, None, option_map, ⊤};
ghost use Rattle.std.specs.declared.option.Option.{Option};
ghost use Rattle.nv_io.specs.Faults.{Rose};
ghost use Rattle.nv_io.specs.Words.{DialWords};
ghost use Rattle.nv_io.specs.Known.{append_items, out_after, IsOut, IsUnread, IsUnused};

use crate::sockets::{SockSink, SockSource, Stream};
use crate::streams::{Sink, Source, count_fault};
use std::io;
use std::net::{Net, TcpListener, TcpStream};
use std::os::unix::net::UnixStream;

/// Connections by their addresses, each with its two halves. Its meaning is those that came back
/// and how many are out, where these are told, and a count of faults, which never falls.
pub trait Dial {
    type In: Source + Drop;

    type Out: Sink + Drop;

    // The addresses that it may be asked for.
    ghost may: { List ℕ → Type 0 };

    // What it tells of itself.
    ghost words: { Self → DialWords Self.In Self.Out };

    /// A connection to an address: what comes in by it, and what goes out. `None` is a fault.
    fn dial<R: Net<Listener = TcpListener, Stream = TcpStream>>(
        &mut self,
        rt: &R,
        address: &str,
    ) -> Option<(Self::In, Self::Out)>
        requires { may address.now }
        ensures fresh { IfSome result (λ c.
            IsUnread (Self.In.Source.words c.0).taken (Self.In.Source.words c.0).reads
            (Self.In.Source.words c.0).faults
            × IsUnused (Self.Out.Sink.words c.1).taken (Self.Out.Sink.words c.1).faults) }
        ensures returned { (words self.new).returned ≡ (words self.old).returned }
        ensures lent { (words self.new).lent ≡ out_after result (words self.old).lent }
        ensures later { (words self.old).faults ≤ (words self.new).faults }
        ensures failed { IsNone result → Rose (words self.old).faults (words self.new).faults };

    /// Takes back the halves of a connection.
    fn back(&mut self, input: Self::In, output: Self::Out)
        requires { IsOut (words self.old).lent }
        ensures returned { (words self.new).returned
            ≡ append_items (words self.old).returned ((input, output) ∷ []) }
        ensures lent { (words self.old).lent ≡ option_map (λ n. n + 1) (words self.new).lent }
        ensures later { (words self.old).faults ≤ (words self.new).faults };
}

// A connection to an address. One over TCP sends what is written at once.
fn connect<R: Net<Listener = TcpListener, Stream = TcpStream>>(
    rt: &R,
    address: &str,
) -> io::Result<Stream> {
    if address.starts_with('/') {
        return Ok(Stream::Unix(UnixStream::connect(rt, address)?));
    }
    let stream = TcpStream::connect(rt, address)?;
    let _sends_at_once = stream.set_nodelay(true);
    Ok(Stream::Tcp(stream))
}

// The two halves of a connection to an address.
fn halves<R: Net<Listener = TcpListener, Stream = TcpStream>>(
    rt: &R,
    address: &str,
) -> io::Result<(Stream, Stream)> {
    let stream = connect(rt, address)?;
    let other = stream.try_clone()?;
    Ok((stream, other))
}

/// Connections over sockets. An address that begins with `/` is a socket file, and any other is
/// `host:port`. What comes back is not told.
#[derive(Drop)]
pub struct SockDial {
    faults: u64,
}

impl SockDial {
    pub fn new() -> SockDial
        ensures { (⟦<SockDial as Dial>⟧.words result).faults ≡ 0 }
    {
        SockDial { faults: 0 }
    }
}

impl Dial for SockDial {
    type In = SockSource;

    type Out = SockSink;

    ghost may = { λ _. ⊤ };

    ghost words = { λ d. record {
      returned = None;
      lent = None;
      faults = d.faults;
    } };

    fn dial<R: Net<Listener = TcpListener, Stream = TcpStream>>(
        &mut self,
        rt: &R,
        address: &str,
    ) -> Option<(SockSource, SockSink)> {
        match halves(rt, address) {
            Ok((stream, other)) => Some((SockSource::new(stream), SockSink::new(other))),
            Err(_) => {
                count_fault(&mut self.faults);
                None
            }
        }
    }

    fn back(&mut self, _input: SockSource, _output: SockSink) {}
}
