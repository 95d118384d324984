// Connections over sockets.
ghost use Rattle.std.specs.Prelude.{◌≡◌, ◌<◌, ◌≤◌, None, length, ⊤};
ghost use Rattle.nv_io.specs.Faults.{Rose};
ghost use Rattle.nv_io.specs.Reading.{IfBytes};
ghost use Rattle.nv_io.specs.Writing.{IfTook};

use crate::lanes::{Accepted, Ended, Lane, Port};
use crate::standard::{read_from, write_to};
use crate::streams::{Got, Put, Sink, Source, count_fault};
use std::fs::File;
use std::io::ErrorKind;
use std::net::{Net, Shutdown, TcpListener, TcpStream};
use std::os::unix::fs::{FileTypeExt, MetadataExt};
use std::os::unix::net::{UnixListener, UnixStream};
use std::rt::Files;
use std::time::{Clock, Duration};
use std::{fs, io, thread};

/// A connection over TCP or over a Unix socket.
#[derive(Drop)]
pub enum Stream {
    Tcp(TcpStream),
    Unix(UnixStream),
}

impl Stream {
    /// Another handle of the same connection.
    pub fn try_clone(&self) -> io::Result<Stream> {
        match self {
            Stream::Tcp(stream) => Ok(Stream::Tcp(stream.try_clone()?)),
            Stream::Unix(stream) => Ok(Stream::Unix(stream.try_clone()?)),
        }
    }

    fn read(&mut self, faults: &mut u64, into: &mut [u8]) -> Got
        requires { 0 < length into.old }
        ensures count { IfBytes result (λ n. (0 < n) × (n ≤ length into.new)) }
        ensures later { faults.old ≤ faults.new }
        ensures failed { result ≡ Got.Failed → Rose faults.old faults.new }
    {
        match self {
            Stream::Tcp(stream) => read_from(stream, faults, into),
            Stream::Unix(stream) => read_from(stream, faults, into),
        }
    }

    fn write(&mut self, faults: &mut u64, piece: &[u8]) -> Put
        requires { 0 < length piece.now }
        ensures count { IfTook result (λ n. (0 < n) × (n ≤ length piece.now)) }
        ensures later { faults.old ≤ faults.new }
        ensures failed { result ≡ Put.Failed → Rose faults.old faults.new }
    {
        match self {
            Stream::Tcp(stream) => write_to(stream, faults, piece),
            Stream::Unix(stream) => write_to(stream, faults, piece),
        }
    }

    // Ends the connection both ways for each handle of it, and wakes whoever reads from it.
    fn shutdown(&self) {
        let _ended = match self {
            Stream::Tcp(stream) => stream.shutdown(Shutdown::Both),
            Stream::Unix(stream) => stream.shutdown(Shutdown::Both),
        };
    }
}

/// What comes in by a connection. What it gives is not told.
#[derive(Drop)]
pub struct SockSource {
    stream: Stream,
    faults: u64,
}

impl SockSource {
    pub fn new(stream: Stream) -> SockSource
        ensures { (⟦<SockSource as Source>⟧.words result).faults ≡ 0 }
    {
        SockSource { stream, faults: 0 }
    }
}

impl Source for SockSource {
    ghost words = { λ s. record {
      taken = None;
      left = None;
      reads = None;
      faults = s.faults;
    } };

    fn read<R>(&mut self, _rt: &R, into: &mut [u8]) -> Got {
        self.stream.read(&mut self.faults, into)
    }
}

/// What goes out by a connection. What it takes is not told.
#[derive(Drop)]
pub struct SockSink {
    stream: Stream,
    faults: u64,
}

impl SockSink {
    pub fn new(stream: Stream) -> SockSink
        ensures { (⟦<SockSink as Sink>⟧.words result).faults ≡ 0 }
    {
        SockSink { stream, faults: 0 }
    }
}

impl Sink for SockSink {
    ghost words = { λ s. record {
      taken = None;
      faults = s.faults;
    } };

    fn write<R>(&mut self, _rt: &R, piece: &[u8]) -> Put {
        self.stream.write(&mut self.faults, piece)
    }

    fn finish<R>(&mut self, _rt: &R) {
        self.stream.shutdown();
    }
}

/// A socket that listens, over TCP or on a socket file.
#[derive(Drop)]
pub enum Listener {
    Tcp(TcpListener),
    Unix(UnixListener),
}

impl Listener {
    /// Another handle of the same socket.
    pub fn try_clone(&self) -> io::Result<Listener> {
        match self {
            Listener::Tcp(listener) => Ok(Listener::Tcp(listener.try_clone()?)),
            Listener::Unix(listener) => Ok(Listener::Unix(listener.try_clone()?)),
        }
    }

    // Waits for the next connection. One over TCP sends what is written at once.
    fn accept(&self) -> io::Result<Stream> {
        match self {
            Listener::Tcp(listener) => {
                let (stream, _) = listener.accept()?;
                let _sends_at_once = stream.set_nodelay(true);
                Ok(Stream::Tcp(stream))
            }
            Listener::Unix(listener) => {
                let (stream, _) = listener.accept()?;
                Ok(Stream::Unix(stream))
            }
        }
    }

    // Connects to the address that it listens on, and drops that.
    fn knock<R: Net<Listener = TcpListener, Stream = TcpStream>>(&self, rt: &R) -> io::Result<()> {
        match self {
            Listener::Tcp(listener) => {
                let _stream = TcpStream::connect(rt, listener.local_addr()?)?;
            }
            Listener::Unix(listener) => {
                let _stream = UnixStream::connect_addr(rt, &listener.local_addr()?)?;
            }
        }
        Ok(())
    }
}

// How often a call is tried that fails for a while, and the pause after each in milliseconds: two
// minutes in all.
const TRIES: u32 = 1200;

const PAUSE: u64 = 100;

// The errors after which a call may succeed later, by their numbers (Linux: accept(2), errno(3)):
// the system is short of memory or of descriptors (ENOMEM, ENFILE, EMFILE, ENOBUFS), or the
// connection was gone before it was taken (EPROTO, ENETDOWN, ENETUNREACH, ECONNABORTED,
// EHOSTUNREACH).
const PASSING: [i32; 9] = [12, 23, 24, 105, 71, 100, 101, 103, 113];

fn is_passing(error: &io::Error) -> bool {
    match error.raw_os_error() {
        Some(number) => PASSING.contains(&number),
        None => false,
    }
}

/// The connections of a socket that listens. They are not told. The clock is for pauses.
#[derive(Drop)]
pub struct SockLane<C: Clock + Copy> {
    listener: Listener,
    clock: C,
    faults: u64,
}

impl<C: Clock + Copy> SockLane<C> {
    pub fn new(listener: Listener, clock: C) -> SockLane<C>
        ensures { (⟦<SockLane<C> as Lane>⟧.words result).faults ≡ 0 }
    {
        SockLane {
            listener,
            clock,
            faults: 0,
        }
    }

    // The next connection. `None` is a fault.
    fn next(&self) -> Option<Stream> {
        for _ in 0..TRIES {
            match self.listener.accept() {
                Ok(stream) => return Some(stream),
                Err(error) => {
                    if !is_passing(&error) {
                        return None;
                    }
                }
            }
            thread::sleep(&self.clock, Duration::from_millis(PAUSE));
        }
        None
    }

    // Another handle of a connection. `None` is a fault.
    fn other_handle(&self, stream: &Stream) -> Option<Stream> {
        for _ in 0..TRIES {
            match stream.try_clone() {
                Ok(other) => return Some(other),
                Err(error) => {
                    if !is_passing(&error) {
                        return None;
                    }
                }
            }
            thread::sleep(&self.clock, Duration::from_millis(PAUSE));
        }
        None
    }

    // The two halves of the next connection. `None` is a fault.
    fn halves(&self) -> Option<(Stream, Stream)> {
        let stream = self.next()?;
        let other = self.other_handle(&stream)?;
        Some((stream, other))
    }
}

impl<C: Clock + Copy> Lane for SockLane<C> {
    type In = SockSource;

    type Out = SockSink;

    ghost words = { λ l. record {
      coming = None;
      over = None;
      lent = None;
      faults = l.faults;
    } };

    fn accept<R>(&mut self, _rt: &R) -> Accepted<SockSource, SockSink> {
        match self.halves() {
            Some((stream, other)) => {
                Accepted::Conn(SockSource::new(stream), SockSink::new(other))
            }
            None => {
                count_fault(&mut self.faults);
                Accepted::Failed
            }
        }
    }

    fn ended(&mut self, _input: SockSource, _output: SockSink, _session: u64, _how: Ended) {}

    fn wake<R: Net<Listener = TcpListener, Stream = TcpStream>>(&mut self, rt: &R) {
        for _ in 0..TRIES {
            match self.listener.knock(rt) {
                Ok(()) => return,
                Err(error) => {
                    if !is_passing(&error) {
                        return;
                    }
                }
            }
            thread::sleep(&self.clock, Duration::from_millis(PAUSE));
        }
    }
}

// Which file stands at a path: its device and its number there.
fn file_at<R: Files<File = File>>(rt: &R, path: &str) -> Option<(u64, u64)> {
    match fs::symlink_metadata(rt, path) {
        Ok(file) => Some((file.dev(), file.ino())),
        Err(_) => None,
    }
}

// Whether a path is a socket file that nobody answers on.
fn is_left_over<R: Files<File = File> + Net<Listener = TcpListener, Stream = TcpStream>>(
    rt: &R,
    path: &str,
) -> bool {
    let Ok(file) = fs::symlink_metadata(rt, path) else {
        return false;
    };
    if !file.file_type().is_socket() {
        return false;
    }
    match UnixStream::connect(rt, path) {
        Ok(_) => false,
        Err(error) => error.kind() == ErrorKind::ConnectionRefused,
    }
}

// Listens on a socket file, in place of one that nobody answers on.
fn bind_file<R: Files<File = File> + Net<Listener = TcpListener, Stream = TcpStream>>(
    rt: &R,
    path: &str,
) -> io::Result<UnixListener> {
    match UnixListener::bind(rt, path) {
        Ok(listener) => return Ok(listener),
        Err(error) => {
            if error.kind() != ErrorKind::AddrInUse || !is_left_over(rt, path) {
                return Err(error);
            }
        }
    }
    fs::remove_file(rt, path)?;
    UnixListener::bind(rt, path)
}

fn bind<R: Files<File = File> + Net<Listener = TcpListener, Stream = TcpStream>>(
    rt: &R,
    address: &str,
) -> io::Result<Listener> {
    if address.starts_with('/') {
        Ok(Listener::Unix(bind_file(rt, address)?))
    } else {
        Ok(Listener::Tcp(TcpListener::bind(rt, address)?))
    }
}

/// Lanes over one socket that listens. An address that begins with `/` is a socket file, and any
/// other is `host:port`. What comes back is not told. The clock is for the pauses of the lanes.
///
/// A socket file that nobody answers on is replaced, and one that somebody answers on is refused.
/// It listens once: a second `listen` is a fault.
#[derive(Drop)]
pub struct SockPort<C: Clock + Copy> {
    clock: C,
    listener: Option<Listener>,
    // The socket file that it made.
    own: Option<(u64, u64)>,
    faults: u64,
}

impl<C: Clock + Copy + Send> SockPort<C> {
    pub fn new(clock: C) -> SockPort<C>
        ensures { (⟦<SockPort<C> as Port>⟧.words result).faults ≡ 0 }
    {
        SockPort {
            clock,
            listener: None,
            own: None,
            faults: 0,
        }
    }
}

impl<C: Clock + Copy> SockPort<C> {
    // `None` is a fault.
    fn open<R: Files<File = File> + Net<Listener = TcpListener, Stream = TcpStream>>(
        &self,
        rt: &R,
        address: &str,
    ) -> Option<Listener> {
        if self.listener.is_some() {
            return None;
        }
        bind(rt, address).ok()
    }

    /// Stops listening, and removes the socket file that it made, unless another stands there now.
    pub fn close<R: Files<File = File>>(self, rt: &R) {
        let (Some(Listener::Unix(listener)), Some(own)) = (&self.listener, self.own) else {
            return;
        };
        let Ok(address) = listener.local_addr() else {
            return;
        };
        let Some(path) = address.as_pathname() else {
            return;
        };
        if file_at(rt, path.as_str()) == Some(own) {
            let _removed = fs::remove_file(rt, path);
        }
    }
}

impl<C: Clock + Copy + Send> Port for SockPort<C> {
    type Line = SockLane<C>;

    ghost may = { λ _. ⊤ };

    ghost words = { λ p. record {
      returned = None;
      lent = None;
      faults = p.faults;
    } };

    fn listen<R: Files<File = File> + Net<Listener = TcpListener, Stream = TcpStream>>(
        &mut self,
        rt: &R,
        address: &str,
    ) -> bool {
        let Some(listener) = self.open(rt, address) else {
            count_fault(&mut self.faults);
            return false;
        };
        if let Listener::Unix(_) = &listener {
            self.own = file_at(rt, address);
        }
        self.listener = Some(listener);
        true
    }

    fn lane<R>(&mut self, _rt: &R) -> Option<SockLane<C>> {
        if let Some(listener) = &self.listener {
            if let Ok(handle) = listener.try_clone() {
                return Some(SockLane::new(handle, self.clock));
            }
        }
        count_fault(&mut self.faults);
        None
    }

    fn back(&mut self, _lane: SockLane<C>) {}
}
