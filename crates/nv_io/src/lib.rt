//! The outside of the server: where bytes come from and go, where connections come from, and how a
//! session ends.
//!
//! A program over these traits never sees a file or a socket. It runs over the process's own
//! streams, files and sockets, or over devices in memory whose pieces and faults a test chooses.
#![tactic(auto)]

mod dialing;
mod disk;
mod files;
mod lanes;
mod memory;
mod sockets;
mod standard;
mod streams;

pub use dialing::{Dial, SockDial};
pub use disk::{DiskFiles, DiskSink, DiskSource};
pub use files::Files;
pub use lanes::{Accepted, Ended, Flaw, Lane, Over, Port};
pub use memory::{MemDial, MemFiles, MemLane, MemPort, MemSink, MemSource, SureSink, SureSource};
pub use sockets::{SockLane, SockPort, SockSink, SockSource};
pub use standard::{StdErr, StdIn, StdOut};
pub use streams::{Got, Put, Sink, Source, put_all};
