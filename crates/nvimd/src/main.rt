//! A headless Neovim: an editor that programs use through Neovim's API over MessagePack-RPC.
#![tactic(auto)]

use nv_core::History;
use nv_io::{DiskFiles, Ended, SockDial, SockPort, StdErr, StdIn, StdOut};
use nv_run::{all_watchers, run, status_of, tell_end};
use std::alloc::{AllocError, Global};
use std::process::ExitCode;
use std::{env, io};

// The words of the command line, without the program's name.
fn words_of(rt: &HostRuntime) -> io::Result<Vec<String>> {
    let words = env::args(rt)?.skip(1).collect(rt.alloc())?;
    Ok(words)
}

// Tells that the words found no memory.
fn want_of_memory(rt: &HostRuntime, errors: &mut StdErr) -> ExitCode {
    tell_end(rt, errors, Ended::NoMemory);
    ExitCode::from(status_of(Ended::NoMemory))
}

// The words. A word that isn't UTF-8 is no word of a command, and then there is none.
fn strings_of(rt: &HostRuntime) -> Result<Vec<String>, AllocError> {
    match words_of(rt) {
        Ok(strings) => Ok(strings),
        Err(error) if error.kind() == io::ErrorKind::OutOfMemory => Err(AllocError),
        Err(_) => Ok(Vec::new(rt.alloc())),
    }
}

// Half of what the C library's allocator is to keep of the memory that is free at the end of its
// heap, in bytes.
const KEPT_FREE: usize = 1 << 20;

// Has the allocator keep free memory, which it gives back from 128 KiB on at first, and then asks
// for again page by page: a listing or a text that is answered takes more than that. Where a block
// that it had mapped is freed, it keeps twice as much from then on (mallopt(3), M_MMAP_THRESHOLD).
fn keep_free_memory(alloc: Global) {
    let _ = Vec::<u8>::with_capacity(alloc, KEPT_FREE);
}

// How many pages are touched at first: somewhat less than a block that the allocator maps.
const TOUCHED: usize = 240;

// Touches the first pages of the heap, which are free then and stay at hand. A page that is touched
// for the first time is a fault of the kernel's, and of the first requests one in ten takes one.
fn touch_memory(alloc: Global) {
    let _ = vec![in alloc; [1u8; 4096]; TOUCHED];
}

fn main(rt: HostRuntime) -> ExitCode {
    let alloc = rt.alloc();
    keep_free_memory(alloc);
    touch_memory(alloc);
    let mut errors = StdErr::new(rt.stderr());
    let Ok(strings) = strings_of(&rt) else {
        return want_of_memory(&rt, &mut errors);
    };
    let words = strings.iter().map(|word| word.as_str());
    let Ok(words) = words.collect::<Vec<&str>>(alloc) else {
        return want_of_memory(&rt, &mut errors);
    };
    let Ok(watchers) = all_watchers(alloc) else {
        return want_of_memory(&rt, &mut errors);
    };
    let mut port = SockPort::new(rt);
    let status = run(
        &rt,
        alloc,
        &words,
        &mut StdIn::new(rt.stdin()),
        &mut StdOut::new(rt.stdout()),
        &mut errors,
        &mut DiskFiles::new(),
        &mut port,
        &mut SockDial::new(),
        watchers,
        &mut History::new(alloc),
    );
    port.close(&rt);
    ExitCode::from(status)
}
