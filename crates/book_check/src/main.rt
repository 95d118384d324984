//! Judges books: for each of its words it writes the word, and then what `nvimd replay WORD
//! --check` does.
#![tactic(auto)]

use nv_core::History;
use nv_io::{DiskFiles, SockDial, SockPort, StdErr, StdIn, StdOut};
use nv_run::{all_watchers, run};
use std::alloc::{AllocError, Global};
use std::env;
use std::process::ExitCode;

// The words of a command line that judges the book in this file.
fn words_of<'a>(alloc: Global, name: &'a str) -> Result<Vec<&'a str>, AllocError> {
    Ok(vec![in alloc; "replay", name, "--check"]?)
}

fn main(rt: HostRuntime) -> ExitCode {
    let alloc = rt.alloc();
    let Ok(names) = env::args(&rt) else {
        return ExitCode::FAILURE;
    };
    let mut is_right = true;
    for name in names.skip(1) {
        let Ok(()) = println!(rt; "{}", name.as_str()) else {
            return ExitCode::FAILURE;
        };
        let (Ok(words), Ok(watchers)) = (words_of(alloc, name.as_str()), all_watchers(alloc)) else {
            return ExitCode::FAILURE;
        };
        let mut port = SockPort::new(rt);
        let status = run(
            &rt,
            alloc,
            &words,
            &mut StdIn::new(rt.stdin()),
            &mut StdOut::new(rt.stdout()),
            &mut StdErr::new(rt.stderr()),
            &mut DiskFiles::new(),
            &mut port,
            &mut SockDial::new(),
            watchers,
            &mut History::new(alloc),
        );
        port.close(&rt);
        is_right = is_right && status == 0;
    }
    if is_right {
        ExitCode::SUCCESS
    } else {
        ExitCode::FAILURE
    }
}
