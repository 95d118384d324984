//! Measures the codec, drawing, and the marks of a buffer: the program of the scripts of bench/.
//!
//! The first word is what is measured, and its own words follow it.
//!
//! - `codec` and `decode` or `encode` and a number of times: the values on standard input. To
//!   encode, they are decoded once. What is printed is the number of values, and of the bytes that
//!   they are encoded to. With `copy` the values are written to standard output, each in its
//!   shortest spelling. With `read` the values are binaries, and for each of them one line tells
//!   what its bytes begin with: a value in its shortest spelling and how many bytes it has there,
//!   or the flaw and its place.
//! - `draw` and `screen` or `long` and a number of times.
//! - `marks`, the number of marks, `ends` or `points`, and `time` where times are wanted.
//!
//! With another word, or none, it does `codec read`, `draw screen 2` and `marks 300 ends`.
#![tactic(auto)]

mod codec;
mod draw;
mod marks;

use codec::{Job, job_of};
use marks::Plan;
use std::{env, io};

/// What is measured.
#[derive(Clone, Copy)]
enum Measured {
    Codec,
    Draw,
    Marks,
    All,
}

fn measured_by(word: &str) -> Measured {
    match word {
        "codec" => Measured::Codec,
        "draw" => Measured::Draw,
        "marks" => Measured::Marks,
        _ => Measured::All,
    }
}

fn all(rt: &HostRuntime) -> io::Result<()> {
    codec::run(rt, Job::Read, 1)?;
    draw::run(rt, false, 2)?;
    let plan = Plan {
        count: 300,
        ends: true,
    };
    marks::run(rt, plan, false)
}

fn main(rt: HostRuntime) -> io::Result<()> {
    let mut words = env::args(&rt)?;
    let _program = words.next();
    let measured = words
        .next()
        .map_or(Measured::All, |word| measured_by(word.as_str()));
    let first = words.next();
    let second = words.next();
    let timed = words.next().is_some_and(|word| word.as_str() == "time");
    match measured {
        Measured::Codec => {
            let job = first.map_or(Job::Encode, |word| job_of(word.as_str()));
            let times = second
                .and_then(|word| word.as_str().parse::<u32>().ok())
                .unwrap_or(1);
            codec::run(&rt, job, times)
        }
        Measured::Draw => {
            let is_long = first.is_some_and(|word| word.as_str() == "long");
            let times = second
                .and_then(|word| word.as_str().parse::<u32>().ok())
                .unwrap_or(1);
            draw::run(&rt, is_long, times)
        }
        Measured::Marks => {
            let count = first
                .and_then(|word| word.as_str().parse::<u32>().ok())
                .unwrap_or(1000);
            let ends = second.is_some_and(|word| word.as_str() == "ends");
            marks::run(&rt, Plan { count, ends }, timed)
        }
        Measured::All => all(&rt),
    }
}
