// Decodes and encodes the MessagePack values on standard input: what bench/run.py measures and
// python/tests/test_codec.py compares.
ghost use Rattle.std.specs.Prelude.{IfOk};
ghost use Rattle.nv_value.specs.View.{contents};
ghost use Rattle.nv_msgpack.specs.Shortest.{HaveSpellings};

use nv_msgpack::{Bounds, Decoded, decode, encode};
use nv_value::Value;
use std::alloc::{AllocError, Global};
use std::io;
use std::io::{Read, Write};

const BOUNDS: Bounds = Bounds {
    depth: 64,
    bytes: 67108864,
};

/// The values at the front of the bytes, up to the first place where none stands.
fn decode_all(alloc: Global, bytes: &[u8]) -> Result<Vec<Value>, AllocError>
    ensures { IfOk result (λ values. HaveSpellings (contents values.items)) }
{
    let mut values = Vec::new(alloc);
    let mut at = 0;
    for _ in 0..bytes.len() {
        match decode(alloc, &bytes[at..], BOUNDS)? {
            Decoded::Whole(value, length) => {
                values.push(value)?;
                at += length;
            }
            _ => break,
        }
    }
    Ok(values)
}

/// How many values stand at the front of the bytes. Each is decoded and let go.
fn count_all(alloc: Global, bytes: &[u8]) -> Result<usize, AllocError> {
    let mut at = 0;
    for count in 0..bytes.len() {
        match decode(alloc, &bytes[at..], BOUNDS)? {
            Decoded::Whole(_value, length) => at += length,
            _ => return Ok(count),
        }
    }
    Ok(bytes.len())
}

/// The values' spellings, one after another.
fn encode_all(values: &Vec<Value>, into: &mut Vec<u8>) -> Result<(), AllocError>
    requires { HaveSpellings (contents values.now.items) }
{
    for value in values {
        encode(value, into)?;
    }
    Ok(())
}

/// Adds what these bytes begin with: a value's shortest spelling and its length, or a flaw.
fn read_one(alloc: Global, bytes: &[u8], into: &mut Vec<u8>) -> Result<(), AllocError> {
    let told = match decode(alloc, bytes, BOUNDS)? {
        Decoded::Whole(value, length) => {
            encode(&value, into)?;
            format!(in alloc; " in {length}\n")?
        }
        Decoded::NeedsMore => format!(in alloc; "cut 0\n")?,
        Decoded::Bad(place) => format!(in alloc; "bad {place}\n")?,
        Decoded::TooDeep(place) => format!(in alloc; "deep {place}\n")?,
        Decoded::TooLong(place) => format!(in alloc; "long {place}\n")?,
    };
    into.extend_from_slice(told.as_bytes())
}

/// What the bytes of each binary begin with.
fn read_all(alloc: Global, values: &Vec<Value>, into: &mut Vec<u8>) -> Result<(), AllocError> {
    for value in values {
        if let Value::Bin(bytes) = value {
            read_one(alloc, bytes.as_slice(), into)?;
        }
    }
    Ok(())
}

/// What to do with the values on standard input.
#[derive(Clone, Copy)]
pub(crate) enum Job {
    /// Decode them a number of times.
    Decode,
    /// Encode them a number of times.
    Encode,
    /// Write their shortest spellings to standard output.
    Copy,
    /// Tell what the bytes of each begin with.
    Read,
}

/// The job of a word.
pub(crate) fn job_of(word: &str) -> Job {
    match word {
        "decode" => Job::Decode,
        "copy" => Job::Copy,
        "read" => Job::Read,
        _ => Job::Encode,
    }
}

/// Does the job, so many times where it is measured.
fn work(
    alloc: Global,
    job: Job,
    times: u32,
    bytes: &[u8],
    values: &Vec<Value>,
    into: &mut Vec<u8>,
) -> Result<(), AllocError>
    requires { HaveSpellings (contents values.now.items) }
{
    match job {
        Job::Decode => {
            for _ in 1..times {
                let _count = count_all(alloc, bytes)?;
            }
            encode_all(values, into)
        }
        Job::Encode => {
            for _ in 0..times {
                into.clear();
                encode_all(values, into)?;
            }
            Ok(())
        }
        Job::Copy => encode_all(values, into),
        Job::Read => read_all(alloc, values, into),
    }
}

/// Does the job, so many times where it is measured, and prints the number of values and of the
/// bytes that they are encoded to, or else what was written.
pub(crate) fn run(rt: &HostRuntime, job: Job, times: u32) -> io::Result<()> {
    let alloc = rt.alloc();
    let mut bytes = Vec::new(alloc);
    rt.stdin().read_to_end(&mut bytes)?;
    let values = decode_all(alloc, bytes.as_slice())?;
    let mut into = Vec::new(alloc);
    work(alloc, job, times, bytes.as_slice(), &values, &mut into)?;
    match job {
        Job::Copy | Job::Read => rt.stdout().write_all(into.as_slice()),
        Job::Decode | Job::Encode => {
            println!(rt; "{} values, {} bytes", values.len(), into.len())
        }
    }
}
