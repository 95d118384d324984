//! What the program says of its end: a status, and a line on the errors' stream. It takes no
//! memory.
ghost use Rattle.std.specs.Prelude.{◌≡◌, ◌++◌, codes, decimal, flat_map};
ghost use Rattle.nv_io.specs.Streams.{Tells};
ghost use Rattle.nv_io.specs.declared.lanes.Ended.TheVariants.{Malformed};
ghost use Rattle.nv_replay.specs.declared.ending.ReplayEnd.TheVariants.{Objects};
ghost use Rattle.nv_run.specs.declared.mirroring.FollowEnd.TheVariants.{Connected};
ghost use Rattle.nv_run.specs.Statuses.{line_of, line_of_follow, line_of_replay, line_of_script, line_of_server, malformed_line, status_of, status_of_follow, status_of_replay, status_of_script, status_of_server};

use crate::mirroring::FollowEnd;
use crate::serving::ServerEnd;
use itoa::Buffer;
use nv_io::{Ended, Flaw, Sink, put_all};
use nv_mirror::Followed;
use nv_replay::{ReplayEnd, WriteEnd};

/// The status of an end.
pub fn status_of(ended: Ended) -> u8
    ensures { result ≡ status_of ended }
{
    match ended {
        Ended::Closed | Ended::Quit(_) => 0,
        Ended::NoMemory => 1,
        Ended::ReadFault => 3,
        Ended::WriteFault => 4,
        Ended::Malformed(_) => 6,
        Ended::Overflowed(_) => 7,
    }
}

/// The status of the end of a server.
pub fn status_of_server(ended: ServerEnd) -> u8
    ensures { result ≡ status_of_server ended }
{
    match ended {
        ServerEnd::Done => 0,
        ServerEnd::NoMemory => 1,
        ServerEnd::Failed => 5,
        ServerEnd::WriteFault => 4,
    }
}

/// The status of the end of a replay.
pub fn status_of_replay(ended: ReplayEnd) -> u8
    ensures { result ≡ status_of_replay ended }
{
    match ended {
        ReplayEnd::Done => 0,
        ReplayEnd::NoMemory => 1,
        ReplayEnd::ReadFault => 3,
        ReplayEnd::WriteFault => 4,
        ReplayEnd::Malformed(_) => 6,
        ReplayEnd::Differs(_) | ReplayEnd::Objects { .. } => 8,
    }
}

/// The status of the end of the writing of a script's book.
pub fn status_of_script(ended: WriteEnd) -> u8
    ensures { result ≡ status_of_script ended }
{
    match ended {
        WriteEnd::Done => 0,
        WriteEnd::NoMemory => 1,
        WriteEnd::WriteFault => 4,
    }
}

/// The status of the end of following a buffer.
pub fn status_of_follow(ended: &FollowEnd) -> u8
    ensures { result ≡ status_of_follow ended.now }
{
    match ended {
        FollowEnd::NoMemory => 1,
        FollowEnd::Unconnected => 5,
        FollowEnd::Connected(followed) => match followed {
            Followed::Ended | Followed::Detached => 0,
            Followed::NoMemory => 1,
            Followed::ReadFault => 3,
            Followed::ServerFault | Followed::OutputFault => 4,
            Followed::Malformed(_) => 6,
            Followed::Refused(_) => 9,
            Followed::Unfit(_) => 10,
        },
    }
}

/// Writes the parts of a line to `errors`, one after another, up to a fault.
pub fn tell<R, E: Sink>(rt: &R, errors: &mut E, parts: &[&str])
    ensures { Tells (flat_map (λ part. part.now) parts.now) (E.words errors.old)
        (E.words errors.new) }
{
    for part in parts {
        if !put_all(rt, errors, part.as_bytes()) {
            return;
        }
    }
}

// The word of a flaw, and its place.
fn word_of(flaw: Flaw) -> (&'static str, u64)
    ensures { line_of (Malformed flaw) ≡ malformed_line result.0.now result.1 }
{
    match flaw {
        Flaw::Bad(place) => ("bad", place),
        Flaw::TooDeep(place) => ("deep", place),
        Flaw::TooLong(place) => ("long", place),
        Flaw::Inside(place) => ("cut", place),
        Flaw::NoCall(number) => ("call", number),
    }
}

/// Writes the line of an end to `errors`, where it has one.
pub fn tell_end<R, E: Sink>(rt: &R, errors: &mut E, ended: Ended)
    ensures { Tells (line_of ended) (E.words errors.old) (E.words errors.new) }
{
    let mut digits = Buffer::new();
    match ended {
        Ended::Closed | Ended::Quit(_) => tell(rt, errors, &[]),
        Ended::NoMemory => tell(rt, errors, &["nvimd: out of memory\n"]),
        Ended::ReadFault => tell(rt, errors, &["nvimd: read fault\n"]),
        Ended::WriteFault => tell(rt, errors, &["nvimd: write fault\n"]),
        Ended::Malformed(flaw) => {
            let (word, place) = word_of(flaw);
            let place = digits.format(place);
            tell(
                rt,
                errors,
                &["nvimd: malformed input: ", word, " at ", place, "\n"],
            );
        }
        Ended::Overflowed(entry) => {
            let entry = digits.format(entry);
            tell(
                rt,
                errors,
                &["nvimd: outbox overflow at entry ", entry, "\n"],
            );
        }
    }
}

/// Writes the line of the end of a server to `errors`, where it has one.
pub fn tell_server<R, E: Sink>(rt: &R, errors: &mut E, ended: ServerEnd)
    ensures { Tells (line_of_server ended) (E.words errors.old) (E.words errors.new) }
{
    match ended {
        ServerEnd::Done => tell(rt, errors, &[]),
        ServerEnd::NoMemory => tell(rt, errors, &["nvimd: out of memory\n"]),
        ServerEnd::Failed => tell(rt, errors, &["nvimd: listener fault\n"]),
        ServerEnd::WriteFault => tell(rt, errors, &["nvimd: write fault\n"]),
    }
}

// Writes a line to `errors` that ends with a number.
fn tell_number<R, E: Sink>(rt: &R, errors: &mut E, words: &str, number: u64)
    ensures { Tells (words.now ++ (decimal number ++ codes "\n")) (E.words errors.old)
        (E.words errors.new) }
{
    let mut digits = Buffer::new();
    let number = digits.format(number);
    tell(rt, errors, &[words, number, "\n"]);
}

// Writes the line of the watcher that says no to `errors`.
fn tell_no<R, E: Sink>(rt: &R, errors: &mut E, watcher: u64, entry: u64)
    ensures { Tells (line_of_replay (Objects watcher entry)) (E.words errors.old)
        (E.words errors.new) }
{
    let mut digits = Buffer::new();
    let mut more = Buffer::new();
    let watcher = digits.format(watcher);
    let entry = more.format(entry);
    tell(
        rt,
        errors,
        &[
            "nvimd: watcher ",
            watcher,
            " says no at entry ",
            entry,
            "\n",
        ],
    );
}

/// Writes the line of the end of a replay to `errors`, where it has one.
pub fn tell_replay<R, E: Sink>(rt: &R, errors: &mut E, ended: ReplayEnd)
    ensures { Tells (line_of_replay ended) (E.words errors.old) (E.words errors.new) }
{
    match ended {
        ReplayEnd::Done => tell(rt, errors, &[]),
        ReplayEnd::NoMemory => tell(rt, errors, &["nvimd: out of memory\n"]),
        ReplayEnd::ReadFault => tell(rt, errors, &["nvimd: read fault\n"]),
        ReplayEnd::WriteFault => tell(rt, errors, &["nvimd: write fault\n"]),
        ReplayEnd::Malformed(place) => {
            tell_number(rt, errors, "nvimd: malformed book at ", place);
        }
        ReplayEnd::Differs(entry) => {
            tell_number(rt, errors, "nvimd: check differs at entry ", entry);
        }
        ReplayEnd::Objects { watcher, entry } => tell_no(rt, errors, watcher, entry),
    }
}

/// Writes the line of the end of the writing of a script's book to `errors`, where it has one.
pub fn tell_script<R, E: Sink>(rt: &R, errors: &mut E, ended: WriteEnd)
    ensures { Tells (line_of_script ended) (E.words errors.old) (E.words errors.new) }
{
    match ended {
        WriteEnd::Done => tell(rt, errors, &[]),
        WriteEnd::NoMemory => tell(rt, errors, &["nvimd: out of memory\n"]),
        WriteEnd::WriteFault => tell(rt, errors, &["nvimd: write fault\n"]),
    }
}

// Writes bytes that needn't be UTF-8 to `errors`, and the end of the line.
fn tell_bytes<R, E: Sink>(rt: &R, errors: &mut E, bytes: &[u8])
    ensures { Tells (bytes.now ++ codes "\n") (E.words errors.old) (E.words errors.new) }
{
    if !put_all(rt, errors, bytes) {
        return;
    }
    tell(rt, errors, &["\n"]);
}

// Writes the line of a refusal with this message to `errors`.
fn tell_refusal<R, E: Sink>(rt: &R, errors: &mut E, message: &[u8])
    ensures { Tells (codes "nvimd: refused: " ++ (message.now
        ++ codes "\n")) (E.words errors.old) (E.words errors.new) }
{
    if !put_all(rt, errors, b"nvimd: refused: ") {
        return;
    }
    tell_bytes(rt, errors, message);
}

// Writes the line of how a client that was connected ended to `errors`, where it has one.
fn tell_followed<R, E: Sink>(rt: &R, errors: &mut E, followed: &Followed)
    ensures { Tells (line_of_follow (Connected followed.now)) (E.words errors.old)
        (E.words errors.new) }
{
    match followed {
        Followed::Ended | Followed::Detached => tell(rt, errors, &[]),
        Followed::NoMemory => tell_end(rt, errors, Ended::NoMemory),
        Followed::ReadFault => tell_end(rt, errors, Ended::ReadFault),
        Followed::ServerFault | Followed::OutputFault => tell_end(rt, errors, Ended::WriteFault),
        Followed::Malformed(flaw) => tell_end(rt, errors, Ended::Malformed(*flaw)),
        Followed::Refused(message) => tell_refusal(rt, errors, message.as_slice()),
        Followed::Unfit(number) => tell_misfit(rt, errors, *number),
    }
}

// Writes the line of an event that doesn't fit to `errors`.
fn tell_misfit<R, E: Sink>(rt: &R, errors: &mut E, number: u64)
    ensures { Tells (codes "nvimd: event " ++ (decimal number
        ++ codes " does not fit\n")) (E.words errors.old) (E.words errors.new) }
{
    let mut digits = Buffer::new();
    let number = digits.format(number);
    tell(rt, errors, &["nvimd: event ", number, " does not fit\n"]);
}

/// Writes the line of the end of following a buffer to `errors`, where it has one.
pub fn tell_follow<R, E: Sink>(rt: &R, errors: &mut E, ended: &FollowEnd)
    ensures { Tells (line_of_follow ended.now) (E.words errors.old) (E.words errors.new) }
{
    match ended {
        FollowEnd::NoMemory => tell_end(rt, errors, Ended::NoMemory),
        FollowEnd::Unconnected => tell_server(rt, errors, ServerEnd::Failed),
        FollowEnd::Connected(followed) => tell_followed(rt, errors, followed),
    }
}
