//! The line that a comparison ends with.
ghost use Rattle.std.specs.Prelude.{◌≡◌, ◌++◌, IfOk, OnOk};
ghost use Rattle.nv_core.specs.Contents.{plain_entries, plain_event};
ghost use Rattle.nv_replay.specs.Summary.{count_of_kind, counted, is_opening, is_take};
ghost use Rattle.nv_replay.specs.inside.Endings.{line_for};

use itoa::Buffer;
use nv_core::{Entry, Event};
use std::alloc::{AllocError, Global};

fn is_opening(event: &Event) -> bool
    ensures { result ≡ is_opening (plain_event event.now) }
{
    matches!(event, Event::Open)
}

fn is_take(event: &Event) -> bool
    ensures { result ≡ is_take (plain_event event.now) }
{
    matches!(event, Event::Take { .. })
}

// How many entries are openings.
fn count_openings(entries: &[Entry]) -> u64
    ensures { result ≡ count_of_kind is_opening (plain_entries entries.now) }
{
    let mut count = 0;
    for entry in entries {
        if is_opening(&entry.event) {
            count += 1;
        }
    }
    count
}

// How many entries are takes.
fn count_takes(entries: &[Entry]) -> u64
    ensures { result ≡ count_of_kind is_take (plain_entries entries.now) }
{
    let mut count = 0;
    for entry in entries {
        if is_take(&entry.event) {
            count += 1;
        }
    }
    count
}

// Puts a count behind its words at the end of a line.
fn put_count(line: &mut Vec<u8>, words: &str, count: u64) -> Result<(), AllocError>
    ensures { OnOk result (line.new.items ≡ line.old.items ++ counted words.now count) }
{
    let mut digits = Buffer::new();
    line.extend_from_slice(words.as_bytes())?;
    line.extend_from_slice(digits.format(count).as_bytes())
}

/// The line of a history whose outputs have so many bytes.
pub fn summary(alloc: Global, entries: &[Entry], bytes: u64) -> Result<Vec<u8>, AllocError>
    ensures { IfOk result (λ line. line.items ≡ line_for (plain_entries entries.now) bytes) }
{
    let mut line = Vec::new(alloc);
    put_count(&mut line, "entries ", entries.len() as u64)?;
    put_count(&mut line, " sessions ", count_openings(entries))?;
    put_count(&mut line, " takes ", count_takes(entries))?;
    put_count(&mut line, " bytes ", bytes)?;
    line.extend_from_slice(b" ok\n")?;
    Ok(line)
}
