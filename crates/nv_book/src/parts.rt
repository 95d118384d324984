//! The parts of a book: its first value, its entries and its end.
ghost use Rattle.std.specs.Prelude.{◌≡◌, ◌≤◌, ℕ, List, [], ◌∷◌, ◌++◌, IfOk, Some, Err};
ghost use Rattle.nv_io.specs.Faults.{Rose};
ghost use Rattle.nv_io.specs.Streams.{Gave};
ghost use Rattle.nv_value.specs.Content.{Tree};
ghost use Rattle.nv_value.specs.View.{content};
ghost use Rattle.nv_args.specs.Weight.{weight};
ghost use Rattle.nv_book.specs.Books.{most_value};
ghost use Rattle.nv_book.specs.Headings.{outbox_in};
ghost use Rattle.nv_book.specs.Reading.{HasGiven};
ghost use Rattle.nv_book.specs.inside.Parts.{EndsBook, GetsFirst, GetsPart, HasLightPart, IsPartIfAny, IsPlaceBehind};
ghost use Rattle.nv_world.specs.Worlds.{IsOutboxSize};

use crate::faults::Unread;
use crate::headings::{Heading, end_of, heading_of, outbox_of};
use crate::intake::Intake;
use nv_io::Source;
use nv_value::Value;
use std::alloc::{AllocError, Global};

/// What stands in a book behind its first value.
#[derive(Drop)]
pub enum Part {
    Entry(Heading),
    /// The end, which tells of so many entries.
    End(u64),
}

// The part that a value is, where it is one.
fn part_in(alloc: Global, value: &Value) -> Result<Option<Part>, AllocError>
    requires { weight (content value.now) ≤ most_value }
    ensures part { IfOk result (IsPartIfAny (content value.now)) }
    ensures light { IfOk result HasLightPart }
{
    if let Some(heading) = heading_of(alloc, value)? {
        return Ok(Some(Part::Entry(heading)));
    }
    match end_of(value) {
        Some(count) => Ok(Some(Part::End(count))),
        None => Ok(None),
    }
}

fn part_of(alloc: Global, value: Value) -> Result<Option<Part>, AllocError>
    requires { weight (content value) ≤ most_value }
    ensures part { IfOk result (IsPartIfAny (content value)) }
    ensures light { IfOk result HasLightPart }
{
    part_in(alloc, &value)
}

/// Reads the next part of a book.
pub fn read_part<R, S: Source>(
    rt: &R,
    alloc: Global,
    source: &mut S,
    intake: &mut Intake,
) -> Result<Part, Unread>
    ensures reads { (bytes : List ℕ)
        × Gave (S.words source.old).taken (S.words source.new).taken (S.words source.old).left
        (S.words source.new).left bytes
        × ((fed : List ℕ) (values : List Tree)
        → HasGiven fed values intake.old.taken intake.old.stream
        → GetsPart (fed ++ bytes) (S.words source.new).left values result intake.new) }
    ensures light { IfOk result (λ part. HasLightPart (Some part)) }
    ensures later { (S.words source.old).faults ≤ (S.words source.new).faults }
    ensures fault { result ≡ Err Unread.ReadFault
        → Rose (S.words source.old).faults (S.words source.new).faults }
{
    let place = intake.place();
    let value = intake.value(rt, source)?;
    match part_of(alloc, value)? {
        Some(part) => Ok(part),
        None => Err(intake.malformed(rt, source, place)),
    }
}

// How many messages an outbox holds, by a value.
fn outbox_by(value: Value) -> Option<u32>
    ensures { result ≡ outbox_in (content value) }
{
    outbox_of(&value)
}

/// Reads the first value of a book: how many messages an outbox holds.
pub fn read_first<R, S: Source>(rt: &R, source: &mut S, intake: &mut Intake) -> Result<u32, Unread>
    ensures reads { (bytes : List ℕ)
        × Gave (S.words source.old).taken (S.words source.new).taken (S.words source.old).left
        (S.words source.new).left bytes
        × ((fed : List ℕ) (values : List Tree)
        → HasGiven fed values intake.old.taken intake.old.stream
        → GetsFirst (fed ++ bytes) (S.words source.new).left values result intake.new) }
    ensures fair { IfOk result (λ outbox. IsOutboxSize outbox) }
    ensures later { (S.words source.old).faults ≤ (S.words source.new).faults }
    ensures fault { result ≡ Err Unread.ReadFault
        → Rose (S.words source.old).faults (S.words source.new).faults }
{
    let place = intake.place();
    let value = intake.value(rt, source)?;
    match outbox_by(value) {
        Some(outbox) => Ok(outbox),
        None => Err(intake.malformed(rt, source, place)),
    }
}

/// Reads that nothing follows the end of a book, which stands at a place and tells of so many
/// entries, where there were so many.
pub fn read_end<R, S: Source>(
    rt: &R,
    source: &mut S,
    intake: &mut Intake,
    place: u64,
    told: u64,
    entries: u64,
) -> Result<(), Unread>
    ensures reads { (bytes : List ℕ)
        × Gave (S.words source.old).taken (S.words source.new).taken (S.words source.old).left
        (S.words source.new).left bytes
        × ((fed : List ℕ) (values : List Tree) (end : Tree)
        → HasGiven fed (values ++ end ∷ []) intake.old.taken intake.old.stream
        → IsPlaceBehind fed values place
        → EndsBook (fed ++ bytes) (S.words source.new).left values end told entries result) }
    ensures later { (S.words source.old).faults ≤ (S.words source.new).faults }
    ensures fault { result ≡ Err Unread.ReadFault
        → Rose (S.words source.old).faults (S.words source.new).faults }
{
    if told != entries {
        return Err(intake.malformed(rt, source, place));
    }
    if intake.is_over(rt, source)? {
        return Ok(());
    }
    let behind = intake.place();
    Err(intake.malformed(rt, source, behind))
}
