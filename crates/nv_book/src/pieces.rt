//! Outputs of a book, read piece by piece.
ghost use Rattle.std.specs.Prelude.{◌≡◌, ◌≤◌, ℕ, List, [], ◌++◌, true, false, Ok, Err};
ghost use Rattle.nv_io.specs.Faults.{Rose};
ghost use Rattle.nv_io.specs.Streams.{Gave};
ghost use Rattle.nv_value.specs.Content.{Tree};
ghost use Rattle.nv_value.specs.View.{content};
ghost use Rattle.nv_book.specs.Reading.{HasGiven};
ghost use Rattle.nv_book.specs.inside.Pieces.{IsPiece, IsNoPiece, IsPut, GetsPiece, GetsOutput};

use crate::faults::Unread;
use crate::intake::Intake;
use nv_io::Source;
use nv_value::Value;
use std::alloc::AllocError;

/// The most bytes of a piece of an output.
const PIECE: usize = 1_048_576;

// Whether so many bytes are a piece: the last one may be shorter than the others.
fn is_piece(length: usize, is_last: bool) -> bool
    ensures yes { result ≡ true → IsPiece is_last length }
    ensures no { result ≡ false → IsPiece is_last length → ⊥ }
{
    if is_last {
        length > 0 && length <= PIECE
    } else {
        length == PIECE
    }
}

// Puts a value that is a piece behind what `into` holds. `false` where it is none.
fn put_piece(value: Value, is_last: bool, into: &mut Vec<u8>) -> Result<bool, AllocError>
    ensures yes { result ≡ Ok true → IsPut is_last (content value) into.old.items into.new.items }
    ensures no { result ≡ Ok false → IsNoPiece is_last (content value) }
{
    let Value::Bin(piece) = value else {
        return Ok(false);
    };
    if !is_piece(piece.len(), is_last) {
        return Ok(false);
    }
    into.extend_from_slice(piece.as_slice())?;
    Ok(true)
}

// Reads the next piece of an output, which is put behind what `into` holds.
fn read_piece<R, S: Source>(
    rt: &R,
    source: &mut S,
    intake: &mut Intake,
    is_last: bool,
    into: &mut Vec<u8>,
) -> Result<(), Unread>
    ensures reads { (bytes : List ℕ)
        × Gave (S.words source.old).taken (S.words source.new).taken (S.words source.old).left
        (S.words source.new).left bytes
        × ((fed : List ℕ) (values : List Tree)
        → HasGiven fed values intake.old.taken intake.old.stream
        → GetsPiece (fed ++ bytes) (S.words source.new).left values is_last result into.old.items
        into.new.items intake.new) }
    ensures later { (S.words source.old).faults ≤ (S.words source.new).faults }
    ensures fault { result ≡ Err Unread.ReadFault
        → Rose (S.words source.old).faults (S.words source.new).faults }
{
    let place = intake.place();
    let value = intake.value(rt, source)?;
    if put_piece(value, is_last, into)? {
        return Ok(());
    }
    Err(intake.malformed(rt, source, place))
}

/// Reads an output of so many pieces, which is put in place of what `into` held.
pub fn read_output<R, S: Source>(
    rt: &R,
    source: &mut S,
    intake: &mut Intake,
    count: u64,
    into: &mut Vec<u8>,
) -> Result<(), Unread>
    ensures reads { (bytes : List ℕ)
        × Gave (S.words source.old).taken (S.words source.new).taken (S.words source.old).left
        (S.words source.new).left bytes
        × ((fed : List ℕ) (values : List Tree)
        → HasGiven fed values intake.old.taken intake.old.stream
        → GetsOutput (fed ++ bytes) (S.words source.new).left values count result into.new.items
        intake.new) }
    ensures later { (S.words source.old).faults ≤ (S.words source.new).faults }
    ensures fault { result ≡ Err Unread.ReadFault
        → Rose (S.words source.old).faults (S.words source.new).faults }
{
    into.clear();
    for done in 0..count {
        read_piece(rt, source, intake, done + 1 == count, into)?;
    }
    Ok(())
}
