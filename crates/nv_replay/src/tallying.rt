//! What is counted and compared while a history is gone over.
ghost use Rattle.std.specs.Prelude.{◌≡◌, ◌≤◌, ◌++◌, ℕ, List, Err, IfOk};
ghost use Rattle.nv_io.specs.Faults.{Rose};
ghost use Rattle.nv_io.specs.Streams.{Gave};
ghost use Rattle.nv_core.specs.Contents.{plain_event};
ghost use Rattle.nv_core.specs.Bounds.{IsLightEvent};
ghost use Rattle.nv_book.specs.Books.{Recorded};
ghost use Rattle.nv_book.specs.Upcoming.{HasEntered};
ghost use Rattle.nv_watch.specs.Verdicts.{Sight};
ghost use Rattle.nv_replay.specs.inside.Tallies.{GoesOver, IsComing, tally_with};

use nv_book::{Replay, Unread, Upcoming};
use nv_io::Source;
use nv_world::Step;

/// How many bytes the outputs have, up to the end of 64 bits, and the number of the first entry
/// whose output in the book isn't the one that it gives.
#[derive(Clone, Copy)]
pub struct Tally {
    pub bytes: u64,
    pub differs: Option<u64>,
}

impl Tally {
    // Looks at the entry of a number: its output in the book, and the one that it gives.
    fn add(&mut self, at: u64, recorded: &[u8], given: &[u8])
        ensures { self.new ≡ tally_with self.old at recorded.now given.now }
    {
        self.bytes = self.bytes.saturating_add(given.len() as u64);
        if self.differs.is_none() && recorded != given {
            self.differs = Some(at);
        }
    }
}

/// Plays the entry of a book that was read, and compares its output with the book's.
pub fn compare_next<R, I: Source>(
    rt: &R,
    replay: &mut Replay,
    source: &mut I,
    upcoming: Upcoming,
    tally: &mut Tally,
) -> Result<Step, Unread>
    requires light { IsLightEvent (plain_event upcoming.heading.entry.event) }
    ensures goes { (bytes : List ℕ)
        × Gave (I.words source.old).taken (I.words source.new).taken (I.words source.old).left
        (I.words source.new).left
        bytes
        × ((fed : List ℕ) (records played : List Recorded) (seen : List Sight)
        → IsComing fed records played seen upcoming tally.old replay.old
        → GoesOver (fed ++ bytes) (I.words source.new).left records played seen result tally.new
        replay.new) }
    ensures enters { IfOk result
        (HasEntered upcoming.heading.entry replay.old.world replay.new.world) }
    ensures same { replay.new.start ≡ replay.old.start }
    ensures later { (I.words source.old).faults ≤ (I.words source.new).faults }
    ensures fault { result ≡ Err Unread.ReadFault
        → Rose (I.words source.old).faults (I.words source.new).faults }
{
    let step = replay.play(rt, source, upcoming)?;
    tally.add(step.at, replay.recorded(), step.sent.as_slice());
    Ok(step)
}
