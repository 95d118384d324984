//! What the clients of the sessions of a history are sent.
ghost use Rattle.std.specs.Prelude.{◌≡◌, ◌<◌, ◌++◌, ℕ, [], length, map, All, IfOk, OnOk};
ghost use Rattle.nv_rpc.specs.Messages.{IsSendable};
ghost use Rattle.nv_painter.specs.Spoken.{IsSoundIfThere};
ghost use Rattle.nv_history.specs.Spoken.{told_with};
ghost use Rattle.nv_core.specs.Contents.{sent_of_shared};
ghost use Rattle.nv_book.specs.inside.Playing.{SpeaksFor, bytes_of_given, told_at};

use nv_core::{Batch, put_messages};
use nv_painter::{Batch as SpokenBatch, Painter};
use std::alloc::{AllocError, Global};

// Puts a batch behind what `into` holds: its messages, each in its shortest spelling, and then the
// redraw notification that shows its scene, where it has one.
fn speak_batch(
    alloc: Global,
    painter: &mut Painter,
    batch: Batch,
    into: &mut Vec<u8>,
) -> Result<(), AllocError>
    requires sendable { All IsSendable (map sent_of_shared batch.messages.items) }
    requires sound { IsSoundIfThere batch.scene }
    ensures bytes { OnOk result (into.new.items ≡ into.old.items ++ bytes_of_given painter.old.told
        (map sent_of_shared batch.messages.items) batch.scene) }
    ensures told { OnOk result (painter.new.told ≡ told_with painter.old.told batch.scene) }
{
    let Batch { messages, scene } = batch;
    put_messages(alloc, messages, into)?;
    painter.speak(
        alloc,
        SpokenBatch {
            messages: Vec::new(alloc),
            scene,
        },
        into,
    )
}

// Painters for the sessions up to this number. A client without one was told nothing.
fn grow(alloc: Global, painters: &mut Vec<Painter>, session: usize) -> Result<(), AllocError>
    ensures same { OnOk result ((s : ℕ)
        → told_at painters.new.items s ≡ told_at painters.old.items s) }
    ensures long { OnOk result (session < length painters.new.items) }
{
    while painters.len() <= session {
        painters.push(Painter::new(alloc)?)?;
    }
    Ok(())
}

/// Puts what a session is sent of a batch behind what `into` holds. Without memory the painters are
/// spent.
pub fn speak_for(
    alloc: Global,
    painters: &mut Vec<Painter>,
    session: u64,
    batch: Batch,
    into: &mut Vec<u8>,
) -> Result<(), AllocError>
    requires sendable { All IsSendable (map sent_of_shared batch.messages.items) }
    requires sound { IsSoundIfThere batch.scene }
    requires empty { into.old.items ≡ [] }
    ensures { OnOk result (SpeaksFor painters.old.items painters.new.items session
        (map sent_of_shared batch.messages.items) batch.scene into.new.items) }
{
    let place = session as usize;
    grow(alloc, painters, place)?;
    speak_batch(alloc, &mut painters[place], batch, into)
}
