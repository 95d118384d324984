//! How what was taken for a session goes out.
ghost use Rattle.std.specs.Prelude.{◌≡◌, ◌≤◌, take, ℕ, All, OnOk, IfErr, Err};
ghost use Rattle.std.specs.Io.KnownBytes.{append_known};
ghost use Rattle.nv_io.specs.Faults.{Rose};
ghost use Rattle.nv_rpc.specs.Messages.{IsSendable};
ghost use Rattle.nv_painter.specs.Spoken.{IsSoundIfThere};
ghost use Rattle.nv_history.specs.Spoken.{told_with};
ghost use Rattle.nv_speech.specs.Flows.{bytes_said, sent_in};
ghost use Rattle.nv_halves.specs.inside.Taking.{IsCutOff, writer_end_unsaid};

use crate::ends::WriterEnd;
use nv_core::Batch;
use nv_io::{Sink, put_all};
use nv_speech::{Unsaid, Voice, say};
use std::alloc::Global;

// How a writer ends whose batch didn't go out whole.
fn end_unsaid(why: Unsaid) -> WriterEnd
    ensures { result ≡ writer_end_unsaid why }
{
    match why {
        Unsaid::WriteFault => WriterEnd::WriteFault,
        Unsaid::NoMemory => WriterEnd::NoMemory,
    }
}

/// Writes a batch to `output`: its messages in order, each in its shortest spelling, and then the
/// redraw notification that shows its scene to the client, where it has one. They go out as one
/// piece where they are few bytes, and else piece by piece, as they are spelled. `room` is memory
/// that is used again from batch to batch.
pub(crate) fn send<R, S: Sink, V: Voice>(
    rt: &R,
    alloc: Global,
    batch: Batch,
    voice: &mut V,
    room: &mut Vec<u8>,
    output: &mut S,
) -> Result<(), WriterEnd>
    requires sendable { All IsSendable (sent_in batch) }
    requires sound { IsSoundIfThere batch.scene }
    ensures ok { OnOk result ((S.words output.new).taken ≡ append_known (S.words output.old).taken
        (bytes_said (V.told voice.old) (sent_in batch) batch.scene)) }
    ensures told { OnOk result (V.told voice.new ≡ told_with (V.told voice.old) batch.scene) }
    ensures err { IfErr result (λ end. IsCutOff end × ((count : ℕ)
        × ((S.words output.new).taken ≡ append_known (S.words output.old).taken
        (take count (bytes_said (V.told voice.old) (sent_in batch) batch.scene))))) }
    ensures later { (S.words output.old).faults ≤ (S.words output.new).faults }
    ensures fault { result ≡ Err WriterEnd.WriteFault
        → Rose (S.words output.old).faults (S.words output.new).faults }
{
    room.clear();
    if let Err(why) = say(rt, alloc, batch, voice, room, output) {
        return Err(end_unsaid(why));
    }
    if put_all(rt, output, room) {
        Ok(())
    } else {
        Err(WriterEnd::WriteFault)
    }
}
