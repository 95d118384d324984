//! How what is due to a client goes out: messages, and then the scene.
ghost use Rattle.std.specs.Prelude.{◌≡◌, ◌≤◌, ◌++◌, [], map, All, IfSome, OnOk, OnErr, Err, Some};
ghost use Rattle.nv_io.specs.Faults.{Rose};
ghost use Rattle.nv_value.specs.Content.{trees_of};
ghost use Rattle.nv_msgpack.specs.Shortest.{HasSpelling, HaveSpellings, all_shortest, shortest};
ghost use Rattle.nv_rpc.specs.Messages.{IsSendable, message_tree};
ghost use Rattle.nv_rpc.specs.Outcomes.{AreSpellable, bytes_left, call_result_content};
ghost use Rattle.nv_painter.specs.Spoken.{IsSoundIfThere};
ghost use Rattle.nv_history.specs.Spoken.{bytes_of_messages, bytes_of_scene, told_with};
ghost use Rattle.nv_core.specs.Contents.{sent_of_shared};
ghost use Rattle.nv_speech.specs.Flows.{FlowsOut, IsFrontOut, bytes_said, sent_in};

use crate::voice::Voice;
use nv_core::{Batch, SharedMessage, put_shared_front, size_of_messages};
use nv_io::{Sink, put_all};
use nv_msgpack::encode;
use nv_rpc::{AtomicResults, CallResult};
use nv_screen::HeldScene;
use std::alloc::{AllocError, Global};

/// Why a batch didn't go out whole. A front of it may have.
#[derive(Clone, Copy, Debug, PartialEq, Eq)]
pub enum Unsaid {
    /// A write failed.
    WriteFault,
    /// Memory was wanting.
    NoMemory,
}

/// So many bytes that wait are written before more of a batch is spelled.
const PIECE: usize = 65_536;

/// A batch that takes more bytes than this, about, gets long room before its first message.
const LONG: u64 = 65_536;

/// That room, in bytes. The system gives memory for a block of this size only as far as it is
/// written, and has all of it back as soon as it is dropped.
const LONG_ROOM: usize = 1 << 25;

// How many cells a scene has.
fn cells_of(scene: &Option<HeldScene>) -> u64 {
    match scene {
        Some(held) => {
            let scene = held.scene();
            u64::from(scene.width).saturating_mul(u64::from(scene.height))
        }
        None => 0,
    }
}

// Makes long room for a batch that is long. Where there is no memory for so much, room is made as
// bytes are put.
fn make_room(messages: &[SharedMessage], scene: &Option<HeldScene>, room: &mut Vec<u8>)
    ensures { room.new.items ≡ room.old.items }
{
    if room.capacity() >= LONG_ROOM {
        return;
    }
    if size_of_messages(messages).saturating_add(cells_of(scene)) > LONG {
        let _ = room.reserve(LONG_ROOM);
    }
}

fn is_full(room: &[u8]) -> bool {
    room.len() >= PIECE
}

// Writes the bytes that wait in `room`, where they are many.
fn put_out<R, S: Sink>(rt: &R, room: &mut Vec<u8>, output: &mut S) -> Result<(), Unsaid>
    ensures ok { OnOk result (FlowsOut (S.words output.old).taken
        (S.words output.new).taken room.old.items []
        room.new.items) }
    ensures err { OnErr result
        (IsFrontOut (S.words output.old).taken (S.words output.new).taken room.old.items) }
    ensures later { (S.words output.old).faults ≤ (S.words output.new).faults }
    ensures fault { result ≡ Err Unsaid.WriteFault
        → Rose (S.words output.old).faults (S.words output.new).faults }
{
    if !is_full(room) {
        return Ok(());
    }
    if !put_all(rt, output, room) {
        return Err(Unsaid::WriteFault);
    }
    room.clear();
    Ok(())
}

// Spells the result of a call behind what waits, and writes what becomes many.
fn send_result<R, S: Sink>(
    rt: &R,
    one: &CallResult,
    room: &mut Vec<u8>,
    output: &mut S,
) -> Result<(), Unsaid>
    requires { HasSpelling (call_result_content one.now) }
    ensures ok { OnOk result (FlowsOut (S.words output.old).taken
        (S.words output.new).taken room.old.items
        (shortest (call_result_content one.now)) room.new.items) }
    ensures err { OnErr result (IsFrontOut (S.words output.old).taken (S.words output.new).taken
        (room.old.items
        ++ shortest (call_result_content one.now))) }
    ensures later { (S.words output.old).faults ≤ (S.words output.new).faults }
    ensures fault { result ≡ Err Unsaid.WriteFault
        → Rose (S.words output.old).faults (S.words output.new).faults }
{
    let Ok(()) = one.put(room) else {
        return Err(Unsaid::NoMemory);
    };
    put_out(rt, room, output)
}

// Spells the results of calls one after another behind what waits, and writes what becomes many.
fn send_results<R, S: Sink>(
    rt: &R,
    results: &[CallResult],
    room: &mut Vec<u8>,
    output: &mut S,
) -> Result<(), Unsaid>
    requires { HaveSpellings (trees_of (map call_result_content results.now)) }
    ensures ok { OnOk result (FlowsOut (S.words output.old).taken
        (S.words output.new).taken room.old.items
        (all_shortest (trees_of (map call_result_content results.now))) room.new.items) }
    ensures err { OnErr result (IsFrontOut (S.words output.old).taken (S.words output.new).taken
        (room.old.items
        ++ all_shortest (trees_of (map call_result_content results.now)))) }
    ensures later { (S.words output.old).faults ≤ (S.words output.new).faults }
    ensures fault { result ≡ Err Unsaid.WriteFault
        → Rose (S.words output.old).faults (S.words output.new).faults }
{
    for one in results {
        send_result(rt, one, room, output)?;
    }
    Ok(())
}

// Spells what calls one after another gave, and where they stopped, and writes what becomes many.
fn send_atomic<R, S: Sink>(
    rt: &R,
    atomic: AtomicResults,
    room: &mut Vec<u8>,
    output: &mut S,
) -> Result<(), Unsaid>
    requires { AreSpellable atomic }
    ensures ok { OnOk result (FlowsOut (S.words output.old).taken
        (S.words output.new).taken room.old.items
        (bytes_left (Some atomic)) room.new.items) }
    ensures err { OnErr result (IsFrontOut (S.words output.old).taken (S.words output.new).taken
        (room.old.items ++ bytes_left (Some atomic))) }
    ensures later { (S.words output.old).faults ≤ (S.words output.new).faults }
    ensures fault { result ≡ Err Unsaid.WriteFault
        → Rose (S.words output.old).faults (S.words output.new).faults }
{
    let AtomicResults { results, stop } = atomic;
    send_results(rt, results.as_slice(), room, output)?;
    match encode(&stop, room) {
        Ok(()) => Ok(()),
        Err(_) => Err(Unsaid::NoMemory),
    }
}

// The same of what is left of a message behind its front.
fn send_left<R, S: Sink>(
    rt: &R,
    left: Option<AtomicResults>,
    room: &mut Vec<u8>,
    output: &mut S,
) -> Result<(), Unsaid>
    requires { IfSome left AreSpellable }
    ensures ok { OnOk result (FlowsOut (S.words output.old).taken
        (S.words output.new).taken room.old.items
        (bytes_left left) room.new.items) }
    ensures err { OnErr result (IsFrontOut (S.words output.old).taken (S.words output.new).taken
        (room.old.items ++ bytes_left left)) }
    ensures later { (S.words output.old).faults ≤ (S.words output.new).faults }
    ensures fault { result ≡ Err Unsaid.WriteFault
        → Rose (S.words output.old).faults (S.words output.new).faults }
{
    match left {
        None => Ok(()),
        Some(atomic) => send_atomic(rt, atomic, room, output),
    }
}

// Spells a message behind what waits, and writes what becomes many.
fn send_message<R, S: Sink>(
    rt: &R,
    alloc: Global,
    message: SharedMessage,
    room: &mut Vec<u8>,
    output: &mut S,
) -> Result<(), Unsaid>
    requires { IsSendable (sent_of_shared message) }
    ensures ok { OnOk result (FlowsOut (S.words output.old).taken
        (S.words output.new).taken room.old.items
        (shortest (message_tree (sent_of_shared message))) room.new.items) }
    ensures err { OnErr result (IsFrontOut (S.words output.old).taken (S.words output.new).taken
        (room.old.items
        ++ shortest (message_tree (sent_of_shared message)))) }
    ensures later { (S.words output.old).faults ≤ (S.words output.new).faults }
    ensures fault { result ≡ Err Unsaid.WriteFault
        → Rose (S.words output.old).faults (S.words output.new).faults }
{
    let Ok(left) = put_shared_front(alloc, message, room) else {
        return Err(Unsaid::NoMemory);
    };
    send_left(rt, left, room, output)?;
    put_out(rt, room, output)
}

// Spells messages behind what waits, each in its shortest spelling, and writes what becomes many.
fn send_messages<R, S: Sink>(
    rt: &R,
    alloc: Global,
    messages: Vec<SharedMessage>,
    room: &mut Vec<u8>,
    output: &mut S,
) -> Result<(), Unsaid>
    requires { All IsSendable (map sent_of_shared messages.items) }
    ensures ok { OnOk result (FlowsOut (S.words output.old).taken
        (S.words output.new).taken room.old.items
        (bytes_of_messages (map sent_of_shared messages.items)) room.new.items) }
    ensures err { OnErr result (IsFrontOut (S.words output.old).taken (S.words output.new).taken
        (room.old.items
        ++ bytes_of_messages (map sent_of_shared messages.items))) }
    ensures later { (S.words output.old).faults ≤ (S.words output.new).faults }
    ensures fault { result ≡ Err Unsaid.WriteFault
        → Rose (S.words output.old).faults (S.words output.new).faults }
{
    for message in messages {
        send_message(rt, alloc, message, room, output)?;
    }
    Ok(())
}

/// Puts a batch behind what waits in `room`: its messages in order, each in its shortest spelling,
/// and then the redraw notification that shows its scene to the client, where it has one. As soon
/// as 65,536 bytes wait they are written to `output`; so long messages are spelled and written
/// piece by piece, and the reply to calls in one result by result.
pub fn say<R, S: Sink, V: Voice>(
    rt: &R,
    alloc: Global,
    batch: Batch,
    voice: &mut V,
    room: &mut Vec<u8>,
    output: &mut S,
) -> Result<(), Unsaid>
    requires sendable { All IsSendable (sent_in batch) }
    requires sound { IsSoundIfThere batch.scene }
    ensures ok { OnOk result (FlowsOut (S.words output.old).taken
        (S.words output.new).taken room.old.items
        (bytes_said (V.told voice.old) (sent_in batch) batch.scene) room.new.items) }
    ensures told { OnOk result (V.told voice.new ≡ told_with (V.told voice.old) batch.scene) }
    ensures err { OnErr result (IsFrontOut (S.words output.old).taken (S.words output.new).taken
        (room.old.items
        ++ bytes_said (V.told voice.old) (sent_in batch) batch.scene)) }
    ensures later { (S.words output.old).faults ≤ (S.words output.new).faults }
    ensures fault { result ≡ Err Unsaid.WriteFault
        → Rose (S.words output.old).faults (S.words output.new).faults }
{
    let Batch { messages, scene } = batch;
    make_room(&messages, &scene, room);
    send_messages(rt, alloc, messages, room, output)?;
    let Ok(()) = voice.speak(alloc, scene, room) else {
        return Err(Unsaid::NoMemory);
    };
    put_out(rt, room, output)
}
