//! What the command does over a source that never fails, whose bytes are known.
ghost use Rattle.std.specs.Prelude.{◌≡◌, ◌≢◌, ◌⊎◌, ℕ, ◌^◌, ◌<◌, ◌++◌, List, [], vec_len, None, Some};
ghost use Rattle.nv_io.specs.Memory.{AreSizes};
ghost use Rattle.nv_io.specs.declared.lanes.Flaw.{Flaw};
ghost use Rattle.nv_history.specs.Events.{quit_at};
ghost use Rattle.nv_core.specs.Contents.{plain_entries};
ghost use Rattle.nv_session.specs.Ends.{AnswersAll, AnswersUpTo};
ghost use Rattle.nv_run.specs.Commands.{usual_start};
ghost use Rattle.nv_run.specs.declared.command.TheConstants.{USUAL_OUTBOX};

use crate::command::run;
use nv_core::History;
use nv_io::{MemDial, MemFiles, MemPort, MemSink, SureSink, SureSource};
use nv_watch::Counter;
use std::alloc::Global;
use std::fs::File;
use std::net::{Net, TcpListener, TcpStream};
use std::rt::Files;
use std::sync::Wait;
use std::thread::Threads;

/// Answers the calls in `bytes`, which come in pieces of the sizes in `cuts`, over and over. Gives
/// the status, the sink that took what went out, and the history.
///
/// Status 0 says that the bytes are calls and nothing else, and that each was answered; or that one
/// of the calls at their front ended the server, and that those up to it were answered. Status 6
/// says that they hold calls up to a flaw, and that each of these was answered.
pub fn answer_all<
    R: Files<File = File> + Net<Listener = TcpListener, Stream = TcpStream> + Threads + Wait + Sync,
>(rt: &R, alloc: Global, bytes: Vec<u8>, cuts: Vec<usize>) -> (u8, MemSink, History)
    requires some { 0 < vec_len cuts }
    requires sizes { AreSizes cuts.items }
    requires short { vec_len bytes < 2 ^ 62 }
    ensures command { result.0 ≢ 2 }
    ensures sure { result.0 ≢ 3 }
    ensures whole { result.0 ≡ 0
        → AnswersAll (usual_start USUAL_OUTBOX) None bytes.items
        (plain_entries result.2.entries) (Some [])
        (Some result.1.taken)
        ⊎ ((entry : ℕ) × (read rest : List ℕ) × (bytes.items ≡ read ++ rest)
        × AnswersUpTo (usual_start USUAL_OUTBOX) (quit_at entry) read
        (plain_entries result.2.entries)
        (Some []) (Some result.1.taken)) }
    ensures malformed { result.0 ≡ 6
        → (flaw : Flaw) × (read rest : List ℕ) × (bytes.items ≡ read ++ rest)
        × AnswersAll (usual_start USUAL_OUTBOX) (Some flaw) read
        (plain_entries result.2.entries) (Some [])
        (Some result.1.taken) }
{
    let mut input = SureSource::new(bytes, cuts);
    let mut output = MemSink::new(alloc, 4_096, Vec::new(alloc));
    let mut errors = SureSink::new(4_096);
    let mut kept = History::new(alloc);
    let port = MemPort::<SureSource, SureSink>::new(alloc, Vec::new(alloc), Vec::new(alloc));
    let Ok(mut port) = port else {
        return (1, output, kept);
    };
    let files = MemFiles::new(alloc, Vec::new(alloc), Vec::new(alloc), Vec::new(alloc));
    let Ok(mut files) = files else {
        return (1, output, kept);
    };
    let dial = MemDial::<SureSource, SureSink>::new(alloc, Vec::new(alloc), Vec::new(alloc));
    let Ok(mut dial) = dial else {
        return (1, output, kept);
    };
    let status = run(
        rt,
        alloc,
        &["embed"],
        &mut input,
        &mut output,
        &mut errors,
        &mut files,
        &mut port,
        &mut dial,
        Vec::<Counter>::new(alloc),
        &mut kept,
    );
    (status, output, kept)
}
