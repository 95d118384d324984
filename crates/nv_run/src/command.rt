//! The command line: what the program does for its words.
ghost use Rattle.std.specs.Prelude.{◌≡◌, ◌⊎◌, ℕ, List, [], IsSome, Some, length, map};
ghost use Rattle.nv_io.specs.Faults.{Rose};
ghost use Rattle.nv_io.specs.Streams.{GaveEach, Tells};
ghost use Rattle.nv_io.specs.declared.lanes.Ended.{Ended};
ghost use Rattle.nv_words.specs.Commands.{HasFairNumbers, command_asked, plain_command};
ghost use Rattle.nv_core.specs.Contents.{plain_entries};
ghost use Rattle.nv_session.specs.Ends.{SessionEnds};
ghost use Rattle.nv_session.specs.Sending.{world_after, HasSession};
ghost use Rattle.nv_run.specs.Commands.{MayDial, MayListen, MayOpen, RunsAs, usual_start};
ghost use Rattle.nv_run.specs.Replaying.{AreVerdicts};
ghost use Rattle.nv_run.specs.Runs.{CommandEnds, RunEnds};
ghost use Rattle.nv_run.specs.Statuses.{line_of_refusal};
ghost use Rattle.nv_world.specs.Worlds.{IsOutboxSize};

use crate::mirroring::follow;
use crate::notices::show;
use crate::replaying::replay;
use crate::serving::serve;
use crate::telling::{
    status_of, status_of_follow, status_of_replay, status_of_script, status_of_server, tell,
    tell_end, tell_follow, tell_replay, tell_script, tell_server,
};
use nv_core::{History, Start};
use nv_dispatch::usual_limits;
use nv_history::{fold_law, mark_law, screen_law};
use nv_io::{Dial, Ended, Files, Lane, Port, Sink, Source};
use nv_replay::{ReplayEnd, WriteEnd, generate};
use nv_session::alone;
use nv_watch::Watcher;
use nv_words::{Command, Refusal, read_words};
use nv_world::World;
use std::alloc::Global;
use std::fs::File;
use std::net::{Net, TcpListener, TcpStream};
use std::rt::Files as SystemFiles;
use std::sync::Wait;
use std::thread::Threads;

/// The messages that an outbox has room for, where nothing else is asked for.
pub const USUAL_OUTBOX: u32 = 4_096;

// Tells that the words are refused, and answers the status.
fn refuse<R, E: Sink>(rt: &R, errors: &mut E, refusal: Refusal) -> u8
    ensures memory { refusal ≡ Refusal.NoMemory → result ≡ 1 }
    ensures bad { refusal ≡ Refusal.BadWords → result ≡ 2 }
    ensures line { Tells (line_of_refusal result) (E.words errors.old) (E.words errors.new) }
{
    match refusal {
        Refusal::NoMemory => {
            tell_end(rt, errors, Ended::NoMemory);
            1
        }
        Refusal::BadWords => {
            tell(rt, errors, &["nvimd: bad command line\n"]);
            2
        }
    }
}

// Serves one session alone, from a fresh editor on, and leaves its history in `kept`.
fn embed<R, I: Source, S: Sink>(
    rt: &R,
    alloc: Global,
    outbox: u32,
    input: &mut I,
    output: &mut S,
    kept: &mut History,
) -> Ended
    requires outbox { IsOutboxSize outbox }
    requires empty { kept.old.entries ≡ [] }
    ensures ends { (pieces : List (List ℕ))
        × GaveEach (I.words input.old)
        (I.words input.new) pieces
        × SessionEnds (usual_start outbox) result pieces (I.words input.new).left
        (plain_entries kept.new.entries) (S.words output.old).taken (S.words output.new).taken }
    ensures has { (kept.new.entries ≡ [])
        ⊎ HasSession (usual_start outbox) (plain_entries kept.new.entries) }
    ensures runs { IsSome (world_after (usual_start outbox) (plain_entries kept.new.entries)) }
    ensures read { result ≡ Ended.ReadFault → Rose (I.words input.old).faults
        (I.words input.new).faults }
    ensures write { result ≡ Ended.WriteFault → Rose (S.words output.old).faults
        (S.words output.new).faults }
{
    let Ok(mut world) = World::new(alloc, usual_limits(), outbox) else {
        return Ended::NoMemory;
    };
    let ended = alone(rt, alloc, &mut world, input, output);
    *kept = world.into_history();
    ended
}

// Does what a command asks for, and answers the status.
fn perform<
    R: SystemFiles<File = File>
        + Net<Listener = TcpListener, Stream = TcpStream>
        + Threads
        + Wait
        + Sync,
    I: Source,
    S: Sink,
    E: Sink,
    F: Files,
    P: Port,
    D: Dial,
    W: Watcher,
>(
    rt: &R,
    alloc: Global,
    command: Command<'_>,
    input: &mut I,
    output: &mut S,
    errors: &mut E,
    files: &mut F,
    port: &mut P,
    dial: &mut D,
    watchers: Vec<W>,
    kept: &mut History,
) -> u8
    requires numbers { HasFairNumbers (plain_command command) }
    requires may { MayListen P.may (Some (plain_command command)) }
    requires open { MayOpen F.may (Some (plain_command command)) }
    requires dial { MayDial D.may (Some (plain_command command)) }
    requires empty { kept.old.entries ≡ [] }
    ensures other { result ≡ 2 → ⊥ }
    ensures command { CommandEnds (record {
      input = I.words;
      output = S.words;
      errors = E.words;
      files = F.words;
      from = F.From.Source.words;
      to = F.To.Sink.words;
      port = P.words;
      lanes = record {
        input = P.Line.In.Source.words;
        output = P.Line.Out.Sink.words;
        lane = P.Line.Lane.words;
      };
      dial = D.words;
      halves = record {
        input = D.In.Source.words;
        output = D.Out.Sink.words;
      };
    }) result (record {
      input = input.old;
      output = output.old;
      errors = errors.old;
      files = files.old;
      port = port.old;
      dial = dial.old;
      kept = kept.old;
    }) (record {
      input = input.new;
      output = output.new;
      errors = errors.new;
      files = files.new;
      port = port.new;
      dial = dial.new;
      kept = kept.new;
    }) (length watchers.items) (AreVerdicts W.HasSeen W.Breaks watchers.items)
        (Some (plain_command command.entry)) }
    ensures back { ((F.words files.new).lent_sources ≡ (F.words files.old).lent_sources)
        × ((F.words files.new).lent_sinks ≡ (F.words files.old).lent_sinks)
        × ((D.words dial.new).lent ≡ (D.words dial.old).lent) }
    ensures runs { RunsAs (Some (plain_command command.entry)) (plain_entries kept.new.entries) }
{
    match command {
        Command::Embed { outbox } => {
            let ended = embed(rt, alloc, outbox, input, output, kept);
            tell_end(rt, errors, ended);
            status_of(ended)
        }
        Command::Serve {
            address,
            sessions,
            outbox,
            book,
        } => {
            let ended = serve(
                rt, alloc, address, sessions, outbox, book, files, port, kept,
            );
            tell_server(rt, errors, ended);
            status_of_server(ended)
        }
        Command::Replay { file, check } => {
            let ended = replay(rt, alloc, file, check, output, files, watchers, kept);
            tell_replay(rt, errors, ended);
            status_of_replay(ended)
        }
        Command::Generate { number } => {
            let ended = generate(rt, alloc, usual_limits(), USUAL_OUTBOX, number, output);
            tell_script(rt, errors, ended);
            status_of_script(ended)
        }
        Command::Follow { address, buffer } => {
            let ended = follow(rt, alloc, address, buffer, output, dial);
            tell_follow(rt, errors, &ended);
            status_of_follow(&ended)
        }
        Command::Show { notice } => {
            let ended = show(rt, output, notice);
            tell_script(rt, errors, ended);
            status_of_script(ended)
        }
    }
}

/// Runs the program for the words of its command line, which don't hold the program's name, and
/// answers its status. `kept` is handed in empty, and has the history of the run afterwards.
///
/// With the command `embed` it reads requests and notifications of MessagePack-RPC from `input`,
/// and writes to `output` what each makes due: events and its reply. With `serve` it does so for
/// each connection that the lanes of `port` give, for many at once, on one editor, and writes the
/// book of all of it to a file where one is named. With `replay` it goes over the book in a file
/// again, and writes to `output` what its sessions are sent, or with `--check` compares that with
/// the book and shows each step to the watchers. With `generate` it writes the book of a script to
/// `output`. With `follow` it follows a buffer of the server at an address, and writes the text to
/// `output` at each event. Words that ask for help or for the version have that text written to
/// `output`. After a status other than 0 it writes one line to `errors`; a fault there changes
/// nothing.
pub fn run<
    R: SystemFiles<File = File>
        + Net<Listener = TcpListener, Stream = TcpStream>
        + Threads
        + Wait
        + Sync,
    I: Source,
    S: Sink,
    E: Sink,
    F: Files,
    P: Port,
    D: Dial,
    W: Watcher,
>(
    rt: &R,
    alloc: Global,
    words: &[&str],
    input: &mut I,
    output: &mut S,
    errors: &mut E,
    files: &mut F,
    port: &mut P,
    dial: &mut D,
    watchers: Vec<W>,
    kept: &mut History,
) -> u8
    requires empty { kept.old.entries ≡ [] }

    // The port or the dial may be asked for the address that the words give, the files for the
    // names, and they are asked for no other.
    requires may { MayListen P.may (command_asked (map (λ word. word.now) words.now)) }
    requires open { MayOpen F.may (command_asked (map (λ word. word.now) words.now)) }
    requires dial { MayDial D.may (command_asked (map (λ word. word.now) words.now)) }

    // Exactly the words are refused that the parser refuses for another cause than memory, help and
    // version excepted. What is asked for is done, as the status and the line tell, and the history
    // that is kept runs. Whatever the world begins with in which it does: folding the events that a
    // session was sent gives each buffer at the changedtick that they tell, folding the redraw
    // events shows the screen of the editor with each batch that has a scene, and each mark stands
    // where the edits put it.
    ensures { RunEnds (record {
      input = I.words;
      output = S.words;
      errors = E.words;
      files = F.words;
      from = F.From.Source.words;
      to = F.To.Sink.words;
      port = P.words;
      lanes = record {
        input = P.Line.In.Source.words;
        output = P.Line.Out.Sink.words;
        lane = P.Line.Lane.words;
      };
      dial = D.words;
      halves = record {
        input = D.In.Source.words;
        output = D.Out.Sink.words;
      };
    }) result (record {
      input = input.old;
      output = output.old;
      errors = errors.old;
      files = files.old;
      port = port.old;
      dial = dial.old;
      kept = kept.old;
    }) (record {
      input = input.new;
      output = output.new;
      errors = errors.new;
      files = files.new;
      port = port.new;
      dial = dial.new;
      kept = kept.new;
    }) (length watchers.items) (AreVerdicts W.HasSeen W.Breaks watchers.items)
        (map (λ word. word.now) words.now) }
{
    fold_law();
    screen_law();
    mark_law();
    match read_words(alloc, words) {
        Ok(command) => perform(
            rt, alloc, command, input, output, errors, files, port, dial, watchers, kept,
        ),
        Err(refusal) => refuse(rt, errors, refusal),
    }
}
