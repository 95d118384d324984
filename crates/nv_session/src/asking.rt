//! The one session of a world: its opening, its calls with what they make due, and its close.
ghost use Rattle.std.specs.Prelude.{◌≡◌, ◌<◌, ◌++◌, ◌∷◌, [], false, Option, Some, None, map, option_map, All, IfOk, OnOk, OnErr};
ghost use Rattle.nv_rpc.specs.Frames.{call_of_frame};
ghost use Rattle.nv_rpc.specs.Messages.{IsSendable};
ghost use Rattle.nv_painter.specs.Spoken.{IsSoundIfThere};
ghost use Rattle.nv_history.specs.Events.{open_session, request_of, take_of};
ghost use Rattle.nv_history.specs.Solo.{entry_alone};
ghost use Rattle.nv_history.specs.Worlds.{step};
ghost use Rattle.nv_core.specs.Contents.{sent_of_shared};
ghost use Rattle.nv_core.specs.Bounds.{IsLightCall};
ghost use Rattle.nv_world.specs.Worlds.{start_of};
ghost use Rattle.nv_session.specs.Sending.{world_after, cause_after};
ghost use Rattle.nv_session.specs.inside.Alone.{IsAlone, IsCalled, HasNothingDue, Answers, IsUnanswered};
ghost use Rattle.nv_session.specs.inside.Leaving.{GainsClose};
ghost use Rattle.nv_session.specs.inside.Worlds.{entries_in, TakesDue, IsEndedBy};

use nv_core::{Batch, Cause, Taken, Unasked, Unclosed, Unopened, Untaken};
use nv_io::Ended;
use nv_rpc::Frame;
use nv_world::World;
use std::alloc::{AllocError, Global};

/// The number of the one session.
const SESSION: u64 = 1;

/// The number of the one caller.
const CALLER: u32 = 0;

/// The session of a world without entries is opened.
pub fn open(world: &mut World) -> Result<(), AllocError>
    requires fresh { world.old.history ≡ [] }
    ensures unspent { OnOk result (world.new.spent ≡ false) }
    ensures begins { start_of world.new ≡ start_of world.old }
    ensures entries { OnOk result (entries_in world.new ≡ entry_alone open_session ∷ []) }
    ensures err { OnErr result (world.new.history ≡ []) }
{
    match world.open(CALLER) {
        Ok(_) => Ok(()),
        Err(Unopened::NoMemory) => Err(AllocError),
        Err(Unopened::Ended(_)) => unreachable!(),
    }
}

// The session makes a call.
fn ask(world: &mut World, frame: Frame) -> Result<(), AllocError>
    requires alone { IsAlone (start_of world.old) (entries_in world.old) }
    requires light { IsLightCall (call_of_frame frame) }
    ensures begins { start_of world.new ≡ start_of world.old }
    ensures entries { OnOk result (entries_in world.new
        ≡ entries_in world.old ++ entry_alone (request_of 1 (call_of_frame frame)) ∷ []) }
    ensures err { OnErr result (entries_in world.new ≡ entries_in world.old) }
{
    match world.request(CALLER, SESSION, frame) {
        Ok(()) => Ok(()),
        Err((_, Unasked::NoMemory)) => Err(AllocError),
        Err(_) => unreachable!(),
    }
}

// The session takes what is due to it.
fn take(alloc: Global, world: &mut World) -> Result<Batch, AllocError>
    requires called { IsCalled (start_of world.old) (entries_in world.old) }
    ensures unspent { OnOk result (world.new.spent ≡ false) }
    ensures begins { start_of world.new ≡ start_of world.old }
    ensures takes { IfOk result (λ batch. TakesDue (map sent_of_shared batch.messages.items)
        batch.scene (entries_in world.old) (entries_in world.new)
        (option_map (λ w. step w (take_of 1))
        (world_after (start_of world.old) (entries_in world.old)))) }
    ensures sendable { IfOk result (λ batch. All IsSendable
        (map sent_of_shared batch.messages.items)) }
    ensures sound { IfOk result (λ batch. IsSoundIfThere batch.scene) }
    ensures err { OnErr result (entries_in world.new ≡ entries_in world.old) }
{
    match world.take(CALLER, SESSION) {
        Ok(Taken::Items(batch)) => Ok(batch),
        Ok(Taken::Nothing | Taken::Over(_)) => Ok(Batch {
            messages: Vec::new(alloc),
            scene: None,
        }),
        Err(Untaken::NoMemory) => Err(AllocError),
        Err(Untaken::Stranger) => unreachable!(),
    }
}

/// The session makes a call, and takes what that makes due. Where memory is wanting the call may
/// have been made.
pub fn answer(alloc: Global, world: &mut World, frame: Frame) -> Result<Batch, AllocError>
    requires alone { IsAlone (start_of world.old) (entries_in world.old) }
    requires light { IsLightCall (call_of_frame frame) }
    ensures unspent { OnOk result (world.new.spent ≡ false) }
    ensures begins { start_of world.new ≡ start_of world.old }
    ensures answers { IfOk result (λ batch. Answers (start_of world.old) (call_of_frame frame)
        (map sent_of_shared batch.messages.items) batch.scene (entries_in world.old)
        (entries_in world.new)) }
    ensures sendable { IfOk result (λ batch. All IsSendable
        (map sent_of_shared batch.messages.items)) }
    ensures sound { IfOk result (λ batch. IsSoundIfThere batch.scene) }
    ensures err { OnErr result (IsUnanswered (start_of world.old) (call_of_frame frame)
        (entries_in world.old) (entries_in world.new)) }
{
    ask(world, frame)?;
    take(alloc, world)
}

/// How the session was ended by an entry that isn't its close, if it was.
pub fn ended(world: &World) -> Option<Ended>
    requires unspent { world.now.spent ≡ false }
    requires nothing_due { HasNothingDue (start_of world.now) (entries_in world.now) }
    ensures { IsEndedBy result (cause_after (start_of world.now) (entries_in world.now)) }
{
    match world.closed_by(SESSION)? {
        Cause::Overflowed(entry) => Some(Ended::Overflowed(entry)),
        Cause::Quit(entry) => Some(Ended::Quit(entry)),
        Cause::Closed(_) => unreachable!(),
    }
}

/// The session is closed, where no entry has closed it.
pub fn close(world: &mut World) -> Result<(), AllocError>
    ensures begins { start_of world.new ≡ start_of world.old }
    ensures ok { OnOk result (GainsClose (start_of world.old) (entries_in world.old)
        (entries_in world.new)) }
    ensures err { OnErr result (entries_in world.new ≡ entries_in world.old) }
{
    match world.close(CALLER, SESSION) {
        Ok(()) => Ok(()),
        Err(Unclosed::NoMemory) => Err(AllocError),
        Err(Unclosed::Stranger | Unclosed::Gone(_)) => Ok(()),
    }
}
