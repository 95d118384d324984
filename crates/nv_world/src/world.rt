//! The world: one editor, its sessions, and the history of all that happened to it.
ghost use Rattle.std.specs.Prelude.{◌≡◌, ◌≢◌, ◌≤◌, ◌<◌, ◌-◌, ◌^◌, [], length, false, true, Err, IfErr, IfOk, IsSome, IsTrue, OnOk, option_map};
ghost use Rattle.nv_rpc.specs.Frames.{call_of_frame};
ghost use Rattle.nv_model.specs.Standing.{Stands};
ghost use Rattle.nv_history.specs.Events.{close_of, open_session, request_of, take_of};
ghost use Rattle.nv_history.specs.Worlds.{World as ModelWorld, session_of};
ghost use Rattle.nv_core.specs.Contents.{plain_cause, plain_event};
ghost use Rattle.nv_core.specs.Outcomes.{IsUnaskedBy, IsUnclosedBy, effect_of_taken, stop_of_unasked, stop_of_unclosed, stop_of_unopened, stop_of_untaken};
ghost use Rattle.nv_core.specs.Sizes.{bytes_due};
ghost use Rattle.nv_world.specs.Steps.{AreLastSplices};
ghost use Rattle.nv_world.specs.Worlds.{AppliesErr, AppliesOk, ClosesNoUi, IsOutboxSize, model_of, outcome_of_event};
ghost use Rattle.nv_core.specs.Bounds.{GivesFewCells, GivesSendable, IsLightCall, IsLightEvent};
ghost use Rattle.nv_core.specs.Sessions.{cause_of, is_any_due};

use crate::machine::Machine;
use crate::state::Numbers;
use crate::step::Moved;
use nv_core::{
    Cause, Effect, Entry, Event, History, Stop, Taken, Unasked, Unclosed, Unopened, Untaken,
};
use nv_editor::Editor;
use nv_model::Limits;
use nv_rpc::Frame;
use std::alloc::{AllocError, Global};
use std::marker::Model;

/// The fewest messages that an outbox may have room for, and the most.
pub const LEAST_OUTBOX: u64 = 16;

pub const MOST_OUTBOX: u64 = 1_048_576;

/// One editor, the sessions that call it, and the history of all events. What contracts see of it
/// is how many messages an outbox holds, the limits, the history, and whether it is spent; the
/// editor and the sessions are what the history makes them.
#[derive(Drop)]
pub struct World {
    capacity: u32,
    limits: Limits,
    machine: Machine,
    // With room for the close of each session that isn't closed.
    history: History,
}

impl Model for World {
    ghost use Rattle.nv_world.specs.Worlds.{WorldRecord, world_code};

    ghost Value = { WorldRecord };

    ghost coded = { world_code };

    ghost use Rattle.nv_world.specs.inside.Worlds.{IsWorld};

    ghost view = { λ w. record {
      capacity = w.capacity;
      limits = w.limits;
      history = w.history.entries;
      spent = w.machine.spent;
    } };

    ghost invariant = { IsWorld };
}

// The numbers of the next entry.
fn numbers_of(capacity: u32, entries: u64, history: &History) -> Numbers
    requires { 1 ≤ entries }
    ensures numbers { result ≡ record {
      capacity = capacity;
      last = entries - 1;
      at = length history.now.entries;
    } }
    ensures few { result.at < 2 ^ 63 }
{
    Numbers {
        capacity,
        last: entries - 1,
        at: history.len() as u64,
    }
}

// Whether a world isn't spent and has memory for so many entries more. One without it is spent by
// that.
fn has_room(history: &mut History, spent: &mut bool, more: usize) -> bool
    ensures base { history.new.base ≡ history.old.base }
    ensures entries { history.new.entries ≡ history.old.entries }
    ensures live { IsTrue result → (spent.old ≡ false) × (spent.new ≡ false) }
    ensures room { IsTrue result → more ≤ history.new.room }
    ensures kept { history.old.room ≤ history.new.room }
    ensures spent { result ≡ false → spent.new ≡ true }
{
    if *spent || history.reserve(more).is_err() {
        *spent = true;
        return false;
    }
    true
}

impl World {
    /// A world with a fresh editor, without sessions and without entries. An outbox holds so many
    /// messages.
    pub fn new(alloc: Global, limits: Limits, outbox: u32) -> Result<World, AllocError>
        requires outbox { IsOutboxSize outbox }
        requires entries { 1 ≤ limits.entries }
        ensures { IfOk result (λ world. world ≡ record {
          capacity = outbox;
          limits = limits;
          history = [];
          spent = false;
        }) }
    {
        let machine = Machine::new(alloc, limits)?;
        Ok(World {
            capacity: outbox,
            limits,
            machine,
            history: History::new(alloc),
        })
    }

    /// A session begins, with this number: sessions are numbered from 1, in the order of these
    /// calls.
    pub fn open(&mut self, caller: u32) -> Result<u64, Unopened>
        ensures ok { IfOk result (λ session. (self.old.spent ≡ false)
            × AppliesOk self.old self.new (record { caller = caller; event = Event.Open })
            (Effect.Opened session) (outcome_of_event self.old open_session)) }
        ensures err { IfErr result (λ why. AppliesErr self.old self.new (stop_of_unopened why)
            (outcome_of_event self.old open_session)) }
        ensures spent { self.old.spent ≡ true
            → (result ≡ Err Unopened.NoMemory) × (self.new ≡ self.old) }
    {
        let numbers = numbers_of(self.capacity, self.limits.entries, &self.history);
        if !has_room(
            &mut self.history,
            &mut self.machine.spent,
            self.machine.state.sessions.len() + 2,
        ) {
            return Err(Unopened::NoMemory);
        }
        match self.machine.open(numbers) {
            Ok(session) => {
                let event = Event::Open;
                self.history.push_reserved(Entry { caller, event });
                Ok(session)
            }
            Err(why) => Err(why),
        }
    }

    /// A session makes a call. Where it can't, the call comes back.
    pub fn request(
        &mut self,
        caller: u32,
        session: u64,
        frame: Frame,
    ) -> Result<(), (Frame, Unasked)>
        requires light { IsLightCall (call_of_frame frame) }
        ensures ok { OnOk result ((self.old.spent ≡ false) × AppliesOk self.old self.new
            (record { caller = caller; event = Event.Request session frame }) Effect.Done
            (outcome_of_event self.old (request_of session (call_of_frame frame)))) }
        ensures err { IfErr result (λ refused. (refused.0 ≡ frame)
            × AppliesErr self.old self.new (stop_of_unasked session refused.1)
            (outcome_of_event self.old (request_of session (call_of_frame frame)))) }
        ensures gone { IfErr result (λ refused. (w : ModelWorld) → model_of self.old ≡ Some w
            → IsUnaskedBy (session_of w session) refused.1) }
        ensures spent { self.old.spent ≡ true
            → (result ≡ Err (frame, Unasked.NoMemory)) × (self.new ≡ self.old) }
    {
        let numbers = numbers_of(self.capacity, self.limits.entries, &self.history);
        if !has_room(
            &mut self.history,
            &mut self.machine.spent,
            self.machine.state.sessions.len() + 1,
        ) {
            return Err((frame, Unasked::NoMemory));
        }
        match self.machine.request(numbers, session, &frame) {
            Ok(()) => {
                let event = Event::Request { session, frame };
                self.history.push_reserved(Entry { caller, event });
                Ok(())
            }
            Err(why) => Err((frame, why)),
        }
    }

    /// All that waits for a session is handed over, with what is seen, where its UI is to show it.
    pub fn take(&mut self, caller: u32, session: u64) -> Result<Taken, Untaken>
        ensures ok { IfOk result (λ taken. (self.old.spent ≡ false)
            × AppliesOk self.old self.new (record { caller = caller; event = Event.Take session })
            (effect_of_taken taken) (outcome_of_event self.old (take_of session))) }
        ensures err { IfErr result (λ why. AppliesErr self.old self.new
            (stop_of_untaken session why) (outcome_of_event self.old (take_of session))) }
        ensures sendable { IfOk result (λ taken. GivesSendable (effect_of_taken taken)) }
        ensures cells { IfOk result (λ taken. GivesFewCells (effect_of_taken taken)) }
        ensures spent { self.old.spent ≡ true
            → (result ≡ Err Untaken.NoMemory) × (self.new ≡ self.old) }
    {
        let numbers = numbers_of(self.capacity, self.limits.entries, &self.history);
        if !has_room(
            &mut self.history,
            &mut self.machine.spent,
            self.machine.state.sessions.len() + 1,
        ) {
            return Err(Untaken::NoMemory);
        }
        match self.machine.take(numbers, session) {
            Ok(Taken::Items(batch)) => {
                let event = Event::Take { session };
                self.history.push_reserved(Entry { caller, event });
                Ok(Taken::Items(batch))
            }
            Ok(Taken::Nothing) => Ok(Taken::Nothing),
            Ok(Taken::Over(cause)) => Ok(Taken::Over(cause)),
            Err(why) => Err(why),
        }
    }

    /// A session ends. No memory is taken where no UI goes by it: there is room for its entry since
    /// it was opened.
    pub fn close(&mut self, caller: u32, session: u64) -> Result<(), Unclosed>
        ensures ok { OnOk result ((self.old.spent ≡ false) × AppliesOk self.old self.new
            (record { caller = caller; event = Event.Close session }) Effect.Closed
            (outcome_of_event self.old (close_of session))) }
        ensures err { IfErr result (λ why. AppliesErr self.old self.new
            (stop_of_unclosed session why) (outcome_of_event self.old (close_of session))) }
        ensures gone { IfErr result (λ why. (w : ModelWorld) → model_of self.old ≡ Some w
            → IsUnclosedBy (session_of w session) why) }
        ensures memory { IfErr result (λ why. (w : ModelWorld) → self.old.spent ≡ false
            → model_of self.old ≡ Some w → ClosesNoUi w (close_of session)
            → why ≢ Unclosed.NoMemory) }
        ensures spent { self.old.spent ≡ true
            → (result ≡ Err Unclosed.NoMemory) × (self.new ≡ self.old) }
    {
        if self.machine.spent {
            return Err(Unclosed::NoMemory);
        }
        let numbers = numbers_of(self.capacity, self.limits.entries, &self.history);
        match self.machine.close(numbers, session) {
            Ok(()) => {
                let event = Event::Close { session };
                self.history.push_reserved(Entry { caller, event });
                Ok(())
            }
            Err(why) => Err(why),
        }
    }

    /// Applies an event that a caller brings. It gives what the event does; or, with the event,
    /// why it is refused, and then the world is as it was. Where memory is wanting the world is
    /// spent: every later event is refused in the same way, and the history can still be read. A
    /// Close by which no UI goes takes no memory.
    pub fn apply(&mut self, caller: u32, event: Event) -> Result<Effect, (Event, Stop)>
        requires light { IsLightEvent (plain_event event) }
        ensures ok { IfOk result (λ effect. (self.old.spent ≡ false)
            × AppliesOk self.old self.new (record { caller = caller; event = event }) effect
            (outcome_of_event self.old (plain_event event))) }
        ensures err { IfErr result (λ refused. (refused.0 ≡ event)
            × AppliesErr self.old self.new refused.1
            (outcome_of_event self.old (plain_event event))) }
        ensures sendable { IfOk result GivesSendable }
        ensures cells { IfOk result GivesFewCells }
        ensures memory { IfErr result (λ refused. (w : ModelWorld) → self.old.spent ≡ false
            → model_of self.old ≡ Some w → ClosesNoUi w (plain_event event)
            → refused.1 ≢ Stop.NoMemory) }
        ensures spent { self.old.spent ≡ true
            → (result ≡ Err (event, Stop.NoMemory)) × (self.new ≡ self.old) }
    {
        match event {
            Event::Open => match self.open(caller) {
                Ok(session) => Ok(Effect::Opened(session)),
                Err(why) => Err((Event::Open, why.stop())),
            },
            Event::Request { session, frame } => match self.request(caller, session, frame) {
                Ok(()) => Ok(Effect::Done),
                Err((frame, why)) => Err((Event::Request { session, frame }, why.stop(session))),
            },
            Event::Take { session } => match self.take(caller, session) {
                Ok(taken) => Ok(taken.effect()),
                Err(why) => Err((Event::Take { session }, why.stop(session))),
            },
            Event::Close { session } => match self.close(caller, session) {
                Ok(()) => Ok(Effect::Closed),
                Err(why) => Err((Event::Close { session }, why.stop(session))),
            },
        }
    }

    /// Whether an event was refused for want of memory.
    pub fn spent(&self) -> bool
        ensures { result ≡ self.now.spent }
    {
        self.machine.spent
    }

    /// The history, lent.
    pub fn history(&self) -> &History
        ensures base { result.now.base ≡ 0 }
        ensures history { result.now.entries ≡ self.now.history }
        ensures runs { IsSome (model_of self.now) }
    {
        &self.history
    }

    /// The history, taken out.
    pub fn into_history(self) -> History
        ensures base { result.base ≡ 0 }
        ensures history { result.entries ≡ self.history }
        ensures runs { IsSome (model_of self) }
    {
        self.history
    }

    /// The splices that the last entry made in buffers, in their order.
    pub fn last_splices(&self) -> Result<Vec<Moved>, AllocError>
        ensures { IfOk result (λ splices. AreLastSplices self.now.capacity self.now.limits
            self.now.history splices.items) }
    {
        let splices = self.machine.last_splices()?;
        Ok(splices)
    }

    /// The editor, lent: it stands for the one that the history makes, unless the world is spent.
    pub fn editor(&self) -> &Editor
        ensures { (w : ModelWorld) → self.now.spent ≡ false → model_of self.now ≡ Some w
            → Stands result.now w.editor }
    {
        &self.machine.state.editor
    }

    /// What closed a session; `None` exactly where it isn't closed, or isn't there. Of a spent
    /// world nothing is promised.
    pub fn closed_by(&self, session: u64) -> Option<Cause>
        ensures { (w : ModelWorld) → self.now.spent ≡ false → model_of self.now ≡ Some w
            → option_map plain_cause result ≡ cause_of (session_of w session) }
    {
        self.machine.closed_by(session)
    }

    /// Whether anything is due to a session: messages, or to its UI what is seen. Of a spent world
    /// nothing is promised.
    pub fn has_due(&self, session: u64) -> bool
        ensures { (w : ModelWorld) → self.now.spent ≡ false → model_of self.now ≡ Some w
            → result ≡ is_any_due w session (session_of w session) }
    {
        self.machine.has_due(session)
    }

    /// How many bytes what waits for a session takes, 0 where nothing does: 32 for each message,
    /// value and line, and those of their strings. Nothing counts where the session is closed or
    /// isn't there. Of a spent world nothing is promised.
    pub fn bytes_due(&self, session: u64) -> u64
        ensures { (w : ModelWorld) → self.now.spent ≡ false → model_of self.now ≡ Some w
            → result ≡ bytes_due (session_of w session) }
    {
        self.machine.bytes_due(session)
    }
}
