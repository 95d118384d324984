//! The state of a world, and what each event makes of it, without the history.
ghost use Rattle.std.specs.Prelude.{◌≡◌, ◌≢◌, false, is_none, IfErr, IfOk, option_map};
ghost use Rattle.nv_rpc.specs.Frames.{call_of_frame};
ghost use Rattle.nv_history.specs.Events.{close_of, open_session, request_of, take_of};
ghost use Rattle.nv_history.specs.Worlds.{World, session_of};
ghost use Rattle.nv_core.specs.Bounds.{GivesFewCells, GivesSendable, IsLightCall};
ghost use Rattle.nv_core.specs.Contents.{plain_cause, plain_stop};
ghost use Rattle.nv_core.specs.Outcomes.{IsUnaskedBy, IsUnclosedBy, closed_as, effect_of_taken, opened_as, taken_as};
ghost use Rattle.nv_core.specs.Sessions.{cause_of, is_any_due};
ghost use Rattle.nv_core.specs.Sizes.{bytes_due};
ghost use Rattle.nv_world.specs.Machines.{IsMachineAt, IsNewMachine, IsUnspent, StandsAs, StepsMachine, splices_kept};
ghost use Rattle.nv_world.specs.Worlds.{ClosesNoUi};
ghost use Rattle.nv_world.specs.inside.States.{called_as};

use crate::session::bytes_due;
use crate::showing::{is_any_due, is_scene_due};
use crate::state::{Numbers, State, close_session, open_session, request, take};
use crate::step::Moved;
use crate::telling::place_of;
use nv_core::{Cause, Stop, Taken, Unasked, Unclosed, Unopened, Untaken};
use nv_editor::Editor;
use nv_model::Limits;
use nv_rpc::Frame;
use std::alloc::{AllocError, Global};

/// One editor and the sessions that call it, between entries of a history that somebody else keeps,
/// and who tells the numbers beside it. Without memory it is spent, and takes no event any more.
#[derive(Drop)]
pub struct Machine {
    pub(crate) alloc: Global,
    pub(crate) state: State,
    // The splices of the last entry.
    pub(crate) last: Vec<Moved>,
    // Whether memory was wanting.
    pub(crate) spent: bool,
}

// Whether an event is refused for want of memory.
fn is_want(stop: Stop) -> bool
    ensures { result ≡ is_none (plain_stop stop) }
{
    matches!(stop, Stop::NoMemory)
}

impl Machine {
    /// A fresh editor, without sessions.
    pub fn new(alloc: Global, limits: Limits) -> Result<Machine, AllocError>
        ensures { IfOk result (λ machine. IsNewMachine machine limits) }
    {
        let state = State::new(alloc, limits)?;
        Ok(Machine {
            alloc,
            state,
            last: Vec::new(alloc),
            spent: false,
        })
    }

    /// A session begins, with this number.
    pub fn open(&mut self, numbers: Numbers) -> Result<u64, Unopened>
        requires live { IsUnspent self.old }
        ensures { StepsMachine self.old self.new numbers (opened_as result) open_session }
    {
        match open_session(self.alloc, &mut self.state, numbers) {
            Ok(session) => {
                self.last = Vec::new(self.alloc);
                Ok(session)
            }
            Err(why) => {
                self.spent = is_want(why.stop());
                Err(why)
            }
        }
    }

    /// A session makes a call.
    pub fn request(&mut self, numbers: Numbers, session: u64, frame: &Frame) -> Result<(), Unasked>
        requires live { IsUnspent self.old }
        requires world { (w : World) × IsMachineAt self.old numbers w }
        requires light { IsLightCall (call_of_frame frame.now) }
        ensures steps { StepsMachine self.old self.new numbers (called_as session result)
            (request_of session (call_of_frame frame.now)) }
        ensures gone { IfErr result (λ why. (w : World) → IsMachineAt self.old numbers w
            → IsUnaskedBy (session_of w session) why) }
    {
        let mut splices = Vec::new(self.alloc);
        match request(
            self.alloc,
            &mut self.state,
            numbers,
            session,
            frame,
            &mut splices,
        ) {
            Ok(()) => {
                self.last = splices;
                Ok(())
            }
            Err(why) => {
                self.spent = is_want(why.stop(session));
                Err(why)
            }
        }
    }

    /// All that waits for a session is handed over, with what is seen, where its UI is to show it.
    pub fn take(&mut self, numbers: Numbers, session: u64) -> Result<Taken, Untaken>
        requires live { IsUnspent self.old }
        requires world { (w : World) × IsMachineAt self.old numbers w }
        ensures steps { StepsMachine self.old self.new numbers (taken_as session result)
            (take_of session) }
        ensures sendable { IfOk result (λ taken. (w : World) → IsMachineAt self.old numbers w
            → GivesSendable (effect_of_taken taken)) }
        ensures cells { IfOk result (λ taken. GivesFewCells (effect_of_taken taken)) }
    {
        match take(self.alloc, &mut self.state, numbers, session) {
            Ok(Taken::Items(batch)) => {
                self.last = Vec::new(self.alloc);
                Ok(Taken::Items(batch))
            }
            Ok(Taken::Nothing) => Ok(Taken::Nothing),
            Ok(Taken::Over(cause)) => Ok(Taken::Over(cause)),
            Err(why) => {
                self.spent = is_want(why.stop(session));
                Err(why)
            }
        }
    }

    /// A session ends. No memory is taken where no UI goes by it.
    pub fn close(&mut self, numbers: Numbers, session: u64) -> Result<(), Unclosed>
        requires live { IsUnspent self.old }
        requires world { (w : World) × IsMachineAt self.old numbers w }
        ensures steps { StepsMachine self.old self.new numbers (closed_as session result)
            (close_of session) }
        ensures gone { IfErr result (λ why. (w : World) → IsMachineAt self.old numbers w
            → IsUnclosedBy (session_of w session) why) }
        ensures memory { IfErr result (λ why. (w : World) → IsMachineAt self.old numbers w
            → ClosesNoUi w (close_of session) → why ≢ Unclosed.NoMemory) }
    {
        match close_session(self.alloc, &mut self.state, numbers, session) {
            Ok(()) => {
                self.last = Vec::new(self.alloc);
                Ok(())
            }
            Err(why) => {
                self.spent = is_want(why.stop(session));
                Err(why)
            }
        }
    }

    /// The splices that the last entry made in buffers, in their order.
    pub fn last_splices(&self) -> Result<Vec<Moved>, AllocError>
        ensures { IfOk result (λ splices. splices.items ≡ splices_kept self.now) }
    {
        let mut splices = Vec::with_capacity(self.alloc, self.last.len())?;
        splices.extend_from_slice(self.last.as_slice())?;
        Ok(splices)
    }

    /// What closed a session; `None` exactly where it isn't closed, or isn't there.
    pub fn closed_by(&self, session: u64) -> Option<Cause>
        ensures { (w : World) → StandsAs self.now w
            → option_map plain_cause result ≡ cause_of (session_of w session) }
    {
        match place_of(session, self.state.sessions.len()) {
            Some(place) => self.state.sessions[place].closed,
            None => None,
        }
    }

    /// Whether anything is due to a session: messages, or to its UI what is seen.
    pub fn has_due(&self, session: u64) -> bool
        ensures { (w : World) → StandsAs self.now w
            → result ≡ is_any_due w session (session_of w session) }
    {
        match place_of(session, self.state.sessions.len()) {
            Some(place) => {
                let found = &self.state.sessions[place];
                let uis = self.state.editor.uis();
                let is_due = is_scene_due(uis, self.state.stamp, session, found.shown);
                is_any_due(found, is_due)
            }
            None => false,
        }
    }

    /// How many bytes what waits for a session takes, 0 where nothing does, and where the session
    /// is closed or isn't there.
    pub fn bytes_due(&self, session: u64) -> u64
        ensures { (w : World) → StandsAs self.now w
            → result ≡ bytes_due (session_of w session) }
    {
        match place_of(session, self.state.sessions.len()) {
            Some(place) => {
                let found = &self.state.sessions[place];
                bytes_due(found)
            }
            None => 0,
        }
    }
}
