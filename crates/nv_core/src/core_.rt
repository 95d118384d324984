//! What takes the events of sessions, whatever it keeps of their history.
ghost use Rattle.std.specs.Prelude.{◌≡◌, false, Bool, List, IsSome, Some, option_map};
ghost use Rattle.nv_rpc.specs.Frames.{call_of_frame};
ghost use Rattle.nv_history.specs.Worlds.{session_of};
ghost use Rattle.nv_core.specs.Bounds.{IsLightCall};
ghost use Rattle.nv_core.specs.Contents.{plain_cause, plain_entries};
ghost use Rattle.nv_core.specs.Gains.{GainsIn, InEachStory, Spends, caller_of};
ghost use Rattle.nv_core.specs.Outcomes.{requested_as, closed_as, opened_as, taken_as};
ghost use Rattle.nv_core.specs.Sessions.{cause_of, is_any_due};
ghost use Rattle.nv_core.specs.Sizes.{bytes_due};
ghost use Rattle.nv_core.specs.Starts.{world_of_run};
ghost use Rattle.nv_core.specs.Visits.{CallsAs, ClosesAs, OpensAs, TakesAs};

use crate::calls::{Taken, Unasked, Unclosed, Unopened, Untaken};
use crate::effect::Cause;
use crate::entry::Entry;
use crate::start::Start;
use nv_rpc::Frame;
use nv_turn::Story;

/// A value that takes events, one after another, each from a caller with a number. Its story is the
/// history of all that entered; each event comes to what the model makes of it in the world after
/// that history. Where memory is wanting it is spent: every later event is refused for that.
pub trait Core: Story<Entry = Entry, Start = Start> {
    // Memory was wanting.
    ghost is_spent: { Self → Bool };

    /// A session begins, with this number: sessions are numbered from 1, in the order of these
    /// calls.
    fn open<R>(&mut self, rt: &R, caller: u32) -> Result<u64, Unopened>
        ensures gains { GainsIn Self.stands Self.start self.old self.new caller (OpensAs result) }
        ensures spends { Spends (is_spent self.old) (is_spent self.new) (opened_as result) };

    /// A session makes a call. Where it can't, the call comes back.
    fn request<R>(
        &mut self,
        rt: &R,
        caller: u32,
        session: u64,
        frame: Frame,
    ) -> Result<(), (Frame, Unasked)>
        requires light { IsLightCall (call_of_frame frame) }
        ensures gains { GainsIn Self.stands Self.start self.old self.new caller
            (CallsAs result session frame) }
        ensures spends { Spends (is_spent self.old) (is_spent self.new)
            (requested_as session result) };

    /// All that waits for a session is handed over, with what is seen, where its UI is to show it.
    fn take<R>(&mut self, rt: &R, caller: u32, session: u64) -> Result<Taken, Untaken>
        ensures gains { GainsIn Self.stands Self.start self.old self.new caller
            (TakesAs result session) }
        ensures spends { Spends (is_spent self.old) (is_spent self.new)
            (taken_as session result) };

    /// A session ends.
    fn close<R>(&mut self, rt: &R, caller: u32, session: u64) -> Result<(), Unclosed>
        ensures gains { GainsIn Self.stands Self.start self.old self.new caller
            (ClosesAs result session) }
        ensures spends { Spends (is_spent self.old) (is_spent self.new)
            (closed_as session result) };

    /// Whether an event was refused for want of memory. Spent or not, there is a world after the
    /// story.
    fn spent(&self) -> bool
        ensures spent { result ≡ is_spent self.now }
        ensures runs { (story : List Entry) → Self.stands self.now story
            → IsSome (world_of_run (Some (Self.start self.now)) (plain_entries story)) };

    /// What closed a session; `None` exactly where it isn't closed, or isn't there. Of a spent core
    /// nothing is promised.
    fn closed_by(&self, session: u64) -> Option<Cause>
        ensures { is_spent self.now ≡ false → InEachStory Self.stands Self.start self.now
            (λ w. option_map plain_cause result ≡ cause_of (session_of w session)) };

    /// Whether anything is due to a session: messages, or to its UI what is seen. Of a spent core
    /// nothing is promised.
    fn has_due(&self, session: u64) -> bool
        ensures { is_spent self.now ≡ false → InEachStory Self.stands Self.start self.now
            (λ w. result ≡ is_any_due w session (session_of w session)) };

    /// How many bytes what waits for a session takes, 0 where nothing does: 32 for each message,
    /// value and line, and those of their strings. Nothing counts where the session is closed or
    /// isn't there. Of a spent core nothing is promised.
    fn bytes_due(&self, session: u64) -> u64
        ensures { is_spent self.now ≡ false → InEachStory Self.stands Self.start self.now
            (λ w. result ≡ bytes_due (session_of w session)) };

    // The callers of a story are those of its entries.
    ghost callers: { Self.caller ≡ caller_of };
}
