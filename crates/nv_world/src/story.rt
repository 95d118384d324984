//! A world as the value behind a turn, and as what takes the events of sessions.
ghost use Rattle.std.specs.Prelude.{◌≡◌};
ghost use Rattle.nv_turn.specs.Story.{same_end};
ghost use Rattle.nv_world.specs.Worlds.{start_of};

use crate::world::World;
use nv_core::{Cause, Core, Entry, Start, Taken, Unasked, Unclosed, Unopened, Untaken};
use nv_rpc::Frame;
use nv_turn::Story;

impl Story for World {
    type Entry = Entry;

    type Start = Start;

    ghost stands = { λ w story. w.history ≡ story };

    ghost caller = { λ e. e.caller };

    ghost start = { start_of };

    fn base(&self) -> u64 {
        self.history().base()
    }

    fn told(&self) -> u64 {
        self.history().told()
    }

    ghost use Rattle.std.proofs.Common.{sym, ◌∙◌};

    ghost one_end = { λ w story e f p q. same_end story e f (sym p ∙ q) };
}

impl Core for World {
    ghost is_spent = { λ w. w.spent };

    fn open<R>(&mut self, rt: &R, caller: u32) -> Result<u64, Unopened> {
        let _ = rt;
        World::open(self, caller)
    }

    fn request<R>(
        &mut self,
        rt: &R,
        caller: u32,
        session: u64,
        frame: Frame,
    ) -> Result<(), (Frame, Unasked)> {
        let _ = rt;
        World::request(self, caller, session, frame)
    }

    fn take<R>(&mut self, rt: &R, caller: u32, session: u64) -> Result<Taken, Untaken> {
        let _ = rt;
        World::take(self, caller, session)
    }

    fn close<R>(&mut self, rt: &R, caller: u32, session: u64) -> Result<(), Unclosed> {
        let _ = rt;
        World::close(self, caller, session)
    }

    fn spent(&self) -> bool {
        let _history = self.history();
        World::spent(self)
    }

    fn closed_by(&self, session: u64) -> Option<Cause> {
        World::closed_by(self, session)
    }

    fn has_due(&self, session: u64) -> bool {
        World::has_due(self, session)
    }

    fn bytes_due(&self, session: u64) -> u64 {
        World::bytes_due(self, session)
    }

    ghost use Rattle.std.specs.Prelude.{refl};

    ghost callers = { refl };
}
