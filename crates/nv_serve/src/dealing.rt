// How the passes of a turn are dealt to lanes, and joined again.
ghost use Rattle.std.specs.Prelude.{◌≡◌, ◌*◌, ◌<◌, length, slice_index_or, vec_len, Some};
ghost use Rattle.nv_serve.specs.inside.Jobs.{AreJoined, StartsAsLane, DealsAll, HasPasses, HavePasses, IsJoined};
ghost use Rattle.nv_serve.specs.declared.job.Job.{Job};

use crate::job::Job;
use nv_core::Core;
use nv_turn::{Pass, Turn, take_pass};

// Gives a lane its two passes.
fn give<C: Core, L>(job: &mut Job<C, L>, first: Pass<C>, second: Pass<C>)
    ensures { job.new ≡ record job.old { passes = Some (first, second) } }
{
    job.passes = Some((first, second));
}

/// Gives each lane its two passes, the lane i those with the numbers 2i + 1 and 2i + 2.
pub(crate) fn deal<C: Core, L>(turn: &Turn<C>, passes: Vec<Pass<C>>, jobs: &mut [Job<C, L>])
    requires { vec_len passes ≡ 2 * length jobs.old }
    ensures length { length jobs.new ≡ length jobs.old }
    ensures deals { DealsAll turn.now.turn passes.items jobs.old jobs.new }
{
    let mut passes = passes;
    let mut rest = jobs.len();
    'lanes: while rest > 0 {
        rest -= 1;
        let second = take_pass(&mut passes);
        let first = take_pass(&mut passes);
        give(&mut jobs[rest], first, second);
    }
}

// Takes the two passes of a lane, and makes one of them.
fn join_lane<C: Core, L>(turn: &Turn<C>, job: &mut Job<C, L>) -> Pass<C>
    requires { HasPasses turn.now.turn job.old }
    ensures turn { result.turn ≡ turn.now.turn }
    ensures start { StartsAsLane job.old result }
    ensures joined { IsJoined C.Story.caller job.old job.new result }
{
    let Some((first, second)) = job.passes.take() else {
        unreachable!()
    };
    turn.join(first, second)
}

/// Takes the passes of all lanes, and makes one of them.
pub(crate) fn join_all<C: Core, L>(turn: &Turn<C>, jobs: &mut [Job<C, L>]) -> Pass<C>
    requires some { 0 < length jobs.old }
    requires passes { HavePasses turn.now.turn jobs.old }
    ensures turn { result.turn ≡ turn.now.turn }
    ensures length { length jobs.new ≡ length jobs.old }
    ensures start { (d : Job C L) → StartsAsLane (slice_index_or jobs.old 0 d) result }
    ensures joined { AreJoined C.Story.caller jobs.old jobs.new result }
{
    let mut all = join_lane(turn, &mut jobs[0]);
    let mut at = 1;
    'lanes: while at < jobs.len() {
        let next = join_lane(turn, &mut jobs[at]);
        all = turn.join(all, next);
        at += 1;
    }
    all
}
