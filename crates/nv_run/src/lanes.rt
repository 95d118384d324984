//! The lanes of a port: those that are taken to be served, and those that go back.
ghost use Rattle.std.specs.Prelude.{◌≡◌, ◌+◌, ◌≤◌, [], All, option_map, vec_len, vec_capacity};
ghost use Rattle.std.specs.Bool.{OnFalse, OnTrue};
ghost use Rattle.nv_io.specs.Faults.{Rose};
ghost use Rattle.nv_io.specs.Known.{append_items};
ghost use Rattle.nv_io.specs.Lanes.{IsFreshLane};
ghost use Rattle.nv_serve.specs.Jobs.{lanes_of};
ghost use Rattle.nv_run.specs.inside.Lanes.{AreOut};

use nv_io::{Lane, Port};
use nv_serve::Job;
use nv_world::World;

/// Takes so many lanes, for which `jobs` has room. `false` is a fault, and says that `jobs` has
/// the lanes that were got before it.
pub fn take_lanes<R, P: Port>(
    rt: &R,
    port: &mut P,
    count: usize,
    jobs: &mut Vec<Job<World, P::Line>>,
) -> bool
    requires none { jobs.old.items ≡ [] }
    requires room { count ≤ vec_capacity jobs.old }
    ensures all { OnTrue result (vec_len jobs.new ≡ count) }
    ensures few { vec_len jobs.new ≤ count }
    ensures fresh { All (λ lane. IsFreshLane (P.Line.Lane.words lane).over
        (P.Line.Lane.words lane).lent
        (P.Line.Lane.words lane).faults) (lanes_of jobs.new.items) }
    ensures returned { (P.words port.new).returned ≡ (P.words port.old).returned }
    ensures lent { (P.words port.new).lent ≡ option_map (λ n. n + vec_len jobs.new)
        (P.words port.old).lent }
    ensures later { (P.words port.old).faults ≤ (P.words port.new).faults }
    ensures failed { OnFalse result (Rose (P.words port.old).faults (P.words port.new).faults) }
{
    for _ in 0..count {
        let Some(lane) = port.lane(rt) else {
            return false;
        };
        jobs.push_reserved(Job::new(lane));
    }
    true
}

/// Hands lanes back that are out, in order.
pub fn give_back<P: Port>(port: &mut P, jobs: Vec<Job<World, P::Line>>)
    requires out { AreOut (P.words port.old).lent (vec_len jobs) }
    ensures returned { (P.words port.new).returned
        ≡ append_items (P.words port.old).returned (lanes_of jobs.items) }
    ensures lent { (P.words port.old).lent ≡ option_map (λ n. n + vec_len jobs)
        (P.words port.new).lent }
    ensures later { (P.words port.old).faults ≤ (P.words port.new).faults }
{
    for job in jobs {
        port.back(job.lane);
    }
}
