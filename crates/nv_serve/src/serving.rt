// All lanes at once.
ghost use Rattle.std.specs.Prelude.{◌≡◌, ◌<◌, ◌≤◌, ◌*◌, List, [], length, vec_len, IfErr, IfOk, IsSome, OnErr, Some, true, false};
ghost use Rattle.std.specs.Thread.{IsSync};
ghost use denote.Param.Send.{IsSend};
ghost use Rattle.nv_turn.specs.Passes.{first_passes};
ghost use Rattle.nv_core.specs.Contents.{plain_entries};
ghost use Rattle.nv_core.specs.Gains.{caller_of};
ghost use Rattle.nv_serve.specs.Jobs.{lanes_of};
ghost use Rattle.nv_serve.specs.Leaving.{LeavesCore};
ghost use Rattle.nv_serve.specs.inside.Jobs.{AreReady, HasNoneEnded, HasOneEnded, IsReadyJob, ServesJob, ServesJobs, is_failed, saw_spent};
ghost use Rattle.nv_core.specs.declared.entry.Entry.{Entry};
ghost use Rattle.nv_core.specs.declared.start.Start.{Start};
ghost use Rattle.nv_core.specs.Starts.{world_of_run};

use crate::dealing::{deal, join_all};
use crate::job::{Job, LaneEnd};
use crate::lane::serve_lane;
use nv_core::Core;
use nv_halves::{Bell, asking_law, quitting_law};
use nv_history::count_laws;
use nv_io::Lane;
use nv_turn::{Pass, Turn};
use std::alloc::{AllocError, Global};
use std::net::{Net, TcpListener, TcpStream};
use std::sync::Wait;
use std::thread::{self, Threads};

/// What is left of a server that ended: the core, which stands for the one history of all its
/// sessions, whether memory was wanting to it, and whether the accept of a lane failed.
#[derive(Drop)]
pub struct Left<C: Core> {
    pub core: C,
    pub spent: bool,
    pub failed: bool,
}

// As many bells as there are lanes.
fn make_bells(alloc: Global, count: usize) -> Result<Vec<Bell>, AllocError>
    ensures { IfOk result (λ bells. vec_len bells ≡ count) }
{
    let mut bells = Vec::with_capacity(alloc, count)?;
    for made in 0..count {
        bells.push_reserved(Bell::new());
    }
    Ok(bells)
}

// Serves a lane by the passes that it has.
fn serve_job<
    R: Net<Listener = TcpListener, Stream = TcpStream> + Threads + Wait + Sync,
    C: Core + Send,
    L: Lane,
>(rt: &R, alloc: Global, turn: &Turn<C>, bells: &[Bell], number: usize, job: &mut Job<C, L>)
    requires number { number < length bells.now }
    requires ready { IsReadyJob turn.now.turn number job.old }
    ensures { ServesJob (record {
      input = L.In.words;
      output = L.Out.words;
      lane = L.words;
    }) job.old job.new }
{
    let Some(passes) = job.passes.take() else {
        unreachable!()
    };
    let (passes, end) = serve_lane(rt, alloc, turn, bells, number, &mut job.lane, passes);
    job.passes = Some(passes);
    job.end = Some(end);
}

// Serves all lanes at once, each by a thread of its own.
fn run_lanes<
    R: Net<Listener = TcpListener, Stream = TcpStream> + Threads + Wait + Sync,
    C: Core + Send,
    L: Lane + Send,
>(rt: &R, alloc: Global, turn: &Turn<C>, bells: &[Bell], jobs: &mut [Job<C, L>])
    requires some { 0 < length jobs.old }
    requires bells { length bells.now ≡ length jobs.old }
    requires ready { AreReady turn.now.turn jobs.old }
    ensures length { length jobs.new ≡ length jobs.old }
    ensures serves { ServesJobs (record {
      input = L.In.words;
      output = L.Out.words;
      lane = L.words;
    }) jobs.old jobs.new }
{
    let count = jobs.len();
    thread::for_each_mut(
        rt,
        jobs,
        count,
        &|number: usize, job: &mut Job<C, L>|
            requires { IsSync R.row × IsSend C.row × IsSend L.row × (number < length bells.now)
                × IsReadyJob turn.now.turn number job.now }
            ensures { ServesJob (record {
              input = L.In.words;
              output = L.Out.words;
              lane = L.words;
            }) job.entry.now job.exit.now }
        { serve_job(rt, alloc, turn, bells, number, job) },
    );
}

// Whether a lane failed.
fn is_failed(end: Option<LaneEnd>) -> bool
    ensures { result ≡ is_failed end }
{
    match end {
        Some(LaneEnd::Failed) => true,
        Some(LaneEnd::Done | LaneEnd::Quit | LaneEnd::Spent) => false,
        None => false,
    }
}

// Whether a lane of these failed.
fn has_failed<C: Core, L>(jobs: &[Job<C, L>]) -> bool
    ensures some { result ≡ true → HasOneEnded is_failed jobs.now }
    ensures none { result ≡ false → HasNoneEnded is_failed jobs.now }
{
    for job in jobs {
        if is_failed(job.end) {
            return true;
        }
    }
    false
}

// Whether a lane saw that memory was wanting to the world.
fn saw_spent(end: Option<LaneEnd>) -> bool
    ensures { result ≡ saw_spent end }
{
    match end {
        Some(LaneEnd::Spent) => true,
        Some(LaneEnd::Done | LaneEnd::Failed | LaneEnd::Quit) => false,
        None => false,
    }
}

// Whether a lane of these saw that.
fn has_seen_spent<C: Core, L>(jobs: &[Job<C, L>]) -> bool
    ensures { result ≡ false → HasNoneEnded saw_spent jobs.now }
{
    for job in jobs {
        if saw_spent(job.end) {
            return true;
        }
    }
    false
}

// Whether memory was wanting to a core: it says so, or a lane saw it so.
fn was_spent<C: Core>(core: &C, seen: bool) -> bool
    ensures none { result ≡ false → seen ≡ false }
    ensures runs { (story : List Entry) → C.Story.stands core.now story
        → IsSome (world_of_run (Some (C.Story.start core.now)) (plain_entries story)) }
{
    let spent = core.spent();
    if seen {
        return true;
    }
    spent
}

// The callers of the story of a core are those that its entries name.
fn callers_law<C: Core>()
    ensures { C.Story.caller ≡ caller_of }
{}

// Serves all lanes on the core behind a turn, and closes it.
fn serve_core<
    R: Net<Listener = TcpListener, Stream = TcpStream> + Threads + Wait + Sync,
    C: Core + Send,
    L: Lane + Send,
>(
    rt: &R,
    alloc: Global,
    turn: Turn<C>,
    passes: Vec<Pass<C>>,
    bells: &[Bell],
    jobs: &mut [Job<C, L>],
) -> Left<C>
    requires some { 0 < length jobs.old }
    requires bells { length bells.now ≡ length jobs.old }
    requires count { (turn.passes ≡ 2 * length jobs.old) × (vec_len passes ≡ 2 * length jobs.old) }
    requires passes { (start : Start) × (passes.items
        ≡ first_passes turn.turn (Some start) (2 * length jobs.old)) }
    ensures { (start : Start) → passes.items
        ≡ first_passes turn.turn (Some start) (2 * length jobs.old)
        → LeavesCore (record {
          input = L.In.words;
          output = L.Out.words;
          lane = L.words;
        }) C.Story.stands C.Story.start start result.core result.spent result.failed
        (lanes_of jobs.old) (lanes_of jobs.new) }
{
    asking_law();
    quitting_law();
    count_laws();
    callers_law::<C>();
    deal(&turn, passes, jobs);
    run_lanes(rt, alloc, &turn, bells, jobs);
    let failed = has_failed(jobs);
    let seen = has_seen_spent(jobs);
    let last = join_all(&turn, jobs);
    let core = turn.close(last);
    let spent = was_spent(&core, seen);
    Left {
        core,
        spent,
        failed,
    }
}

/// Serves the connections of all lanes on a core without entries, each lane in a thread of its own,
/// until each has ended. Where there is no memory to begin with, nothing was served, and the core
/// comes back.
pub fn serve<
    R: Net<Listener = TcpListener, Stream = TcpStream> + Threads + Wait + Sync,
    C: Core + Send,
    L: Lane + Send,
>(rt: &R, alloc: Global, core: C, jobs: &mut [Job<C, L>]) -> Result<Left<C>, (C, AllocError)>
    requires lanes { (0 < length jobs.old) × (length jobs.old ≤ 256) }
    requires empty { C.Story.stands core [] }
    ensures served { IfOk result (λ left. LeavesCore (record {
      input = L.In.words;
      output = L.Out.words;
      lane = L.words;
    }) C.Story.stands C.Story.start (C.Story.start core) left.core left.spent left.failed
        (lanes_of jobs.old) (lanes_of jobs.new)) }
    ensures back { IfErr result (λ refused. refused.0 ≡ core) }
    ensures none { OnErr result (jobs.new ≡ jobs.old) }
{
    let count = jobs.len();
    let Ok(bells) = make_bells(alloc, count) else {
        return Err((core, AllocError));
    };
    match Turn::make(alloc, core, 2 * count as u32) {
        Ok((turn, passes)) => Ok(serve_core(rt, alloc, turn, passes, &bells, jobs)),
        Err((core, _)) => Err((core, AllocError)),
    }
}
