//! The watcher that folds redraw events.
ghost use Rattle.std.specs.Prelude.{◌≡◌, ◌<◌, ◌↔◌, ℕ, [], length, map, IsTrue, IfOk, OnOk};
ghost use Rattle.nv_value.specs.View.{content};
ghost use Rattle.nv_watch.specs.Grids.{ShowsWorld, ShowsWrong};
ghost use Rattle.nv_watch.specs.Verdicts.{sight};
ghost use Rattle.nv_watch.specs.inside.GridsFolded.{HasFolded, IsRightSent, StepFolds, TookAt, client_kept};

use crate::grid_client::{Followed, Taken, take_values};
use crate::reading::parts_of;
use crate::verdict::Verdict;
use crate::watcher::Watcher;
use nv_history::{bytes_law, settling_law};
use nv_redraw::batches_differ;
use nv_scene::scene_of;
use nv_value::Value;
use nv_world::{Step, World};
use std::alloc::{AllocError, Global};

/// Says no where a redraw event doesn't fit what the client of its session shows, where that client
/// after a flush doesn't show the world as it is drawn, or where what a session was sent isn't
/// whole messages and redraw notifications. `AllocError` also where a flush is to be compared with
/// a world that is spent.
#[derive(Drop)]
pub struct GridFold {
    alloc: Global,
    // The client of each session, by its number.
    clients: Vec<Followed>,
    verdict: Verdict,
}

// Makes room for the client of a session.
fn extend(clients: &mut Vec<Followed>, alloc: Global, session: u64) -> Result<(), AllocError>
    ensures same { OnOk result ((s : ℕ) → client_kept clients.new.items s
        ≡ client_kept clients.old.items s) }
    ensures there { OnOk result (session < length clients.new.items) }
{
    while clients.len() as u64 <= session {
        clients.push(Followed::new(alloc))?;
    }
    Ok(())
}

// The client of a session takes what fits of what values tell.
fn take_at(
    clients: &mut Vec<Followed>,
    alloc: Global,
    session: u64,
    values: &[Value],
) -> Result<Taken, AllocError>
    ensures took { IfOk result (TookAt (map content values.now) session clients.old.items
        clients.new.items) }
    ensures there { OnOk result (session < length clients.new.items) }
{
    extend(clients, alloc, session)?;
    let taken = take_values(&mut clients[session as usize], alloc, values)?;
    Ok(taken)
}

// Whether a client shows a world.
fn is_shown(client: &Followed, alloc: Global, world: &World) -> Result<bool, AllocError>
    ensures { IfOk result (λ shown. IsTrue shown ↔ ShowsWorld world.now client.now) }
{
    if world.spent() {
        return Err(AllocError);
    }
    settling_law();
    bytes_law();
    let _history = world.history();
    let scene = scene_of(world.editor())?;
    let shown = client.shows(alloc, &scene)?;
    Ok(shown)
}

// Whether all that was sent is whole and fits, and after a flush the client shows the world.
fn is_right(
    client: &Followed,
    alloc: Global,
    world: &World,
    is_whole: bool,
    taken: Taken,
) -> Result<bool, AllocError>
    ensures { IfOk result (λ right. IsTrue right
        ↔ IsRightSent world.now client.now is_whole taken) }
{
    if !is_whole {
        return Ok(false);
    }
    if !taken.fits {
        return Ok(false);
    }
    if !taken.flushed {
        return Ok(true);
    }
    let shown = is_shown(client, alloc, world)?;
    Ok(shown)
}

// The client of a step's session takes what it was sent, and it is told whether the step shows what
// it should.
fn fold_step(
    alloc: Global,
    clients: &mut Vec<Followed>,
    world: &World,
    step: &Step,
) -> Result<bool, AllocError>
    ensures { IfOk result (StepFolds clients.old.items clients.new.items
        (sight world.now step.now)) }
{
    batches_differ();
    let parts = parts_of(alloc, step.sent.as_slice())?;
    if parts.others.is_empty() {
        return Ok(parts.is_whole);
    }
    let taken = take_at(clients, alloc, step.session, parts.others.as_slice())?;
    let client = &clients[step.session as usize];
    let right = is_right(client, alloc, world, parts.is_whole, taken)?;
    Ok(right)
}

impl GridFold {
    /// A watcher that has seen nothing.
    pub fn new(alloc: Global) -> GridFold
        ensures { HasFolded result [] }
    {
        GridFold {
            alloc,
            clients: Vec::new(alloc),
            verdict: Verdict::Yes,
        }
    }
}

impl Watcher for GridFold {
    ghost HasSeen = { HasFolded };

    ghost Breaks = { λ f. ShowsWrong };

    ghost IsBehind = { HasFolded };

    fn see(&mut self, world: &World, step: &Step) -> Result<(), AllocError> {
        let right = fold_step(self.alloc, &mut self.clients, world, step)?;
        self.verdict = self.verdict.with(step.at, !right);
        Ok(())
    }

    fn glance(&mut self, world: &World, step: &Step) -> Result<(), AllocError> {
        self.see(world, step)?;
        Ok(())
    }

    fn catch_up(&mut self, _world: &World) -> Result<(), AllocError> {
        Ok(())
    }

    fn verdict(&self) -> Verdict {
        self.verdict
    }
}
