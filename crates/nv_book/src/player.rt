//! A history gone over entry by entry: the world after each, and what its takes give in bytes.
ghost use Rattle.std.specs.Prelude.{◌≡◌, ◌≤◌, [], false, None, Some, Err, IfOk, OnOk};
ghost use Rattle.nv_painter.specs.Spoken.{IsSoundIfThere};
ghost use Rattle.nv_history.specs.Worlds.{World as ModelWorld, step, world_made};
ghost use Rattle.nv_core.specs.Contents.{plain_event, scene_given};
ghost use Rattle.nv_core.specs.Bounds.{GivesSendable, IsLightEvent};
ghost use Rattle.nv_world.specs.Worlds.{IsOutboxSize, model_of, with_entry};
ghost use Rattle.nv_book.specs.Outputs.{IsSessionOf, session_named};
ghost use Rattle.nv_book.specs.inside.Playing.{GaveOut, MakesNoEntry, PlaysOne};

use crate::speaking::speak_for;
use nv_core::{Effect, Event, Stop};
use nv_model::Limits;
use nv_painter::Painter;
use nv_world::World;
use std::alloc::{AllocError, Global};

/// Why an entry isn't played.
#[derive(Clone, Copy, Debug, PartialEq, Eq)]
pub enum Halt {
    NoMemory,
    /// It doesn't enter the history.
    Refused,
}

/// A world, what the clients of its sessions were told, and the output of the last entry.
#[derive(Drop)]
pub struct Player {
    pub alloc: Global,
    pub world: World,
    // By the number of the session.
    pub painters: Vec<Painter>,
    pub output: Vec<u8>,
}

impl From<AllocError> for Halt {
    ghost use Rattle.nv_book.specs.declared.player.Halt.{Halt};

    ghost from_gives = { λ _ halt. halt ≡ Halt.NoMemory };

    fn from(_error: AllocError) -> Self {
        Halt::NoMemory
    }
}

/// The session that an event names; an opening names none.
pub fn session_named(event: &Event) -> u64
    ensures { result ≡ session_named (plain_event event.now) }
{
    match event {
        Event::Open => 0,
        Event::Request { session, .. } => *session,
        Event::Take { session } => *session,
        Event::Close { session } => *session,
    }
}

impl Player {
    /// A fresh world, nobody of whose clients was told anything.
    pub fn new(alloc: Global, limits: Limits, outbox: u32) -> Result<Player, AllocError>
        requires outbox { IsOutboxSize outbox }
        requires entries { 1 ≤ limits.entries }
        ensures world { IfOk result (λ player. player.world ≡ record {
          capacity = outbox;
          limits = limits;
          history = [];
          spent = false;
        }) }
        ensures nobody { IfOk result (λ player. player.painters.items ≡ []) }
    {
        Ok(Player {
            alloc,
            world: World::new(alloc, limits, outbox)?,
            painters: Vec::new(alloc),
            output: Vec::new(alloc),
        })
    }

    // What an effect gives goes out to a session. Answers the session: the one that was opened, or
    // the one that is named.
    fn give(&mut self, session: u64, effect: Effect) -> Result<u64, Halt>
        requires sendable { GivesSendable effect }
        requires sound { IsSoundIfThere (scene_given effect) }
        requires empty { self.old.output.items ≡ [] }
        ensures gave { IfOk result (λ told. GaveOut effect session told self.old.painters.items
            self.new.painters.items self.new.output.items) }
        ensures idle { result ≡ Err Halt.Refused → MakesNoEntry effect }
        ensures world { self.new.world ≡ self.old.world }
    {
        match effect {
            Effect::Opened(opened) => Ok(opened),
            Effect::Done | Effect::Closed => Ok(session),
            Effect::Items(batch) => {
                speak_for(
                    self.alloc,
                    &mut self.painters,
                    session,
                    batch,
                    &mut self.output,
                )?;
                Ok(session)
            }
            Effect::Nothing | Effect::Over(_) => Err(Halt::Refused),
        }
    }

    /// Plays the next entry. Answers its session; that of an opening is the new one. Without memory
    /// the player is spent.
    pub fn play(&mut self, caller: u32, event: Event) -> Result<u64, Halt>
        requires light { IsLightEvent (plain_event event) }
        ensures world { OnOk result (self.new.world
            ≡ with_entry self.old.world (record { caller = caller; event = event })) }
        ensures begins { (self.new.world.capacity ≡ self.old.world.capacity)
            × (self.new.world.limits ≡ self.old.world.limits) }
        ensures plays { OnOk result (PlaysOne self.old.world self.old.painters.items
            (plain_event event) self.new.output.items self.new.world self.new.painters.items) }
        ensures known { OnOk result (self.old.world.spent ≡ false) }
        ensures session { IfOk result (λ s. (w : ModelWorld) → model_of self.old.world ≡ Some w
            → IsSessionOf (plain_event event) (step w (plain_event event)) s) }
        ensures refused { result ≡ Err Halt.Refused → (w : ModelWorld)
            → model_of self.old.world ≡ Some w → world_made (step w (plain_event event)) ≡ None }
    {
        self.output.clear();
        let session = session_named(&event);
        match self.world.apply(caller, event) {
            Ok(effect) => self.give(session, effect),
            Err((_, Stop::NoMemory)) => Err(Halt::NoMemory),
            Err(_) => Err(Halt::Refused),
        }
    }
}
