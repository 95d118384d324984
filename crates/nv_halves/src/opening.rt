//! The opening of a session, under the turn.
ghost use Rattle.std.specs.Prelude.{◌≡◌};
ghost use Rattle.nv_core.specs.Gains.{GainsIn};
ghost use Rattle.nv_halves.specs.Applying.{OpensWith, AppliesOnce};
ghost use Rattle.nv_halves.specs.Passes.{plain_pass};

use crate::bells::{Bell, Lanes, lanes_if_closed, ring};
use nv_core::{Core, Unopened};
use nv_turn::{Pass, Turn};
use std::sync::Wait;

// Opens a session in the world in hand, and tells whom that wakes.
fn open_in<R, C: Core>(
    rt: &R,
    world: &mut C,
    caller: u32,
    bells: &[Bell],
) -> (Result<u64, Unopened>, Lanes)
    ensures { GainsIn C.Story.stands C.Story.start world.old world.new caller
        (OpensWith result.0) }
{
    let opened = world.open(rt, caller);
    let session = opened.unwrap_or(0);
    let lanes = lanes_if_closed(world, bells, session);
    (opened, lanes)
}

/// Opens a session in the world behind the turn, with the number of the pass, and answers the
/// session's number.
pub fn open<R: Wait, C: Core>(
    rt: &R,
    turn: &Turn<C>,
    bells: &[Bell],
    pass: Pass<C>,
) -> (Pass<C>, Result<u64, Unopened>)
    requires { pass.turn ≡ turn.now.turn }
    ensures { AppliesOnce (plain_pass pass) (plain_pass result.0) (OpensWith result.1) }
{
    let mut held = turn.enter(rt, pass);
    let number = held.number();
    let (opened, lanes) = open_in(rt, held.value(), number, bells);
    let pass = held.leave(rt);
    ring(bells, lanes);
    (pass, opened)
}
