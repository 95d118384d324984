// How a turn and its passes are made.
ghost use Rattle.std.specs.Prelude.{◌≡◌, ℕ, ◌+◌, ◌-◌, ◌<◌, ◌≤◌, true, false, [], ◌∷◌, IfOk, IfErr, Option, Some, vec_len, vec_capacity};
ghost use Rattle.nv_turn.specs.Passes.{TurnId, first_passes, first_pass};
ghost use Rattle.nv_turn.specs.inside.Seats.{IsAtRest, pass_of};

use crate::pass::Pass;
use crate::plays::{Another, Draw};
use crate::rule::Key;
use crate::story::Story;
use crate::turn::Turn;
use crate::view::View;
use atomic_table::{Refused, Seat, Table};
use std::alloc::{AllocError, Global};
use std::snapshot::Snapshot;
use std::sync::atomic::AtomicU64;

impl<T: Story> Turn<T> {
    /// Puts a value whose story is empty behind a lock, and makes passes with the numbers from 1
    /// on. Where there is no memory the value comes back.
    pub fn make(
        alloc: Global,
        value: T,
        passes: u32,
    ) -> Result<(Turn<T>, Vec<Pass<T>>), (T, AllocError)>
        requires empty { T.stands value [] }
        requires passes { (0 < passes) × (passes ≤ 512) }
        ensures turn { IfOk result (λ r. r.0.passes ≡ passes) }
        ensures passes { IfOk result (λ r. r.1.items
            ≡ first_passes r.0.turn (Some (T.start value)) passes) }
        ensures count { IfOk result (λ r. vec_len r.1 ≡ passes) }
        ensures err { IfErr result (λ e. e.0 ≡ value) }
    {
        let Ok(room) = Vec::with_capacity(alloc, passes as usize) else {
            return Err((value, AllocError));
        };
        let key = Key {
            value: Snapshot::of(&value),
            passes: u64::from(passes),
        };
        let slots = one_slot(alloc, value)?;
        match Table::new(alloc, &[0, 0, 1], slots, &key) {
            Ok((table, seat)) => {
                let turn = Turn {
                    table,
                    for_turn: AtomicU64::new(0),
                    for_entry: AtomicU64::new(0),
                    busy: AtomicU64::new(0),
                };
                let dealt = turn.deal(seat, passes, room);
                Ok((turn, dealt))
            }
            Err(Refused { slots }) => Err((out_of_slot(slots), AllocError)),
        }
    }

    // Draws the numbers, each by a seat that was split from the one before.
    fn deal(
        &self,
        seat: Seat<Option<T>, View<T::Entry, T::Start>>,
        passes: u32,
        mut room: Vec<Pass<T>>,
    ) -> Vec<Pass<T>>
        requires turn { seat.table_id ≡ self.now.turn }
        requires passes { (0 < passes) × (passes ≤ 512) × (passes ≡ self.now.passes) }
        requires room { (room.items ≡ []) × (vec_len room ≡ 0) × (vec_capacity room ≡ passes) }
        requires seat { (seat.me.1 ≡ []) × (seat.me.0.holds ≡ false) × (seat.me.0.due ≡ 1)
            × (seat.me.0.notes ≡ []) }
        ensures passes { result.items ≡ first_passes self.now.turn seat.me.0.start passes }
        ensures count { vec_len result ≡ passes }
    {
        let shared = &self.table.shared;
        let mut seat = seat;
        for number in 1..passes {
            shared.fetch_add::<Draw>(&mut seat, 2, 1);
            let next = shared.split_seat::<Another>(&mut seat);
            room.push_reserved(Pass {
                seat,
                number,
                count: 0,
            });
            seat = next;
        }
        shared.fetch_add::<Draw>(&mut seat, 2, 1);
        room.push_reserved(Pass {
            seat,
            number: passes,
            count: 0,
        });
        room
    }
}

fn one_slot<T>(alloc: Global, value: T) -> Result<Vec<Option<T>>, (T, AllocError)>
    ensures ok { IfOk result (λ v. v.items ≡ Some value ∷ []) }
    ensures err { IfErr result (λ e. e.0 ≡ value) }
{
    let Ok(mut slots) = Vec::with_capacity(alloc, 1) else {
        return Err((value, AllocError));
    };
    slots.push_reserved(Some(value));
    Ok(slots)
}

fn out_of_slot<T>(mut slots: Vec<Option<T>>) -> T
    requires { (y : T) × (slots.items ≡ Some y ∷ []) }
    ensures { slots.items ≡ Some result ∷ [] }
{
    let Some(Some(value)) = slots.pop() else {
        unreachable!()
    };
    slots.destroy_empty();
    value
}

/// Takes the last of the passes that `make` gave, which has the highest number.
pub fn take_pass<T: Story>(passes: &mut Vec<Pass<T>>) -> Pass<T>
    requires { 0 < vec_len passes.old }
    ensures pass { (turn : TurnId) (start : Option T.Start) (n : ℕ)
        → passes.old.items ≡ first_passes turn start n → result ≡ first_pass turn start n }
    ensures others { (turn : TurnId) (start : Option T.Start) (n : ℕ)
        → passes.old.items ≡ first_passes turn start n
        → passes.new.items ≡ first_passes turn start (n - 1) }
    ensures count { vec_len passes.new + 1 ≡ vec_len passes.old }
{
    let Some(pass) = passes.pop() else {
        unreachable!()
    };
    pass
}
