// The lock: how a thread comes in and leaves, waits, and how passes are joined.
ghost use Rattle.std.specs.Prelude.{◌≡◌, ◌<◌, ◌⊎◌, ℕ, true, false, List, [], ◌∷◌, ◌++◌, length, Some, None};
ghost use Rattle.nv_turn.specs.Story.{Has, HasEachUpTo, AddsOneAtMost, entries_by, longer_of};
ghost use Rattle.nv_turn.specs.Passes.{IsSamePass, SeesMore};
ghost use Rattle.nv_turn.specs.inside.Rule.{first_seen, numbers_carried, longest_seen, EachKnows};
ghost use Rattle.nv_turn.specs.inside.Steps.{looking_view, joined_view};
ghost use Rattle.nv_turn.specs.inside.Seats.{pass_of, IsSeated};

use crate::held::Held;
use crate::pass::Pass;
use crate::plays::{Both, Give, Look, Merge, Publish, Take};
use crate::rule::{Key, Ruled};
use crate::story::Story;
use crate::view::View;
use atomic_table::{Seat, Table};
use std::alloc::Global;
use std::hint::spin_loop;
use std::marker::Model;
use std::sync::Wait;
use std::sync::atomic::{AtomicU64, Ordering};
use std::time::Duration;

// How often a thread that finds the turn held looks whether it was given back, with a pause of the
// processor at each look, before it sleeps: for about as long as an event takes.
const LOOKS: u32 = 60;

// How often it tries again before it sleeps, where others are quicker each time.
const TRIES: u32 = 4;

// For how many milliseconds `wait` sleeps at most. A value that can take no more entries wakes
// nobody.
const LONGEST_PAUSE: u64 = 20;

/// A value that one pass at a time may hold, and its story. Threads share it by reference.
///
/// A thread that finds the turn held looks for a while whether it comes free before it sleeps. A
/// thread that is about to sleep counts itself and then looks whether it has to; whoever gives
/// the turn back or adds an entry does so and then looks at the count. So no wake is lost, and
/// where nobody sleeps none is made.
pub struct Turn<T: Story> {
    pub(crate) table: Table<Option<T>, View<T::Entry, T::Start>, Key<T>, Ruled<T>, Global>,
    // Who sleeps until the turn is free, and who until there is one more entry.
    pub(crate) for_turn: AtomicU64,
    pub(crate) for_entry: AtomicU64,
    // 1 from just after the turn was taken until just before it is given back. It says when to try,
    // and nothing rests on it.
    pub(crate) busy: AtomicU64,
}

impl<T: Story> Model for Turn<T> {
    ghost use Rattle.std.specs.Prelude.{◌≡◌, ◌<◌};
    ghost use Rattle.nv_turn.specs.Passes.{TurnState};

    ghost Value = { TurnState };

    ghost view = { λ t. record {
      turn = t.table.shared.table_id;
      passes = t.table.shared.key.passes;
    } };

    ghost invariant = { λ t. (t.table.shared.table_id.words ≡ 3)
        × (t.table.shared.table_id.slots ≡ 1) × (0 < t.table.shared.key.passes) };
}

impl<T: Story> Turn<T> {
    /// Waits for the turn, and takes it with the value.
    pub fn enter<R: Wait>(&self, rt: &R, pass: Pass<T>) -> Held<'_, T>
        requires { pass.turn ≡ self.now.turn }
        ensures pass { IsSamePass pass result.pass }
        ensures sees { SeesMore T.caller pass result.pass }
        ensures story { T.stands result.value result.pass.seen }
        ensures start { pass.start ≡ Some (T.start result.value) }
        ensures number { Has pass.number pass.numbers }
    {
        let Pass {
            mut seat,
            number,
            count: _,
        } = pass;
        let shared = &self.table.shared;
        let mut tries = 0;
        for _ in rt.forever() {
            if shared.compare_exchange::<Take<T>>(&mut seat, 0, 0, 1) == 0 {
                return self.taken(seat, number);
            }
            if tries < TRIES && self.frees_soon() {
                tries += 1;
                continue;
            }
            tries = 0;
            self.for_turn.fetch_add(1, Ordering::SeqCst);
            shared.park(rt, 0, 1);
            self.for_turn.fetch_sub(1, Ordering::SeqCst);
        }
        unreachable!()
    }

    // Whether the turn was given back while this looked.
    fn frees_soon(&self) -> bool {
        for _ in 0..LOOKS {
            if self.busy.load(Ordering::SeqCst) == 0 {
                return true;
            }
            spin_loop();
        }
        false
    }

    // The turn was taken. Reads how long the story is, and takes the value out of the slot.
    fn taken(&self, mut seat: Seat<Option<T>, View<T::Entry, T::Start>>, number: u32) -> Held<'_, T>
        requires turn { seat.table_id ≡ self.now.turn }
        requires holder { (seat.me.0.holds ≡ true) × Has number (numbers_carried seat.me.0) }
        requires slot { (y : T) × (seat.me.1 ≡ (0, Some y) ∷ []) }
        ensures value { seat.me.1 ≡ (0, Some result.value) ∷ [] }
        ensures pass { result.pass ≡ pass_of seat.table_id number seat.me.0 }
    {
        self.busy.store(1, Ordering::SeqCst);
        let count = self.table.shared.load::<Look<T>>(&mut seat, 1);
        let slot = self.table.shared.exchange(&mut seat, 0, None);
        let Some(value) = slot else { unreachable!() };
        Held {
            turn: self,
            seat,
            value,
            number,
            count,
        }
    }

    // The value in the slot has one more entry: the story gets it, and then the turn is given back.
    pub(crate) fn add(
        &self,
        mut seat: Seat<Option<T>, View<T::Entry, T::Start>>,
        number: u32,
        told: u64,
    ) -> Pass<T>
        requires turn { seat.table_id ≡ self.now.turn }
        requires holder { (seat.me.0.holds ≡ true) × Has number (numbers_carried seat.me.0) }
        requires entry { (y : T) × (e : T.Entry) × (seat.me.1 ≡ (0, Some y) ∷ [])
            × (T.caller e ≡ number) × T.stands y (first_seen seat.me.0.notes ++ e ∷ [])
            × (seat.me.0.start ≡ Some (T.start y))
            × (told ≡ length (first_seen seat.me.0.notes ++ e ∷ [])) }
        ensures pass { IsSamePass (pass_of seat.table_id number seat.me.0) result }
        ensures seen { (y : T) (e : T.Entry) → seat.me.1 ≡ (0, Some y) ∷ []
            → T.stands y (first_seen seat.me.0.notes ++ e ∷ [])
            → result.seen ≡ first_seen seat.me.0.notes ++ e ∷ [] }
    {
        self.table.shared.fetch_add::<Publish<T>>(&mut seat, 1, 1);
        let pass = self.give(seat, number, told);
        if self.for_entry.load(Ordering::SeqCst) != 0 {
            self.table.shared.wake_all(1);
        }
        pass
    }

    // Gives the turn back, with the value in the slot.
    pub(crate) fn give(
        &self,
        mut seat: Seat<Option<T>, View<T::Entry, T::Start>>,
        number: u32,
        count: u64,
    ) -> Pass<T>
        requires turn { seat.table_id ≡ self.now.turn }
        requires holder { (seat.me.0.holds ≡ true) × IsSeated seat.me.0 number count }
        requires value { (y : T) × (seat.me.1 ≡ (0, Some y) ∷ [])
            × T.stands y (first_seen seat.me.0.notes) × (seat.me.0.start ≡ Some (T.start y)) }
        ensures { result ≡ pass_of seat.table_id number seat.me.0 }
    {
        self.busy.store(0, Ordering::SeqCst);
        self.table.shared.store::<Give>(&mut seat, 0, 0);
        if self.for_turn.load(Ordering::SeqCst) != 0 {
            self.table.shared.wake_one(0);
        }
        Pass {
            seat,
            number,
            count,
        }
    }

    /// Waits for an entry that the pass hasn't seen, for 20 milliseconds at most, and looks at the
    /// story. It may also come back with nothing new.
    pub fn wait<R: Wait>(&self, rt: &R, pass: Pass<T>) -> Pass<T>
        requires { pass.turn ≡ self.now.turn }
        ensures pass { IsSamePass pass result }
        ensures sees { SeesMore T.caller pass result }
    {
        let Pass {
            mut seat,
            number,
            count,
        } = pass;
        let known = (count & 0xffff_ffff) as u32;
        let pause = Duration::from_millis(LONGEST_PAUSE);
        self.for_entry.fetch_add(1, Ordering::SeqCst);
        self.table.shared.park_timeout(rt, 1, known, pause);
        self.for_entry.fetch_sub(1, Ordering::SeqCst);
        let count = self.table.shared.load::<Look<T>>(&mut seat, 1);
        Pass {
            seat,
            number,
            count,
        }
    }

    /// Makes one pass of two, with the number of the first and the own entries of both.
    pub fn join(&self, a: Pass<T>, b: Pass<T>) -> Pass<T>
        requires turn { (a.turn ≡ self.now.turn) × (b.turn ≡ self.now.turn) }
        ensures pass { (result.turn ≡ a.turn) × (result.number ≡ a.number)
            × (result.start ≡ a.start) }
        ensures numbers { result.numbers ≡ a.numbers ++ b.numbers }
        ensures one { SeesMore T.caller a result }
        ensures other { SeesMore T.caller b result }
        ensures longer { result.seen ≡ longer_of a.seen b.seen }
    {
        let Pass {
            mut seat,
            number,
            count,
        } = a;
        let Pass {
            seat: other,
            number: _,
            count: other_count,
        } = b;
        self.put_together(&mut seat, other);
        Pass {
            seat,
            number,
            count: count.max(other_count),
        }
    }

    // The first seat takes over what the second one knows, and makes one note of all.
    fn put_together(
        &self,
        seat: &mut Seat<Option<T>, View<T::Entry, T::Start>>,
        other: Seat<Option<T>, View<T::Entry, T::Start>>,
    )
        requires turn { (seat.old.table_id ≡ self.now.turn) × (other.table_id ≡ self.now.turn) }
        requires rest { (seat.old.me.0.holds ≡ false) × (other.me.0.holds ≡ false)
            × (other.me.1 ≡ []) }
        requires number { (n : ℕ) × Has n (numbers_carried seat.old.me.0) }
        ensures turn { seat.new.table_id ≡ seat.old.table_id }
        ensures view { seat.new.me ≡ (
          looking_view
              (longest_seen (joined_view seat.old.me.0 other.me.0).notes)
              (joined_view seat.old.me.0 other.me.0),
          seat.old.me.1,
        ) }
        ensures knows { EachKnows T.caller (longest_seen (seat.old.me.0.notes ++ other.me.0.notes))
            (seat.old.me.0.notes ++ other.me.0.notes) }
    {
        self.table.shared.join_seat::<Both>(seat, other);
        self.table.shared.load::<Merge<T>>(seat, 0);
    }

    /// Gives the value back once all passes were joined into the last one. Each entry of the story
    /// then has the number of one of them.
    pub fn close(self, last: Pass<T>) -> T
        requires turn { last.turn ≡ self.turn }
        requires all { HasEachUpTo self.passes last.numbers }
        ensures seen { T.stands result last.seen }
        ensures start { last.start ≡ Some (T.start result) }
        ensures callers { (c : ℕ) → (c ≡ 0) ⊎ (self.passes < c)
            → entries_by T.caller c last.seen ≡ [] }
    {
        let Turn {
            table,
            for_turn: _,
            for_entry: _,
            busy: _,
        } = self;
        let Pass {
            seat,
            number: _,
            count: _,
        } = last;
        let mut closed = table.close_with(seat);
        let slot = closed.take(0);
        closed.free();
        let Some(value) = slot else { unreachable!() };
        value
    }
}
