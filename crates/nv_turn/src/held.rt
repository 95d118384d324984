// The value, while one pass holds the turn.
ghost use Rattle.std.specs.Prelude.{◌≡◌, List, Some};
ghost use Rattle.nv_turn.specs.Story.{AddsOneAtMost};
ghost use Rattle.nv_turn.specs.Passes.{IsSamePass};

use crate::pass::Pass;
use crate::story::Story;
use crate::turn::Turn;
use crate::view::View;
use atomic_table::Seat;
use std::marker::Model;

/// The value in hand, and the pass that holds it. It can't be dropped: `leave` takes it.
pub struct Held<'a, T: Story> {
    pub(crate) turn: &'a Turn<T>,
    pub(crate) seat: Seat<Option<T>, View<T::Entry, T::Start>>,
    pub(crate) value: T,
    pub(crate) number: u32,
    pub(crate) count: u64,
}

impl<'a, T: Story> Model for Held<'a, T> {
    ghost use Rattle.std.specs.Prelude.{◌≡◌};
    ghost use Rattle.nv_turn.specs.Passes.{HeldState};
    ghost use Rattle.nv_turn.specs.inside.Seats.{pass_of, IsHolder};

    ghost Value = { HeldState T T.Entry T.Start };

    ghost view = { λ h. record {
      value = h.value;
      pass = pass_of h.seat.table_id h.number h.seat.me.0;
    } };

    ghost invariant = { λ h. (h.seat.table_id ≡ h.turn.now.turn)
        × IsHolder h.seat.me h.number h.count };
}

impl<'a, T: Story> Held<'a, T> {
    /// The number of the pass, which a new entry has to have.
    pub fn number(&self) -> u32
        ensures { result ≡ self.now.pass.number }
    {
        self.number
    }

    /// Gives the turn back. The value may have gained one entry of this number, and must not have
    /// changed its start.
    pub fn leave<R>(self, _rt: &R) -> Pass<T>
        requires start { self.pass.start ≡ Some (T.start self.value) }
        requires story { (later : List T.Entry)
            × AddsOneAtMost T.caller self.pass.number self.pass.seen later
            × T.stands self.value later }
        ensures pass { IsSamePass self.entry.pass result }
        ensures seen { (later : List T.Entry)
            → AddsOneAtMost T.caller self.entry.pass.number self.entry.pass.seen later
            → T.stands self.entry.value later → result.seen ≡ later }
    {
        let Held {
            turn,
            mut seat,
            value,
            number,
            count,
        } = self;
        let told = value.told();
        let back = turn.table.shared.exchange(&mut seat, 0, Some(value));
        let None = back else { unreachable!() };
        if told > count {
            turn.add(seat, number, told)
        } else {
            turn.give(seat, number, count)
        }
    }
}
