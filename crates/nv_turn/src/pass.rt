// What lets a thread in, and says what it has seen.
ghost use Rattle.std.specs.Prelude.{◌≡◌, length};

use crate::story::Story;
use crate::view::View;
use atomic_table::Seat;
use std::marker::Model;

/// The right to come in at one turn, under one number. It says which beginning of the story was
/// seen.
///
/// A pass may be dropped. Its turn can then never be closed, since that needs the numbers of all
/// passes.
#[derive(Drop)]
pub struct Pass<T: Story> {
    pub(crate) seat: Seat<Option<T>, View<T::Entry, T::Start>>,
    pub(crate) number: u32,
    pub(crate) count: u64,
}

impl<T: Story> Model for Pass<T> {
    ghost use Rattle.nv_turn.specs.Passes.{PassState};
    ghost use Rattle.nv_turn.specs.inside.Seats.{pass_of, IsAtRest};

    ghost Value = { PassState T.Entry T.Start };

    ghost view = { λ p. pass_of p.seat.table_id p.number p.seat.me.0 };

    ghost invariant = { λ p. IsAtRest p.seat.me p.number p.count };
}

impl<T: Story> Pass<T> {
    /// The number that entries of this pass have: 1 for the first pass of a turn, and so on.
    /// A pass that others were joined into keeps its own.
    pub fn number(&self) -> u32
        ensures { result ≡ self.now.number }
    {
        self.number
    }

    /// How many entries of the story the pass has seen.
    pub fn seen(&self) -> u64
        ensures { result ≡ length self.now.seen }
    {
        self.count
    }
}
