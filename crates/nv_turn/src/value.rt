// The loan of the value in hand. It stands apart, since its clause names the type that it lends
// from.
ghost use Rattle.std.specs.Prelude.{◌≡◌, []};
ghost use Rattle.std.specs.Borrow.{sem, follows};
ghost use mir.Syntax.{named};
ghost use Rattle.nv_turn.specs.contracts.held.Held.{the_row};
ghost use Rattle.nv_turn.specs.Lending.{with_value};

use crate::held::Held;
use crate::story::Story;

impl<'a, T: Story> Held<'a, T> {
    /// The value, for the holder to read and change.
    pub fn value(&mut self) -> &mut T
        ensures* writes_back { sem 𝓛 (follows
            (the_row (record { mir = named 1; lft = [] }) T.row T.Entry.row T.Start.row T.Story)
            T.row self.entry.ghost_name result.ghost_name (with_value self.old)) }
        ensures value { result.now ≡ self.old.value }
    {
        &mut self.value
    }
}
