// The rule of the table behind a turn.
use crate::story::Story;
use crate::view::View;
use atomic_table::TableRule;
use std::marker::PhantomData;
use std::snapshot::Snapshot;

/// What the table is told when it is made: the value, and the number of passes.
#[derive(Drop)]
pub struct Key<T> {
    pub value: Snapshot<T>,
    pub passes: u64,
}

pub struct Ruled<T> {
    of: PhantomData<T>,
}

impl<T: Story> TableRule<Option<T>, View<T::Entry, T::Start>, Key<T>> for Ruled<T> {
    ghost use Rattle.nv_turn.specs.inside.Rule.{KeepsRule};
    ghost use Rattle.nv_turn.specs.inside.Steps.{opening_view};

    ghost holds = { λ key.
        KeepsRule T.caller T.stands T.start (T.start key.value.value) key.passes };

    ghost first = { λ key. opening_view (T.start key.value.value) };
}
