// How the room of a row or a column is divided among its children.

ghost use Rattle.std.specs.Prelude.{◌≡◌, ◌+◌, ◌-◌, ◌^◌, ◌<◌, ◌≤◌, length, slice_index_or};
ghost use Rattle.std.specs.List.{list_all};
ghost use Rattle.nv_layout.specs.Content.{shape_of, shapes_of};
ghost use Rattle.nv_layout.specs.Division.{wishes, counted_children, counted_children_where, need, within};
ghost use Rattle.nv_layout.specs.Least.{child_list, least, wish};
ghost use Rattle.nv_layout.specs.inside.Measured.{AreLeasts};
ghost use Rattle.nv_layout.specs.Sizing.{child_at, rooms_with, rooms_of, room_left, next_size, rooms_behind, CanTake};

use crate::nodes::{Axis, Tree};
use crate::sizes::least_along;

// What is left to divide while children are sized in their order. Those with a wish take from one
// room, and the others share another.
#[derive(Clone, Copy)]
pub(crate) struct Rooms {
    wish_room: u32,
    // the least sizes of the children with a wish that follow, together
    wish_need: u32,
    // the least sizes of all the others
    other_need: u32,
    share_room: u32,
    // the least sizes of the others that follow, together, and their number
    share_need: u32,
    sharers: usize,
}

impl Rooms {
    // The rooms of children before any is sized. The least sizes of the first of them may be known.
    pub(crate) fn new(trees: &[Tree], axis: Axis, all_wish: bool, room: u32, known: &[u32]) -> Rooms
        requires wishes { all_wish ≡ list_all wishes (child_list axis (shapes_of trees.now)) }
        requires enough { need (child_list axis (shapes_of trees.now)) ≤ room }
        requires known { AreLeasts axis trees.now known.now }
        ensures { result ≡ rooms_of room (counted_children
            (child_list axis (shapes_of trees.now))) }
    {
        let rooms = needs(trees, axis, all_wish, room, known);
        let share_room = room_shared(trees, axis, all_wish, &rooms, known);
        Rooms {
            share_room,
            ..rooms
        }
    }

    // The size of the next child.
    pub(crate) fn take(&mut self, least: u32, wish: u32) -> u32
        requires { CanTake self.old (record { least = least; wish = wish }) }
        ensures size { result ≡ next_size self.old (record { least = least; wish = wish }) }
        ensures after { self.new ≡ rooms_behind self.old (record { least = least; wish = wish }) }
    {
        if wish == 0 {
            let even = (self.share_room as usize).div_ceil(self.sharers) as u32;
            let size = bounded(even, least, self.share_room, self.share_need);
            self.share_room -= size;
            self.share_need -= least;
            self.sharers -= 1;
            size
        } else {
            let size = bounded(
                wish,
                least,
                self.wish_room,
                self.other_need + self.wish_need,
            );
            self.wish_room -= size;
            self.wish_need -= least;
            size
        }
    }
}

// A size, but at least the least one, and at most what leaves the others of so much need their own.
fn bounded(size: u32, least: u32, room: u32, need: u32) -> u32
    requires counted { least ≤ need }
    requires enough { need ≤ room }
    ensures { result ≡ within least (room - (need - least)) size }
{
    size.min(room - (need - least)).max(least)
}

// The least size of the child at a place, which may be known.
pub(crate) fn least_at(tree: &Tree, place: usize, axis: Axis, known: &[u32]) -> u32
    requires small { least axis (shape_of tree.now) < 2 ^ 32 }
    requires known { place < length known.now
        → slice_index_or known.now place 0 ≡ least axis (shape_of tree.now) }
    ensures { result ≡ least axis (shape_of tree.now) }
{
    if place < known.len() {
        known[place]
    } else {
        least_along(tree, axis)
    }
}

// What a tree wishes for along an axis, 0 for nothing.
fn wish_along(tree: &Tree, axis: Axis) -> u32
    ensures { result ≡ wish axis (shape_of tree.now) }
{
    match tree {
        Tree::Leaf(leaf) => match axis {
            Axis::Across => leaf.width,
            Axis::Down => leaf.height,
        },
        Tree::Row(_) | Tree::Column(_) => 0,
    }
}

// Whether all children wish.
pub(crate) fn all_wish(trees: &[Tree], axis: Axis) -> bool
    ensures { result ≡ list_all wishes (child_list axis (shapes_of trees.now)) }
{
    for tree in trees {
        if wish_along(tree, axis) == 0 {
            return false;
        }
    }
    true
}

// What a child wishes for; where all wish, the last one's wish isn't counted.
pub(crate) fn counted_wish(trees: &[Tree], place: usize, axis: Axis, all_wish: bool) -> u32
    requires { place < length trees.now }
    ensures { result ≡ (child_at (counted_children_where all_wish
        (child_list axis (shapes_of trees.now))) place).wish }
{
    if all_wish && place + 1 == trees.len() {
        0
    } else {
        wish_along(&trees[place], axis)
    }
}

// The rooms of children, where the others would share all of the room.
fn needs(trees: &[Tree], axis: Axis, all_wish: bool, room: u32, known: &[u32]) -> Rooms
    requires enough { need (child_list axis (shapes_of trees.now)) ≤ room }
    requires known { AreLeasts axis trees.now known.now }
    ensures { result ≡ rooms_with room room (counted_children_where all_wish
        (child_list axis (shapes_of trees.now))) }
{
    let mut wish_need = 0;
    let mut share_need = 0;
    let mut sharers = 0;
    for (place, tree) in trees.iter().enumerate() {
        let least = least_at(tree, place, axis, known);
        if counted_wish(trees, place, axis, all_wish) == 0 {
            share_need += least;
            sharers += 1;
        } else {
            wish_need += least;
        }
    }
    Rooms {
        wish_room: room,
        wish_need,
        other_need: share_need,
        share_room: room,
        share_need,
        sharers,
    }
}

// What the children with a wish leave of their room.
fn room_shared(trees: &[Tree], axis: Axis, all_wish: bool, rooms: &Rooms, known: &[u32]) -> u32
    requires start { rooms.now ≡ rooms_with rooms.now.wish_room rooms.now.share_room
        (counted_children_where all_wish (child_list axis (shapes_of trees.now))) }
    requires enough { need (child_list axis (shapes_of trees.now)) ≤ rooms.now.wish_room }
    requires known { AreLeasts axis trees.now known.now }
    ensures { result ≡ room_left rooms.now.wish_room
        (counted_children_where all_wish (child_list axis (shapes_of trees.now))) }
{
    let mut room = rooms.wish_room;
    let mut need = rooms.other_need + rooms.wish_need;
    for (place, tree) in trees.iter().enumerate() {
        let wish = counted_wish(trees, place, axis, all_wish);
        if wish != 0 {
            let least = least_at(tree, place, axis, known);
            room -= bounded(wish, least, room, need);
            need -= least;
        }
    }
    room
}
