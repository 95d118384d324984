//! Where windows stand on the screen, found once for each change of a tree or of the screen.

ghost use Rattle.nv_layout.specs.Content.{shape_of};
ghost use Rattle.nv_layout.specs.Least.{NoneEmpty};
ghost use Rattle.nv_layout.specs.Places.{IsOnScreen, IsRoomy, rects};
ghost use Rattle.nv_windows.specs.Kept.{workspace_of};
ghost use Rattle.nv_windows.specs.Sound.{IsSoundWorkspace};
ghost use Rattle.nv_windows.specs.Workspace.{Workspace};
ghost use Rattle.nv_windows.specs.inside.Seats.{AreSeats, IsPlacedIn, IsSpot};
ghost use Rattle.std.specs.Prelude.{◌≡◌, [], All, IfSome};

use crate::parts::Parts;
use crate::window::{Tabpage, Window};
use nv_layout::{Placed, Rect, placed};
use std::alloc::{AllocError, Global};

/// Where a window stands: in the tabpage of a handle, with its status line.
#[derive(Clone, Copy, Debug, PartialEq, Eq)]
pub(crate) struct Spot {
    pub(crate) tabpage: i64,
    pub(crate) rect: Rect,
}

/// A window and where it stands, if that is known.
#[derive(Clone, Copy, Debug, PartialEq, Eq)]
pub(crate) struct Seat {
    pub(crate) window: i64,
    pub(crate) spot: Option<Spot>,
}

/// The seats of windows by rising handles. Some are missing if memory ran out for them.
#[derive(Drop)]
pub(crate) struct Seats {
    alloc: Global,
    pub(crate) all: Vec<Seat>,
}

impl Seats {
    /// No seats.
    pub(crate) fn new(alloc: Global) -> Seats
        ensures { result.all.items ≡ [] }
    {
        Seats {
            alloc,
            all: Vec::new(alloc),
        }
    }

    /// Where a window stands, if that is known.
    pub(crate) fn spot(&self, window: i64) -> Option<Spot>
        ensures { (ws : Workspace) → AreSeats ws self.now.all.items
            → IfSome result (IsSpot ws window) }
    {
        spot_among(self.all.as_slice(), window)
    }

    /// Finds where all windows stand.
    pub(crate) fn renew(&mut self, parts: &Parts)
        requires { IsSoundWorkspace (workspace_of parts.now) }
        ensures { AreSeats (workspace_of parts.now) self.new.all.items }
    {
        self.all.clear();
        let _ = seat_all(self.alloc, &mut self.all, parts);
    }
}

/// Where a window stands by its seat among others.
fn spot_among(seats: &[Seat], window: i64) -> Option<Spot>
    ensures { (ws : Workspace) → AreSeats ws seats.now → IfSome result (IsSpot ws window) }
{
    let place = seats.partition_point(|seat| seat.window < window);
    match seats.get(place) {
        Some(seat) if seat.window == window => seat.spot,
        _ => None,
    }
}

/// Puts a seat for each window behind others, and finds where it stands.
fn seat_all(alloc: Global, seats: &mut Vec<Seat>, parts: &Parts) -> Result<(), AllocError>
    requires sound { IsSoundWorkspace (workspace_of parts.now) }
    requires seats { AreSeats (workspace_of parts.now) seats.old.items }
    ensures { AreSeats (workspace_of parts.now) seats.new.items }
{
    push_unknown(seats, parts.windows.as_slice())?;
    let area = parts.windows_area();
    for tabpage in &parts.tabpages {
        seat_tabpage(alloc, seats, tabpage, area)?;
    }
    Ok(())
}

/// Puts seats of windows of which nothing is known behind others.
fn push_unknown(seats: &mut Vec<Seat>, windows: &[Window]) -> Result<(), AllocError>
    ensures { (ws : Workspace) → AreSeats ws seats.old.items → AreSeats ws seats.new.items }
{
    for window in windows {
        seats.push(Seat {
            window: window.handle,
            spot: None,
        })?;
    }
    Ok(())
}

/// Finds where the windows of a tabpage stand.
fn seat_tabpage(
    alloc: Global,
    seats: &mut Vec<Seat>,
    tabpage: &Tabpage,
    area: Rect,
) -> Result<(), AllocError>
    requires filled { NoneEmpty (shape_of tabpage.now.tree) }
    requires roomy { IsRoomy (shape_of tabpage.now.tree) area }
    requires on_screen { IsOnScreen area }
    ensures { (ws : Workspace)
        → All (IsPlacedIn ws tabpage.now.handle) (rects (shape_of tabpage.now.tree) area)
        → AreSeats ws seats.old.items → AreSeats ws seats.new.items }
{
    let placed = placed(alloc, &tabpage.tree, area)?;
    put_spots(seats, tabpage, placed.as_slice());
    Ok(())
}

/// Puts where windows of a tabpage stand into their seats.
fn put_spots(seats: &mut Vec<Seat>, tabpage: &Tabpage, placed: &[Placed])
    ensures { (ws : Workspace) → All (IsPlacedIn ws tabpage.now.handle) placed.now
        → AreSeats ws seats.old.items → AreSeats ws seats.new.items }
{
    for window in placed {
        put_spot(seats, tabpage, window);
    }
}

fn put_spot(seats: &mut Vec<Seat>, tabpage: &Tabpage, placed: &Placed)
    ensures { (ws : Workspace) → IsPlacedIn ws tabpage.now.handle placed.now
        → AreSeats ws seats.old.items → AreSeats ws seats.new.items }
{
    let place = seats.partition_point(|seat| seat.window < placed.window);
    if place < seats.len() && seats[place].window == placed.window {
        seats[place].spot = Some(Spot {
            tabpage: tabpage.handle,
            rect: placed.rect,
        });
    }
}
