//! The names of events.
ghost use Rattle.std.specs.Prelude.{◌≡◌, ◌≤◌, length};
ghost use Rattle.nv_redraw.specs.Values.{event_name};
ghost use Rattle.nv_redraw.specs.inside.Naming.{count_named};

use nv_linegrid::Redraw;

/// The name of an event (help: ui-linegrid).
pub fn name_of(event: &Redraw) -> &'static [u8]
    ensures { result.now ≡ event_name event.now }
{
    match event {
        Redraw::Resize { .. } => b"grid_resize".as_slice(),
        Redraw::DefaultColors { .. } => b"default_colors_set".as_slice(),
        Redraw::HlAttr { .. } => b"hl_attr_define".as_slice(),
        Redraw::Clear { .. } => b"grid_clear".as_slice(),
        Redraw::Scroll { .. } => b"grid_scroll".as_slice(),
        Redraw::LineOf { .. } => b"grid_line".as_slice(),
        Redraw::Goto { .. } => b"grid_cursor_goto".as_slice(),
        Redraw::Flush => b"flush".as_slice(),
    }
}

/// How many events at the front have this name.
pub fn count_named(name: &[u8], events: &[Redraw]) -> usize
    ensures count { result ≡ count_named name.now events.now }
    ensures most { result ≤ length events.now }
{
    let mut count = 0;
    for event in events {
        if name != name_of(event) {
            return count;
        }
        count += 1;
    }
    count
}
