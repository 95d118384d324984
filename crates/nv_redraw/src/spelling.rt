//! A batch in its shortest spelling (MessagePack specification), with no tree of values.
ghost use Rattle.std.specs.Prelude.{◌≡◌, ◌<◌, ◌≤◌, ◌++◌, ◌∷◌, [], map, codes, length, OnOk, OnErr};
ghost use Rattle.nv_value.specs.Content.{integer, trees_of, in_turn, text};
ghost use Rattle.nv_msgpack.specs.Shortest.{shortest, all_shortest, map_head, BeginsAs};
ghost use Rattle.nv_linegrid.specs.declared.event.Redraw.TheVariants.{HlAttr, LineOf};
ghost use Rattle.nv_redraw.specs.Values.{pair_if_there, colour_tree, flag_tree, pairs_there, flag_fields, rgb_fields, cterm_fields, map_tree, tuple_tree, id_tree, run_tree, event_tree, entry_tree, events_by_name, batch_tree};
ghost use Rattle.nv_redraw.specs.inside.Parts.{front_of_batch, place_spelling, rgb_colours, cterm_colours, upper_flags, lower_flags};

use crate::heads::{put_list_head, put_text_head};
use crate::naming::{count_named, name_of};
use nv_hl::Attr;
use nv_linegrid::{Redraw, Run};
use nv_msgpack::{put_integer, put_unsigned};
use nv_value::spelled_length;
use std::alloc::AllocError;

/// Adds the shortest spelling of a batch's value at the end of `into` (MessagePack specification,
/// "Formats"). `AllocError` also where a cell's text, or a number of events or of cells, is 2^32 or
/// more. After an error `into` is as it was.
pub fn write_batch(events: &[Redraw], into: &mut Vec<u8>) -> Result<(), AllocError>
    ensures ok { OnOk result (into.new.items ≡ into.old.items ++ shortest (batch_tree events.now)) }
    ensures err { OnErr result (into.new.items ≡ into.old.items) }
{
    let length = into.len();
    match put_batch(events, into) {
        Ok(()) => Ok(()),
        Err(error) => {
            into.truncate(length);
            Err(error)
        }
    }
}

fn put_batch(events: &[Redraw], into: &mut Vec<u8>) -> Result<(), AllocError>
    ensures ok { OnOk result (into.new.items ≡ into.old.items ++ shortest (batch_tree events.now)) }
    ensures err { OnErr result (BeginsAs into.old.items into.new.items) }
{
    put_front(into)?;
    put_list_head(count_entries(events), into)?;
    put_entries(events, into)?;
    Ok(())
}

// What goes before the entries: a list of three, a notification, and its name.
fn put_front(into: &mut Vec<u8>) -> Result<(), AllocError>
    ensures ok { OnOk result (into.new.items ≡ into.old.items ++ front_of_batch) }
    ensures err { OnErr result (into.new.items ≡ into.old.items) }
{
    into.extend_from_slice(b"\x93\x02\xa6redraw")
}

// One byte.
fn put_byte(byte: u8, into: &mut Vec<u8>) -> Result<(), AllocError>
    ensures ok { OnOk result (into.new.items ≡ into.old.items ++ byte ∷ []) }
    ensures err { OnErr result (into.new.items ≡ into.old.items) }
{
    into.extend_from_slice(&[byte])
}

// How many entries tell the events.
fn count_entries(events: &[Redraw]) -> usize
    ensures { result ≡ length (events_by_name events.now) }
{
    let mut count = 0;
    let mut at = 0;
    while at < events.len() {
        at += count_named(name_of(&events[at]), &events[at..]);
        count += 1;
    }
    count
}

fn put_entries(events: &[Redraw], into: &mut Vec<u8>) -> Result<(), AllocError>
    ensures ok { OnOk result (into.new.items ≡ into.old.items
        ++ all_shortest (trees_of (map entry_tree (events_by_name events.now)))) }
    ensures err { OnErr result (BeginsAs into.old.items into.new.items) }
{
    let mut at = 0;
    while at < events.len() {
        let name = name_of(&events[at]);
        let end = at + count_named(name, &events[at..]);
        put_entry(name, &events[at..end], into)?;
        at = end;
    }
    Ok(())
}

// The entry of events of one name.
fn put_entry(name: &[u8], events: &[Redraw], into: &mut Vec<u8>) -> Result<(), AllocError>
    ensures ok { OnOk result (into.new.items ≡ into.old.items
        ++ shortest (entry_tree (record { name = name.now; events = events.now }))) }
    ensures err { OnErr result (BeginsAs into.old.items into.new.items) }
{
    let few = spelled_length(events.len())?;
    put_list_head(few as usize + 1, into)?;
    put_text(name, into)?;
    put_events(events, into)?;
    Ok(())
}

fn put_text(bytes: &[u8], into: &mut Vec<u8>) -> Result<(), AllocError>
    ensures ok { OnOk result (into.new.items ≡ into.old.items ++ shortest (text bytes.now)) }
    ensures err { OnErr result (BeginsAs into.old.items into.new.items) }
{
    put_text_head(bytes.len(), into)?;
    into.extend_from_slice(bytes)
}

fn put_events(events: &[Redraw], into: &mut Vec<u8>) -> Result<(), AllocError>
    ensures ok { OnOk result (into.new.items ≡ into.old.items
        ++ all_shortest (trees_of (map event_tree events.now))) }
    ensures err { OnErr result (BeginsAs into.old.items into.new.items) }
{
    for event in events {
        put_event(event, into)?;
    }
    Ok(())
}

// The arguments of an event.
fn put_event(event: &Redraw, into: &mut Vec<u8>) -> Result<(), AllocError>
    ensures ok { OnOk result (into.new.items ≡ into.old.items ++ shortest (event_tree event.now)) }
    ensures err { OnErr result (BeginsAs into.old.items into.new.items) }
{
    match event {
        Redraw::Resize {
            grid,
            width,
            height,
        } => put_numbers(&[*grid, i64::from(*width), i64::from(*height)], into),
        Redraw::DefaultColors { colours } => put_numbers(
            &[
                i64::from(colours.fg),
                i64::from(colours.bg),
                i64::from(colours.sp),
                i64::from(colours.cterm_fg),
                i64::from(colours.cterm_bg),
            ],
            into,
        ),
        Redraw::HlAttr { id, attr } => put_definition(*id, attr, into),
        Redraw::Clear { grid } => put_numbers(&[*grid], into),
        Redraw::Scroll {
            grid,
            top,
            bot,
            left,
            right,
            rows,
        } => put_numbers(
            &[
                *grid,
                i64::from(*top),
                i64::from(*bot),
                i64::from(*left),
                i64::from(*right),
                *rows,
                0,
            ],
            into,
        ),
        Redraw::LineOf {
            grid,
            row,
            col,
            cells,
        } => put_line(*grid, *row, *col, cells.as_slice(), into),
        Redraw::Goto { grid, row, col } => {
            put_numbers(&[*grid, i64::from(*row), i64::from(*col)], into)
        }
        Redraw::Flush => put_numbers(&[], into),
    }
}

// A list of integers.
fn put_numbers(numbers: &[i64], into: &mut Vec<u8>) -> Result<(), AllocError>
    ensures ok { OnOk result (into.new.items ≡ into.old.items
        ++ shortest (tuple_tree (map integer numbers.now))) }
    ensures err { OnErr result (BeginsAs into.old.items into.new.items) }
{
    put_list_head(numbers.len(), into)?;
    put_integers(numbers, into)?;
    Ok(())
}

fn put_integers(numbers: &[i64], into: &mut Vec<u8>) -> Result<(), AllocError>
    ensures ok { OnOk result (into.new.items ≡ into.old.items
        ++ all_shortest (trees_of (map integer numbers.now))) }
    ensures err { OnErr result (BeginsAs into.old.items into.new.items) }
{
    for number in numbers {
        put_number(number, into)?;
    }
    Ok(())
}

fn put_number(number: &i64, into: &mut Vec<u8>) -> Result<(), AllocError>
    ensures ok { OnOk result (into.new.items ≡ into.old.items ++ shortest (integer number.now)) }
    ensures err { OnErr result (into.new.items ≡ into.old.items) }
{
    put_integer(*number, into)
}

// The arguments of a `grid_line`.
fn put_line(
    grid: i64,
    row: u32,
    col: u32,
    cells: &[Run],
    into: &mut Vec<u8>,
) -> Result<(), AllocError>
    ensures ok { OnOk result (into.new.items ≡ into.old.items
        ++ shortest (event_tree (LineOf grid row col cells.now))) }
    ensures err { OnErr result (BeginsAs into.old.items into.new.items) }
{
    put_place(grid, row, col, into)?;
    put_cells(cells, into)?;
    put_byte(0xc2, into)?;
    Ok(())
}

// The head of a list of five, and the three of them that say where cells begin.
fn put_place(grid: i64, row: u32, col: u32, into: &mut Vec<u8>) -> Result<(), AllocError>
    ensures ok { OnOk result (into.new.items ≡ into.old.items ++ place_spelling grid row col) }
    ensures err { OnErr result (BeginsAs into.old.items into.new.items) }
{
    put_byte(0x95, into)?;
    put_integer(grid, into)?;
    put_unsigned(u64::from(row), into)?;
    put_unsigned(u64::from(col), into)?;
    Ok(())
}

fn put_cells(cells: &[Run], into: &mut Vec<u8>) -> Result<(), AllocError>
    ensures ok { OnOk result (into.new.items ≡ into.old.items
        ++ shortest (tuple_tree (map run_tree cells.now))) }
    ensures err { OnErr result (BeginsAs into.old.items into.new.items) }
{
    put_list_head(cells.len(), into)?;
    put_runs(cells, into)?;
    Ok(())
}

fn put_runs(runs: &[Run], into: &mut Vec<u8>) -> Result<(), AllocError>
    ensures ok { OnOk result (into.new.items ≡ into.old.items
        ++ all_shortest (trees_of (map run_tree runs.now))) }
    ensures err { OnErr result (BeginsAs into.old.items into.new.items) }
{
    for run in runs {
        put_run(run, into)?;
    }
    Ok(())
}

#[tactic(auto, unfolding(nv_msgpack::specs::Shortest::list_head))]
fn put_run(run: &Run, into: &mut Vec<u8>) -> Result<(), AllocError>
    ensures ok { OnOk result (into.new.items ≡ into.old.items ++ shortest (run_tree run.now)) }
    ensures err { OnErr result (BeginsAs into.old.items into.new.items) }
{
    match run {
        Run::Same(cell) => put_cell(0x91, cell.as_slice(), into),
        Run::One(cell, id) => {
            put_cell(0x92, cell.as_slice(), into)?;
            put_id(*id, into)
        }
        Run::Times(cell, id, count) => {
            put_cell(0x93, cell.as_slice(), into)?;
            put_id(*id, into)?;
            put_unsigned(u64::from(*count), into)
        }
    }
}

// The first byte of a list, and a string.
#[tactic(auto, unfolding(nv_msgpack::specs::Shortest::text_head))]
fn put_cell(first: u8, cell: &[u8], into: &mut Vec<u8>) -> Result<(), AllocError>
    ensures ok { OnOk result (into.new.items ≡ into.old.items ++ first ∷ shortest (text cell.now)) }
    ensures err { OnErr result (BeginsAs into.old.items into.new.items) }
{
    if let [byte] = cell {
        return into.extend_from_slice(&[first, 0xa1, *byte]);
    }
    if cell.len() < 0x20 {
        into.extend_from_slice(&[first, 0xa0 + cell.len() as u8])?;
        into.extend_from_slice(cell)
    } else {
        into.extend_from_slice(&[first])?;
        put_text(cell, into)
    }
}

fn put_id(id: u64, into: &mut Vec<u8>) -> Result<(), AllocError>
    ensures ok { OnOk result (into.new.items ≡ into.old.items ++ shortest (id_tree id)) }
    ensures err { OnErr result (into.new.items ≡ into.old.items) }
{
    put_unsigned(id, into)
}

// The arguments of a `hl_attr_define`.
#[tactic(auto, unfolding(nv_msgpack::specs::Shortest::list_head))]
fn put_definition(id: u64, attr: &Attr, into: &mut Vec<u8>) -> Result<(), AllocError>
    ensures ok { OnOk result (into.new.items ≡ into.old.items
        ++ shortest (event_tree (HlAttr id attr.now))) }
    ensures err { OnErr result (BeginsAs into.old.items into.new.items) }
{
    put_named_id(id, into)?;
    put_rgb(attr, into)?;
    put_cterm(attr, into)?;
    put_byte(0x90, into)?;
    Ok(())
}

// The head of a list of four, and an id.
fn put_named_id(id: u64, into: &mut Vec<u8>) -> Result<(), AllocError>
    ensures ok { OnOk result (into.new.items ≡ into.old.items ++ 0x94 ∷ shortest (id_tree id)) }
    ensures err { OnErr result (BeginsAs into.old.items into.new.items) }
{
    put_byte(0x94, into)?;
    put_id(id, into)?;
    Ok(())
}

// How many flags are set.
fn count_flags(attr: &Attr) -> u8
    ensures count { result ≡ length (pairs_there (flag_fields attr.now)) }
    ensures most { result ≤ 6 }
{
    u8::from(attr.reverse)
        + u8::from(attr.italic)
        + u8::from(attr.bold)
        + u8::from(attr.underline)
        + u8::from(attr.undercurl)
        + u8::from(attr.strikethrough)
}

fn count_rgb(attr: &Attr) -> u8
    ensures count { result ≡ length (pairs_there (rgb_fields attr.now)) }
    ensures most { result ≤ 9 }
{
    u8::from(attr.fg.is_some())
        + u8::from(attr.bg.is_some())
        + u8::from(attr.sp.is_some())
        + count_flags(attr)
}

fn count_cterm(attr: &Attr) -> u8
    ensures count { result ≡ length (pairs_there (cterm_fields attr.now)) }
    ensures most { result ≤ 8 }
{
    u8::from(attr.ctermfg.is_some()) + u8::from(attr.ctermbg.is_some()) + count_flags(attr)
}

// What goes before the pairs of a small map, by their number.
#[tactic(auto, unfolding(nv_msgpack::specs::Shortest::map_head))]
fn put_map_head(count: u8, into: &mut Vec<u8>) -> Result<(), AllocError>
    requires { count < 16 }
    ensures ok { OnOk result (into.new.items ≡ into.old.items ++ map_head count) }
    ensures err { OnErr result (into.new.items ≡ into.old.items) }
{
    into.extend_from_slice(&[0x80 + count])
}

fn put_rgb(attr: &Attr, into: &mut Vec<u8>) -> Result<(), AllocError>
    ensures ok { OnOk result (into.new.items ≡ into.old.items
        ++ shortest (map_tree (rgb_fields attr.now))) }
    ensures err { OnErr result (BeginsAs into.old.items into.new.items) }
{
    put_map_head(count_rgb(attr), into)?;
    put_rgb_colours(attr, into)?;
    put_flags(attr, into)?;
    Ok(())
}

fn put_rgb_colours(attr: &Attr, into: &mut Vec<u8>) -> Result<(), AllocError>
    ensures ok { OnOk result (into.new.items ≡ into.old.items
        ++ all_shortest (in_turn (pairs_there (rgb_colours attr.now)))) }
    ensures err { OnErr result (BeginsAs into.old.items into.new.items) }
{
    put_colour(b"foreground", attr.fg, into)?;
    put_colour(b"background", attr.bg, into)?;
    put_colour(b"special", attr.sp, into)?;
    Ok(())
}

fn put_cterm(attr: &Attr, into: &mut Vec<u8>) -> Result<(), AllocError>
    ensures ok { OnOk result (into.new.items ≡ into.old.items
        ++ shortest (map_tree (cterm_fields attr.now))) }
    ensures err { OnErr result (BeginsAs into.old.items into.new.items) }
{
    put_map_head(count_cterm(attr), into)?;
    put_cterm_colours(attr, into)?;
    put_flags(attr, into)?;
    Ok(())
}

fn put_cterm_colours(attr: &Attr, into: &mut Vec<u8>) -> Result<(), AllocError>
    ensures ok { OnOk result (into.new.items ≡ into.old.items
        ++ all_shortest (in_turn (pairs_there (cterm_colours attr.now)))) }
    ensures err { OnErr result (BeginsAs into.old.items into.new.items) }
{
    put_colour(b"foreground", attr.ctermfg.map(u32::from), into)?;
    put_colour(b"background", attr.ctermbg.map(u32::from), into)?;
    Ok(())
}

fn put_flags(attr: &Attr, into: &mut Vec<u8>) -> Result<(), AllocError>
    ensures ok { OnOk result (into.new.items ≡ into.old.items
        ++ all_shortest (in_turn (pairs_there (flag_fields attr.now)))) }
    ensures err { OnErr result (BeginsAs into.old.items into.new.items) }
{
    put_upper_flags(attr, into)?;
    put_lower_flags(attr, into)?;
    Ok(())
}

fn put_upper_flags(attr: &Attr, into: &mut Vec<u8>) -> Result<(), AllocError>
    ensures ok { OnOk result (into.new.items ≡ into.old.items
        ++ all_shortest (in_turn (pairs_there (upper_flags attr.now)))) }
    ensures err { OnErr result (BeginsAs into.old.items into.new.items) }
{
    put_flag(b"reverse", attr.reverse, into)?;
    put_flag(b"italic", attr.italic, into)?;
    put_flag(b"bold", attr.bold, into)?;
    Ok(())
}

fn put_lower_flags(attr: &Attr, into: &mut Vec<u8>) -> Result<(), AllocError>
    ensures ok { OnOk result (into.new.items ≡ into.old.items
        ++ all_shortest (in_turn (pairs_there (lower_flags attr.now)))) }
    ensures err { OnErr result (BeginsAs into.old.items into.new.items) }
{
    put_flag(b"underline", attr.underline, into)?;
    put_flag(b"undercurl", attr.undercurl, into)?;
    put_flag(b"strikethrough", attr.strikethrough, into)?;
    Ok(())
}

fn put_colour(key: &[u8], colour: Option<u32>, into: &mut Vec<u8>) -> Result<(), AllocError>
    ensures ok { OnOk result (into.new.items ≡ into.old.items
        ++ all_shortest (in_turn (pair_if_there key.now (colour_tree colour)))) }
    ensures err { OnErr result (BeginsAs into.old.items into.new.items) }
{
    match colour {
        None => Ok(()),
        Some(colour) => {
            put_text(key, into)?;
            put_unsigned(u64::from(colour), into)?;
            Ok(())
        }
    }
}

fn put_flag(key: &[u8], flag: bool, into: &mut Vec<u8>) -> Result<(), AllocError>
    ensures ok { OnOk result (into.new.items ≡ into.old.items
        ++ all_shortest (in_turn (pair_if_there key.now (flag_tree flag)))) }
    ensures err { OnErr result (BeginsAs into.old.items into.new.items) }
{
    if flag {
        put_text(key, into)?;
        put_byte(0xc3, into)?;
        Ok(())
    } else {
        Ok(())
    }
}
