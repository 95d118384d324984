//! How a window is opened.
ghost use Rattle.std.specs.Prelude.{◌≡◌, ◌≤◌, true, false, List, map, IfOk};
ghost use Rattle.nv_value.specs.View.{content, pair_content};
ghost use Rattle.nv_msgpack.specs.Shortest.{HasSpelling};
ghost use Rattle.nv_args.specs.Args.{typed_arguments};
ghost use Rattle.nv_args.specs.Arguments.{last_pairs};
ghost use Rattle.nv_args.specs.Maps.{map_fault};
ghost use Rattle.nv_args.specs.Reading.{flag_at, number_at, pairs_at};
ghost use Rattle.nv_args.specs.Refusals.{Finds};
ghost use Rattle.nv_windows.specs.Rooms.{has_room_beside, has_window_left};
ghost use Rattle.nv_windows.specs.Workspace.{is_live_window};
ghost use Rattle.nv_model.specs.Answers.{Fact};
ghost use Rattle.nv_model.specs.Standing.{seen_now};
ghost use Rattle.nv_editor.specs.Doing.{GivesAlone, GivesAnswer};
ghost use Rattle.nv_editor.specs.Sound.{is_live_buffer};
ghost use Rattle.nv_api_win.specs.Opening.{beside_of, opening_keys, side_named, side_of, wished_height, wished_width};
ghost use Rattle.nv_api_win.specs.WindowRows.{nvim_open_win, opening_answer};
ghost use Rattle.nv_api_win.specs.inside.Steps.{GoesOn, opened_answer, beside_answer, room_fault};

use crate::finding::{the_buffer, window_named};
use crate::values::window_value;
use nv_args::{
    Args, Fail, Rule, Takes, bytes_at, integer_between, limit_reached, map_fault, no_id_left,
    no_room, no_window, window_at,
};
use nv_editor::Editor;
use nv_layout::Side;
use nv_value::{Pair, Value};
use nv_windows::{Opened, Wishes};
use std::alloc::Global;

// Refuses pairs with an unknown key or a wrong value, or without a side.
fn check_keys(alloc: Global, pairs: &[Pair]) -> Result<(), Fail>
    ensures { Finds result (map_fault opening_keys (last_pairs (map pair_content pairs.now))) }
{
    let rules = [
        Rule::required("split", Takes::Side),
        Rule::optional("win", Takes::Window),
        Rule::optional("width", Takes::Between(1, 2000)),
        Rule::optional("height", Takes::Between(1, 1000)),
    ];
    map_fault(alloc, &rules, pairs)
}

fn side_named(word: &[u8]) -> Option<Side>
    ensures { result ≡ side_named word.now }
{
    if word == b"left".as_slice() {
        Some(Side::Left)
    } else if word == b"right".as_slice() {
        Some(Side::Right)
    } else if word == b"above".as_slice() {
        Some(Side::Above)
    } else if word == b"below".as_slice() {
        Some(Side::Below)
    } else {
        None
    }
}

// The side on which a window opens.
fn side_of(pairs: &[Pair]) -> Side
    ensures { result ≡ side_of (last_pairs (map pair_content pairs.now)) }
{
    match bytes_at(pairs, "split") {
        Some(word) => side_named(word).unwrap_or(Side::Right),
        None => Side::Right,
    }
}

// The window that pairs name; 0 where they name none.
fn beside_of(pairs: &[Pair]) -> i64
    ensures { result ≡ beside_of (last_pairs (map pair_content pairs.now)) }
{
    window_at(pairs, "win").unwrap_or(0)
}

// The width that is wished; 0 for none.
fn wished_width(pairs: &[Pair]) -> u32
    ensures width { result ≡ wished_width (last_pairs (map pair_content pairs.now)) }
    ensures few { result ≤ 2000 }
{
    integer_between(pairs, "width", 1, 2000).unwrap_or(0)
}

// The height that is wished, with the status line; 0 for none.
fn wished_height(pairs: &[Pair]) -> u32
    ensures height { result ≡ wished_height (last_pairs (map pair_content pairs.now)) }
    ensures few { result ≤ 1001 }
{
    match integer_between(pairs, "height", 1, 1000) {
        Some(height) => height + 1,
        None => 0,
    }
}

// A live buffer, and a live window beside which another one opens.
#[derive(Clone, Copy)]
struct Place {
    buffer: i64,
    beside: i64,
}

// The buffer and the window that a call names.
fn named_place(editor: &Editor, args: &Args) -> Result<Place, Fail>
    ensures row { GoesOn (opening_answer (seen_now editor.now)
        (number_at (typed_arguments args.now) 0) (flag_at (typed_arguments args.now) 1)
        (last_pairs (pairs_at (typed_arguments args.now) 2)))
        (λ place. beside_answer editor.now.stage place.buffer place.beside
        (flag_at (typed_arguments args.now) 1)
        (last_pairs (pairs_at (typed_arguments args.now) 2)))
        result }
    ensures beside { IfOk result
        (λ place. is_live_window editor.now.stage.workspace place.beside ≡ true) }
    ensures live { IfOk result (λ place. is_live_buffer editor.now place.buffer ≡ true) }
{
    let buffer = the_buffer(editor, args, 0)?;
    let beside = beside_of(args.pairs(2));
    match window_named(editor, beside) {
        Some(window) => Ok(Place {
            buffer,
            beside: window.handle,
        }),
        None => Err(no_window(editor.alloc(), beside)),
    }
}

// Refuses a further window where there is no handle or no room for it, or where it would pass the
// limit.
fn check_room(editor: &Editor, place: Place, side: Side) -> Result<(), Fail>
    requires beside { is_live_window editor.now.stage.workspace place.beside ≡ true }
    ensures fault { Finds result (room_fault editor.now.stage place.beside side) }
    ensures left { IfOk result (λ _. has_window_left editor.now.stage.workspace ≡ true) }
    ensures room { IfOk result
        (λ _. has_room_beside editor.now.stage.workspace place.beside side ≡ true) }
{
    let windows = editor.windows();
    if !windows.window_left() {
        return Err(no_id_left(editor.alloc()));
    }
    if !windows.fits(editor.alloc(), place.beside, side)? {
        return Err(no_room(editor.alloc()));
    }
    if windows.windows().len() >= editor.limits().windows as usize {
        return Err(limit_reached(editor.alloc()));
    }
    Ok(())
}

// Opens a window for which there is room.
fn open_at(editor: &mut Editor, place: Place, args: &Args) -> Result<Value, Fail>
    requires beside { is_live_window editor.old.stage.workspace place.beside ≡ true }
    requires live { is_live_buffer editor.old place.buffer ≡ true }
    requires left { has_window_left editor.old.stage.workspace ≡ true }
    requires room { has_room_beside editor.old.stage.workspace place.beside
        (side_of (last_pairs (pairs_at (typed_arguments args.now) 2))) ≡ true }
    ensures row { (told : List Fact) → GivesAnswer (opened_answer editor.old.stage place.buffer
        place.beside (flag_at (typed_arguments args.now) 1)
        (last_pairs (pairs_at (typed_arguments args.now) 2)))
        result editor.old editor.new told told }
    ensures spelled { IfOk result (λ value. HasSpelling (content value)) }
{
    let pairs = args.pairs(2);
    let opened = editor.open_window(
        place.beside,
        side_of(pairs),
        place.buffer,
        Wishes {
            width: wished_width(pairs),
            height: wished_height(pairs),
        },
        args.flag(1),
    )?;
    match opened {
        Opened::Window(window) => Ok(window_value(editor.alloc(), window)?),
        Opened::NoId => Err(no_id_left(editor.alloc())),
        Opened::NoRoom => Err(no_room(editor.alloc())),
    }
}

/// `nvim_open_win`: a new window on a side of another one shows a buffer at row 0; with `enter` it
/// becomes current. Keys: `split`, `win`, `width`, `height`.
pub fn nvim_open_win(editor: &mut Editor, args: &Args) -> Result<Value, Fail>
    ensures row { GivesAlone nvim_open_win (typed_arguments args.now) result
        editor.old editor.new }
    ensures spelled { IfOk result (λ value. HasSpelling (content value)) }
{
    let place = named_place(editor, args)?;
    check_keys(editor.alloc(), args.pairs(2))?;
    check_room(editor, place, side_of(args.pairs(2)))?;
    open_at(editor, place, args)
}
