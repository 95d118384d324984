//! The events that a value tells.
ghost use Rattle.std.specs.Prelude.{◌≡◌, ◌++◌, ℕ, pos, ◌^◌, codes, option_map, MatchOption, IfOk, OnOk};
ghost use Rattle.nv_value.specs.Content.{Tree, nil};
ghost use Rattle.nv_value.specs.View.{content, contents, pair_contents};
ghost use Rattle.nv_redraw.specs.Values.{batch_tree};
ghost use Rattle.nv_redraw.specs.Reading.{AreEventsOf};
ghost use Rattle.nv_redraw.specs.inside.SameTrees.{same_tree};
ghost use Rattle.nv_redraw.specs.inside.Candidates.{items_in, pairs_of_map, nth_tree, rest_trees, integer_or_0, below_or_0, size_in, id_or_0, bytes_in, is_key_tree, value_of_key, colour_of_key, cterm_of_key, flag_of_key, attr_of_maps, run_in, runs_in, colours_in, grid_in, size_at, candidate, candidates_named, candidates_of_entry, candidates_of_entries, candidates};

use crate::sameness::same_value;
use crate::values::batch_value;
use nv_hl::{Attr, CellText, Colours};
use nv_linegrid::{Redraw, Run, Runs};
use nv_value::{Pair, Value};
use std::alloc::{AllocError, Global};

/// The events whose value by `batch_value` this is, and `None` where no events have this value.
pub fn batch_of(alloc: Global, value: &Value) -> Result<Option<Vec<Redraw>>, AllocError>
    ensures { IfOk result (λ events. AreEventsOf events (content value.now)) }
{
    let events = candidates(alloc, value)?;
    let right = are_told_by(alloc, events.as_slice(), value)?;
    if right { Ok(Some(events)) } else { Ok(None) }
}

// Whether a value is that of these events.
fn are_told_by(alloc: Global, events: &[Redraw], value: &Value) -> Result<bool, AllocError>
    ensures { IfOk result (λ same. same ≡ same_tree (batch_tree events.now) (content value.now)) }
{
    let told = batch_value(alloc, events)?;
    let same = same_value(&told, value);
    drop(told);
    Ok(same)
}

// ---- parts of a value, and something in their place where there are none

fn items_of(value: &Value) -> &[Value]
    ensures { contents result.now ≡ items_in (content value.now) }
{
    match value {
        Value::List(items) => items.as_slice(),
        _ => &[],
    }
}

fn pairs_of(value: &Value) -> &[Pair]
    ensures { pair_contents result.now ≡ pairs_of_map (content value.now) }
{
    match value {
        Value::Pairs(fields) => fields.as_slice(),
        _ => &[],
    }
}

fn item_at(items: &[Value], place: usize) -> Option<&Value>
    ensures { MatchOption result (nth_tree (contents items.now) place ≡ nil)
        (λ value. nth_tree (contents items.now) place ≡ content value.now) }
{
    if place < items.len() {
        Some(&items[place])
    } else {
        None
    }
}

fn integer_of(value: &Value) -> i64
    ensures { result ≡ integer_or_0 (content value.now) }
{
    match value {
        Value::Int(number) => *number,
        _ => 0,
    }
}

fn integer_at(items: &[Value], place: usize) -> i64
    ensures { result ≡ integer_or_0 (nth_tree (contents items.now) place) }
{
    match item_at(items, place) {
        Some(value) => integer_of(value),
        None => 0,
    }
}

fn size_of(value: &Value) -> u32
    ensures { result ≡ size_in (content value.now) }
{
    u32::try_from(integer_of(value)).unwrap_or(0)
}

fn size_at(items: &[Value], place: usize) -> u32
    ensures { result ≡ size_at (contents items.now) place }
{
    match item_at(items, place) {
        Some(value) => size_of(value),
        None => 0,
    }
}

fn id_of(value: &Value) -> u64
    ensures { result ≡ id_or_0 (content value.now) }
{
    match value {
        Value::Int(number) => { if *number < 0 { 0 } else { *number as u64 } }
        Value::Big(number) => *number,
        _ => 0,
    }
}

fn id_at(items: &[Value], place: usize) -> u64
    ensures { result ≡ id_or_0 (nth_tree (contents items.now) place) }
{
    match item_at(items, place) {
        Some(value) => id_of(value),
        None => 0,
    }
}

fn bytes_of(value: &Value) -> &[u8]
    ensures { result.now ≡ bytes_in (content value.now) }
{
    match value {
        Value::Text(bytes) => bytes.as_slice(),
        _ => &[],
    }
}

fn bytes_at(items: &[Value], place: usize) -> &[u8]
    ensures { result.now ≡ bytes_in (nth_tree (contents items.now) place) }
{
    match item_at(items, place) {
        Some(value) => bytes_of(value),
        None => &[],
    }
}

fn items_at(items: &[Value], place: usize) -> &[Value]
    ensures { contents result.now ≡ items_in (nth_tree (contents items.now) place) }
{
    match item_at(items, place) {
        Some(value) => items_of(value),
        None => &[],
    }
}

fn pairs_at(items: &[Value], place: usize) -> &[Pair]
    ensures { pair_contents result.now ≡ pairs_of_map (nth_tree (contents items.now) place) }
{
    match item_at(items, place) {
        Some(value) => pairs_of(value),
        None => &[],
    }
}

// ---- attributes

// The value of the first pair with this key.
fn value_of_key<'a>(fields: &'a [Pair], key: &[u8]) -> Option<&'a Value>
    ensures { MatchOption result (value_of_key key.now (pair_contents fields.now) ≡ None)
        (λ value. value_of_key key.now (pair_contents fields.now) ≡ Some (content value.now)) }
{
    for pair in fields {
        if bytes_of(&pair.key) == key {
            return Some(&pair.value);
        }
    }
    None
}

fn colour_of(fields: &[Pair], key: &[u8]) -> Option<u32>
    ensures { result ≡ colour_of_key key.now (pair_contents fields.now) }
{
    match value_of_key(fields, key) {
        Some(value) => Some(size_of(value)),
        None => None,
    }
}

fn cterm_of(fields: &[Pair], key: &[u8]) -> Option<u8>
    ensures { result ≡ cterm_of_key key.now (pair_contents fields.now) }
{
    match value_of_key(fields, key) {
        Some(value) => Some(u8::try_from(integer_of(value)).unwrap_or(0)),
        None => None,
    }
}

fn has_key(fields: &[Pair], key: &[u8]) -> bool
    ensures { result ≡ flag_of_key key.now (pair_contents fields.now) }
{
    match value_of_key(fields, key) {
        Some(_) => true,
        None => false,
    }
}

fn attr_of(rgb: &[Pair], cterm: &[Pair]) -> Attr
    ensures { result ≡ attr_of_maps (pair_contents rgb.now) (pair_contents cterm.now) }
{
    Attr {
        fg: colour_of(rgb, b"foreground"),
        bg: colour_of(rgb, b"background"),
        sp: colour_of(rgb, b"special"),
        ctermfg: cterm_of(cterm, b"foreground"),
        ctermbg: cterm_of(cterm, b"background"),
        reverse: has_key(rgb, b"reverse"),
        italic: has_key(rgb, b"italic"),
        bold: has_key(rgb, b"bold"),
        underline: has_key(rgb, b"underline"),
        undercurl: has_key(rgb, b"undercurl"),
        strikethrough: has_key(rgb, b"strikethrough"),
    }
}

// ---- events

fn colours_of(items: &[Value]) -> Colours
    ensures { result ≡ colours_in (contents items.now) }
{
    Colours {
        fg: size_at(items, 0),
        bg: size_at(items, 1),
        sp: size_at(items, 2),
        cterm_fg: size_at(items, 3),
        cterm_bg: size_at(items, 4),
    }
}

fn run_of(alloc: Global, items: &[Value]) -> Result<Run, AllocError>
    ensures { IfOk result (λ run. run ≡ run_in (contents items.now)) }
{
    let text = CellText::new(alloc, bytes_at(items, 0))?;
    if items.len() < 2 {
        Ok(Run::Same(text))
    } else if items.len() == 2 {
        Ok(Run::One(text, id_at(items, 1)))
    } else {
        Ok(Run::Times(text, id_at(items, 1), size_at(items, 2)))
    }
}

fn runs_of(alloc: Global, items: &[Value]) -> Result<Runs, AllocError>
    ensures { IfOk result (λ runs. runs ≡ runs_in (contents items.now)) }
{
    let mut runs = Vec::with_capacity(alloc, items.len())?;
    for item in items {
        runs.push(run_of(alloc, items_of(item))?)?;
    }
    Ok(Runs::from_vec(runs))
}

// The event of a name and arguments.
#[tactic(auto, unfolding(crate::specs::inside::Candidates::candidate))]
fn candidate(alloc: Global, name: &[u8], items: &[Value]) -> Result<Redraw, AllocError>
    ensures { IfOk result (λ event. event ≡ candidate name.now (contents items.now)) }
{
    if name == b"grid_resize".as_slice() {
        Ok(Redraw::Resize {
            grid: integer_at(items, 0),
            width: size_at(items, 1),
            height: size_at(items, 2),
        })
    } else if name == b"default_colors_set".as_slice() {
        Ok(Redraw::DefaultColors {
            colours: colours_of(items),
        })
    } else if name == b"hl_attr_define".as_slice() {
        Ok(Redraw::HlAttr {
            id: id_at(items, 0),
            attr: attr_of(pairs_at(items, 1), pairs_at(items, 2)),
        })
    } else if name == b"grid_clear".as_slice() {
        Ok(Redraw::Clear {
            grid: integer_at(items, 0),
        })
    } else if name == b"grid_scroll".as_slice() {
        Ok(Redraw::Scroll {
            grid: integer_at(items, 0),
            top: size_at(items, 1),
            bot: size_at(items, 2),
            left: size_at(items, 3),
            right: size_at(items, 4),
            rows: integer_at(items, 5),
        })
    } else if name == b"grid_line".as_slice() {
        Ok(Redraw::LineOf {
            grid: integer_at(items, 0),
            row: size_at(items, 1),
            col: size_at(items, 2),
            cells: runs_of(alloc, items_at(items, 3))?,
        })
    } else if name == b"grid_cursor_goto".as_slice() {
        Ok(Redraw::Goto {
            grid: integer_at(items, 0),
            row: size_at(items, 1),
            col: size_at(items, 2),
        })
    } else {
        Ok(Redraw::Flush)
    }
}

// Adds the events of one entry.
fn push_candidates(
    events: &mut Vec<Redraw>,
    alloc: Global,
    entry: &[Value],
) -> Result<(), AllocError>
    ensures { OnOk result (events.new.items
        ≡ events.old.items ++ candidates_of_entry (contents entry.now)) }
{
    let name = bytes_at(entry, 0);
    for call in rest_of(entry) {
        events.push(candidate(alloc, name, items_of(call))?)?;
    }
    Ok(())
}

// The items behind the first.
fn rest_of(items: &[Value]) -> &[Value]
    ensures { contents result.now ≡ rest_trees (contents items.now) }
{
    match items {
        [] => &[],
        [_, rest @ ..] => rest,
    }
}

fn candidates(alloc: Global, value: &Value) -> Result<Vec<Redraw>, AllocError>
    ensures { IfOk result (λ events. events.items ≡ candidates (content value.now)) }
{
    let mut events = Vec::new(alloc);
    for entry in items_at(items_of(value), 2) {
        push_candidates(&mut events, alloc, items_of(entry))?;
    }
    Ok(events)
}
