//! The values that tell batches.
ghost use Rattle.std.specs.Prelude.{◌≡◌, [], ◌∷◌, ◌++◌, map, IfOk, OnOk};
ghost use Rattle.nv_value.specs.Content.{integer, text};
ghost use Rattle.nv_value.specs.View.{content, pair_content};
ghost use Rattle.nv_msgpack.specs.Shortest.{HasSpelling};
ghost use Rattle.nv_redraw.specs.Spellable.{IsSpellableBatch};
ghost use Rattle.nv_linegrid.specs.declared.event.Redraw.TheVariants.{DefaultColors, HlAttr, Scroll, LineOf};
ghost use Rattle.nv_redraw.specs.Values.{number_tree, id_tree, pair_if_there, colour_tree, flag_tree, pairs_there, flag_fields, rgb_fields, cterm_fields, map_tree, tuple_tree, run_tree, event_tree, entry_tree, events_by_name, batch_tree};

use crate::naming::{count_named, name_of};
use nv_hl::{Attr, Colours};
use nv_linegrid::{Redraw, Run};
use nv_value::{Bytes, Pair, Value};
use std::alloc::{AllocError, Global};

/// The value of a batch: the notification `[2, "redraw", entries]`, in which neighbouring events of
/// one name share one entry (help: ui-events). `AllocError` also where the text of a cell has 2^32
/// bytes or more.
pub fn batch_value(alloc: Global, events: &[Redraw]) -> Result<Value, AllocError>
    ensures told { IfOk result (λ value. content value ≡ batch_tree events.now) }
    ensures spelled { IsSpellableBatch events.now
        → IfOk result (λ value. HasSpelling (content value)) }
{
    notification(alloc, events)
}

#[tactic(auto, unfolding(crate::specs::Values::batch_tree))]
fn notification(alloc: Global, events: &[Redraw]) -> Result<Value, AllocError>
    ensures { IfOk result (λ value. content value ≡ batch_tree events.now) }
{
    let name = Bytes::from_slice(alloc, b"redraw")?;
    let entries = entries_of(alloc, events)?;
    let items = vec![in alloc; Value::Int(2), Value::Text(name), Value::List(entries)]?;
    Ok(Value::List(items))
}

fn entries_of(alloc: Global, events: &[Redraw]) -> Result<Vec<Value>, AllocError>
    ensures { IfOk result (λ entries. map content entries.items
        ≡ map entry_tree (events_by_name events.now)) }
{
    let mut entries = Vec::new(alloc);
    let mut at = 0;
    while at < events.len() {
        let name = name_of(&events[at]);
        let end = at + count_named(name, &events[at..]);
        entries.push(entry_of(alloc, name, &events[at..end])?)?;
        at = end;
    }
    Ok(entries)
}

// The entry of events of one name.
fn entry_of(alloc: Global, name: &[u8], events: &[Redraw]) -> Result<Value, AllocError>
    ensures { IfOk result (λ value. content value
        ≡ entry_tree (record { name = name.now; events = events.now })) }
{
    let mut items = Vec::with_capacity(alloc, 1)?;
    push_text(&mut items, alloc, name)?;
    push_events(&mut items, alloc, events)?;
    Ok(Value::List(items))
}

// Puts the arguments of events behind other values.
fn push_events(items: &mut Vec<Value>, alloc: Global, events: &[Redraw]) -> Result<(), AllocError>
    ensures { OnOk result (map content items.new.items
        ≡ map content items.old.items ++ map event_tree events.now) }
{
    for event in events {
        push_value(items, event_value(alloc, event)?)?;
    }
    Ok(())
}

fn push_text(items: &mut Vec<Value>, alloc: Global, bytes: &[u8]) -> Result<(), AllocError>
    ensures { OnOk result (map content items.new.items
        ≡ map content items.old.items ++ text bytes.now ∷ []) }
{
    let bytes = Bytes::from_slice(alloc, bytes)?;
    push_value(items, Value::Text(bytes))
}

// Puts a value behind others.
fn push_value(items: &mut Vec<Value>, value: Value) -> Result<(), AllocError>
    ensures { OnOk result (map content items.new.items
        ≡ map content items.old.items ++ content value ∷ []) }
{
    items.push(value)?;
    Ok(())
}

fn number(n: u32) -> Value
    ensures { content result ≡ number_tree n }
{
    Value::Int(i64::from(n))
}

fn id_value(id: u64) -> Value
    ensures { content result ≡ id_tree id }
{
    if id < 0x8000_0000_0000_0000 {
        Value::Int(id as i64)
    } else {
        Value::Big(id)
    }
}

// A list of integers.
fn numbers_value(alloc: Global, numbers: &[i64]) -> Result<Value, AllocError>
    ensures { IfOk result (λ value. content value ≡ tuple_tree (map integer numbers.now)) }
{
    let mut items = Vec::with_capacity(alloc, numbers.len())?;
    push_numbers(&mut items, numbers)?;
    Ok(Value::List(items))
}

fn push_numbers(items: &mut Vec<Value>, numbers: &[i64]) -> Result<(), AllocError>
    ensures { OnOk result (map content items.new.items
        ≡ map content items.old.items ++ map integer numbers.now) }
{
    for number in numbers {
        push_value(items, number_value(number))?;
    }
    Ok(())
}

fn number_value(number: &i64) -> Value
    ensures { content result ≡ integer number.now }
{
    Value::Int(*number)
}

// The arguments of an event.
fn event_value(alloc: Global, event: &Redraw) -> Result<Value, AllocError>
    ensures { IfOk result (λ value. content value ≡ event_tree event.now) }
{
    match event {
        Redraw::Resize {
            grid,
            width,
            height,
        } => numbers_value(alloc, &[*grid, i64::from(*width), i64::from(*height)]),
        Redraw::DefaultColors { colours } => colours_value(alloc, *colours),
        Redraw::HlAttr { id, attr } => definition_value(alloc, *id, attr),
        Redraw::Clear { grid } => numbers_value(alloc, &[*grid]),
        Redraw::Scroll {
            grid,
            top,
            bot,
            left,
            right,
            rows,
        } => scroll_value(alloc, *grid, *top, *bot, *left, *right, *rows),
        Redraw::LineOf {
            grid,
            row,
            col,
            cells,
        } => line_value(alloc, *grid, *row, *col, cells.as_slice()),
        Redraw::Goto { grid, row, col } => {
            numbers_value(alloc, &[*grid, i64::from(*row), i64::from(*col)])
        }
        Redraw::Flush => numbers_value(alloc, &[]),
    }
}

fn colours_value(alloc: Global, colours: Colours) -> Result<Value, AllocError>
    ensures { IfOk result (λ value. content value ≡ event_tree (DefaultColors colours)) }
{
    numbers_value(
        alloc,
        &[
            i64::from(colours.fg),
            i64::from(colours.bg),
            i64::from(colours.sp),
            i64::from(colours.cterm_fg),
            i64::from(colours.cterm_bg),
        ],
    )
}

// The columns by which a `grid_scroll` moves (help: ui-event-grid_scroll).
const COLUMNS: i64 = 0;

fn scroll_value(
    alloc: Global,
    grid: i64,
    top: u32,
    bot: u32,
    left: u32,
    right: u32,
    rows: i64,
) -> Result<Value, AllocError>
    ensures { IfOk result (λ value. content value
        ≡ event_tree (Scroll grid top bot left right rows)) }
{
    numbers_value(
        alloc,
        &[
            grid,
            i64::from(top),
            i64::from(bot),
            i64::from(left),
            i64::from(right),
            rows,
            COLUMNS,
        ],
    )
}

fn definition_value(alloc: Global, id: u64, attr: &Attr) -> Result<Value, AllocError>
    ensures { IfOk result (λ value. content value ≡ event_tree (HlAttr id attr.now)) }
{
    let rgb = rgb_value(alloc, attr)?;
    let cterm = cterm_value(alloc, attr)?;
    let info = Value::List(Vec::new(alloc));
    Ok(Value::List(vec![in alloc; id_value(id), rgb, cterm, info]?))
}

fn line_value(
    alloc: Global,
    grid: i64,
    row: u32,
    col: u32,
    cells: &[Run],
) -> Result<Value, AllocError>
    ensures { IfOk result (λ value. content value ≡ event_tree (LineOf grid row col cells.now)) }
{
    let cells = runs_value(alloc, cells)?;
    let wrap = Value::Truth(false);
    Ok(Value::List(vec![in alloc; Value::Int(grid), number(row), number(col), cells, wrap]?))
}

fn runs_value(alloc: Global, runs: &[Run]) -> Result<Value, AllocError>
    ensures { IfOk result (λ value. content value ≡ tuple_tree (map run_tree runs.now)) }
{
    let mut items = Vec::with_capacity(alloc, runs.len())?;
    push_runs(&mut items, alloc, runs)?;
    Ok(Value::List(items))
}

fn push_runs(items: &mut Vec<Value>, alloc: Global, runs: &[Run]) -> Result<(), AllocError>
    ensures { OnOk result (map content items.new.items
        ≡ map content items.old.items ++ map run_tree runs.now) }
{
    for run in runs {
        push_value(items, run_value(alloc, run)?)?;
    }
    Ok(())
}

fn run_value(alloc: Global, run: &Run) -> Result<Value, AllocError>
    ensures { IfOk result (λ value. content value ≡ run_tree run.now) }
{
    match run {
        Run::Same(cell) => {
            let cell = Value::Text(Bytes::from_slice(alloc, cell.as_slice())?);
            Ok(Value::List(vec![in alloc; cell]?))
        }
        Run::One(cell, id) => {
            let cell = Value::Text(Bytes::from_slice(alloc, cell.as_slice())?);
            Ok(Value::List(vec![in alloc; cell, id_value(*id)]?))
        }
        Run::Times(cell, id, count) => {
            let cell = Value::Text(Bytes::from_slice(alloc, cell.as_slice())?);
            Ok(Value::List(vec![in alloc; cell, id_value(*id), number(*count)]?))
        }
    }
}

fn rgb_value(alloc: Global, attr: &Attr) -> Result<Value, AllocError>
    ensures { IfOk result (λ value. content value ≡ map_tree (rgb_fields attr.now)) }
{
    let mut fields = Vec::with_capacity(alloc, 9)?;
    push_colour(&mut fields, alloc, b"foreground", attr.fg)?;
    push_colour(&mut fields, alloc, b"background", attr.bg)?;
    push_colour(&mut fields, alloc, b"special", attr.sp)?;
    push_flags(&mut fields, alloc, attr)?;
    Ok(Value::Pairs(fields))
}

fn cterm_value(alloc: Global, attr: &Attr) -> Result<Value, AllocError>
    ensures { IfOk result (λ value. content value ≡ map_tree (cterm_fields attr.now)) }
{
    let mut fields = Vec::with_capacity(alloc, 8)?;
    push_colour(
        &mut fields,
        alloc,
        b"foreground",
        attr.ctermfg.map(u32::from),
    )?;
    push_colour(
        &mut fields,
        alloc,
        b"background",
        attr.ctermbg.map(u32::from),
    )?;
    push_flags(&mut fields, alloc, attr)?;
    Ok(Value::Pairs(fields))
}

// The flags that are set.
fn push_flags(fields: &mut Vec<Pair>, alloc: Global, attr: &Attr) -> Result<(), AllocError>
    ensures { OnOk result (map pair_content fields.new.items
        ≡ map pair_content fields.old.items ++ pairs_there (flag_fields attr.now)) }
{
    push_flag(fields, alloc, b"reverse", attr.reverse)?;
    push_flag(fields, alloc, b"italic", attr.italic)?;
    push_flag(fields, alloc, b"bold", attr.bold)?;
    push_flag(fields, alloc, b"underline", attr.underline)?;
    push_flag(fields, alloc, b"undercurl", attr.undercurl)?;
    push_flag(fields, alloc, b"strikethrough", attr.strikethrough)
}

fn push_colour(
    fields: &mut Vec<Pair>,
    alloc: Global,
    key: &[u8],
    colour: Option<u32>,
) -> Result<(), AllocError>
    ensures { OnOk result (map pair_content fields.new.items
        ≡ map pair_content fields.old.items ++ pair_if_there key.now (colour_tree colour)) }
{
    match colour {
        None => Ok(()),
        Some(colour) => {
            let key = Bytes::from_slice(alloc, key)?;
            push_pair(fields, key, number(colour))
        }
    }
}

fn push_flag(
    fields: &mut Vec<Pair>,
    alloc: Global,
    key: &[u8],
    flag: bool,
) -> Result<(), AllocError>
    ensures { OnOk result (map pair_content fields.new.items
        ≡ map pair_content fields.old.items ++ pair_if_there key.now (flag_tree flag)) }
{
    if flag {
        let key = Bytes::from_slice(alloc, key)?;
        push_pair(fields, key, Value::Truth(true))
    } else {
        Ok(())
    }
}

fn push_pair(fields: &mut Vec<Pair>, key: Bytes, value: Value) -> Result<(), AllocError>
    ensures { OnOk result (map pair_content fields.new.items
        ≡ map pair_content fields.old.items ++ (text key, content value) ∷ []) }
{
    let key = Value::Text(key);
    fields.push(Pair { key, value })?;
    Ok(())
}
