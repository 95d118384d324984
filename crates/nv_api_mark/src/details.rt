//! What is told of a mark.
ghost use Rattle.std.specs.Prelude.{◌≡◌, ◌^◌, ◌<◌, ◌++◌, ◌∷◌, [], List, if◌then◌else◌, length, map, option_map, true, All, IfOk, IfSome, OnOk};
ghost use Rattle.nv_value.specs.Content.{Tree, text, truth};
ghost use Rattle.nv_value.specs.View.{content, pair_content};
ghost use Rattle.nv_msgpack.specs.Shortest.{HasSpelling};
ghost use Rattle.nv_hl.specs.Groups.{HasGroup};
ghost use Rattle.nv_editor.specs.Sound.{IsOfGroups};
ghost use Rattle.nv_model.specs.Answering.{array_of};
ghost use Rattle.nv_api_mark.specs.Listing.{listed_mark};
ghost use Rattle.nv_notes.specs.Notes.{IsChunkOf, IsNoteOf, note_at};
ghost use Rattle.nv_api_mark.specs.MarkRows.{chunk_told, details_of, end_details, note_details, paint_details, place_values, place_values_if_any, place_word, undo_details};
ghost use Rattle.nv_api_mark.specs.inside.Marking.{IsChunkTold, IsGroupTold, IsNoteTold};
ghost use Rattle.nv_api_mark.specs.inside.Picking.{listed_triple};

use crate::values::{natural_value, put, put_natural, put_text, put_truth, text_value};
use nv_buffer::{Far, Mark, Paint};
use nv_editor::Editor;
use nv_hl::Groups;
use nv_notes::{At, Chunk, Note};
use nv_rpc::Triple;
use nv_value::{Fields, Value, spelled_length};
use std::alloc::{AllocError, Global};

/// A live buffer by its handle.
#[derive(Clone, Copy)]
pub struct Live {
    pub handle: i64,
}

// Puts what is told of the end of a mark behind the rest.
fn push_end(alloc: Global, fields: &mut Fields, stop: Option<Far>) -> Result<(), AllocError>
    ensures { OnOk result ((rest : List (Tree × Tree))
        → map pair_content fields.new.items ++ rest
        ≡ map pair_content fields.old.items ++ (end_details stop ++ rest)) }
{
    let Some(far) = stop else {
        return Ok(());
    };
    put_natural(alloc, fields, "end_row", far.pos.row)?;
    put_natural(alloc, fields, "end_col", far.pos.col)?;
    put_truth(alloc, fields, "end_right_gravity", far.right)?;
    Ok(())
}

// Puts what is told of what a mark shows behind the rest.
fn push_paint(
    alloc: Global,
    fields: &mut Fields,
    groups: &Groups,
    paint: Option<Paint>,
) -> Result<(), AllocError>
    requires { IfSome paint (λ p. HasGroup groups.now p.group) }
    ensures told { OnOk result ((rest : List (Tree × Tree))
        → map pair_content fields.new.items ++ rest
        ≡ map pair_content fields.old.items ++ (paint_details groups.now paint ++ rest)) }
    ensures short { OnOk result (IsGroupTold groups.now paint) }
{
    let Some(paint) = paint else {
        return Ok(());
    };
    put_text(alloc, fields, "hl_group", groups.name(paint.group))?;
    put_truth(alloc, fields, "hl_eol", paint.eol)?;
    Ok(())
}

// Puts a key that is set or not behind the rest, where it is told.
fn push_told(
    alloc: Global,
    fields: &mut Fields,
    key: &str,
    is_told: bool,
    is_set: bool,
) -> Result<(), AllocError>
    ensures { OnOk result ((rest : List (Tree × Tree))
        → map pair_content fields.new.items ++ rest
        ≡ map pair_content fields.old.items
        ++ ((if is_told then (text key.now, truth is_set) ∷ [] else []) ++ rest)) }
{
    if !is_told {
        return Ok(());
    }
    put_truth(alloc, fields, key, is_set)?;
    Ok(())
}

// Puts what is told of how undo and removal leave a mark behind the rest.
fn push_undo(alloc: Global, fields: &mut Fields, mark: Mark) -> Result<(), AllocError>
    ensures { OnOk result ((rest : List (Tree × Tree))
        → map pair_content fields.new.items ++ rest
        ≡ map pair_content fields.old.items ++ (undo_details mark ++ rest)) }
{
    push_told(alloc, fields, "undo_restore", !mark.restore, false)?;
    push_told(alloc, fields, "invalidate", mark.invalidate, true)?;
    push_told(alloc, fields, "invalid", mark.hidden, true)?;
    Ok(())
}

// What is told of a part of a virtual text: its text, and the name of its group, where it has one.
fn chunk_value(alloc: Global, groups: &Groups, chunk: &Chunk) -> Result<Value, AllocError>
    requires { IsChunkOf groups.now chunk.now }
    ensures told { IfOk result (λ value. content value ≡ chunk_told groups.now chunk.now) }
    ensures spelled { IfOk result (λ value. HasSpelling (content value)) }
    ensures short { OnOk result (IsChunkTold groups.now chunk.now) }
{
    let text = text_value(alloc, chunk.text.as_slice())?;
    let Some(group) = chunk.group else {
        return Ok(Value::List(vec![in alloc; text]?));
    };
    let name = text_value(alloc, groups.name(group))?;
    Ok(Value::List(vec![in alloc; text, name]?))
}

// And of the parts.
fn chunks_value(alloc: Global, groups: &Groups, chunks: &[Chunk]) -> Result<Value, AllocError>
    requires { All (IsChunkOf groups.now) chunks.now }
    ensures told { IfOk result (λ value. content value
        ≡ array_of (map (chunk_told groups.now) chunks.now)) }
    ensures spelled { IfOk result (λ value. HasSpelling (content value)) }
    ensures short { OnOk result ((length chunks.now < 2 ^ 32)
        × All (IsChunkTold groups.now) chunks.now) }
{
    let _ = spelled_length(chunks.len())?;
    let mut items = Vec::with_capacity(alloc, chunks.len())?;
    for chunk in chunks {
        items.push(chunk_value(alloc, groups, chunk)?)?;
    }
    Ok(Value::List(items))
}

fn place_word(at: At) -> &'static [u8]
    ensures { result.now ≡ place_word at }
{
    match at {
        At::Eol => b"eol".as_slice(),
        At::Overlay => b"overlay".as_slice(),
        At::RightAlign => b"right_align".as_slice(),
    }
}

// Puts what is told of a virtual text, where there is one, behind the rest.
fn push_note(
    alloc: Global,
    fields: &mut Fields,
    groups: &Groups,
    note: Option<&Note>,
) -> Result<(), AllocError>
    requires { IfSome note (λ n. IsNoteOf groups.now n.now) }
    ensures told { OnOk result ((rest : List (Tree × Tree))
        → map pair_content fields.new.items ++ rest
        ≡ map pair_content fields.old.items
        ++ (note_details groups.now (option_map (λ n. n.now) note.entry) ++ rest)) }
    ensures spelled { OnOk result (IsNoteTold groups.now (option_map (λ n. n.now) note.entry)) }
{
    let Some(note) = note else {
        return Ok(());
    };
    let chunks = note.chunks();
    let at = note.at();
    let parts = chunks_value(alloc, groups, chunks)?;
    put(alloc, fields, "virt_text", parts)?;
    put_text(alloc, fields, "virt_text_pos", place_word(at))?;
    Ok(())
}

// The details of a mark of a buffer.
fn details_value(editor: &Editor, live: Live, mark: Mark) -> Result<Value, AllocError>
    requires { IsOfGroups editor.now.stage.groups mark }
    ensures told { IfOk result (λ value. content value ≡ details_of editor.now.stage.groups
        (note_at editor.now.stage.notes live.handle mark.set) mark) }
    ensures spelled { IfOk result (λ value. HasSpelling (content value)) }
{
    let alloc = editor.alloc();
    let groups = editor.groups();
    let note = editor.note(live.handle, mark.set);
    let mut fields = Vec::with_capacity(alloc, 8)?;
    put_natural(alloc, &mut fields, "ns_id", mark.ns)?;
    put_truth(alloc, &mut fields, "right_gravity", mark.right)?;
    put_natural(alloc, &mut fields, "priority", mark.priority)?;
    push_end(alloc, &mut fields, mark.stop)?;
    push_paint(alloc, &mut fields, groups, mark.paint)?;
    push_undo(alloc, &mut fields, mark)?;
    push_note(alloc, &mut fields, groups, note)?;
    Ok(Value::Pairs(fields))
}

// The place of a mark with its details.
fn detailed_place(editor: &Editor, live: Live, mark: Mark) -> Result<Value, AllocError>
    requires { IsOfGroups editor.now.stage.groups mark }
    ensures told { IfOk result (λ value. content value
        ≡ array_of (place_values editor.now.stage live.handle true mark)) }
    ensures spelled { IfOk result (λ value. HasSpelling (content value)) }
{
    let told = details_value(editor, live, mark)?;
    let row = natural_value(mark.start.row);
    let col = natural_value(mark.start.col);
    Ok(Value::List(vec![in editor.alloc(); row, col, told]?))
}

/// The place of a mark of a buffer, and its details where they are wanted; nothing where there is
/// no mark.
pub fn place_value(
    editor: &Editor,
    live: Live,
    details: bool,
    found: Option<Mark>,
) -> Result<Value, AllocError>
    requires { IfSome found (IsOfGroups editor.now.stage.groups) }
    ensures told { IfOk result (λ value. content value
        ≡ array_of (place_values_if_any editor.now.stage live.handle details found)) }
    ensures spelled { IfOk result (λ value. HasSpelling (content value)) }
{
    let alloc = editor.alloc();
    let Some(mark) = found else {
        return Ok(Value::List(Vec::new(alloc)));
    };
    if details {
        return detailed_place(editor, live, mark);
    }
    let row = natural_value(mark.start.row);
    let col = natural_value(mark.start.col);
    Ok(Value::List(vec![in alloc; row, col]?))
}

/// A mark of a buffer as it is listed with its details.
pub fn detailed_value(editor: &Editor, live: Live, mark: Mark) -> Result<Value, AllocError>
    requires { IsOfGroups editor.now.stage.groups mark }
    ensures told { IfOk result
        (λ value. content value ≡ listed_mark editor.now.stage live.handle true mark) }
    ensures spelled { IfOk result (λ value. HasSpelling (content value)) }
{
    let told = details_value(editor, live, mark)?;
    let id = natural_value(mark.id);
    let row = natural_value(mark.start.row);
    let col = natural_value(mark.start.col);
    Ok(Value::List(vec![in editor.alloc(); id, row, col, told]?))
}

/// A mark as it is listed without its details: its id and its place.
pub fn listed_triple(mark: Mark) -> Triple
    ensures { result ≡ listed_triple mark }
{
    Triple {
        first: mark.id,
        second: mark.start.row,
        third: mark.start.col,
    }
}
