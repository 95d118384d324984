//! What a mark shows, and the groups that calls name.
ghost use Rattle.std.specs.Prelude.{◌≡◌, ◌+◌, ◌^◌, ◌<◌, List, map, length, true, codes, option_and_then, unwrap_or, IfOk, IfSome, OnOk, flat_map, option_map, option_to_list, ◌++◌, ◌∷◌, [], None, Some, false, ℕ, Option};
ghost use Rattle.nv_value.specs.View.{content, pair_content};
ghost use Rattle.nv_msgpack.specs.Shortest.{HasSpelling};
ghost use Rattle.nv_args.specs.Arguments.{last_pairs};
ghost use Rattle.nv_args.specs.Dicts.{flag_or};
ghost use Rattle.nv_hl.specs.Groups.{HasGroup};
ghost use Rattle.nv_model.specs.Answers.{Fact};
ghost use Rattle.nv_model.specs.Keeping.{most_settings};
ghost use Rattle.nv_editor.specs.Doing.{Does, GivesAnswer};
ghost use Rattle.nv_editor.specs.Sound.{content_at, is_live_buffer};
ghost use Rattle.nv_args.specs.Chunks.{chunk_in};
ghost use Rattle.nv_args.specs.Texts.{has_newline};
ghost use Rattle.std.specs.List.{list_any};
ghost use Rattle.nv_hl.specs.Groups.{known_id};
ghost use Rattle.nv_notes.specs.Notes.{IsNoteOf};
ghost use Rattle.nv_api_mark.specs.Groups.{group_operations, groups_of_names, groups_with, id_among, names_operations};
ghost use Rattle.nv_api_mark.specs.MarkRows.{note_operations, text_has_newline};
ghost use Rattle.nv_api_mark.specs.Setting.{chunk_with, group_id, group_name, group_names, group_number, note_with, text_place_named, text_place_of};
ghost use Rattle.nv_api_mark.specs.inside.Marking.{HasNumbered, IsDraftIn, IsLineOfChunk, draft_answer, mark_by, names_among, names_in, painted};

use crate::setting::{Draft, group_of, has_text, text_items};
use crate::values::natural_value;
use nv_args::{Fail, bytes_at, chunk_in, flag_or, integer_at, integer_between};
use nv_buffer::{Line, Mark, Paint};
use nv_editor::Editor;
use nv_hl::Groups;
use nv_notes::{At, Chunk, Note};
use nv_value::{Pair, Value};
use std::alloc::{AllocError, Global};

/// The priority of a mark for which none is given (help: nvim_buf_set_extmark()).
pub const USUAL_PRIORITY: u32 = 4_096;

/// The id of the group of a name, which is made empty where it isn't known.
pub fn group_named(editor: &mut Editor, name: &[u8]) -> Result<u32, AllocError>
    requires few { length editor.old.stage.groups
        + length (group_operations editor.old.stage.groups name.now) < 2 ^ 32 }
    ensures id { IfOk result (λ id. id ≡ id_among editor.old.stage.groups name.now) }
    ensures there { IfOk result (λ id. HasGroup editor.new.stage.groups id) }
    ensures stage { OnOk result (editor.new.stage ≡ record editor.old.stage {
      groups = groups_with editor.old.stage.groups name.now;
    }) }
    ensures buffers { OnOk result (editor.new.buffers ≡ editor.old.buffers) }
    ensures done { OnOk result
        (Does (group_operations editor.old.stage.groups name.now) editor.old editor.new) }
{
    if let Some(id) = editor.groups().known(name) {
        return Ok(id);
    }
    editor.make_group(name)
}

// The same, where it counts among groups that several names want.
fn group_by_name(editor: &mut Editor, name: &[u8]) -> Result<Option<u32>, AllocError>
    requires { length editor.old.stage.groups
        + length (names_operations editor.old.stage.groups (name.now ∷ [])) < 2 ^ 32 }
    ensures id { IfOk result (λ id. id ≡ Some (id_among editor.old.stage.groups name.now)) }
    ensures there { IfOk result (λ id. IfSome id (HasGroup editor.new.stage.groups)) }
    ensures stage { OnOk result (editor.new.stage ≡ record editor.old.stage {
      groups = groups_of_names editor.old.stage.groups (name.now ∷ []);
    }) }
    ensures buffers { OnOk result (editor.new.buffers ≡ editor.old.buffers) }
    ensures done { OnOk result (Does
        (names_operations editor.old.stage.groups (name.now ∷ [])) editor.old editor.new) }
{
    let id = group_named(editor, name)?;
    Ok(Some(id))
}

// The id of the group that is told by a number, which is there.
fn group_by_number(editor: &Editor, pairs: &[Pair]) -> Option<u32>
    requires few { length editor.now.stage.groups < 2 ^ 32 }
    requires there { HasNumbered editor.now.stage.groups
        (group_number (last_pairs (map pair_content pairs.now))) }
    ensures id { result ≡ group_id editor.now.stage.groups None
        (group_number (last_pairs (map pair_content pairs.now))) }
    ensures there { IfSome result (HasGroup editor.now.stage.groups) }
{
    match integer_at(pairs, "hl_group") {
        Some(number) => Some(number as u32),
        None => None,
    }
}

// The id of the group that a mark shows, where there is one.
fn group_shown(editor: &mut Editor, pairs: &[Pair]) -> Result<Option<u32>, AllocError>
    requires few { length editor.old.stage.groups
        + length (names_operations editor.old.stage.groups
        (option_to_list (group_name (last_pairs (map pair_content pairs.now))))) < 2 ^ 32 }
    requires there { HasNumbered editor.old.stage.groups
        (group_number (last_pairs (map pair_content pairs.now))) }
    ensures id { IfOk result (λ id. id ≡ group_id editor.old.stage.groups
        (group_name (last_pairs (map pair_content pairs.now)))
        (group_number (last_pairs (map pair_content pairs.now)))) }
    ensures there { IfOk result (λ id. IfSome id (HasGroup editor.new.stage.groups)) }
    ensures stage { OnOk result (editor.new.stage ≡ record editor.old.stage {
      groups = groups_of_names editor.old.stage.groups
          (option_to_list (group_name (last_pairs (map pair_content pairs.now))));
    }) }
    ensures buffers { OnOk result (editor.new.buffers ≡ editor.old.buffers) }
    ensures done { OnOk result (Does (names_operations editor.old.stage.groups
        (option_to_list (group_name (last_pairs (map pair_content pairs.now)))))
        editor.old editor.new) }
{
    match bytes_at(pairs, "hl_group") {
        Some(name) => group_by_name(editor, name),
        None => Ok(group_by_number(editor, pairs)),
    }
}

// What a mark shows by the id of its group.
fn paint_of(group: Option<u32>, pairs: &[Pair]) -> Option<Paint>
    ensures { result ≡ painted group (last_pairs (map pair_content pairs.now)) }
{
    match group {
        Some(group) => Some(Paint {
            group,
            eol: flag_or(pairs, "hl_eol", false),
        }),
        None => None,
    }
}

// The group of a part of a virtual text is there; it is made empty where it isn't known.
fn make_group_of(editor: &mut Editor, item: &Value) -> Result<(), AllocError>
    requires { length editor.old.stage.groups
        + length (names_operations editor.old.stage.groups (names_in (content item.now) []))
        < 2 ^ 32 }
    ensures stage { OnOk result (editor.new.stage ≡ record editor.old.stage {
      groups = groups_of_names editor.old.stage.groups (names_in (content item.now) []);
    }) }
    ensures buffers { OnOk result (editor.new.buffers ≡ editor.old.buffers) }
    ensures done { OnOk result (Does
        (names_operations editor.old.stage.groups (names_in (content item.now) []))
        editor.old editor.new) }
{
    let Some(name) = group_of(item) else {
        return Ok(());
    };
    group_by_name(editor, name)?;
    Ok(())
}

// The groups of the parts of a virtual text are there.
fn make_groups(editor: &mut Editor, items: &[Value]) -> Result<(), AllocError>
    requires { length editor.old.stage.groups
        + length (names_operations editor.old.stage.groups (names_among (map content items.now)))
        < 2 ^ 32 }
    ensures stage { OnOk result (editor.new.stage ≡ record editor.old.stage {
      groups = groups_of_names editor.old.stage.groups (names_among (map content items.now));
    }) }
    ensures buffers { OnOk result (editor.new.buffers ≡ editor.old.buffers) }
    ensures done { OnOk result (Does
        (names_operations editor.old.stage.groups (names_among (map content items.now)))
        editor.old editor.new) }
{
    for item in items {
        make_group_of(editor, item)?;
    }
    Ok(())
}

// The id of the group of a name that is there.
fn id_of_group(groups: &Groups, name: Option<&[u8]>) -> Option<u32>
    ensures { result ≡ option_map (λ n. unwrap_or (known_id groups.now n) 0)
        (option_map (λ n. n.now) name.entry) }
{
    match name {
        Some(name) => Some(groups.known(name).unwrap_or(0)),
        None => None,
    }
}

// Puts a part of a virtual text, where a value is one, behind others.
fn push_chunk(
    alloc: Global,
    chunks: &mut Vec<Chunk>,
    groups: &Groups,
    item: &Value,
) -> Result<(), AllocError>
    requires { IsLineOfChunk (content item.now) }
    ensures { OnOk result (chunks.new.items ≡ chunks.old.items
        ++ map (chunk_with groups.now) (option_to_list (chunk_in (content item.now)))) }
{
    let Some(given) = chunk_in(item) else {
        return Ok(());
    };
    let text = Line::from_vec(Vec::from_slice(alloc, given.text)?)?;
    chunks.push(Chunk {
        text,
        group: id_of_group(groups, given.group),
    })?;
    Ok(())
}

fn text_place_named(word: &[u8]) -> At
    ensures { result ≡ text_place_named word.now }
{
    if word == b"overlay".as_slice() {
        At::Overlay
    } else if word == b"right_align".as_slice() {
        At::RightAlign
    } else {
        At::Eol
    }
}

// Where a virtual text is, at the line's end where that isn't told.
fn text_place_of(pairs: &[Pair]) -> At
    ensures { result ≡ text_place_of (last_pairs (map pair_content pairs.now)) }
{
    match bytes_at(pairs, "virt_text_pos") {
        Some(word) => text_place_named(word),
        None => At::Eol,
    }
}

// The parts among values.
fn chunks_with(alloc: Global, groups: &Groups, items: &[Value]) -> Result<Vec<Chunk>, AllocError>
    requires { list_any (λ c. has_newline c.0)
        (flat_map (λ t. option_to_list (chunk_in t)) (map content items.now)) ≡ false }
    ensures { IfOk result (λ chunks. chunks.items ≡ map (chunk_with groups.now)
        (flat_map (λ t. option_to_list (chunk_in t)) (map content items.now))) }
{
    let mut chunks = Vec::with_capacity(alloc, items.len())?;
    for item in items {
        push_chunk(alloc, &mut chunks, groups, item)?;
    }
    Ok(chunks)
}

// The virtual text of a mark, once its groups are there.
fn note_with(editor: &Editor, pairs: &[Pair]) -> Result<Note, AllocError>
    requires { text_has_newline (last_pairs (map pair_content pairs.now)) ≡ false }
    ensures { IfOk result (λ note. note
        ≡ note_with editor.now.stage.groups (last_pairs (map pair_content pairs.now))) }
{
    let groups = editor.groups();
    let items = text_items(pairs);
    let at = text_place_of(pairs);
    let chunks = chunks_with(editor.alloc(), groups, items)?;
    Ok(Note::new(chunks, at))
}

// Puts the virtual text of a mark that was set, where it has one.
fn put_text(editor: &mut Editor, handle: i64, set: u64, pairs: &[Pair]) -> Result<(), AllocError>
    requires texts { text_has_newline (last_pairs (map pair_content pairs.now)) ≡ false }
    requires groups { IsNoteOf editor.old.stage.groups
        (note_with editor.old.stage.groups (last_pairs (map pair_content pairs.now))) }
    ensures { OnOk result (Does (note_operations handle set editor.old.stage.groups
        (last_pairs (map pair_content pairs.now))) editor.old editor.new) }
{
    if !has_text(pairs) {
        return Ok(());
    }
    let note = note_with(editor, pairs)?;
    editor.put_note(handle, set, note)?;
    Ok(())
}

// The mark of a draft that shows a group, or none.
fn mark_by(draft: Draft, group: Option<u32>, pairs: &[Pair]) -> Mark
    ensures { result ≡ mark_by draft group (last_pairs (map pair_content pairs.now)) }
{
    Mark {
        ns: draft.ns,
        id: draft.id,
        start: draft.start,
        right: flag_or(pairs, "right_gravity", true),
        stop: draft.stop,
        paint: paint_of(group, pairs),
        priority: integer_between(pairs, "priority", 0, 65_535).unwrap_or(USUAL_PRIORITY),
        restore: flag_or(pairs, "undo_restore", true),
        invalidate: flag_or(pairs, "invalidate", false),
        hidden: false,
        set: 0,
    }
}

/// Sets the mark of a draft in a live buffer, with its virtual text; its id.
pub fn put_draft(
    editor: &mut Editor,
    handle: i64,
    draft: Draft,
    pairs: &[Pair],
) -> Result<Value, Fail>
    requires live { is_live_buffer editor.old handle ≡ true }
    requires within { IsDraftIn (content_at editor.old handle).text draft }
    requires settings { (content_at editor.old handle).marks.settings < most_settings }
    requires few { length editor.old.stage.groups
        + length (names_operations editor.old.stage.groups
        (group_names (last_pairs (map pair_content pairs.now)))) < 2 ^ 32 }
    requires there { HasNumbered editor.old.stage.groups
        (group_number (last_pairs (map pair_content pairs.now))) }
    requires texts { text_has_newline (last_pairs (map pair_content pairs.now)) ≡ false }
    ensures row { (told : List Fact)
        → GivesAnswer (draft_answer editor.old.stage handle
        (last_pairs (map pair_content pairs.now)) draft)
        result editor.old editor.new told told }
    ensures spelled { IfOk result (λ value. HasSpelling (content value)) }
{
    let group = group_shown(editor, pairs)?;
    make_groups(editor, text_items(pairs))?;
    let mark = mark_by(draft, group, pairs);
    editor.set_mark(handle, mark)?;
    put_text(editor, handle, draft.set, pairs)?;
    Ok(natural_value(draft.id))
}
