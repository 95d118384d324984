//! How a mark is set (help: nvim_buf_set_extmark()).
ghost use Rattle.std.specs.Prelude.{◌≡◌, ◌&&◌, ◌+◌, ◌^◌, ◌<◌, ℕ, ℤ, map, length, codes, false, true, flat_map, option_and_then, option_map, option_to_list, IfOk, IfSome, OnOk, MatchOption, is_some, nat_lt, List, [], Option, ◌++◌, ◌≤◌};
ghost use Rattle.std.specs.List.{list_any};
ghost use Rattle.std.specs.Option.{option_map_or};
ghost use Rattle.nv_value.specs.Content.{Tree};
ghost use Rattle.nv_value.specs.View.{content, pair_content};
ghost use Rattle.nv_msgpack.specs.Handle.{integer_of};
ghost use Rattle.nv_places.specs.Places.{IsPlaceIn, is_before};
ghost use Rattle.nv_marks.specs.declared.extmark.Far.{Far};
ghost use Rattle.nv_buffer.specs.Splices.{IsNarrowText};
ghost use Rattle.nv_args.specs.Args.{typed_arguments};
ghost use Rattle.nv_args.specs.Arguments.{last_pairs, string_in};
ghost use Rattle.nv_args.specs.Rules.{key_of};
ghost use Rattle.nv_args.specs.Dicts.{optional_key};
ghost use Rattle.nv_args.specs.Faults.{unknown_name};
ghost use Rattle.nv_args.specs.Chunks.{chunk_in, chunks_in, takes_text_place};
ghost use Rattle.nv_args.specs.KeyValues.{takes_flag};
ghost use Rattle.nv_args.specs.Texts.{has_newline};
ghost use Rattle.nv_api_mark.specs.Groups.{groups_of_names, groups_with, names_operations};
ghost use Rattle.nv_args.specs.Naming.{naming_fault};
ghost use Rattle.nv_args.specs.Refusals.{Finds, Refuses};
ghost use Rattle.nv_model.specs.Answers.{Answer};
ghost use Rattle.nv_model.specs.Keeping.{most_settings};
ghost use Rattle.nv_model.specs.Seen.{Seen};
ghost use Rattle.nv_model.specs.Standing.{seen_now, seen_buffer_now};
ghost use Rattle.nv_hl.specs.Groups.{empty_group, known_id, with_named};
ghost use Rattle.nv_api_mark.specs.MarkRows.{given_id, group_words, is_no_group, mark_answer, mark_passes_limit, next_mark_id, no_mark_left, text_has_newline};
ghost use Rattle.nv_api_mark.specs.Setting.{group_name, group_names, group_number, has_end, has_text, mark_keys, naming_keys, text_chunks};
ghost use Rattle.nv_api_mark.specs.inside.Steps.{Decides};
ghost use Rattle.nv_api_mark.specs.inside.Marking.{HasNumbered, IsDraftIn, allowed_answer, draft_answer, keyed_answer, keys_with, names_among, names_in, unkeyed_answer, with_end};

use crate::naming::namespace_of_id;
use crate::places::place_by_numbers;
use nv_args::{
    Args, Fail, Rule, Takes, bytes_at, chunk_in, flag_or, integer_at, integer_between, integer_or,
    limit_reached, naming_fault, newline_inside, no_id_left, out_of_bounds, start_after_end,
    unknown_name, value_of,
};
use nv_buffer::{Buffer, Far, Lines, Pos};
use nv_editor::Editor;
use nv_hl::Groups;
use nv_value::{Pair, Value};
use std::alloc::{AllocError, Global};

/// The greatest id of a mark.
const GREATEST_ID: u32 = 4_294_967_295;

/// How many settings of marks a buffer takes.
const MOST_SETTINGS: u64 = 4_611_686_018_427_387_904;

/// Namespace, id and places of a mark that is to be set, and the number of the setting.
#[derive(Clone, Copy)]
pub struct Draft {
    pub ns: u32,
    pub id: u32,
    pub start: Pos,
    pub stop: Option<Far>,
    /// The number of the setting.
    pub set: u64,
}

// Whether a mark has an end.
fn has_end(pairs: &[Pair]) -> bool
    ensures { result ≡ has_end (last_pairs (map pair_content pairs.now)) }
{
    value_of(pairs, "end_row").is_some() || value_of(pairs, "end_col").is_some()
}

// The gravity of an end, which is a key only with an end.
fn gravity_rule(with_end: bool) -> Rule
    ensures { key_of result ≡ optional_key (codes "end_right_gravity")
        (λ t. with_end && takes_flag t) }
{
    if with_end {
        Rule::optional("end_right_gravity", Takes::Boolean)
    } else {
        Rule::optional("end_right_gravity", Takes::Nothing)
    }
}

/// Whether a mark has a virtual text.
pub fn has_text(pairs: &[Pair]) -> bool
    ensures { result ≡ has_text (last_pairs (map pair_content pairs.now)) }
{
    value_of(pairs, "virt_text").is_some()
}

// Where a virtual text is, which is a key only with one.
fn text_place_rule(with_text: bool) -> Rule
    ensures { key_of result ≡ optional_key (codes "virt_text_pos")
        (λ t. with_text && takes_text_place t) }
{
    if with_text {
        Rule::optional("virt_text_pos", Takes::TextPlace)
    } else {
        Rule::optional("virt_text_pos", Takes::Nothing)
    }
}

// The keys of a mark's options, with an end or without, and with a virtual text or without.
fn mark_rules(with_end: bool, with_text: bool) -> [Rule; 13]
    ensures { map key_of result ≡ keys_with with_end with_text }
{
    [
        Rule::optional("id", Takes::Between(1, GREATEST_ID)),
        Rule::optional("end_row", Takes::Integer),
        Rule::optional("end_col", Takes::Integer),
        Rule::optional("hl_group", Takes::NameOrNumber),
        Rule::flag("hl_eol"),
        Rule::optional("priority", Takes::Between(0, 65_535)),
        Rule::flag("right_gravity"),
        gravity_rule(with_end),
        Rule::flag("strict"),
        Rule::flag("undo_restore"),
        Rule::flag("invalidate"),
        Rule::optional("virt_text", Takes::Chunks),
        text_place_rule(with_text),
    ]
}

// The end of a mark, where one is wanted.
fn stop_given(alloc: Global, text: &Lines, start: Pos, pairs: &[Pair]) -> Result<Option<Far>, Fail>
    requires narrow { IsNarrowText text.now }
    ensures row { (next : Option Far → Answer) → Decides
        (with_end text.now start (last_pairs (map pair_content pairs.now)) next) next result }
    ensures within { IfOk result (λ stop. IfSome stop (λ far. IsPlaceIn text.now far.pos)) }
{
    if !has_end(pairs) {
        return Ok(None);
    }
    let strict = flag_or(pairs, "strict", true);
    let row = integer_or(pairs, "end_row", i64::from(start.row));
    let col = integer_or(pairs, "end_col", 0);
    match place_by_numbers(strict, text, row, col) {
        Some(pos) => Ok(Some(Far {
            pos,
            right: flag_or(pairs, "end_right_gravity", false),
        })),
        None => Err(out_of_bounds(alloc)),
    }
}

// Whether an end lies before its start.
fn is_reversed(start: Pos, stop: Option<Far>) -> bool
    ensures { result ≡ option_map_or (λ far. is_before far.pos start) stop false }
{
    match stop {
        Some(far) => far.pos.is_before(start),
        None => false,
    }
}

// The id that a mark gets; none where none is left, or no number for a setting more.
fn id_given(buffer: &Buffer, ns: u32, pairs: &[Pair]) -> Option<u32>
    ensures given { MatchOption result
        (no_mark_left (seen_buffer_now buffer.now) ns
        (given_id (last_pairs (map pair_content pairs.now))) ≡ true)
        (λ id. (no_mark_left (seen_buffer_now buffer.now) ns
        (given_id (last_pairs (map pair_content pairs.now))) ≡ false)
        × (id ≡ next_mark_id (seen_buffer_now buffer.now) ns
        (given_id (last_pairs (map pair_content pairs.now))))) }
    ensures few { IfSome result (λ id. buffer.now.marks.settings < most_settings) }
{
    if MOST_SETTINGS <= buffer.marks().settings() {
        return None;
    }
    match integer_between(pairs, "id", 1, GREATEST_ID) {
        Some(id) => Some(id),
        None => buffer.marks().next_id(ns),
    }
}

// Whether a number is no group's.
fn is_no_group(groups: &Groups, number: Option<i64>) -> bool
    ensures bare { result ≡ is_no_group groups.now number }
    ensures there { result ≡ false → HasNumbered groups.now number }
{
    match number {
        Some(id) => id < 1 || id > i64::from(groups.len()),
        None => false,
    }
}

// No group has this number.
fn unknown_group(alloc: Global, number: Option<i64>) -> Fail
    ensures { Refuses result (unknown_name (group_words number)) }
{
    let Some(number) = number else {
        return unknown_name(alloc, &[]);
    };
    match format!(in alloc; "{number}") {
        Ok(words) => unknown_name(alloc, words.as_bytes()),
        Err(_) => Fail::NoMemory,
    }
}

// Whether a part of the virtual text holds a line feed.
fn text_has_newline(pairs: &[Pair]) -> bool
    ensures { result ≡ text_has_newline (last_pairs (map pair_content pairs.now)) }
{
    any_newline(text_items(pairs))
}

fn any_newline(items: &[Value]) -> bool
    ensures { result ≡ list_any (λ c. has_newline c.0)
        (flat_map (λ t. option_to_list (chunk_in t)) (map content items.now)) }
{
    for item in items {
        if holds_newline(item) {
            return true;
        }
    }
    false
}

fn holds_newline(item: &Value) -> bool
    ensures { result ≡ option_map_or (λ c. has_newline c.0) (chunk_in (content item.now)) false }
{
    match chunk_in(item) {
        Some(chunk) => chunk.text.contains(&b'\n'),
        None => false,
    }
}

// Notes that a group of this name is wanted, where it isn't known.
fn want_group(groups: &Groups, wanted: &mut Groups, name: &[u8]) -> Result<(), AllocError>
    ensures { OnOk result (groups.now ++ wanted.new
        ≡ groups_with (groups.now ++ wanted.old) name.now) }
{
    if is_known(groups, name) {
        return Ok(());
    }
    add_wanted(wanted, name)?;
    Ok(())
}

fn is_known(groups: &Groups, name: &[u8]) -> bool
    ensures { result ≡ is_some (known_id groups.now name.now) }
{
    groups.known(name).is_some()
}

fn add_wanted(wanted: &mut Groups, name: &[u8]) -> Result<(), AllocError>
    ensures { OnOk result (wanted.new ≡ with_named wanted.old (empty_group name.now)) }
{
    if wanted.len() == u32::MAX {
        return Err(AllocError);
    }
    wanted.id_of(name)?;
    Ok(())
}

// The same of the group that a mark shows, where it is told by a name.
fn want_shown(groups: &Groups, wanted: &mut Groups, pairs: &[Pair]) -> Result<(), AllocError>
    ensures { OnOk result (groups.now ++ wanted.new ≡ groups_of_names (groups.now ++ wanted.old)
        (option_to_list (group_name (last_pairs (map pair_content pairs.now))))) }
{
    match bytes_at(pairs, "hl_group") {
        Some(name) => want_group(groups, wanted, name),
        None => Ok(()),
    }
}

// And the group of a part of a virtual text.
fn want_group_of(groups: &Groups, wanted: &mut Groups, item: &Value) -> Result<(), AllocError>
    ensures { OnOk result (groups.now ++ wanted.new
        ≡ groups_of_names (groups.now ++ wanted.old) (names_in (content item.now) [])) }
{
    match group_of(item) {
        Some(name) => want_group(groups, wanted, name),
        None => Ok(()),
    }
}

// And those of the parts of a virtual text.
fn want_groups(groups: &Groups, wanted: &mut Groups, items: &[Value]) -> Result<(), AllocError>
    ensures { OnOk result (groups.now ++ wanted.new
        ≡ groups_of_names (groups.now ++ wanted.old) (names_among (map content items.now))) }
{
    for item in items {
        want_group_of(groups, wanted, item)?;
    }
    Ok(())
}

// The groups that are made for a mark: of each name that isn't known one.
fn groups_wanted(alloc: Global, groups: &Groups, pairs: &[Pair]) -> Result<Groups, AllocError>
    ensures { IfOk result (λ wanted. groups.now ++ wanted
        ≡ groups_of_names groups.now (group_names (last_pairs (map pair_content pairs.now)))) }
{
    let mut wanted = Groups::none(alloc);
    want_shown(groups, &mut wanted, pairs)?;
    want_groups(groups, &mut wanted, text_items(pairs))?;
    Ok(wanted)
}

/// The name of the group of a part of a virtual text, where it has one.
pub fn group_of(item: &Value) -> Option<&[u8]>
    ensures { option_map (λ name. name.now) result
        ≡ option_and_then (λ c. c.1) (chunk_in (content item.now)) }
{
    match chunk_in(item) {
        Some(chunk) => chunk.group,
        None => None,
    }
}

// The parts of a virtual text as values.
fn items_in(value: &Value) -> &[Value]
    ensures { flat_map (λ t. option_to_list (chunk_in t)) (map content result.now)
        ≡ chunks_in (content value.now) }
{
    match value {
        Value::List(items) => items.as_slice(),
        _ => &[],
    }
}

/// The parts of the virtual text as values; none where there is no text.
pub fn text_items(pairs: &[Pair]) -> &[Value]
    ensures { flat_map (λ t. option_to_list (chunk_in t)) (map content result.now)
        ≡ text_chunks (last_pairs (map pair_content pairs.now)) }
{
    match value_of(pairs, "virt_text") {
        Some(value) => items_in(value),
        None => &[],
    }
}

// Whether so many more would pass a limit.
fn is_passed(limit: u32, there: u32, more: u32) -> bool
    ensures passes { result ≡ nat_lt limit (there + more) }
    ensures few { result ≡ false → there + more < 2 ^ 32 }
{
    u64::from(limit) < u64::from(there) + u64::from(more)
}

// Whether the groups that are made for a mark would pass their limit.
fn groups_pass_limit(editor: &Editor, pairs: &[Pair]) -> Result<bool, AllocError>
    ensures passes { IfOk result (λ passes. passes ≡ nat_lt editor.now.stage.limits.groups
        (length editor.now.stage.groups + length (names_operations editor.now.stage.groups
        (group_names (last_pairs (map pair_content pairs.now)))))) }
    ensures few { IfOk result (λ passes. passes ≡ false → length editor.now.stage.groups
        + length (names_operations editor.now.stage.groups
        (group_names (last_pairs (map pair_content pairs.now)))) < 2 ^ 32) }
{
    let groups = editor.groups();
    let limits = editor.limits();
    let wanted = groups_wanted(editor.alloc(), groups, pairs)?;
    let there = groups.len();
    let more = wanted.len();
    let passes = is_passed(limits.groups, there, more);
    Ok(passes)
}

// Whether a further mark, or further groups, would pass their limit.
fn passes_limit(
    editor: &Editor,
    buffer: &Buffer,
    ns: u32,
    id: u32,
    pairs: &[Pair],
) -> Result<bool, AllocError>
    ensures passes { IfOk result (λ passes. passes
        ≡ mark_passes_limit editor.now.stage (seen_buffer_now buffer.now) ns id
        (group_names (last_pairs (map pair_content pairs.now)))) }
    ensures few { IfOk result (λ passes. passes ≡ false → length editor.now.stage.groups
        + length (names_operations editor.now.stage.groups
        (group_names (last_pairs (map pair_content pairs.now)))) < 2 ^ 32) }
{
    let full = groups_pass_limit(editor, pairs)?;
    if full {
        return Ok(true);
    }
    let marks = buffer.marks();
    Ok(marks.find(ns, id).is_none() && marks.len() >= editor.limits().marks as usize)
}

// A mark at its places, of which the texts were looked at.
fn draft_allowed(
    editor: &Editor,
    buffer: &Buffer,
    ns: u32,
    start: Pos,
    stop: Option<Far>,
    pairs: &[Pair],
) -> Result<Draft, Fail>
    requires { text_has_newline (last_pairs (map pair_content pairs.now)) ≡ false }
    ensures row { (n : ℤ) → Decides
        (allowed_answer (seen_now editor.now) n (seen_buffer_now buffer.now) ns start stop
        (last_pairs (map pair_content pairs.now)))
        (draft_answer editor.now.stage n (last_pairs (map pair_content pairs.now))) result }
    ensures start { IfOk result (λ d. d.start ≡ start) }
    ensures stop { IfOk result (λ d. d.stop ≡ stop) }
    ensures settings { IfOk result (λ d. buffer.now.marks.settings < most_settings) }
    ensures texts { IfOk result
        (λ d. text_has_newline (last_pairs (map pair_content pairs.now)) ≡ false) }
    ensures there { IfOk result (λ d. HasNumbered editor.now.stage.groups
        (group_number (last_pairs (map pair_content pairs.now)))) }
    ensures few { IfOk result (λ d. length editor.now.stage.groups
        + length (names_operations editor.now.stage.groups
        (group_names (last_pairs (map pair_content pairs.now)))) < 2 ^ 32) }
{
    let alloc = editor.alloc();
    let Some(id) = id_given(buffer, ns, pairs) else {
        return Err(no_id_left(alloc));
    };
    let number = integer_at(pairs, "hl_group");
    if is_no_group(editor.groups(), number) {
        return Err(unknown_group(alloc, number));
    }
    let passes = passes_limit(editor, buffer, ns, id, pairs)?;
    if passes {
        return Err(limit_reached(alloc));
    }
    let set = buffer.marks().settings() + 1;
    Ok(Draft {
        ns,
        id,
        start,
        stop,
        set,
    })
}

// A mark at its places.
fn draft_at(
    editor: &Editor,
    buffer: &Buffer,
    ns: u32,
    start: Pos,
    stop: Option<Far>,
    pairs: &[Pair],
) -> Result<Draft, Fail>
    ensures row { (n : ℤ) → Decides
        (mark_answer (seen_now editor.now) n (seen_buffer_now buffer.now) ns start stop
        (last_pairs (map pair_content pairs.now)))
        (draft_answer editor.now.stage n (last_pairs (map pair_content pairs.now))) result }
    ensures start { IfOk result (λ d. d.start ≡ start) }
    ensures stop { IfOk result (λ d. d.stop ≡ stop) }
    ensures settings { IfOk result (λ d. buffer.now.marks.settings < most_settings) }
    ensures texts { IfOk result
        (λ d. text_has_newline (last_pairs (map pair_content pairs.now)) ≡ false) }
    ensures there { IfOk result (λ d. HasNumbered editor.now.stage.groups
        (group_number (last_pairs (map pair_content pairs.now)))) }
    ensures few { IfOk result (λ d. length editor.now.stage.groups
        + length (names_operations editor.now.stage.groups
        (group_names (last_pairs (map pair_content pairs.now)))) < 2 ^ 32) }
{
    if is_reversed(start, stop) {
        return Err(start_after_end(editor.alloc()));
    }
    if text_has_newline(pairs) {
        return Err(newline_inside(editor.alloc()));
    }
    draft_allowed(editor, buffer, ns, start, stop, pairs)
}

// The mark that a call sets, its keys looked at.
fn draft_by(editor: &Editor, buffer: &Buffer, args: &Args, pairs: &[Pair]) -> Result<Draft, Fail>
    ensures row { (n : ℤ) → Decides
        (unkeyed_answer (seen_now editor.now) n (seen_buffer_now buffer.now)
        (typed_arguments args.now) (last_pairs (map pair_content pairs.now)))
        (draft_answer editor.now.stage n (last_pairs (map pair_content pairs.now))) result }
    ensures within { IfOk result (IsDraftIn buffer.now.text) }
    ensures settings { IfOk result (λ d. buffer.now.marks.settings < most_settings) }
    ensures texts { IfOk result
        (λ d. text_has_newline (last_pairs (map pair_content pairs.now)) ≡ false) }
    ensures there { IfOk result (λ d. HasNumbered editor.now.stage.groups
        (group_number (last_pairs (map pair_content pairs.now)))) }
    ensures few { IfOk result (λ d. length editor.now.stage.groups
        + length (names_operations editor.now.stage.groups
        (group_names (last_pairs (map pair_content pairs.now)))) < 2 ^ 32) }
{
    let alloc = editor.alloc();
    let Some(ns) = namespace_of_id(editor, args.number(1)) else {
        return Err(out_of_bounds(alloc));
    };
    let text = buffer.text();
    let strict = flag_or(pairs, "strict", true);
    let Some(start) = place_by_numbers(strict, text, args.number(2), args.number(3)) else {
        return Err(out_of_bounds(alloc));
    };
    let stop = stop_given(alloc, text, start, pairs)?;
    draft_at(editor, buffer, ns, start, stop, pairs)
}

// Refuses keys that the options of a mark don't take.
fn option_fault(alloc: Global, pairs: &[Pair]) -> Result<(), Fail>
    ensures { Finds result (naming_fault naming_keys
        (mark_keys (last_pairs (map pair_content pairs.now)))
        (last_pairs (map pair_content pairs.now))) }
{
    match pairs {
        [] => Ok(()),
        _ => {
            let ends = has_end(pairs);
            let texts = has_text(pairs);
            let rules = mark_rules(ends, texts);
            naming_fault(alloc, &["hl_group", "virt_text"], &rules, pairs)
        }
    }
}

/// The mark that a call sets.
pub fn draft_given(
    editor: &Editor,
    buffer: &Buffer,
    args: &Args,
    pairs: &[Pair],
) -> Result<Draft, Fail>
    ensures row { (n : ℤ) → Decides
        (keyed_answer (seen_now editor.now) n (seen_buffer_now buffer.now)
        (typed_arguments args.now) (last_pairs (map pair_content pairs.now)))
        (draft_answer editor.now.stage n (last_pairs (map pair_content pairs.now))) result }
    ensures within { IfOk result (IsDraftIn buffer.now.text) }
    ensures settings { IfOk result (λ d. buffer.now.marks.settings < most_settings) }
    ensures texts { IfOk result
        (λ d. text_has_newline (last_pairs (map pair_content pairs.now)) ≡ false) }
    ensures there { IfOk result (λ d. HasNumbered editor.now.stage.groups
        (group_number (last_pairs (map pair_content pairs.now)))) }
    ensures few { IfOk result (λ d. length editor.now.stage.groups
        + length (names_operations editor.now.stage.groups
        (group_names (last_pairs (map pair_content pairs.now)))) < 2 ^ 32) }
{
    option_fault(editor.alloc(), pairs)?;
    draft_by(editor, buffer, args, pairs)
}
