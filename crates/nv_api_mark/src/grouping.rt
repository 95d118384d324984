//! The methods on highlight groups (help: api-highlights).
ghost use Rattle.std.specs.Prelude.{◌≡◌, ◌+◌, ◌^◌, ◌<◌, ◌≤◌, ℕ, List, map, length, false, nat_lt, option_map, IfOk, OnOk};
ghost use Rattle.nv_value.specs.View.{content, pair_content};
ghost use Rattle.nv_msgpack.specs.Shortest.{HasSpelling};
ghost use Rattle.nv_args.specs.Args.{typed_arguments};
ghost use Rattle.nv_args.specs.Arguments.{last_pairs};
ghost use Rattle.nv_args.specs.Dicts.{terminal_colour_at};
ghost use Rattle.nv_args.specs.Refusals.{Finds};
ghost use Rattle.nv_args.specs.Rules.{key_of};
ghost use Rattle.nv_hl.specs.Groups.{LinksWithin};
ghost use Rattle.nv_model.specs.Answers.{Fact};
ghost use Rattle.nv_model.specs.Standing.{seen_now};
ghost use Rattle.nv_editor.specs.Doing.{Does, GivesAnswer};
ghost use Rattle.nv_api_mark.specs.Groups.{group_operations, groups_with};
ghost use Rattle.nv_api_mark.specs.GroupRows.{group_answer, group_put_answer, groups_operations, highlight_fault, link_operations, name_fault, nvim_get_hl_id_by_name, nvim_set_hl, stays};
ghost use Rattle.nv_api_mark.specs.Highlights.{attr_in, highlight_keys};
ghost use Rattle.nv_api_mark.specs.inside.Grouping.{group_to_put, putting_answer};

use crate::painting::group_named;
use crate::values::natural_value;
use nv_args::{
    Args, Fail, Rule, Takes, bytes_at, colour_at, flag_or, invalid_value, is_group_name,
    limit_reached, out_of_bounds, terminal_colour_at, unknown_key, wrong_value_of,
};
use nv_editor::Editor;
use nv_hl::{Attr, Group, Groups};
use nv_value::{Pair, Value};
use std::alloc::{AllocError, Global};

// Refuses an argument that is no group's name.
fn check_name(alloc: Global, name: &[u8]) -> Result<(), Fail>
    ensures { Finds result (name_fault name.now) }
{
    if is_group_name(name) {
        Ok(())
    } else {
        Err(invalid_value(alloc, b"name"))
    }
}

// How many groups are made for a name: one where it isn't known.
fn made_for(groups: &Groups, name: &[u8]) -> u64
    ensures count { result ≡ length (group_operations groups.now name.now) }
    ensures few { result ≤ 1 }
{
    if groups.known(name).is_some() { 0 } else { 1 }
}

/// `nvim_get_hl_id_by_name`: the id of a group, which is made empty where it isn't known.
pub fn nvim_get_hl_id_by_name(editor: &mut Editor, args: &Args) -> Result<Value, Fail>
    ensures row { (session : ℕ) (told : List Fact)
        → GivesAnswer (nvim_get_hl_id_by_name (seen_now editor.old) session
        (typed_arguments args.now)) result editor.old editor.new told told }
    ensures spelled { IfOk result (λ value. HasSpelling (content value)) }
{
    let name = args.string(0);
    check_name(editor.alloc(), name)?;
    let groups = editor.groups();
    if u64::from(editor.limits().groups) < u64::from(groups.len()) + made_for(groups, name) {
        return Err(limit_reached(editor.alloc()));
    }
    let id = group_named(editor, name)?;
    Ok(natural_value(id))
}

// The keys of an attribute or a link.
fn highlight_rules() -> [Rule; 13]
    ensures { map key_of result ≡ highlight_keys }
{
    [
        Rule::optional("fg", Takes::Colour),
        Rule::optional("bg", Takes::Colour),
        Rule::optional("sp", Takes::Colour),
        Rule::optional("ctermfg", Takes::TerminalColour),
        Rule::optional("ctermbg", Takes::TerminalColour),
        Rule::flag("reverse"),
        Rule::flag("italic"),
        Rule::flag("bold"),
        Rule::flag("underline"),
        Rule::flag("undercurl"),
        Rule::flag("strikethrough"),
        Rule::optional("link", Takes::String),
        Rule::flag("default"),
    ]
}

// A terminal's colour by its key.
fn terminal_colour(pairs: &[Pair], name: &str) -> Option<u8>
    ensures { result ≡ terminal_colour_at name.now (last_pairs (map pair_content pairs.now)) }
{
    match terminal_colour_at(pairs, name) {
        Some(colour) => Some(colour as u8),
        None => None,
    }
}

// The attribute that pairs give.
fn attr_in(pairs: &[Pair]) -> Attr
    ensures { result ≡ attr_in (last_pairs (map pair_content pairs.now)) }
{
    Attr {
        fg: colour_at(pairs, "fg"),
        bg: colour_at(pairs, "bg"),
        sp: colour_at(pairs, "sp"),
        ctermfg: terminal_colour(pairs, "ctermfg"),
        ctermbg: terminal_colour(pairs, "ctermbg"),
        reverse: flag_or(pairs, "reverse", false),
        italic: flag_or(pairs, "italic", false),
        bold: flag_or(pairs, "bold", false),
        underline: flag_or(pairs, "underline", false),
        undercurl: flag_or(pairs, "undercurl", false),
        strikethrough: flag_or(pairs, "strikethrough", false),
    }
}

// Whether a group stays: it was put before, and is given as a default.
fn stays(groups: &Groups, name: &[u8], pairs: &[Pair]) -> bool
    ensures { result ≡ stays groups.now name.now (last_pairs (map pair_content pairs.now)) }
{
    if !flag_or(pairs, "default", false) {
        return false;
    }
    match groups.known(name) {
        Some(id) => groups.was_put(id),
        None => false,
    }
}

// How many groups are made for a link from a group of a name.
fn made_for_link(groups: &Groups, name: &[u8], link: Option<&[u8]>) -> u64
    ensures count { result ≡ length (link_operations (groups_with groups.now name.now)
        (option_map (λ l. l.now) link.entry)) }
    ensures few { result ≤ 1 }
{
    match link {
        Some(link) => {
            if link == name {
                0
            } else {
                made_for(groups, link)
            }
        }
        None => 0,
    }
}

// Whether the groups that a group and its link want would pass their limit.
fn passes_limit(editor: &Editor, name: &[u8], link: Option<&[u8]>) -> bool
    ensures passes { result ≡ nat_lt editor.now.stage.limits.groups
        (length editor.now.stage.groups + length (groups_operations editor.now.stage.groups name.now
        (option_map (λ l. l.now) link.entry))) }
    ensures few { result ≡ false → length editor.now.stage.groups
        + length (groups_operations editor.now.stage.groups name.now
        (option_map (λ l. l.now) link.entry)) < 2 ^ 32 }
{
    let groups = editor.groups();
    let count = u64::from(groups.len());
    let more = made_for(groups, name) + made_for_link(groups, name, link);
    u64::from(editor.limits().groups) < count + more
}

// What is put of a group: a link, or an attribute.
fn group_given(
    editor: &mut Editor,
    pairs: &[Pair],
    link: Option<&[u8]>,
) -> Result<Group, AllocError>
    requires few { length editor.old.stage.groups
        + length (link_operations editor.old.stage.groups (option_map (λ l. l.now) link)) < 2 ^ 32 }
    ensures group { IfOk result (λ group. group ≡ group_to_put editor.old.stage.groups
        (last_pairs (map pair_content pairs.now)) (option_map (λ l. l.now) link.entry)) }
    ensures linked { IfOk result (LinksWithin (length editor.new.stage.groups)) }
    ensures more { OnOk result
        (length editor.old.stage.groups ≤ length editor.new.stage.groups) }
    ensures done { OnOk result
        (Does (link_operations editor.old.stage.groups (option_map (λ l. l.now) link.entry))
        editor.old editor.new) }
{
    match link {
        Some(link) => {
            let id = group_named(editor, link)?;
            Ok(Group::Link(id))
        }
        None => Ok(Group::Plain(attr_in(pairs))),
    }
}

// Puts a group, with those that are made for it.
fn put_highlight(
    editor: &mut Editor,
    name: &[u8],
    pairs: &[Pair],
    link: Option<&[u8]>,
) -> Result<Value, Fail>
    requires few { length editor.old.stage.groups
        + length (groups_operations editor.old.stage.groups name.now (option_map (λ l. l.now) link))
        < 2 ^ 32 }
    ensures row { (told : List Fact)
        → GivesAnswer (putting_answer editor.old.stage name.now
        (last_pairs (map pair_content pairs.now)) (option_map (λ l. l.now) link.entry))
        result editor.old editor.new told told }
    ensures spelled { IfOk result (λ value. HasSpelling (content value)) }
{
    let id = group_named(editor, name)?;
    let group = group_given(editor, pairs, link)?;
    editor.put_group(id, group);
    Ok(Value::Nil)
}

// Puts a group, unless further groups would pass their limit.
fn put_within_limit(editor: &mut Editor, name: &[u8], pairs: &[Pair]) -> Result<Value, Fail>
    ensures row { (told : List Fact)
        → GivesAnswer (group_put_answer editor.old.stage name.now
        (last_pairs (map pair_content pairs.now)))
        result editor.old editor.new told told }
    ensures spelled { IfOk result (λ value. HasSpelling (content value)) }
{
    let link = bytes_at(pairs, "link");
    if passes_limit(editor, name, link) {
        return Err(limit_reached(editor.alloc()));
    }
    put_highlight(editor, name, pairs, link)
}

// Refuses a group's name and the Dict behind it.
fn check_highlight(alloc: Global, name: &[u8], pairs: &[Pair]) -> Result<(), Fail>
    ensures { Finds result (highlight_fault name.now (last_pairs (map pair_content pairs.now))) }
{
    let rules = highlight_rules();
    unknown_key(alloc, &rules, pairs)?;
    check_name(alloc, name)?;
    wrong_value_of(alloc, &["link"], &rules, pairs)
}

// Puts a group of namespace 0, unless it stays.
fn put_unless_stays(
    editor: &mut Editor,
    namespace: i64,
    name: &[u8],
    pairs: &[Pair],
) -> Result<Value, Fail>
    ensures row { (told : List Fact)
        → GivesAnswer (group_answer editor.old.stage namespace name.now
        (last_pairs (map pair_content pairs.now)))
        result editor.old editor.new told told }
    ensures spelled { IfOk result (λ value. HasSpelling (content value)) }
{
    check_highlight(editor.alloc(), name, pairs)?;
    if namespace != 0 {
        return Err(out_of_bounds(editor.alloc()));
    }
    if stays(editor.groups(), name, pairs) {
        return Ok(Value::Nil);
    }
    put_within_limit(editor, name, pairs)
}

/// `nvim_set_hl`: the group of a name is put, made where it isn't known.
pub fn nvim_set_hl(editor: &mut Editor, args: &Args) -> Result<Value, Fail>
    ensures row { (session : ℕ) (told : List Fact)
        → GivesAnswer (nvim_set_hl (seen_now editor.old) session (typed_arguments args.now))
        result editor.old editor.new told told }
    ensures spelled { IfOk result (λ value. HasSpelling (content value)) }
{
    put_unless_stays(editor, args.number(0), args.string(1), args.pairs(2))
}
