//! What is told of highlight groups (help: nvim_get_hl()).
ghost use Rattle.std.specs.Prelude.{◌≡◌, ◌++◌, ℕ, List, Some, map, length, option_and_then, true, IfOk, IfSome, OnOk};
ghost use Rattle.nv_value.specs.Content.{Tree, text, truth};
ghost use Rattle.nv_value.specs.View.{content, pair_content};
ghost use Rattle.nv_msgpack.specs.Shortest.{HasSpelling};
ghost use Rattle.nv_args.specs.Args.{typed_arguments};
ghost use Rattle.nv_args.specs.Arguments.{last_pairs};
ghost use Rattle.nv_args.specs.Rules.{key_of};
ghost use Rattle.nv_hl.specs.Groups.{LinksWithin, group_at, known_id};
ghost use Rattle.nv_model.specs.Answering.{dict_of};
ghost use Rattle.nv_model.specs.Standing.{seen_now};
ghost use Rattle.nv_editor.specs.Doing.{ReadsAnswer};
ghost use Rattle.nv_api_mark.specs.GroupRows.{given_name, group_reply, name_keys, nvim_get_hl};
ghost use Rattle.nv_api_mark.specs.Highlights.{attr_entries, colour_entry, flag_entry, group_entries};

use crate::values::{put_natural, put_text, put_truth};
use nv_args::{Args, Fail, Rule, Takes, bytes_at, naming_fault, out_of_bounds};
use nv_editor::Editor;
use nv_hl::{Attr, Group, Groups};
use nv_value::{Fields, Pair, Value};
use std::alloc::{AllocError, Global};

// Puts a colour behind the rest, where there is one.
fn put_colour(
    alloc: Global,
    fields: &mut Fields,
    key: &str,
    colour: Option<u32>,
) -> Result<(), AllocError>
    ensures { OnOk result ((rest : List (Tree × Tree))
        → map pair_content fields.new.items ++ rest
        ≡ map pair_content fields.old.items
        ++ (colour_entry (text key.now, truth true) colour ++ rest)) }
{
    match colour {
        Some(colour) => put_natural(alloc, fields, key, colour),
        None => Ok(()),
    }
}

// The same of a terminal's colour.
fn put_terminal(
    alloc: Global,
    fields: &mut Fields,
    key: &str,
    colour: Option<u8>,
) -> Result<(), AllocError>
    ensures { OnOk result ((rest : List (Tree × Tree))
        → map pair_content fields.new.items ++ rest
        ≡ map pair_content fields.old.items
        ++ (colour_entry (text key.now, truth true) colour ++ rest)) }
{
    match colour {
        Some(colour) => put_natural(alloc, fields, key, u32::from(colour)),
        None => Ok(()),
    }
}

// Puts a flag behind the rest, where it is set.
fn put_flag(alloc: Global, fields: &mut Fields, key: &str, is_set: bool) -> Result<(), AllocError>
    ensures { OnOk result ((rest : List (Tree × Tree))
        → map pair_content fields.new.items ++ rest
        ≡ map pair_content fields.old.items
        ++ (flag_entry (text key.now, truth true) is_set ++ rest)) }
{
    if is_set {
        put_truth(alloc, fields, key, true)
    } else {
        Ok(())
    }
}

// Puts an attribute behind the rest.
fn put_attr(alloc: Global, fields: &mut Fields, attr: Attr) -> Result<(), AllocError>
    ensures { OnOk result ((rest : List (Tree × Tree))
        → map pair_content fields.new.items ++ rest
        ≡ map pair_content fields.old.items ++ (attr_entries attr ++ rest)) }
{
    put_colour(alloc, fields, "fg", attr.fg)?;
    put_colour(alloc, fields, "bg", attr.bg)?;
    put_colour(alloc, fields, "sp", attr.sp)?;
    put_terminal(alloc, fields, "ctermfg", attr.ctermfg)?;
    put_terminal(alloc, fields, "ctermbg", attr.ctermbg)?;
    put_flag(alloc, fields, "reverse", attr.reverse)?;
    put_flag(alloc, fields, "italic", attr.italic)?;
    put_flag(alloc, fields, "bold", attr.bold)?;
    put_flag(alloc, fields, "underline", attr.underline)?;
    put_flag(alloc, fields, "undercurl", attr.undercurl)?;
    put_flag(alloc, fields, "strikethrough", attr.strikethrough)?;
    Ok(())
}

// Puts what a group is behind the rest: its attribute, or the name that it links to.
fn put_group(
    alloc: Global,
    fields: &mut Fields,
    groups: &Groups,
    group: Group,
) -> Result<(), AllocError>
    requires { LinksWithin (length groups.now) group }
    ensures told { OnOk result ((rest : List (Tree × Tree))
        → map pair_content fields.new.items ++ rest
        ≡ map pair_content fields.old.items ++ (group_entries groups.now (Some group) ++ rest)) }
    ensures spelled { OnOk result (HasSpelling (dict_of (group_entries groups.now (Some group)))) }
{
    match group {
        Group::Plain(attr) => {
            put_attr(alloc, fields, attr)?;
            Ok(())
        }
        Group::Link(id) => put_text(alloc, fields, "link", groups.name(id)),
    }
}

// The group of a name.
fn group_of_name(groups: &Groups, name: &[u8]) -> Option<Group>
    ensures group { result
        ≡ option_and_then (group_at groups.now) (known_id groups.now name.now) }
    ensures linked { IfSome result (LinksWithin (length groups.now)) }
{
    match groups.known(name) {
        Some(id) => groups.group(id),
        None => None,
    }
}

// What is told of the group of a name; nothing of an unknown one.
fn group_value(alloc: Global, groups: &Groups, name: &[u8]) -> Result<Value, AllocError>
    ensures told { IfOk result (λ value. content value ≡ dict_of (group_entries groups.now
        (option_and_then (group_at groups.now) (known_id groups.now name.now)))) }
    ensures spelled { IfOk result (λ value. HasSpelling (content value)) }
{
    let mut fields = Vec::new(alloc);
    let Some(group) = group_of_name(groups, name) else {
        return Ok(Value::Pairs(fields));
    };
    put_group(alloc, &mut fields, groups, group)?;
    Ok(Value::Pairs(fields))
}

// The key that names a group, which is required.
fn name_rules() -> [Rule; 1]
    ensures { map key_of result ≡ name_keys }
{
    [Rule::required("name", Takes::String)]
}

// The name that pairs give.
fn given_name(pairs: &[Pair]) -> &[u8]
    ensures { result.now ≡ given_name (last_pairs (map pair_content pairs.now)) }
{
    match bytes_at(pairs, "name") {
        Some(name) => name,
        None => &[],
    }
}

// What is told of the group that pairs name, in namespace 0.
fn group_told(editor: &Editor, namespace: i64, pairs: &[Pair]) -> Result<Value, Fail>
    ensures row { ReadsAnswer (group_reply editor.now.stage namespace
        (last_pairs (map pair_content pairs.now))) result }
    ensures spelled { IfOk result (λ value. HasSpelling (content value)) }
{
    naming_fault(editor.alloc(), &["name"], &name_rules(), pairs)?;
    if namespace != 0 {
        return Err(out_of_bounds(editor.alloc()));
    }
    Ok(group_value(editor.alloc(), editor.groups(), given_name(pairs))?)
}

/// `nvim_get_hl`: what a group links to, or its colours and flags.
pub fn nvim_get_hl(editor: &Editor, args: &Args) -> Result<Value, Fail>
    ensures row { (session : ℕ)
        → ReadsAnswer (nvim_get_hl (seen_now editor.now) session (typed_arguments args.now))
        result }
    ensures spelled { IfOk result (λ value. HasSpelling (content value)) }
{
    group_told(editor, args.number(0), args.pairs(1))
}
