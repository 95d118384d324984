//! The options of a buffer (help: options).
ghost use Rattle.std.specs.Prelude.{◌≡◌, ◌∷◌, [], ℕ, ℤ, true, map, bytes_eq, option_map, option_and_then, ◌≤◌, IfOk, IfSome};
ghost use Rattle.nv_value.specs.Content.{nil};
ghost use Rattle.nv_value.specs.View.{content, pair_content};
ghost use Rattle.nv_msgpack.specs.Shortest.{HasSpelling};
ghost use Rattle.nv_msgpack.specs.Handle.{integer_of};
ghost use Rattle.nv_args.specs.Args.{typed_arguments};
ghost use Rattle.nv_args.specs.Arguments.{last_pairs};
ghost use Rattle.nv_args.specs.Reading.{object_at};
ghost use Rattle.nv_args.specs.Refusals.{Finds};
ghost use Rattle.nv_args.specs.Rules.{key_of};
ghost use Rattle.nv_model.specs.Answers.{Answer, on_buffer};
ghost use Rattle.nv_model.specs.Seen.{SeenBuffer};
ghost use Rattle.nv_model.specs.Standing.{seen_now, seen_buffer_now};
ghost use Rattle.nv_editor.specs.Doing.{Does, GivesAnswer, ReadsAnswer};
ghost use Rattle.nv_editor.specs.Sound.{content_at, is_live_buffer};
ghost use Rattle.nv_api_buf.specs.OptionRows.{nvim_get_option_value, nvim_set_option_value, option_keys, option_named, option_buffer, tabstop_of, value_fault};
ghost use Rattle.nv_api_buf.specs.inside.Deciding.{Leaves};
ghost use Rattle.nv_api_buf.specs.inside.Settings.{option_of, operation_of, IsPuttable};
ghost use Rattle.nv_api_buf.specs.inside.Optioning.{value_answer};

use crate::finding::{Found, Live, found_of};
use nv_args::{
    Args, Fail, Rule, Takes, buffer_at as handle_at, invalid_value, map_fault, truth_of,
    unknown_key, unknown_name, wrong_value,
};
use nv_buffer::Buffer;
use nv_editor::{Editor, Happened};
use nv_value::{Pair, Value};
use std::alloc::Global;

/// An option of a buffer (help: 'modifiable', 'modified', 'buflisted', 'tabstop').
#[derive(Clone, Copy)]
pub enum Setting {
    Modifiable,
    Modified,
    Listed,
    Tabstop,
}

/// A value that is put for an option.
#[derive(Clone, Copy)]
pub enum Put {
    OfModifiable(bool),
    OfModified(bool),
    OfListed(bool),
    OfTabstop(u32),
}

// Whether a name is this word.
fn is_word(word: &str, name: &[u8]) -> bool
    ensures { result ≡ bytes_eq word.now name.now }
{
    word.as_bytes() == name
}

// The option of a name.
fn setting_named(name: &[u8]) -> Option<Setting>
    ensures { option_map option_of result ≡ option_named name.now }
{
    if is_word("modifiable", name) {
        return Some(Setting::Modifiable);
    }
    if is_word("modified", name) {
        return Some(Setting::Modified);
    }
    if is_word("buflisted", name) {
        return Some(Setting::Listed);
    }
    if is_word("tabstop", name) {
        return Some(Setting::Tabstop);
    }
    None
}

impl Setting {
    fn name(self) -> &'static str
        ensures name { result.now ≡ (option_of self).name }
    {
        match self {
            Setting::Modifiable => "modifiable",
            Setting::Modified => "modified",
            Setting::Listed => "buflisted",
            Setting::Tabstop => "tabstop",
        }
    }

    // Its value in a buffer.
    fn value(self, buffer: &Buffer) -> Value
        ensures value { content result ≡ (option_of self).get (seen_buffer_now buffer.now) }
        ensures spelled { HasSpelling (content result) }
    {
        match self {
            Setting::Modifiable => Value::Truth(buffer.modifiable()),
            Setting::Modified => Value::Truth(buffer.modified()),
            Setting::Listed => Value::Truth(buffer.listed()),
            Setting::Tabstop => Value::Int(buffer.tabstop() as i64),
        }
    }

    // What a value given for it puts, where it takes the value.
    fn put_of(self, value: &Value) -> Option<Put>
        ensures row { (n : ℤ) → option_map (operation_of n) result
            ≡ (option_of self).put n (content value.now) }
        ensures puttable { IfSome result IsPuttable }
    {
        match self {
            Setting::Modifiable => match truth_of(value) {
                Some(on) => Some(Put::OfModifiable(on)),
                None => None,
            },
            Setting::Modified => match truth_of(value) {
                Some(on) => Some(Put::OfModified(on)),
                None => None,
            },
            Setting::Listed => match truth_of(value) {
                Some(on) => Some(Put::OfListed(on)),
                None => None,
            },
            Setting::Tabstop => match cells_of(value) {
                Some(cells) => Some(Put::OfTabstop(cells)),
                None => None,
            },
        }
    }
}

// The cells of a tabstop.
fn cells_of(value: &Value) -> Option<u32>
    ensures row { result ≡ option_and_then tabstop_of (integer_of (content value.now)) }
    ensures range { IfSome result (λ cells. (1 ≤ cells) × (cells ≤ 9999)) }
{
    match value {
        Value::Int(number) => cells_in(*number),
        _ => None,
    }
}

fn cells_in(number: i64) -> Option<u32>
    ensures row { result ≡ tabstop_of number }
    ensures range { IfSome result (λ cells. (1 ≤ cells) × (cells ≤ 9999)) }
{
    if 1 <= number && number <= 9999 {
        Some(number as u32)
    } else {
        None
    }
}

// The keys that say whose option is meant.
fn option_rules() -> [Rule; 2]
    ensures { map key_of result ≡ option_keys }
{
    [
        Rule::optional("buf", Takes::Buffer),
        Rule::optional("scope", Takes::String),
    ]
}

// The live buffer whose option is meant, lent.
fn found_by<'a>(editor: &'a Editor, pairs: &[Pair]) -> Result<Found<'a>, Fail>
    ensures row { (next : ℤ → SeenBuffer → Answer)
        → Leaves (on_buffer (seen_now editor.now)
        (option_buffer (last_pairs (map pair_content pairs.now))) next)
        (λ found. next found.live.handle
        (seen_buffer_now (content_at editor.now found.live.handle))) result }
    ensures live { IfOk result (λ found. is_live_buffer editor.now found.live.handle ≡ true) }
    ensures buffer { IfOk result
        (λ found. found.buffer.now ≡ content_at editor.now found.live.handle) }
{
    found_of(editor, handle_at(pairs, "buf").unwrap_or(0))
}

// The value of the option of a name.
fn option_value(alloc: Global, buffer: &Buffer, name: &[u8]) -> Result<Value, Fail>
    ensures row { ReadsAnswer (value_answer (seen_buffer_now buffer.now) name.now) result }
    ensures spelled { IfOk result (λ value. HasSpelling (content value)) }
{
    match setting_named(name) {
        Some(setting) => Ok(setting.value(buffer)),
        None => Err(unknown_name(alloc, name)),
    }
}

/// `nvim_get_option_value`: the value of a buffer's option.
pub fn nvim_get_option_value(editor: &Editor, args: &Args) -> Result<Value, Fail>
    ensures row { (session : ℕ) → ReadsAnswer (nvim_get_option_value (seen_now editor.now) session
        (typed_arguments args.now)) result }
    ensures spelled { IfOk result (λ value. HasSpelling (content value)) }
{
    let name = args.string(0);
    let pairs = args.pairs(1);
    let found = found_by(editor, pairs)?;
    let rules = option_rules();
    map_fault(editor.alloc(), &rules, pairs)?;
    option_value(editor.alloc(), found.buffer, name)
}

// The Object in the second argument, and nil where there is none.
fn object_given<'a>(args: &'a Args, none: &'a Value) -> &'a Value
    requires { content none.now ≡ nil }
    ensures { content result.now ≡ object_at (typed_arguments args.now) 1 }
{
    match args.object(1) {
        Some(value) => value,
        None => none,
    }
}

// What a value given for an option puts, and nothing where there is no such option. A value that
// it doesn't take is refused.
fn put_given(alloc: Global, setting: Option<Setting>, value: &Value) -> Result<Option<Put>, Fail>
    ensures row { (n : ℤ) → Finds result
        (value_fault n (content value.now) (option_map option_of setting)) }
    ensures put { IfOk result (λ put. (n : ℤ) → option_map (operation_of n) put
        ≡ option_and_then (λ o. o.put n (content value.now)) (option_map option_of setting)) }
    ensures puttable { IfOk result (λ put. IfSome put IsPuttable) }
{
    let Some(setting) = setting else {
        return Ok(None);
    };
    match setting.put_of(value) {
        Some(put) => Ok(Some(put)),
        None => Err(invalid_value(alloc, setting.name().as_bytes())),
    }
}

// Puts an option of a live buffer.
fn put_option(editor: &mut Editor, live: Live, put: Put)
    requires live { is_live_buffer editor.old live.handle ≡ true }
    requires puttable { IsPuttable put }
    ensures { Does (operation_of live.handle put ∷ []) editor.old editor.new }
{
    match put {
        Put::OfModifiable(on) => editor.put_modifiable(live.handle, on),
        Put::OfModified(on) => editor.put_modified(live.handle, on),
        Put::OfListed(on) => editor.put_listed(live.handle, on),
        Put::OfTabstop(cells) => editor.put_tabstop(live.handle, cells),
    }
}

/// `nvim_set_option_value`: the value of a buffer's option is put.
pub fn nvim_set_option_value(
    editor: &mut Editor,
    args: &Args,
    happened: &mut Happened,
) -> Result<Value, Fail>
    ensures row { (session : ℕ) → GivesAnswer (nvim_set_option_value (seen_now editor.old) session
        (typed_arguments args.now)) result editor.old editor.new happened.old happened.new }
    ensures spelled { IfOk result (λ value. HasSpelling (content value)) }
{
    let _ = happened.len();
    let name = args.string(0);
    let pairs = args.pairs(2);
    let found = found_by(editor, pairs)?;
    let live = found.live;
    let rules = option_rules();
    unknown_key(editor.alloc(), &rules, pairs)?;
    let none = Value::Nil;
    let put = put_given(
        editor.alloc(),
        setting_named(name),
        object_given(args, &none),
    )?;
    wrong_value(editor.alloc(), &rules, pairs)?;
    let Some(put) = put else {
        return Err(unknown_name(editor.alloc(), name));
    };
    put_option(editor, live, put);
    Ok(Value::Nil)
}
