//! The keys that a method's Dict may have, and which values they take.
ghost use Rattle.std.specs.Prelude.{◌≡◌, true, map, find, bytes_eq, option_map};
ghost use Rattle.nv_value.specs.View.{content};
ghost use Rattle.nv_args.specs.Arguments.{string_in};
ghost use Rattle.nv_args.specs.KeyValues.{takes_side, is_side_word};
ghost use Rattle.nv_args.specs.Dicts.{optional_key, flag_key};
ghost use Rattle.nv_args.specs.Maps.{known_key};
ghost use Rattle.nv_args.specs.Rules.{takes_of, key_of};

use crate::chunks::{are_chunks, is_text_place};
use crate::kinds::{BUFFER, TABPAGE, WINDOW, handle_number};
use crate::reading::{colour_of, integer_between, integer_from, integer_of, name_in, truth_of};
use nv_value::Value;

/// Which values a key takes.
#[derive(Clone, Copy)]
pub enum Takes {
    Boolean,
    /// A Boolean that is true.
    True,
    Integer,
    /// An Integer from a least to a greatest one.
    Between(u32, u32),
    /// An Integer from a least one on.
    From(u32),
    String,
    /// A String, or an Integer.
    NameOrNumber,
    Buffer,
    Window,
    Tabpage,
    /// `#rrggbb`, `NONE`, or an Integer from 0 to 16,777,215.
    Colour,
    /// An Integer from 0 to 255.
    TerminalColour,
    /// `left`, `right`, `above` or `below`.
    Side,
    /// An Array of the parts of a virtual text, each an Array of a String or of two.
    Chunks,
    /// `eol`, `overlay` or `right_align`.
    TextPlace,
    /// No value at all.
    Nothing,
    Any,
}

/// A key that a method knows.
#[derive(Clone, Copy)]
pub struct Rule {
    pub name: &'static str,
    pub takes: Takes,
    /// Whether it must be there.
    pub required: bool,
}

impl Takes {
    /// Whether a value is one of these.
    pub fn takes(self, value: &Value) -> bool
        ensures { result ≡ takes_of self (content value.now) }
    {
        match self {
            Takes::Boolean => truth_of(value).is_some(),
            Takes::True => truth_of(value).unwrap_or(false),
            Takes::Integer => integer_of(value).is_some(),
            Takes::Between(low, high) => integer_between(value, low, high).is_some(),
            Takes::From(low) => integer_from(value, low).is_some(),
            Takes::String => name_in(value).is_some(),
            Takes::NameOrNumber => name_in(value).is_some() || integer_of(value).is_some(),
            Takes::Buffer => handle_number(value, BUFFER).is_some(),
            Takes::Window => handle_number(value, WINDOW).is_some(),
            Takes::Tabpage => handle_number(value, TABPAGE).is_some(),
            Takes::Colour => colour_of(value).is_some(),
            Takes::TerminalColour => integer_between(value, 0, 255).is_some(),
            Takes::Side => is_side(value),
            Takes::Chunks => are_chunks(value),
            Takes::TextPlace => is_text_place(value),
            Takes::Nothing => false,
            Takes::Any => true,
        }
    }
}

fn is_side(value: &Value) -> bool
    ensures { result ≡ takes_side (content value.now) }
{
    match name_in(value) {
        Some(word) => is_side_word(word),
        None => false,
    }
}

fn is_side_word(word: &[u8]) -> bool
    ensures { result ≡ is_side_word word.now }
{
    word == b"left".as_slice()
        || word == b"right".as_slice()
        || word == b"above".as_slice()
        || word == b"below".as_slice()
}

impl Rule {
    /// A key that needn't be there.
    pub fn optional(name: &'static str, takes: Takes) -> Rule
        ensures { key_of result ≡ optional_key name.now (takes_of takes) }
    {
        Rule {
            name,
            takes,
            required: false,
        }
    }

    /// A key that must be there.
    pub fn required(name: &'static str, takes: Takes) -> Rule
        ensures { key_of result
            ≡ record { name = name.now; takes = takes_of takes; required = true } }
    {
        Rule {
            name,
            takes,
            required: true,
        }
    }

    /// A key that takes a Boolean, and needn't be there.
    pub fn flag(name: &'static str) -> Rule
        ensures { key_of result ≡ flag_key name.now }
    {
        Rule::optional(name, Takes::Boolean)
    }
}

/// The rule of a key, where the key is known.
pub fn rule_of(rules: &[Rule], key: &Value) -> Option<Rule>
    ensures { option_map key_of result
        ≡ known_key (map key_of rules.now) (string_in (content key.now)) }
{
    match name_in(key) {
        Some(name) => rule_named(rules, name),
        None => None,
    }
}

fn rule_named(rules: &[Rule], name: &[u8]) -> Option<Rule>
    ensures { option_map key_of result
        ≡ find (λ key. bytes_eq key.name name.now) (map key_of rules.now) }
{
    for rule in rules {
        if rule.name.as_bytes() == name {
            return Some(*rule);
        }
    }
    None
}
