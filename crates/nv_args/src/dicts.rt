//! The fault of a Dict, and its values by their keys. Of pairs with one key the last counts.
ghost use Rattle.std.specs.Prelude.{◌≡◌, map, bytes_eq, option_map, Some, IfOk};
ghost use Rattle.std.specs.List.{list_any};
ghost use Rattle.nv_value.specs.View.{content, pair_content};
ghost use Rattle.nv_args.specs.Arguments.{string_in, last_pairs};
ghost use Rattle.nv_args.specs.Faults.{invalid_key, invalid_value};
ghost use Rattle.nv_args.specs.Maps.{has_name, value_of, unknown_key, wrong_value, missing_key, map_fault, takes_value, known_key};
ghost use Rattle.nv_args.specs.Naming.{is_group_name, is_one_of, names_group, names_groups, wrong_value_of, naming_fault};
ghost use Rattle.nv_args.specs.Refusals.{Finds};
ghost use Rattle.nv_args.specs.Rules.{key_of};
ghost use Rattle.nv_args.specs.inside.Looking.{are_faultless, are_known, is_faultless, is_known, stands_in, is_key_among, stands_among, fault_after, misnames, pair_fault, fault_that_counts};

use crate::chunks::all_name_groups;
use crate::faults::{Fail, invalid_key, invalid_value};
use crate::reading::name_in;
use crate::rules::{Rule, rule_of};
use nv_value::{Pair, Value};
use std::alloc::{AllocError, Global};
use std::collections::BTreeSet;

// The longest name that a highlight group may have, in bytes.
const LONGEST_GROUP_NAME: usize = 200;

/// The value of a key, where it is there.
#[inline(always)]
pub fn value_of<'a>(pairs: &'a [Pair], name: &str) -> Option<&'a Value>
    ensures { option_map (λ v. content v.now) result
        ≡ value_of name.now (last_pairs (map pair_content pairs.now)) }
{
    match pairs {
        [] => None,
        _ => last_value_of(pairs, name),
    }
}

// The same, by a look at each pair, the last one first.
fn last_value_of<'a>(pairs: &'a [Pair], name: &str) -> Option<&'a Value>
    ensures { option_map (λ v. content v.now) result
        ≡ value_of name.now (last_pairs (map pair_content pairs.now)) }
{
    let mut left = pairs.len();
    while left > 0 {
        left -= 1;
        let pair = &pairs[left];
        if has_name(name, pair) {
            return Some(&pair.value);
        }
    }
    None
}

fn has_name(name: &str, pair: &Pair) -> bool
    ensures { result ≡ has_name name.now (pair_content pair.now) }
{
    match name_in(&pair.key) {
        Some(bytes) => bytes == name.as_bytes(),
        None => false,
    }
}

/// Refuses the first unknown key. Memory is taken only where there is one.
pub fn unknown_key(alloc: Global, rules: &[Rule], pairs: &[Pair]) -> Result<(), Fail>
    ensures { Finds result (unknown_key (map key_of rules.now)
        (last_pairs (map pair_content pairs.now))) }
{
    if are_known(rules, pairs) {
        return Ok(());
    }
    match first_unknown(alloc, rules, pairs)? {
        Some(name) => Err(invalid_key(alloc, name)),
        None => Ok(()),
    }
}

fn are_known(rules: &[Rule], pairs: &[Pair]) -> bool
    ensures { result ≡ are_known (map key_of rules.now) (map pair_content pairs.now) }
{
    for pair in pairs {
        if !is_known(rules, pair) {
            return false;
        }
    }
    true
}

fn is_known(rules: &[Rule], pair: &Pair) -> bool
    ensures { result ≡ is_known (map key_of rules.now) (pair_content pair.now) }
{
    rule_of(rules, &pair.key).is_some()
}

// The first unknown key, empty where it is no string.
fn first_unknown<'a>(
    alloc: Global,
    rules: &[Rule],
    pairs: &'a [Pair],
) -> Result<Option<&'a [u8]>, AllocError>
    ensures { IfOk result (λ found. option_map (λ name. invalid_key name.now) found
        ≡ unknown_key (map key_of rules.now) (last_pairs (map pair_content pairs.now))) }
{
    let mut seen = BTreeSet::new(alloc);
    let mut first = None;
    let mut left = pairs.len();
    while left > 0 {
        left -= 1;
        let pair = &pairs[left];
        match name_in(&pair.key) {
            Some(name) => {
                let is_new = seen.insert(name)?;
                let is_known = is_known(rules, pair);
                first = first_after(is_new, is_known, name, first);
            }
            None => first = Some(&[]),
        }
    }
    Ok(first)
}

// The first unknown key, once one more pair was looked at.
fn first_after<'a>(
    is_new: bool,
    is_known: bool,
    name: &'a [u8],
    first: Option<&'a [u8]>,
) -> Option<&'a [u8]>
    ensures { option_map (λ n. invalid_key n.now) result
        ≡ fault_after is_new is_known name.now (option_map (λ n. invalid_key n.now) first.entry) }
{
    if is_new && !is_known {
        Some(name)
    } else {
        first
    }
}

/// Refuses the first value that its key doesn't take.
pub fn wrong_value(alloc: Global, rules: &[Rule], pairs: &[Pair]) -> Result<(), Fail>
    ensures { Finds result (wrong_value (map key_of rules.now)
        (last_pairs (map pair_content pairs.now))) }
{
    wrong_value_of(alloc, &[], rules, pairs)
}

/// Refuses the first value that its key doesn't take, or that names a highlight group, where its
/// key is one of `naming`, by a name that is none.
pub fn wrong_value_of(
    alloc: Global,
    naming: &[&str],
    rules: &[Rule],
    pairs: &[Pair],
) -> Result<(), Fail>
    ensures { Finds result (wrong_value_of (map (λ name. name.now) naming.now)
        (map key_of rules.now) (last_pairs (map pair_content pairs.now))) }
{
    match first_wrong_value(naming, rules, pairs) {
        Some(name) => Err(invalid_value(alloc, name)),
        None => Ok(()),
    }
}

// The key that is told of the first wrong value.
fn first_wrong_value<'a>(naming: &[&str], rules: &[Rule], pairs: &'a [Pair]) -> Option<&'a [u8]>
    ensures { option_map (λ name. invalid_value name.now) result
        ≡ wrong_value_of (map (λ name. name.now) naming.now) (map key_of rules.now)
        (last_pairs (map pair_content pairs.now)) }
{
    for place in 0..pairs.len() {
        let behind = &pairs[place + 1..];
        if let Some(name) = fault_that_counts(naming, rules, &pairs[place], behind) {
            return Some(name);
        }
    }
    None
}

// The key that is told of a pair whose value is wrong, where no pair behind it has its key.
fn fault_that_counts<'a>(
    naming: &[&str],
    rules: &[Rule],
    pair: &'a Pair,
    behind: &[Pair],
) -> Option<&'a [u8]>
    ensures { option_map (λ name. invalid_value name.now) result
        ≡ fault_that_counts (map (λ name. name.now) naming.now) (map key_of rules.now)
        (pair_content pair.now) (map pair_content behind.now) }
{
    match pair_fault(naming, rules, pair) {
        Some(name) => {
            if stands_among(&pair.key, behind) {
                None
            } else {
                Some(name)
            }
        }
        None => None,
    }
}

// The key that is told of a pair whose value is wrong.
fn pair_fault<'a>(naming: &[&str], rules: &[Rule], pair: &'a Pair) -> Option<&'a [u8]>
    ensures { option_map (λ name. invalid_value name.now) result
        ≡ pair_fault (map (λ name. name.now) naming.now) (map key_of rules.now)
        (pair_content pair.now) }
{
    if !takes_value(rules, pair) {
        return Some(name_in(&pair.key).unwrap_or(&[]));
    }
    if misnames(naming, pair) {
        Some(b"name")
    } else {
        None
    }
}

fn takes_value(rules: &[Rule], pair: &Pair) -> bool
    ensures { result ≡ takes_value (known_key (map key_of rules.now)
        (string_in (content pair.now.key))) (content pair.now.value) }
{
    match rule_of(rules, &pair.key) {
        Some(rule) => rule.takes.takes(&pair.value),
        None => true,
    }
}

fn misnames(naming: &[&str], pair: &Pair) -> bool
    ensures { result ≡ misnames (map (λ name. name.now) naming.now) (pair_content pair.now) }
{
    is_one_of(naming, &pair.key) && !names_groups(&pair.value)
}

fn is_one_of(names: &[&str], key: &Value) -> bool
    ensures { result ≡ is_one_of (map (λ name. name.now) names.now)
        (string_in (content key.now)) }
{
    match name_in(key) {
        Some(name) => is_name_among(names, name),
        None => false,
    }
}

fn is_name_among(names: &[&str], name: &[u8]) -> bool
    ensures { result ≡ list_any (bytes_eq name.now) (map (λ n. n.now) names.now) }
{
    for other in names {
        if is_equal(name, *other) {
            return true;
        }
    }
    false
}

fn is_equal(name: &[u8], other: &str) -> bool
    ensures { result ≡ bytes_eq name.now other.now }
{
    name == other.as_bytes()
}

// Whether a value is no string, or the name of a group.
fn names_group(value: &Value) -> bool
    ensures { result ≡ names_group (string_in (content value.now)) }
{
    match name_in(value) {
        Some(name) => is_group_name(name),
        None => true,
    }
}

// The same of each name of a group among parts of a virtual text.
fn names_groups(value: &Value) -> bool
    ensures { result ≡ names_groups (content value.now) }
{
    match value {
        Value::List(items) => all_name_groups(items.as_slice()),
        _ => names_group(value),
    }
}

/// Whether a highlight group may have a name: 1 to `LONGEST_GROUP_NAME` bytes.
pub fn is_group_name(name: &[u8]) -> bool
    ensures { result ≡ is_group_name name.now }
{
    1 <= name.len() && name.len() <= LONGEST_GROUP_NAME
}

fn stands_among(key: &Value, pairs: &[Pair]) -> bool
    ensures { result ≡ stands_among (content key.now) (map pair_content pairs.now) }
{
    match name_in(key) {
        Some(name) => is_key_among(name, pairs),
        None => false,
    }
}

fn is_key_among(name: &[u8], pairs: &[Pair]) -> bool
    ensures { result ≡ is_key_among (Some name.now) (map pair_content pairs.now) }
{
    for pair in pairs {
        if stands_in(name, pair) {
            return true;
        }
    }
    false
}

fn stands_in(name: &[u8], pair: &Pair) -> bool
    ensures { result ≡ stands_in (Some name.now) (pair_content pair.now) }
{
    match name_in(&pair.key) {
        Some(other) => name == other,
        None => false,
    }
}

/// Refuses the first key that must be there and isn't.
pub fn missing_key(alloc: Global, rules: &[Rule], pairs: &[Pair]) -> Result<(), Fail>
    ensures { Finds result (missing_key (map key_of rules.now)
        (last_pairs (map pair_content pairs.now))) }
{
    match first_missing(rules, pairs) {
        Some(name) => Err(invalid_value(alloc, name.as_bytes())),
        None => Ok(()),
    }
}

fn first_missing(rules: &[Rule], pairs: &[Pair]) -> Option<&'static str>
    ensures { option_map (λ name. invalid_value name.now) result
        ≡ missing_key (map key_of rules.now) (last_pairs (map pair_content pairs.now)) }
{
    for rule in rules {
        if rule.required && value_of(pairs, rule.name).is_none() {
            return Some(rule.name);
        }
    }
    None
}

// Whether each pair's key is known and takes its value.
fn are_faultless(naming: &[&str], rules: &[Rule], pairs: &[Pair]) -> bool
    ensures { result ≡ are_faultless (map (λ name. name.now) naming.now) (map key_of rules.now)
        (map pair_content pairs.now) }
{
    for pair in pairs {
        if !is_faultless(naming, rules, pair) {
            return false;
        }
    }
    true
}

fn is_faultless(naming: &[&str], rules: &[Rule], pair: &Pair) -> bool
    ensures { result ≡ is_faultless (map (λ name. name.now) naming.now) (map key_of rules.now)
        (pair_content pair.now) }
{
    match rule_of(rules, &pair.key) {
        Some(rule) => !misnames(naming, pair) && rule.takes.takes(&pair.value),
        None => false,
    }
}

/// Refuses a Dict: its first unknown key, or its first wrong value, or the first missing key. A
/// Dict without a fault is gone through once.
pub fn map_fault(alloc: Global, rules: &[Rule], pairs: &[Pair]) -> Result<(), Fail>
    ensures { Finds result (map_fault (map key_of rules.now)
        (last_pairs (map pair_content pairs.now))) }
{
    if are_faultless(&[], rules, pairs) {
        return missing_key(alloc, rules, pairs);
    }
    unknown_key(alloc, rules, pairs)?;
    wrong_value(alloc, rules, pairs)?;
    missing_key(alloc, rules, pairs)
}

/// Refuses a Dict of which some keys name a highlight group.
pub fn naming_fault(
    alloc: Global,
    naming: &[&str],
    rules: &[Rule],
    pairs: &[Pair],
) -> Result<(), Fail>
    ensures { Finds result (naming_fault (map (λ name. name.now) naming.now)
        (map key_of rules.now) (last_pairs (map pair_content pairs.now))) }
{
    if are_faultless(naming, rules, pairs) {
        return missing_key(alloc, rules, pairs);
    }
    unknown_key(alloc, rules, pairs)?;
    wrong_value_of(alloc, naming, rules, pairs)?;
    missing_key(alloc, rules, pairs)
}
