//! The options of a UI, as calls give them.
ghost use Rattle.std.specs.Prelude.{◌≡◌, Some, map, find, bytes_eq, option_map};
ghost use Rattle.nv_value.specs.View.{content, pair_content};
ghost use Rattle.nv_args.specs.Arguments.{last_pairs};
ghost use Rattle.nv_args.specs.Maps.{known_key, map_fault};
ghost use Rattle.nv_args.specs.Refusals.{Finds};
ghost use Rattle.nv_args.specs.Rules.{key_of};
ghost use Rattle.nv_api_ui.specs.inside.Putting.{HasSizeOf};
ghost use Rattle.nv_api_ui.specs.UiOptions.{attached_ui, ui_keys, ui_option_fault, with_ui_option};

use nv_args::{Fail, Rule, Takes, flag_or, invalid_key, invalid_value, map_fault, truth_of};
use nv_model::Ui;
use nv_value::{Pair, Value};
use std::alloc::Global;

// The options, of which the first must be given.
fn ui_rules() -> [Rule; 15]
    ensures { map key_of result ≡ ui_keys }
{
    [
        Rule::required("ext_linegrid", Takes::True),
        Rule::flag("rgb"),
        Rule::flag("ext_cmdline"),
        Rule::flag("ext_messages"),
        Rule::flag("ext_popupmenu"),
        Rule::flag("ext_tabline"),
        Rule::flag("ext_wildmenu"),
        Rule::flag("ext_hlstate"),
        Rule::flag("ext_multigrid"),
        Rule::flag("ext_termcolors"),
        Rule::flag("override"),
        Rule::flag("stdin_tty"),
        Rule::flag("stdout_tty"),
        Rule::optional("term_name", Takes::String),
        Rule::optional("term_colors", Takes::Integer),
    ]
}

/// Refuses options of which one isn't known, or doesn't take its value, or must be given and isn't.
pub fn check_options(alloc: Global, pairs: &[Pair]) -> Result<(), Fail>
    ensures { Finds result (map_fault ui_keys (last_pairs (map pair_content pairs.now))) }
{
    map_fault(alloc, &ui_rules(), pairs)
}

/// The UI that a session attaches with these options, but for its size.
pub fn attached_ui(session: u64, pairs: &[Pair]) -> Ui
    ensures { result ≡ attached_ui session (last_pairs (map pair_content pairs.now)) }
{
    Ui {
        session,
        width: 0,
        height: 0,
        rgb: flag_or(pairs, "rgb", true),
        many: flag_or(pairs, "ext_multigrid", false),
    }
}

fn rule_named(rules: &[Rule], name: &[u8]) -> Option<Rule>
    ensures { option_map key_of result
        ≡ find (λ key. bytes_eq key.name name.now) (map key_of rules.now) }
{
    for rule in rules {
        if rule.name.as_bytes() == name {
            return Some(*rule);
        }
    }
    None
}

// The option of a name.
fn ui_rule(name: &[u8]) -> Option<Rule>
    ensures { option_map key_of result ≡ known_key ui_keys (Some name.now) }
{
    rule_named(&ui_rules(), name)
}

/// Refuses a value given for an option that isn't known, or doesn't take it.
pub fn check_option(alloc: Global, name: &[u8], value: &Value) -> Result<(), Fail>
    ensures { Finds result (ui_option_fault name.now (content value.now)) }
{
    match ui_rule(name) {
        Some(rule) => {
            if rule.takes.takes(value) {
                Ok(())
            } else {
                Err(invalid_value(alloc, name))
            }
        }
        None => Err(invalid_key(alloc, name)),
    }
}

/// A UI with a value given for one of its options.
pub fn with_ui_option(ui: Ui, name: &[u8], value: &Value) -> Ui
    ensures ui { result ≡ with_ui_option name.now (content value.now) ui }
    ensures same { HasSizeOf result ui }
{
    if name == b"rgb".as_slice() {
        Ui {
            rgb: truth_of(value).unwrap_or(ui.rgb),
            ..ui
        }
    } else {
        ui
    }
}
