//! The arguments of a call, each of the kind that its method's parameter takes.
ghost use Rattle.std.specs.Prelude.{◌≡◌, false, [], length, map, slice_get, Some, option_map, unwrap_or, IfOk, IfSome, ◌^◌, ◌<◌};
ghost use Rattle.nv_value.specs.Content.{Trees, nil};
ghost use Rattle.nv_value.specs.View.{content, contents, pair_content};
ghost use Rattle.nv_args.specs.Arguments.{truth_in, string_in, strings_in, pairs_in};
ghost use Rattle.nv_args.specs.Kinds.{kind_of};
ghost use Rattle.nv_args.specs.Methods.{IsBrief, kind_of_parameter, signature_of};
ghost use Rattle.nv_args.specs.Reading.{read, array_in, number_of, number_at, flag_at, string_at, values_at, pairs_at, object_at, lines_at, first_string, second_values, name_of_call, arguments_of_call};
ghost use Rattle.nv_args.specs.Refusals.{Meets};
ghost use Rattle.nv_args.specs.Args.{typed_arguments};
ghost use Rattle.nv_args.specs.inside.Held.{arg_held, first_wrong, is_flag_kind, is_string_kind, is_list_kind, is_map_kind, is_any_kind};

use crate::faults::{Fail, wrong_count, wrong_type};
use crate::kinds::{BUFFER, Kind, TABPAGE, WINDOW, are_strings, handle_number};
use crate::reading::integer_of;
use crate::signatures::{Parameter, Signature};
use nv_value::{Bytes, Pair, Value};
use std::alloc::{AllocError, Global};

/// The arguments of a call, one for each parameter of its method. They are the values of the call
/// themselves, lent, and looked through once.
#[derive(Clone, Copy)]
pub struct Args<'a> {
    parameters: &'static [Parameter],
    values: &'a [Value],
}

/// The arguments of a call of a method. Their number is looked at first, and then their types, the
/// first argument first. A call without a fault takes no memory.
pub fn read<'a>(
    alloc: Global,
    signature: &'static Signature,
    params: &'a [Value],
) -> Result<Args<'a>, Fail>
    requires brief { IsBrief signature.now }
    ensures { Meets typed_arguments result
        (read (signature_of signature.now) (map content params.now)) }
{
    let parameters = signature.parameters;
    if params.len() != parameters.len() {
        return Err(wrong_count(alloc, parameters.len(), params.len()));
    }
    match first_wrong(parameters, params) {
        Some(place) => {
            let number = place as u8 + 1;
            let kind = parameters[place].0;
            Err(wrong_type(alloc, number, signature.name, kind.type_name()))
        }
        None => Ok(Args {
            parameters,
            values: params,
        }),
    }
}

// The place, from 0, of the first value that isn't of its kind.
fn first_wrong(parameters: &[Parameter], values: &[Value]) -> Option<usize>
    requires { length parameters.now ≡ length values.now }
    ensures place { result
        ≡ first_wrong (map kind_of_parameter parameters.now) (map content values.now) }
    ensures within { IfSome result (λ place. place < length parameters.now) }
{
    for place in 0..parameters.len() {
        if !parameters[place].0.takes(&values[place]) {
            return Some(place);
        }
    }
    None
}

impl<'a> Args<'a> {
    // The kind of the parameter at a place.
    fn kind(&self, place: usize) -> Option<Kind>
        ensures { option_map kind_of result
            ≡ slice_get (map kind_of_parameter self.now.parameters.now) place }
    {
        match self.parameters.get(place) {
            Some(parameter) => Some(parameter.0),
            None => None,
        }
    }

    // The value at a place.
    fn value(&self, place: usize) -> Option<&'a Value>
        ensures { option_map (λ v. content v.now) result
            ≡ slice_get (map content self.now.values.now) place }
    {
        self.values.get(place)
    }

    /// The number at a place, from 0: an Integer's, or a handle's. 0 where the argument is neither.
    pub fn number(&self, place: usize) -> i64
        ensures { result ≡ number_at (typed_arguments self.now) place }
    {
        match (self.kind(place), self.value(place)) {
            (Some(kind), Some(value)) => number_as(kind, value),
            _ => 0,
        }
    }

    /// The Boolean at a place, from 0. False where the argument is none.
    pub fn flag(&self, place: usize) -> bool
        ensures { result ≡ flag_at (typed_arguments self.now) place }
    {
        if !is_flag_kind(self.kind(place)) {
            return false;
        }
        match self.value(place) {
            Some(value) => is_true(value),
            None => false,
        }
    }

    /// The String at a place, from 0, lent. Empty where the argument is none.
    pub fn string(&self, place: usize) -> &'a [u8]
        ensures bytes { result.now ≡ string_at (typed_arguments self.now) place }
        ensures few { length result.now < 2 ^ 32 }
    {
        if !is_string_kind(self.kind(place)) {
            return &[];
        }
        match self.value(place) {
            Some(value) => string_in(value),
            None => &[],
        }
    }

    /// The values of the Array at a place, from 0, lent; none where the argument is no Array.
    pub fn values(&self, place: usize) -> &'a [Value]
        ensures { contents result.now ≡ values_at (typed_arguments self.now) place }
    {
        if !is_list_kind(self.kind(place)) {
            return &[];
        }
        match self.value(place) {
            Some(value) => items_in(value),
            None => &[],
        }
    }

    /// The pairs of the Dict at a place, from 0, lent; none where the argument is no Dict.
    pub fn pairs(&self, place: usize) -> &'a [Pair]
        ensures { map pair_content result.now ≡ pairs_at (typed_arguments self.now) place }
    {
        if !is_map_kind(self.kind(place)) {
            return &[];
        }
        match self.value(place) {
            Some(value) => pairs_in(value),
            None => &[],
        }
    }

    /// The Object at a place, from 0, lent. A nil may be absent.
    pub fn object(&self, place: usize) -> Option<&'a Value>
        ensures { unwrap_or (option_map (λ v. content v.now) result) nil
            ≡ object_at (typed_arguments self.now) place }
    {
        if is_any_kind(self.kind(place)) {
            self.value(place)
        } else {
            None
        }
    }

    /// The String at a place, from 0, shared. Empty where the argument is none.
    pub fn bytes(&self, alloc: Global, place: usize) -> Result<Bytes, AllocError>
        ensures { IfOk result (λ string. string ≡ string_at (typed_arguments self.now) place) }
    {
        if !is_string_kind(self.kind(place)) {
            return Bytes::new(alloc);
        }
        match self.value(place) {
            Some(value) => bytes_of(alloc, value),
            None => Bytes::new(alloc),
        }
    }

    /// The lines of the Array of Strings at a place, from 0: its values, lent. None where it is no
    /// such Array.
    pub fn lines(&self, place: usize) -> &'a [Value]
        ensures { strings_in (contents result.now)
            ≡ Some (lines_at (typed_arguments self.now) place) }
    {
        let values = self.values(place);
        if are_strings(values) { values } else { &[] }
    }
}

// The number of a value as an argument of a kind.
fn number_as(kind: Kind, value: &Value) -> i64
    ensures { result ≡ number_of (Some (arg_held (kind_of kind) (content value.now))) }
{
    let found = match kind {
        Kind::Integer => integer_of(value),
        Kind::Buffer | Kind::BufferId => handle_number(value, BUFFER),
        Kind::Window | Kind::WindowId => handle_number(value, WINDOW),
        Kind::Tabpage | Kind::TabpageId => handle_number(value, TABPAGE),
        _ => None,
    };
    found.unwrap_or(0)
}

fn is_true(value: &Value) -> bool
    ensures { result ≡ unwrap_or (truth_in (content value.now)) false }
{
    match value {
        Value::Truth(truth) => *truth,
        Value::Int(number) => *number != 0,
        _ => false,
    }
}

fn string_in(value: &Value) -> &[u8]
    ensures bytes { result.now ≡ unwrap_or (string_in (content value.now)) [] }
    ensures few { length result.now < 2 ^ 32 }
{
    match value {
        Value::Text(bytes) | Value::Bin(bytes) => bytes.as_slice(),
        _ => &[],
    }
}

fn items_in(value: &Value) -> &[Value]
    ensures { contents result.now ≡ unwrap_or (array_in (content value.now)) Trees.no_more }
{
    match value {
        Value::List(items) => items.as_slice(),
        _ => &[],
    }
}

fn pairs_in(value: &Value) -> &[Pair]
    ensures { map pair_content result.now ≡ unwrap_or (pairs_in (content value.now)) [] }
{
    match value {
        Value::Pairs(fields) => fields.as_slice(),
        _ => &[],
    }
}

/// The bytes of a String, shared. Empty where the value is none.
pub fn bytes_of(alloc: Global, value: &Value) -> Result<Bytes, AllocError>
    ensures { IfOk result (λ string. string ≡ unwrap_or (string_in (content value.now)) []) }
{
    match value {
        Value::Text(bytes) | Value::Bin(bytes) => bytes.share(),
        _ => Bytes::new(alloc),
    }
}

/// A call among those of `nvim_call_atomic()`, lent.
#[derive(Clone, Copy)]
pub struct NamedCall<'a> {
    pub name: &'a [u8],
    pub params: &'a [Value],
}

/// The name and the arguments of a call as a value. A value of another form has the empty name, or
/// no arguments.
pub fn call_in(value: &Value) -> NamedCall<'_>
    ensures name { result.name.now ≡ name_of_call (content value.now) }
    ensures params { map content result.params.now ≡ arguments_of_call (content value.now) }
{
    let parts = items_in(value);
    NamedCall {
        name: first_string(parts),
        params: second_values(parts),
    }
}

// The string that a list begins with.
fn first_string(parts: &[Value]) -> &[u8]
    ensures { result.now ≡ first_string (map content parts.now) }
{
    match parts {
        [name, ..] => string_in(name),
        [] => &[],
    }
}

// The values of the list that stands second in a list.
fn second_values(parts: &[Value]) -> &[Value]
    ensures { map content result.now ≡ second_values (map content parts.now) }
{
    match parts {
        [_, params, ..] => items_in(params),
        _ => &[],
    }
}

fn is_flag_kind(kind: Option<Kind>) -> bool
    ensures { result ≡ is_flag_kind (option_map kind_of kind) }
{
    matches!(kind, Some(Kind::Boolean))
}

fn is_string_kind(kind: Option<Kind>) -> bool
    ensures { result ≡ is_string_kind (option_map kind_of kind) }
{
    matches!(kind, Some(Kind::String))
}

fn is_list_kind(kind: Option<Kind>) -> bool
    ensures { result ≡ is_list_kind (option_map kind_of kind) }
{
    matches!(
        kind,
        Some(Kind::Array | Kind::Lines | Kind::Cursor | Kind::Calls)
    )
}

fn is_map_kind(kind: Option<Kind>) -> bool
    ensures { result ≡ is_map_kind (option_map kind_of kind) }
{
    matches!(kind, Some(Kind::Dict))
}

fn is_any_kind(kind: Option<Kind>) -> bool
    ensures { result ≡ is_any_kind (option_map kind_of kind) }
{
    matches!(kind, Some(Kind::Object | Kind::MarkPlace))
}
