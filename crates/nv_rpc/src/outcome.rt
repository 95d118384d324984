//! What a call gives where it succeeds.
ghost use Rattle.std.specs.Prelude.{◌≡◌, ◌<◌, ◌^◌, ◌++◌, ◌∷◌, [], length, map, IfOk, OnOk};
ghost use Rattle.nv_value.specs.Content.{text, trees_of};
ghost use Rattle.nv_value.specs.View.{content};
ghost use Rattle.nv_msgpack.specs.Shortest.{HasSpelling, HaveSpellings, all_shortest, shortest};
ghost use Rattle.nv_lines.specs.Excerpts.{list_lines};
ghost use Rattle.nv_rpc.specs.Messages.{items};
ghost use Rattle.nv_rpc.specs.Outcomes.{atomic_content, outcome_content, call_result_content, triple_content};
ghost use Rattle.nv_rpc.specs.inside.Fronts.{atomic_head};

use nv_lines::{Excerpt, Line, LineList};
use nv_msgpack::{encode, put_list_head, put_text_head, put_unsigned};
use nv_value::{Items, Value};
use std::alloc::{AllocError, Global};

/// Three integers, which a client is sent as a list.
#[derive(Clone, Copy)]
pub struct Triple {
    pub first: u32,
    pub second: u32,
    pub third: u32,
}

/// The result of one call.
#[derive(Drop)]
pub enum CallResult {
    Value(Value),
    /// A list of lists of three integers each, which have no memory of their own.
    Triples(Vec<Triple>),
    /// Lines as a list of strings, which share the tables of the text that they stand in.
    Lines(Excerpt),
}

/// What calls one after another give: the results of those that succeeded, and nil or where they
/// stopped (Neovim help `nvim_call_atomic()`).
#[derive(Drop)]
pub struct AtomicResults {
    pub results: Vec<CallResult>,
    pub stop: Value,
}

/// The result of a whole call.
#[derive(Drop)]
pub enum Outcome {
    One(CallResult),
    /// `[results, stop]`
    Atomic(Box<AtomicResults>),
}

impl CallResult {
    // The same result: the strings of a value, and the tables of lines, are shared.
    fn copy(&self, alloc: Global) -> Result<CallResult, AllocError>
        ensures { IfOk result (λ copy. call_result_content copy ≡ call_result_content self.now) }
    {
        match self {
            CallResult::Value(value) => Ok(CallResult::Value(value.copy(alloc)?)),
            CallResult::Triples(triples) => {
                let mut copies = Vec::with_capacity(alloc, triples.len())?;
                copies.extend_from_slice(triples.as_slice())?;
                Ok(CallResult::Triples(copies))
            }
            CallResult::Lines(lines) => Ok(CallResult::Lines(lines.share()?)),
        }
    }

    /// The value that the result is.
    pub fn into_value(self, alloc: Global) -> Result<Value, AllocError>
        ensures { IfOk result (λ value. content value ≡ call_result_content self) }
    {
        match self {
            CallResult::Value(value) => Ok(value),
            CallResult::Triples(triples) => triples_value(alloc, triples.as_slice()),
            CallResult::Lines(lines) => lines_value(alloc, &lines),
        }
    }

    /// Adds the shortest spelling of the result at the end of `into`.
    pub fn put(&self, into: &mut Vec<u8>) -> Result<(), AllocError>
        requires { HasSpelling (call_result_content self.now) }
        ensures { OnOk result (into.new.items
            ≡ into.old.items ++ shortest (call_result_content self.now)) }
    {
        match self {
            CallResult::Value(value) => encode(value, into),
            CallResult::Triples(triples) => put_triples(triples.as_slice(), into),
            CallResult::Lines(lines) => put_lines(lines, into),
        }
    }
}

impl AtomicResults {
    // The same results.
    fn copy(&self, alloc: Global) -> Result<AtomicResults, AllocError>
        ensures { IfOk result (λ copy. atomic_content copy ≡ atomic_content self.now) }
    {
        let results = copies_of(alloc, self.results.as_slice())?;
        let stop = self.stop.copy(alloc)?;
        Ok(AtomicResults { results, stop })
    }

    // The value that they are.
    fn into_value(self, alloc: Global) -> Result<Value, AllocError>
        ensures { IfOk result (λ value. content value ≡ atomic_content self) }
    {
        let AtomicResults { results, stop } = self;
        let results = results_value(alloc, results)?;
        Ok(Value::List(vec![in alloc; results, stop]?))
    }

    // Adds their shortest spelling at the end of `into`.
    fn put(&self, into: &mut Vec<u8>) -> Result<(), AllocError>
        requires { HasSpelling (atomic_content self.now) }
        ensures { OnOk result (into.new.items
            ≡ into.old.items ++ shortest (atomic_content self.now)) }
    {
        put_atomic_head(self.results.len(), into)?;
        put_results(self.results.as_slice(), into)?;
        encode(&self.stop, into)
    }
}

impl Outcome {
    /// The same result: the strings of a value, and the tables of lines, are shared.
    pub(crate) fn copy(&self, alloc: Global) -> Result<Outcome, AllocError>
        ensures { IfOk result (λ copy. outcome_content copy ≡ outcome_content self.now) }
    {
        match self {
            Outcome::One(result) => Ok(Outcome::One(result.copy(alloc)?)),
            Outcome::Atomic(results) => {
                let copy = results.copy(alloc)?;
                Ok(Outcome::Atomic(Box::new(alloc, copy)?))
            }
        }
    }

    /// The value that the result is.
    pub fn into_value(self, alloc: Global) -> Result<Value, AllocError>
        ensures { IfOk result (λ value. content value ≡ outcome_content self) }
    {
        match self {
            Outcome::One(result) => result.into_value(alloc),
            Outcome::Atomic(results) => Box::into_inner(results).into_value(alloc),
        }
    }

    /// The result as that of one call.
    pub fn into_result(self, alloc: Global) -> Result<CallResult, AllocError>
        ensures { IfOk result (λ one. call_result_content one ≡ outcome_content self) }
    {
        match self {
            Outcome::One(result) => Ok(result),
            Outcome::Atomic(results) => {
                let results = Box::into_inner(results);
                Ok(CallResult::Value(results.into_value(alloc)?))
            }
        }
    }

    /// Adds the shortest spelling of the result at the end of `into`.
    pub(crate) fn put(&self, into: &mut Vec<u8>) -> Result<(), AllocError>
        requires { HasSpelling (outcome_content self.now) }
        ensures { OnOk result (into.new.items
            ≡ into.old.items ++ shortest (outcome_content self.now)) }
    {
        match self {
            Outcome::One(result) => result.put(into),
            Outcome::Atomic(results) => results.put(into),
        }
    }
}

fn triple_value(alloc: Global, triple: Triple) -> Result<Value, AllocError>
    ensures { IfOk result (λ value. content value ≡ triple_content triple) }
{
    let first = Value::Int(i64::from(triple.first));
    let second = Value::Int(i64::from(triple.second));
    let third = Value::Int(i64::from(triple.third));
    Ok(Value::List(vec![in alloc; first, second, third]?))
}

fn triples_value(alloc: Global, triples: &[Triple]) -> Result<Value, AllocError>
    ensures { IfOk result (λ value. content value ≡ items (map triple_content triples.now)) }
{
    let mut items = Vec::with_capacity(alloc, triples.len())?;
    for triple in triples {
        items.push(triple_value(alloc, *triple)?)?;
    }
    Ok(Value::List(items))
}

// A line as a string. Its bytes are shared.
fn string_value(line: &Line) -> Result<Value, AllocError>
    ensures { IfOk result (λ value. content value ≡ text line.now) }
{
    Ok(Value::Text(line.as_bytes().share()?))
}

// Adds lines at the end, each as a string.
fn add_strings(strings: &mut Items, lines: &[Line]) -> Result<(), AllocError>
    ensures { OnOk result (map content strings.new.items
        ≡ map content strings.old.items ++ map text lines.now) }
{
    for line in lines {
        strings.push(string_value(line)?)?;
    }
    Ok(())
}

// Adds the lines of lists at the end, each as a string.
fn add_lists(strings: &mut Items, lists: &[LineList]) -> Result<(), AllocError>
    ensures { OnOk result (map content strings.new.items
        ≡ map content strings.old.items ++ map text (list_lines lists.now)) }
{
    for list in lists {
        add_strings(strings, list.as_slice())?;
    }
    Ok(())
}

fn lines_value(alloc: Global, lines: &Excerpt) -> Result<Value, AllocError>
    ensures { IfOk result (λ value. content value ≡ items (map text lines.now)) }
{
    let mut strings = Vec::with_capacity(alloc, lines.len())?;
    add_lists(&mut strings, lines.lists())?;
    Ok(Value::List(strings))
}

fn results_value(alloc: Global, results: Vec<CallResult>) -> Result<Value, AllocError>
    ensures { IfOk result (λ value. content value ≡ items (map call_result_content results.items)) }
{
    let mut values = Vec::with_capacity(alloc, results.len())?;
    for result in results {
        values.push(result.into_value(alloc)?)?;
    }
    Ok(Value::List(values))
}

fn copies_of(alloc: Global, results: &[CallResult]) -> Result<Vec<CallResult>, AllocError>
    ensures { IfOk result (λ copies. map call_result_content copies.items
        ≡ map call_result_content results.now) }
{
    let mut copies = Vec::with_capacity(alloc, results.len())?;
    for result in results {
        copies.push(result.copy(alloc)?)?;
    }
    Ok(copies)
}

fn put_triple(triple: Triple, into: &mut Vec<u8>) -> Result<(), AllocError>
    ensures { OnOk result (into.new.items ≡ into.old.items ++ shortest (triple_content triple)) }
{
    into.extend_from_slice(&[0x93])?;
    put_unsigned(u64::from(triple.first), into)?;
    put_unsigned(u64::from(triple.second), into)?;
    put_unsigned(u64::from(triple.third), into)
}

fn put_triples(triples: &[Triple], into: &mut Vec<u8>) -> Result<(), AllocError>
    requires { length triples.now < 2 ^ 32 }
    ensures { OnOk result (into.new.items
        ≡ into.old.items ++ shortest (items (map triple_content triples.now))) }
{
    put_list_head(triples.len() as u32, into)?;
    for triple in triples {
        put_triple(*triple, into)?;
    }
    Ok(())
}

// A line as a string.
fn put_string(line: &Line, into: &mut Vec<u8>) -> Result<(), AllocError>
    requires { length line.now < 2 ^ 32 }
    ensures { OnOk result (into.new.items ≡ into.old.items ++ shortest (text line.now)) }
{
    put_text_head(line.len() as u32, into)?;
    into.extend_from_slice(line.as_slice())
}

fn put_strings(lines: &[Line], into: &mut Vec<u8>) -> Result<(), AllocError>
    requires { HaveSpellings (trees_of (map text lines.now)) }
    ensures { OnOk result (into.new.items
        ≡ into.old.items ++ all_shortest (trees_of (map text lines.now))) }
{
    for line in lines {
        put_string(line, into)?;
    }
    Ok(())
}

fn put_lists(lists: &[LineList], into: &mut Vec<u8>) -> Result<(), AllocError>
    requires { HaveSpellings (trees_of (map text (list_lines lists.now))) }
    ensures { OnOk result (into.new.items
        ≡ into.old.items ++ all_shortest (trees_of (map text (list_lines lists.now)))) }
{
    for list in lists {
        put_strings(list.as_slice(), into)?;
    }
    Ok(())
}

/// Adds lines at the end, as a list of strings.
pub(crate) fn put_lines(lines: &Excerpt, into: &mut Vec<u8>) -> Result<(), AllocError>
    requires { HasSpelling (items (map text lines.now)) }
    ensures { OnOk result (into.new.items
        ≡ into.old.items ++ shortest (items (map text lines.now))) }
{
    put_list_head(lines.len() as u32, into)?;
    put_lists(lines.lists(), into)
}

fn put_results(results: &[CallResult], into: &mut Vec<u8>) -> Result<(), AllocError>
    requires { HaveSpellings (trees_of (map call_result_content results.now)) }
    ensures { OnOk result (into.new.items
        ≡ into.old.items ++ all_shortest (trees_of (map call_result_content results.now))) }
{
    for result in results {
        result.put(into)?;
    }
    Ok(())
}

/// What goes before so many results of calls one after another: `[results, stop]`.
pub(crate) fn put_atomic_head(count: usize, into: &mut Vec<u8>) -> Result<(), AllocError>
    requires { count < 2 ^ 32 }
    ensures { OnOk result (into.new.items ≡ into.old.items ++ atomic_head count) }
{
    into.extend_from_slice(&[0x92])?;
    put_list_head(count as u32, into)
}
