//! How many bytes messages take that wait.
ghost use Rattle.std.specs.Prelude.{◌≡◌, ◌<◌, ◌^◌, ℕ, IfOk, length, map};
ghost use Rattle.nv_value.specs.Content.{count, text, trees_of};
ghost use Rattle.nv_value.specs.View.{content, contents, pair_contents};
ghost use Rattle.nv_lines.specs.Excerpts.{list_lines};
ghost use Rattle.nv_msgpack.specs.Shortest.{HaveSpellings};
ghost use Rattle.nv_rpc.specs.Messages.{items, reply};
ghost use Rattle.nv_rpc.specs.MessageView.{sent_of};
ghost use Rattle.nv_rpc.specs.Outcomes.{atomic_content, call_result_content, outcome_content, triple_content};
ghost use Rattle.nv_args.specs.Texts.{strings};
ghost use Rattle.nv_core.specs.Contents.{sent_of_lines, sent_of_shared};
ghost use Rattle.nv_core.specs.Sizes.{plus, memory_of, memory_of_sent, memory_with, memory_of_waiting};

use crate::shared::{LinesEvent, SharedMessage};
use nv_buffer::{Line, LineList};
use nv_lines::Excerpt;
use nv_rpc::{AtomicResults, CallResult, Message, Outcome, Triple};
use nv_value::{ApiFault, Bytes, Fields, Items, Value, spelled_length};
use std::alloc::AllocError;
use std::marker::Model;

/// What a message, a value or a line takes beside the bytes of its string.
const EACH: u64 = 32;

fn size_of_string(string: &Bytes) -> u64
    ensures { result ≡ plus 32 (length string.now) }
{
    EACH.saturating_add(string.len() as u64)
}

// It is put into the loops over values, so that one that holds no others takes no call.
#[cycle(size)]
#[inline(always)]
fn size_of_value(value: &Value) -> u64
    ensures { result ≡ memory_of (content value.now) }
{
    match value {
        Value::Nil | Value::Truth(_) | Value::Int(_) | Value::Big(_) => EACH,
        Value::Text(bytes) | Value::Bin(bytes) | Value::Ext(_, bytes) | Value::Opaque(bytes) => {
            size_of_string(bytes)
        }
        Value::List(items) => size_of_items(items),
        Value::Pairs(fields) => size_of_fields(fields),
    }
}

#[cycle(size)]
fn size_of_items(items: &Items) -> u64
    ensures { result ≡ memory_with (contents items.now.items) 32 }
{
    let mut size = EACH;
    for item in items {
        size = size.saturating_add(size_of_value(item));
    }
    size
}

#[cycle(size)]
fn size_of_fields(fields: &Fields) -> u64
    ensures { result ≡ memory_with (pair_contents fields.now.items) 32 }
{
    let mut size = EACH;
    for pair in fields {
        size = size.saturating_add(size_of_value(&pair.key));
        size = size.saturating_add(size_of_value(&pair.value));
    }
    size
}

// A list of three integers.
fn size_of_triple(triple: &Triple) -> u64
    ensures { result ≡ memory_of (triple_content triple.now) }
{
    let _ = triple;
    EACH.saturating_add(EACH)
        .saturating_add(EACH)
        .saturating_add(EACH)
}

// What goes over several stands by itself, so that a reply of one value keeps no registers for it.
#[inline(never)]
fn size_of_triples(triples: &[Triple]) -> u64
    ensures { result ≡ memory_with (trees_of (map triple_content triples.now)) 32 }
{
    let mut size = EACH;
    for triple in triples {
        size = size.saturating_add(size_of_triple(triple));
    }
    size
}

fn size_of_line(line: &Line) -> u64
    ensures size { result ≡ plus 32 (length line.now) }
    ensures few { length line.now < 2 ^ 32 }
{
    EACH.saturating_add(line.len() as u64)
}

// Of lines, with so many bytes of others.
fn size_with_lines(before: u64, lines: &[Line]) -> u64
    ensures size { result ≡ memory_with (strings lines.now) before }
    ensures spelled { HaveSpellings (strings lines.now) }
{
    let mut size = before;
    for line in lines {
        size = size.saturating_add(size_of_line(line));
    }
    size
}

// Of the lines of lists, as one list of strings.
#[inline(never)]
fn size_of_lists(lists: &[LineList]) -> u64
    ensures size { result ≡ memory_with (strings (list_lines lists.now)) 32 }
    ensures spelled { HaveSpellings (strings (list_lines lists.now)) }
{
    let mut size = EACH;
    for list in lists {
        size = size_with_lines(size, list.as_slice());
    }
    size
}

fn size_of_excerpt(excerpt: &Excerpt) -> u64
    ensures { result ≡ memory_of (items (map text excerpt.now)) }
{
    size_of_lists(excerpt.lists())
}

fn size_of_result(one: &CallResult) -> u64
    ensures { result ≡ memory_of (call_result_content one.now) }
{
    match one {
        CallResult::Value(value) => size_of_value(value),
        CallResult::Triples(triples) => size_of_triples(triples.as_slice()),
        CallResult::Lines(excerpt) => size_of_excerpt(excerpt),
    }
}

fn size_of_results(results: &[CallResult]) -> u64
    ensures { result ≡ memory_with (trees_of (map call_result_content results.now)) 32 }
{
    let mut size = EACH;
    for one in results {
        size = size.saturating_add(size_of_result(one));
    }
    size
}

#[inline(never)]
fn size_of_atomic(atomic: &AtomicResults) -> u64
    ensures { result ≡ memory_of (atomic_content atomic.now) }
{
    EACH.saturating_add(size_of_results(atomic.results.as_slice()))
        .saturating_add(size_of_value(&atomic.stop))
}

fn size_of_outcome(outcome: &Outcome) -> u64
    ensures { result ≡ memory_of (outcome_content outcome.now) }
{
    match outcome {
        Outcome::One(one) => size_of_result(one),
        Outcome::Atomic(atomic) => size_of_atomic(atomic),
    }
}

/// Lines, and how many bytes they take, which is counted once.
#[derive(Drop)]
pub struct SizedLines {
    lines: Excerpt,
    size: u64,
}

impl Model for SizedLines {
    ghost use Rattle.std.specs.Prelude.{◌≡◌, List, ℕ};
    ghost use Rattle.nv_args.specs.Texts.{strings};
    ghost use Rattle.nv_core.specs.Sizes.{memory_with};

    ghost Value = { List (List ℕ) };

    ghost view = { λ s. s.lines };

    ghost invariant = { λ s. s.size ≡ memory_with (strings s.lines) 32 };
}

impl SizedLines {
    /// These lines. `AllocError` also where they are 2^32 or more.
    pub fn new(lines: Excerpt) -> Result<SizedLines, AllocError>
        ensures same { IfOk result (λ sized. sized ≡ lines) }
        ensures spelled { IfOk result (λ sized. (count (strings sized) < 2 ^ 32)
            × HaveSpellings (strings sized)) }
    {
        spelled_length(lines.len())?;
        let size = size_of_lists(lines.lists());
        Ok(SizedLines { lines, size })
    }

    /// The lines, lent.
    pub fn lines(&self) -> &Excerpt
        ensures { result.now ≡ self.now }
    {
        &self.lines
    }

    /// How many bytes they take.
    pub fn size(&self) -> u64
        ensures { result ≡ memory_with (strings self.now) 32 }
    {
        self.size
    }
}

fn size_of_event(event: &LinesEvent) -> u64
    ensures { result ≡ memory_of_sent (sent_of_lines event.now) }
{
    EACH.saturating_add(event.lines.size())
}

fn size_of_fault(fault: &ApiFault) -> u64
    ensures { result ≡ plus 32 (length fault.now.words) }
{
    size_of_string(&fault.words)
}

fn size_of_reply(fault: &Option<ApiFault>, outcome: &Outcome) -> u64
    ensures { (msgid : ℕ)
        → result ≡ memory_of_sent (reply msgid fault.now (outcome_content outcome.now)) }
{
    match fault {
        Some(fault) => size_of_fault(fault),
        None => EACH.saturating_add(size_of_outcome(outcome)),
    }
}

fn size_of_own(message: &Message) -> u64
    ensures { result ≡ memory_of_sent (sent_of message.now) }
{
    match message {
        Message::Reply { fault, result, .. } => size_of_reply(fault, result),
        Message::Lines { lines, .. } => EACH.saturating_add(size_of_items(lines)),
        Message::Tick { .. } => EACH,
        Message::Detach { .. } => EACH,
        Message::Fault { fault } => size_of_fault(fault),
    }
}

/// How many bytes a message takes: 32 for itself and each value or line in it, and those of their
/// strings.
pub fn size_of_message(message: &SharedMessage) -> u64
    ensures { result ≡ memory_of_sent (sent_of_shared message.now) }
{
    match message {
        SharedMessage::Own(message) => size_of_own(message),
        SharedMessage::Lines(event) => size_of_event(event),
    }
}

/// How many bytes messages take together.
pub fn size_of_messages(messages: &[SharedMessage]) -> u64
    ensures { result ≡ memory_of_waiting 0 (map sent_of_shared messages.now) }
{
    let mut size: u64 = 0;
    for message in messages {
        size = size.saturating_add(size_of_message(message));
    }
    size
}
