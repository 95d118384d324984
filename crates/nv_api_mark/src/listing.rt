//! Listing marks (help: nvim_buf_get_extmarks()).
ghost use Rattle.std.specs.Prelude.{◌≡◌, ◌<◌, ◌^◌, ℕ, pos, All, IfOk, false, true, filter, length, map, reverse, take, unwrap_or};
ghost use Rattle.nv_places.specs.Places.{is_before};
ghost use Rattle.nv_value.specs.View.{content, pair_content};
ghost use Rattle.nv_msgpack.specs.Shortest.{HasSpelling};
ghost use Rattle.nv_msgpack.specs.Handle.{integer_of};
ghost use Rattle.nv_rpc.specs.Outcomes.{outcome_content};
ghost use Rattle.nv_args.specs.Args.{typed_arguments};
ghost use Rattle.nv_args.specs.Arguments.{last_pairs};
ghost use Rattle.nv_args.specs.Reading.{object_at};
ghost use Rattle.nv_args.specs.Maps.{map_fault};
ghost use Rattle.nv_args.specs.Refusals.{Finds};
ghost use Rattle.nv_args.specs.Rules.{key_of};
ghost use Rattle.nv_model.specs.Answers.{Answer};
ghost use Rattle.nv_model.specs.Answering.{array_of, reply_of};
ghost use Rattle.nv_model.specs.Standing.{seen_now, seen_buffer_now};
ghost use Rattle.nv_editor.specs.Sound.{IsOfGroups};
ghost use Rattle.nv_api_mark.specs.Listing.{first_marks, listed_mark, listing_keys, marks_from, nvim_buf_get_extmarks, place_by_number, place_of_value, place_pair};
ghost use Rattle.nv_api_mark.specs.Outcomes.{ReadsOutcome};
ghost use Rattle.nv_api_mark.specs.inside.Steps.{Decides};
ghost use Rattle.nv_api_mark.specs.inside.Picking.{is_picked, listed_triple, marks_answer, span_answer, spanned_answer};

use crate::details::{Live, detailed_value, listed_triple};
use crate::naming::meant_namespace;
use crate::places::{mark_numbered, place_or_last};
use nv_args::{
    Args, Fail, Rule, Takes, flag_or, integer_from, integer_of, map_fault, no_buffer, out_of_bounds,
};
use nv_buffer::{Buffer, Mark, Pos, Query};
use nv_editor::Editor;
use nv_rpc::{CallResult, Outcome, Triple};
use nv_value::{Pair, Value, spelled_length};
use std::alloc::{AllocError, Global};

/// Where marks are listed: those of one namespace, or all, from one place to another.
#[derive(Clone, Copy)]
pub struct Span {
    pub meant: Option<u32>,
    pub start: Pos,
    pub stop: Pos,
}

/// Which marks are picked: those of one namespace, or all, that start between two places, both
/// included, and with `overlap` those that reach to the first.
#[derive(Clone, Copy)]
pub struct Picks {
    pub meant: Option<u32>,
    pub overlap: bool,
    pub low: Pos,
    pub high: Pos,
}

// The first marks that are picked, as many as are wanted.
fn first_picked(
    alloc: Global,
    buffer: &Buffer,
    picks: Picks,
    wanted: usize,
) -> Result<Vec<Mark>, AllocError>
    requires order { is_before picks.high picks.low ≡ false }
    ensures { IfOk result (λ found. found.items
        ≡ take wanted (filter (is_picked picks) buffer.now.marks.marks)) }
{
    let query = Query {
        ns: picks.meant,
        from: picks.low,
        to: picks.high,
        reaching: picks.overlap,
    };
    let mut found = Vec::new(alloc);
    buffer.marks().select(&query, wanted, &mut found)?;
    Ok(found)
}

// All marks that are picked.
fn all_picked(alloc: Global, buffer: &Buffer, picks: Picks) -> Result<Vec<Mark>, AllocError>
    requires order { is_before picks.high picks.low ≡ false }
    ensures { IfOk result
        (λ found. found.items ≡ filter (is_picked picks) buffer.now.marks.marks) }
{
    first_picked(alloc, buffer, picks, buffer.marks().len())
}

// The marks from a first place on, no more of them than a limit.
fn marks_ahead(
    alloc: Global,
    buffer: &Buffer,
    picks: Picks,
    limit: Option<u64>,
) -> Result<Vec<Mark>, AllocError>
    requires order { is_before picks.high picks.low ≡ false }
    ensures { IfOk result (λ found. found.items
        ≡ first_marks limit (filter (is_picked picks) buffer.now.marks.marks)) }
{
    match limit {
        Some(limit) => first_picked(alloc, buffer, picks, limit as usize),
        None => all_picked(alloc, buffer, picks),
    }
}

// The same marks in reverse order, no more of them than a limit.
fn marks_back(
    alloc: Global,
    buffer: &Buffer,
    picks: Picks,
    limit: Option<u64>,
) -> Result<Vec<Mark>, AllocError>
    requires order { is_before picks.high picks.low ≡ false }
    ensures { IfOk result (λ found. found.items
        ≡ first_marks limit (reverse (filter (is_picked picks) buffer.now.marks.marks))) }
{
    let mut found = all_picked(alloc, buffer, picks)?;
    found.reverse();
    match limit {
        Some(limit) => {
            found.truncate(limit as usize);
            Ok(found)
        }
        None => Ok(found),
    }
}

// The marks from one place to another, in reverse order where that lies before it, and no more of
// them than a limit.
fn marks_from(
    alloc: Global,
    buffer: &Buffer,
    span: Span,
    overlap: bool,
    limit: Option<u64>,
) -> Result<Vec<Mark>, AllocError>
    ensures { IfOk result (λ found. found.items ≡ first_marks limit
        (marks_from span.meant overlap span.start span.stop buffer.now.marks.marks)) }
{
    let Span { meant, start, stop } = span;
    if stop.is_before(start) {
        let picks = Picks {
            meant,
            overlap,
            low: stop,
            high: start,
        };
        return marks_back(alloc, buffer, picks, limit);
    }
    let picks = Picks {
        meant,
        overlap,
        low: start,
        high: stop,
    };
    marks_ahead(alloc, buffer, picks, limit)
}

// Marks of a buffer as they are listed with their details.
fn detailed_marks(editor: &Editor, live: Live, marks: &[Mark]) -> Result<Value, AllocError>
    requires groups { All (IsOfGroups editor.now.stage.groups) marks.now }
    requires few { length marks.now < 2 ^ 32 }
    ensures told { IfOk result (λ value. content value
        ≡ array_of (map (listed_mark editor.now.stage live.handle true) marks.now)) }
    ensures spelled { IfOk result (λ value. HasSpelling (content value)) }
{
    let mut items = Vec::with_capacity(editor.alloc(), marks.len())?;
    for mark in marks {
        items.push(detailed_value(editor, live, *mark)?)?;
    }
    Ok(Value::List(items))
}

// Marks as they are listed without them.
fn plain_marks(alloc: Global, marks: &[Mark]) -> Result<Vec<Triple>, AllocError>
    ensures { IfOk result (λ triples. triples.items ≡ map listed_triple marks.now) }
{
    let mut triples = Vec::with_capacity(alloc, marks.len())?;
    for mark in marks {
        triples.push(listed_triple(*mark))?;
    }
    Ok(triples)
}

// Marks of a buffer as they are listed.
fn listed_marks(
    editor: &Editor,
    live: Live,
    details: bool,
    marks: &[Mark],
) -> Result<Outcome, AllocError>
    requires { All (IsOfGroups editor.now.stage.groups) marks.now }
    ensures told { IfOk result (λ outcome. outcome_content outcome
        ≡ array_of (map (listed_mark editor.now.stage live.handle details) marks.now)) }
    ensures spelled { IfOk result (λ outcome. HasSpelling (outcome_content outcome)) }
{
    let _ = spelled_length(marks.len())?;
    if details {
        let value = detailed_marks(editor, live, marks)?;
        return Ok(Outcome::One(CallResult::Value(value)));
    }
    let triples = plain_marks(editor.alloc(), marks)?;
    Ok(Outcome::One(CallResult::Triples(triples)))
}

// The place that one number names: 0 the first, -1 the last, another one that of a mark.
fn place_by_number(buffer: &Buffer, meant: Option<u32>, number: i64) -> Option<Pos>
    ensures { result ≡ place_by_number (seen_buffer_now buffer.now) meant number }
{
    if number == 0 {
        return Some(Pos { row: 0, col: 0 });
    }
    let text = buffer.text();
    if number == -1 {
        let row = text.count() as u32;
        return Some(Pos { row, col: 0 });
    }
    let Some(ns) = meant else {
        return None;
    };
    match mark_numbered(buffer, ns, number) {
        Some(mark) => Some(mark.start),
        None => None,
    }
}

// An integer, and 0 where a value is none.
fn integer_or_none(value: &Value) -> i64
    ensures { result ≡ unwrap_or (integer_of (content value.now)) (pos 0) }
{
    integer_of(value).unwrap_or(0)
}

// The place that two values name.
fn place_pair(buffer: &Buffer, values: &[Value]) -> Option<Pos>
    ensures { result ≡ place_pair buffer.now.text (map content values.now) }
{
    match values {
        [row, col] => place_or_last(buffer.text(), integer_or_none(row), integer_or_none(col)),
        _ => None,
    }
}

// The place that a value names.
fn place_of_value(buffer: &Buffer, meant: Option<u32>, value: &Value) -> Option<Pos>
    ensures { result ≡ place_of_value (seen_buffer_now buffer.now) meant (content value.now) }
{
    match value {
        Value::List(values) => place_pair(buffer, values.as_slice()),
        _ => place_by_number(buffer, meant, integer_or_none(value)),
    }
}

// The place that an argument names.
fn place_given(buffer: &Buffer, meant: Option<u32>, args: &Args, place: usize) -> Option<Pos>
    ensures { result ≡ place_of_value (seen_buffer_now buffer.now) meant
        (object_at (typed_arguments args.now) place) }
{
    match args.object(place) {
        Some(value) => place_of_value(buffer, meant, value),
        None => place_by_number(buffer, meant, 0),
    }
}

// The marks that the second to the fourth argument mean.
fn span_given(editor: &Editor, buffer: &Buffer, args: &Args) -> Result<Span, Fail>
    ensures row { (next : Span → Answer) → Decides
        (span_answer (seen_now editor.now) (seen_buffer_now buffer.now) (typed_arguments args.now)
        next) next result }
{
    let Some(meant) = meant_namespace(editor, args.number(1)) else {
        return Err(out_of_bounds(editor.alloc()));
    };
    let Some(start) = place_given(buffer, meant, args, 2) else {
        return Err(out_of_bounds(editor.alloc()));
    };
    let Some(stop) = place_given(buffer, meant, args, 3) else {
        return Err(out_of_bounds(editor.alloc()));
    };
    Ok(Span { meant, start, stop })
}

// The keys: how many marks at most, their details, and those that reach into the range.
fn listing_rules() -> [Rule; 3]
    ensures { map key_of result ≡ listing_keys }
{
    [
        Rule::optional("limit", Takes::From(1)),
        Rule::flag("details"),
        Rule::flag("overlap"),
    ]
}

// Refuses keys that a listing doesn't take.
fn listing_fault(alloc: Global, pairs: &[Pair]) -> Result<(), Fail>
    ensures { Finds result (map_fault listing_keys (last_pairs (map pair_content pairs.now))) }
{
    match pairs {
        [] => Ok(()),
        _ => map_fault(alloc, &listing_rules(), pairs),
    }
}

// The marks of a span as they are listed.
fn span_listed(
    editor: &Editor,
    live: Live,
    buffer: &Buffer,
    span: Span,
    pairs: &[Pair],
) -> Result<Outcome, AllocError>
    requires painted { All (IsOfGroups editor.now.stage.groups) buffer.now.marks.marks }
    ensures row { IfOk result (λ outcome. spanned_answer (seen_now editor.now) live.handle
        (seen_buffer_now buffer.now) (last_pairs (map pair_content pairs.now)) span
        ≡ reply_of (outcome_content outcome)) }
    ensures spelled { IfOk result (λ outcome. HasSpelling (outcome_content outcome)) }
{
    let alloc = editor.alloc();
    let overlap = flag_or(pairs, "overlap", false);
    let details = flag_or(pairs, "details", false);
    let limit = integer_from(pairs, "limit", 1);
    let marks = marks_from(alloc, buffer, span, overlap, limit)?;
    listed_marks(editor, live, details, marks.as_slice())
}

// The marks of a buffer that a call lists.
fn marks_told(
    editor: &Editor,
    live: Live,
    buffer: &Buffer,
    args: &Args,
    pairs: &[Pair],
) -> Result<Outcome, Fail>
    requires painted { All (IsOfGroups editor.now.stage.groups) buffer.now.marks.marks }
    ensures row { ReadsOutcome (marks_answer (seen_now editor.now) live.handle
        (seen_buffer_now buffer.now) (typed_arguments args.now)
        (last_pairs (map pair_content pairs.now))) result }
    ensures spelled { IfOk result (λ outcome. HasSpelling (outcome_content outcome)) }
{
    listing_fault(editor.alloc(), pairs)?;
    let span = span_given(editor, buffer, args)?;
    Ok(span_listed(editor, live, buffer, span, pairs)?)
}

/// `nvim_buf_get_extmarks`: the marks from one place to another, both included.
pub fn nvim_buf_get_extmarks(editor: &Editor, args: &Args) -> Result<Outcome, Fail>
    ensures row { (session : ℕ)
        → ReadsOutcome (nvim_buf_get_extmarks (seen_now editor.now) session
        (typed_arguments args.now)) result }
    ensures spelled { IfOk result (λ outcome. HasSpelling (outcome_content outcome)) }
{
    editor.known();
    let given = args.number(0);
    let handle = editor.named_buffer(given);
    match editor.buffer(handle) {
        Some(buffer) => marks_told(editor, Live { handle }, buffer, args, args.pairs(4)),
        None => Err(no_buffer(editor.alloc(), given)),
    }
}
