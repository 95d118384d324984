// Sets, moves, lists and finds the marks of a buffer: what bench/marks.py measures.
ghost use Rattle.nv_buffer.specs.Marks.{IsMarkIn};
ghost use Rattle.nv_places.specs.Places.{IsPlaceIn};
ghost use Rattle.std.specs.Prelude.{◌↔◌, IsTrue};

use nv_buffer::{Buffer, Far, Line, LineList, Lines, Mark, MarkSet, Pos, is_narrow};
use nv_lines::is_line;
use std::alloc::{AllocError, Global};
use std::io;
use std::time::{Duration, Instant};

/// The namespace of all marks.
const NS: u32 = 1;

/// How often a line is put in front and taken out again.
const EDITS: u32 = 500;

/// The column behind the last byte of a line.
const LINE_END: u32 = 20;

/// Numbers that look random, the same in each run (Numerical Recipes, "ranqd1").
#[derive(Clone, Copy)]
struct Dice {
    state: u32,
}

impl Dice {
    /// The next number below `count`, and 0 where there is none.
    fn below(&mut self, count: u32) -> u32 {
        self.state = self.state.wrapping_mul(1664525).wrapping_add(1013904223);
        if count == 0 {
            return 0;
        }
        (self.state >> 8) % count
    }

    /// A place behind the first line.
    fn place(&mut self, count: u32) -> Pos {
        Pos {
            row: self.below(count).saturating_add(1),
            col: self.below(LINE_END).saturating_add(1),
        }
    }
}

/// What is measured: how many marks, and whether they have ends.
#[derive(Clone, Copy)]
pub(crate) struct Plan {
    pub count: u32,
    pub ends: bool,
}

impl Plan {
    /// The mark of an id at a place; its end is that of a line up to three rows further on.
    fn mark(&self, id: u32, start: Pos) -> Mark {
        let row = start.row.saturating_add(3).min(self.count);
        let end = Far {
            pos: Pos { row, col: LINE_END },
            right: false,
        };
        Mark {
            ns: NS,
            id,
            start,
            right: true,
            stop: if self.ends { Some(end) } else { None },
            paint: None,
            priority: 4096,
            restore: true,
            invalidate: false,
            hidden: false,
            set: 0,
        }
    }
}

/// Whether a place is one of a text: in a row, up to the end of its line, or at the end of it all.
fn is_place(text: &Lines, place: Pos) -> bool
    ensures { IsTrue result ↔ IsPlaceIn text.now place }
{
    match text.get(place.row as usize) {
        Some(line) => place.col as usize <= line.len(),
        None => place.row as usize == text.count() && place.col == 0,
    }
}

/// Whether start and end of a mark are places of a text.
fn is_in(text: &Lines, mark: &Mark) -> bool
    ensures { IsTrue result → IsMarkIn text.now mark.now }
{
    match mark.stop {
        Some(far) => is_place(text, mark.start) && is_place(text, far.pos),
        None => is_place(text, mark.start),
    }
}

/// Sets a mark, where it is one of the text.
fn set(buffer: &mut Buffer, mark: Mark) -> Result<(), AllocError> {
    if !is_in(buffer.text(), &mark) {
        return Ok(());
    }
    buffer.set_mark(mark)
}

/// Puts lines in place of the rows up to before `to`, where the call's conditions hold.
fn put(buffer: &mut Buffer, to: usize, new: LineList) -> Result<(), AllocError> {
    let count = buffer.text().count();
    if to > count {
        return Ok(());
    }
    if to == count && new.len() == 0 {
        return Ok(());
    }
    if new.len() > u32::MAX as usize - count {
        return Ok(());
    }
    if !is_narrow(&new) {
        return Ok(());
    }
    if buffer.tick() == i64::MAX {
        return Ok(());
    }
    let _spliced = buffer.put_lines(0, to, new)?;
    buffer.seal()
}

/// So many times the same line.
fn lines(alloc: Global, line: &Line, count: u32) -> Result<LineList, AllocError> {
    let mut list = LineList::new(alloc);
    for _ in 0..count {
        list.push(line.share()?)?;
    }
    Ok(list)
}

fn line(alloc: Global) -> Result<Line, AllocError> {
    let bytes = Vec::from_slice(alloc, b"let column = 0; // x")?;
    if !is_line(bytes.as_slice()) {
        return Line::new(alloc);
    }
    Line::from_vec(bytes)
}

/// Sets each mark at a place that looks random.
fn set_all(buffer: &mut Buffer, plan: Plan, dice: &mut Dice) -> Result<(), AllocError> {
    for id in 1..=plan.count {
        set(buffer, plan.mark(id, dice.place(plan.count)))?;
    }
    Ok(())
}

/// Puts a line in front and takes it out again.
fn edit_all(alloc: Global, buffer: &mut Buffer, line: &Line) -> Result<(), AllocError> {
    for _ in 0..EDITS {
        put(buffer, 0, lines(alloc, line, 1)?)?;
        put(buffer, 1, LineList::new(alloc))?;
    }
    Ok(())
}

/// The rows and columns of a mark's start and end, added up.
fn sum_of(mark: &Mark) -> u64 {
    let start = u64::from(mark.start.row).wrapping_add(u64::from(mark.start.col));
    match mark.stop {
        Some(far) => start
            .wrapping_add(u64::from(far.pos.row))
            .wrapping_add(u64::from(far.pos.col)),
        None => start,
    }
}

/// All marks, in their order.
fn list_all(alloc: Global, marks: &MarkSet) -> Result<Vec<Mark>, AllocError> {
    let mut found = Vec::new(alloc);
    let first = Pos { row: 0, col: 0 };
    let last = Pos {
        row: u32::MAX,
        col: u32::MAX,
    };
    marks.range(first, last, usize::MAX, &mut found)?;
    Ok(found)
}

/// The sum of these marks.
fn sum_of_all(marks: &[Mark]) -> u64 {
    let mut sum = 0u64;
    for mark in marks {
        sum = sum.wrapping_add(sum_of(mark));
    }
    sum
}

/// The sum of as many marks as there are, each found by an id that looks random.
fn find_all(marks: &MarkSet, count: u32, dice: &mut Dice) -> u64 {
    let mut sum = 0u64;
    for _ in 0..count {
        let id = dice.below(count).saturating_add(1);
        if let Some(mark) = marks.find(NS, id) {
            sum = sum.wrapping_add(sum_of(&mark));
        }
    }
    sum
}

/// What a work came to, and how long it took.
#[derive(Clone, Copy)]
struct Told {
    sum: u64,
    taken: Duration,
}

fn set_told(
    rt: &HostRuntime,
    buffer: &mut Buffer,
    plan: Plan,
    dice: &mut Dice,
) -> io::Result<Told> {
    let start = Instant::now(rt)?;
    set_all(buffer, plan, dice)?;
    let taken = start.elapsed(rt)?;
    Ok(Told {
        sum: buffer.marks().len() as u64,
        taken,
    })
}

fn edit_told(rt: &HostRuntime, buffer: &mut Buffer, line: &Line) -> io::Result<Told> {
    let start = Instant::now(rt)?;
    edit_all(rt.alloc(), buffer, line)?;
    let taken = start.elapsed(rt)?;
    Ok(Told {
        sum: buffer.changes(),
        taken,
    })
}

fn list_told(rt: &HostRuntime, marks: &MarkSet) -> io::Result<Told> {
    let start = Instant::now(rt)?;
    let found = list_all(rt.alloc(), marks)?;
    let taken = start.elapsed(rt)?;
    Ok(Told {
        sum: sum_of_all(found.as_slice()),
        taken,
    })
}

fn find_told(rt: &HostRuntime, marks: &MarkSet, plan: Plan, dice: &mut Dice) -> io::Result<Told> {
    let start = Instant::now(rt)?;
    let sum = find_all(marks, plan.count, dice);
    let taken = start.elapsed(rt)?;
    Ok(Told { sum, taken })
}

/// A line for a work, with its time where that is wanted.
fn tell(rt: &HostRuntime, work: &str, told: Told, timed: bool) -> io::Result<()> {
    let Told { sum, taken } = told;
    if timed {
        return println!(rt; "{work}: {sum}, {} ns", taken.as_nanos());
    }
    println!(rt; "{work}: {sum}")
}

/// Does each work once, in a buffer with its text.
fn work(
    rt: &HostRuntime,
    buffer: &mut Buffer,
    line: &Line,
    plan: Plan,
    timed: bool,
) -> io::Result<()> {
    let mut dice = Dice { state: 1 };
    tell(rt, "set", set_told(rt, buffer, plan, &mut dice)?, timed)?;
    tell(
        rt,
        "set again",
        set_told(rt, buffer, plan, &mut dice)?,
        timed,
    )?;
    tell(rt, "edit", edit_told(rt, buffer, line)?, timed)?;
    tell(rt, "list", list_told(rt, buffer.marks())?, timed)?;
    tell(
        rt,
        "find",
        find_told(rt, buffer.marks(), plan, &mut dice)?,
        timed,
    )
}

/// A buffer with a line in front and as many lines behind it as there are marks.
fn filled(alloc: Global, line: &Line, plan: Plan) -> Result<Buffer, AllocError> {
    let mut buffer = Buffer::new(alloc, 1)?;
    put(
        &mut buffer,
        1,
        lines(alloc, line, plan.count.saturating_add(1))?,
    )?;
    Ok(buffer)
}

/// Does the works in a text that has one line in front and as many lines behind it as there are
/// marks, each of 20 bytes: each mark is set at a place that looks random, each is set again
/// elsewhere, a line is put in front of all of them and taken out again some hundred times, all are
/// listed, and as many are found. A line for each work tells a sum of what it came to, and the
/// nanoseconds that it took where that is wanted.
pub(crate) fn run(rt: &HostRuntime, plan: Plan, timed: bool) -> io::Result<()> {
    let line = line(rt.alloc())?;
    let mut buffer = filled(rt.alloc(), &line, plan)?;
    work(rt, &mut buffer, &line, plan, timed)
}
