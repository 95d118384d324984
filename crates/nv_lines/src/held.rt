// Lines as a list holds them.
ghost use Rattle.std.specs.Prelude.{◌≡◌, ◌<◌, ◌≤◌, [], ◌∷◌, ◌++◌, length, IfOk, OnOk, OnErr, IfErr, slice_range, vec_capacity, vec_len};
ghost use Rattle.std.specs.Arc.{arc_value};
ghost use Rattle.std.specs.List.{splice};
ghost use Rattle.nv_lines.specs.inside.Held.{held_lines};

use crate::exchange::exchange;
use crate::gathering::add_shared;
use crate::single::Line;
use std::alloc::{AllocError, AllocFailed, Global};
use std::sync::Arc;
use std::{mem, slice};

/// One line, which takes no table, or a table of any number of lines, which other lists may share.
#[derive(Drop)]
pub enum Held {
    One(Line, Global),
    Many(Vec<Line>),
    Shared(Arc<Vec<Line>, Global>),
}

// A table of one line, with room for more.
fn table_of(alloc: Global, line: Line) -> Result<Vec<Line>, AllocError>
    ensures lines { IfOk result (λ lines. lines.items ≡ line ∷ []) }
    ensures room { IfOk result (λ lines. vec_len lines < vec_capacity lines) }
{
    let mut lines = Vec::with_capacity(alloc, 4)?;
    lines.push_reserved(line);
    Ok(lines)
}

// A table of shares of lines.
fn copied(alloc: Global, lines: &[Line]) -> Result<Vec<Line>, AllocError>
    ensures { IfOk result (λ copy. copy.items ≡ lines.now) }
{
    let mut copy = Vec::with_capacity(alloc, lines.len())?;
    add_shared(&mut copy, lines)?;
    Ok(copy)
}

/// Shares of lines. A single one takes no table.
pub fn shares(alloc: Global, lines: &[Line]) -> Result<Held, AllocError>
    ensures { IfOk result (λ held. held_lines held ≡ lines.now) }
{
    if let [line] = lines {
        return Ok(Held::One(line.share()?, alloc));
    }
    Ok(Held::Many(copied(alloc, lines)?))
}

// The lines of a table, which further lists may share from now on.
fn common(lines: Vec<Line>) -> Result<Held, AllocError>
    ensures { IfOk result (λ held. held_lines held ≡ lines.items) }
{
    let alloc = *lines.allocator();
    Ok(Held::Shared(Arc::new(alloc, lines)?))
}

// The lines of a table that others may share, in a table of their own. Where memory is wanting they
// come back.
fn own_table(lines: Arc<Vec<Line>, Global>) -> Result<Vec<Line>, Held>
    ensures ok { IfOk result (λ own. own.items ≡ (arc_value lines).items) }
    ensures err { IfErr result (λ held. held_lines held ≡ (arc_value lines).items) }
{
    match Arc::try_unwrap(lines) {
        Ok(own) => Ok(own),
        Err(lines) => match copied(*lines.allocator(), lines.as_slice()) {
            Ok(own) => Ok(own),
            Err(_) => Err(Held::Shared(lines)),
        },
    }
}

// The same, without the lines where memory is wanting.
fn copied_out(lines: Arc<Vec<Line>, Global>) -> Result<Vec<Line>, AllocError>
    ensures { IfOk result (λ own. own.items ≡ (arc_value lines).items) }
{
    match own_table(lines) {
        Ok(own) => Ok(own),
        Err(_) => Err(AllocError),
    }
}

// One line in a table. Where memory is wanting it comes back.
fn own_table_of(alloc: Global, line: Line) -> Result<Vec<Line>, Held>
    ensures ok { IfOk result (λ own. own.items ≡ line ∷ []) }
    ensures err { IfErr result (λ held. held_lines held ≡ line ∷ []) }
{
    match Vec::with_capacity(alloc, 4) {
        Ok(mut own) => {
            own.push_reserved(line);
            Ok(own)
        }
        Err(_) => Err(Held::One(line, alloc)),
    }
}

// The same with a share of the line.
fn shared_table(alloc: Global, line: &Line) -> Result<Vec<Line>, AllocError>
    ensures lines { IfOk result (λ lines. lines.items ≡ line.now ∷ []) }
    ensures room { IfOk result (λ lines. vec_len lines < vec_capacity lines) }
{
    let line = line.share()?;
    table_of(alloc, line)
}

// Puts a line in place of those from `from` up to before `to`, and gives those back.
fn exchange_one(
    lines: &mut Vec<Line>,
    from: usize,
    to: usize,
    line: Line,
) -> Result<Held, AllocError>
    requires order { from ≤ to }
    requires within { to ≤ length lines.old.items }
    ensures ok { OnOk result (lines.new.items ≡ splice lines.old.items from to (line ∷ [])) }
    ensures taken { IfOk result (λ taken. held_lines taken ≡ slice_range lines.old.items from to) }
    ensures err { OnErr result (lines.new.items ≡ lines.old.items) }
{
    let alloc = *lines.allocator();
    if from == to {
        lines.insert(from, line)?;
        return Ok(Held::Many(Vec::new(alloc)));
    }
    if to - from == 1 {
        let taken = mem::replace(&mut lines[from], line);
        return Ok(Held::One(taken, alloc));
    }
    let new = table_of(alloc, line)?;
    let taken = exchange(lines, from, to, new)?;
    Ok(Held::Many(taken))
}

// The same with the lines of a table. Where one line is taken, and none put, it takes no table.
fn exchange_many(
    lines: &mut Vec<Line>,
    from: usize,
    to: usize,
    new: Vec<Line>,
) -> Result<Held, AllocError>
    requires order { from ≤ to }
    requires within { to ≤ length lines.old.items }
    ensures ok { OnOk result (lines.new.items ≡ splice lines.old.items from to new.items) }
    ensures taken { IfOk result (λ taken. held_lines taken ≡ slice_range lines.old.items from to) }
    ensures err { OnErr result (lines.new.items ≡ lines.old.items) }
{
    if new.is_empty() && to - from == 1 {
        let alloc = *lines.allocator();
        return Ok(Held::One(lines.remove(from), alloc));
    }
    let taken = exchange(lines, from, to, new)?;
    Ok(Held::Many(taken))
}

// The same with any lines.
fn exchange_held(
    lines: &mut Vec<Line>,
    from: usize,
    to: usize,
    new: Held,
) -> Result<Held, AllocError>
    requires order { from ≤ to }
    requires within { to ≤ length lines.old.items }
    ensures ok { OnOk result (lines.new.items ≡ splice lines.old.items from to (held_lines new)) }
    ensures taken { IfOk result (λ taken. held_lines taken ≡ slice_range lines.old.items from to) }
    ensures err { OnErr result (lines.new.items ≡ lines.old.items) }
{
    match new {
        Held::One(line, _) => exchange_one(lines, from, to, line),
        Held::Many(new) => exchange_many(lines, from, to, new),
        Held::Shared(new) => {
            let new = copied_out(new)?;
            exchange_many(lines, from, to, new)
        }
    }
}

// The same in a copy of a table that others share, which then stands in its place.
fn exchange_copied(
    shared: &mut Arc<Vec<Line>, Global>,
    from: usize,
    to: usize,
    new: Held,
) -> Result<Held, AllocError>
    requires order { from ≤ to }
    requires within { to ≤ length (arc_value shared.old).items }
    ensures ok { OnOk result ((arc_value shared.new).items
        ≡ splice (arc_value shared.old).items from to (held_lines new)) }
    ensures taken { IfOk result
        (λ taken. held_lines taken ≡ slice_range (arc_value shared.old).items from to) }
    ensures err { OnErr result ((arc_value shared.new).items ≡ (arc_value shared.old).items) }
{
    let alloc = *shared.allocator();
    let mut lines = copied(alloc, shared.as_slice())?;
    let taken = exchange_held(&mut lines, from, to, new)?;
    *shared = Arc::new(alloc, lines)?;
    Ok(taken)
}

// The same in a table that others may share, for whom it stays as it is.
fn exchange_shared(
    shared: &mut Arc<Vec<Line>, Global>,
    from: usize,
    to: usize,
    new: Held,
) -> Result<Held, AllocError>
    requires order { from ≤ to }
    requires within { to ≤ length (arc_value shared.old).items }
    ensures ok { OnOk result ((arc_value shared.new).items
        ≡ splice (arc_value shared.old).items from to (held_lines new)) }
    ensures taken { IfOk result
        (λ taken. held_lines taken ≡ slice_range (arc_value shared.old).items from to) }
    ensures err { OnErr result ((arc_value shared.new).items ≡ (arc_value shared.old).items) }
{
    if let Some(lines) = Arc::get_mut(shared) {
        return exchange_held(lines, from, to, new);
    }
    exchange_copied(shared, from, to, new)
}

impl Held {
    /// All lines, lent.
    pub fn as_slice(&self) -> &[Line]
        ensures { result.now ≡ held_lines self.now }
    {
        match self {
            Held::One(line, _) => slice::from_ref(line),
            Held::Many(lines) => lines.as_slice(),
            Held::Shared(lines) => lines.as_slice(),
        }
    }

    /// The number of lines.
    pub fn len(&self) -> usize
        ensures { result ≡ length (held_lines self.now) }
    {
        match self {
            Held::One(_, _) => 1,
            Held::Many(lines) => lines.len(),
            Held::Shared(lines) => lines.len(),
        }
    }

    /// Where memory is taken from.
    pub fn alloc(&self) -> Global {
        match self {
            Held::One(_, alloc) => *alloc,
            Held::Many(lines) => *lines.allocator(),
            Held::Shared(lines) => *lines.allocator(),
        }
    }

    /// The lines in a table.
    pub fn into_vec(self) -> Result<Vec<Line>, AllocError>
        ensures { IfOk result (λ lines. lines.items ≡ held_lines self) }
    {
        match self {
            Held::One(line, alloc) => table_of(alloc, line),
            Held::Many(lines) => Ok(lines),
            Held::Shared(lines) => copied_out(lines),
        }
    }

    /// The lines in a table of their own. Where memory is wanting they come back.
    pub fn into_table(self) -> Result<Vec<Line>, Held>
        ensures ok { IfOk result (λ lines. lines.items ≡ held_lines self) }
        ensures err { IfErr result (λ held. held_lines held ≡ held_lines self) }
    {
        match self {
            Held::One(line, alloc) => own_table_of(alloc, line),
            Held::Many(lines) => Ok(lines),
            Held::Shared(lines) => own_table(lines),
        }
    }

    /// The same lines, in a table that further lists may share. A single line takes no table.
    pub fn in_common(self) -> Result<Held, AllocError>
        ensures { IfOk result (λ held. held_lines held ≡ held_lines self) }
    {
        match self {
            Held::Many(lines) => common(lines),
            other => Ok(other),
        }
    }

    /// The same lines, shared: one owner more of a table that others may share, and else of each
    /// line.
    pub fn share(&self) -> Result<Held, AllocError>
        ensures { IfOk result (λ held. held_lines held ≡ held_lines self.now) }
    {
        match self {
            Held::One(line, alloc) => Ok(Held::One(line.share()?, *alloc)),
            Held::Many(lines) => shares(*lines.allocator(), lines.as_slice()),
            Held::Shared(lines) => Ok(Held::Shared(Arc::try_clone(lines)?)),
        }
    }

    /// Adds a line at the end.
    pub fn push(&mut self, line: Line) -> Result<(), AllocFailed<Line>>
        ensures ok { OnOk result (held_lines self.new ≡ held_lines self.old ++ line ∷ []) }
        ensures err { OnErr result (held_lines self.new ≡ held_lines self.old) }
        ensures line_returned { IfErr result (λ e. e.value ≡ line) }
    {
        match self {
            Held::One(first, alloc) => {
                let Ok(mut lines) = shared_table(*alloc, first) else {
                    return Err(AllocFailed { value: line });
                };
                lines.push_reserved(line);
                *self = Held::Many(lines);
                Ok(())
            }
            Held::Many(lines) => lines.push(line),
            Held::Shared(lines) => {
                let Ok(mut own) = copied(*lines.allocator(), lines.as_slice()) else {
                    return Err(AllocFailed { value: line });
                };
                own.push(line)?;
                *self = Held::Many(own);
                Ok(())
            }
        }
    }

    /// Puts `new` in place of the lines from `from` up to before `to`, and gives those back. Where
    /// memory is wanting nothing changes.
    pub fn replace(&mut self, from: usize, to: usize, new: Held) -> Result<Held, AllocError>
        requires order { from ≤ to }
        requires within { to ≤ length (held_lines self.old) }
        ensures ok { OnOk result
            (held_lines self.new ≡ splice (held_lines self.old) from to (held_lines new)) }
        ensures taken { IfOk result
            (λ taken. held_lines taken ≡ slice_range (held_lines self.old) from to) }
        ensures err { OnErr result (held_lines self.new ≡ held_lines self.old) }
    {
        match self {
            Held::One(line, alloc) => {
                let mut lines = shared_table(*alloc, line)?;
                let taken = exchange_held(&mut lines, from, to, new)?;
                *self = common(lines)?;
                Ok(taken)
            }
            Held::Many(lines) => exchange_held(lines, from, to, new),
            Held::Shared(lines) => exchange_shared(lines, from, to, new),
        }
    }
}
