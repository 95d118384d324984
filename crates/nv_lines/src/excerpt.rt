// Lines of a text that share its tables.
ghost use Rattle.std.specs.Prelude.{◌≡◌, [], ◌++◌, length, IfOk, OnOk, OnErr};
ghost use Rattle.nv_lines.specs.Excerpts.{list_lines};

use crate::listing::LineList;
use nv_value::spelled_length;
use std::alloc::{AllocError, Global};
use std::marker::Model;

/// Lines in order, as they stand in a text, in lists that share its tables: what it takes of memory
/// is a few bytes for each 48 lines or more. They stay as they were when the text changes. They are
/// fewer than 2^32, so that a spelling can tell them.
#[derive(Drop)]
pub struct Excerpt {
    lists: Vec<LineList>,
    count: u32,
}

impl Model for Excerpt {
    ghost use Rattle.std.specs.Prelude.{◌≡◌, List, ℕ, length};
    ghost use Rattle.nv_lines.specs.Excerpts.{list_lines};

    ghost Value = { List (List ℕ) };

    ghost view = { λ excerpt. list_lines excerpt.lists.items };

    ghost invariant = { λ excerpt. excerpt.count ≡ length (list_lines excerpt.lists.items) };
}

impl Excerpt {
    /// No lines.
    pub fn new(alloc: Global) -> Excerpt
        ensures { result ≡ [] }
    {
        Excerpt {
            lists: Vec::new(alloc),
            count: 0,
        }
    }

    /// No lines, with room for so many lists.
    pub fn with_room(alloc: Global, lists: usize) -> Result<Excerpt, AllocError>
        ensures { IfOk result (λ excerpt. excerpt ≡ []) }
    {
        Ok(Excerpt {
            lists: Vec::with_capacity(alloc, lists)?,
            count: 0,
        })
    }

    /// Adds the lines of a list at the end. `AllocError` also where they would be 2^32 or more.
    pub fn push(&mut self, list: LineList) -> Result<(), AllocError>
        ensures ok { OnOk result (self.new ≡ self.old ++ list) }
        ensures err { OnErr result (self.new ≡ self.old) }
    {
        let more = spelled_length(list.len())?;
        let count = spelled_length(self.count as usize + more as usize)?;
        self.lists.push(list)?;
        self.count = count;
        Ok(())
    }

    /// The same lines: no bytes are copied.
    pub fn share(&self) -> Result<Excerpt, AllocError>
        ensures { IfOk result (λ excerpt. excerpt ≡ self.now) }
    {
        let mut excerpt = Excerpt::with_room(*self.lists.allocator(), self.lists.len())?;
        for list in &self.lists {
            excerpt.push(list.share()?)?;
        }
        Ok(excerpt)
    }

    /// The number of lines.
    pub fn len(&self) -> usize
        ensures { result ≡ length self.now }
    {
        self.count as usize
    }

    /// The lists that the lines stand in, in order.
    pub fn lists(&self) -> &[LineList]
        ensures { list_lines result.now ≡ self.now }
    {
        self.lists.as_slice()
    }
}
