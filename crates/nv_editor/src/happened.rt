//! What others are told of a call.
ghost use Rattle.std.specs.Prelude.{◌≡◌, ◌≤◌, ◌++◌, ◌∷◌, [], length, map, take, OnOk, OnErr};
ghost use Rattle.nv_editor.specs.Facts.{fact_of};

use nv_buffer::Spliced;
use nv_lines::Excerpt;
use std::alloc::{AllocError, Global};
use std::marker::Model;

/// What others are told of a call (help: api-buffer-updates). Buffers are named by their handles.
#[derive(Drop)]
pub enum Fact {
    /// The session of the call attaches to a buffer at this changedtick, with its lines where they
    /// are to be sent, which share the tables of the text.
    Attached {
        buffer: i64,
        tick: i64,
        whole: Option<Excerpt>,
    },
    /// The session of the call detaches from a buffer.
    Detached {
        buffer: i64,
    },
    /// A splice of a buffer's text.
    Edited {
        buffer: i64,
        spliced: Spliced,
    },
    /// A buffer is deleted.
    Deleted {
        buffer: i64,
    },
    /// The editor ends.
    Quit,
}

/// The facts of a call, in their order.
#[derive(Drop)]
pub struct Happened {
    facts: Vec<Fact>,
}

impl Model for Happened {
    ghost use Rattle.std.specs.Prelude.{List};
    ghost use Rattle.nv_model.specs.Answers.{Fact};

    ghost Value = { List Fact };

    ghost use Rattle.nv_editor.specs.Facts.{facts_of};

    ghost view = { λ happened. facts_of happened.facts.items };
}

impl Happened {
    /// No facts yet.
    pub fn new(alloc: Global) -> Happened
        ensures { result ≡ [] }
    {
        Happened {
            facts: Vec::new(alloc),
        }
    }

    /// Puts a fact at the end. Where memory is wanting nothing changes.
    pub fn push(&mut self, fact: Fact) -> Result<(), AllocError>
        ensures ok { OnOk result (self.new ≡ self.old ++ fact_of fact ∷ []) }
        ensures err { OnErr result (self.new ≡ self.old) }
    {
        if self.facts.is_empty() {
            self.facts.reserve_exact(1)?;
        }
        self.facts.push(fact)?;
        Ok(())
    }

    /// The number of facts.
    pub fn len(&self) -> usize
        ensures { result ≡ length self.now }
    {
        self.facts.len()
    }

    /// The facts in their order.
    pub fn facts(&self) -> &[Fact]
        ensures { map fact_of result.now ≡ self.now }
    {
        self.facts.as_slice()
    }

    /// The facts in their order, taken out.
    pub fn into_facts(self) -> Vec<Fact>
        ensures { map fact_of result.items ≡ self }
    {
        self.facts
    }

    /// Leaves the first `len` facts.
    pub fn truncate(&mut self, len: usize)
        ensures { self.new ≡ take len self.old }
    {
        self.facts.truncate(len);
    }
}
