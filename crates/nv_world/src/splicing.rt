//! The splices that a call makes in buffers, by what it tells.
ghost use Rattle.std.specs.Prelude.{◌≡◌, ◌++◌, OnOk};
ghost use Rattle.nv_editor.specs.Facts.{fact_of, facts_of};
ghost use Rattle.nv_world.specs.inside.Splicing.{splice_told, splices_told};

use crate::step::Moved;
use nv_editor::Fact;
use std::alloc::AllocError;

// Puts the splice that a fact tells of behind others, where it tells of one.
fn put_splice(fact: &Fact, splices: &mut Vec<Moved>) -> Result<(), AllocError>
    ensures { OnOk result (splices.new.items
        ≡ splices.old.items ++ splice_told (fact_of fact.now)) }
{
    match fact {
        Fact::Edited { buffer, spliced } => {
            splices.push(Moved {
                buffer: *buffer,
                at: spliced.edit.at,
                old: spliced.edit.old,
                new: spliced.edit.new,
                change: spliced.edit.part.change,
                part: spliced.edit.part.part,
                back: spliced.edit.part.back,
            })?;
            Ok(())
        }
        Fact::Attached { .. } | Fact::Detached { .. } | Fact::Deleted { .. } | Fact::Quit => Ok(()),
    }
}

/// Puts the splices that facts tell of behind others, in their order.
pub fn put_splices(facts: &[Fact], splices: &mut Vec<Moved>) -> Result<(), AllocError>
    ensures { OnOk result (splices.new.items
        ≡ splices.old.items ++ splices_told (facts_of facts.now)) }
{
    for fact in facts {
        put_splice(fact, splices)?;
    }
    Ok(())
}
