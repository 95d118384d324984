//! The names that calls give, shared by the calls that give them again.
ghost use Rattle.std.specs.Prelude.{◌≡◌, IfOk};

use nv_value::Bytes;
use std::alloc::{AllocError, Global};

// How many names are kept.
const KEPT: usize = 16;

/// Names that calls gave, each kept until another one takes its place.
#[derive(Drop)]
pub struct Names {
    kept: Vec<Bytes>,
}

// Where a name is kept: most names of methods differ in their length or their last byte.
fn place_of(name: &[u8]) -> usize {
    match name.last() {
        Some(last) => name.len().wrapping_add(*last as usize) % KEPT,
        None => 0,
    }
}

impl Names {
    /// No names yet.
    pub fn new(alloc: Global) -> Result<Names, AllocError> {
        let mut kept = Vec::with_capacity(alloc, KEPT)?;
        for _ in 0..KEPT {
            kept.push(Bytes::new(alloc)?)?;
        }
        Ok(Names { kept })
    }

    /// A name as bytes, which are shared with those that were given for it before, where it is
    /// still kept.
    pub fn shared(&mut self, alloc: Global, name: &[u8]) -> Result<Bytes, AllocError>
        ensures { IfOk result (λ bytes. bytes ≡ name.now) }
    {
        let Some(kept) = self.kept.get_mut(place_of(name)) else {
            return Bytes::from_slice(alloc, name);
        };
        if kept.as_slice() != name {
            *kept = Bytes::from_slice(alloc, name)?;
        }
        kept.share()
    }
}
