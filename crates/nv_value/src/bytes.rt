//! Bytes in order, which several owners share.
ghost use Rattle.std.specs.Prelude.{◌≡◌, ◌==◌, ◌^◌, ◌<◌, List, ℕ, [], length, IfOk, OnOk, slice_get};
ghost use Rattle.std.specs.Option.{option_copied};

use crate::block::Block;
use std::alloc::{AllocError, Global};
use std::marker::Model;

/// Any bytes, in order, fewer than 2^32. They need not be UTF-8. They never change, and who shares
/// them has the same memory.
#[derive(Drop)]
pub struct Bytes {
    block: Block,
}

impl Model for Bytes {
    ghost use Rattle.std.specs.Prelude.{List, ℕ};
    ghost use Rattle.nv_value.specs.inside.Block.{HoldsBytes, block_bytes};

    ghost Value = { List ℕ };

    ghost view = { λ b. block_bytes b.block };

    ghost invariant = { λ b. HoldsBytes b.block (block_bytes b.block) };
}

impl Bytes {
    /// No bytes.
    pub fn new(alloc: Global) -> Result<Bytes, AllocError>
        ensures { IfOk result (λ b. b ≡ []) }
    {
        Bytes::from_slice(alloc, &[])
    }

    /// The bytes of a vector. `AllocError` also where they are 2^32 or more.
    pub fn from_vec(items: Vec<u8>) -> Result<Bytes, AllocError>
        ensures bytes { IfOk result (λ b. b ≡ items.items) }
        ensures few { OnOk result (length items.items < 2 ^ 32) }
    {
        let block = Block::of_vec(items)?;
        Ok(Bytes { block })
    }

    /// The bytes of a slice, in memory of their own. `AllocError` also where they are 2^32 or more.
    pub fn from_slice(alloc: Global, items: &[u8]) -> Result<Bytes, AllocError>
        ensures bytes { IfOk result (λ b. b ≡ items.now) }
        ensures few { OnOk result (length items.now < 2 ^ 32) }
    {
        let block = Block::of_slice(alloc, items)?;
        Ok(Bytes { block })
    }

    /// The same bytes, shared: one owner more, and no bytes copied.
    pub fn share(&self) -> Result<Bytes, AllocError>
        ensures bytes { IfOk result (λ b. b ≡ self.now) }
        ensures few { OnOk result (length self.now < 2 ^ 32) }
    {
        let block = self.block.share()?;
        Ok(Bytes { block })
    }

    /// How many bytes there are.
    pub fn len(&self) -> usize
        ensures value { result ≡ length self.now }
        ensures few { result < 2 ^ 32 }
    {
        self.block.len()
    }

    /// Whether there is no byte.
    pub fn is_empty(&self) -> bool
        ensures { result ≡ (length self.now == 0) }
    {
        self.block.len() == 0
    }

    /// The byte at `place`, counted from 0, where there is one.
    pub fn get(&self, place: usize) -> Option<&u8>
        ensures { option_copied result ≡ slice_get self.now place }
    {
        self.as_slice().get(place)
    }

    /// All the bytes, lent.
    pub fn as_slice(&self) -> &[u8]
        ensures bytes { result.now ≡ self.now }
        ensures few { length result.now < 2 ^ 32 }
    {
        self.block.as_slice()
    }
}
