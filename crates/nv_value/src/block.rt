//! Bytes in place where they are very few, and in one allocation with the count of their owners
//! where they are few.
ghost use Rattle.std.specs.Prelude.{◌≡◌, ◌≤◌, length, IfOk};
ghost use Rattle.nv_value.specs.inside.Block.{HoldsBytes, block_bytes, block_len, IsInRoom};

use crate::length::spelled_length;
use std::alloc::{AllocError, Global};
use std::sync::{Arc, ArcSlice};

/// How many bytes there are, and where: as many as a handle has room for stand in it. A room of 32
/// times k bytes fits a block of the C library's allocator with its count of owners.
#[derive(Drop)]
pub enum Block {
    Held(u8, [u8; 14]),
    Tiny(u32, Arc<[u8; 32], Global>),
    Short(u32, Arc<[u8; 64], Global>),
    Middle(u32, Arc<[u8; 96], Global>),
    Wide(u32, Arc<[u8; 128], Global>),
    Long(u32, ArcSlice<u8, Global>),
}

fn held(items: &[u8]) -> Block
    requires { length items.now ≤ 14 }
    ensures { HoldsBytes result items.now }
{
    let len = items.len();
    let mut room = [0u8; 14];
    room[..len].copy_from_slice(items);
    Block::Held(len as u8, room)
}

fn tiny(alloc: Global, items: &[u8]) -> Result<Block, AllocError>
    requires { length items.now ≤ 32 }
    ensures { IfOk result (λ block. HoldsBytes block items.now) }
{
    let len = items.len();
    let mut room = [0u8; 32];
    room[..len].copy_from_slice(items);
    Ok(Block::Tiny(len as u32, Arc::new(alloc, room)?))
}

fn short(alloc: Global, items: &[u8]) -> Result<Block, AllocError>
    requires { length items.now ≤ 64 }
    ensures { IfOk result (λ block. HoldsBytes block items.now) }
{
    let len = items.len();
    let mut room = [0u8; 64];
    room[..len].copy_from_slice(items);
    Ok(Block::Short(len as u32, Arc::new(alloc, room)?))
}

fn middle(alloc: Global, items: &[u8]) -> Result<Block, AllocError>
    requires { length items.now ≤ 96 }
    ensures { IfOk result (λ block. HoldsBytes block items.now) }
{
    let len = items.len();
    let mut room = [0u8; 96];
    room[..len].copy_from_slice(items);
    Ok(Block::Middle(len as u32, Arc::new(alloc, room)?))
}

fn wide(alloc: Global, items: &[u8]) -> Result<Block, AllocError>
    requires { length items.now ≤ 128 }
    ensures { IfOk result (λ block. HoldsBytes block items.now) }
{
    let len = items.len();
    let mut room = [0u8; 128];
    room[..len].copy_from_slice(items);
    Ok(Block::Wide(len as u32, Arc::new(alloc, room)?))
}

fn long(alloc: Global, items: &[u8]) -> Result<Block, AllocError>
    ensures { IfOk result (λ block. HoldsBytes block items.now) }
{
    let len = spelled_length(items.len())?;
    Ok(Block::Long(len, ArcSlice::from_slice(alloc, items)?))
}

impl Block {
    /// The bytes of a slice, in memory of their own.
    pub fn of_slice(alloc: Global, items: &[u8]) -> Result<Block, AllocError>
        ensures { IfOk result (λ block. HoldsBytes block items.now) }
    {
        match items.len() {
            0..=14 => Ok(held(items)),
            15..=32 => tiny(alloc, items),
            33..=64 => short(alloc, items),
            65..=96 => middle(alloc, items),
            97..=128 => wide(alloc, items),
            _ => long(alloc, items),
        }
    }

    /// The bytes of a vector, whose memory is taken over where they are many.
    pub fn of_vec(items: Vec<u8>) -> Result<Block, AllocError>
        ensures { IfOk result (λ block. HoldsBytes block items.items) }
    {
        if items.len() <= 128 {
            return Block::of_slice(*items.allocator(), items.as_slice());
        }
        let len = spelled_length(items.len())?;
        Ok(Block::Long(len, ArcSlice::from_vec(items)?))
    }

    /// The same bytes, shared.
    pub fn share(&self) -> Result<Block, AllocError>
        ensures bytes { IfOk result (λ block. block_bytes block ≡ block_bytes self.now) }
        ensures len { IfOk result (λ block. block_len block ≡ block_len self.now) }
        ensures room { IsInRoom self.now → IfOk result IsInRoom }
    {
        match self {
            Block::Held(len, room) => Ok(Block::Held(*len, *room)),
            Block::Tiny(len, room) => Ok(Block::Tiny(*len, room.clone()?)),
            Block::Short(len, room) => Ok(Block::Short(*len, room.clone()?)),
            Block::Middle(len, room) => Ok(Block::Middle(*len, room.clone()?)),
            Block::Wide(len, room) => Ok(Block::Wide(*len, room.clone()?)),
            Block::Long(len, items) => Ok(Block::Long(*len, items.clone()?)),
        }
    }

    /// How many bytes there are.
    pub fn len(&self) -> usize
        ensures { result ≡ block_len self.now }
    {
        match self {
            Block::Held(len, _) => *len as usize,
            Block::Tiny(len, _) => *len as usize,
            Block::Short(len, _) => *len as usize,
            Block::Middle(len, _) => *len as usize,
            Block::Wide(len, _) => *len as usize,
            Block::Long(len, _) => *len as usize,
        }
    }

    /// All the bytes, lent.
    pub fn as_slice(&self) -> &[u8]
        requires { IsInRoom self.now }
        ensures { result.now ≡ block_bytes self.now }
    {
        match self {
            Block::Held(len, room) => &room[..*len as usize],
            Block::Tiny(len, room) => &room[..*len as usize],
            Block::Short(len, room) => &room[..*len as usize],
            Block::Middle(len, room) => &room[..*len as usize],
            Block::Wide(len, room) => &room[..*len as usize],
            Block::Long(_, items) => items.as_slice(),
        }
    }
}
