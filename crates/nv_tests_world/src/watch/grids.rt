//! A watcher of redraw events that is shown steps, true ones and altered ones.

use crate::asking::attach_ui;
use crate::watch::show_sent;
use nv_core::Event;
use nv_dispatch::usual_limits;
use nv_watch::{GridFold, Verdict, Watcher};
use nv_world::World;
use std::alloc::{AllocError, Global};
use std::test::Fail;

// What a session is sent that attaches a UI of 12 columns and 4 rows, written by hand: the reply,
// and the first batch.
const FIRST: &[u8] = b"\x94\x01\x01\xc0\xc0\x93\x02\xa6redraw\x97\
    \x92\xabgrid_resize\x93\x01\x0c\x04\
    \x92\xb2default_colors_set\x95\xce\x00\xff\xff\xff\x00\xce\x00\xff\x00\x00\x00\x00\
    \x93\xaehl_attr_define\x94\x01\x81\xa4bold\xc3\x81\xa4bold\xc3\x90\
    \x94\x02\x82\xa7reverse\xc3\xa4bold\xc3\x82\xa7reverse\xc3\xa4bold\xc3\x90\
    \x92\xaagrid_clear\x91\x01\
    \x93\xa9grid_line\x95\x01\x01\x00\x91\x92\xa1~\x01\xc2\
    \x95\x01\x02\x00\x9a\x92\xa1[\x02\x91\xa1N\x91\xa1o\x91\xa1 \x91\xa1N\x91\xa1a\x91\xa1m\
    \x91\xa1e\x91\xa1]\x93\xa1 \x02\x03\xc2\
    \x92\xb0grid_cursor_goto\x93\x01\x00\x00\
    \x92\xa5flush\x90";

// The first batch with this byte at a place.
fn altered(alloc: Global, place: usize, byte: u8) -> Result<Vec<u8>, AllocError> {
    let mut sent = Vec::from_slice(alloc, FIRST)?;
    if place < sent.len() {
        sent[place] = byte;
    }
    Ok(sent)
}

// What a watcher says where the session is sent these bytes.
fn said(alloc: Global, world: &World, sent: &[u8]) -> Result<Verdict, AllocError> {
    let mut fold = GridFold::new(alloc);
    show_sent(alloc, &mut fold, world, sent)?;
    Ok(fold.verdict())
}

fn verdict(alloc: Global, world: &World, place: usize, byte: u8) -> Result<Verdict, AllocError> {
    let sent = altered(alloc, place, byte)?;
    said(alloc, world, sent.as_slice())
}

// A session opens, attaches a UI, and takes what is due. The true batch, one with another letter,
// one with another default colour, one with the cursor in another row, and one with the cursor in a
// row that isn't there.
fn verdicts_of(alloc: Global, world: &mut World) -> Result<[Verdict; 5], AllocError> {
    let _ = world.apply(0, Event::Open);
    let _ = world.apply(0, attach_ui(alloc, 1, 12, 4)?);
    let _ = world.apply(0, Event::Take { session: 1 });
    Ok([
        verdict(alloc, world, 166, b'~')?,
        verdict(alloc, world, 166, b'x')?,
        verdict(alloc, world, 55, 0xfe)?,
        verdict(alloc, world, 228, 1)?,
        verdict(alloc, world, 228, 9)?,
    ])
}

fn verdicts(alloc: Global) -> Result<[Verdict; 5], AllocError> {
    let mut world = World::new(alloc, usual_limits(), 16)?;
    verdicts_of(alloc, &mut world)
}

#[test]
fn grid_folds_say_no(rt: HostRuntime) -> Result<(), Fail> {
    let verdicts = verdicts(rt.alloc())?;
    let no = Verdict::No(2);
    assert_eq!(rt; verdicts, [Verdict::Yes, no, no, no, no]);
    Ok(())
}
