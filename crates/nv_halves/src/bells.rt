//! Bells: how a writer that took what is due sleeps until more is, and a reader whose call is to
//! wait until what is due was taken.
//!
//! Each lane has a bell, with a word for each half. A writer reads its word before it takes, and
//! then sleeps on the word; a reader reads its own before it tries a call again, and sleeps only
//! where the call is to wait. Whoever makes something due adds one to the word of the writer, and a
//! writer that took, or ends, to that of its reader; then they look whether anybody sleeps on it.
//! So no ring is lost, and where nobody sleeps no call of the system is made. Nothing is proved of
//! any of this but that it is safe: a pause of ten seconds is the net.
//!
//! Calls that came together make things due one after another, and their reader rings once for all
//! of them, after the last one at hand; before that only where so much is due that it is to go out,
//! or where it is about to wait or to end. Until then it says that it is asking, and nobody else
//! rings for its session. Where they are many it makes them in a row: one reader at a time has the
//! row, a word in the bell of the first lane, and who waits for it sleeps until it is handed on,
//! from lane to lane. A few calls need none.

use nv_core::Core;
use std::sync::Wait;
use std::sync::atomic::{AtomicU64, Ordering};
use std::time::Duration;

// For how many milliseconds a half sleeps at most.
const LONGEST_SLEEP: u64 = 10_000;

// How many calls that came together a reader makes in a row at most, before others make theirs.
const LONGEST_ROW: u64 = 64;

// How many bytes of calls are at hand at least where they are made in a row. Those behind are made
// while the next reader that waits for the row wakes.
const SHORTEST_ROW: usize = 512;

// How often who gives the row back looks whether somebody has come to wait for it meanwhile.
const MOST_LOOKS: u32 = 1000;

// What the word of the row says: no reader makes calls in a row, or one does.
const FREE: u64 = 0;

const TAKEN: u64 = 1;

// What a reader says of the row: it waits for it, or is given it. Else it says 0.
const WAITS: u64 = 1;

const GIVEN: u64 = 2;

// How often a word was rung, in the 32 bits on which `sleep_on` sleeps.
fn heard_on(word: &AtomicU64) -> u32 {
    (word.load(Ordering::SeqCst) & 0xffff_ffff) as u32
}

// Sleeps until a word is rung, where it wasn't since `heard_on` told this; for ten seconds at most.
fn sleep_on<R: Wait>(rt: &R, word: &AtomicU64, asleep: &AtomicU64, heard: u32) {
    if heard_on(word) != heard {
        return;
    }
    asleep.fetch_add(1, Ordering::SeqCst);
    word.park_timeout(rt, heard, Duration::from_millis(LONGEST_SLEEP));
    asleep.fetch_sub(1, Ordering::SeqCst);
}

// Rings a word, and wakes who sleeps on it.
fn ring_on(word: &AtomicU64, asleep: &AtomicU64) {
    word.fetch_add(1, Ordering::SeqCst);
    if asleep.load(Ordering::SeqCst) != 0 {
        word.wake_one();
    }
}

/// The bell of one lane.
#[derive(Drop)]
pub struct Bell {
    // How often its writer was rung.
    word: AtomicU64,
    // How many sleep on that.
    asleep: AtomicU64,
    // How often its reader was rung.
    taken: AtomicU64,
    // How many sleep on that.
    waiting: AtomicU64,
    // The session that the lane serves, 0 where it serves none.
    session: AtomicU64,
    // 1 while its reader makes calls and has more of them at hand. It rings the bell behind them.
    asking: AtomicU64,
    // How many calls its reader has begun in a row; 0 while it hasn't the row.
    begun: AtomicU64,
    // Whether its reader waits for the row.
    waits: AtomicU64,
    // Of the first lane: the row of all readers.
    row: AtomicU64,
}

impl Bell {
    /// A bell that was never rung, of a lane that serves no session.
    pub fn new() -> Bell {
        Bell {
            word: AtomicU64::new(0),
            asleep: AtomicU64::new(0),
            taken: AtomicU64::new(0),
            waiting: AtomicU64::new(0),
            session: AtomicU64::new(0),
            asking: AtomicU64::new(0),
            begun: AtomicU64::new(0),
            waits: AtomicU64::new(0),
            row: AtomicU64::new(FREE),
        }
    }

    /// From now on it rings where something is due to this session; for 0 it rings for none.
    pub fn serve(&self, session: u64) {
        self.session.store(session, Ordering::SeqCst);
    }

    // How often its writer was rung, in the 32 bits on which `sleep` sleeps.
    pub(crate) fn heard(&self) -> u32 {
        heard_on(&self.word)
    }

    // The writer sleeps until it is rung, where it wasn't since `heard` told this; for ten seconds
    // at most.
    pub(crate) fn sleep<R: Wait>(&self, rt: &R, heard: u32) {
        sleep_on(rt, &self.word, &self.asleep, heard);
    }

    // Wakes the writer of the lane.
    fn ring(&self) {
        ring_on(&self.word, &self.asleep);
    }

    // Wakes the reader of the lane: what was due was taken, or its writer has ended.
    pub(crate) fn tell_taken(&self) {
        ring_on(&self.taken, &self.waiting);
    }

    // Its reader has more calls at hand, or none.
    fn set_asking(&self, more: bool) {
        let asking = u64::from(more);
        if self.asking.load(Ordering::SeqCst) != asking {
            self.asking.store(asking, Ordering::SeqCst);
        }
    }

    // Whether the lane serves a session.
    fn is_of(&self, session: u64) -> bool {
        self.session.load(Ordering::SeqCst) == session
    }

    // Whether the world has something for the session of the lane, what is due or its end, and its
    // reader won't ring for that.
    fn is_due<C: Core>(&self, world: &C) -> bool {
        let session = self.session.load(Ordering::SeqCst);
        session != 0
            && self.asking.load(Ordering::SeqCst) == 0
            && (world.has_due(session) || world.closed_by(session).is_some())
    }
}

/// The lane that serves a session; none has this number where none does.
pub(crate) fn lane_of(bells: &[Bell], session: u64) -> usize {
    for lane in 0..bells.len() {
        if bells[lane].is_of(session) {
            return lane;
        }
    }
    bells.len()
}

// Takes the row, where nobody has it.
fn is_taken(row: &AtomicU64) -> bool {
    row.compare_exchange(FREE, TAKEN, Ordering::SeqCst, Ordering::SeqCst)
        .is_ok()
}

// The reader of a lane waits until it has the row.
fn take_row<R: Wait>(rt: &R, row: &AtomicU64, waits: &AtomicU64) {
    if is_taken(row) {
        return;
    }
    waits.store(WAITS, Ordering::SeqCst);
    for _ in rt.forever() {
        if waits.load(Ordering::SeqCst) == GIVEN || is_taken(row) {
            waits.store(0, Ordering::SeqCst);
            return;
        }
        waits.park_timeout(rt, WAITS as u32, Duration::from_millis(LONGEST_SLEEP));
    }
}

// Gives the row to the reader of a lane, where that waits for it.
fn is_given(waits: &AtomicU64) -> bool {
    if waits.load(Ordering::SeqCst) != WAITS {
        return false;
    }
    let met = waits.compare_exchange(WAITS, GIVEN, Ordering::SeqCst, Ordering::SeqCst);
    if met.is_ok() {
        waits.wake_one();
    }
    met.is_ok()
}

// Gives the row to the reader that waits for it on the next lane behind this one, or else on the
// first: so each has it once before another has it again.
fn hand_on(bells: &[Bell], lane: usize) -> bool {
    for other in 0..bells.len() {
        if other > lane && is_given(&bells[other].waits) {
            return true;
        }
    }
    for other in 0..bells.len() {
        if is_given(&bells[other].waits) {
            return true;
        }
    }
    false
}

// Whether a reader waits for the row.
fn is_wanted(bells: &[Bell]) -> bool {
    for lane in 0..bells.len() {
        if bells[lane].waits.load(Ordering::SeqCst) == WAITS {
            return true;
        }
    }
    false
}

// The reader of a lane has had the row, and another gets it who waits for it. One that comes to
// wait after it was looked for finds the row free, or is found by the next look.
fn give_row(bells: &[Bell], lane: usize, row: &AtomicU64) {
    for _ in 0..MOST_LOOKS {
        if hand_on(bells, lane) {
            return;
        }
        row.store(FREE, Ordering::SeqCst);
        if !is_wanted(bells) || !is_taken(row) {
            return;
        }
    }
}

/// The reader of a lane is about to make a call, behind which so many bytes are at hand. Calls that
/// came together it makes in a row, with no row of another between them, which would have to fetch
/// the world from another processor.
pub(crate) fn begin_call<R: Wait>(rt: &R, bells: &[Bell], lane: usize, at_hand: usize) {
    let Some(first) = bells.get(0) else { return };
    let Some(bell) = bells.get(lane) else { return };
    bell.set_asking(at_hand != 0);
    let begun = bell.begun.load(Ordering::SeqCst);
    let goes_on = at_hand >= SHORTEST_ROW;
    if begun != 0 && !(goes_on && begun < LONGEST_ROW) {
        bell.begun.store(0, Ordering::SeqCst);
        give_row(bells, lane, &first.row);
    }
    if !goes_on {
        return;
    }
    if bell.begun.load(Ordering::SeqCst) == 0 {
        take_row(rt, &first.row, &bell.waits);
    }
    bell.begun.fetch_add(1, Ordering::SeqCst);
}

/// The reader of a lane made a call, and left the turn. Where it is about to wait or to end,
/// another gets the row.
pub(crate) fn end_call(bells: &[Bell], lane: usize) {
    let Some(first) = bells.get(0) else { return };
    let Some(bell) = bells.get(lane) else { return };
    let has_row = bell.begun.load(Ordering::SeqCst) != 0;
    if has_row && bell.asking.load(Ordering::SeqCst) == 0 {
        bell.begun.store(0, Ordering::SeqCst);
        give_row(bells, lane, &first.row);
    }
}

/// The reader of a lane has more calls at hand, or none.
pub(crate) fn set_asking(bells: &[Bell], lane: usize, more: bool) {
    if let Some(bell) = bells.get(lane) {
        bell.set_asking(more);
    }
}

/// How often the reader of this session was rung, in the 32 bits on which `wait_for_take` sleeps.
pub(crate) fn takes_heard(bells: &[Bell], session: u64) -> u32 {
    for lane in 0..bells.len() {
        if bells[lane].is_of(session) {
            return heard_on(&bells[lane].taken);
        }
    }
    0
}

/// The reader of this session sleeps until it is rung, where it wasn't since `takes_heard` told
/// this; for ten seconds at most. `false` where no bell is its own, and then it doesn't sleep.
pub(crate) fn wait_for_take<R: Wait>(rt: &R, bells: &[Bell], session: u64, heard: u32) -> bool {
    for lane in 0..bells.len() {
        if bells[lane].is_of(session) {
            sleep_on(rt, &bells[lane].taken, &bells[lane].waiting, heard);
            return true;
        }
    }
    false
}

/// A set of lanes, in place: no memory is taken for it. Lanes whose numbers are alike modulo 256
/// are in it together, and then a bell too many rings.
#[derive(Clone, Copy)]
pub struct Lanes {
    words: [u64; 4],
}

impl Lanes {
    /// No lane.
    pub(crate) fn none() -> Lanes {
        Lanes { words: [0; 4] }
    }

    fn all() -> Lanes {
        Lanes {
            words: [u64::MAX; 4],
        }
    }

    fn put(&mut self, lane: usize) {
        self.words[lane / 64 % 4] |= 1 << (lane % 64);
    }

    fn has(&self, lane: usize) -> bool {
        self.words[lane / 64 % 4] >> (lane % 64) & 1 != 0
    }
}

// The lanes for whose sessions the world has something.
fn due_lanes<C: Core>(world: &C, bells: &[Bell]) -> Lanes {
    let mut lanes = Lanes::none();
    for lane in 0..bells.len() {
        if bells[lane].is_due(world) {
            lanes.put(lane);
        }
    }
    lanes
}

/// The lanes that are to be woken after a call or a close, which under the turn can be told: those
/// for whose sessions the world has something, and all of them if it is spent.
pub(crate) fn lanes_to_wake<C: Core>(world: &C, bells: &[Bell]) -> Lanes {
    if world.spent() {
        Lanes::all()
    } else {
        due_lanes(world, bells)
    }
}

/// Those that are to be woken after a call by the reader of a lane: none while more calls are at
/// hand.
pub(crate) fn lanes_behind<C: Core>(world: &C, bells: &[Bell], lane: usize, more: bool) -> Lanes {
    if more {
        return Lanes::none();
    }
    set_asking(bells, lane, false);
    lanes_to_wake(world, bells)
}

/// Those that are to be woken after an event of a session that makes nothing due: where that is
/// closed, which the event may have done as the last one that fits, as after a call.
pub(crate) fn lanes_if_closed<C: Core>(world: &C, bells: &[Bell], session: u64) -> Lanes {
    if world.spent() || world.closed_by(session).is_some() {
        lanes_to_wake(world, bells)
    } else {
        Lanes::none()
    }
}

/// Rings the bells of these lanes.
pub(crate) fn ring(bells: &[Bell], lanes: Lanes) {
    for lane in 0..bells.len() {
        if lanes.has(lane) {
            bells[lane].ring();
        }
    }
}
