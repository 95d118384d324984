//! Threads that tell one story under a turn, and one that waits for the other.

ghost use Rattle.std.specs.Prelude.{◌≡◌, [], ◌∷◌, Some, vec_len};
ghost use Rattle.nv_turn.specs.Story.{same_end};
ghost use Rattle.nv_turn.specs.Passes.{IsSamePass, first_passes, first_pass};
ghost use Rattle.std.specs.Thread.{IsSync};

use nv_turn::{Pass, Story, Turn, take_pass};
use std::sync::Wait;
use std::test::Fail;
use std::thread::{Threads, join};

/// A list of entries, each the number of a caller and how many that caller had added before.
#[derive(Drop)]
struct Tally {
    lines: Vec<(u32, u32)>,
}

impl Story for Tally {
    type Entry = (u32, u32);

    type Start = ();

    ghost stands = { λ t story. t.lines.items ≡ story };

    ghost caller = { λ line. line.0 };

    ghost start = { λ t. tt };

    fn base(&self) -> u64 {
        0
    }

    fn told(&self) -> u64 {
        self.lines.len() as u64
    }

    ghost use Rattle.std.proofs.Common.{sym, ◌∙◌};

    ghost one_end = { λ t story e f p q. same_end story e f (sym p ∙ q) };
}

// Adds one entry where there is memory, and says whether it did.
fn add_one<R: Wait>(rt: &R, turn: &Turn<Tally>, pass: Pass<Tally>, item: u32) -> (Pass<Tally>, bool)
    requires { pass.turn ≡ turn.now.turn }
    ensures { IsSamePass pass result.0 }
{
    let mut held = turn.enter(rt, pass);
    let number = held.number();
    let tally = held.value();
    match tally.lines.push((number, item)) {
        Ok(()) => (held.leave(rt), true),
        Err(_) => (held.leave(rt), false),
    }
}

// Adds entries in order, until `count` or want of memory, and says how many.
fn add_all<R: Wait>(rt: &R, turn: &Turn<Tally>, pass: Pass<Tally>, count: u32) -> (Pass<Tally>, u32)
    requires { pass.turn ≡ turn.now.turn }
    ensures { IsSamePass pass result.0 }
{
    let mut pass = pass;
    for item in 0..count {
        let (next, added) = add_one(rt, turn, pass, item);
        pass = next;
        if !added {
            return (pass, item);
        }
    }
    (pass, count)
}

// Two threads, each with a pass, and then one pass.
fn add_in_two<R: Threads + Wait + Sync>(
    rt: &R,
    turn: &Turn<Tally>,
    a: Pass<Tally>,
    b: Pass<Tally>,
    count: u32,
) -> (Pass<Tally>, u32, u32)
    requires first { (a.turn ≡ turn.now.turn) × (a.numbers ≡ a.number ∷ []) }
    requires second { (b.turn ≡ turn.now.turn) × (b.numbers ≡ b.number ∷ []) }
    ensures turn { result.0.turn ≡ turn.now.turn }
    ensures numbers { result.0.numbers ≡ a.number ∷ b.number ∷ [] }
{
    let (one, other) = join(
        rt,
        || -> (Pass<Tally>, u32)
            requires { a.turn ≡ turn.now.turn }
            ensures { IsSamePass a result.0 }
        { add_all(rt, turn, a, count) },
        || -> (Pass<Tally>, u32)
            requires { b.turn ≡ turn.now.turn }
            ensures { IsSamePass b result.0 }
        { add_all(rt, turn, b, count) },
    );
    (turn.join(one.0, other.0), one.1, other.1)
}

// The value that four threads told, and how many entries each added.
fn add_in_four<R: Threads + Wait + Sync>(
    rt: &R,
    turn: Turn<Tally>,
    mut passes: Vec<Pass<Tally>>,
    count: u32,
) -> (Tally, [u32; 4])
    requires four { turn.passes ≡ 4 }
    requires passes { (passes.items ≡ first_passes turn.turn (Some tt) 4) × (vec_len passes ≡ 4) }
{
    let d = take_pass(&mut passes);
    let c = take_pass(&mut passes);
    let b = take_pass(&mut passes);
    let a = take_pass(&mut passes);
    let shared = &turn;
    let ((ab, one, two), (cd, three, four)) = join(
        rt,
        || -> (Pass<Tally>, u32, u32)
            requires { IsSync R.row × (a ≡ first_pass shared.now.turn (Some tt) 1)
                × (b ≡ first_pass shared.now.turn (Some tt) 2) }
            ensures turn { result.0.turn ≡ shared.entry.now.turn }
            ensures numbers { result.0.numbers ≡ 1 ∷ 2 ∷ [] }
        { add_in_two(rt, shared, a, b, count) },
        || -> (Pass<Tally>, u32, u32)
            requires { IsSync R.row × (c ≡ first_pass shared.now.turn (Some tt) 3)
                × (d ≡ first_pass shared.now.turn (Some tt) 4) }
            ensures turn { result.0.turn ≡ shared.entry.now.turn }
            ensures numbers { result.0.numbers ≡ 3 ∷ 4 ∷ [] }
        { add_in_two(rt, shared, c, d, count) },
    );
    let last = turn.join(ab, cd);
    (turn.close(last), [one, two, three, four])
}

// Whether these are `count` entries of each caller up to four, in the order of each.
fn are_four_stories(lines: &[(u32, u32)], count: u32) -> bool {
    let mut next = [0u32; 4];
    for (caller, item) in lines {
        let place = caller.wrapping_sub(1) as usize;
        if place >= 4 || next[place] != *item {
            return false;
        }
        next[place] = item.wrapping_add(1);
    }
    next == [count; 4]
}

#[test]
fn four_threads_tell_one_story(rt: HostRuntime) -> Result<(), Fail> {
    let value = Tally {
        lines: Vec::new(rt.alloc()),
    };
    let Ok((turn, passes)) = Turn::make(rt.alloc(), value, 4) else {
        panic!(rt; "there was no memory for a turn")
    };
    let (tally, added) = add_in_four(&rt, turn, passes, 1000);
    let told = are_four_stories(&tally.lines, 1000);
    assert_eq!(rt; (added, told), ([1000; 4], true));
    Ok(())
}

// Adds an entry whenever the story has an even number of entries, or whenever it has an odd one,
// and waits for the other thread between.
fn alternate<R: Wait>(
    rt: &R,
    turn: &Turn<Tally>,
    pass: Pass<Tally>,
    even: bool,
    count: u32,
) -> Pass<Tally>
    requires { pass.turn ≡ turn.now.turn }
    ensures { IsSamePass pass result }
{
    let mut pass = pass;
    let mut item = 0;
    for _ in rt.forever() {
        if item >= count {
            return pass;
        }
        if (pass.seen() % 2 == 0) == even {
            let (next, _) = add_one(rt, turn, pass, item);
            pass = next;
            item += 1;
        } else {
            pass = turn.wait(rt, pass);
        }
    }
    unreachable!()
}

fn alternate_in_two<R: Threads + Wait + Sync>(
    rt: &R,
    turn: Turn<Tally>,
    mut passes: Vec<Pass<Tally>>,
    count: u32,
) -> Tally
    requires two { turn.passes ≡ 2 }
    requires passes { (passes.items ≡ first_passes turn.turn (Some tt) 2) × (vec_len passes ≡ 2) }
{
    let b = take_pass(&mut passes);
    let a = take_pass(&mut passes);
    let shared = &turn;
    let (a, b) = join(
        rt,
        || -> Pass<Tally>
            requires { a ≡ first_pass shared.now.turn (Some tt) 1 }
            ensures { IsSamePass a result }
        { alternate(rt, shared, a, true, count) },
        || -> Pass<Tally>
            requires { b ≡ first_pass shared.now.turn (Some tt) 2 }
            ensures { IsSamePass b result }
        { alternate(rt, shared, b, false, count) },
    );
    let last = turn.join(a, b);
    turn.close(last)
}

// Whether these are `count` entries of two callers in turn.
fn are_in_turn(lines: &[(u32, u32)], count: u32) -> bool {
    let mut place = 0u32;
    for (caller, item) in lines {
        if *caller != place % 2 + 1 || *item != place / 2 {
            return false;
        }
        place = place.wrapping_add(1);
    }
    place == count
}

#[test]
fn one_thread_waits_for_the_other(rt: HostRuntime) -> Result<(), Fail> {
    let value = Tally {
        lines: Vec::new(rt.alloc()),
    };
    let Ok((turn, passes)) = Turn::make(rt.alloc(), value, 2) else {
        panic!(rt; "there was no memory for a turn")
    };
    let tally = alternate_in_two(&rt, turn, passes, 1000);
    let told = are_in_turn(&tally.lines, 2000);
    assert!(rt; told);
    Ok(())
}
