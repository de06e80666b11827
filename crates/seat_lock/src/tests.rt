ghost use Rattle.std.specs.Prelude.{◌≡◌, ◌≢◌, ℕ, ◌≤◌, [], Some, None};
ghost use Rattle.seat_lock.specs.Trails.{entries_by};
ghost use Rattle.seat_lock.specs.Passes.{AreAllOf, IsPassOf, at_home, lock_of, made_by, party_of, seats_in, seen_by};

use crate::{Held, Pass, Passes, SeatLock, Trailed};
use crossbeam_utils::CachePadded;
use std::alloc::Global;
use std::sync::Wait;
use std::test::Fail;
use std::thread::{Threads, join};

// One line of a notebook: who wrote it, and which of this party's lines it is.
#[derive(Clone, Copy)]
struct Line {
    party: u32,
    number: u32,
}

// A trail of lines, with the number of the shelf for the part that no turn changes.
#[derive(Drop)]
struct Notebook {
    shelf: u32,
    lines: Vec<Line>,
}

impl Trailed for Notebook {
    type Entry = Line;

    type Fixed = u32;

    ghost entries = { λ n. n.lines.items };

    ghost fixed = { λ n. n.shelf };

    ghost party = { λ l. l.party };

    fn length(&self) -> u32 {
        self.lines.len() as u32
    }
}

// Writes a line in a turn of its own, if the notebook is not full and there is memory.
fn write<R: Wait>(
    rt: &R,
    lock: &SeatLock<Notebook>,
    pass: Pass<Line, u32>,
    number: u32,
) -> Pass<Line, u32>
    requires { IsPassOf ⟦<Notebook as Trailed>⟧.party (lock_of ⟦<Notebook as Trailed>⟧.fixed lock.now) pass }
    ensures pass { IsPassOf ⟦<Notebook as Trailed>⟧.party (lock_of ⟦<Notebook as Trailed>⟧.fixed lock.now) result }
    ensures party { party_of result ≡ party_of pass }
{
    let party = pass.party();
    let mut turn = lock.enter(rt, pass);
    let notebook = turn.value();
    if notebook.lines.len() < 100_000 {
        let _ = notebook.lines.push(Line { party, number });
    }
    turn.leave()
}

// Writes the lines 0 to `count`, each in a turn of its own.
fn write_many<R: Wait>(
    rt: &R,
    lock: &SeatLock<Notebook>,
    pass: Pass<Line, u32>,
    count: u32,
) -> Pass<Line, u32>
    requires { IsPassOf ⟦<Notebook as Trailed>⟧.party (lock_of ⟦<Notebook as Trailed>⟧.fixed lock.now) pass }
    ensures pass { IsPassOf ⟦<Notebook as Trailed>⟧.party (lock_of ⟦<Notebook as Trailed>⟧.fixed lock.now) result }
    ensures party { party_of result ≡ party_of pass }
{
    let mut pass = pass;
    for number in 0..count {
        pass = write(rt, lock, pass, number);
    }
    pass
}

// Two passes write lines, each in a thread of its own.
fn write_both<R: Threads + Wait + Sync>(
    rt: &R,
    lock: &SeatLock<Notebook>,
    first: Pass<Line, u32>,
    second: Pass<Line, u32>,
    count: u32,
) -> (Pass<Line, u32>, Pass<Line, u32>)
    requires first { IsPassOf ⟦<Notebook as Trailed>⟧.party (lock_of ⟦<Notebook as Trailed>⟧.fixed lock.now) first }
    requires second { IsPassOf ⟦<Notebook as Trailed>⟧.party (lock_of ⟦<Notebook as Trailed>⟧.fixed lock.now) second }
    ensures first { IsPassOf ⟦<Notebook as Trailed>⟧.party (lock_of ⟦<Notebook as Trailed>⟧.fixed lock.now) result.0 }
    ensures second { IsPassOf ⟦<Notebook as Trailed>⟧.party (lock_of ⟦<Notebook as Trailed>⟧.fixed lock.now) result.1 }
    ensures parties { (party_of result.0 ≡ party_of first) × (party_of result.1 ≡ party_of second) }
{
    join(
        rt,
        move || write_many(rt, lock, first, count),
        move || write_many(rt, lock, second, count),
    )
}

// The passes of the parties 1 and 2.
fn two_passes(
    lock: &SeatLock<Notebook>,
    passes: &mut Passes<Line, u32>,
) -> (Pass<Line, u32>, Pass<Line, u32>)
    requires all { AreAllOf ⟦<Notebook as Trailed>⟧.party (lock_of ⟦<Notebook as Trailed>⟧.fixed lock.now) passes.old }
    requires two { 2 ≤ seats_in passes.old }
    ensures parties { (party_of result.0 ≡ 1) × (party_of result.1 ≡ 2) }
    ensures empty { (at_home passes.new 1 ≡ None) × (at_home passes.new 2 ≡ None) }
    ensures others { (n : ℕ) → n ≢ 1 → n ≢ 2 → at_home passes.new n ≡ at_home passes.old n }
    ensures seats { seats_in passes.new ≡ seats_in passes.old }
    ensures first { IsPassOf ⟦<Notebook as Trailed>⟧.party (lock_of ⟦<Notebook as Trailed>⟧.fixed lock.now) result.0 }
    ensures second { IsPassOf ⟦<Notebook as Trailed>⟧.party (lock_of ⟦<Notebook as Trailed>⟧.fixed lock.now) result.1 }
{
    let _ = lock;
    let first = passes.lend(1);
    let second = passes.lend(2);
    (first, second)
}

// The parties 1 and 2 write lines, each from a thread of its own.
fn write_in_threads<R: Threads + Wait + Sync>(
    rt: &R,
    lock: &SeatLock<Notebook>,
    passes: &mut Passes<Line, u32>,
    count: u32,
)
    requires all { AreAllOf ⟦<Notebook as Trailed>⟧.party (lock_of ⟦<Notebook as Trailed>⟧.fixed lock.now) passes.old }
    requires two { 2 ≤ seats_in passes.old }
    ensures { AreAllOf ⟦<Notebook as Trailed>⟧.party (lock_of ⟦<Notebook as Trailed>⟧.fixed lock.now) passes.new }
{
    let (first, second) = two_passes(lock, passes);
    let (first, second) = write_both(rt, lock, first, second, count);
    passes.give(first);
    passes.give(second);
}

// A party writes a line in a turn of its own, and its pass goes home.
fn write_as<R: Wait>(
    rt: &R,
    lock: &SeatLock<Notebook>,
    passes: &mut Passes<Line, u32>,
    party: u32,
    number: u32,
)
    requires all { AreAllOf ⟦<Notebook as Trailed>⟧.party (lock_of ⟦<Notebook as Trailed>⟧.fixed lock.now) passes.old }
    requires party { (1 ≤ party) × (party ≤ seats_in passes.old) }
    ensures { AreAllOf ⟦<Notebook as Trailed>⟧.party (lock_of ⟦<Notebook as Trailed>⟧.fixed lock.now) passes.new }
{
    let pass = passes.lend(party);
    passes.give(write(rt, lock, pass, number));
}

// The parties 1 and 2 write lines, and then all passes meet. Each pass has then seen all that each other made.
fn write_and_meet<R: Threads + Wait + Sync>(
    rt: &R,
    lock: &SeatLock<Notebook>,
    passes: &mut Passes<Line, u32>,
    count: u32,
)
    requires all { AreAllOf ⟦<Notebook as Trailed>⟧.party (lock_of ⟦<Notebook as Trailed>⟧.fixed lock.now) passes.old }
    requires two { 2 ≤ seats_in passes.old }
    ensures all { AreAllOf ⟦<Notebook as Trailed>⟧.party (lock_of ⟦<Notebook as Trailed>⟧.fixed lock.now) passes.new }
    ensures seen { (n m : ℕ) (p q : _) → at_home passes.new n ≡ Some p → at_home passes.new m ≡ Some q → entries_by ⟦<Notebook as Trailed>⟧.party m (seen_by p) ≡ made_by q }
{
    write_in_threads(rt, lock, passes, count);
    lock.meet(rt, passes);
}

// The pass of the last party.
fn last_pass(
    lock: &SeatLock<Notebook>,
    passes: &mut Passes<Line, u32>,
    party: u32,
) -> Pass<Line, u32>
    requires all { AreAllOf ⟦<Notebook as Trailed>⟧.party (lock_of ⟦<Notebook as Trailed>⟧.fixed lock.now) passes.old }
    requires last { (1 ≤ party) × (party ≡ seats_in passes.old) }
    ensures { IsPassOf ⟦<Notebook as Trailed>⟧.party (lock_of ⟦<Notebook as Trailed>⟧.fixed lock.now) result }
{
    let _ = lock;
    passes.lend(party)
}

// One try for the turn: the pass, and the word that was read, or 0 for a turn.
fn try_once<V: Trailed>(
    lock: &SeatLock<V>,
    pass: Pass<V::Entry, V::Fixed>,
) -> (Pass<V::Entry, V::Fixed>, u64)
    requires { IsPassOf V.party (lock_of V.fixed lock.now) pass }
    ensures { IsPassOf V.party (lock_of V.fixed lock.now) result.0 }
{
    match lock.try_enter(pass) {
        Ok(turn) => (turn.leave(), 0),
        Err(Held { word, pass }) => (pass, word),
    }
}

// The same from another thread.
fn try_in_a_thread<V: Trailed + Send, R: Threads + Sync>(
    rt: &R,
    lock: &SeatLock<V>,
    pass: Pass<V::Entry, V::Fixed>,
) -> (Pass<V::Entry, V::Fixed>, u64)
    requires { IsPassOf V.party (lock_of V.fixed lock.now) pass }
    ensures { IsPassOf V.party (lock_of V.fixed lock.now) result.0 }
{
    let tried = join(
        rt,
        move || -> (Pass<V::Entry, V::Fixed>, u64)
            requires { IsPassOf V.party (lock_of V.fixed lock.now) pass }
            ensures { IsPassOf V.party (lock_of V.fixed lock.entry.now) result.0 }
        { try_once(lock, pass) },
        || (),
    );
    tried.0
}

fn empty_notebook(alloc: Global) -> Notebook
    ensures { result.lines.items ≡ [] }
{
    Notebook {
        shelf: 7,
        lines: Vec::new(alloc),
    }
}

#[test]
fn a_turn_that_is_held_is_told_with_its_party(rt: HostRuntime) -> Result<(), Fail> {
    let (lock, mut passes) = SeatLock::new(rt.alloc(), empty_notebook(rt.alloc()), 2)?;
    let (first, second) = two_passes(&lock, &mut passes);
    assert!(rt; first.party() == 1 && second.party() == 2);
    let mut turn = lock.enter(&rt, first);
    let shelf = turn.value().shelf;
    let (second, held) = try_once(&lock, second);
    let (second, held_for_a_thread) = try_in_a_thread(&rt, &lock, second);
    let first = turn.leave();
    let (second, free) = try_once(&lock, second);
    assert!(rt; shelf == 7 && held == 1 && held_for_a_thread == 1 && free == 0);
    assert!(rt; first.party() == 1 && second.party() == 2);
    Ok(())
}

#[test]
fn the_last_of_32_parties_writes_a_line(rt: HostRuntime) -> Result<(), Fail> {
    let (lock, mut passes) = SeatLock::new(rt.alloc(), empty_notebook(rt.alloc()), 32)?;
    let pass = last_pass(&lock, &mut passes, 32);
    let pass = write(&rt, &lock, pass, 5);
    let party = pass.party();
    let mut turn = lock.enter(&rt, pass);
    let lines = &turn.value().lines;
    let written = lines.len() == 1 && lines[0].party == 32 && lines[0].number == 5;
    turn.leave();
    assert!(rt; party == 32 && written);
    Ok(())
}

#[test]
fn two_threads_leave_all_their_lines(rt: HostRuntime) -> Result<(), Fail> {
    let (lock, mut passes) = SeatLock::new(rt.alloc(), empty_notebook(rt.alloc()), 2)?;
    write_in_threads(&rt, &lock, &mut passes, 1000);
    let notebook = lock.close(passes);
    let mut next = [0u32; 3];
    let mut in_order = true;
    for line in &notebook.lines {
        let party = (line.party % 3) as usize;
        in_order = in_order && line.number == next[party];
        next[party] = next[party].wrapping_add(1);
    }
    assert!(rt; notebook.lines.len() == 2000 && in_order && next == [0, 1000, 1000]);
    Ok(())
}

#[test]
fn three_passes_meet_and_the_last_writes(rt: HostRuntime) -> Result<(), Fail> {
    let (lock, mut passes) = SeatLock::new(rt.alloc(), empty_notebook(rt.alloc()), 3)?;
    write_and_meet(&rt, &lock, &mut passes, 2);
    write_as(&rt, &lock, &mut passes, 3, 7);
    lock.meet(&rt, &mut passes);
    let notebook = lock.close(passes);
    let last = notebook.lines.len() == 5 && notebook.lines[4].party == 3;
    assert!(rt; last && notebook.lines[4].number == 7);
    Ok(())
}

#[test]
fn a_padded_lock_serves_two_threads(rt: HostRuntime) -> Result<(), Fail> {
    let (lock, mut passes) = SeatLock::new(rt.alloc(), empty_notebook(rt.alloc()), 2)?;
    let padded = CachePadded::new(lock);
    write_in_threads(&rt, &padded, &mut passes, 10);
    let notebook = padded.into_inner().close(passes);
    assert!(rt; notebook.lines.len() == 20);
    Ok(())
}
