// What no clause says: worked cases, and that a table has its room.
use cp_base::{ByteRange, Footprint, SpaceId, Spans};
use range_claims::Claims;
use std::alloc::Global;

// Some bytes of memory namespace 1, each two places from the next: so many runs.
fn runs(alloc: Global, count: usize) -> Option<Spans> {
    let mut ranges = [ByteRange::default(); 20];
    for i in 0..20 {
        ranges[i] = ByteRange::new(SpaceId::Mem(1), i as u64 * 2, 1)?;
    }
    Spans::of(alloc, ranges.get(..count)?)
}

// A command that reads so many runs and may write so many.
fn touching(alloc: Global, reads: usize, writes: usize) -> Option<Footprint> {
    Some(Footprint {
        reads: runs(alloc, reads)?,
        writes: runs(alloc, writes)?,
        slot: None,
        set: None,
    })
}

// Whether a command that writes so many runs, the first of them read by two others, may begin: at first, beside both,
// beside the second alone, and beside none of them.
fn shared(alloc: Global, writes: usize) -> Option<[bool; 4]> {
    let mut claims = Claims::new(alloc, 2).ok()?;
    let writer = touching(alloc, 0, writes)?;
    let at_first = claims.free(&writer);
    claims.add(7, touching(alloc, 1, 0)?);
    claims.add(9, touching(alloc, 1, 0)?);
    let beside_both = claims.free(&writer);
    let _first = claims.remove(7);
    let beside_one = claims.free(&writer);
    let _second = claims.remove(9);
    Some([at_first, beside_both, beside_one, claims.free(&writer)])
}

#[test]
fn a_writer_waits_for_all_readers(rt: HostRuntime) {
    for writes in [1, 20] {
        let found = shared(rt.alloc(), writes);
        assert_eq!(rt; found, Some([true, false, false, true]), "{writes}");
    }
}

// Whether commands that read and write so many runs may begin beside one that reads and writes others: all readers,
// a writer, and a writer of bytes that are only read.
fn beside(alloc: Global, reads: usize, writes: usize) -> Option<[bool; 3]> {
    let mut claims = Claims::new(alloc, 1).ok()?;
    let kept = touching(alloc, reads, writes)?;
    claims.add(1, kept);
    Some([
        claims.free(&touching(alloc, 20, 0)?),
        claims.free(&touching(alloc, 0, 20)?),
        claims.free(&touching(alloc, 12, 20)?),
    ])
}

#[test]
fn readers_share_and_writers_do_not(rt: HostRuntime) {
    for (reads, writes, wanted) in [
        (20, 0, [true, false, false]),
        (0, 20, [false, false, false]),
        (12, 20, [false, false, false]),
        (16, 16, [false, false, false]),
        (0, 0, [true, true, true]),
    ] {
        let found = beside(rt.alloc(), reads, writes);
        assert_eq!(rt; found, Some(wanted), "{reads} and {writes}");
    }
}

// Which of slots 3 and 4 and of sets 5 and 6 a claim of slot 3 and set 5 holds, and which when it is gone.
fn held(alloc: Global) -> Option<([bool; 4], [bool; 4])> {
    let mut claims = Claims::new(alloc, 1).ok()?;
    let footprint = Footprint {
        slot: Some(3),
        set: Some(5),
        ..touching(alloc, 1, 1)?
    };
    claims.add(2, footprint);
    let while_kept = [
        claims.holds_slot(3),
        claims.holds_slot(4),
        claims.holds_set(5),
        claims.holds_set(6),
    ];
    let _footprint = claims.remove(2);
    let behind = [
        claims.holds_slot(3),
        claims.holds_slot(4),
        claims.holds_set(5),
        claims.holds_set(6),
    ];
    Some((while_kept, behind))
}

#[test]
fn slots_and_sets_are_held(rt: HostRuntime) {
    let found = held(rt.alloc());
    let (while_kept, behind) = ([true, false, true, false], [false, false, false, false]);
    assert_eq!(rt; found, Some((while_kept, behind)));
}

// A command that writes some bytes of memory namespace 1, from a place on.
fn writer(alloc: Global, start: u64, len: u64) -> Option<Footprint> {
    let range = ByteRange::new(SpaceId::Mem(1), start, len)?;
    Some(Footprint {
        reads: Spans::of(alloc, &[])?,
        writes: Spans::of(alloc, &[range])?,
        slot: None,
        set: None,
    })
}

// Which of these commands may begin.
fn free_now(claims: &Claims, asked: &[Footprint; 3]) -> [bool; 3] {
    [
        claims.free(&asked[0]),
        claims.free(&asked[1]),
        claims.free(&asked[2]),
    ]
}

// Which of three writers that touch one another may begin again while the first alone is gone, while the last is gone
// too, and while none is kept: the claims go in another order than they came.
fn out_of_order(alloc: Global) -> Option<[[bool; 3]; 3]> {
    let mut claims = Claims::new(alloc, 3).ok()?;
    claims.add(1, writer(alloc, 0, 4)?);
    claims.add(2, writer(alloc, 4, 4)?);
    claims.add(3, writer(alloc, 8, 4)?);
    let asked = [
        writer(alloc, 0, 4)?,
        writer(alloc, 4, 4)?,
        writer(alloc, 8, 4)?,
    ];
    let _first = claims.remove(1);
    let first_gone = free_now(&claims, &asked);
    let _last = claims.remove(3);
    let last_gone = free_now(&claims, &asked);
    let _second = claims.remove(2);
    Some([first_gone, last_gone, free_now(&claims, &asked)])
}

#[test]
fn claims_go_in_any_order(rt: HostRuntime) {
    let wanted = [
        [true, false, false],
        [true, false, true],
        [true, true, true],
    ];
    assert_eq!(rt; out_of_order(rt.alloc()), Some(wanted));
}

// Whether a writer of a byte may begin beside three claims of 32 and 40 runs that all have the byte and fill the table, and
// beside the last of them: the claims go in another order than they came.
fn full(alloc: Global) -> Option<[bool; 2]> {
    let mut claims = Claims::new(alloc, 3).ok()?;
    claims.add(5, touching(alloc, 16, 16)?);
    claims.add(4, touching(alloc, 20, 20)?);
    claims.add(3, touching(alloc, 16, 16)?);
    let writer = touching(alloc, 0, 1)?;
    let beside_all = claims.free(&writer);
    let _second = claims.remove(4);
    let _first = claims.remove(5);
    Some([beside_all, claims.free(&writer)])
}

#[test]
fn claims_are_kept_to_the_last_room(rt: HostRuntime) {
    assert_eq!(rt; full(rt.alloc()), Some([false, false]));
}
