// The extents of one namespace, in a map under the places where they begin: looking, cutting and joining.
ghost use Rattle.std.specs.Prelude.{◌≡◌, ℕ, true, not, ◌&&◌, ◌+◌, ◌-◌, ◌<◌, ◌≤◌, None, Some, [], ◌++◌, length, map, replicate, slice_index_or, IfOk, OnOk, OnErr, MatchOption};
ghost use Rattle.cp_base.specs.Pieces.{patched, piece};
ghost use Rattle.extents.specs.Homes.{has_hole, same_hole};
ghost use Rattle.cp_base.specs.declared.limits.TheConstants.{MAX_NAMESPACE};
ghost use Rattle.extents.specs.Tiles.{AreBetween, AreHomeBytes, AreTiles, HasExtent, IsBesideHome, IsEdge, IsHomeByte, IsOneExtent, IsRecut, IsRun, IsTakenOut, LiesAround, all_holes, all_shown, extent_len, without_between};
ghost use Rattle.extents.specs.declared.tiles.Extent.TheVariants.{Home, Out};

use cp_base::{Bytes, NoMemory};
use std::alloc::Global;
use std::collections::BTreeMap;

/// A part of a namespace.
#[derive(Debug, Drop)]
pub(crate) enum Extent {
    /// Its bytes, which are at home.
    Home(Bytes),
    /// So many bytes that were taken out together.
    Out(u64),
}

// Extents of fewer bytes are joined with their small neighbours.
const SMALL: u64 = 256;

// How many bytes the small neighbours on one side have, at most, beside the last of them.
const REACH: u64 = 4_096;

// So many bytes, each 0, in extents of at most so many.
pub(crate) fn zeroed(alloc: Global, size: u64, most: u64) -> Result<BTreeMap<u64, Extent>, NoMemory>
    requires { 0 < most }
    ensures tiles { IfOk result (λ tiles. AreTiles 0 tiles.entries) }
    ensures shown { IfOk result (λ tiles. all_shown tiles.entries ≡ replicate size (Some 0)) }
    ensures holes { IfOk result (λ tiles. all_holes tiles.entries ≡ []) }
{
    let mut tiles = BTreeMap::new(alloc);
    let mut at = 0;
    while at < size {
        let len = (size - at).min(most);
        let bytes = Bytes::filled(alloc, len, 0)?;
        tiles.insert(at, Extent::Home(bytes))?;
        at += len;
    }
    Ok(tiles)
}

// The bytes at home around a place, and where they begin. `None` where the place is in a hole or outside.
pub(crate) fn home_around(tiles: &BTreeMap<u64, Extent>, at: u64) -> Option<(u64, &Bytes)>
    requires { AreTiles 0 tiles.now.entries }
    ensures { MatchOption result (slice_index_or (all_shown tiles.now.entries) at None ≡ None)
        (λ found. LiesAround tiles.now.entries found.0 (Home found.1.now) at) }
{
    let Some((start, extent)) = tiles.range(..=at).next_back() else {
        return None;
    };
    let Extent::Home(bytes) = extent else {
        return None;
    };
    if at - *start >= bytes.len() {
        return None;
    }
    Some((*start, bytes))
}

// Cuts the extent around a place, so that one begins there. Where the place is in a hole nothing can be cut.
pub(crate) fn cut(alloc: Global, tiles: &mut BTreeMap<u64, Extent>, at: u64) -> Result<(), NoMemory>
    requires tiles { AreTiles 0 tiles.old.entries }
    requires beside { IsBesideHome tiles.old.entries at }
    ensures same { IsRecut tiles.old.entries tiles.new.entries }
    ensures edges { (k : ℕ) → IsEdge tiles.old.entries k → IsEdge tiles.new.entries k }
    ensures edge { OnOk result (IsEdge tiles.new.entries at) }
{
    let Some((start, bytes)) = home_around(tiles, at) else {
        return Ok(());
    };
    if start == at {
        return Ok(());
    }
    let place = (at - start) as usize;
    let front = Bytes::from_slice(alloc, &bytes.as_slice()[..place])?;
    let rest = Bytes::from_slice(alloc, &bytes.as_slice()[place..])?;
    tiles.insert(at, Extent::Home(rest))?;
    let kept: Result<_, _> = tiles.insert(start, Extent::Home(front));
    kept.unwrap();
    Ok(())
}

// Appends the bytes between two places, which are at home, to a buffer with room for them.
pub(crate) fn append_between(tiles: &BTreeMap<u64, Extent>, from: u64, to: u64, out: &mut Bytes)
    requires tiles { AreTiles 0 tiles.now.entries }
    requires bounded { length (all_shown tiles.now.entries) ≤ MAX_NAMESPACE }
    requires order { from ≤ to }
    requires home { AreHomeBytes tiles.now.entries from to }
    requires room { to - from ≤ out.old.spare }
    ensures bytes { map (λ byte. Some byte) out.new.items
        ≡ map (λ byte. Some byte) out.old.items ++ piece (all_shown tiles.now.entries) from (to - from) }
    ensures spare { out.new.spare + (to - from) ≡ out.old.spare }
{
    let mut at = from;
    while at < to {
        let (start, bytes) = home_around(tiles, at).unwrap();
        let end = (start + bytes.len()).min(to);
        out.append(&bytes.as_slice()[(at - start) as usize..(end - start) as usize]);
        at = end;
    }
}

// A copy of the bytes between two places, which are at home.
pub(crate) fn copy_between(
    alloc: Global,
    tiles: &BTreeMap<u64, Extent>,
    from: u64,
    to: u64,
) -> Result<Bytes, NoMemory>
    requires tiles { AreTiles 0 tiles.now.entries }
    requires bounded { length (all_shown tiles.now.entries) ≤ MAX_NAMESPACE }
    requires order { from ≤ to }
    requires home { AreHomeBytes tiles.now.entries from to }
    ensures { IfOk result (λ bytes. AreBetween tiles.now.entries from to bytes.items) }
{
    let mut bytes = Bytes::new(alloc);
    bytes.reserve(to - from)?;
    append_between(tiles, from, to, &mut bytes);
    Ok(bytes)
}

// Takes away the extents that begin between two places.
fn remove_between(tiles: &mut BTreeMap<u64, Extent>, from: u64, to: u64)
    requires { from ≤ to }
    ensures { tiles.new.entries ≡ without_between from to tiles.old.entries }
{
    while let Some((start, _)) = tiles.range(from..to).next() {
        let start = *start;
        tiles.remove(&start);
    }
}

// Makes the extents between two places, at which extents begin or end, to one. All their bytes are at home.
fn join(
    alloc: Global,
    tiles: &mut BTreeMap<u64, Extent>,
    from: u64,
    to: u64,
) -> Result<(), NoMemory>
    requires tiles { AreTiles 0 tiles.old.entries }
    requires bounded { length (all_shown tiles.old.entries) ≤ MAX_NAMESPACE }
    requires order { from < to }
    requires first { IsEdge tiles.old.entries from }
    requires last { IsEdge tiles.old.entries to }
    requires home { AreHomeBytes tiles.old.entries from to }
    ensures same { IsRecut tiles.old.entries tiles.new.entries }
    ensures one { OnOk result (IsOneExtent tiles.new.entries from to) }
{
    if let Some(Extent::Home(bytes)) = tiles.get(&from)
        && bytes.len() == to - from
    {
        return Ok(());
    }
    let joined = copy_between(alloc, tiles, from, to)?;
    let kept: Result<_, _> = tiles.insert(from, Extent::Home(joined));
    kept.unwrap();
    remove_between(tiles, from + 1, to);
    Ok(())
}

// Where the small extents at home begin that lie one after the other up to a place.
fn run_start(tiles: &BTreeMap<u64, Extent>, at: u64) -> u64
    requires tiles { AreTiles 0 tiles.now.entries }
    requires bounded { length (all_shown tiles.now.entries) ≤ MAX_NAMESPACE }
    ensures { IsRun tiles.now.entries result at }
{
    let mut start = at;
    while start > 0 && at - start < REACH {
        let Some((before, bytes)) = home_around(tiles, start - 1) else {
            return start;
        };
        if bytes.len() >= SMALL || before + bytes.len() != start {
            return start;
        }
        start = before;
    }
    start
}

// Where the small extents at home end that lie one after the other from a place on.
fn run_end(tiles: &BTreeMap<u64, Extent>, at: u64) -> u64
    requires tiles { AreTiles 0 tiles.now.entries }
    requires bounded { length (all_shown tiles.now.entries) ≤ MAX_NAMESPACE }
    ensures { IsRun tiles.now.entries at result }
{
    let mut end = at;
    while end - at < REACH {
        let Some(Extent::Home(bytes)) = tiles.get(&end) else {
            return end;
        };
        if bytes.len() >= SMALL {
            return end;
        }
        end += bytes.len();
    }
    end
}

// Joins the small extents on both sides of a place. Without memory for it they stay as they are.
fn tidy(alloc: Global, tiles: &mut BTreeMap<u64, Extent>, at: u64)
    requires tiles { AreTiles 0 tiles.old.entries }
    requires bounded { length (all_shown tiles.old.entries) ≤ MAX_NAMESPACE }
    ensures { IsRecut tiles.old.entries tiles.new.entries }
{
    let from = run_start(tiles, at);
    let to = run_end(tiles, at);
    if from < to {
        let _ = join(alloc, tiles, from, to);
    }
}

// Moves out the bytes of one extent, which leaves a hole.
fn take_out(tiles: &mut BTreeMap<u64, Extent>, from: u64, to: u64) -> Bytes
    requires tiles { AreTiles 0 tiles.old.entries }
    requires order { from < to }
    requires one { IsOneExtent tiles.old.entries from to }
    ensures bytes { AreBetween tiles.old.entries from to result.items }
    ensures taken { IsTakenOut tiles.old.entries tiles.new.entries from to }
{
    let old: Result<_, _> = tiles.insert(from, Extent::Out(to - from));
    let extent = old.unwrap().unwrap();
    match extent {
        Extent::Home(bytes) => bytes,
        Extent::Out(_) => unreachable!(),
    }
}

// Moves out the bytes between two places, all of which are at home. Without memory nothing changes.
pub(crate) fn take_between(
    alloc: Global,
    tiles: &mut BTreeMap<u64, Extent>,
    from: u64,
    to: u64,
) -> Result<Bytes, NoMemory>
    requires tiles { AreTiles 0 tiles.old.entries }
    requires bounded { length (all_shown tiles.old.entries) ≤ MAX_NAMESPACE }
    requires order { from < to }
    requires home { AreHomeBytes tiles.old.entries from to }
    ensures bytes { IfOk result (λ bytes. AreBetween tiles.old.entries from to bytes.items) }
    ensures taken { OnOk result (IsTakenOut tiles.old.entries tiles.new.entries from to) }
    ensures same { OnErr result (IsRecut tiles.old.entries tiles.new.entries) }
{
    cut(alloc, tiles, from)?;
    cut(alloc, tiles, to)?;
    join(alloc, tiles, from, to)?;
    let bytes = take_out(tiles, from, to);
    tidy(alloc, tiles, from);
    tidy(alloc, tiles, to);
    Ok(bytes)
}

// Fills a hole with bytes, as many as it has places.
pub(crate) fn put_back(tiles: &mut BTreeMap<u64, Extent>, from: u64, bytes: Bytes)
    requires tiles { AreTiles 0 tiles.old.entries }
    requires hole { HasExtent tiles.old.entries from (Out (length bytes.items)) }
    ensures fits { from + length bytes.items ≤ length (all_shown tiles.old.entries) }
    ensures tiles { AreTiles 0 tiles.new.entries }
    ensures size { length (all_shown tiles.new.entries) ≡ length (all_shown tiles.old.entries) }
    ensures shown { all_shown tiles.new.entries
        ≡ patched (all_shown tiles.old.entries) from (map (λ byte. Some byte) bytes.items) }
    ensures holes { (start len : ℕ) → has_hole (all_holes tiles.new.entries) start len
        ≡ (has_hole (all_holes tiles.old.entries) start len && not (same_hole from (length bytes.items) start len)) }
{
    let old: Result<_, _> = tiles.insert(from, Extent::Home(bytes));
    old.unwrap();
}
