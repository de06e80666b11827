// One namespace, of which some bytes may be out.
ghost use Rattle.std.specs.Prelude.{◌≡◌, ℕ, true, ◌+◌, ◌-◌, ◌<◌, ◌≤◌, Some, None, [], ◌++◌, length, map, replicate, slice_index_or, IfOk, OnOk, OnErr};
ghost use Rattle.cp_base.specs.Pieces.{piece};
ghost use Rattle.cp_base.specs.declared.limits.TheConstants.{MAX_NAMESPACE};
ghost use Rattle.extents.specs.Homes.{AreHere, IsSpacePut, IsSpaceTaken, has_hole};

use crate::tiles::{
    Extent, append_between, copy_between, home_around, put_back, take_between, zeroed,
};
use cp_base::{Bytes, NoMemory};
use std::alloc::Global;
use std::collections::BTreeMap;
use std::marker::Model;

/// The bytes of a namespace. Contracts see its bytes, none where one is out, and its holes.
#[derive(Debug, Drop)]
pub(crate) struct Space {
    tiles: BTreeMap<u64, Extent>,
}

impl Model for Space {
    ghost use Rattle.std.specs.Prelude.{◌≤◌, length};
    ghost use Rattle.cp_base.specs.declared.limits.TheConstants.{MAX_NAMESPACE};
    ghost use Rattle.extents.specs.Homes.{SpaceHome};
    ghost use Rattle.extents.specs.Tiles.{AreTiles, all_holes, all_shown};

    ghost Value = { SpaceHome };

    ghost view = { λ s. record { bytes = all_shown s.tiles.entries; holes = all_holes s.tiles.entries } };

    ghost invariant = { λ s. AreTiles 0 s.tiles.entries × (length (all_shown s.tiles.entries) ≤ MAX_NAMESPACE) };
}

impl Space {
    // So many bytes, each 0, in extents of at most so many.
    pub(crate) fn new(alloc: Global, size: u64, most: u64) -> Result<Space, NoMemory>
        requires bounded { size ≤ MAX_NAMESPACE }
        requires some { 0 < most }
        ensures { IfOk result (λ space. space ≡ record { bytes = replicate size (Some 0); holes = [] }) }
    {
        let tiles = zeroed(alloc, size, most)?;
        Ok(Space { tiles })
    }

    // The byte at a place. `None` where it is out, and outside the namespace.
    pub(crate) fn byte(&self, at: u64) -> Option<u8>
        ensures { result ≡ slice_index_or self.now.bytes at None }
    {
        let (start, bytes) = home_around(&self.tiles, at)?;
        bytes.get(at - start)
    }

    // Moves out the bytes between two places, which are at home. Without memory nothing changes.
    pub(crate) fn take(&mut self, alloc: Global, from: u64, to: u64) -> Result<Bytes, NoMemory>
        requires order { from < to }
        requires home { AreHere self.old from to }
        ensures bytes { IfOk result
            (λ bytes. map (λ byte. Some byte) bytes.items ≡ piece self.old.bytes from (to - from)) }
        ensures taken { OnOk result (IsSpaceTaken self.old self.new from to) }
        ensures unchanged { OnErr result (self.new ≡ self.old) }
    {
        take_between(alloc, &mut self.tiles, from, to)
    }

    // Fills a hole, which is as long as the bytes.
    pub(crate) fn put(&mut self, from: u64, bytes: Bytes)
        requires { has_hole self.old.holes from (length bytes.items) ≡ true }
        ensures { IsSpacePut self.old self.new from bytes.items }
    {
        put_back(&mut self.tiles, from, bytes);
    }

    // A copy of the bytes between two places, which are at home.
    pub(crate) fn copy(&self, alloc: Global, from: u64, to: u64) -> Result<Bytes, NoMemory>
        requires order { from ≤ to }
        requires home { AreHere self.now from to }
        ensures { IfOk result (λ bytes. map (λ byte. Some byte) bytes.items ≡ piece self.now.bytes from (to - from)) }
    {
        copy_between(alloc, &self.tiles, from, to)
    }

    // Appends the bytes between two places, which are at home, to a buffer with room for them.
    pub(crate) fn append(&self, from: u64, to: u64, out: &mut Bytes)
        requires order { from ≤ to }
        requires home { AreHere self.now from to }
        requires room { to - from ≤ out.old.spare }
        ensures bytes { map (λ byte. Some byte) out.new.items
            ≡ map (λ byte. Some byte) out.old.items ++ piece self.now.bytes from (to - from) }
        ensures spare { out.new.spare + (to - from) ≡ out.old.spare }
    {
        append_between(&self.tiles, from, to, out);
    }
}
