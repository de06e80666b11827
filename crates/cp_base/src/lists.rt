// The sources of a copy and the ranges of a set, 1 to 16 of them. A command keeps its list apart, so that it is small
// itself; a set keeps its ranges in place, so that making it takes no memory.
ghost use Rattle.std.specs.Prelude.{◌≡◌, ℕ, ◌<◌, ◌≤◌, ◌↔◌, IsTrue, length, IsSome, IfSome, IfOk};

use crate::{MAX_ITEMS, NoMemory};
use smallvec::SmallVec;
use std::alloc::Global;
use std::marker::Model;

// Whether a list may have so many items.
fn is_list(count: usize) -> bool
    ensures { IsTrue result ↔ ((0 < count) × (count ≤ MAX_ITEMS)) }
{
    count > 0 && count <= MAX_ITEMS
}

/// A part of a namespace that a copy reads.
#[derive(Clone, Copy, Debug, PartialEq, Eq)]
pub enum CopySource {
    /// `count` blocks of an NVM namespace, from block `lba` on.
    Nvm { ns: u32, lba: u64, count: u64 },
    /// `len` bytes of a memory namespace, from place `at` on.
    Mem { ns: u32, at: u64, len: u64 },
}

impl Default for CopySource {
    /// What stands in the places of a list that are not used.
    fn default() -> CopySource {
        CopySource::Mem {
            ns: 0,
            at: 0,
            len: 0,
        }
    }
}

/// What a program may do with the bytes of a range.
#[derive(Clone, Copy, Debug, Default, PartialEq, Eq)]
pub enum Access {
    /// Load them.
    ReadOnly,
    /// Load them and store into them.
    #[default]
    ReadWrite,
}

/// A part of a memory namespace that a set names: `len` bytes from place `at` on, and what a program
/// may do with them.
#[derive(Clone, Copy, Debug, Default, PartialEq, Eq)]
pub struct MemRange {
    pub ns: u32,
    pub at: u64,
    pub len: u64,
    pub access: Access,
}

/// The sources of a copy in their order, 1 to 16 of them.
#[derive(Debug, Drop)]
pub struct SourceList {
    sources: Vec<CopySource>,
}

impl Model for SourceList {
    ghost use Rattle.std.specs.Prelude.{List, ◌<◌, ◌≤◌, length};
    ghost use Rattle.cp_base.specs.declared.limits.TheConstants.{MAX_ITEMS};
    ghost use Rattle.cp_base.specs.declared.lists.CopySource.{CopySource};

    ghost Value = { List CopySource };

    ghost view = { λ l. l.sources.items };

    ghost invariant = { λ l. (0 < length l.sources.items) × (length l.sources.items ≤ MAX_ITEMS) };
}

impl SourceList {
    /// These sources. `None` where there are none or more than 16.
    pub fn new(alloc: Global, items: &[CopySource]) -> Result<Option<SourceList>, NoMemory>
        ensures found { IfOk result (λ list. IsSome list ↔ ((0 < length items.now) × (length items.now ≤ MAX_ITEMS))) }
        ensures value { IfOk result (λ list. IfSome list (λ l. l ≡ items.now)) }
    {
        if !is_list(items.len()) {
            return Ok(None);
        }
        let sources = Vec::from_slice(alloc, items)?;
        Ok(Some(SourceList { sources }))
    }

    /// The sources in order.
    pub fn as_slice(&self) -> &[CopySource]
        ensures value { result.now ≡ self.now }
        ensures some { 0 < length result.now }
        ensures few { length result.now ≤ MAX_ITEMS }
    {
        self.sources.as_slice()
    }
}

/// The ranges of a set in their order, 1 to 16 of them, in place.
#[derive(Debug, Drop)]
pub struct RangeList {
    ranges: SmallVec<MemRange, MAX_ITEMS>,
}

impl Model for RangeList {
    ghost use Rattle.std.specs.Prelude.{List, ◌<◌, ◌≤◌, length};
    ghost use Rattle.cp_base.specs.declared.limits.TheConstants.{MAX_ITEMS};
    ghost use Rattle.cp_base.specs.declared.lists.MemRange.{MemRange};

    ghost Value = { List MemRange };

    ghost view = { λ l. l.ranges.items };

    ghost invariant = { λ l. (0 < length l.ranges.items) × (length l.ranges.items ≤ MAX_ITEMS) };
}

impl RangeList {
    /// These ranges. `None` where there are none or more than 16.
    pub fn new(alloc: Global, items: &[MemRange]) -> Option<RangeList>
        ensures found { IsSome result ↔ ((0 < length items.now) × (length items.now ≤ MAX_ITEMS)) }
        ensures value { IfSome result (λ l. l ≡ items.now) }
    {
        if !is_list(items.len()) {
            return None;
        }
        let ranges = SmallVec::from_slice(alloc, items).unwrap();
        Some(RangeList { ranges })
    }

    /// The ranges in order.
    pub fn as_slice(&self) -> &[MemRange]
        ensures value { result.now ≡ self.now }
        ensures some { 0 < length result.now }
        ensures few { length result.now ≤ MAX_ITEMS }
    {
        self.ranges.as_slice()
    }
}

/// The ranges of a set that a command asks for.
#[derive(Debug, Drop)]
pub struct SetRanges {
    ranges: Box<RangeList>,
}

impl Model for SetRanges {
    ghost use Rattle.std.specs.Prelude.{List, box_value};
    ghost use Rattle.cp_base.specs.declared.lists.MemRange.{MemRange};

    ghost Value = { List MemRange };

    ghost view = { λ s. box_value s.ranges };
}

impl SetRanges {
    /// These ranges. `None` where there are none or more than 16.
    pub fn new(alloc: Global, items: &[MemRange]) -> Result<Option<SetRanges>, NoMemory>
        ensures found { IfOk result
            (λ ranges. IsSome ranges ↔ ((0 < length items.now) × (length items.now ≤ MAX_ITEMS))) }
        ensures value { IfOk result (λ ranges. IfSome ranges (λ s. s ≡ items.now)) }
    {
        match RangeList::new(alloc, items) {
            Some(list) => {
                let ranges = Box::new(alloc, list)?;
                Ok(Some(SetRanges { ranges }))
            }
            None => Ok(None),
        }
    }

    /// The ranges as a list in place.
    pub fn as_list(&self) -> &RangeList
        ensures { result.now ≡ self.now }
    {
        &self.ranges
    }
}
