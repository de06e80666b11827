// Where bytes lie: a namespace, and a range of bytes in one.
ghost use Rattle.std.specs.Prelude.{◌≡◌, ◌+◌, ◌<◌, ◌≤◌, ◌↔◌, IsTrue, IsSome, IfSome};
ghost use Rattle.cp_base.specs.Runs.{hull, is_apart_before, space_before};
ghost use Rattle.cp_base.specs.Sharing.{Covers, shares_byte};

use crate::MAX_NAMESPACE;
use std::marker::Model;

/// A namespace by its kind and number. A number is 1 to 8 where the namespace exists.
#[derive(Clone, Copy, Debug, PartialEq, Eq)]
pub enum SpaceId {
    /// An NVM namespace, whose bytes hosts reach in blocks.
    Nvm(u32),
    /// A memory namespace, whose bytes hosts and programs reach one by one.
    Mem(u32),
}

impl SpaceId {
    // Whether a namespace comes before another: NVM before memory, and each kind by its numbers.
    fn is_before(self, other: SpaceId) -> bool
        ensures { result ≡ space_before self other }
    {
        match (self, other) {
            (SpaceId::Nvm(m), SpaceId::Nvm(n)) => m < n,
            (SpaceId::Mem(m), SpaceId::Mem(n)) => m < n,
            (SpaceId::Nvm(_), SpaceId::Mem(_)) => true,
            (SpaceId::Mem(_), SpaceId::Nvm(_)) => false,
        }
    }
}

/// A range of bytes in one namespace: at least one byte, and none past the largest namespace.
/// Whether the namespace has these bytes is not part of it.
#[derive(Clone, Copy, Debug, PartialEq, Eq)]
pub struct ByteRange {
    space: SpaceId,
    start: u64,
    len: u64,
}

impl Model for ByteRange {
    ghost use Rattle.std.specs.Prelude.{◌+◌, ◌<◌, ◌≤◌};
    ghost use Rattle.cp_base.specs.Region.{Region};
    ghost use Rattle.cp_base.specs.declared.limits.TheConstants.{MAX_NAMESPACE};

    ghost Value = { Region };

    ghost view = { λ r. record { space = r.space; start = r.start; len = r.len } };

    ghost invariant = { λ r. (0 < r.len) × (r.start + r.len ≤ MAX_NAMESPACE) };

    ghost inverse = { λ r. record { space = r.space; start = r.start; len = r.len } };
}

impl Default for ByteRange {
    /// What stands in the places of a list that are not used.
    fn default() -> ByteRange {
        ByteRange {
            space: SpaceId::Mem(1),
            start: 0,
            len: 1,
        }
    }
}

impl ByteRange {
    /// The `len` bytes from place `start` on. `None` where there are none of them, or one lies past
    /// the largest namespace.
    pub fn new(space: SpaceId, start: u64, len: u64) -> Option<ByteRange>
        ensures found { IsSome result ↔ ((0 < len) × (start + len ≤ MAX_NAMESPACE)) }
        ensures value { IfSome result (λ r. r ≡ record { space = space; start = start; len = len }) }
    {
        if len == 0 || start > MAX_NAMESPACE || len > MAX_NAMESPACE - start {
            return None;
        }
        Some(ByteRange { space, start, len })
    }

    /// The namespace.
    pub fn space(&self) -> SpaceId
        ensures { result ≡ self.now.space }
    {
        self.space
    }

    /// The place of the first byte.
    pub fn start(&self) -> u64
        ensures value { result ≡ self.now.start }
        ensures inside { result < MAX_NAMESPACE }
    {
        self.start
    }

    /// How many bytes.
    pub fn len(&self) -> u64
        ensures value { result ≡ self.now.len }
        ensures positive { 0 < result }
        ensures bounded { result ≤ MAX_NAMESPACE }
    {
        self.len
    }

    /// The place after the last byte.
    pub fn end(&self) -> u64
        ensures value { result ≡ self.now.start + self.now.len }
        ensures behind { self.now.start < result }
        ensures bounded { result ≤ MAX_NAMESPACE }
    {
        self.start + self.len
    }

    /// Whether a byte lies in both ranges.
    pub fn overlaps(&self, other: &ByteRange) -> bool
        ensures { result ≡ shares_byte self.now other.now }
    {
        self.space == other.space && self.start < other.end() && other.start < self.end()
    }

    /// Whether every byte of the other range lies in this one.
    pub fn contains(&self, other: &ByteRange) -> bool
        ensures { IsTrue result ↔ Covers self.now other.now }
    {
        self.space == other.space && self.start <= other.start && other.end() <= self.end()
    }

    // Whether this range lies before the other, and a byte or a change of namespace is between them.
    pub(crate) fn is_apart_before(&self, other: &ByteRange) -> bool
        ensures { result ≡ is_apart_before self.now other.now }
    {
        self.space.is_before(other.space) || (self.space == other.space && self.end() < other.start)
    }

    // The least range with the bytes of both, which lie in one namespace.
    pub(crate) fn hull(&self, other: &ByteRange) -> ByteRange
        ensures { result ≡ hull self.now other.now }
    {
        let start = self.start.min(other.start);
        ByteRange {
            space: self.space,
            start,
            len: self.end().max(other.end()) - start,
        }
    }
}
