// The bytes of every namespace, of which some may be out.
ghost use Rattle.std.specs.Prelude.{◌≡◌, ℕ, true, false, ◌+◌, ◌-◌, ◌*◌, ◌<◌, ◌≤◌, Some, None, [], ◌++◌, All, length, map, drop, replicate, slice_get, slice_index_or, IfOk, OnOk, OnErr, MatchOption};
ghost use Rattle.cp_base.specs.Contents.{all_zero, bytes_of};
ghost use Rattle.cp_base.specs.Growth.{Appended};
ghost use Rattle.cp_base.specs.Pieces.{piece};
ghost use Rattle.cp_base.specs.Region.{Region};
ghost use Rattle.cp_base.specs.declared.limits.TheConstants.{MAX_NAMESPACE};
ghost use Rattle.cp_base.specs.declared.region.SpaceId.{SpaceId};
ghost use Rattle.extents.specs.Homes.{AreBytesAt, AreHere, IsAtHome, IsBroughtBack, IsSpacePut, IsSpaceTaken, IsTakenAway, has_hole, home_of, home_under, is_hole, known_at, zero_spaces};

use crate::space::Space;
use cp_base::{ByteRange, Bytes, Config, NoMemory, SpaceId};
use std::alloc::Global;
use std::marker::Model;

// How many bytes an extent has at first, at most: a cut then copies little.
const FIRST: u64 = 8_192;

/// The bytes of every namespace. What is taken out leaves a hole, until it is put back.
///
/// Contracts see the byte at each place, none where it is out or outside, and which ranges are out.
#[derive(Debug, Drop)]
pub struct Extents {
    alloc: Global,
    nvm: Vec<Space>,
    mem: Vec<Space>,
}

impl Model for Extents {
    ghost use Rattle.extents.specs.Homes.{Homes};

    ghost Value = { Homes };

    ghost view = { λ e. record { nvm = e.nvm.items; mem = e.mem.items } };
}

// A namespace of zeros for each of the sizes, which are in these units.
fn zero_spaces(alloc: Global, sizes: &[u32], unit: u32) -> Result<Vec<Space>, NoMemory>
    requires { All (λ size. size * unit ≤ MAX_NAMESPACE) sizes.now }
    ensures { IfOk result (λ made. made.items ≡ zero_spaces unit sizes.now) }
{
    let mut made = Vec::new(alloc);
    for size in sizes {
        made.push(Space::new(alloc, u64::from(*size) * u64::from(unit), FIRST)?)?;
    }
    Ok(made)
}

// The namespace of a number, where there is one.
fn under(all: &[Space], number: u32) -> Option<&Space>
    ensures { MatchOption result ((at : ℕ) → slice_index_or (home_under all.now number).bytes at None ≡ None)
        (λ space. space.now ≡ home_under all.now number) }
{
    let index = number.checked_sub(1)?;
    all.get(index as usize)
}

// Moves out the bytes between two places of a numbered namespace, which are at home.
fn take_under(
    alloc: Global,
    all: &mut Vec<Space>,
    number: u32,
    from: u64,
    to: u64,
) -> Result<Bytes, NoMemory>
    requires order { from < to }
    requires home { AreHere (home_under all.old.items number) from to }
    ensures bytes { IfOk result
        (λ bytes. map (λ byte. Some byte) bytes.items ≡ piece (home_under all.old.items number).bytes from (to - from)) }
    ensures taken { OnOk result
        (IsSpaceTaken (home_under all.old.items number) (home_under all.new.items number) from to) }
    ensures others { (m : ℕ) → (m ≡ number → ⊥) → home_under all.new.items m ≡ home_under all.old.items m }
    ensures unchanged { OnErr result (all.new.items ≡ all.old.items) }
{
    all[number as usize - 1].take(alloc, from, to)
}

// Fills a hole of a numbered namespace.
fn put_under(all: &mut Vec<Space>, number: u32, from: u64, bytes: Bytes)
    requires { has_hole (home_under all.old.items number).holes from (length bytes.items) ≡ true }
    ensures put { IsSpacePut (home_under all.old.items number) (home_under all.new.items number) from bytes.items }
    ensures others { (m : ℕ) → (m ≡ number → ⊥) → home_under all.new.items m ≡ home_under all.old.items m }
{
    all[number as usize - 1].put(from, bytes);
}

impl Extents {
    /// All bytes of the configured namespaces, each 0 and at home.
    pub fn new(alloc: Global, config: &Config) -> Result<Extents, NoMemory>
        ensures zero { IfOk result
            (λ e. (space : SpaceId) (offset : ℕ)
            → known_at e space offset ≡ slice_get (bytes_of (all_zero config.now) space) offset) }
        ensures whole { IfOk result (λ e. (region : Region) → is_hole e region ≡ false) }
    {
        let nvm = zero_spaces(alloc, config.nvm(), config.block())?;
        let mem = zero_spaces(alloc, config.mem(), 1)?;
        Ok(Extents { alloc, nvm, mem })
    }

    // The namespace, where there is one.
    fn space(&self, space: SpaceId) -> Option<&Space>
        ensures { MatchOption result ((at : ℕ) → known_at self.now space at ≡ None)
            (λ found. found.now ≡ home_of self.now space) }
    {
        match space {
            SpaceId::Nvm(n) => under(&self.nvm, n),
            SpaceId::Mem(n) => under(&self.mem, n),
        }
    }

    /// The byte at a place of a namespace. `None` where it is out, and where the place is outside.
    pub fn byte(&self, space: SpaceId, at: u64) -> Option<u8>
        ensures { result ≡ known_at self.now space at }
    {
        self.space(space)?.byte(at)
    }

    // Moves out the bytes between two places of a namespace, which are at home.
    fn take_of(&mut self, space: SpaceId, from: u64, to: u64) -> Result<Bytes, NoMemory>
        requires order { from < to }
        requires home { AreHere (home_of self.old space) from to }
        ensures bytes { IfOk result
            (λ bytes. map (λ byte. Some byte) bytes.items ≡ piece (home_of self.old space).bytes from (to - from)) }
        ensures taken { OnOk result (IsSpaceTaken (home_of self.old space) (home_of self.new space) from to) }
        ensures others { (other : SpaceId) → (other ≡ space → ⊥) → home_of self.new other ≡ home_of self.old other }
        ensures unchanged { OnErr result (self.new ≡ self.old) }
    {
        match space {
            SpaceId::Nvm(n) => take_under(self.alloc, &mut self.nvm, n, from, to),
            SpaceId::Mem(n) => take_under(self.alloc, &mut self.mem, n, from, to),
        }
    }

    // Fills a hole of a namespace.
    fn put_of(&mut self, space: SpaceId, from: u64, bytes: Bytes)
        requires { has_hole (home_of self.old space).holes from (length bytes.items) ≡ true }
        ensures put { IsSpacePut (home_of self.old space) (home_of self.new space) from bytes.items }
        ensures others { (other : SpaceId) → (other ≡ space → ⊥) → home_of self.new other ≡ home_of self.old other }
    {
        match space {
            SpaceId::Nvm(n) => put_under(&mut self.nvm, n, from, bytes),
            SpaceId::Mem(n) => put_under(&mut self.mem, n, from, bytes),
        }
    }

    /// Moves out the bytes of a range, all of which are at home. The range is out then.
    ///
    /// # Errors
    ///
    /// `NoMemory` where there is no memory to cut the bytes out or to join them. Nothing changes then.
    pub fn take(&mut self, range: &ByteRange) -> Result<Bytes, NoMemory>
        requires { IsAtHome self.old range.now }
        ensures bytes { IfOk result (λ bytes. AreBytesAt self.old range.now bytes.items) }
        ensures taken { OnOk result (IsTakenAway self.old self.new range.now) }
        ensures unchanged { OnErr result (self.new ≡ self.old) }
    {
        let from = range.start();
        let to = from + range.len();
        self.take_of(range.space(), from, to)
    }

    /// Puts bytes into a range that is out, which they fill. It takes no memory.
    pub fn put(&mut self, range: &ByteRange, bytes: Bytes)
        requires out { is_hole self.old range.now ≡ true }
        requires length { length bytes.items ≡ range.now.len }
        ensures { IsBroughtBack self.old self.new range.now bytes.items }
    {
        self.put_of(range.space(), range.start(), bytes);
    }

    /// A copy of the bytes of a range, all of which are at home.
    ///
    /// # Errors
    ///
    /// `NoMemory` where there is no memory for the copy.
    pub fn copy(&self, range: &ByteRange) -> Result<Bytes, NoMemory>
        requires { IsAtHome self.now range.now }
        ensures { IfOk result (λ bytes. AreBytesAt self.now range.now bytes.items) }
    {
        let from = range.start();
        let to = from + range.len();
        let space = self.space(range.space()).unwrap();
        space.copy(self.alloc, from, to)
    }

    /// Appends the bytes of a range, all of which are at home, to a buffer that has room for them. It
    /// takes no memory.
    pub fn append(&self, range: &ByteRange, out: &mut Bytes)
        requires home { IsAtHome self.now range.now }
        requires room { range.now.len ≤ out.old.spare }
        ensures bytes { AreBytesAt self.now range.now (drop (length out.old.items) out.new.items) }
        ensures appended { Appended out.old out.new (drop (length out.old.items) out.new.items) }
    {
        let from = range.start();
        let to = from + range.len();
        let space = self.space(range.space()).unwrap();
        space.append(from, to, out);
    }
}
