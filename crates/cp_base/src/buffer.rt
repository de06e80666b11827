// A list of bytes that knows how much room it has left.
ghost use Rattle.std.specs.Prelude.{◌≡◌, ◌↔◌, IsTrue, ◌+◌, ◌-◌, ◌*◌, ◌≤◌, ◌<◌, [], ◌∷◌, ◌++◌, length, take, drop, replicate, slice_get, IfOk, OnOk, OnErr, vec_len, vec_capacity};
ghost use Rattle.cp_base.specs.Pieces.{patched};
ghost use Rattle.cp_base.specs.Growth.{Appended, Reserved};

use crate::NoMemory;
use std::alloc::Global;
use std::marker::Model;

/// A list of bytes, and `spare`, the room that is left: how many bytes can be added before memory
/// has to be taken.
#[derive(Debug, Drop)]
pub struct Bytes {
    kept: Vec<u8>,
    room: usize,
}

impl Model for Bytes {
    ghost use Rattle.std.specs.Prelude.{◌+◌, ◌≤◌, vec_len, vec_capacity};
    ghost use Rattle.cp_base.specs.Buffer.{Buffer};

    ghost Value = { Buffer };

    ghost view = { λ b. record { items = b.kept.items; spare = b.room } };

    ghost invariant = { λ b. vec_len b.kept + b.room ≤ vec_capacity b.kept };
}

impl Bytes {
    /// The empty list, without room.
    pub fn new(alloc: Global) -> Bytes
        ensures items { result.items ≡ [] }
        ensures spare { result.spare ≡ 0 }
    {
        Bytes {
            kept: Vec::new(alloc),
            room: 0,
        }
    }

    /// `n` times the same byte.
    pub fn filled(alloc: Global, n: u64, value: u8) -> Result<Bytes, NoMemory>
        ensures items { IfOk result (λ b. b.items ≡ replicate n value) }
        ensures spare { IfOk result (λ b. b.spare ≡ 0) }
    {
        let mut kept = Vec::new(alloc);
        kept.resize(n as usize, value)?;
        Ok(Bytes { kept, room: 0 })
    }

    /// The bytes of a slice.
    pub fn from_slice(alloc: Global, from: &[u8]) -> Result<Bytes, NoMemory>
        ensures items { IfOk result (λ b. b.items ≡ from.now) }
        ensures spare { IfOk result (λ b. b.spare ≡ 0) }
    {
        let kept = Vec::from_slice(alloc, from)?;
        Ok(Bytes { kept, room: 0 })
    }

    /// Adds a byte at the end. It is refused only where there is no room.
    pub fn push(&mut self, byte: u8) -> Result<(), NoMemory>
        ensures items { OnOk result (self.new.items ≡ self.old.items ++ byte ∷ []) }
        ensures spare { OnOk result (self.new.spare ≡ self.old.spare - 1) }
        ensures full { OnErr result (self.old.spare ≡ 0) }
        ensures unchanged { OnErr result (self.new ≡ self.old) }
    {
        self.kept.push(byte)?;
        self.room = self.room.saturating_sub(1);
        Ok(())
    }

    /// Takes memory only where there is no room for `n` more bytes.
    pub fn reserve(&mut self, n: u64) -> Result<(), NoMemory>
        ensures { Reserved result self.old self.new n }
    {
        let wanted = n as usize;
        if wanted > self.room {
            self.kept.reserve(wanted)?;
            self.room = wanted;
        }
        Ok(())
    }

    /// Adds bytes at the end, for which there is room.
    pub fn append(&mut self, from: &[u8])
        requires { length from.now ≤ self.old.spare }
        ensures { Appended self.old self.new from.now }
    {
        self.kept.extend_from_slice(from).unwrap();
        self.room -= from.len();
    }

    /// Lets go of all bytes. Their places become room.
    pub fn clear(&mut self)
        ensures items { self.new.items ≡ [] }
        ensures spare { self.new.spare ≡ self.old.spare + length self.old.items }
    {
        let len = self.kept.len();
        self.kept.clear();
        self.room += len;
    }

    /// Puts bytes over those from place `at` on.
    pub fn write(&mut self, at: u64, from: &[u8])
        requires { at + length from.now ≤ length self.old.items }
        ensures items { self.new.items ≡ patched self.old.items at from.now }
        ensures spare { self.new.spare ≡ self.old.spare }
    {
        let start = at as usize;
        self.kept[start..start + from.len()].copy_from_slice(from);
    }

    /// Puts the same byte over `n` bytes from place `at` on.
    pub fn fill(&mut self, at: u64, n: u64, value: u8)
        requires { at + n ≤ length self.old.items }
        ensures items { self.new.items ≡ patched self.old.items at (replicate n value) }
        ensures spare { self.new.spare ≡ self.old.spare }
    {
        let kept = self.kept.as_mut_slice();
        let start = at as usize;
        kept[start..start + n as usize].fill(value);
    }

    /// Takes out the bytes from place `at` on, which come without room; their places become room here.
    /// Without memory for them nothing changes.
    pub fn split_off(&mut self, at: u64) -> Result<Bytes, NoMemory>
        requires { at ≤ length self.old.items }
        ensures taken { IfOk result (λ rest. rest.items ≡ drop at self.old.items) }
        ensures taken_spare { IfOk result (λ rest. rest.spare ≡ 0) }
        ensures items { OnOk result (self.new.items ≡ take at self.old.items) }
        ensures spare { OnOk result (self.new.spare + at ≡ self.old.spare + length self.old.items) }
        ensures unchanged { OnErr result (self.new ≡ self.old) }
    {
        let start = at as usize;
        let rest = Bytes::from_slice(*self.kept.allocator(), &self.kept[start..])?;
        self.room += self.kept.len() - start;
        self.kept.truncate(start);
        Ok(rest)
    }

    /// How many bytes there are.
    pub fn len(&self) -> u64
        ensures { result ≡ length self.now.items }
    {
        self.kept.len() as u64
    }

    /// Whether there is no byte.
    pub fn is_empty(&self) -> bool
        ensures { IsTrue result ↔ (self.now.items ≡ []) }
    {
        self.kept.is_empty()
    }

    /// How many bytes can be added before memory has to be taken.
    pub fn spare(&self) -> u64
        ensures { result ≡ self.now.spare }
    {
        self.room as u64
    }

    /// The byte at a place.
    pub fn get(&self, i: u64) -> Option<u8>
        ensures { result ≡ slice_get self.now.items i }
    {
        self.kept.get(i as usize).copied()
    }

    /// All bytes, in order.
    pub fn as_slice(&self) -> &[u8]
        ensures { result.now ≡ self.now.items }
    {
        self.kept.as_slice()
    }
}
