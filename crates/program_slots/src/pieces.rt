// The pieces of a program that are loaded.
ghost use Rattle.std.specs.Prelude.{◌≡◌, ◌+◌, ◌<◌, ◌≤◌, None, Some, true, false, is_some, length, map, replicate, unwrap_or, IfOk, OnOk, OnErr};
ghost use Rattle.std.specs.List.{list_all, list_any};
ghost use Rattle.cp_base.specs.Pieces.{patched, piece};
ghost use Rattle.program_slots.specs.Spread.{joined_bytes, loaded_in};

use cp_base::{Bytes, MAX_PROGRAM, NoMemory};
use std::alloc::Global;
use std::collections::BTreeMap;
use std::marker::Model;

/// The bytes of a program, of which some may be missing. Contracts see the list of its bytes.
#[derive(Debug, Drop)]
pub(crate) struct Pieces {
    alloc: Global,
    size: u64,
    loaded: u64,
    pieces: BTreeMap<u64, Bytes>,
}

impl Model for Pieces {
    ghost use Rattle.std.specs.Prelude.{◌≡◌, ◌≤◌, ℕ, List, Option};
    ghost use Rattle.cp_base.specs.declared.limits.TheConstants.{MAX_PROGRAM};
    ghost use Rattle.program_slots.specs.Spread.{AreSpread, loaded_in, spread};

    ghost Value = { List (Option ℕ) };

    ghost view = { λ p. spread 0 p.size p.pieces.entries };

    ghost invariant = { λ p. (p.size ≤ MAX_PROGRAM) × AreSpread 0 p.size p.pieces.entries
        × (p.loaded ≡ loaded_in p.pieces.entries) };
}

impl Pieces {
    /// A program of a size, of which every byte is missing.
    pub(crate) fn new(alloc: Global, size: u64) -> Pieces
        requires { size ≤ MAX_PROGRAM }
        ensures { result ≡ replicate size None }
    {
        Pieces {
            alloc,
            size,
            loaded: 0,
            pieces: BTreeMap::new(alloc),
        }
    }

    /// How many bytes the program has.
    pub(crate) fn size(&self) -> u64
        ensures value { result ≡ length self.now }
        ensures bounded { result ≤ MAX_PROGRAM }
    {
        self.size
    }

    /// Whether no byte is missing.
    pub(crate) fn is_complete(&self) -> bool
        ensures { result ≡ list_all (λ byte. is_some byte) self.now }
    {
        self.loaded == self.size
    }

    /// Whether one of the `len` bytes from place `at` on is there.
    pub(crate) fn meets(&self, at: u64, len: u64) -> bool
        requires some { 0 < len }
        requires inside { at + len ≤ length self.now }
        ensures { result ≡ list_any (λ byte. is_some byte) (piece self.now at len) }
    {
        match self.pieces.range(..at + len).next_back() {
            Some((start, bytes)) => *start + bytes.len() > at,
            None => false,
        }
    }

    /// Loads a piece at a place where every byte is missing.
    pub(crate) fn put(&mut self, at: u64, bytes: &Bytes) -> Result<(), NoMemory>
        requires some { 0 < length bytes.now.items }
        requires inside { at + length bytes.now.items ≤ length self.old }
        requires missing { list_any (λ byte. is_some byte) (piece self.old at (length bytes.now.items)) ≡ false }
        ensures put { OnOk result (self.new ≡ patched self.old at (map (λ byte. Some byte) bytes.now.items)) }
        ensures unchanged { OnErr result (self.new ≡ self.old) }
    {
        let kept = Bytes::from_slice(self.alloc, bytes.as_slice())?;
        self.pieces.insert(at, kept)?;
        self.loaded += bytes.len();
        Ok(())
    }

    /// The bytes of a program of which none is missing, in one list.
    pub(crate) fn joined(&self) -> Result<Bytes, NoMemory>
        requires { list_all (λ byte. is_some byte) self.now ≡ true }
        ensures code { IfOk result (λ code. code.items ≡ map (λ byte. unwrap_or byte 0) self.now) }
        ensures fits { IfOk result (λ code. length code.items ≤ MAX_PROGRAM) }
    {
        join(self.alloc, self.size, &self.pieces)
    }
}

// The bytes of all pieces of a program of a size, one after the other. Memory is taken first.
fn join(alloc: Global, size: u64, pieces: &BTreeMap<u64, Bytes>) -> Result<Bytes, NoMemory>
    requires { loaded_in pieces.now.entries ≤ size }
    ensures { IfOk result (λ code. code.items ≡ joined_bytes pieces.now.entries) }
{
    let mut code = Bytes::new(alloc);
    code.reserve(size)?;
    for (_, bytes) in pieces {
        code.append(bytes.as_slice());
    }
    Ok(code)
}
