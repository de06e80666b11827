// The program of one slot.
ghost use Rattle.std.specs.Prelude.{◌≡◌, ◌+◌, ◌<◌, ◌≤◌, None, Some, true, false, ℕ, is_some, is_none, length, map, replicate, unwrap_or, IfOk, IfErr, IfSome, OnOk, OnErr, IsSome, option_copied, option_map};
ghost use Rattle.std.specs.Arc.{arc_value};
ghost use Rattle.std.specs.List.{list_all, list_any};
ghost use Rattle.cp_base.specs.Pieces.{patched, piece};
ghost use Rattle.bpf_model.specs.Walk.{bad_place, is_well_formed};
ghost use Rattle.program_slots.specs.Program.{IsDecodedFrom, IsHeldSoundly, code_of_bytes};

use crate::pieces::Pieces;
use bpf_decode::{DecodeEnd, Decoded, decode};
use cp_base::{Bytes, MAX_PROGRAM, NoMemory};
use std::alloc::Global;
use std::marker::Model;
use std::sync::Arc;

/// A program that a slot holds: its bytes, of which some may be missing, and while it is active what
/// they were decoded to.
#[derive(Debug, Drop)]
pub(crate) struct Program {
    pieces: Pieces,
    code: Option<Arc<Decoded>>,
}

impl Model for Program {
    ghost use Rattle.std.specs.Prelude.{option_map};
    ghost use Rattle.std.specs.Arc.{arc_value};
    ghost use Rattle.program_slots.specs.Program.{HeldProgram, IsHeldSoundly};

    ghost Value = { HeldProgram };

    ghost view = { λ p. record { bytes = p.pieces; decoded = option_map arc_value p.code } };

    ghost invariant = { λ p. IsHeldSoundly (option_map arc_value p.code) p.pieces };
}

impl Program {
    /// A program of a size, of which every byte is missing.
    pub(crate) fn new(alloc: Global, size: u64) -> Program
        requires { size ≤ MAX_PROGRAM }
        ensures { result ≡ record { bytes = replicate size None; decoded = None } }
    {
        Program {
            pieces: Pieces::new(alloc, size),
            code: None,
        }
    }

    /// How many bytes the program has.
    pub(crate) fn size(&self) -> u64
        ensures { result ≡ length self.now.bytes }
    {
        self.pieces.size()
    }

    /// Whether no byte is missing.
    pub(crate) fn is_complete(&self) -> bool
        ensures { result ≡ list_all (λ byte. is_some byte) self.now.bytes }
    {
        self.pieces.is_complete()
    }

    /// Whether one of the `len` bytes from place `at` on is there.
    pub(crate) fn meets(&self, at: u64, len: u64) -> bool
        requires some { 0 < len }
        requires inside { at + len ≤ length self.now.bytes }
        ensures { result ≡ list_any (λ byte. is_some byte) (piece self.now.bytes at len) }
    {
        self.pieces.meets(at, len)
    }

    /// Whether the program is active.
    pub(crate) fn is_active(&self) -> bool
        ensures { result ≡ is_some self.now.decoded }
    {
        self.code.is_some()
    }

    /// What an active program was decoded to.
    pub(crate) fn code(&self) -> Option<&Arc<Decoded>>
        ensures active { is_some result ≡ is_some self.now.decoded }
        ensures decoded { IfSome result (λ code. IsDecodedFrom (arc_value code.now) (code_of_bytes self.now.bytes)) }
    {
        self.code.as_ref()
    }

    /// Loads a piece, where no byte is there yet, of a program that is not active.
    pub(crate) fn put(&mut self, at: u64, bytes: &Bytes) -> Result<(), NoMemory>
        requires inactive { self.old.decoded ≡ None }
        requires some { 0 < length bytes.now.items }
        requires inside { at + length bytes.now.items ≤ length self.old.bytes }
        requires missing { list_any (λ byte. is_some byte) (piece self.old.bytes at (length bytes.now.items)) ≡ false }
        ensures put { OnOk result (self.new
            ≡ record self.old { bytes = patched self.old.bytes at (map (λ byte. Some byte) bytes.now.items) }) }
        ensures unchanged { OnErr result (self.new ≡ self.old) }
    {
        self.pieces.put(at, bytes)
    }

    /// Decodes a complete program, which is active from then on.
    pub(crate) fn activate(&mut self, alloc: Global) -> Result<(), DecodeEnd>
        requires { list_all (λ byte. is_some byte) self.old.bytes ≡ true }
        ensures bytes { self.new.bytes ≡ self.old.bytes }
        ensures active { OnOk result (is_some self.new.decoded ≡ true) }
        ensures well_formed { OnOk result (is_well_formed (code_of_bytes self.old.bytes) ≡ true) }
        ensures unchanged { OnErr result (self.new ≡ self.old) }
        ensures bad { (place : ℕ) → result ≡ Err (DecodeEnd.BadInsn place) →
            (is_well_formed (code_of_bytes self.old.bytes) ≡ false) × (place ≡ bad_place (code_of_bytes self.old.bytes)) }
    {
        let code = match self.pieces.joined() {
            Ok(code) => code,
            Err(NoMemory) => return Err(DecodeEnd::NoMemory),
        };
        let decoded = decode(alloc, &code)?;
        self.code = Some(Arc::new(alloc, decoded)?);
        Ok(())
    }

    /// Makes the program inactive. Its bytes stay.
    pub(crate) fn deactivate(&mut self)
        ensures { self.new ≡ record self.old { decoded = None } }
    {
        self.code = None;
    }
}
