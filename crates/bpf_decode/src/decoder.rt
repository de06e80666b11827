//! Whole code.
ghost use Rattle.std.specs.Prelude.{◌≡◌, ◌==◌, false, ℕ, ◌*◌, ◌/◌, ◌≤◌, ◌++◌, length, pos, ◌<ℤ◌, OnSome, IfSome, OnOk, IfOk, IsOkUnless, option_copied};
ghost use Rattle.bpf_model.specs.Encoding.{IsAllowed};
ghost use Rattle.bpf_model.specs.Walk.{units_of, IsWellFormed, is_well_formed, bad_place, instruction_at};
ghost use Rattle.bpf_decode.specs.Slots.{slots_of, insn_at};

use crate::instructions::first_insn;
use bpf_isa::Insn;
use cp_base::{Bytes, MAX_PROGRAM, UNIT};
use std::alloc::{AllocError, AllocFailed, Global};
use std::marker::Model;

/// Why code was not decoded.
#[derive(Clone, Copy, Debug, PartialEq, Eq)]
pub enum DecodeEnd {
    /// The first place of the walk without a form: the number of units before it.
    BadInsn { place: u32 },
    /// The memory for the instructions is not there.
    NoMemory,
}

impl From<AllocError> for DecodeEnd {
    ghost use Rattle.std.specs.Prelude.{◌≡◌};
    ghost use Rattle.bpf_decode.specs.declared.decoder.DecodeEnd.TheVariants as ends;

    ghost from_gives = { λ _ e. e ≡ ends.NoMemory };

    fn from(_: AllocError) -> DecodeEnd {
        DecodeEnd::NoMemory
    }
}

impl<T: Drop> From<AllocFailed<T>> for DecodeEnd {
    ghost use Rattle.std.specs.Prelude.{◌≡◌};
    ghost use Rattle.bpf_decode.specs.declared.decoder.DecodeEnd.TheVariants as ends;

    ghost from_gives = { λ _ e. e ≡ ends.NoMemory };

    fn from(_: AllocFailed<T>) -> DecodeEnd {
        DecodeEnd::NoMemory
    }
}

/// Well formed code, decoded: contracts see a list with one entry for each unit, which is the
/// instruction that starts there, if one does.
#[derive(Debug, Drop)]
pub struct Decoded {
    slots: Vec<Option<Insn>>,
}

impl Model for Decoded {
    ghost use Rattle.std.specs.Prelude.{List, Option, ◌*◌, ◌≤◌, length};
    ghost use Rattle.cp_base.specs.declared.limits.TheConstants.{MAX_PROGRAM, UNIT};
    ghost use Rattle.bpf_isa.specs.declared.insn.Insn.{Insn};
    ghost use Rattle.bpf_decode.specs.Slots.{HoldAllowed};

    ghost Value = { List (Option Insn) };

    ghost view = { λ d. d.slots.items };

    ghost invariant = { λ d. (UNIT * length d.slots.items ≤ MAX_PROGRAM) × HoldAllowed d.slots.items };
}

impl Decoded {
    /// The instruction that starts at a place, or `None` where none does: before 0, at the second unit
    /// of a load of 64 bits, at the end and behind it. It takes the same time at every place.
    /// Places end with the units of the longest program, and each instruction is one of the profile.
    pub fn at(&self, place: i64) -> Option<&Insn>
        ensures instruction { option_copied result ≡ insn_at self.now place }
        ensures within { OnSome result (place <ℤ pos (MAX_PROGRAM / UNIT)) }
        ensures allowed { IfSome result (λ insn. IsAllowed insn.now) }
    {
        if place < 0 {
            return None;
        }
        match self.slots.get(place as usize) {
            Some(slot) => slot.as_ref(),
            None => None,
        }
    }

    /// The length of the code in units of 8 bytes.
    pub fn units(&self) -> u32
        ensures { result ≡ length self.now }
    {
        self.slots.len() as u32
    }
}

/// Whether an instruction has a second unit.
fn is_wide(insn: &Insn) -> bool
    ensures { result ≡ (units_of insn.now == 2) }
{
    matches!(insn, Insn::LoadImm { .. })
}

/// Adds the slots of an instruction.
fn push_insn(slots: &mut Vec<Option<Insn>>, insn: Insn) -> Result<(), DecodeEnd>
    ensures ok { OnOk result (slots.new.items ≡ slots.old.items ++ slots_of insn) }
    ensures no_memory { IsOkUnless result DecodeEnd.NoMemory }
{
    let wide = is_wide(&insn);
    slots.push(Some(insn))?;
    if wide {
        slots.push(None)?;
    }
    Ok(())
}

/// Decodes the code of a program, with one slot for each unit.
///
/// It fails where the code is not well formed (RFC 9669, section 3), at the first place without a form;
/// empty code has none at 0. Memory is taken first.
pub fn decode(alloc: Global, code: &Bytes) -> Result<Decoded, DecodeEnd>
    requires { length code.now.items ≤ MAX_PROGRAM }
    ensures well_formed { OnOk result (IsWellFormed code.now.items) }
    ensures units { IfOk result (λ d. UNIT * length d ≡ length code.now.items) }
    ensures instructions { IfOk result (λ d.
        (place : ℕ) → insn_at d (pos place) ≡ instruction_at code.now.items place) }
    ensures bad { (place : ℕ) → result ≡ Err (DecodeEnd.BadInsn place) →
        (is_well_formed code.now.items ≡ false) × (place ≡ bad_place code.now.items) }
{
    let bytes = code.as_slice();
    if bytes.is_empty() {
        return Err(DecodeEnd::BadInsn { place: 0 });
    }
    let mut slots = Vec::with_capacity(alloc, bytes.len() / 8)?;
    while 8 * slots.len() < bytes.len() {
        let place = slots.len();
        let Some(insn) = first_insn(&bytes[8 * place..]) else {
            return Err(DecodeEnd::BadInsn {
                place: place as u32,
            });
        };
        push_insn(&mut slots, insn)?;
    }
    Ok(Decoded { slots })
}
