// What commands that pass their checks do to one slot.
ghost use Rattle.std.specs.Prelude.{◌≡◌, ◌⊎◌, None, Some, true, false, ℕ, length, map, IfErr, OnOk, OnErr};
ghost use Rattle.cp_base.specs.Answer.{only_status};
ghost use Rattle.cp_base.specs.Checks.{first_failing};
ghost use Rattle.cp_base.specs.Pieces.{patched};
ghost use Rattle.device_model.specs.Checks.{activate_checks, deactivate_checks, load_checks, program_refusal, slot_bytes};
ghost use Rattle.device_model.specs.Effect.{begun};
ghost use Rattle.device_model.specs.State.{Holding};
ghost use Rattle.program_slots.specs.Program.{slot_of};
ghost use Rattle.program_slots.specs.Refusals.{told_by_refusal};

use crate::program::Program;
use bpf_decode::DecodeEnd;
use cp_base::{Bytes, NoMemory, Refusal, Status};
use std::alloc::Global;

/// The refusal of a status, whose result is 0.
pub(crate) fn refused(status: Status) -> Refusal
    ensures { result ≡ record { status = status; result = 0 } }
{
    Refusal { status, result: 0 }
}

/// Loads a piece into a slot, which is fixed to the program's size where it was empty.
pub(crate) fn load_into(
    alloc: Global,
    held: &mut Option<Program>,
    size: u64,
    at: u64,
    bytes: &Bytes,
) -> Result<(), NoMemory>
    requires { first_failing (load_checks (Some (slot_of held.old)) size at (length bytes.now.items)) ≡ None }
    ensures loaded { OnOk result (slot_of held.new
        ≡ Holding (patched (begun (Some (slot_of held.old)) size) at (map (λ byte. Some byte) bytes.now.items)) false) }
    ensures unchanged { OnErr result (held.new ≡ held.old) }
{
    if let Some(program) = held {
        return program.put(at, bytes);
    }
    let mut program = Program::new(alloc, size);
    program.put(at, bytes)?;
    *held = Some(program);
    Ok(())
}

/// Makes the program of a slot active.
pub(crate) fn activate_in(alloc: Global, held: &mut Option<Program>) -> Result<(), Refusal>
    requires { first_failing (activate_checks (Some (slot_of held.old))) ≡ None }
    ensures activated { OnOk result (slot_of held.new ≡ Holding (slot_bytes (Some (slot_of held.old))) true) }
    ensures well_formed { OnOk result (program_refusal (Some (slot_of held.old)) ≡ None) }
    ensures refused { IfErr result (λ refusal. (told_by_refusal refusal ≡ only_status Status.NoMemory)
        ⊎ (program_refusal (Some (slot_of held.old)) ≡ Some (told_by_refusal refusal))) }
    ensures unchanged { OnErr result (held.new ≡ held.old) }
{
    let Some(program) = held else {
        unreachable!();
    };
    match program.activate(alloc) {
        Ok(()) => Ok(()),
        Err(DecodeEnd::BadInsn { place }) => Err(Refusal {
            status: Status::BadProgram,
            result: u64::from(place),
        }),
        Err(DecodeEnd::NoMemory) => Err(refused(Status::NoMemory)),
    }
}

/// Makes the program of a slot inactive.
pub(crate) fn deactivate_in(held: &mut Option<Program>)
    requires { first_failing (deactivate_checks (Some (slot_of held.old))) ≡ None }
    ensures { slot_of held.new ≡ Holding (slot_bytes (Some (slot_of held.old))) false }
{
    if let Some(program) = held {
        program.deactivate();
    }
}
