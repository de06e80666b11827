// The work of a claim, with all the memory that it needs.
ghost use Rattle.std.specs.Prelude.{◌≡◌, ◌<◌, ◌≤◌, [], ℕ, List, None, IsSome, false, true, IfOk, IsTrue, OnErr, OnOk, length, option_copied, option_map, replicate, vec_capacity};
ghost use Rattle.std.specs.Arc.{arc_value};
ghost use Rattle.std.specs.List.{AllByRecursion};
ghost use Rattle.cp_base.specs.Checks.{first_failing};
ghost use Rattle.cp_base.specs.Configuration.{Configuration};
ghost use Rattle.cp_base.specs.Region.{Region};
ghost use Rattle.cp_base.specs.Sets.{RangeSet};
ghost use Rattle.cp_base.specs.Sharing.{any_overlap};
ghost use Rattle.cp_base.specs.declared.lists.MemRange.{MemRange};
ghost use Rattle.bpf_model.specs.Address.{stack_len};
ghost use Rattle.device_model.specs.Checks.{refusal_of, runnable_checks};
ghost use Rattle.device_model.specs.Execution.{executable_in};
ghost use Rattle.device_model.specs.Memory.{moves_bytes};
ghost use Rattle.extents.specs.Homes.{IsAtHome, is_hole};
ghost use Rattle.trail_model.specs.Fits.{SetFits};
ghost use Rattle.trail_model.specs.Footprints.{Execution, execution_of, footprint_of, is_execution};
ghost use Rattle.trail_model.specs.LocalEffects.{written};
ghost use Rattle.trail_model.specs.Pieces.{AllBytes};
ghost use Rattle.core_model.specs.Parts.{tables_of};
ghost use Rattle.job_run.specs.Works.{IsWork, RunsDecoded};
ghost use Rattle.device_core.specs.Portions.{AreCutAt, AreTaken};
ghost use Rattle.device_core.specs.Preparing.{FitsSetup, carried_in, set_in, taken_in, touched_in};

use crate::checks::is_builtin;
use crate::fetching::{copy_read, take_written};
use crate::portions::{portions_of, ranges_of};
use bpf_decode::Decoded;
use confined_view::Window;
use cp_base::{ByteRange, Bytes, Command, Config, Footprint, Nature, NoMemory, RangeList};
use extents::Extents;
use job_run::Work;
use program_slots::Slots;
use range_sets::Sets;
use std::alloc::Global;
use std::sync::Arc;

// How many bytes the stack of a program has.
const STACK_LEN: u64 = 4096;

// What work has beside its pieces, for an execution.
#[derive(Debug, Drop)]
struct Setup {
    windows: Vec<Window>,
    set: Option<RangeList>,
    code: Option<Arc<Decoded>>,
    stack: Bytes,
}

/// The set of ranges that an execution runs on; none for any other command.
pub(crate) fn set_of<'s>(sets: &'s Sets, command: &Command) -> Option<&'s RangeList>
    ensures { option_copied result ≡ set_in sets.now command.now }
{
    match command.nature() {
        Nature::Executes { set, .. } => sets.get(set),
        Nature::Reads
        | Nature::Writes
        | Nature::Copies
        | Nature::Builds
        | Nature::Arranges
        | Nature::Deletes { .. }
        | Nature::Stops { .. }
        | Nature::Withdraws { .. } => None,
    }
}

// Of how many bytes the answer to a command is, where it reads these runs.
fn reply_len(command: &Command, reads: &[ByteRange]) -> u64
    requires { (c : Configuration) × (ranges : List MemRange)
        × (reads.now ≡ (footprint_of c ranges command.now).reads) }
    ensures { (c : Configuration) (ranges : List MemRange) (x : Execution) (all : AllBytes)
        → reads.now ≡ (footprint_of c ranges command.now).reads
        → length (written c x all command.now).answer.bytes ≤ result }
{
    match command.nature() {
        Nature::Reads => reads[0].len(),
        Nature::Writes
        | Nature::Copies
        | Nature::Executes { .. }
        | Nature::Builds
        | Nature::Arranges
        | Nature::Deletes { .. }
        | Nature::Stops { .. }
        | Nature::Withdraws { .. } => 0,
    }
}

// No byte, with room for so many.
fn room(alloc: Global, len: u64) -> Result<Bytes, NoMemory>
    ensures empty { IfOk result (λ bytes. bytes.items ≡ []) }
    ensures room { IfOk result (λ bytes. len ≤ bytes.spare) }
{
    let mut bytes = Bytes::new(alloc);
    bytes.reserve(len)?;
    Ok(bytes)
}

// A further owner of the program of a slot, unless it is one of the device.
fn code_in(slots: &Slots, slot: u32) -> Result<Option<Arc<Decoded>>, NoMemory>
    requires { (sets : List RangeSet) × (first_failing (runnable_checks (tables_of slots.now sets) slot) ≡ None) }
    ensures { IfOk result (λ code. (sets : List RangeSet)
        → RunsDecoded (executable_in (tables_of slots.now sets) slot) (option_map (λ decoded. decoded.value) code)) }
{
    if is_builtin(slot) {
        return Ok(None);
    }
    let code = slots.code(slot).unwrap();
    Ok(Some(code.clone()?))
}

// What a command that is no execution has beside its pieces: nothing.
fn no_setup(alloc: Global) -> Setup
    ensures { (result.windows.items ≡ []) × (result.set ≡ None) × (result.code ≡ None) }
{
    Setup {
        windows: Vec::new(alloc),
        set: None,
        code: None,
        stack: Bytes::new(alloc),
    }
}

// What an execution on a set of ranges has beside so many pieces: windows with room, the set, the program and a stack.
fn execution_setup(
    alloc: Global,
    slots: &Slots,
    slot: u32,
    set: Option<&RangeList>,
    pieces: usize,
) -> Result<Setup, NoMemory>
    requires runnable { (sets : List RangeSet)
        × (first_failing (runnable_checks (tables_of slots.now sets) slot) ≡ None) }
    requires set { IsSome set }
    ensures empty { IfOk result (λ setup. setup.windows.items ≡ []) }
    ensures windows { IfOk result (λ setup. pieces ≤ vec_capacity setup.windows) }
    ensures set { IfOk result (λ setup. setup.set ≡ option_copied set.entry) }
    ensures code { IfOk result (λ setup. (sets : List RangeSet)
        → RunsDecoded (executable_in (tables_of slots.now sets) slot)
        (option_map (λ decoded. decoded.value) setup.code)) }
    ensures stack { IfOk result (λ setup. setup.stack.items ≡ replicate stack_len 0) }
{
    let ranges = set.unwrap();
    Ok(Setup {
        windows: Vec::with_capacity(alloc, pieces)?,
        set: RangeList::new(alloc, ranges.as_slice()),
        code: code_in(slots, slot)?,
        stack: Bytes::filled(alloc, STACK_LEN, 0)?,
    })
}

// What work has beside so many pieces.
fn setup_of(
    alloc: Global,
    slots: &Slots,
    command: &Command,
    set: Option<&RangeList>,
    pieces: usize,
) -> Result<Setup, NoMemory>
    requires { (c : Configuration) × (sets : List RangeSet)
        × (refusal_of c (tables_of slots.now sets) command.now ≡ None)
        × (option_copied set ≡ set_in sets command.now) }
    ensures empty { IfOk result (λ setup. setup.windows.items ≡ []) }
    ensures fits { IfOk result (λ setup. is_execution command.now ≡ true → (sets : List RangeSet)
        → option_copied set.entry ≡ set_in sets command.now
        → FitsSetup (execution_of (tables_of slots.now sets) command.now) pieces setup) }
{
    match command.nature() {
        Nature::Executes { slot, .. } => execution_setup(alloc, slots, slot, set, pieces),
        Nature::Reads
        | Nature::Writes
        | Nature::Copies
        | Nature::Builds
        | Nature::Arranges
        | Nature::Deletes { .. }
        | Nature::Stops { .. }
        | Nature::Withdraws { .. } => Ok(no_setup(alloc)),
    }
}

/// The work of a claim of a command that moves bytes and passes its checks. What it only reads is copied; then it is a
/// further owner of the command and of the program; then what it may write is taken out of the extents.
///
/// # Errors
///
/// `NoMemory` where there is no memory for all that the work has. Then nothing changes.
#[allow(clippy::too_many_arguments)]
pub(crate) fn prepare(
    alloc: Global,
    config: &Config,
    store: &mut Extents,
    slots: &Slots,
    sets: &Sets,
    command: &Arc<Command>,
    touched: &Footprint,
) -> Result<Work, NoMemory>
    requires moves { IsTrue (moves_bytes (arc_value command.now)) }
    requires passes { refusal_of config.now (tables_of slots.now sets.now) (arc_value command.now) ≡ None }
    requires fits { AllByRecursion (SetFits config.now) sets.now }
    requires touched { touched.now ≡ touched_in config.now (tables_of slots.now sets.now) (arc_value command.now) }
    requires home { AllByRecursion (IsAtHome store.old)
        (carried_in config.now (tables_of slots.now sets.now) (arc_value command.now)) }
    requires whole { (region : Region) → 0 < region.len → IsAtHome store.old region → is_hole store.old region ≡ false }
    requires apart { any_overlap (taken_in config.now (tables_of slots.now sets.now) (arc_value command.now)) ≡ false }
    ensures work { IfOk result (λ work. IsWork config.now (tables_of slots.now sets.now) work) }
    ensures command { IfOk result (λ work. work.command.value ≡ arc_value command.now) }
    ensures cut { IfOk result
        (λ work. AreCutAt store.old (carried_in config.now (tables_of slots.now sets.now) (arc_value command.now)) work.pieces.items) }
    ensures taken { OnOk result
        (AreTaken store.old store.new (taken_in config.now (tables_of slots.now sets.now) (arc_value command.now))) }
    ensures unchanged { OnErr result (AreTaken store.old store.new []) }
{
    let set = set_of(sets, command);
    let portions = portions_of(alloc, config, command, ranges_of(set), touched)?;
    let mut pieces = copy_read(alloc, store, &portions)?;
    let reply = room(alloc, reply_len(command, touched.reads.as_slice()))?;
    let setup = setup_of(alloc, slots, command, set, pieces.len())?;
    let command = command.clone()?;
    take_written(store, &portions, &mut pieces, 0)?;
    Ok(Work {
        command,
        block: config.block(),
        pieces,
        windows: setup.windows,
        set: setup.set,
        code: setup.code,
        stack: setup.stack,
        reply,
    })
}
