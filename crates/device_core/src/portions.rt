// The ranges whose bytes a command carries.
ghost use Rattle.std.specs.Prelude.{◌≡◌, ◌==◌, ◌≤◌, [], false, IfOk, OnOk, length, map, option_copied, position, unwrap_or};
ghost use Rattle.std.specs.List.{list_any};
ghost use Rattle.cp_base.specs.Checks.{any_without_bytes};
ghost use Rattle.cp_base.specs.Runs.{space_before};
ghost use Rattle.cp_base.specs.Sharing.{is_outside, range_region};
ghost use Rattle.bpf_model.specs.Memory.{allows_writing};
ghost use Rattle.trail_model.specs.Footprints.{carried_regions, footprint_of, is_execution, writes_of};
ghost use Rattle.device_core.specs.Portions.{comes_before, portion_ranges, read_portion, run_portions, set_portion, with_portion, written_portion, written_ranges};

use cp_base::{
    Access, ByteRange, Command, Config, Footprint, MemRange, Nature, NoMemory, RangeList, SpaceId,
};
use slm_bytes::bytes_to_range;
use std::alloc::Global;

/// A range whose bytes a command carries, and whether the command may write them.
#[derive(Clone, Copy, Debug)]
pub(crate) struct Portion {
    pub(crate) range: ByteRange,
    pub(crate) written: bool,
}

/// The ranges of a set, none where there is no set.
pub(crate) fn ranges_of(set: Option<&RangeList>) -> &[MemRange]
    ensures ranges { result.now ≡ unwrap_or (option_copied set.entry) [] }
{
    match set {
        Some(ranges) => ranges.as_slice(),
        None => &[],
    }
}

// The bytes of a range that has some and lies inside its namespace.
#[tactic(auto, using(footprints::proofs::Ranges::byte_checks_pass))]
fn set_range(config: &Config, range: &MemRange) -> ByteRange
    requires some { (range.now.len == 0) ≡ false }
    requires inside { is_outside config.now (range_region range.now) ≡ false }
    ensures { result ≡ range_region range.now }
{
    bytes_to_range(config, range.ns, range.at, range.len, u64::MAX).unwrap()
}

// Whether a program may store into bytes of this access.
fn is_written(access: Access) -> bool
    ensures { result ≡ allows_writing access }
{
    match access {
        Access::ReadOnly => false,
        Access::ReadWrite => true,
    }
}

// What an execution carries: the ranges of its set, which are not empty and lie inside their namespaces.
#[tactic(auto, using(footprints::proofs::Ranges::none_at))]
fn of_set(alloc: Global, config: &Config, ranges: &[MemRange]) -> Result<Vec<Portion>, NoMemory>
    requires not_empty { any_without_bytes (map range_region ranges.now) ≡ false }
    requires inside { list_any (is_outside config.now) (map range_region ranges.now) ≡ false }
    ensures { IfOk result (λ portions. portions.items ≡ map set_portion ranges.now) }
{
    let mut portions = Vec::with_capacity(alloc, ranges.len())?;
    for range in ranges {
        portions.push(Portion {
            range: set_range(config, range),
            written: is_written(range.access),
        })?;
    }
    Ok(portions)
}

// What is only read.
fn of_reads(alloc: Global, reads: &[ByteRange]) -> Result<Vec<Portion>, NoMemory>
    ensures { IfOk result (λ portions. portions.items ≡ map read_portion reads.now) }
{
    let mut portions = Vec::with_capacity(alloc, reads.len() + 1)?;
    for read in reads {
        portions.push(Portion {
            range: *read,
            written: false,
        })?;
    }
    Ok(portions)
}

// Whether a namespace comes before another one: NVM before memory, and each kind by its numbers.
fn is_before(space: SpaceId, other: SpaceId) -> bool
    ensures { result ≡ space_before space other }
{
    match (space, other) {
        (SpaceId::Nvm(m), SpaceId::Nvm(n)) => m < n,
        (SpaceId::Mem(m), SpaceId::Mem(n)) => m < n,
        (SpaceId::Nvm(_), SpaceId::Mem(_)) => true,
        (SpaceId::Mem(_), SpaceId::Nvm(_)) => false,
    }
}

// Whether a range comes before another one, by namespaces and first bytes.
fn comes_before(range: &ByteRange, other: &ByteRange) -> bool
    ensures { result ≡ comes_before range.now other.now }
{
    is_before(range.space(), other.space())
        || (range.space() == other.space() && range.start() < other.start())
}

// Where a range goes among portions: before the first that it comes before.
fn place_of(portions: &[Portion], range: &ByteRange) -> Option<usize>
    ensures { result ≡ position (λ x. comes_before range.now x.range) portions.now }
{
    portions.iter().position(|x| comes_before(range, &x.range))
}

// Adds what may be written, in its place.
fn add_written(portions: &mut Vec<Portion>, range: &ByteRange) -> Result<(), NoMemory>
    ensures { OnOk result (portions.new.items ≡ with_portion (written_portion range.now) portions.old.items) }
{
    let place = place_of(portions, range).unwrap_or(portions.len());
    portions.insert(
        place,
        Portion {
            range: *range,
            written: true,
        },
    )?;
    Ok(())
}

// What a command carries that is no execution: the run that it may write, where there is one, and those that it
// only reads.
fn of_runs(
    alloc: Global,
    writes: &[ByteRange],
    reads: &[ByteRange],
) -> Result<Vec<Portion>, NoMemory>
    requires { length writes.now ≤ 1 }
    ensures { IfOk result (λ portions. portions.items ≡ run_portions writes.now reads.now) }
{
    let mut portions = of_reads(alloc, reads)?;
    if let Some(write) = writes.first() {
        add_written(&mut portions, write)?;
    }
    Ok(portions)
}

// Whether a command is an execution.
fn is_execution(command: &Command) -> bool
    ensures { result ≡ is_execution command.now }
{
    match command.nature() {
        Nature::Executes { .. } => true,
        Nature::Reads
        | Nature::Writes
        | Nature::Copies
        | Nature::Builds
        | Nature::Arranges
        | Nature::Deletes { .. }
        | Nature::Stops { .. }
        | Nature::Withdraws { .. } => false,
    }
}

/// What a command carries, in order: of an execution the ranges of its set, of any other one the runs of what it
/// touches.
pub(crate) fn portions_of(
    alloc: Global,
    config: &Config,
    command: &Command,
    ranges: &[MemRange],
    touched: &Footprint,
) -> Result<Vec<Portion>, NoMemory>
    requires touched { touched.now ≡ footprint_of config.now ranges.now command.now }
    requires not_empty { any_without_bytes (map range_region ranges.now) ≡ false }
    requires inside { list_any (is_outside config.now) (map range_region ranges.now) ≡ false }
    ensures ranges { IfOk result
        (λ portions. portion_ranges portions.items ≡ carried_regions config.now ranges.now command.now) }
    ensures written { IfOk result
        (λ portions. written_ranges portions.items ≡ writes_of config.now ranges.now command.now) }
{
    if is_execution(command) {
        return of_set(alloc, config, ranges);
    }
    of_runs(alloc, touched.writes.as_slice(), touched.reads.as_slice())
}
