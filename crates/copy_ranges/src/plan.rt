// What a copy reads and where it puts it.
ghost use Rattle.std.specs.Prelude.{◌≡◌, ◌*◌, ◌^◌, ◌<◌, ◌≤◌, map, length, Some, None, IsSome, IfSome, IfOk, MatchResult};
ghost use Rattle.cp_base.specs.Checks.{copy_checks, destination_of, first_failing};
ghost use Rattle.cp_base.specs.Sharing.{source_region};
ghost use Rattle.copy_ranges.specs.Copies.{checks_of_copy, copy_of, destination};

use crate::sources::{any_nowhere, any_without_bytes, meets_any, ranges, total_len};
use crate::wide::WideRange;
use cp_base::{ByteRange, Command, Config, CopySource, MAX_ITEMS, MAX_SPAN, SpaceId, Status};
use smallvec::SmallVec;
use std::alloc::Global;

/// The bytes of a copy that may be carried out: those that it reads, in their order, and where it puts
/// them, one after the other.
#[derive(Debug, Drop)]
pub struct CopyPlan {
    pub sources: SmallVec<ByteRange, MAX_ITEMS>,
    pub to: ByteRange,
}

/// The bytes of a copy between namespaces of either kind. The checks are those of the copy commands, in
/// this order, over whole numbers: no sum or product wraps.
///
/// # Errors
///
/// `BadNamespace` where the destination or a source lies in no namespace, `BadLength` where a source is
/// empty or all sources together are no multiple of a block of the destination, `TooLong` where they
/// have more than 1,048,576 bytes, `OutOfRange` where a byte of a source or of the destination lies
/// outside its namespace, `CopyOverlap` where the destination shares a byte with a source.
pub fn check_copy(alloc: Global, config: &Config, command: &Command) -> Result<CopyPlan, Status>
    requires { IsSome (copy_of config.now command.now) }
    ensures checked { IfSome (copy_of config.now command.now) (λ copy. MatchResult result
        (λ _. first_failing (checks_of_copy config.now copy) ≡ None)
        (λ status. first_failing (checks_of_copy config.now copy) ≡ Some status)) }
    ensures plan { IfSome (copy_of config.now command.now) (λ copy. IfOk result (λ plan.
        (plan.sources.items ≡ copy.sources) × (plan.to ≡ destination copy))) }
{
    match command {
        Command::NvmCopy { ns, lba, from } => {
            let block = config.block();
            let start = u128::from(*lba) * u128::from(block);
            plan(
                alloc,
                config,
                from.as_slice(),
                SpaceId::Nvm(*ns),
                start,
                block,
            )
        }
        Command::MemCopy { ns, at, from } => {
            let start = u128::from(*at);
            plan(alloc, config, from.as_slice(), SpaceId::Mem(*ns), start, 1)
        }
        _ => unreachable!(),
    }
}

// The bytes of a copy of these sources to a place, where their number has to be a multiple of the unit.
fn plan(
    alloc: Global,
    config: &Config,
    sources: &[CopySource],
    space: SpaceId,
    start: u128,
    unit: u32,
) -> Result<CopyPlan, Status>
    requires some { 0 < length sources.now }
    requires few { length sources.now ≤ MAX_ITEMS }
    requires start { start < 2 ^ 96 }
    requires unit { 0 < unit }
    ensures checked { MatchResult result
        (λ _. first_failing (copy_checks config.now space start unit (map (source_region config.now) sources.now)) ≡ None)
        (λ status. first_failing (copy_checks config.now space start unit (map (source_region config.now) sources.now)) ≡ Some status) }
    ensures sources { IfOk result (λ plan. plan.sources.items ≡ map (source_region config.now) sources.now) }
    ensures to { IfOk result
        (λ plan. plan.to ≡ destination_of space start (map (source_region config.now) sources.now)) }
{
    let total = total_len(config, sources);
    let destination = WideRange::new(space, start, total);
    if destination.is_nowhere(config) || any_nowhere(config, sources) {
        return Err(Status::BadNamespace);
    }
    if any_without_bytes(config, sources) || total % u128::from(unit) != 0 {
        return Err(Status::BadLength);
    }
    if total > u128::from(MAX_SPAN) {
        return Err(Status::TooLong);
    }
    let Some(sources) = ranges(alloc, config, sources) else {
        return Err(Status::OutOfRange);
    };
    let Some(to) = destination.inside(config) else {
        return Err(Status::OutOfRange);
    };
    if meets_any(sources.as_slice(), &to) {
        return Err(Status::CopyOverlap);
    }
    Ok(CopyPlan { sources, to })
}
