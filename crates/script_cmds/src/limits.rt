// The limits of the configuration, and of what is shown of it.
ghost use Rattle.std.specs.Prelude.{◌≡◌, ◌+◌, ◌≤◌, nat_le, Some, None, unwrap_or, if◌then◌else◌};
ghost use Rattle.cp_base.specs.Configuration.{IsWithinLimits, bare, size_of, with_size};
ghost use Rattle.cp_base.specs.declared.limits.TheConstants.{MAX_NAMESPACE, NAMESPACES};
ghost use Rattle.script_line.specs.declared.limits.TheConstants.{VERSION_2};
ghost use Rattle.script_cmds.specs.Progress.{is_block, namespace_fits, size_in_bytes, space_of};

use cp_base::{Config, SpaceId};
use script_line::SpaceKind;

/// The namespace of a kind and a number.
pub fn space_of(kind: SpaceKind, number: u32) -> SpaceId
    ensures { result ≡ space_of kind number }
{
    match kind {
        SpaceKind::Nvm => SpaceId::Nvm(number),
        SpaceKind::Mem => SpaceId::Mem(number),
    }
}

/// The configuration of a header with the depth of all queues together, where the size of its block is one.
pub fn bare(block: u64, depth: u64, budget: u64) -> Option<Config>
    requires depth { (1 ≤ depth) × (depth ≤ VERSION_2.outstanding) }
    requires budget { (1 ≤ budget) × (budget ≤ VERSION_2.budget) }
    ensures { result ≡ (if is_block block then Some (bare block depth budget) else None) }
{
    if block > 4_096 {
        return None;
    }
    Config::new(block as u32, depth as u32, budget)
}

/// The configuration with one more namespace, where that keeps the limits.
pub fn with_namespace(config: &Config, kind: SpaceKind, number: u64, size: u64) -> Option<Config>
    requires limits { IsWithinLimits config.now }
    requires number { (1 ≤ number) × (number ≤ NAMESPACES) }
    requires size { (1 ≤ size) × (size ≤ MAX_NAMESPACE) }
    ensures { result
        ≡ (if namespace_fits (size_in_bytes config.now kind size) (with_size config.now (space_of kind number) size)
        then Some (with_size config.now (space_of kind number) size)
        else None) }
{
    config.with_size(space_of(kind, number as u32), size as u32)
}

/// Whether a namespace has these bytes.
pub fn has_bytes(config: &Config, kind: SpaceKind, number: u64, at: u64, len: u64) -> bool
    requires number { number ≤ NAMESPACES }
    ensures { result ≡ nat_le (at + len) (unwrap_or (size_of config.now (space_of kind number)) 0) }
{
    let size = config.size(space_of(kind, number as u32)).unwrap_or(0);
    len <= size && at <= size - len
}
