// The device's configuration: block size, queue depth, budget, and the namespaces.
ghost use Rattle.std.specs.Prelude.{◌≡◌, ℕ, ◌+◌, ◌*◌, ◌^◌, ◌<◌, ◌≤◌, ◌↔◌, IsTrue, Some, IsSome, IfSome, All, sum, length};
ghost use Rattle.cp_base.specs.Configuration.{Configuration, IsWithinLimits, HasNumber, bare, numbered, present, size_of, with_numbered, with_size};

use crate::{MAX_BUDGET, MAX_DEPTH, MAX_NAMESPACE, MAX_TOTAL, NAMESPACES, SpaceId};
use std::marker::Model;

/// The device's configuration. A size is in blocks for an NVM namespace and in bytes for a memory
/// namespace, and 0 where there is no such namespace.
///
/// Every configuration keeps the limits: a block of 512 or 4,096 bytes, a queue depth of 1 to 4,096, a
/// budget of 1 to 100,000,000 instructions, at most 16,777,216 bytes in a namespace, and at most
/// 67,108,864 bytes in all.
#[derive(Clone, Copy, Debug)]
pub struct Config {
    block: u32,
    depth: u32,
    budget: u64,
    nvm: [u32; NAMESPACES],
    mem: [u32; NAMESPACES],
}

impl Model for Config {
    ghost use Rattle.cp_base.specs.Configuration.{Configuration, IsWithinLimits};

    ghost Value = { Configuration };

    ghost view = { λ c. record { block = c.block; depth = c.depth; budget = c.budget; nvm = c.nvm; mem = c.mem } };

    ghost invariant = { λ c. IsWithinLimits (record { block = c.block; depth = c.depth; budget = c.budget; nvm = c.nvm; mem = c.mem }) };

    ghost inverse = { λ c. record { block = c.block; depth = c.depth; budget = c.budget; nvm = c.nvm; mem = c.mem } };
}

// Whether no size in these units is above the largest namespace.
fn are_sizes(sizes: &[u32; NAMESPACES], unit: u32) -> bool
    ensures { IsTrue result ↔ All (λ size. size * unit ≤ MAX_NAMESPACE) sizes.now }
{
    sizes
        .iter()
        .all(|size| u64::from(*size) * u64::from(unit) <= MAX_NAMESPACE)
}

// The sum of the sizes.
fn total(sizes: &[u32; NAMESPACES]) -> u64
    ensures value { result ≡ sum sizes.now }
    ensures bounded { result < 2 ^ 35 }
{
    let mut total = 0u64;
    for size in sizes {
        total += u64::from(*size);
    }
    total
}

// The size under a number, which counts from 1.
fn numbered(sizes: &[u32; NAMESPACES], number: u32) -> Option<u32>
    ensures { result ≡ numbered sizes.now number }
{
    let index = number.checked_sub(1)?;
    sizes.get(index as usize).copied()
}

// The sizes with another one under a number, where that is 1 to 8.
fn with_numbered(mut sizes: [u32; NAMESPACES], number: u32, size: u32) -> Option<[u32; NAMESPACES]>
    ensures found { IsSome result ↔ ((1 ≤ number) × (number ≤ NAMESPACES)) }
    ensures value { IfSome result (λ found. found ≡ with_numbered sizes number size) }
{
    if number == 0 || number as usize > NAMESPACES {
        return None;
    }
    sizes[number as usize - 1] = size;
    Some(sizes)
}

// A size in bytes, where it is not 0.
fn present(unit: u32, size: u32) -> Option<u64>
    ensures { result ≡ present unit (Some size) }
{
    if size == 0 {
        return None;
    }
    Some(u64::from(size) * u64::from(unit))
}

// The configuration of these fields, where they keep the limits.
fn checked(
    block: u32,
    depth: u32,
    budget: u64,
    nvm: [u32; NAMESPACES],
    mem: [u32; NAMESPACES],
) -> Option<Config>
    ensures found { IsSome result ↔ IsWithinLimits
        (record { block = block; depth = depth; budget = budget; nvm = nvm; mem = mem }) }
    ensures value { IfSome result
        (λ c. c ≡ record { block = block; depth = depth; budget = budget; nvm = nvm; mem = mem }) }
{
    let is_header = (block == 512 || block == 4096)
        && (1..=MAX_DEPTH).contains(&depth)
        && (1..=MAX_BUDGET).contains(&budget);
    if !is_header || !are_sizes(&nvm, block) || !are_sizes(&mem, 1) {
        return None;
    }
    if total(&nvm) * u64::from(block) + total(&mem) > MAX_TOTAL {
        return None;
    }
    Some(Config {
        block,
        depth,
        budget,
        nvm,
        mem,
    })
}

impl Config {
    /// A configuration without namespaces: the size of a block in bytes, the depth of each host's
    /// queue, and the largest budget of an execution. `None` outside the limits.
    pub fn new(block: u32, depth: u32, budget: u64) -> Option<Config>
        ensures found { IsSome result ↔ IsWithinLimits (bare block depth budget) }
        ensures value { IfSome result (λ c. c ≡ bare block depth budget) }
    {
        checked(block, depth, budget, [0; NAMESPACES], [0; NAMESPACES])
    }

    /// The same configuration with another size of a namespace, in blocks for an NVM namespace and in
    /// bytes for a memory namespace. `None` where the number is not 1 to 8, and outside the limits.
    pub fn with_size(&self, space: SpaceId, size: u32) -> Option<Config>
        ensures found { IsSome result ↔ (HasNumber space × IsWithinLimits (with_size self.now space size)) }
        ensures value { IfSome result (λ c. c ≡ with_size self.now space size) }
    {
        match space {
            SpaceId::Nvm(n) => {
                let nvm = with_numbered(self.nvm, n, size)?;
                checked(self.block, self.depth, self.budget, nvm, self.mem)
            }
            SpaceId::Mem(n) => {
                let mem = with_numbered(self.mem, n, size)?;
                checked(self.block, self.depth, self.budget, self.nvm, mem)
            }
        }
    }

    /// The size of a block, in bytes.
    pub fn block(&self) -> u32
        ensures value { result ≡ self.now.block }
        ensures limits { IsWithinLimits self.now }
    {
        self.block
    }

    /// How many commands of a host may be outstanding.
    pub fn depth(&self) -> u32
        ensures value { result ≡ self.now.depth }
        ensures limits { IsWithinLimits self.now }
    {
        self.depth
    }

    /// The largest budget of an execution, in instructions.
    pub fn budget(&self) -> u64
        ensures value { result ≡ self.now.budget }
        ensures limits { IsWithinLimits self.now }
    {
        self.budget
    }

    /// The sizes of the NVM namespaces in blocks, in order of their numbers; 0 where there is none.
    pub fn nvm(&self) -> &[u32]
        ensures value { result.now ≡ self.now.nvm }
        ensures limits { IsWithinLimits self.now }
    {
        &self.nvm
    }

    /// The sizes of the memory namespaces in bytes, in order of their numbers; 0 where there is none.
    pub fn mem(&self) -> &[u32]
        ensures value { result.now ≡ self.now.mem }
        ensures limits { IsWithinLimits self.now }
    {
        &self.mem
    }

    /// How many bytes a namespace has. `None` where there is no such namespace.
    pub fn size(&self, space: SpaceId) -> Option<u64>
        ensures value { result ≡ size_of self.now space }
        ensures bounded { IfSome result (λ bytes. bytes ≤ MAX_NAMESPACE) }
    {
        match space {
            SpaceId::Nvm(n) => present(self.block, numbered(&self.nvm, n)?),
            SpaceId::Mem(n) => present(1, numbered(&self.mem, n)?),
        }
    }
}
