//! Ranges of a namespace that are taken out and put back.
ghost use Rattle.std.specs.Prelude.{◌≡◌, ℕ, ◌*◌, IfOk, IfSome, OnOk};
ghost use Rattle.cp_base.specs.declared.region.SpaceId.{SpaceId};
ghost use Rattle.extents.specs.Homes.{IsAtHome, known_at};
ghost use Rattle.parts_bench.specs.Parts.{AreHome, range_len, range_of};

use crate::workload::Places;
use cp_base::{ByteRange, Config, MAX_NAMESPACE, NoMemory, SpaceId};
use extents::Extents;
use rand_core::SeedableRng;
use rand_core::utils::NextWord;
use rand_xoshiro::SplitMix64;
use std::alloc::Global;

const MEMORY: SpaceId = SpaceId::Mem(1);

// The range that a number selects.
fn range(places: Places, number: u64) -> ByteRange
    ensures { result ≡ range_of places number }
{
    let (start, len) = match places {
        Places::Anywhere => (number % (MAX_NAMESPACE - 4_095), 4_096),
        Places::Aligned => (number % (MAX_NAMESPACE / 4_096) * 4_096, 4_096),
        Places::Ascending => (number % (MAX_NAMESPACE / 1_024) * 1_024, 1_024),
        Places::Lone => (number % MAX_NAMESPACE, 1),
    };
    ByteRange::new(MEMORY, start, len).unwrap()
}

// A namespace of so many bytes, all at home.
fn memory(alloc: Global, size: u32) -> Option<Extents>
    ensures { IfSome result (λ extents. AreHome extents size) }
{
    let config = Config::new(512, 16, 1000)?.with_size(MEMORY, size)?;
    match Extents::new(alloc, &config) {
        Ok(extents) => Some(extents),
        Err(_) => None,
    }
}

// Takes a range out and puts it back, so that each byte is where it was. Answers how many bytes it has.
fn exchange(extents: &mut Extents, range: &ByteRange) -> Result<u64, NoMemory>
    requires { IsAtHome extents.old range.now }
    ensures len { IfOk result (λ len. len ≡ range.now.len) }
    ensures same { OnOk result
        ((space : SpaceId) (offset : ℕ) → known_at extents.new space offset ≡ known_at extents.old space offset) }
{
    let bytes = extents.take(range)?;
    let len = bytes.len();
    extents.put(range, bytes);
    Ok(len)
}

// Exchanges one range after the other: those that the words of a generator select, or in ascending order those of the
// rounds.
fn repeated(extents: &mut Extents, places: Places, rounds: u32) -> Result<u64, NoMemory>
    requires { AreHome extents.old MAX_NAMESPACE }
    ensures { IfOk result (λ moved. moved ≡ rounds * range_len places) }
{
    let mut words = SplitMix64::seed_from_u64(1);
    let mut moved = 0;
    for round in 0..rounds {
        let word: u64 = words.next_word();
        let number = match places {
            Places::Ascending => u64::from(round),
            _ => word,
        };
        moved += exchange(extents, &range(places, number))?;
    }
    Ok(moved)
}

/// Takes in each round a range out and puts it back, and answers how many bytes were moved in all. `None` where there is
/// no memory.
pub fn exchange_all(alloc: Global, places: Places, rounds: u32) -> Option<u64>
    ensures { IfSome result (λ moved. moved ≡ rounds * range_len places) }
{
    let mut extents = memory(alloc, MAX_NAMESPACE as u32)?;
    repeated(&mut extents, places, rounds).ok()
}
