// The checks of block ranges, and the bytes of the blocks.
ghost use Rattle.std.specs.Prelude.{◌≡◌, ◌+◌, ◌*◌, ◌≤◌, unwrap_or, Some, None, IfOk, IfSome, MatchOption, MatchResult};
ghost use Rattle.cp_base.specs.Checks.{block_checks, blocks_of, first_failing, write_checks};
ghost use Rattle.cp_base.specs.Configuration.{size_of};

use cp_base::{ByteRange, Config, MAX_NAMESPACE, SpaceId, Status};

// How many blocks an NVM namespace has. `None` where there is no such namespace.
fn blocks_of(config: &Config, ns: u32) -> Option<u64>
    ensures found { MatchOption result
        (size_of config.now (SpaceId.Nvm ns) ≡ None)
        (λ blocks. size_of config.now (SpaceId.Nvm ns) ≡ Some (blocks * config.now.block)) }
    ensures value { MatchOption result (blocks_of config.now ns ≡ 0) (λ blocks. blocks ≡ blocks_of config.now ns) }
    ensures bounded { IfSome result (λ blocks. blocks * config.now.block ≤ MAX_NAMESPACE) }
{
    let size = config.size(SpaceId::Nvm(ns))?;
    Some(size / u64::from(config.block()))
}

/// The bytes of `count` blocks of an NVM namespace from block `lba` on, of which a command may move at
/// most `most` bytes. The checks are those of the NVM commands, in this order, over whole numbers: no
/// sum or product wraps.
///
/// # Errors
///
/// `BadNamespace` where there is no such NVM namespace, `BadLength` where `count` is 0, `TooLong`
/// where the blocks have more than `most` bytes, `OutOfRange` where a block lies outside the namespace.
pub fn blocks_to_range(
    config: &Config,
    ns: u32,
    lba: u64,
    count: u64,
    most: u64,
) -> Result<ByteRange, Status>
    ensures checked { MatchResult result
        (λ _. first_failing (block_checks config.now ns lba count most) ≡ None)
        (λ status. first_failing (block_checks config.now ns lba count most) ≡ Some status) }
    ensures range { IfOk result (λ range. range
        ≡ record { space = SpaceId.Nvm ns; start = lba * config.now.block; len = count * config.now.block }) }
    ensures inside { IfOk result
        (λ range. range.start + range.len ≤ unwrap_or (size_of config.now (SpaceId.Nvm ns)) 0) }
{
    let Some(blocks) = blocks_of(config, ns) else {
        return Err(Status::BadNamespace);
    };
    if count == 0 {
        return Err(Status::BadLength);
    }
    let block = u64::from(config.block());
    if count > most / block {
        return Err(Status::TooLong);
    }
    if lba > blocks || count > blocks - lba {
        return Err(Status::OutOfRange);
    }
    Ok(ByteRange::new(SpaceId::Nvm(ns), lba * block, count * block).unwrap())
}

/// The `len` bytes of an NVM namespace from block `lba` on, which a write puts there, of which it may
/// move at most `most`. The checks are those of the NVM commands, in this order, over whole numbers: no
/// sum or product wraps.
///
/// # Errors
///
/// `BadNamespace` where there is no such NVM namespace, `BadLength` where `len` is 0 or no multiple of
/// the block, `TooLong` where it is above `most`, `OutOfRange` where a byte lies outside the namespace.
pub fn write_to_range(
    config: &Config,
    ns: u32,
    lba: u64,
    len: u64,
    most: u64,
) -> Result<ByteRange, Status>
    ensures checked { MatchResult result
        (λ _. first_failing (write_checks config.now ns lba len most) ≡ None)
        (λ status. first_failing (write_checks config.now ns lba len most) ≡ Some status) }
    ensures range { IfOk result (λ range. range
        ≡ record { space = SpaceId.Nvm ns; start = lba * config.now.block; len = len }) }
    ensures inside { IfOk result
        (λ range. range.start + range.len ≤ unwrap_or (size_of config.now (SpaceId.Nvm ns)) 0) }
{
    let Some(blocks) = blocks_of(config, ns) else {
        return Err(Status::BadNamespace);
    };
    let block = u64::from(config.block());
    if len == 0 || len % block != 0 {
        return Err(Status::BadLength);
    }
    if len > most {
        return Err(Status::TooLong);
    }
    if lba > blocks || len > (blocks - lba) * block {
        return Err(Status::OutOfRange);
    }
    Ok(ByteRange::new(SpaceId::Nvm(ns), lba * block, len).unwrap())
}
