// The command that a word of the generator stands for.
ghost use Rattle.std.specs.Prelude.{◌≡◌, ◌/◌, ◌%◌, ◌^◌, ◌<◌, ◌∷◌, [], IfOk};
ghost use Rattle.cp_base.specs.declared.commands.Command.TheVariants as command;
ghost use Rattle.cp_base.specs.declared.lists.CopySource.TheVariants as source;
ghost use Rattle.load_maker.specs.Load.{kind_command, same_bytes, word_command};

use cp_base::{Bytes, Command, CopySource, NoMemory, SourceList};
use std::alloc::Global;

// The blocks of the NVM namespace.
const BLOCKS: u64 = 64;

// The places of the memory namespace behind which the longest command, of 1,024 bytes, fits.
const PLACES: u64 = 64_512;

/// The command of a word: its low three bits are the kind of command, the next sixteen the place, and eight of its
/// upper half the value of a write or a fill.
pub fn command_of(alloc: Global, word: u64) -> Result<Command, NoMemory>
    ensures { IfOk result (λ made. made ≡ word_command word) }
{
    let place = word / 8 % 65_536;
    let value = (word / 4_294_967_296 % 256) as u8;
    kind_command(alloc, word % 8, place, value)
}

// The command of a kind at a place.
fn kind_command(alloc: Global, kind: u64, place: u64, value: u8) -> Result<Command, NoMemory>
    requires { kind < 8 }
    ensures { IfOk result (λ made. made ≡ kind_command kind place value) }
{
    let lba = place % BLOCKS;
    let at = place % PLACES;
    match kind {
        0 => Ok(Command::NvmRead {
            ns: 1,
            lba,
            count: 1,
        }),
        1 => {
            let bytes = same_bytes(alloc, 512, value)?;
            Ok(Command::NvmWrite { ns: 1, lba, bytes })
        }
        2 => Ok(Command::MemRead {
            ns: 1,
            at,
            len: 256,
        }),
        3 => {
            let bytes = same_bytes(alloc, 16, value)?;
            Ok(Command::MemWrite { ns: 1, at, bytes })
        }
        4 => Ok(Command::MemFill {
            ns: 1,
            at,
            len: 1_024,
            value,
        }),
        5 => {
            let from = one_source(
                alloc,
                CopySource::Nvm {
                    ns: 1,
                    lba,
                    count: 1,
                },
            )?;
            Ok(Command::MemCopy { ns: 1, at, from })
        }
        6 => {
            let from = one_source(
                alloc,
                CopySource::Mem {
                    ns: 1,
                    at,
                    len: 512,
                },
            )?;
            Ok(Command::NvmCopy { ns: 1, lba, from })
        }
        _ => Ok(execution(1 + (place % 2) as u32)),
    }
}

// So many bytes of one value.
fn same_bytes(alloc: Global, count: u64, value: u8) -> Result<Bytes, NoMemory>
    ensures { IfOk result (λ bytes. bytes ≡ record { items = same_bytes count value; spare = 0 }) }
{
    Bytes::filled(alloc, count, value)
}

// A list of one source.
fn one_source(alloc: Global, source: CopySource) -> Result<SourceList, NoMemory>
    ensures { IfOk result (λ list. list ≡ source ∷ []) }
{
    Ok(SourceList::new(alloc, &[source])?.unwrap())
}

// An execution of the load's program on a set.
fn execution(set: u32) -> Command
    ensures { result ≡ command.Execute 0 set 0 0 100 }
{
    Command::Execute {
        slot: 0,
        set,
        p1: 0,
        p2: 0,
        budget: 100,
    }
}
