// The commands that a host can send: what they ask for, their words, and what each is to those that carry it out.
ghost use Rattle.std.specs.Prelude.{◌≡◌, ◌≤◌, length, find};
ghost use Rattle.std.specs.Str.{bytes_eq};
ghost use Rattle.cp_base.specs.Commands.{command_word, is_moving, nature_of, word_of, word_text};

use crate::{Bytes, SetRanges, SourceList};

/// A command, with its fields as the host gave them. Fields too large for the device are found when
/// the command is carried out.
///
/// Source: the NVMe NVM Command Set, Subsystem Local Memory Command Set 1.0 and Computational
/// Programs Command Set 1.0 in outline. The fields are this project's own.
#[derive(Debug, Drop)]
pub enum Command {
    /// Read `count` blocks from block `lba` on.
    NvmRead {
        ns: u32,
        lba: u64,
        count: u64,
    },
    /// Write whole blocks from block `lba` on.
    NvmWrite {
        ns: u32,
        lba: u64,
        bytes: Bytes,
    },
    /// Fill `count` blocks from block `lba` on with zeros.
    NvmZeroes {
        ns: u32,
        lba: u64,
        count: u64,
    },
    /// Copy the sources, one after the other, to block `lba` and on.
    NvmCopy {
        ns: u32,
        lba: u64,
        from: SourceList,
    },
    /// Read `len` bytes from place `at` on.
    MemRead {
        ns: u32,
        at: u64,
        len: u64,
    },
    /// Write bytes from place `at` on.
    MemWrite {
        ns: u32,
        at: u64,
        bytes: Bytes,
    },
    /// Fill `len` bytes from place `at` on with one value.
    MemFill {
        ns: u32,
        at: u64,
        len: u64,
        value: u8,
    },
    /// Copy the sources, one after the other, to place `at` and on.
    MemCopy {
        ns: u32,
        at: u64,
        from: SourceList,
    },
    /// Make a set of memory ranges.
    SetCreate {
        ranges: SetRanges,
    },
    /// Take a set of memory ranges away.
    SetDelete {
        set: u32,
    },
    /// Load a piece of a program of `size` bytes, from its byte `at` on.
    Load {
        slot: u32,
        size: u64,
        at: u64,
        bytes: Bytes,
    },
    /// Make a slot empty.
    Unload {
        slot: u32,
    },
    /// Make a loaded program executable.
    Activate {
        slot: u32,
    },
    /// Make a program loaded and no more.
    Deactivate {
        slot: u32,
    },
    /// Execute the program of a slot on the ranges of a set, for at most `budget` instructions.
    Execute {
        slot: u32,
        set: u32,
        p1: u64,
        p2: u64,
        budget: u64,
    },
    /// Withdraw the command of the same host that is outstanding under an identifier, where it still
    /// waits.
    Abort {
        cid: u32,
    },
}

impl Command {
    /// The word that names the command.
    pub fn word(&self) -> CommandWord
        ensures { result ≡ word_of self.now }
    {
        match self {
            Command::NvmRead { .. } => CommandWord::NvmRead,
            Command::NvmWrite { .. } => CommandWord::NvmWrite,
            Command::NvmZeroes { .. } => CommandWord::NvmZeroes,
            Command::NvmCopy { .. } => CommandWord::NvmCopy,
            Command::MemRead { .. } => CommandWord::MemRead,
            Command::MemWrite { .. } => CommandWord::MemWrite,
            Command::MemFill { .. } => CommandWord::MemFill,
            Command::MemCopy { .. } => CommandWord::MemCopy,
            Command::SetCreate { .. } => CommandWord::SetCreate,
            Command::SetDelete { .. } => CommandWord::SetDelete,
            Command::Load { .. } => CommandWord::Load,
            Command::Unload { .. } => CommandWord::Unload,
            Command::Activate { .. } => CommandWord::Activate,
            Command::Deactivate { .. } => CommandWord::Deactivate,
            Command::Execute { .. } => CommandWord::Execute,
            Command::Abort { .. } => CommandWord::Abort,
        }
    }

    /// What the command is to those that carry it out.
    pub fn nature(&self) -> Nature
        ensures { result ≡ nature_of self.now }
    {
        match self {
            Command::NvmRead { .. } | Command::MemRead { .. } => Nature::Reads,
            Command::NvmWrite { .. }
            | Command::NvmZeroes { .. }
            | Command::MemWrite { .. }
            | Command::MemFill { .. } => Nature::Writes,
            Command::NvmCopy { .. } | Command::MemCopy { .. } => Nature::Copies,
            Command::SetCreate { .. } | Command::Unload { .. } => Nature::Arranges,
            Command::SetDelete { set } => Nature::Deletes { set: *set },
            Command::Load { .. } | Command::Activate { .. } => Nature::Builds,
            Command::Deactivate { slot } => Nature::Stops { slot: *slot },
            Command::Execute { slot, set, .. } => Nature::Executes {
                slot: *slot,
                set: *set,
            },
            Command::Abort { cid } => Nature::Withdraws { cid: *cid },
        }
    }
}

/// What a command is to those that carry it out. This project's own.
#[derive(Clone, Copy, Debug, PartialEq, Eq)]
pub enum Nature {
    /// It reads bytes of a namespace, and they are its answer.
    Reads,
    /// It writes given bytes over those of a namespace.
    Writes,
    /// It writes bytes of namespaces over those of a namespace.
    Copies,
    /// It executes the program of a slot on the ranges of a set, and holds both as long as it does.
    Executes { slot: u32, set: u32 },
    /// It changes what a slot holds that is not active, and takes memory.
    Builds,
    /// It makes a set, or empties a slot that is not active.
    Arranges,
    /// It takes a set away, which no execution may hold then.
    Deletes { set: u32 },
    /// It makes the program of a slot inactive, which no execution may hold then.
    Stops { slot: u32 },
    /// It withdraws the command of its host that waits under an identifier.
    Withdraws { cid: u32 },
}

impl Nature {
    /// Whether a command of this nature reads or writes bytes of namespaces.
    pub fn is_moving(self) -> bool
        ensures { result ≡ is_moving self }
    {
        match self {
            Nature::Reads | Nature::Writes | Nature::Copies | Nature::Executes { .. } => true,
            Nature::Builds
            | Nature::Arranges
            | Nature::Deletes { .. }
            | Nature::Stops { .. }
            | Nature::Withdraws { .. } => false,
        }
    }
}

/// A command by its word. This project's own.
#[derive(Clone, Copy, Debug, PartialEq, Eq)]
pub enum CommandWord {
    NvmRead,
    NvmWrite,
    NvmZeroes,
    NvmCopy,
    MemRead,
    MemWrite,
    MemFill,
    MemCopy,
    SetCreate,
    SetDelete,
    Load,
    Unload,
    Activate,
    Deactivate,
    Execute,
    Abort,
}

impl CommandWord {
    /// All words.
    pub const ALL: [CommandWord; 16] = [
        CommandWord::NvmRead,
        CommandWord::NvmWrite,
        CommandWord::NvmZeroes,
        CommandWord::NvmCopy,
        CommandWord::MemRead,
        CommandWord::MemWrite,
        CommandWord::MemFill,
        CommandWord::MemCopy,
        CommandWord::SetCreate,
        CommandWord::SetDelete,
        CommandWord::Load,
        CommandWord::Unload,
        CommandWord::Activate,
        CommandWord::Deactivate,
        CommandWord::Execute,
        CommandWord::Abort,
    ];

    /// The word of a text. `None` where the text is no command's word.
    pub fn of(text: &[u8]) -> Option<CommandWord>
        ensures { result ≡ command_word text.now }
    {
        first_named(&Self::ALL, text)
    }

    /// The word's text.
    pub fn text(self) -> &'static [u8]
        ensures text { result.now ≡ word_text self }
        ensures short { length result.now ≤ 10 }
    {
        match self {
            CommandWord::NvmRead => b"nvmread",
            CommandWord::NvmWrite => b"nvmwrite",
            CommandWord::NvmZeroes => b"nvmzeroes",
            CommandWord::NvmCopy => b"nvmcopy",
            CommandWord::MemRead => b"memread",
            CommandWord::MemWrite => b"memwrite",
            CommandWord::MemFill => b"memfill",
            CommandWord::MemCopy => b"memcopy",
            CommandWord::SetCreate => b"setcreate",
            CommandWord::SetDelete => b"setdelete",
            CommandWord::Load => b"load",
            CommandWord::Unload => b"unload",
            CommandWord::Activate => b"activate",
            CommandWord::Deactivate => b"deactivate",
            CommandWord::Execute => b"execute",
            CommandWord::Abort => b"abort",
        }
    }
}

// The first of these words that has this text.
fn first_named(words: &[CommandWord], text: &[u8]) -> Option<CommandWord>
    ensures { result ≡ find (λ word. bytes_eq text.now (word_text word)) words.now }
{
    words.iter().copied().find(|word| text == word.text())
}
