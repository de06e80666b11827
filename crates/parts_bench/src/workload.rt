//! The workloads.
ghost use Rattle.std.specs.Prelude.{◌≡◌};
ghost use Rattle.parts_bench.specs.Names.{parts_workload_named};

/// What is done in each round.
#[derive(Clone, Copy, Debug, PartialEq, Eq)]
pub enum Workload {
    /// Loads one byte of a program, the last one first, with a hole between two of them.
    Pieces,
    /// Asks of 32 commands of one range whether they may begin beside 32 claims of 16 ranges.
    AskOne,
    /// The same of commands of 16 ranges.
    AskSixteen,
    /// Keeps a claim of one range beside 31 others, and gives it back.
    ChangeOne,
    /// The same with claims that read 16 ranges and write 16.
    ChangeSixteen,
    /// Takes a range of a namespace of 16 MiB out and puts it back.
    Exchange(Places),
    /// Runs a program of the device over 1 MiB, by its kernel.
    Kernel(Builtin),
    /// Does the same by a plain loop.
    Plain(Builtin),
}

/// Which range is taken out.
#[derive(Clone, Copy, Debug, PartialEq, Eq)]
pub enum Places {
    /// 4,096 bytes from any place on.
    Anywhere,
    /// 4,096 bytes from a multiple of 4,096 on.
    Aligned,
    /// 1,024 bytes, behind those of the round before.
    Ascending,
    /// One byte.
    Lone,
}

/// A program of the device. Each byte that it looks at is 1.
#[derive(Clone, Copy, Debug, PartialEq, Eq)]
pub enum Builtin {
    /// How many bytes are 1.
    Count,
    /// The sum of the bytes.
    Sum,
    /// Where the bytes first differ from others. They do not, which counts as their number.
    Compare,
    /// Which bytes lie in the class from 1 to 2, with a mark for each.
    Classes,
}

impl Workload {
    /// The workload of this name. `None` where it is the name of none.
    pub fn named(word: &str) -> Option<Workload>
        ensures { result ≡ parts_workload_named word.now }
    {
        if word == "pieces" {
            Some(Workload::Pieces)
        } else if word == "ask-one" {
            Some(Workload::AskOne)
        } else if word == "ask-sixteen" {
            Some(Workload::AskSixteen)
        } else if word == "change-one" {
            Some(Workload::ChangeOne)
        } else if word == "change-sixteen" {
            Some(Workload::ChangeSixteen)
        } else if word == "anywhere" {
            Some(Workload::Exchange(Places::Anywhere))
        } else if word == "aligned" {
            Some(Workload::Exchange(Places::Aligned))
        } else if word == "ascending" {
            Some(Workload::Exchange(Places::Ascending))
        } else if word == "lone" {
            Some(Workload::Exchange(Places::Lone))
        } else if word == "count" {
            Some(Workload::Kernel(Builtin::Count))
        } else if word == "sum" {
            Some(Workload::Kernel(Builtin::Sum))
        } else if word == "compare" {
            Some(Workload::Kernel(Builtin::Compare))
        } else if word == "classes" {
            Some(Workload::Kernel(Builtin::Classes))
        } else if word == "plain-count" {
            Some(Workload::Plain(Builtin::Count))
        } else if word == "plain-sum" {
            Some(Workload::Plain(Builtin::Sum))
        } else if word == "plain-compare" {
            Some(Workload::Plain(Builtin::Compare))
        } else if word == "plain-classes" {
            Some(Workload::Plain(Builtin::Classes))
        } else {
            None
        }
    }
}
