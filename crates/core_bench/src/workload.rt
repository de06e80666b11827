//! The workloads.
ghost use Rattle.std.specs.Prelude.{◌≡◌};
ghost use Rattle.core_bench.specs.Names.{core_workload_named};

/// What is done.
#[derive(Clone, Copy, Debug, PartialEq, Eq)]
pub enum Workload {
    /// One command after the other.
    OneByOne(Places),
    /// 16 hosts with 256 commands outstanding each, on bytes of their own.
    Deep,
    /// The same with all commands on the same bytes.
    DeepOnOne,
    /// A fill of 1 MiB without a device.
    FillAlone,
}

/// Where the commands write, or read.
#[derive(Clone, Copy, Debug, PartialEq, Eq)]
pub enum Places {
    /// 16 bytes at place 0.
    One,
    /// 16 bytes at random places.
    Random,
    /// 16 bytes, 64 places behind those of the command before.
    Ascending,
    /// The first 1 MiB.
    Span,
    /// The first 8,192 bytes, which are read.
    Read,
}

impl Workload {
    /// The workload of this name. `None` where it is the name of none.
    pub fn named(word: &str) -> Option<Workload>
        ensures { result ≡ core_workload_named word.now }
    {
        if word == "one-place" {
            Some(Workload::OneByOne(Places::One))
        } else if word == "random" {
            Some(Workload::OneByOne(Places::Random))
        } else if word == "ascending" {
            Some(Workload::OneByOne(Places::Ascending))
        } else if word == "span" {
            Some(Workload::OneByOne(Places::Span))
        } else if word == "read" {
            Some(Workload::OneByOne(Places::Read))
        } else if word == "deep" {
            Some(Workload::Deep)
        } else if word == "deep-on-one" {
            Some(Workload::DeepOnOne)
        } else if word == "fill-alone" {
            Some(Workload::FillAlone)
        } else {
            None
        }
    }
}
