//! The workloads.
ghost use Rattle.std.specs.Prelude.{◌≡◌, ◌-◌, ◌^◌, ◌≤◌, min};
ghost use Rattle.bpf_bench.specs.Counts.{instructions_in_all};
ghost use Rattle.bpf_bench.specs.Names.{bpf_workload_named};

/// What is executed. Each program does the same in every round, and there is at least one.
#[derive(Clone, Copy, Debug, PartialEq, Eq)]
pub enum Workload {
    /// Counts the rounds.
    Loop,
    /// Adds up the bytes of the range.
    Sum,
    /// Stores the number of the round over the range, 8 bytes at a time.
    Store,
    /// Counts the rounds by jumps from end to end of a code of 1 KiB.
    Near,
    /// Counts the rounds by jumps from end to end of a code of 64 KiB.
    Far,
}

impl Workload {
    /// The workload of this name. `None` where it is the name of none.
    pub fn named(word: &str) -> Option<Workload>
        ensures { result ≡ bpf_workload_named word.now }
    {
        if word == "loop" {
            Some(Workload::Loop)
        } else if word == "sum" {
            Some(Workload::Sum)
        } else if word == "store" {
            Some(Workload::Store)
        } else if word == "near" {
            Some(Workload::Near)
        } else if word == "far" {
            Some(Workload::Far)
        } else {
            None
        }
    }

    /// How many instructions its program executes for so many rounds, of which there are 1 or more; at most
    /// `u64::MAX`.
    pub fn instructions(self, rounds: u64) -> u64
        ensures value { result ≡ min (instructions_in_all self rounds) (2 ^ 64 - 1) }
        ensures some { 1 ≤ result }
    {
        let (once, each) = match self {
            Workload::Loop => (2, 2),
            Workload::Sum => (5, 3 + 4 * 65_536),
            Workload::Store => (5, 3 + 3 * 8_192),
            Workload::Near | Workload::Far => (2, 3),
        };
        rounds.saturating_mul(each).saturating_add(once)
    }
}
