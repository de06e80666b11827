// The runs of a set of bytes, and what a command touches.
ghost use Rattle.std.specs.Prelude.{◌≡◌, ◌≤◌, ◌<◌, ◌↔◌, length, IsSome, IfSome};
ghost use Rattle.cp_base.specs.Runs.{runs_of, with_run};

use crate::{ByteRange, MAX_RUNS};
use smallvec::SmallVec;
use std::alloc::Global;
use std::marker::Model;

/// The runs of a set of bytes: its maximal ranges, sorted by namespace, NVM before memory, and by their
/// first places.
#[derive(Debug, Drop)]
pub struct Spans {
    runs: SmallVec<ByteRange, MAX_RUNS>,
}

impl Model for Spans {
    ghost use Rattle.std.specs.Prelude.{List, ◌≤◌, length};
    ghost use Rattle.cp_base.specs.Region.{Region};
    ghost use Rattle.cp_base.specs.declared.limits.TheConstants.{MAX_RUNS};

    ghost Value = { List Region };

    ghost view = { λ s. s.runs.items };

    ghost invariant = { λ s. length s.runs.items ≤ MAX_RUNS };
}

// Runs with one more range, which grows together with those that it shares a byte with or touches.
fn with_run(alloc: Global, range: ByteRange, runs: &[ByteRange]) -> SmallVec<ByteRange, MAX_RUNS>
    requires { length runs.now < MAX_RUNS }
    ensures runs { result.items ≡ with_run range runs.now }
    ensures capacity { result.capacity ≡ MAX_RUNS }
{
    let mut grown = range;
    let mut made = SmallVec::new(alloc);
    for (i, run) in runs.iter().enumerate() {
        if grown.is_apart_before(run) {
            made.push_reserved(grown);
            made.extend_from_slice(&runs[i..]).unwrap();
            return made;
        }
        if run.is_apart_before(&grown) {
            made.push_reserved(*run);
        } else {
            grown = grown.hull(run);
        }
    }
    made.push_reserved(grown);
    made
}

impl Spans {
    #[tactic(auto, using(crate::proofs::Runs::few_runs))]
    /// The bytes that these ranges have together, as runs. More than 20 ranges are not taken: `None`.
    pub fn of(alloc: Global, ranges: &[ByteRange]) -> Option<Spans>
        ensures found { IsSome result ↔ (length ranges.now ≤ MAX_RUNS) }
        ensures value { IfSome result (λ spans. spans ≡ runs_of ranges.now) }
    {
        if ranges.len() > MAX_RUNS {
            return None;
        }
        let mut runs = SmallVec::new(alloc);
        for i in (0..ranges.len()).rev() {
            runs = with_run(alloc, ranges[i], runs.as_slice());
        }
        Some(Spans { runs })
    }

    /// How many runs: no more than 20.
    pub fn count(&self) -> usize
        ensures value { result ≡ length self.now }
        ensures few { result ≤ MAX_RUNS }
    {
        self.runs.len()
    }

    /// The runs in order.
    pub fn as_slice(&self) -> &[ByteRange]
        ensures { result.now ≡ self.now }
    {
        self.runs.as_slice()
    }
}

/// What a command touches: the bytes that it reads, those that it may write, and the slot and the set
/// that it holds while it is carried out.
#[derive(Debug, Drop)]
pub struct Footprint {
    pub reads: Spans,
    pub writes: Spans,
    pub slot: Option<u32>,
    pub set: Option<u32>,
}
