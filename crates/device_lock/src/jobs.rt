// The work between a claim and its completion, which needs no turn.
ghost use Rattle.std.specs.Prelude.{◌≡◌};
ghost use Rattle.trail_model.specs.World.{OpenClaim};
ghost use Rattle.device_lock.specs.Names.{DeviceName};
ghost use Rattle.device_lock.specs.Jobs.{IsDoneFor, IsJobFor, IsJobOf, host_of_job, ordinal_of_job, pass_of_done, pass_of_job, place_of_done, place_of_job};

use crate::parties::Pass;
use job_run::{Work, Worked};

/// A command that its party has claimed, to be run. It has the party's pass, and is not `Drop`: what is claimed is completed.
pub struct Job {
    pub(crate) pass: Pass,
    pub(crate) claim: u32,
    pub(crate) host: u32,
    pub(crate) ordinal: u32,
    pub(crate) work: Work,
}

/// What is left of a job that was run, for `Device::complete`. It is not `Drop`.
pub struct Done {
    pub(crate) pass: Pass,
    pub(crate) claim: u32,
    pub(crate) worked: Worked,
}

impl Job {
    /// The host that submitted the command.
    pub fn host(&self) -> u32
        ensures { result ≡ host_of_job self.now }
    {
        self.host
    }

    /// Which of its host's commands it is, from 1.
    pub fn ordinal(&self) -> u32
        ensures { result ≡ ordinal_of_job self.now }
    {
        self.ordinal
    }

    /// Carries the command out on the bytes that the claim took along. It needs no turn, waits for nobody and takes no memory.
    pub fn run(self) -> Done
        requires { (d : DeviceName) × IsJobOf d self }
        ensures done { (d : DeviceName) (claim : OpenClaim) → IsJobFor d self claim → IsDoneFor d result claim }
        ensures pass { pass_of_done result ≡ pass_of_job self }
        ensures place { place_of_done result ≡ place_of_job self }
    {
        let Job {
            pass,
            claim,
            host: _,
            ordinal: _,
            work,
        } = self;
        Done {
            pass,
            claim,
            worked: work.run(),
        }
    }
}
