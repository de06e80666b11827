// What work leaves. The function does nothing: what it ensures is what is proved.
ghost use Rattle.cp_base.specs.Configuration.{Configuration};
ghost use Rattle.device_model.specs.State.{State};
ghost use Rattle.trail_model.specs.World.{OpenClaim};
ghost use Rattle.job_run.specs.Works.{IsWork, IsWorkDone};
ghost use Rattle.job_run.specs.declared.work.Work.{Work};
ghost use Rattle.job_run.specs.declared.work.Worked.{Worked};
ghost use Rattle.device_core.specs.Gives.{IsWorkOf, IsWorkedOf};

/// What is left of an open claim's work, once it is run, is what the claim comes to.
pub fn run_leaves_what_a_claim_comes_to()
    ensures { (c : Configuration) (claim : OpenClaim) (work : Work) (done : Worked) → IsWorkOf c claim work
        → ((s : State) → IsWork c s work → IsWorkDone c s work done) → IsWorkedOf c claim done }
{}
