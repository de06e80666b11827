//! That each program ends with its last counted instruction, and with what.
use crate::workload::Workload;
use crate::{decoded, executed};
use bpf_isa::End;
use std::alloc::Global;

// How a workload ends on a range of 65,536 bytes, with as many instructions as it counts less these.
fn ended(alloc: Global, workload: Workload, rounds: u64, less: u64) -> Option<End> {
    let code = decoded(alloc, workload)?;
    let budget = workload.instructions(rounds).saturating_sub(less).max(1);
    executed(alloc, &code, rounds, 65_536, budget)
}

#[test]
fn programs_end_with_the_last_instruction(rt: HostRuntime) {
    for (workload, rounds, result) in [
        (Workload::Loop, 1, 1),
        (Workload::Loop, 1000, 1000),
        (Workload::Sum, 2, 131_072),
        (Workload::Store, 3, 3),
        (Workload::Near, 7, 7),
        (Workload::Far, 7, 7),
    ] {
        let done = ended(rt.alloc(), workload, rounds, 0);
        assert_eq!(rt; done, Some(End::Exit(result)), "{workload:?} {rounds}");
        let cut = ended(rt.alloc(), workload, rounds, 1);
        assert_eq!(rt; cut, Some(End::BudgetSpent), "{workload:?} {rounds}");
    }
}
