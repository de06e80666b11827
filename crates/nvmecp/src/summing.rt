// The summary of what a device has carried out.
ghost use Rattle.std.specs.Prelude.{◌≡◌, if◌then◌else◌};
ghost use Rattle.history_model.specs.Text.{is_ok_status};
ghost use Rattle.device_core.specs.Gives.{world_in};
ghost use Rattle.nvmecp.specs.Summed.{Sums};

use cp_base::Status;
use device_core::Core;
use replay_print::Summary;

// 1 for a command that was answered `Ok`, 0 for every other.
fn count_ok(status: Status) -> u32
    ensures { result ≡ if is_ok_status status then 1 else 0 }
{
    match status {
        Status::Ok => 1,
        _ => 0,
    }
}

/// The summary of the commands that are over. One that found no memory is among those that were not answered `Ok`.
pub fn summary_of(core: &Core) -> Summary
    ensures { Sums (world_in core.now).history result }
{
    let commands = core.ended();
    let mut ok = 0;
    let mut sum: u64 = 0;
    for k in 0..commands {
        let Some(entry) = core.entry(k) else {
            unreachable!("the history goes so far");
        };
        ok += count_ok(entry.reply.status);
        sum = sum.wrapping_add(entry.reply.result);
    }
    let other = commands - ok;
    Summary {
        commands,
        ok,
        other,
        sum,
    }
}
