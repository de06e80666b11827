// How many lines the parts of a script have, and how many commands it sends.
ghost use Rattle.std.specs.Prelude.{◌≡◌, ◌+◌, ◌<◌, ◌≤◌, ◌^◌, ◌==◌, not, length, count_by};
ghost use Rattle.script_cmds.specs.Text.{configuration_lines};
ghost use Rattle.script_plan.specs.Counted.{lines_of_phases};
ghost use Rattle.script_cmds.specs.declared.form.Form.{Form};
ghost use Rattle.history_model.specs.Plan.{lines_of_parts};
ghost use Rattle.script_cmds.specs.Counts.{is_send, sends_in_items, sends_in_parts, sends_in_phases};

use cp_base::Config;
use script_cmds::{HostPart, Item, Phase};

// How many namespaces of a kind there are: each has a line.
fn namespaces(sizes: &[u32]) -> u32
    requires { length sizes.now ≤ 8 }
    ensures value { result ≡ count_by (λ size. not (size == 0)) sizes.now }
    ensures few { result ≤ 8 }
{
    sizes.iter().filter(|size| **size != 0).count() as u32
}

/// How many lines the configuration has in a script: the header, and a line for each namespace.
pub(crate) fn configuration_lines(config: &Config) -> u32
    ensures value { (form : Form) → result ≡ length (configuration_lines form config.now) }
    ensures few { result ≤ 17 }
{
    1 + namespaces(config.nvm()) + namespaces(config.mem())
}

/// How many lines the parts of a phase have: the line of each host, and one for each item.
pub(crate) fn part_lines(parts: &[HostPart]) -> u32
    requires { lines_of_parts parts.now < 2 ^ 32 }
    ensures { result ≡ lines_of_parts parts.now }
{
    let mut lines = 0;
    for part in parts {
        lines += 1 + part.items.as_slice().len() as u32;
    }
    lines
}

// Whether an item is a send.
fn is_send(item: &Item) -> bool
    ensures { result ≡ is_send item.now }
{
    matches!(item, Item::Send { .. })
}

// How many commands a part sends.
fn item_sends(items: &[Item]) -> u32
    requires { length items.now < 2 ^ 32 }
    ensures { result ≡ sends_in_items items.now }
{
    let mut sends = 0;
    for item in items {
        if is_send(item) {
            sends += 1;
        }
    }
    sends
}

// How many commands a phase sends.
fn part_sends(parts: &[HostPart]) -> u32
    requires { lines_of_parts parts.now < 2 ^ 32 }
    ensures { result ≡ sends_in_parts parts.now }
{
    let mut sends = 0;
    for part in parts {
        sends += item_sends(part.items.as_slice());
    }
    sends
}

/// How many commands the phases send.
pub(crate) fn phase_sends(phases: &[Phase]) -> u32
    requires { lines_of_phases phases.now < 2 ^ 32 }
    ensures { result ≡ sends_in_phases phases.now }
{
    let mut sends = 0;
    for phase in phases {
        sends += part_sends(phase.hosts.as_slice());
    }
    sends
}
