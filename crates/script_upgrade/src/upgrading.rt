// A script as version 2.
ghost use Rattle.std.specs.Prelude.{◌≡◌};
ghost use Rattle.history_model.specs.Plan.{plan_of};
ghost use Rattle.script_cmds.specs.Kept.{KeepsOrderAndLimits};
ghost use Rattle.script_cmds.specs.Queues.{AreExact};
ghost use Rattle.script_upgrade.specs.Upgraded.{upgraded};

use script_cmds::{Form, Script};
use script_line::Version;

/// The script in version 2, with all else as it was: nothing is copied. A script of version 2 is given back. A script
/// that was read has the same plan or the same fault as before, and its lines keep order and limits, which in version 2
/// are nowhere narrower.
pub fn upgrade(script: Script) -> Script
    ensures value { result ≡ upgraded script }
    ensures plan { AreExact script.form script.config.depth → plan_of result ≡ plan_of script }
    ensures queues { AreExact script.form script.config.depth → AreExact result.form result.config.depth }
    ensures kept { AreExact script.form script.config.depth → KeepsOrderAndLimits script → KeepsOrderAndLimits result }
{
    let form = Form {
        version: Version::Two,
        ..script.form
    };
    Script { form, ..script }
}
