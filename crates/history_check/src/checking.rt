// The verdict on a text.
ghost use Rattle.std.specs.Prelude.{◌≡◌, ◌+◌, ◌<◌, ◌^◌, [], IfOk, length};
ghost use Rattle.history_model.specs.Sent.{sends_of};
ghost use Rattle.history_check.specs.Reading.{HasReadEntries, HasReadShows};
ghost use Rattle.history_check.specs.SizedPlan.{IsSizedPlan};
ghost use Rattle.history_check.specs.Standing.{Stands};
ghost use Rattle.history_check.specs.Verdict.{AreShown, Says};

use crate::checker::Checker;
use cp_base::{Config, NoMemory};
use cp_text::next_line;
use script_cmds::Show;
use script_plan::Plan;
use std::alloc::Global;

/// What is said of a history.
#[derive(Clone, Copy, Debug, PartialEq, Eq)]
pub enum Verdict {
    /// It is the text of a history that is legal for the plan.
    Legal,
    /// It is none, and this line, counted from 1, is the first with which no legal history goes on.
    Breaks { line: u32 },
}

/// What is left of a text behind the lines that were read, or its first bad line.
#[derive(Clone, Copy, Debug)]
pub(crate) enum Reading<'a> {
    Left(&'a [u8]),
    Breaks(u32),
}

// Reads the entries of all commands.
fn read_entries<'a>(
    checker: &mut Checker,
    plan: &Plan,
    history: &'a [u8],
) -> Result<Reading<'a>, NoMemory>
    requires commands { plan.now.commands ≡ length (sends_of plan.now.phases) }
    requires few { plan.now.commands + 1 < 2 ^ 32 }
    requires sized { IsSizedPlan checker.old.device.config plan.now.phases }
    requires stands { Stands checker.old.device.config plan.now.phases [] checker.old }
    ensures { IfOk result (HasReadEntries checker.old.device.config plan.now.phases history.now checker.new) }
{
    let mut rest = history;
    for count in 0..plan.commands {
        let line = count + 1;
        let Some((text, behind)) = next_line(rest) else {
            return Ok(Reading::Breaks(line));
        };
        if !checker.accepts(line, text)? {
            return Ok(Reading::Breaks(line));
        }
        rest = behind;
    }
    Ok(Reading::Left(rest))
}

// Reads the lines of the shows, of which the first has this number.
fn read_shows<'a>(
    checker: &mut Checker,
    shows: &[Show],
    first: u32,
    text: &'a [u8],
) -> Result<Reading<'a>, NoMemory>
    requires few { first + length shows.now < 2 ^ 32 }
    requires shown { AreShown checker.old.device.config shows.now }
    ensures { IfOk result (HasReadShows checker.old.device.state.contents shows.now first text.now) }
{
    let mut rest = text;
    let mut line = first;
    for show in shows {
        let Some((shown, behind)) = next_line(rest) else {
            return Ok(Reading::Breaks(line));
        };
        if !checker.shows(show, shown)? {
            return Ok(Reading::Breaks(line));
        }
        rest = behind;
        line += 1;
    }
    Ok(Reading::Left(rest))
}

/// Whether a text is that of a history that is legal for a plan and what is shown at its end, or the first line
/// with which none goes on: a line that no newline ends never fits, and a missing line has the number of the
/// lines and 1. The configuration, the plan and the shows are those of one accepted script.
///
/// # Errors
///
/// `NoMemory`, also where the checker's own device finds none for a command of which the line tells another
/// answer.
pub fn check(
    alloc: Global,
    config: &Config,
    plan: &Plan,
    shows: &[Show],
    history: &[u8],
) -> Result<Verdict, NoMemory>
    requires commands { plan.now.commands ≡ length (sends_of plan.now.phases) }
    requires few { plan.now.commands + 1 + length shows.now < 2 ^ 32 }
    requires sized { IsSizedPlan config.now plan.now.phases }
    requires shown { AreShown config.now shows.now }
    ensures { IfOk result (Says config.now plan.now.phases shows.now history.now) }
{
    let mut checker = Checker::new(alloc, config, plan.phases.as_slice())?;
    let behind = match read_entries(&mut checker, plan, history)? {
        Reading::Left(behind) => behind,
        Reading::Breaks(line) => return Ok(Verdict::Breaks { line }),
    };
    let first = plan.commands + 1;
    let rest = match read_shows(&mut checker, shows, first, behind)? {
        Reading::Left(rest) => rest,
        Reading::Breaks(line) => return Ok(Verdict::Breaks { line }),
    };
    if rest.is_empty() {
        return Ok(Verdict::Legal);
    }
    let line = first + shows.len() as u32;
    Ok(Verdict::Breaks { line })
}
