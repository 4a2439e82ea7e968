// Choose and Run where nothing is lent: with a table, and with a log, of their own.
ghost use Rattle.std.specs.Prelude.{◌≡◌, length};
ghost use Rattle.week.specs.Record.{max_minutes};
ghost use Rattle.planner.specs.Choose.{max_picks, choose_answer, chosen_answer};
ghost use Rattle.planner.specs.Run.{run_answer, ran_answer};

use crate::choose::{MAX_PICKS, Plan, choose};
use crate::run::{WeekRun, run};
use week::record::Week;
use week::refusal::Fault;

// A log that is long enough for every week. By `as`, since `From` is not const.
const MAX_LOG: usize = Week::MAX_MINUTES as usize;

// Made apart, so that its callers know of it how long it is and no more.
fn zeros<const N: usize>() -> [u8; N]
    ensures { N ≡ length result }
{
    [0; N]
}

// Choose, with a table that is long enough for every list.
pub fn choose_week(week: Week) -> Result<Plan, Fault>
    ensures { chosen_answer result ≡ choose_answer week max_picks }
{
    let mut table = zeros::<MAX_PICKS>();
    choose(week, &mut table)
}

// Run, with a log that is long enough for every week.
pub fn run_week(week: Week, choice: &[u8]) -> Result<WeekRun, Fault>
    ensures { ran_answer result ≡ run_answer week choice.now max_minutes }
{
    let mut log = zeros::<MAX_LOG>();
    run(week, choice, &mut log)
}
