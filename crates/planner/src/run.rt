// Run: the station's week under a choice, minute by minute.
ghost use Rattle.std.specs.Prelude.{◌≡◌, true, Ok, length, IfOk};
ghost use Rattle.jobs.specs.Rule.{meets};
ghost use Rattle.edf.specs.Workload.{work_log};
ghost use Rattle.edf.specs.Contract.{Runnable};
ghost use Rattle.planner.specs.Job.{week_jobs, week_choice};
ghost use Rattle.week.specs.Ordered.{ordered_week};
ghost use Rattle.week.specs.Fault.{refusal_of};
ghost use Rattle.planner.specs.Run.{run_fault, log_answer, run_answer, ran_answer, log_after, StationLog, LogSays, InTime};

use crate::job::jobs_of;
use edf::log::{changes as changes_in, entries as entries_in};
use edf::outcome::{Outcome, outcome_of};
use edf::run::run as run_station;
use edf::workload::{Workload, workload_of};
use judge::fault::accept_handed;
use week::record::Week;
use week::refusal::{Fault, Reason};

// For each batch, in list order, its outcome; the idle minutes and the changes.
#[derive(Clone, Copy, Debug, PartialEq, Eq)]
pub struct WeekRun {
    pub idle: u16,
    pub changes: u16,
    pub batches: [Outcome; Week::MAX_BATCHES],
}

// The list in order, or what refuses to run a choice over a log of `size` bytes: refusals 1 to 9, then 13, then 12.
#[tactic(auto, using(crate::proofs::Running::run_refusals))]
fn accept_running(week: Week, choice: &[u8], size: usize) -> Result<Week, Fault>
    ensures refusal { refusal_of result ≡ run_fault week choice.now size }
    ensures list { IfOk result (λ list. list ≡ ordered_week week) }
{
    let list = accept_handed(week, choice)?;
    if size < week.minutes() {
        return Err(Fault::of(Reason::ShortLog));
    }
    Ok(list)
}

// What a log says of each job of a workload, and of the week.
#[tactic(auto, using(edf::proofs::Counts::short))]
fn read_log(work: Workload, opening: u16, log: &[u8]) -> WeekRun
    requires { Runnable work opening (length log.now) }
    ensures { ran_answer (Ok result) ≡ log_answer work opening log.now }
{
    let mut batches = [Outcome::SetAside; Week::MAX_BATCHES];
    // By number, which the log has of a task; and after a `zip` with what is written a proof knows none of its entries. `from_fn` would ask
    // its closure for the places beyond the count too, with a test of the count in it.
    for (i, task) in work.tasks[..work.count].iter().enumerate() {
        // A position is at most 16: `try_from` would test what is proved.
        batches[i] = outcome_of(task.aside, task.minutes, opening, log, (i + 1) as u8);
    }
    // The log ends at a minute that 16 bits hold, and so they hold each count of its minutes: `try_from` would test what is proved.
    WeekRun {
        idle: entries_in(log, 0) as u16,
        changes: changes_in(log) as u16,
        batches,
    }
}

// The station's run over the whole of a lent log, from the opening on, and what it says.
fn run_work(work: Workload, opening: u16, log: &mut [u8]) -> WeekRun
    requires { Runnable work opening (length log.old) }
    ensures answer { ran_answer (Ok result) ≡ log_answer work opening log.new }
    ensures log { log.new ≡ work_log work opening (length log.old) }
{
    run_station(work, opening, log);
    read_log(work, opening, log)
}

// The answer and every byte of the log at exit, on every input. Then what follows from these: document 01's sentence on each
// minute, what the answer says of the log, and demand 3 for every choice that meets the rule.
pub fn run(week: Week, choice: &[u8], log: &mut [u8]) -> Result<WeekRun, Fault>
    ensures answer { ran_answer result ≡ run_answer week choice.now (length log.old) }
    ensures log { log.new ≡ log_after week choice.now log.old }
    ensures reads { (ran_answer result).refusal.number ≡ 0
        → StationLog week choice.now log.old log.new }
    ensures says { (ran_answer result).refusal.number ≡ 0 → LogSays week choice.now log.new (ran_answer result) }
    ensures in_time { (ran_answer result).refusal.number ≡ 0
        → meets (week_jobs week) week.closing (week_choice week choice.now) ≡ true
        → InTime week choice.now log.new }
{
    let week = accept_running(week, choice, log.len())?;
    let work = workload_of(jobs_of(week), choice);
    let minutes = week.minutes();
    Ok(run_work(work, week.opening, &mut log[..minutes]))
}
