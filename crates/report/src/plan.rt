// The report of a list: its best plan, the stretches that the rule gives it, and the station's run of it.
ghost use Rattle.std.specs.Prelude.{◌≡◌, ◌≤◌, Ok};
ghost use mathlib.Core.List.{flatten};
ghost use Rattle.week.specs.Ordered.{ordered_week};
ghost use Rattle.planner.specs.Check.{checked_answer};
ghost use Rattle.planner.specs.Choose.{chosen_answer};
ghost use Rattle.planner.specs.Run.{ran_answer};
ghost use Rattle.report.specs.Report.{finish_of, line_by, lines_by, week_lines};
ghost use Rattle.report.specs.Contract.{Printable, text_of};

use crate::line::{BatchLine, MAX_TEXT, batch_line, total_line};
use edf::outcome::Outcome;
use jobs::rule::Stretch;
use planner::check::{Checked, check};
use planner::choose::Plan;
use planner::own_memory::{choose_week, run_week};
use planner::run::WeekRun;
use text::Text;
use week::record::{Batch, Week};
use week::refusal::Fault;

// Document 01: "finish (0 if set aside)". No batch of a plan is unfinished.
fn finish_of(outcome: Outcome) -> u16
    ensures { result ≡ finish_of outcome }
{
    match outcome {
        Outcome::SetAside => 0,
        Outcome::Finished(minute) => minute,
        Outcome::Unfinished(_) => 0,
    }
}

// What the line of a batch says.
fn line_of(batch: Batch, recipe: u8, stretch: Stretch, outcome: Outcome) -> BatchLine
    requires { stretch.start ≤ stretch.end }
    ensures { result ≡ line_by batch recipe stretch outcome }
{
    BatchLine {
        number: batch.number,
        recipe,
        cost: stretch.end - stretch.start,
        start: stretch.start,
        end: stretch.end,
        finish: finish_of(outcome),
    }
}

// All lines of a plan: the week, the total, and a line for each batch, in list order.
fn plan_text(week: Week, plan: Plan, checked: Checked, ran: WeekRun) -> Text<MAX_TEXT>
    requires { Printable week (checked_answer (Ok checked)) }
    ensures { result ≡ flatten (lines_by week (chosen_answer (Ok plan)) (checked_answer (Ok checked)) (ran_answer (Ok ran))) }
{
    let mut text = Text::new();
    text.week_line(week.opening, week.closing);
    total_line(&mut text, plan.total, ran.changes, ran.idle);
    // By index in three of the four arrays: a zip of all four nests three deep, and is no plainer. Nor is a function over a closure that
    // puts the parts: its bound `Fn` can name no const parameter, so that it sees the text by a trait with one impl, and it asks its
    // caller for the width and the parts that the invariant here says.
    for (i, batch) in week.listed().iter().enumerate() {
        let line = line_of(*batch, plan.choice[i], checked.stretches[i], ran.batches[i]);
        batch_line(&mut text, line);
    }
    text
}

// All lines of the plan of a list in order, or what refuses it.
pub(crate) fn week_text(week: Week) -> Result<Text<MAX_TEXT>, Fault>
    requires { ordered_week week ≡ week }
    ensures { text_of result ≡ flatten (week_lines week) }
{
    let plan = choose_week(week)?;
    let choice = &plan.choice[..week.count];
    let checked = check(week, choice)?;
    let ran = run_week(week, choice)?;
    Ok(plan_text(week, plan, checked, ran))
}
