// Check: whether a choice meets the backward rule.
ghost use Rattle.std.specs.Prelude.{◌≡◌};
ghost use Rattle.week.specs.Fault.{fault_at};
ghost use Rattle.planner.specs.Check.{check_answer, checked_answer};

use crate::job::jobs_of;
use jobs::rule::{Failing, Stretch, stretch_all};
use jobs::worth::total;
use judge::fault::accept_handed;
use week::record::Week;
use week::refusal::{Fault, Reason};

// Of a choice that Check passes: for each batch, in list order, the stretch that the rule gives it, and the total.
#[derive(Clone, Copy, Debug, PartialEq, Eq)]
pub struct Checked {
    pub total: u32,
    pub stretches: [Stretch; Week::MAX_BATCHES],
}

// 15, at the position where a choice breaks the rule. No `From`: neither type is of this crate.
fn broken_at(failing: Failing) -> Fault
    ensures { result ≡ fault_at Reason.BreaksTheRule failing.position 0 }
{
    Fault::of(Reason::BreaksTheRule).in_place(failing.position)
}

// Document 01: "Check: list and choice, answering the stretches and the total." The answer on every input.
pub fn check(week: Week, choice: &[u8]) -> Result<Checked, Fault>
    ensures { checked_answer result ≡ check_answer week choice.now }
{
    let week = accept_handed(week, choice)?;
    let jobs = jobs_of(week);
    let stretches = stretch_all(jobs, week.closing, choice).map_err(broken_at)?;
    Ok(Checked {
        total: total(jobs, choice),
        stretches,
    })
}
