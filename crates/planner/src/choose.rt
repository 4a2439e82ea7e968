// Choose: the recipes of greatest worth that meet the backward rule.
ghost use Rattle.std.specs.Prelude.{◌≡◌, ◌↔◌, length, IfOk};
ghost use Rattle.judge.specs.Fault.{WellFormed};
ghost use Rattle.week.specs.Ordered.{ordered_week};
ghost use Rattle.week.specs.Fault.{refusal_of};
ghost use Rattle.planner.specs.Choose.{width_of, table_fault, fill_fault, choose_answer, chosen_answer, table_after, FillsTable};
ghost use Rattle.planner.specs.Choose.{PicksTable, BestPlan, SomePlan, NoPlan, LongTable};

use crate::job::jobs_of;
use jobs::worth::total;
use judge::fault::accept_list;
use select::choice::read_off;
use select::table::fill;
use week::record::Week;
use week::refusal::{Fault, Reason};

// A table that is long enough for every list: a row for each batch, with an entry for each closing minute, both ends counted. By `as`,
// since `From` is not const.
pub const MAX_PICKS: usize = Week::MAX_BATCHES * (Week::MAX_MINUTES as usize + 1);

// For each batch, in list order, its recipe, and the total.
#[derive(Clone, Copy, Debug, PartialEq, Eq)]
pub struct Plan {
    pub total: u32,
    pub choice: [u8; Week::MAX_BATCHES],
}

// The entries of a row of the table: the minutes from opening to closing, both counted.
fn row_width(week: Week) -> usize
    ensures { result ≡ width_of week }
{
    week.minutes() + 1
}

// 11: whether a table of `size` bytes is too short. A quotient is compared, since n × (c − t + 1) could wrap where the list is not
// well formed.
#[tactic(auto, using(crate::proofs::Choosing::quotient_short, crate::proofs::Choosing::quotient_long))]
pub fn table_fault(week: Week, size: usize) -> Result<(), Fault>
    ensures { refusal_of result ≡ table_fault week size }
{
    if size / row_width(week) < week.count {
        return Err(Fault::of(Reason::ShortTable));
    }
    Ok(())
}

// The list in order, or what refuses to fill a table of `size` bytes: refusals 1 to 9, then 11.
#[tactic(auto, using(crate::proofs::Choosing::fill_list, crate::proofs::Choosing::fill_table, week::proofs::Faults::fault_refuses))]
fn accept_filling(week: Week, size: usize) -> Result<Week, Fault>
    ensures refusal { refusal_of result ≡ fill_fault week size }
    ensures list { IfOk result (λ list. list ≡ ordered_week week) }
{
    let list = accept_list(week)?;
    table_fault(week, size)?;
    Ok(list)
}

// The answer and every byte of the table at exit, on every input. Then what follows from these: document 01's sentence on the
// table, and demand 3.
pub fn choose(week: Week, table: &mut [u8]) -> Result<Plan, Fault>
    ensures answer { chosen_answer result ≡ choose_answer week (length table.old) }
    ensures table { table.new ≡ table_after week table.old }
    ensures picks { FillsTable (chosen_answer result) → PicksTable week table.old table.new }
    ensures best { (chosen_answer result).refusal.number ≡ 0 → BestPlan week (chosen_answer result) }
    ensures none { ((chosen_answer result).refusal.number ≡ 14)
        ↔ (WellFormed week × LongTable week (length table.old) × NoPlan week) }
    ensures plans { ((chosen_answer result).refusal.number ≡ 0)
        ↔ (WellFormed week × LongTable week (length table.old) × SomePlan week) }
{
    let week = accept_filling(week, table.len())?;
    let width = row_width(week);
    let jobs = jobs_of(week);
    fill(jobs, week.opening, width, table);
    let best = read_off(jobs, week.opening, width, week.closing, table);
    let choice = best.ok_or(Fault::of(Reason::NoPlan))?;
    Ok(Plan {
        total: total(jobs, &choice),
        choice,
    })
}
