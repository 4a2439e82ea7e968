// Choose over lent records.
ghost use Rattle.std.specs.Prelude.{◌≡◌, length};
ghost use Rattle.planner.specs.Choose.{choose_answer, chosen_answer, table_after};
ghost use Rattle.records.specs.Records.{lent_week, records_after};

use crate::list::{lent_week, put_in_order};
use planner::choose::{Plan, choose};
use week::record::Batch;
use week::refusal::Fault;

// The answer, every byte of the table and every record at exit, on every input.
pub fn choose_records(
    opening: u16,
    closing: u16,
    records: &mut [Batch],
    table: &mut [u8],
) -> Result<Plan, Fault>
    ensures answer { chosen_answer result ≡ choose_answer (lent_week opening closing records.old) (length table.old) }
    ensures table { table.new ≡ table_after (lent_week opening closing records.old) table.old }
    ensures records { records.new ≡ records_after opening closing records.old (length table.old) }
{
    let week = lent_week(opening, closing, records);
    let plan = choose(week, table)?;
    put_in_order(week, records);
    Ok(plan)
}
