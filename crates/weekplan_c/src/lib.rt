// The planner as the station's control program calls it, from C: include/weekplan.h.
#![tactic(auto)]

ghost use Rattle.std.specs.Prelude.{◌≡◌, ◌↔◌, ◌++◌, ◌≤◌, length, take, drop};
ghost use Rattle.week.specs.Record.{max_batches};
ghost use Rattle.week.specs.Refusal.{first_of};
ghost use Rattle.week.specs.Fault.{refusal_of};
ghost use Rattle.planner.specs.Choose.{SomePlan, NoPlan, LongTable};
ghost use Rattle.sheet.specs.List.{sheet_week};
ghost use Rattle.sheet.specs.Read.{WellWritten};
ghost use Rattle.weekplan_c.specs.Call.{lent_faults, minus_of, answered, call_answer, picks_after, recipes_after, Planned, BestCall};
ghost use Rattle.weekplan_c.specs.Call.{LongBuffer};

use planner::choose::{choose, table_fault};
use sheet::read::read;
use week::record::Week;
use week::refusal::{Fault, Reason};

// What refuses to plan a list into a table and a buffer of these sizes: 11, then 19.
fn lent_fault(week: Week, table_size: usize, buffer_size: usize) -> Result<(), Fault>
    ensures { refusal_of result ≡ first_of (lent_faults week table_size buffer_size) }
{
    table_fault(week, table_size)?;
    if buffer_size < week.count {
        return Err(Fault::of(Reason::ShortBuffer));
    }
    Ok(())
}

// The first n recipes of a plan, into the buffer's first n bytes.
fn write_recipes(choice: [u8; Week::MAX_BATCHES], n: usize, buffer: &mut [u8])
    requires { (n ≤ max_batches) × (n ≤ length buffer.old) }
    ensures { buffer.new ≡ take n choice ++ drop n buffer.old }
{
    buffer[..n].copy_from_slice(&choice[..n]);
}

// The total of the plan of a sheet's list, with the plan's recipes written into the buffer, one byte a batch; or what refuses.
fn plan_into(sheet: &[u8], picks: &mut [u8], recipes: &mut [u8]) -> Result<u32, Fault>
    ensures answer { answered result ≡ call_answer sheet.now (length picks.old) (length recipes.old) }
    ensures picks { picks.new ≡ picks_after sheet.now picks.old (length recipes.old) }
    ensures recipes { recipes.new ≡ recipes_after sheet.now (length picks.old) recipes.old }
{
    let week = read(sheet)?;
    lent_fault(week, picks.len(), recipes.len())?;
    let plan = choose(week, picks)?;
    write_recipes(plan.choice, week.count, recipes);
    Ok(plan.total)
}

// Document 01: "minus the refusal number".
fn minus(number: u8) -> i32
    ensures { result ≡ minus_of number }
{
    -i32::from(number)
}

// Document 01: "The station's control program is written in C and hands over a sheet as bytes, a picks table and a buffer for
// recipes." The answer and every byte of the two at exit, on every input. Then what follows from these: demand 3.
#[unsafe(no_mangle)]
pub extern "C" fn weekplan_choose(sheet: &[u8], picks: &mut [u8], recipes: &mut [u8]) -> i32
    ensures answer { result ≡ call_answer sheet.now (length picks.old) (length recipes.old) }
    ensures picks { picks.new
        ≡ picks_after sheet.now picks.old (length recipes.old) }
    ensures recipes { recipes.new
        ≡ recipes_after sheet.now (length picks.old) recipes.old }
    ensures best { Planned result → BestCall (sheet_week sheet.now) recipes.new result }
    ensures none { (result ≡ minus_of 14)
        ↔ (WellWritten sheet.now
        × LongTable (sheet_week sheet.now) (length picks.old)
        × LongBuffer (sheet_week sheet.now) (length recipes.old)
        × NoPlan (sheet_week sheet.now)) }
    ensures plans { Planned result
        ↔ (WellWritten sheet.now
        × LongTable (sheet_week sheet.now) (length picks.old)
        × LongBuffer (sheet_week sheet.now) (length recipes.old)
        × SomePlan (sheet_week sheet.now)) }
{
    match plan_into(sheet, picks, recipes) {
        // Sixteen worths of 16 bits sum to less than 2 ^ 31: `try_from` would test what is proved.
        Ok(total) => total as i32,
        Err(fault) => minus(fault.reason.number()),
    }
}
