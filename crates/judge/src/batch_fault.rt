// Refusals 4 to 8 of a batch by itself, but for 7, which the walk over a list asks: fault.rt. They name no place.
ghost use Rattle.std.specs.Prelude.{◌≡◌, ◌≤◌};
ghost use Rattle.week.specs.Record.{max_recipes};
ghost use Rattle.week.specs.Refusal.{first_of};
ghost use Rattle.week.specs.Fault.{refusal_of};
ghost use Rattle.judge.specs.BatchFault.{before_costs, worths_fault};

use week::record::Batch;
use week::refusal::{Fault, Reason};

// 4 to 6, asked before the costs: how many recipes the batch has, its due minute and its arrival.
#[tactic(auto, using(week::proofs::Faults::in_turn))]
pub(crate) fn before_costs(closing: u16, b: Batch) -> Result<(), Fault>
    ensures { refusal_of result ≡ first_of (before_costs closing b) }
{
    if b.count == 0 || Batch::MAX_RECIPES < b.count {
        return Err(Fault::of(Reason::RecipeCount));
    }
    if b.due <= b.arrival {
        return Err(Fault::of(Reason::DueTooSoon));
    }
    if closing <= b.arrival {
        return Err(Fault::of(Reason::ArrivesTooLate));
    }
    Ok(())
}

// 8: a recipe of cost 0 with a worth. Asked of a batch whose count is judged, as what follows here and what draft writes: a type of such
// batches would be made from a batch for each call, and taken apart in it.
pub(crate) fn worths_fault(b: Batch) -> Result<(), Fault>
    requires { b.count ≤ max_recipes }
    ensures { refusal_of result ≡ worths_fault b }
{
    b.recipes[..b.count]
        .iter()
        .position(|r| r.cost == 0 && 0 < r.worth)
        .map_or(Ok(()), |k| {
            Err(Fault {
                recipe: k + 1,
                ..Fault::of(Reason::WorthWithoutCost)
            })
        })
}
