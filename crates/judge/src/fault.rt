// Refusals 1 to 9 of a list, and 13 of a choice, in document 01's order; and a list that passes, in order.
ghost use Rattle.std.specs.Prelude.{◌≡◌, ◌≤◌, length, IfOk};
ghost use Rattle.week.specs.Record.{max_batches, max_recipes};
ghost use Rattle.week.specs.Numbers.{number_in};
ghost use Rattle.week.specs.Refusal.{first_of, first};
ghost use Rattle.week.specs.Fault.{refusal_of};
ghost use Rattle.week.specs.Ordered.{ordered_week};
ghost use Rattle.judge.specs.Fault.{week_fault, number_fault, later_faults, batch_fault, list_fault, choice_fault, handed_faults};

use crate::batch_fault::{before_costs, worths_fault};
use week::number::is_held;
use week::order::in_order;
use week::record::{Batch, Week};
use week::refusal::{Fault, Reason};

// 1 to 3: the minutes of the week, and how many batches it has.
#[tactic(auto, using(week::proofs::Faults::in_turn), unfolding(crate::specs::Fault::week_fault))]
fn week_fault(week: Week) -> Result<(), Fault>
    ensures { refusal_of result ≡ week_fault week }
{
    if week.closing <= week.opening {
        return Err(Fault::of(Reason::ClosesTooSoon));
    }
    if Week::MAX_MINUTES < week.closing - week.opening {
        return Err(Fault::of(Reason::LastsTooLong));
    }
    if Week::MAX_BATCHES < week.count {
        return Err(Fault::of(Reason::TooManyBatches));
    }
    Ok(())
}

// 9: number 0, or that of a batch that stands earlier.
#[tactic(auto, unfolding(crate::specs::Fault::number_fault, week::specs::Numbers::is_held, week::specs::Refusal::refused_if))]
fn number_fault(earlier: &[Batch], b: Batch) -> Result<(), Fault>
    ensures { refusal_of result ≡ number_fault (number_in earlier.now) (length earlier.now) b }
{
    if b.number == 0 || is_held(earlier, b.number) {
        return Err(Fault::of(Reason::NumberTaken));
    }
    Ok(())
}

// 8 and 9, asked after the costs, of a batch after those that stand earlier.
#[tactic(auto, using(week::proofs::Faults::in_turn))]
fn after_costs(earlier: &[Batch], b: Batch) -> Result<(), Fault>
    requires { b.count ≤ max_recipes }
    ensures { refusal_of result ≡ first_of (later_faults earlier.now b) }
{
    worths_fault(b)?;
    number_fault(earlier, b)
}

// 4 to 9, batch by batch, each in its place. Document 01: "Refusal 7 names the first faulty recipe of the first faulty batch", and of its
// form: "Nested loops over batches and recipes, left by a label that yields the refusal with both positions."
fn batches_fault(week: Week) -> Result<(), Fault>
    requires { week.count ≤ max_batches }
    ensures { refusal_of result ≡ first (batch_fault week) 0 week.count }
{
    'batches: {
        for (i, b) in week.listed().iter().enumerate() {
            if let Err(early) = before_costs(week.closing, *b) {
                break 'batches Err(early.in_place(i + 1));
            }
            // By number, which the refusal names. In the pairs that `zip` gives of two parts it would be `k + 2`, and `windows(2)` would
            // give the two as a part to be taken apart again.
            for k in 1..b.count {
                let r = b.recipes[k];
                let q = b.recipes[k - 1];
                if q.cost < r.cost || q.cost == 0 {
                    break 'batches Err(Fault {
                        reason: Reason::CostRises,
                        place: i + 1,
                        recipe: k + 1,
                    });
                }
            }
            if let Err(later) = after_costs(&week.batches[..i], *b) {
                break 'batches Err(later.in_place(i + 1));
            }
        }
        Ok(())
    }
}

// 1 to 9: the first that holds of a list as it is handed in; and one that passes, in order.
#[tactic(auto, using(week::proofs::Faults::in_turn, crate::proofs::Sound::week_most), unfolding(crate::specs::Fault::list_fault))]
pub fn accept_list(week: Week) -> Result<Week, Fault>
    ensures refusal { refusal_of result ≡ list_fault week }
    ensures list { IfOk result (λ list. list ≡ ordered_week week) }
{
    week_fault(week)?;
    batches_fault(week)?;
    Ok(in_order(week))
}

// 13: a choice of another length than the list, or a recipe that its batch has not got.
#[tactic(auto, using(week::proofs::Faults::in_turn), unfolding(crate::specs::Fault::choice_fault))]
fn choice_fault(week: Week, choice: &[u8]) -> Result<(), Fault>
    requires { week.count ≤ max_batches }
    ensures { refusal_of result ≡ choice_fault week choice.now }
{
    let fault = Fault::of(Reason::NoSuchChoice);
    if choice.len() != week.count {
        return Err(fault);
    }
    choice
        .iter()
        .zip(week.listed())
        .position(|(k, batch)| *k == 0 || batch.count < usize::from(*k))
        .map_or(Ok(()), |i| Err(fault.in_place(i + 1)))
}

// 1 to 9 of a list, then 13 of the choice that is handed in with it, over the list in order; and that list.
#[tactic(auto, using(week::proofs::Faults::in_turn, crate::proofs::Sound::list_most))]
pub fn accept_handed(week: Week, choice: &[u8]) -> Result<Week, Fault>
    ensures refusal { refusal_of result ≡ first_of (handed_faults week choice.now) }
    ensures list { IfOk result (λ list. list ≡ ordered_week week) }
{
    let list = accept_list(week)?;
    choice_fault(list, choice)?;
    Ok(list)
}
