// One batch more, put in order.
ghost use Rattle.std.specs.Prelude.{◌≡◌, [], ◌∷◌, ◌++◌, IfOk};
ghost use Rattle.week.specs.Refusal.{first_of};
ghost use Rattle.week.specs.Fault.{refusal_of};
ghost use Rattle.week.specs.Order.{ordered};
ghost use Rattle.week.specs.Written.{batches_of, written};
ghost use Rattle.judge.specs.Fault.{WellFormed};
ghost use Rattle.book.specs.Fault.{new_faults, add_fault};
ghost use Rattle.book.specs.Answer.{answered, add_answer};

use crate::book::{Answered, Book};
use judge::fault::accept_list;
use week::number::is_held;
use week::record::{Batch, Week};
use week::refusal::{Fault, Reason};
use week::written::with_batch;

// 4 to 9 of a batch that stands alone in the week of a list: what a list of that batch has against it, naming no place.
fn accept_alone(list: Week, batch: Batch) -> Result<(), Fault>
    requires { WellFormed list }
    ensures { refusal_of result ≡ first_of (new_faults list.closing [] batch) }
{
    let alone = with_batch(Week::empty(list.opening, list.closing), batch);
    if let Err(fault) = accept_list(alone) {
        return Err(fault.in_place(0));
    }
    Ok(())
}

// 4 to 9 of a batch that is new to a list: its own, then a number that is held.
#[tactic(auto, using(crate::proofs::Faults::new_decides))]
fn accept_new(list: Week, batch: Batch) -> Result<(), Fault>
    requires { WellFormed list }
    ensures { refusal_of result ≡ first_of (new_faults list.closing (batches_of list) batch) }
{
    accept_alone(list, batch)?;
    if is_held(list.listed(), batch.number) {
        return Err(Fault::of(Reason::NumberTaken));
    }
    Ok(())
}

// The list with the batch, in order: the held list's own refusal; then 20, then 4 to 9 of the new batch.
#[tactic(auto, using(crate::proofs::Faults::add_decides))]
fn added(list: Week, batch: Batch) -> Result<Week, Fault>
    ensures refusal { refusal_of result ≡ add_fault list batch }
    ensures list { IfOk result (λ after.
        after ≡ written list.opening list.closing (ordered list.opening (batches_of list ++ (batch ∷ [])))) }
{
    let list = accept_list(list)?;
    if Week::MAX_BATCHES <= list.count {
        return Err(Fault::of(Reason::FullBook));
    }
    accept_new(list, batch)?;
    Ok(with_batch(list, batch))
}

// The answer on every book and every batch.
#[tactic(auto, using(crate::proofs::Answering::add_changes))]
pub fn add(book: Book, batch: Batch) -> Answered<()>
    ensures { answered result ≡ add_answer book batch }
{
    book.answer(added(book.list, batch))
}
