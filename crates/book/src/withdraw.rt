// One batch less, by its number.
ghost use Rattle.std.specs.Prelude.{◌≡◌, IfOk};
ghost use Rattle.week.specs.Fault.{refusal_of};
ghost use Rattle.week.specs.Order.{ordered};
ghost use Rattle.week.specs.Numbers.{without};
ghost use Rattle.week.specs.Written.{batches_of, written};
ghost use Rattle.book.specs.Fault.{withdraw_fault};
ghost use Rattle.book.specs.Answer.{answered, withdraw_answer};

use crate::book::{Answered, Book};
use judge::fault::accept_list;
use week::number::is_held;
use week::record::Week;
use week::refusal::{Fault, Reason};
use week::written::leave_out;

// The list without the batches of a number, in order: the held list's own refusal, then 21.
#[tactic(auto, using(crate::proofs::Faults::withdraw_decides))]
fn withdrawn(list: Week, number: u16) -> Result<Week, Fault>
    ensures refusal { refusal_of result ≡ withdraw_fault list number }
    ensures list { IfOk result (λ after.
        after ≡ written list.opening list.closing (ordered list.opening (without number (batches_of list)))) }
{
    let list = accept_list(list)?;
    if !is_held(list.listed(), number) {
        return Err(Fault::of(Reason::NumberNotHeld));
    }
    Ok(leave_out(list, number))
}

// The answer on every book and every number.
#[tactic(auto, using(crate::proofs::Answering::withdraw_changes))]
pub fn withdraw(book: Book, number: u16) -> Answered<()>
    ensures { answered result ≡ withdraw_answer book number }
{
    book.answer(withdrawn(book.list, number))
}
