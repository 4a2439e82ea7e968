// An empty book of a week.
ghost use Rattle.std.specs.Prelude.{◌≡◌, IfOk};
ghost use Rattle.week.specs.Record.{empty_week};
ghost use Rattle.week.specs.Fault.{refusal_of};
ghost use Rattle.book.specs.Fault.{open_fault};
ghost use Rattle.book.specs.Answer.{answered, open_answer};

use crate::book::{Answered, Book};
use judge::fault::accept_list;
use week::record::Week;
use week::refusal::Fault;

// An empty list can be refused for its minutes alone: 1 and 2.
#[tactic(auto, using(crate::proofs::Faults::empty_fault))]
fn opened(opening: u16, closing: u16) -> Result<Week, Fault>
    ensures refusal { refusal_of result ≡ open_fault opening closing }
    ensures list { IfOk result (λ list. list ≡ empty_week opening closing) }
{
    let list = Week::empty(opening, closing);
    accept_list(list)?;
    Ok(list)
}

// The answer on every input.
#[tactic(auto, using(crate::proofs::Answering::open_changes))]
pub fn open(opening: u16, closing: u16) -> Answered<()>
    ensures { answered result ≡ open_answer opening closing }
{
    let none = Book {
        list: Week::empty(0, 0),
    };
    none.answer(opened(opening, closing))
}
