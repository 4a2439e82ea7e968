// The plan of what the book holds: Choose, with the table that is lent.
ghost use Rattle.std.specs.Prelude.{◌≡◌, length};
ghost use Rattle.planner.specs.Choose.{table_after};
ghost use Rattle.book.specs.Answer.{planned, plan_answer};

use crate::book::{Answered, Book};
use planner::choose::{Plan, choose};
use week::order::in_order;

// The answer and every byte of the table at exit, on every book and every table.
#[tactic(auto, using(crate::proofs::Answering::plan_passed, crate::proofs::Answering::plan_failed))]
pub fn plan(book: Book, table: &mut [u8]) -> Answered<Plan>
    ensures answer { planned result ≡ plan_answer book (length table.old) }
    ensures table { table.new ≡ table_after book.list table.old }
{
    let result = choose(book.list, table);
    let book = match result {
        Ok(_) => Book {
            list: in_order(book.list),
        },
        Err(_) => book,
    };
    Answered { result, book }
}
