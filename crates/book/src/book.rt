// The book, and what a call that opens or changes it answers.
ghost use Rattle.std.specs.Prelude.{◌≡◌};
ghost use Rattle.book.specs.Answer.{answered, changed};

use week::record::Week;
use week::refusal::Fault;

#[derive(Clone, Copy, Debug, PartialEq, Eq)]
pub struct Book {
    pub list: Week,
}

// Document 02: "Each call hands the book back", a refused one too, so that it stands beside what the call answers.
#[derive(Clone, Copy, Debug, PartialEq, Eq)]
pub struct Answered<T> {
    pub result: Result<T, Fault>,
    pub book: Book,
}

impl Book {
    // A call's answer: "a refused call leaves the book", and an accepted one hands back the list that it makes.
    pub(crate) fn answer(self, list: Result<Week, Fault>) -> Answered<()>
        ensures { answered result ≡ changed self list }
    {
        match list {
            Ok(list) => Answered {
                result: Ok(()),
                book: Book { list },
            },
            Err(fault) => Answered {
                result: Err(fault),
                book: self,
            },
        }
    }
}
