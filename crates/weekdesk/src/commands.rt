// The commands: what answers them, each a method of the desk, and which of all a line is.
use crate::desk::Desk;
use crate::help::HELP;
use answer::operation::{check_text, choose_text, no_command_text, ok_text, plan_text, run_text};
use book::add::add;
use book::book::{Answered, Book};
use book::open::open;
use book::withdraw::withdraw;
use command::command::{Choice, Command};
use command::command_of;
use draft::frames::sheet_text;
use draft::list::list_text;
use draft::record::{Draft, of_week, week_of, with_batch};
use lent::shown::shown_text;
use records::choose::choose_records;
use std::io;
use week::refusal::Refusal;

impl<'a, P: Print> Desk<'a, P> {
    fn choose(&mut self) -> io::Result<()> {
        let text = choose_text(week_of(self.draft), self.table.lent_mut());
        self.answer(&text)
    }

    // `records`: ‘as `choose`, by lent records; the list written down is then as the records are left’
    // A copy of the batches is lent and stored back: today's Rattle covers no field of `self` that is lent beside another.
    fn records(&mut self) -> io::Result<()> {
        let mut batches = self.draft.batches;
        let records = batches.as_mut_slice();
        let kept = self.draft.count.min(records.len());
        let planned = choose_records(
            self.draft.opening,
            self.draft.closing,
            &mut records[..kept],
            self.table.lent_mut(),
        );
        self.draft.batches = batches;
        self.answer(&plan_text(planned.map_err(Refusal::from), kept))
    }

    fn check(&self, choice: Choice) -> io::Result<()> {
        self.answer(&check_text(week_of(self.draft), choice.recipes.as_slice()))
    }

    fn run(&mut self, choice: Choice) -> io::Result<()> {
        let recipes = choice.recipes.as_slice();
        let text = run_text(week_of(self.draft), recipes, self.log.lent_mut());
        self.answer(&text)
    }

    // `show table`, `show log`: the word, then every byte lent.
    fn show(&self, word: &[u8], lent: &[u8]) -> io::Result<()> {
        self.say(word)?;
        self.answer(&shown_text(lent))
    }

    fn list(&self, draft: Draft) -> io::Result<()> {
        self.answer(&list_text(draft))
    }

    fn sheet(&self) -> io::Result<()> {
        self.answer(&sheet_text(self.draft))
    }

    // `open`, `add`, `withdraw`: the book that the call hands back, and `ok` or the refusal.
    fn keep(&mut self, answered: Answered<()>) -> io::Result<()> {
        self.book = answered.book;
        self.answer(&ok_text(answered.result.map_err(Refusal::from)))
    }

    // `plan`: as `choose`, of the list that the book holds.
    fn plan(&mut self) -> io::Result<()> {
        let count = self.book.list.count;
        let planned = book::plan::plan(self.book, self.table.lent_mut());
        self.book = planned.book;
        self.answer(&plan_text(planned.result.map_err(Refusal::from), count))
    }

    // The command that the line is.
    pub fn obey(&mut self) -> io::Result<()> {
        let command = command_of(&self.line);
        self.end_line();
        let Some(command) = command else {
            return self.answer(&no_command_text(self.lines));
        };
        match command {
            Command::Nothing => {}
            Command::Week { opening, closing } => self.draft = Draft::empty(opening, closing),
            Command::Batch(batch) => self.draft = with_batch(self.draft, batch),
            Command::Table(lent) => self.table.lend(lent),
            Command::Log(lent) => self.log.lend(lent),
            Command::Choose => self.choose()?,
            Command::Records => self.records()?,
            Command::Check(choice) => self.check(choice)?,
            Command::Run(choice) => self.run(choice)?,
            Command::ShowTable => self.show(b"table", self.table.lent())?,
            Command::ShowLog => self.show(b"log", self.log.lent())?,
            Command::List => self.list(self.draft)?,
            Command::Sheet => self.sheet()?,
            Command::Open { opening, closing } => self.keep(open(opening, closing))?,
            Command::Add(batch) => self.keep(add(self.book, batch))?,
            Command::Withdraw { number } => self.keep(withdraw(self.book, number))?,
            Command::Plan => self.plan()?,
            // ‘the book's list as `list` prints one’
            Command::Book => self.list(of_week(self.book.list))?,
            // ‘the book now holds the list written down, as it stands’
            Command::Hold => self.book = Book {
                list: week_of(self.draft),
            },
            Command::Help => self.say(HELP)?,
        }
        Ok(())
    }
}
