// What the desk has written down, its book, and what it has lent.
use crate::memory::Memory;
use book::book::Book;
use draft::record::Draft;
use lent::{MAX_LOG, MAX_TABLE};
use planner::choose::MAX_PICKS;
use std::io;
use text::Text;
use week::record::Week;
use words::line::Line;

#[derive(Drop)]
pub(crate) struct Desk<'a, P: Print> {
    // Where it is answered.
    rt: &'a P,
    // The list.
    pub draft: Draft,
    pub book: Book,
    // The picks table and the log.
    pub table: Memory<MAX_TABLE>,
    pub log: Memory<MAX_LOG>,
    // What has come of the line that is being read, and how many lines came before it.
    pub line: Line,
    pub lines: u64,
}

impl<'a, P: Print> Desk<'a, P> {
    // At the start the list is `week 0 0`, the book is an empty one of that week, and table and log are as long as any list needs.
    pub fn at_start(rt: &'a P) -> Self {
        Desk {
            rt,
            draft: Draft::empty(0, 0),
            book: Book {
                list: Week::empty(0, 0),
            },
            table: Memory::zeros(MAX_PICKS),
            log: Memory::zeros(usize::from(Week::MAX_MINUTES)),
            line: Line::empty(),
            lines: 0,
        }
    }

    // After a line has ended: the next one is empty.
    pub fn end_line(&mut self) {
        self.lines = self.lines.saturating_add(1);
        self.line = Line::empty();
    }

    pub fn say(&self, bytes: &[u8]) -> io::Result<()> {
        self.rt.write_all(bytes)
    }

    pub fn answer<const N: usize>(&self, text: &Text<N>) -> io::Result<()> {
        self.say(text.as_bytes())
    }
}
