// The commands of weekdesk.
use text::Bytes;
use week::record::Batch;
use words::numbers::MAX_KEPT;

// A choice, as it is handed in: the recipe of each batch.
#[derive(Clone, Copy, Debug, PartialEq, Eq)]
pub struct Choice {
    pub recipes: Bytes<MAX_KEPT>,
}

// What is lent, a picks table or a log: so many bytes, each of them the value.
#[derive(Clone, Copy, Debug, PartialEq, Eq)]
pub struct Lent {
    pub size: usize,
    pub value: u8,
}

// What a line asks for.
#[derive(Clone, Copy, Debug, PartialEq, Eq)]
pub enum Command {
    // An empty line, or a comment.
    Nothing,
    Week { opening: u16, closing: u16 },
    Batch(Batch),
    Table(Lent),
    Log(Lent),
    Choose,
    Records,
    Check(Choice),
    Run(Choice),
    ShowTable,
    ShowLog,
    List,
    Sheet,
    // Of the book.
    Open { opening: u16, closing: u16 },
    Add(Batch),
    Withdraw { number: u16 },
    Plan,
    Book,
    Hold,
    Help,
}
