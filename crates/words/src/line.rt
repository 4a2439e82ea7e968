// Lines that come in pieces of any size.
ghost use Rattle.std.specs.Prelude.{◌≡◌};
ghost use Rattle.words.specs.Line.{no_line, with_bytes, extended_by};

use crate::place::first_place;

pub const LINE_FEED: u8 = b'\n';

// The longest line that is read, its line feed not counted.
pub const MAX_LINE: usize = 4096;

// What is held of a line: one byte more than the longest, so that a longer one is told from it.
const HELD: usize = MAX_LINE + 1;

// The first bytes of a line, as far as they have come. A length beside an array, and any length: a list of at most so many bytes would ask
// more of whoever makes a line.
#[derive(Clone, Copy, Debug, PartialEq, Eq)]
pub struct Line {
    pub bytes: [u8; HELD],
    pub len: usize,
}

// By `empty`, of which a clause says what it holds.
impl Default for Line {
    ghost is_default = { λ line. line ≡ no_line };

    fn default() -> Line {
        Line::empty()
    }
}

impl Line {
    pub fn empty() -> Line
        ensures { result ≡ no_line }
    {
        Line {
            bytes: [0; HELD],
            len: 0,
        }
    }

    // With as many more bytes as there is room for.
    fn with_bytes(mut self, bytes: &[u8]) -> Line
        ensures { result ≡ with_bytes self bytes.now }
    {
        let at = self.len.min(HELD);
        let fits = bytes.len().min(HELD - at);
        self.bytes[at..at + fits].copy_from_slice(&bytes[..fits]);
        self.len += fits;
        self
    }
}

// A line after more of it has come, where the next one starts, and whether this one has ended.
#[derive(Clone, Copy, Debug, PartialEq, Eq)]
pub struct Extension {
    pub line: Line,
    pub next: usize,
    pub ended: bool,
}

// A line with the bytes of a piece from `from` on, up to the line feed that ends it or the end of the piece. A place in the piece, and not
// the rest of it: `extended_by`, of which the laws of lines in pieces speak (docs/PROMISES.md), starts at a place and tells one.
#[tactic(auto, using(crate::proofs::Feeds::rest_of, crate::proofs::Feeds::extended_first, crate::proofs::Feeds::extended_all))]
pub fn extended(line: Line, piece: &[u8], from: usize) -> Extension
    ensures { result ≡ extended_by line piece.now from }
{
    let rest = &piece[from.min(piece.len())..];
    match first_place(LINE_FEED, rest) {
        Some(len) => Extension {
            line: line.with_bytes(&rest[..len]),
            next: from + len + 1,
            ended: true,
        },
        None => Extension {
            line: line.with_bytes(rest),
            next: from + rest.len(),
            ended: false,
        },
    }
}
