// The words of a line.
ghost use Rattle.std.specs.Prelude.{◌≡◌, ◌==◌, not, position};
ghost use Rattle.std.specs.Iterator.{item_count};
ghost use Rattle.arrays.specs.Text.{space};
ghost use Rattle.words.specs.Word.{words_left, YieldsWord};

use crate::place::first_place;

// The words of a line, one after the other.
#[derive(Drop, Clone, Debug, PartialEq, Eq)]
pub struct Words<'a> {
    // What is left of the line.
    pub rest: &'a [u8],
}

impl<'a> Words<'a> {
    pub fn of(line: &'a [u8]) -> Self
        ensures { result.rest.now ≡ line.now }
    {
        Words { rest: line }
    }
}

// Where the first word starts, if there is one. Tried within `next`, and the proof did not close: after `?` it has the calls of `position`,
// and not the place that they found.
fn word_start(line: &[u8]) -> Option<usize>
    ensures { result ≡ position (λ b. not (b == space)) line.now }
{
    line.iter().position(|&b| b != b' ')
}

impl<'a> Iterator for Words<'a> {
    type Item = &'a [u8];

    ghost next_gives = { YieldsWord };

    ghost remaining = { item_count words_left };

    fn next(&mut self) -> Option<&'a [u8]> {
        let start = word_start(self.rest)?;
        let rest = &self.rest[start..];
        let end = first_place(b' ', rest).unwrap_or(rest.len());
        let (word, after) = rest.split_at(end);
        self.rest = after;
        Some(word)
    }
}
