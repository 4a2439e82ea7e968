// The numbers that stand on a line.
ghost use Rattle.std.specs.Prelude.{◌≡◌};
ghost use Rattle.words.specs.Word.{words_of};
ghost use Rattle.words.specs.Numbers.{numbers_of};

use crate::number::number_of;
use crate::word::Words;

// How many numbers of a line are kept; all are counted.
pub const MAX_KEPT: usize = 255;

// Numbers: how many there are, and the first of them. A count beside an array, since more are counted than are kept.
#[derive(Clone, Copy, Debug, PartialEq, Eq)]
pub struct Numbers {
    pub count: usize,
    pub values: [u16; MAX_KEPT],
}

// The numbers that the words of a line are; none where one of them is no number.
pub fn numbers_of(line: &[u8]) -> Option<Numbers>
    ensures { result ≡ numbers_of (words_of line.now) }
{
    let mut values = [0; MAX_KEPT];
    // Counted by hand: the words beyond those that are kept are read as well.
    let mut count = 0;
    for word in Words::of(line) {
        let value = number_of(word)?;
        if count < MAX_KEPT {
            values[count] = value;
        }
        count += 1;
    }
    Some(Numbers { count, values })
}
