// A text in fixed memory, written from left to right.
ghost use Rattle.std.specs.Prelude.{◌≡◌, ◌+◌, ◌≤◌, [], ◌∷◌, ◌++◌, map, length};
ghost use Rattle.arrays.specs.Text.{space};
ghost use Rattle.text.specs.Decimal.{decimal};
ghost use Rattle.text.specs.Line.{named, spaced};

use crate::fixed::Bytes;
use crate::number::Number;
use itoa::Buffer;
use std::marker::Model;

// A text of at most `N` bytes. A clause sees it as the list of its bytes. Each method asks for the room of what it puts, by its part:
// a caller's proof adds parts up, and no struct has to say how much room is left.
#[derive(Clone, Copy, Debug, PartialEq, Eq)]
pub struct Text<const N: usize> {
    bytes: Bytes<N>,
}

impl<const N: usize> Model for Text<N> {
    ghost use Rattle.std.specs.Prelude.{ℕ, List};

    ghost Value = { List ℕ };

    ghost view = { λ text. text.bytes };

    // The field again, which a copy and the derived `==` read.
    ghost inverse = { λ bytes. record { bytes = bytes } };
}

impl<const N: usize> Text<N> {
    pub fn new() -> Self
        ensures { result ≡ [] }
    {
        Text {
            bytes: Bytes::new(),
        }
    }

    pub fn as_bytes(&self) -> &[u8]
        ensures bytes { result.now ≡ self.now }
        ensures fits { length result.now ≤ N }
    {
        self.bytes.as_slice()
    }

    // The bytes of a part.
    pub fn put(&mut self, part: &[u8])
        requires { length self.old + length part.now ≤ N }
        ensures { self.new ≡ self.old ++ part.now }
    {
        self.bytes.extend(part);
    }

    // A number in decimal.
    pub fn put_decimal<I: Number>(&mut self, n: I)
        requires { length self.old + length (decimal (I.value n)) ≤ N }
        ensures { self.new ≡ self.old ++ decimal (I.value n) }
    {
        self.put(n.digits(&mut Buffer::new()).as_bytes());
    }

    // A space, and a number in decimal.
    fn put_number<I: Number>(&mut self, n: I)
        requires { length self.old + length (space ∷ decimal (I.value n)) ≤ N }
        ensures { self.new ≡ self.old ++ (space ∷ decimal (I.value n)) }
    {
        self.put(b" ");
        self.put_decimal(n);
    }

    // A word, and a number after it.
    pub fn put_named<I: Number>(&mut self, word: &[u8], n: I)
        requires { length self.old + length (named word.now (I.value n)) ≤ N }
        ensures { self.new ≡ self.old ++ named word.now (I.value n) }
    {
        self.put(word);
        self.put_number(n);
    }

    // Numbers, each after a space.
    #[tactic(auto, unfolding(crate::specs::Line::spaced))]
    pub fn put_numbers<I: Number>(&mut self, numbers: &[I])
        requires { length self.old + length (spaced (map (λ n. decimal (I.value n)) numbers.now)) ≤ N }
        ensures { self.new ≡ self.old ++ spaced (map (λ n. decimal (I.value n)) numbers.now) }
    {
        for &n in numbers {
            self.put_number(n);
        }
    }
}
