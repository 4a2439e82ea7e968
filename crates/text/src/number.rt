// The numbers that a text takes: document 01's "Numbers are decimal.", of every unsigned type.
#![tactic(auto, using(crate::proofs::Decimals::printed))]

ghost use Rattle.std.specs.Prelude.{ℕ, ◌≡◌};
ghost use Rattle.text.specs.Decimal.{decimal};

use itoa::Buffer;

// Each type has an impl of its own, since the kit takes no impls that a macro of the repository writes. By `itoa::Integer` alone a text
// is std's `decimal`, so that each caller would owe `printed` of each number; and after `write!` nothing says that there was room.
pub trait Number: Copy {
    ghost value: { Self → ℕ };

    fn digits(self, buffer: &mut Buffer) -> &str
        ensures { result.now ≡ decimal (value self) };
}

impl Number for u8 {
    ghost value = { λ n. n };

    fn digits(self, buffer: &mut Buffer) -> &str {
        buffer.format(self)
    }
}

impl Number for u16 {
    ghost value = { λ n. n };

    fn digits(self, buffer: &mut Buffer) -> &str {
        buffer.format(self)
    }
}

impl Number for u32 {
    ghost value = { λ n. n };

    fn digits(self, buffer: &mut Buffer) -> &str {
        buffer.format(self)
    }
}

impl Number for u64 {
    ghost value = { λ n. n };

    fn digits(self, buffer: &mut Buffer) -> &str {
        buffer.format(self)
    }
}

impl Number for usize {
    ghost value = { λ n. n };

    fn digits(self, buffer: &mut Buffer) -> &str {
        buffer.format(self)
    }
}
