// A word as a number: docs/WEEKDESK.md, "Lines".
ghost use Rattle.std.specs.Prelude.{◌≡◌};
ghost use Rattle.words.specs.Number.{number_of};

// The most digits of a number. No value of so many is past a `u32`.
const MAX_DIGITS: usize = 5;

// ‘A number is one to five decimal digits, at most 65,535.’
pub fn number_of(word: &[u8]) -> Option<u16>
    ensures { result ≡ number_of word.now }
{
    if word.is_empty() || MAX_DIGITS < word.len() {
        return None;
    }
    // Digit by digit: `parse` would take a sign as well.
    let mut value: u32 = 0;
    for &b in word {
        if !b.is_ascii_digit() {
            return None;
        }
        value = value * 10 + u32::from(b - b'0');
    }
    u16::try_from(value).ok()
}
