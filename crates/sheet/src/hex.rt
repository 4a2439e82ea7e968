// Upper-case hexadecimal, two digits a byte.
ghost use Rattle.std.specs.Prelude.{◌≡◌, ◌+◌, ◌*◌, ◌<◌, length, is_some, unwrap_or};
ghost use Rattle.sheet.specs.Hex.{is_digit, digit_of, byte_at, word_at};

// The value of a digit. Document 01 has upper case alone, where `char::to_digit` takes both.
#[tactic(auto, unfolding(crate::specs::Hex::is_digit, crate::specs::Hex::digit_of))]
pub(crate) fn digit(b: u8) -> Option<u8>
    ensures value { unwrap_or result 0 ≡ digit_of b }
    ensures variant { is_some result ≡ is_digit b }
{
    match b {
        b'0'..=b'9' => Some(b - b'0'),
        b'A'..=b'F' => Some(b - b'A' + 10),
        _ => None,
    }
}

// Byte k of a line, from 0.
#[tactic(auto, using(crate::proofs::Digits::digit_small), unfolding(crate::specs::Hex::byte_at))]
pub(crate) fn byte_at(line: &[u8], k: usize) -> u8
    requires { 2 * k + 1 < length line.now }
    ensures { result ≡ byte_at line.now k }
{
    let high = digit(line[2 * k]).unwrap_or(0);
    let low = digit(line[2 * k + 1]).unwrap_or(0);
    high * 16 + low
}

// Bytes k and k + 1, high byte first.
#[tactic(auto, unfolding(crate::specs::Hex::word_at))]
pub(crate) fn word_at(line: &[u8], k: usize) -> u16
    requires { 2 * k + 3 < length line.now }
    ensures { result ≡ word_at line.now k }
{
    u16::from_be_bytes([byte_at(line, k), byte_at(line, k + 1)])
}
