// Upper-case hexadecimal, two digits a byte. Not the kit's crate `hex`: its `encode_upper` allocates, and its `encode_to_slice` writes
// lower case.
ghost use Rattle.std.specs.Prelude.{◌≡◌, ◌+◌, ◌≤◌, ◌<◌, ◌++◌, length};
ghost use Rattle.draft.specs.Sheet.{hex_digit, hex_byte, hex_value};

use text::Text;

// The digit of a number below 16.
#[tactic(auto, using(crate::proofs::Digits::digit_listed))]
fn hex_digit(n: u8) -> u8
    requires { n < 16 }
    ensures { result ≡ hex_digit n }
{
    b"0123456789ABCDEF"[usize::from(n)]
}

// A byte.
#[tactic(auto, unfolding(crate::specs::Sheet::hex_byte))]
pub(crate) fn put_byte<const N: usize>(text: &mut Text<N>, b: u8)
    requires { length text.old + 2 ≤ N }
    ensures part { text.new ≡ text.old ++ hex_byte b }
    ensures width { length text.new ≡ length text.old + 2 }
{
    text.put(&[hex_digit(b / 16), hex_digit(b % 16)]);
}

// Document 01: "Values of two bytes stand high byte first."
#[tactic(auto, unfolding(crate::specs::Sheet::hex_value))]
pub(crate) fn put_value<const N: usize>(text: &mut Text<N>, v: u16)
    requires { length text.old + 4 ≤ N }
    ensures part { text.new ≡ text.old ++ hex_value v }
    ensures width { length text.new ≡ length text.old + 4 }
{
    let [high, low] = v.to_be_bytes();
    put_byte(text, high);
    put_byte(text, low);
}
