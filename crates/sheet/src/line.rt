// The lines of a sheet.
ghost use Rattle.std.specs.Prelude.{◌≡◌, ◌==◌};
ghost use Rattle.arrays.specs.Text.{line_feed};
ghost use Rattle.sheet.specs.Line.{hex_line};

use crate::hex::digit;

// Document 01: "Each line is one frame .., ended by a line feed." `split_inclusive` cuts a sheet after each byte of which this is true.
pub(crate) fn ends_line(b: &u8) -> bool
    ensures { result ≡ (b.now == line_feed) }
{
    *b == b'\n'
}

// Whether a line is digits, ended by a line feed.
pub(crate) fn is_hex_line(line: &[u8]) -> bool
    ensures { result ≡ hex_line line.now }
{
    match line.split_last() {
        Some((last, digits)) => ends_line(last) && digits.iter().all(|b| digit(*b).is_some()),
        None => false,
    }
}
