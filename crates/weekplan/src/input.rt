// Standard input, up to a number of bytes.
ghost use Rattle.std.specs.Prelude.{◌≤◌, length, IfOk};

use std::io;
use std::io::Read;

// Reads until the input ends or there is no more room, and answers how many bytes came.
pub(crate) fn read_sheet<R: Read>(input: &mut R, sheet: &mut [u8]) -> io::Result<usize>
    ensures { IfOk result (λ len. len ≤ length sheet.new) }
{
    let mut len = 0;
    // As long as more comes: a reader tells beforehand neither how often it must be asked nor how much it has.
    while len < sheet.len() {
        let more = input.read(&mut sheet[len..])?;
        if more == 0 {
            break;
        }
        len += more;
    }
    Ok(len)
}
