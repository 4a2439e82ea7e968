// The desk's program: a sheet from standard input, its report to standard output.
#![tactic(auto)]

mod input;

use crate::input::read_sheet;
use report::report;
use sheet::read::MAX_BYTES;

fn main(rt: HostRuntime) {
    // One byte more than the longest sheet that is read, so that a longer one is told from it.
    let mut sheet = [0; MAX_BYTES + 1];
    let Ok(len) = read_sheet(&mut rt.reader(), &mut sheet) else {
        let _ = rt.eprint("weekplan: the sheet could not be read\n");
        return;
    };
    if rt.write_all(report(&sheet[..len]).as_bytes()).is_err() {
        let _ = rt.eprint("weekplan: the report could not be written\n");
    }
}
