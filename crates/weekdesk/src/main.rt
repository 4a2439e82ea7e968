// weekdesk: commands from standard input, one a line, each answered on standard output before more is read.
#![tactic(auto)]

mod commands;
mod desk;
mod help;
mod memory;

use crate::desk::Desk;
use std::io;
use std::io::Read;
use words::line::extended;

// How much is read at once.
const PIECE: usize = 4096;

// Every line that ends in a piece of the input. Where the next one starts is what `extended` answers: no line feed is looked for here.
#[tactic(auto, using(words::proofs::Further::less_left))]
fn take<P: Print>(desk: &mut Desk<'_, P>, piece: &[u8]) -> io::Result<()> {
    let mut from = 0;
    while from < piece.len() {
        let more = extended(desk.line, piece, from);
        desk.line = more.line;
        from = more.next;
        if more.ended {
            desk.obey()?;
        }
    }
    Ok(())
}

fn main(rt: HostRuntime) {
    let mut desk = Desk::at_start(&rt);
    let mut input = rt.reader();
    // More reads than any machine lives to make. It is proved that the program ends, and nothing says that its input does.
    for _ in 0..u64::MAX {
        let mut piece = [0; PIECE];
        let Ok(n) = input.read(&mut piece) else {
            let _ = rt.eprint("weekdesk: the input could not be read\n");
            return;
        };
        let answered = if n == 0 {
            desk.obey()
        } else {
            take(&mut desk, &piece[..n])
        };
        if answered.is_err() {
            let _ = rt.eprint("weekdesk: the answer could not be written\n");
            return;
        }
        if n == 0 {
            return;
        }
    }
}
