// What became of a job in a run.
ghost use Rattle.std.specs.Prelude.{◌≡◌, ◌+◌, ◌≤◌, length};
ghost use Rattle.arrays.specs.Bits.{max16};
ghost use Rattle.edf.specs.Run.{outcome_of};

use crate::log::{entries, up_to_last};

// Document 01: "For each batch the run answers one of: set aside; finished, with the minute after its last;
// unfinished, with the minutes left."
#[derive(Clone, Copy, Debug, PartialEq, Eq)]
pub enum Outcome {
    SetAside,
    Finished(u16),
    Unfinished(u16),
}

// Of the job at a position, whose minutes to read are given, after a log that starts at the opening.
#[tactic(auto, using(crate::proofs::Counts::short), unfolding(crate::specs::Run::outcome_of))]
pub fn outcome_of(aside: bool, minutes: u16, opening: u16, log: &[u8], position: u8) -> Outcome
    requires { opening + length log.now ≤ max16 }
    ensures { result ≡ outcome_of aside minutes opening log.now position }
{
    if aside {
        return Outcome::SetAside;
    }
    // The log ends at a minute that 16 bits hold, and so they hold each count of its minutes: `try_from` would test what is proved.
    let got = entries(log, position) as u16;
    if minutes <= got {
        return Outcome::Finished(opening + (up_to_last(log, position) as u16));
    }
    Outcome::Unfinished(minutes - got)
}
