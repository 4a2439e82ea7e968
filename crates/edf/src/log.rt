// What a log says: how many minutes a position got, when it got the last, and how often the station changed.
ghost use Rattle.std.specs.Prelude.{◌≡◌};
ghost use Rattle.edf.specs.Run.{entries as entries_of, up_to_last, changes as changes_of};

// How many entries of a log are this position; 0 is idle. A loop, which is built to look at sixteen entries at once: `filter` and
// `count` were tried, and look at one at a time.
pub fn entries(log: &[u8], position: u8) -> usize
    ensures { result ≡ entries_of position log.now }
{
    let mut count = 0;
    for &entry in log {
        if entry == position {
            count += 1;
        }
    }
    count
}

// How many entries there are up to the last that is this position; none, and so 0, if no entry is.
#[tactic(auto, using(crate::proofs::Scans::never_last, crate::proofs::Scans::last_at))]
pub(crate) fn up_to_last(log: &[u8], position: u8) -> usize
    ensures { result ≡ up_to_last position log.now }
{
    log.iter()
        .rposition(|&entry| entry == position)
        .map_or(0, |last| last + 1)
}

// The first minute counts as after an idle one. A loop: `windows(2)` has no window that ends at the first minute, which would be
// counted apart, and a `zip` would go over `once(&0).chain(log)`, the log with an idle minute in front.
pub fn changes(log: &[u8]) -> usize
    ensures { result ≡ changes_of log.now }
{
    let mut before = 0;
    let mut changed = 0;
    for &entry in log {
        if entry != 0 && entry != before {
            changed += 1;
        }
        before = entry;
    }
    changed
}
