// Reading off: the best choice for a close, by the picks of a filled table.
ghost use Rattle.std.specs.Prelude.{◌≡◌};
ghost use Rattle.jobs.specs.Model.{jobs_of};
ghost use Rattle.jobs.specs.Best.{best};
ghost use Rattle.select.specs.Contract.{Readable, best_choice};

use jobs::model::JobList;

// The best choice, in list order. It goes from the last job to the first: each pick is looked up under the bound that the jobs after
// it leave. No struct holds what the table is read with: it would be made for the one call and taken apart in it.
pub fn read_off(
    list: JobList,
    opening: u16,
    width: usize,
    close: u16,
    table: &[u8],
) -> Option<[u8; JobList::MAX_JOBS]>
    requires { Readable list opening width close table.now }
    ensures { result ≡ best_choice (best (jobs_of list) close) }
{
    let mut choice = [0; JobList::MAX_JOBS];
    let mut bound = close;
    // Stored by number: after a `zip` with what is written a proof knows none of its entries; and the number tells the row of the table.
    for (at, j) in list.jobs[..list.count].iter().enumerate().rev() {
        let m = usize::from(bound - opening);
        let k = table[at * width + m];
        if k == 0 {
            return None;
        }
        choice[at] = k;
        let s = j.stretch(j.version(k), bound);
        bound = s.start;
    }
    Some(choice)
}
