// Filling the table: a row of picks for each job, in list order.
ghost use Rattle.std.specs.Prelude.{◌≡◌, ℕ, ◌<◌, length, get_or};
ghost use Rattle.jobs.specs.Model.{no_job, jobs_of};
ghost use Rattle.select.specs.Word.{Packable};
ghost use Rattle.select.specs.Table.{filled};
ghost use Rattle.select.specs.Contract.{Fillable};

use crate::row::fill_row;
use crate::word::NO_JOBS;
use jobs::model::JobList;

// The entries of a row for the longest week. By `as`, since `From` is not const.
const ROW: usize = (JobList::MAX_SPAN as usize) + 1;

// Document 01, "The picks table". A row has `width` entries, one for each close from the opening on. Worths are bounded so that 32
// bits hold every word. No struct holds the list, the opening, the width and the table: it would be made for the one call and taken
// apart in it.
pub fn fill(list: JobList, opening: u16, width: usize, table: &mut [u8])
    requires fillable { Fillable list opening width (length table.old) }
    requires packable { (i : ℕ) → i < list.count → Packable (get_or list.jobs i no_job) }
    ensures { table.new ≡ filled (jobs_of list) opening width table.old }
{
    let mut scores = [0u32; ROW];
    let mut words = [0u32; ROW];
    scores[..width].fill(NO_JOBS);
    let mut from = 0;
    for (i, j) in list.jobs[..list.count].iter().enumerate() {
        // By number: after `chunks_exact_mut`, which takes no width of 0, a proof knows no entry of the table.
        let at = i * width;
        from = fill_row(
            *j,
            opening,
            from,
            &mut scores[..width],
            &mut words[..width],
            &mut table[at..at + width],
        );
    }
}
