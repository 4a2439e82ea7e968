// The sum of the chosen worths.
ghost use Rattle.std.specs.Prelude.{◌≡◌};
ghost use Rattle.jobs.specs.Model.{jobs_of, chosen};
ghost use Rattle.jobs.specs.Choice.{total as total_of};
ghost use Rattle.jobs.specs.Contract.{Answerable};

use crate::model::JobList;

// Document 01: "Totals are worked out inside in 64 bits and answered in 32."
pub fn total(list: JobList, choice: &[u8]) -> u32
    requires { Answerable list choice.now }
    ensures { result ≡ total_of (jobs_of list) (chosen list choice.now) }
{
    let mut sum: u64 = 0;
    for (job, &k) in list.jobs[..list.count].iter().zip(choice) {
        sum += u64::from(job.version(k).worth);
    }
    // The worths are such that 32 bits hold their sum, `Answerable`: `try_from` would test what is proved.
    sum as u32
}
