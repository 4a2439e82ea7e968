// A week as the scheduling core sees it: the one place where a batch becomes a job.
ghost use Rattle.std.specs.Prelude.{◌≡◌};
ghost use Rattle.planner.specs.Job.{recipe_version, job_from, listed_jobs};

use jobs::model::{Job, JobList, Version};
use std::array;
use week::record::{Batch, Recipe, Week};

// A recipe as a version. No `From`, here and below: neither type is of this crate.
fn version_of(r: Recipe) -> Version
    ensures { result ≡ recipe_version r }
{
    Version {
        minutes: (r.cost != 0).then_some(r.cost),
        worth: u32::from(r.worth),
    }
}

fn job_of(opening: u16, b: Batch) -> Job
    ensures { result ≡ job_from opening b }
{
    Job {
        ready: b.ready(opening),
        due: b.due,
        count: b.count,
        versions: array::from_fn(|k| version_of(b.recipes[k])),
    }
}

// Every place of a list as it stands, the ones beyond its count too: the core looks at the first `count` alone.
pub fn jobs_of(week: Week) -> JobList
    ensures { result ≡ listed_jobs week }
{
    // By number: `map` and `from_fn` were tried, and copy the whole array once more.
    let mut jobs = [job_of(0, Batch::empty()); Week::MAX_BATCHES];
    for (i, &batch) in week.batches.iter().enumerate() {
        jobs[i] = job_of(week.opening, batch);
    }
    JobList {
        count: week.count,
        jobs,
    }
}
