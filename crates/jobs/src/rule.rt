// The backward rule: what it asks at one job, and the pass over all of them from the last to the first.
ghost use Rattle.std.specs.Prelude.{◌≡◌, true};
ghost use Rattle.jobs.specs.Model.{jobs_of, chosen};
ghost use Rattle.jobs.specs.Rule.{end_of, fits as fits_of, stretch_of};
ghost use Rattle.jobs.specs.Contract.{Names, stretched};

use crate::model::{Job, JobList, Version};

// The minutes that the rule keeps for a job: from start to end, end not counted.
#[derive(Clone, Copy, Debug, PartialEq, Eq)]
pub struct Stretch {
    pub start: u16,
    pub end: u16,
}

// A choice does not meet the rule: the first position, counted from 1, that fails going backward.
#[derive(Clone, Copy, Debug, PartialEq, Eq)]
pub struct Failing {
    pub position: usize,
}

impl Job {
    // Where the stretch of a version that is read ends.
    fn stretch_end(self, bound: u16) -> u16
        ensures { result ≡ end_of self bound }
    {
        self.due.min(bound)
    }

    // Whether a version of this job meets the rule under a bound.
    #[tactic(auto, unfolding(crate::specs::Rule::fits))]
    fn fits(self, version: Version, bound: u16) -> bool
        ensures { result ≡ fits_of self version bound }
    {
        version.minutes.is_none_or(|minutes| {
            u32::from(self.ready) + u32::from(minutes) <= u32::from(self.stretch_end(bound))
        })
    }

    // The stretch of a version of this job under a bound.
    #[tactic(auto, unfolding(crate::specs::Rule::fits, crate::specs::Rule::stretch_of))]
    pub fn stretch(self, version: Version, bound: u16) -> Stretch
        requires { fits_of self version bound ≡ true }
        ensures { result ≡ stretch_of self version bound }
    {
        let Some(minutes) = version.minutes else {
            return Stretch {
                start: bound,
                end: bound,
            };
        };
        let end = self.stretch_end(bound);
        Stretch {
            start: end - minutes,
            end,
        }
    }
}

// Going backward from the close: the stretches of a choice, each in its job's place, or the first position that fails.
pub fn stretch_all(
    list: JobList,
    close: u16,
    choice: &[u8],
) -> Result<[Stretch; JobList::MAX_JOBS], Failing>
    requires { Names list choice.now }
    ensures { result ≡ stretched (jobs_of list) close (chosen list choice.now) }
{
    let mut stretches = [Stretch { start: 0, end: 0 }; JobList::MAX_JOBS];
    let mut bound = close;
    // Stored by number: after a `zip` with what is written a proof knows none of its entries.
    for (i, job) in list.jobs[..list.count].iter().enumerate().rev() {
        let version = job.version(choice[i]);
        if !job.fits(version, bound) {
            return Err(Failing { position: i + 1 });
        }
        let stretch = job.stretch(version, bound);
        stretches[i] = stretch;
        bound = stretch.start;
    }
    Ok(stretches)
}
