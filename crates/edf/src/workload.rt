// What the station has to read.
ghost use Rattle.std.specs.Prelude.{◌≡◌};
ghost use Rattle.jobs.specs.Contract.{Names};
ghost use Rattle.edf.specs.Workload.{is_pending, workload_of};

use jobs::model::JobList;

// One job as the station sees it: the minute from which it can be read, the minutes to read, and whether it is set aside. A job that has
// nothing to read need not be, and the run asks for the minutes alone: one that is set aside and has some is read.
#[derive(Clone, Copy, Debug, PartialEq, Eq)]
pub struct Task {
    pub ready: u16,
    pub minutes: u16,
    pub aside: bool,
}

impl Task {
    // Whether the station can read the job in this minute.
    pub(crate) fn is_pending(self, minute: u16) -> bool
        ensures { result ≡ is_pending minute self }
    {
        self.ready <= minute && 0 < self.minutes
    }
}

// The tasks of a list's jobs, in list order: the first `count` of the array, by value as the list is.
#[derive(Clone, Copy, Debug, PartialEq, Eq)]
pub struct Workload {
    pub count: usize,
    pub tasks: [Task; JobList::MAX_JOBS],
}

// What a choice, in list order, gives the station to read.
pub fn workload_of(list: JobList, choice: &[u8]) -> Workload
    requires { Names list choice.now }
    ensures { result ≡ workload_of list choice.now }
{
    let mut tasks = [Task {
        ready: 0,
        minutes: 0,
        aside: false,
    }; JobList::MAX_JOBS];
    // By number: after a `zip` with what is written a proof knows none of its entries. `from_fn` was tried: it asks its closure for the
    // places beyond the count too, so that a test of the count and what stands there go into the closure, for one loop less.
    for (i, job) in list.jobs[..list.count].iter().enumerate() {
        let version = job.version(choice[i]);
        tasks[i] = Task {
            ready: job.ready,
            minutes: version.minutes.unwrap_or(0),
            aside: version.minutes.is_none(),
        };
    }
    Workload {
        count: list.count,
        tasks,
    }
}
