// The paper's own model: versions, jobs, a list of jobs.
ghost use Rattle.std.specs.Prelude.{◌≡◌, ◌≤◌};
ghost use Rattle.jobs.specs.Model.{max_versions, version_of};

// One way to read a job. Document 01 calls it a recipe.
#[derive(Clone, Copy, Debug, PartialEq, Eq)]
pub struct Version {
    // The minutes that the station reads the job for; None: it is set aside.
    pub minutes: Option<u16>,
    // Wide enough for a written worth times a weight.
    pub worth: u32,
}

// Document 01 calls it a batch. By value, an array with a count, as 01 holds a list and its recipes.
#[derive(Clone, Copy, Debug, PartialEq, Eq)]
pub struct Job {
    pub ready: u16,
    pub due: u16,
    pub count: usize,
    pub versions: [Version; Job::MAX_VERSIONS],
}

impl Job {
    pub const MAX_VERSIONS: usize = 10;

    // Version k of this job, counted from 1.
    pub fn version(self, k: u8) -> Version
        requires { (1 ≤ k) × (k ≤ max_versions) }
        ensures { result ≡ version_of self k }
    {
        self.versions[usize::from(k) - 1]
    }
}

// The jobs of a week, in list order: the first `count` of the array. By value, as 01 holds a list. `jobs[..count]` are they, where a list
// counts no more than it has places for, and a method's name would say no more.
#[derive(Clone, Copy, Debug, PartialEq, Eq)]
pub struct JobList {
    pub count: usize,
    pub jobs: [Job; JobList::MAX_JOBS],
}

impl JobList {
    pub const MAX_JOBS: usize = 16;

    // The week's limit, in minutes from the opening to the close. A row of the dynamic programme has one entry more, both ends
    // counted.
    pub const MAX_SPAN: u16 = 2400;
}
