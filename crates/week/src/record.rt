// The records that the desk hands in, and their limits.
ghost use Rattle.std.specs.Prelude.{ℕ, ◌<◌, ◌≤◌, min, ◌≡◌, get_or};
ghost use Rattle.week.specs.Record.{max_batches, max_recipes, no_recipe, empty_batch, empty_listing, ready_of, span_of};
ghost use Rattle.week.specs.Written.{batches_of, with_places};

use jobs::model::{Job, JobList};

// Minutes on the station, and a worth.
#[derive(Clone, Copy, Debug, PartialEq, Eq)]
pub struct Recipe {
    pub cost: u16,
    pub worth: u16,
}

impl Recipe {
    // What stands where a batch has no recipe.
    pub const NONE: Recipe = Recipe { cost: 0, worth: 0 };
}

#[derive(Clone, Copy, Debug, PartialEq, Eq)]
pub struct Batch {
    pub number: u16,
    pub arrival: u16,
    pub due: u16,
    // How many of the recipes count; it can hold more than the limit, which refusal 4 is about.
    pub count: usize,
    pub recipes: [Recipe; Batch::MAX_RECIPES],
}

impl Batch {
    pub const MAX_RECIPES: usize = Job::MAX_VERSIONS;

    pub fn empty() -> Batch
        ensures { result ≡ empty_batch }
    {
        Batch {
            number: 0,
            arrival: 0,
            due: 0,
            count: 0,
            recipes: [Recipe::NONE; Batch::MAX_RECIPES],
        }
    }

    // The recipes of a batch that counts n of them, each by its index: the first ten are stored, and empty ones stand beyond them.
    pub fn stored<F: Fn(usize) -> Recipe>(n: usize, recipe: F) -> [Recipe; Batch::MAX_RECIPES]
        requires { (k : ℕ) → k < min n max_recipes → F.pre recipe k }
        ensures first { (k : ℕ) → k < min n max_recipes → F.post recipe k (get_or result k no_recipe) }
        ensures beyond { (k : ℕ) → n ≤ k → get_or result k no_recipe ≡ no_recipe }
    {
        // With its own clause: what would be inferred asks `recipe` for every index.
        let stored = |k: usize| -> Recipe
            requires { k < n → F.pre recipe k }
        { if k < n { recipe(k) } else { Recipe::NONE } };
        std::array::from_fn(stored)
    }

    // Document 01: "A batch's ready minute s is the greater of t and r."
    pub fn ready(self, opening: u16) -> u16
        ensures { result ≡ ready_of opening self }
    {
        opening.max(self.arrival)
    }
}

// A list of a week's batches, with places for N of them: the first `count`, in list order. By value, an array with a count, as document 01
// holds it.
#[derive(Clone, Copy, Debug, PartialEq, Eq)]
pub struct Listing<const N: usize> {
    // Document 01's t and c. No struct of the two: who has them alone makes a list of them or prints them, and would take it apart at once.
    pub opening: u16,
    pub closing: u16,
    // It can hold more than there are places for, which refusal 3 is about.
    pub count: usize,
    pub batches: [Batch; N],
}

impl<const N: usize> Listing<N> {
    pub fn empty(opening: u16, closing: u16) -> Self
        ensures { result ≡ empty_listing N opening closing }
    {
        Listing {
            opening,
            closing,
            count: 0,
            batches: [Batch::empty(); N],
        }
    }

    // Its batches: as many as it counts, and no more than it has places for.
    pub fn listed(&self) -> &[Batch]
        ensures { result.now ≡ batches_of self.now }
    {
        &self.batches[..self.count.min(N)]
    }

    // The same list with M places: the batches that these have room for, and empty ones beyond.
    pub fn with_places<const M: usize>(&self) -> Listing<M>
        ensures { result ≡ with_places M self.now }
    {
        let kept = M.min(N);
        let mut batches = [Batch::empty(); M];
        batches[..kept].copy_from_slice(&self.batches[..kept]);
        Listing {
            opening: self.opening,
            closing: self.closing,
            count: self.count,
            batches,
        }
    }
}

// A const argument is no expression, so that the number has a name of its own.
const MAX_BATCHES: usize = JobList::MAX_JOBS;

// A week's list, as the operations are handed it.
pub type Week = Listing<MAX_BATCHES>;

impl Week {
    pub const MAX_BATCHES: usize = MAX_BATCHES;

    pub const MAX_MINUTES: u16 = JobList::MAX_SPAN;

    // How many of n batches a list has a place for.
    pub fn places(n: usize) -> usize
        ensures { result ≡ min n max_batches }
    {
        n.min(Week::MAX_BATCHES)
    }

    // The minutes from the opening to the close, the close not counted; none where it closes before it opens.
    pub fn minutes(self) -> usize
        ensures { result ≡ span_of self }
    {
        usize::from(self.closing.saturating_sub(self.opening))
    }
}
